//! Why a line of a trace is refused.

use thiserror::Error;

/// Why a line is refused, in the order in which a line is tested; `NoEnd` is for an input that stops too early.
#[derive(Clone, Copy, Debug, PartialEq, Eq, Error)]
pub enum TraceWhy {
    /// The first line is no header.
    #[error("the first line is no header")]
    NotHeader,
    /// A line of the body has none of the forms of the body.
    #[error("the line has no form of the body")]
    BadWord,
    /// A line behind `end` has none of the forms of the schedule, or the last has no line feed.
    #[error("what stands after the end has no form of the schedule")]
    AfterEnd,
    /// A number has a leading zero, an upper-case digit, or is none.
    #[error("a number is not canonical")]
    BadNumber,
    /// A number is out of the range of its field.
    #[error("a number is out of its range")]
    OutOfRange,
    /// An address or a length is no multiple of 4.
    #[error("an address or a length is no multiple of 4")]
    Unaligned,
    /// An image is no name: 1 to 255 visible ASCII bytes.
    #[error("an image is no name")]
    BadName,
    /// A processor is not below the number that the header gives.
    #[error("there is no such processor")]
    NoSuchCpu,
    /// A scan stands behind a line other than the header, scans and mappings of the kernel.
    #[error("a scan stands too late")]
    ScanTooLate,
    /// A sample past the 2,000,000th.
    #[error("there are too many samples")]
    TooManySamples,
    /// A record past the 65,536th, a record that ends a part past the 1,024th, or a step past the 4,000,000th.
    #[error("there are too many records or steps")]
    TooManyRecords,
    /// The input stops before its line `end`.
    #[error("the input stops before its end")]
    NoEnd,
}
