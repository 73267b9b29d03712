//! The driver's overflow buffers: what the table gives out is written to the active one, while the other may be with the
//! daemon to be copied out (Anderson et al., ACM TOCS 15(4), section 4.2.1).
//! `Buffer` holds the entries, `Pair` says which buffer is active and how often each was handed.
#![tactic(auto)]

mod buffers;
mod limits;
mod pairs;

pub use buffers::Buffer;
pub use limits::MOST_BUFFER;
pub use pairs::Pair;
