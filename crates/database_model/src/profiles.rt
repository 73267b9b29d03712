//! A row of a profile.

/// How often one place was counted: a row of a profile, of which there is one for each image and event
/// (Anderson et al., ACM TOCS 15(4), section 4.3.3).
#[derive(Clone, Copy, Debug, PartialEq, Eq)]
pub struct ProfileRow {
    /// The offset into the image, or the program counter in a profile of unknown samples; a multiple of 4.
    pub offset: u64,
    /// The count, from 1 to 2^48.
    pub count: u64,
}
