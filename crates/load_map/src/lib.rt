//! The load map: which image is mapped where, by the records that came so far (Anderson et al., ACM TOCS 15(4),
//! section 4.3). Each process has an ordered list of ranges without overlaps, and so has the kernel; an address is found
//! by halving.
#![tactic(auto)]

mod maps;
mod ranges;

pub use maps::LoadMap;
pub use ranges::Range;
pub use trace_model::Place;
