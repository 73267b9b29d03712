//! How a database grows by a run, as definitions: what drains add, one part, the first parts, and which runs fit.
//!
//! `specs/Additions.antt` has the sums by place, `specs/Growth.antt` one part, `specs/Grown.antt` the first parts of a run, and
//! `specs/Fitting.antt` the limits. `specs/Laws.antt` has the laws: growth is determined, the segments of the first parts decide
//! it, and sums add up.
#![tactic(auto)]

mod laws;

pub use laws::{drains_add_up, first_parts_decide, growth_is_determined, heads_are_determined};
