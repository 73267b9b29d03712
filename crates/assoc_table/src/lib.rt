//! The driver's table of counted entries: buckets of four ways, as the hash table of each processor has them (Anderson et
//! al., ACM TOCS 15(4), section 4.2.1). A sample that matches an entry raises its count; else it takes a free way, or an
//! entry is evicted, whose way is chosen by one counter that goes round.
//! The entry is `AssocTable::add`; whatever the table loses of an entry it gives out.
#![tactic(auto)]

mod buckets;
mod limits;
mod tables;

pub use driver_model::Added;
pub use limits::{MOST_BUCKETS, WAYS};
pub use tables::AssocTable;
