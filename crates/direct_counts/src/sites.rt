//! Where samples lie that are counted together, as numbers: the keys of the table.
use sample_key::Event;
use std::hash::{Hash, Hasher};

/// A place that samples are counted at, in the order in which counts are listed.
#[derive(Clone, Copy, PartialEq, Eq, PartialOrd, Ord)]
pub enum Site {
    /// At an offset of an image, by the rank of its name.
    Known {
        epoch: u32,
        rank: usize,
        event: Event,
        offset: u64,
    },
    /// At a program counter with no known mapping.
    Unknown {
        epoch: u32,
        event: Event,
        pc: u64,
    },
}

impl Hash for Site {
    ghost use Rattle.std.proofs.Common.{rules};
    ghost use Rattle.std.specs.Cmp.Rules.{hashing};
    ghost use Rattle.direct_counts.specs.Hashes.{hash_input_of};

    ghost hash_input = { hash_input_of };

    ghost respects_eq = { Prim.search (hashing, rules) };

    fn hash<H: Hasher>(&self, state: &mut H) {
        match self {
            Site::Known {
                epoch,
                rank,
                event,
                offset,
            } => {
                state.write_u32(*epoch);
                state.write_usize(*rank);
                state.write_u8(event.code());
                state.write_u64(*offset);
            }
            Site::Unknown { epoch, event, pc } => {
                state.write_u32(*epoch);
                state.write_u8(event.code());
                state.write_u64(*pc);
            }
        }
    }
}
