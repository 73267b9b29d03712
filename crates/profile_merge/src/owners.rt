//! Whose profile a count belongs to.

use database_state::FullWhat;
use sample_key::Event;

/// Whose profile a count belongs to: an image's, or that of the samples with no known mapping. The order is that in which a
/// commit writes profiles, where images are given by their numbers.
#[derive(Clone, Copy, Debug, PartialEq, Eq, PartialOrd, Ord)]
pub enum Owner {
    /// The profile of an image for an event in an epoch.
    Known {
        epoch: u32,
        image: u32,
        event: Event,
    },
    /// The profile of the unknown samples of an event in an epoch.
    Unknown {
        epoch: u32,
        event: Event,
    },
}

impl Owner {
    ghost use Rattle.std.specs.Prelude.{◌≡◌};
    ghost use Rattle.profile_merge.specs.Faults.{full_at};

    /// A place in its profile, as a fault names it.
    pub(crate) fn full_at(self, offset: u64) -> FullWhat
        ensures { result ≡ full_at self offset }
    {
        match self {
            Owner::Known {
                epoch,
                image,
                event,
            } => FullWhat::Known {
                epoch,
                image,
                event: event.code(),
                offset,
            },
            Owner::Unknown { epoch, event } => FullWhat::Unknown {
                epoch,
                event: event.code(),
                pc: offset,
            },
        }
    }
}
