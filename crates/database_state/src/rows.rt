//! The rows of a head: their order, and the file that each names.

ghost use Rattle.std.specs.Prelude.{◌≡◌, Bool};
ghost use Rattle.database_state.specs.Rows.{is_rising};

use store_io::FileRef;

/// A row of a head: it has a place in an order, and names a file.
pub trait Placed: Copy {
    ghost use Rattle.store_io.specs.declared.file_refs.FileRef.{FileRef as Named};

    ghost before: { Self → Self → Bool };

    ghost same: { Self → Self → Bool };

    ghost file: { Self → Named };

    /// Whether this comes before the other.
    fn is_before(self, other: Self) -> bool
        ensures { result ≡ before self other };

    /// Whether both have one place.
    fn is_same(self, other: Self) -> bool
        ensures { result ≡ same self other };

    /// The file that it names.
    fn file(self) -> FileRef
        ensures { result ≡ file self };
}

/// A row of a head: the profile of an epoch, an image and an event was last written at some generation.
#[derive(Clone, Copy, Debug, PartialEq, Eq)]
pub struct KnownRow {
    /// The epoch.
    pub epoch: u32,
    /// The image's number.
    pub image: u32,
    /// The event's code.
    pub event: u8,
    /// The generation, from 1.
    pub g: u32,
}

impl Placed for KnownRow {
    ghost use Rattle.database_state.specs.Rows.{known_before, known_same, known_ref};

    ghost before = { known_before };

    ghost same = { known_same };

    ghost file = { known_ref };

    fn is_before(self, other: Self) -> bool {
        self.epoch < other.epoch
            || (self.epoch == other.epoch
                && (self.image < other.image
                    || (self.image == other.image && self.event < other.event)))
    }

    fn is_same(self, other: Self) -> bool {
        self.epoch == other.epoch && self.image == other.image && self.event == other.event
    }

    fn file(self) -> FileRef {
        FileRef::Known {
            epoch: self.epoch,
            image: self.image,
            event: self.event,
            g: self.g,
        }
    }
}

/// A row of a head: the unknown profile of an epoch and an event was last written at some generation.
#[derive(Clone, Copy, Debug, PartialEq, Eq)]
pub struct UnknownRow {
    /// The epoch.
    pub epoch: u32,
    /// The event's code.
    pub event: u8,
    /// The generation, from 1.
    pub g: u32,
}

impl Placed for UnknownRow {
    ghost use Rattle.database_state.specs.Rows.{unknown_before, unknown_same, unknown_ref};

    ghost before = { unknown_before };

    ghost same = { unknown_same };

    ghost file = { unknown_ref };

    fn is_before(self, other: Self) -> bool {
        self.epoch < other.epoch || (self.epoch == other.epoch && self.event < other.event)
    }

    fn is_same(self, other: Self) -> bool {
        self.epoch == other.epoch && self.event == other.event
    }

    fn file(self) -> FileRef {
        FileRef::Unknown {
            epoch: self.epoch,
            event: self.event,
            g: self.g,
        }
    }
}

/// Whether each row comes before the next.
pub fn is_rising<R: Placed>(rows: &[R]) -> bool
    ensures { result ≡ is_rising R.before rows.now }
{
    for i in 1..rows.len() {
        if !rows[i - 1].is_before(rows[i]) {
            return false;
        }
    }
    true
}
