//! What passes through a cell, and what its two ends answer.
ghost use Rattle.std.specs.Prelude.{ℕ};

/// A value while it is handed over.
#[derive(Drop)]
pub struct Parcel<V> {
    /// The hands of the cell so far, this one included.
    pub number: u64,
    /// A mark of the sender's, which the cell passes on.
    pub upto: u64,
    /// What is handed over.
    pub value: V,
}

/// The answer of a look at the cell by the end that hands over.
#[derive(Drop)]
pub enum Look<T> {
    /// The value is back, and this end holds it now.
    Back(T),
    /// The value is out. The word that was read is odd.
    Out(u64),
}

/// The answer of a poll of the cell by the end that takes. A layer above may have a parcel type of
/// its own.
#[derive(Drop)]
pub enum PollOf<P> {
    /// A parcel was there, and this end holds its value now.
    Parcel(P),
    /// The value is at home. The word that was read is even.
    Home(u64),
}

/// The answer of a poll of a turn cell.
pub type Poll<V> = PollOf<Parcel<V>>;

/// A value that a cell may hand over.
pub trait Kept: Drop {
    ghost use Rattle.std.specs.Prelude.{Option};
    ghost use Rattle.turn_cell.specs.declared.passing.Parcel.{Parcel};

    /// Plain data, which is fixed when a cell is made.
    type Key: Drop;

    /// The fact of every parcel that is handed.
    ghost keeps: { Self.Key → Parcel Self → Type 0 };

    /// The fact of every value at home, where the parcel handed last is given, if there was one.
    ghost returns: { Self.Key → Option (Parcel Self) → Self → Type 0 };
}
