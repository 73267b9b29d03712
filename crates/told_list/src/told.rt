//! `Told`: the list, and the calls that make one.
ghost use Rattle.std.specs.Prelude.{◌≡◌, List, [], ◌∷◌, ◌++◌};
ghost use Rattle.std.specs.Borrow.{ftrue};

use std::marker::{Model, PhantomData};

/// A list as clauses see it: `items`. Whoever lets values go keeps one, so that a contract can still speak of them all.
#[derive(Drop)]
pub struct Told<T> {
    of: PhantomData<T>,
    /// The values, in order.
    pub ghost items: { List T },
}

impl<T> Model for Told<T> {
    ghost also_owns = { λ _. ftrue };
}

impl<T> Told<T> {
    /// The list of no value.
    pub fn new() -> Told<T>
        ensures { result.items ≡ [] }
    {
        Told { of: PhantomData }
    }

    /// The list with this value behind it.
    pub fn and(&self, value: &T) -> Told<T>
        ensures { result.items ≡ self.now.items ++ value.now ∷ [] }
    {
        Told { of: PhantomData }
    }

    /// The list of these values.
    pub fn all(values: &Vec<T>) -> Told<T>
        ensures { result.items ≡ values.now.items }
    {
        Told { of: PhantomData }
    }
}
