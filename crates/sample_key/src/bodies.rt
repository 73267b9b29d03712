//! What a buffer and the table have in common: a list of entries that is copied out and cleared.
ghost use Rattle.std.specs.Prelude.{◌≡◌, ◌≤◌, ◌++◌, List, [], length, vec_capacity, IsOk, OnOk, OnErr};
ghost use Rattle.sample_key.specs.Counted.{Counted};
ghost use Rattle.sample_key.specs.Room.{HasRoom};

use crate::entries::Entry;
use std::alloc::AllocError;

/// What is handed over, seen as a list of entries: an overflow buffer or a table.
pub trait Body {
    ghost entries: { Self → List Counted };

    /// Appends the entries to `out`; after a refusal of memory `out` is as before. Where `out` has room for them, no memory is
    /// taken and nothing is refused.
    fn copy_to(&self, out: &mut Vec<Entry>) -> Result<(), AllocError>
        ensures ok { OnOk result (out.new.items ≡ out.old.items ++ entries self.now) }
        ensures err { OnErr result (out.new.items ≡ out.old.items) }
        ensures room { HasRoom out.old (length (entries self.now)) → IsOk result }
        ensures capacity { vec_capacity out.old ≤ vec_capacity out.new };

    /// Takes all entries away.
    fn clear(&mut self)
        ensures { entries self.new ≡ [] };
}
