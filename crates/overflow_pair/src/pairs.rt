//! The two overflow buffers of a driver, as far as the driver has them: the active one, and how often each was handed.
//! In `count_hand` and `hands_of` stands once what a hand of either buffer changes.
ghost use Rattle.std.specs.Prelude.{◌≡◌, ◌^◌, ◌<◌, None, Some, IsSomeAnd};
ghost use Rattle.driver_model.specs.Driver.{pair_handed, hands_of};
ghost use Rattle.overflow_pair.specs.Contents.{Contents, HasSpace, Pushes};
ghost use Rattle.overflow_pair.specs.Pairs.{buffers_of};

use crate::buffers::Buffer;
use sample_key::Entry;

/// The two overflow buffers as the driver has them: it holds at most one, the active one.
#[derive(Drop)]
pub struct Pair {
    /// The buffer that entries are written to, where the driver holds one.
    pub active: Option<Buffer>,
    /// The number of the active buffer, 0 or 1; it means nothing where none is active.
    pub active_number: u8,
    /// The number of the buffer to look at first, 0 or 1.
    pub next: u8,
    /// How often buffer 0 was handed.
    pub hands0: u64,
    /// How often buffer 1 was handed.
    pub hands1: u64,
}

impl Pair {
    /// No active buffer, and all numbers 0.
    pub fn new() -> Pair
        ensures active { result.active ≡ None }
        ensures numbers { (result.active_number ≡ 0) × (result.next ≡ 0) }
        ensures hands { (result.hands0 ≡ 0) × (result.hands1 ≡ 0) }
    {
        Pair {
            active: None,
            active_number: 0,
            next: 0,
            hands0: 0,
            hands1: 0,
        }
    }

    /// Appends an entry to the active buffer, in place. Where that is full now, it is taken out and given.
    #[inline(always)]
    pub fn push(&mut self, entry: Entry) -> Option<Buffer>
        requires { IsSomeAnd self.old.active HasSpace }
        ensures pushes { (b : Contents) → self.old.active ≡ Some b
            → Pushes b entry result self.new.active }
        ensures rest { self.new ≡ record self.old { active = self.new.active } }
    {
        match &mut self.active {
            Some(buffer) => {
                buffer.push(entry);
                if !buffer.is_full() {
                    return None;
                }
            }
            None => unreachable!(),
        }
        self.active.take()
    }

    /// Counts the hand of the active buffer, which was taken out: the other is to be looked at first.
    pub fn count_hand(&mut self)
        requires gone { self.old.active ≡ None }
        requires few0 { self.old.hands0 < 2 ^ 62 }
        requires few1 { self.old.hands1 < 2 ^ 62 }
        ensures pair { buffers_of self.new ≡ pair_handed
            (buffers_of self.old) self.old.active_number }
        ensures gone { self.new.active ≡ None }
    {
        if self.active_number == 0 {
            self.next = 1;
            self.hands0 += 1;
        } else {
            self.next = 0;
            self.hands1 += 1;
        }
    }

    /// How often the buffer of this number, 0 or 1, was handed.
    pub fn hands_of(&self, b: u8) -> u64
        ensures { result ≡ hands_of (buffers_of self.now) b }
    {
        if b == 0 { self.hands0 } else { self.hands1 }
    }
}
