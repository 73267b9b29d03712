//! What the daemon took of a processor, in short: enough to tell whether its flush is complete.

ghost use Rattle.std.specs.Prelude.{◌≡◌, ◌^◌, ◌<◌, ◌≤◌};
ghost use Rattle.sample_key.specs.declared.limits.TheConstants.{MOST_SAMPLES};
ghost use Rattle.dcpid_core.specs.Flushes.{IsCounter, flush_took, is_complete, no_flush};

use sample_key::Note;

/// What the daemon took of a processor: how many batches of each buffer, and what the first table batch says that answered the
/// value asked for last.
#[derive(Clone, Copy, Debug, PartialEq, Eq)]
pub struct Flush {
    /// The batches taken of buffer 0.
    pub first: u64,
    /// The batches taken of buffer 1.
    pub second: u64,
    /// The bell value that was answered last while it was asked for, 0 before the first.
    pub answers: u64,
    /// The hands of buffer 0 that the first table batch with this answer names.
    pub sent0: u64,
    /// The hands of buffer 1 that it names.
    pub sent1: u64,
}

impl Flush {
    // Nothing was taken.
    pub(crate) fn none() -> Flush
        ensures { result ≡ no_flush }
    {
        Flush {
            first: 0,
            second: 0,
            answers: 0,
            sent0: 0,
            sent1: 0,
        }
    }

    // A batch of this cell was taken, while this value is asked for or is the next to be.
    pub(crate) fn take(&mut self, value: u64, cell: u8, note: &Note)
        ensures took { self.new ≡ flush_took value self.old cell note.now }
        ensures counter { IsCounter note.now }
        ensures few { note.now.upto ≤ MOST_SAMPLES }
    {
        let answers = note.answers;
        let sent0 = counter(note.sent0);
        let sent1 = counter(note.sent1);
        if cell == 0 {
            self.first = self.first.saturating_add(1);
        } else if cell == 1 {
            self.second = self.second.saturating_add(1);
        } else if answers == value && self.answers != value {
            self.answers = value;
            self.sent0 = sent0;
            self.sent1 = sent1;
        }
    }

    // Whether the flush that this value asks for is complete.
    pub(crate) fn is_complete(&self, value: u64) -> bool
        ensures { result ≡ is_complete value self.now }
    {
        self.answers == value && self.sent0 <= self.first && self.sent1 <= self.second
    }
}

// The number of a counter, which fits it: callers learn so of the numbers of a note.
fn counter(number: u64) -> u64
    ensures same { result ≡ number }
    ensures fits { number < 2 ^ 64 }
{
    number
}
