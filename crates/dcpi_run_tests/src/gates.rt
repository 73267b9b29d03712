//! Gates that hold threads until other threads have come, with a limit of tries.
use crossbeam_utils::Backoff;
use outside_io::Gate;
use std::sync::atomic::{AtomicU64, Ordering};

// How often a held thread looks before it gives up.
const MOST_TRIES: u64 = 10_000_000;

// Where the daemon says that a round begins, and that a poll drained something.
const ROUND: u32 = 16;

const DRAINED: u32 = 17;

// Looks until the count is so high; false where the limit of tries is reached first.
fn holds_until(count: &AtomicU64, least: u64) -> bool {
    let backoff = Backoff::new();
    for _ in 0..MOST_TRIES {
        if count.load(Ordering::SeqCst) >= least {
            return true;
        }
        backoff.snooze();
    }
    false
}

/// Holds each of two lanes before its first turn until the other one has come.
#[derive(Drop)]
pub struct Meeting {
    pub first: AtomicU64,
    pub second: AtomicU64,
    /// How often a thread gave up.
    pub given_up: AtomicU64,
}

impl Meeting {
    /// Nobody has come.
    pub fn new() -> Meeting {
        Meeting {
            first: AtomicU64::new(0),
            second: AtomicU64::new(0),
            given_up: AtomicU64::new(0),
        }
    }

    fn meet(&self, own: &AtomicU64, other: &AtomicU64) {
        if own.fetch_add(1, Ordering::SeqCst) == 0 && !holds_until(other, 1) {
            self.given_up.fetch_add(1, Ordering::SeqCst);
        }
    }
}

impl Gate for Meeting {
    fn at(&self, who: u32) {
        match who {
            0 => self.meet(&self.first, &self.second),
            1 => self.meet(&self.second, &self.first),
            _ => {}
        }
    }
}

/// Holds the lane before its t-th turn, for t from 7 to 41, until t - 5 polls have drained something; and the daemon before its
/// r-th round, for r from 1 to 35, until the lane has come r + 6 times.
#[derive(Drop)]
pub struct TurnByTurn {
    turns: AtomicU64,
    rounds: AtomicU64,
    drained: AtomicU64,
    /// How often a thread gave up.
    pub given_up: AtomicU64,
}

impl TurnByTurn {
    /// Nobody has come.
    pub fn new() -> TurnByTurn {
        TurnByTurn {
            turns: AtomicU64::new(0),
            rounds: AtomicU64::new(0),
            drained: AtomicU64::new(0),
            given_up: AtomicU64::new(0),
        }
    }

    fn hold(&self, count: &AtomicU64, least: u64) {
        if !holds_until(count, least) {
            self.given_up.fetch_add(1, Ordering::SeqCst);
        }
    }
}

impl Gate for TurnByTurn {
    fn at(&self, who: u32) {
        match who {
            0 => {
                let before = self.turns.fetch_add(1, Ordering::SeqCst);
                if (6..=40).contains(&before) {
                    self.hold(&self.drained, before - 4);
                }
            }
            ROUND => {
                let before = self.rounds.fetch_add(1, Ordering::SeqCst);
                if before < 35 {
                    self.hold(&self.turns, before + 7);
                }
            }
            DRAINED => {
                self.drained.fetch_add(1, Ordering::SeqCst);
            }
            _ => {}
        }
    }
}
