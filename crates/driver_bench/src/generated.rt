//! The samples of the benchmark: drawn as those of a machine with eight processes, one kernel and one shared library.
ghost use Rattle.std.specs.Prelude.{◌≡◌, ◌%◌, ◌^◌, ◌<◌, length, IfOk};
ghost use Rattle.driver_play.specs.Plays.{HaveMark};

use sample_key::{Event, Key, Marked};
use std::alloc::{AllocError, Global};

/// A source of numbers: a linear congruence modulo 2^64, of which the upper 31 bits are drawn.
#[derive(Drop)]
struct Draws {
    state: u64,
}

impl Draws {
    /// The next number.
    fn next(&mut self) -> u64
        ensures { result < 2 ^ 31 }
    {
        self.state = self
            .state
            .wrapping_mul(6_364_136_223_846_793_005)
            .wrapping_add(1_442_695_040_888_963_407);
        self.state / 0x2_0000_0000
    }

    /// A sample of one of eight processes: in the kernel, in a shared library, in the program, or in no image.
    fn sample(&mut self) -> Marked
        ensures { result.mark ≡ 0 }
    {
        let _processor = self.next();
        let process = 1 + self.next() % 8;
        let kind = self.next() % 16;
        let pc = place(kind, self.next());
        let event = event_of(self.next() % 8);
        let key = Key {
            pid: process as u32,
            pc,
            event,
        };
        Marked { key, mark: 0 }
    }
}

/// The program counter of a sample of this kind.
fn place(kind: u64, draw: u64) -> u64
    requires { draw < 2 ^ 31 }
    ensures { result % 4 ≡ 0 }
{
    if kind < 2 {
        0xffff_fc00_0000_0000 + 4 * (draw % 1024)
    } else if kind < 8 {
        0x3ff_8000_0000 + 4 * (draw % 512)
    } else if kind < 15 {
        0x1_2000_0000 + 4 * (draw % 256)
    } else {
        0x5_0000_0000 + 4 * (draw % 64)
    }
}

/// The event of a draw below 8: five of them are cycles.
fn event_of(draw: u64) -> Event {
    match draw {
        5 => Event::Imiss,
        6 => Event::Dmiss,
        7 => Event::Branchmp,
        _ => Event::Cycles,
    }
}

/// So many samples, drawn from the seed 1, that stand before all records.
pub(crate) fn samples(alloc: Global, count: usize) -> Result<Vec<Marked>, AllocError>
    ensures { IfOk result (λ v. (length v.items ≡ count) × HaveMark 0 v.items) }
{
    let mut samples = Vec::with_capacity(alloc, count)?;
    let mut draws = Draws { state: 1 };
    for _ in 0..count {
        samples.push(draws.sample())?;
    }
    Ok(samples)
}
