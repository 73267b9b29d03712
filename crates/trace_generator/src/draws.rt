//! The numbers of a made trace, and the samples made of them: `Draws::sample` makes a sample by five draws.

ghost use Rattle.std.specs.Prelude.{◌≡◌, ◌%◌, ◌<◌};
ghost use Rattle.trace_model.specs.Recording.{line_said};
ghost use Rattle.trace_generator.specs.Draws.{drawn, state_after, stepped};
ghost use Rattle.trace_generator.specs.Generator.{address_of, event_of, image_names, sample_from};

use crate::mappings::{KERNEL_BASE, LIBRARY_BASE, PROGRAM_BASE, UNMAPPED_BASE};
use sample_key::{Event, Key};
use trace_model::Line;

/// The factor of the generator's step.
const FACTOR: u64 = 6_364_136_223_846_793_005;

/// What the generator's step adds.
const INCREMENT: u64 = 1_442_695_040_888_963_407;

/// A draw leaves out the lower 33 bits of the state.
const LOWER_BITS: u64 = 8_589_934_592;

/// A linear congruential generator modulo 2 to the 64, of which a draw gives the upper 31 bits.
#[derive(Drop)]
pub struct Draws {
    /// The state: at first the seed.
    pub state: u64,
}

impl Draws {
    /// The next number, below 2 to the 31.
    fn draw(&mut self) -> u64
        ensures state { self.new.state ≡ stepped self.old.state }
        ensures drawn { result ≡ drawn (stepped self.old.state) }
    {
        self.state = self.state.wrapping_mul(FACTOR).wrapping_add(INCREMENT);
        self.state / LOWER_BITS
    }

    /// The next sample.
    pub fn sample(&mut self) -> Line
        ensures said { line_said image_names result ≡ sample_from self.old.state }
        ensures state { self.new.state ≡ state_after self.old.state 5 }
    {
        let cpu = (self.draw() % 4) as u32;
        let pid = (1 + self.draw() % 8) as u32;
        let kind = self.draw() % 16;
        let pc = address_of(kind, self.draw());
        let event = event_of(self.draw() % 8);
        Line::Sample {
            cpu,
            key: Key { pc, pid, event },
        }
    }
}

// The program counter of a sample of this kind, 0 to 15: in the kernel, the library, the program, or where nothing is mapped.
fn address_of(kind: u64, draw: u64) -> u64
    ensures address { result ≡ address_of kind draw }
    ensures aligned { result % 4 ≡ 0 }
{
    match kind {
        0..=1 => KERNEL_BASE + 4 * (draw % 1024),
        2..=7 => LIBRARY_BASE + 4 * (draw % 512),
        8..=14 => PROGRAM_BASE + 4 * (draw % 256),
        _ => UNMAPPED_BASE + 4 * (draw % 64),
    }
}

// The event of a choice of eight: five of them are cycles.
fn event_of(choice: u64) -> Event
    ensures { result ≡ event_of choice }
{
    match choice {
        0..=4 => Event::Cycles,
        5 => Event::Imiss,
        6 => Event::Dmiss,
        _ => Event::Branchmp,
    }
}
