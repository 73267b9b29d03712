//! The header that travels with every batch.
use std::marker::Model;

/// The header of a batch: whose it is, and how far the driver had come when it handed it over.
#[derive(Clone, Copy, Debug, PartialEq, Eq)]
pub struct Note {
    /// The processor, at most 15.
    pub cpu: u32,
    /// What was handed: 0 and 1 are the overflow buffers, 2 is the table.
    pub cell: u8,
    /// The number of this hand of the cell, from 1.
    pub number: u64,
    /// How many samples the driver had taken or lost by then, at most 2,000,000.
    pub upto: u64,
    /// The bell value that a table answers; 0 for a buffer.
    pub answers: u64,
    /// The hands of buffer 0 by then, this one included.
    pub sent0: u64,
    /// The hands of buffer 1 by then, this one included.
    pub sent1: u64,
}

impl Model for Note {
    ghost use Rattle.std.specs.Prelude.{◌≤◌};
    ghost use Rattle.sample_key.specs.Headers.{Header};
    ghost use Rattle.sample_key.specs.declared.limits.TheConstants.{LAST_CELL, LAST_CPU, MOST_SAMPLES};

    ghost Value = { Header };

    ghost view = { λ n. record {
      cpu = n.cpu;
      cell = n.cell;
      number = n.number;
      upto = n.upto;
      answers = n.answers;
      sent0 = n.sent0;
      sent1 = n.sent1;
    } };

    ghost invariant = { λ n. (n.cpu ≤ LAST_CPU) × (n.cell ≤ LAST_CELL)
        × (1 ≤ n.number) × (n.upto ≤ MOST_SAMPLES) };

    ghost inverse = { λ h. record {
      cpu = h.cpu;
      cell = h.cell;
      number = h.number;
      upto = h.upto;
      answers = h.answers;
      sent0 = h.sent0;
      sent1 = h.sent1;
    } };
}
