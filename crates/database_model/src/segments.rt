//! A run as it is kept: a drain, a part of a run, and the record of a whole run.

use sample_key::{Batch, Loss};
use std::marker::Model;

/// A batch that the daemon took from the driver.
#[derive(Debug, Drop)]
pub struct Drain {
    /// How many records of the trace were in force, at most 65,536.
    pub at: u32,
    /// The epoch in which the batch was merged.
    pub epoch: u32,
    /// The batch.
    pub batch: Batch,
    /// For each entry of the batch, whether its place was found in the load map.
    pub known: Vec<bool>,
}

impl Model for Drain {
    ghost use Rattle.database_model.specs.Runs.{Drained};

    ghost Value = { Drained };

    ghost view = { λ d. record {
      at = d.at;
      epoch = d.epoch;
      batch = d.batch;
      known = d.known.items;
    } };
}

/// A part of a run, as one commit stores it.
#[derive(Debug, Drop)]
pub struct RunSegment {
    /// The number of the run, from 1.
    pub run: u32,
    /// The number of this part, from 0, at most 1,024.
    pub part: u32,
    /// Whether this is the run's last part.
    pub last: bool,
    /// The epoch in which the run began.
    pub first_epoch: u32,
    /// The drains of this part, in order.
    pub drains: Vec<Drain>,
    /// The lost samples of each processor, by rising index; empty where this is not the last part.
    pub losses: Vec<Vec<Loss>>,
}

impl Model for RunSegment {
    ghost use Rattle.std.specs.Prelude.{map};
    ghost use Rattle.database_model.specs.Runs.{Segment};

    ghost Value = { Segment };

    ghost view = { λ s. record {
      run = s.run;
      part = s.part;
      last = s.last;
      first_epoch = s.first_epoch;
      drains = s.drains.items;
      losses = map (λ v. v.items) s.losses.items;
    } };
}

/// What is kept of a whole run.
#[derive(Debug, Drop)]
pub struct RunRecord {
    /// The number of the run, from 1.
    pub run: u32,
    /// The epoch in which the run began.
    pub first_epoch: u32,
    /// All drains, in order.
    pub drains: Vec<Drain>,
    /// The lost samples of each processor, by rising index.
    pub losses: Vec<Vec<Loss>>,
}

impl Model for RunRecord {
    ghost use Rattle.std.specs.Prelude.{map};
    ghost use Rattle.database_model.specs.Runs.{Recorded};

    ghost Value = { Recorded };

    ghost view = { λ r. record {
      run = r.run;
      first_epoch = r.first_epoch;
      drains = r.drains.items;
      losses = map (λ v. v.items) r.losses.items;
    } };
}
