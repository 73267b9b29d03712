//! What a whole run gives.
use driver_model::Stats;
use run_record::RunRecord;

/// What a whole run gives: its record, and what the drivers counted.
#[derive(Drop)]
pub struct Outcome {
    /// The record of the run: its drains in order, and the losses of each processor.
    pub kept: RunRecord,
    /// The statistics of each driver, by processor.
    pub stats: Vec<Stats>,
}
