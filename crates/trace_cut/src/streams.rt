//! Cuts a trace into the samples of each processor and the records: `Cutter` takes the lines as they come, `cut` those of a
//! whole trace.

ghost use Rattle.std.specs.Prelude.{◌≡◌, List, [], ◌∷◌, ◌++◌, length, OnOk, IfOk};
ghost use Rattle.trace_model.specs.Streams.{records_from, streams_in, records_in};
ghost use Rattle.trace_model.specs.Traces.{recording_of};
ghost use Rattle.trace_cut.specs.Cutting.{lanes_in, streams_from};

use sample_key::Marked;
use std::alloc::{AllocError, Global};
use std::marker::Model;
use told_list::Told;
use trace_model::{Line, Record, Trace};

/// The samples of a trace, by processor, and its records.
#[derive(Drop)]
pub struct Streams {
    /// For each processor, from 0 on, its samples in the trace's order, each with its mark: how many of the records stand
    /// before it.
    pub lanes: Vec<Vec<Marked>>,
    /// The records, in the trace's order.
    pub records: Vec<Record>,
}

/// Cuts lines as they come. Contracts see the lines so far, though none is kept, and for how many processors they are cut.
#[derive(Drop)]
pub struct Cutter {
    told: Told<Line>,
    streams: Streams,
}

impl Model for Cutter {
    ghost use Rattle.std.specs.Prelude.{length};
    ghost use Rattle.trace_cut.specs.Cutting.{AreCut, SoFar};

    ghost Value = { SoFar };

    ghost view = { λ c. record { lines = c.told.items; cpus = length c.streams.lanes.items } };

    ghost invariant = { λ c. AreCut c.streams.lanes.items c.streams.records.items c.told.items };
}

impl Cutter {
    /// A cutter for so many processors, before the first line.
    pub fn new(alloc: Global, cpus: u32) -> Result<Cutter, AllocError>
        ensures { IfOk result (λ cutter. cutter ≡ record { lines = []; cpus = cpus }) }
    {
        Ok(Cutter {
            told: Told::new(),
            streams: Streams {
                lanes: no_samples(alloc, cpus)?,
                records: Vec::new(alloc),
            },
        })
    }

    /// Takes the next line. A sample of a processor that there is not goes into no stream.
    pub fn take(&mut self, line: &Line) -> Result<(), AllocError>
        ensures { OnOk result (self.new
            ≡ record { lines = self.old.lines ++ line.now ∷ []; cpus = self.old.cpus }) }
    {
        match line {
            Line::Sample { cpu, key } => {
                let sample = Marked {
                    key: *key,
                    mark: self.streams.records.len() as u64,
                };
                let at = *cpu as usize;
                if at < self.streams.lanes.len() {
                    self.streams.lanes[at].push(sample)?;
                }
            }
            Line::Rec(notice) => self.streams.records.push(*notice)?,
        }
        self.told = self.told.and(line);
        Ok(())
    }

    /// The lines that were taken, for clauses alone, and their streams.
    pub fn finish(self) -> (Told<Line>, Streams)
        ensures told { result.0.items ≡ self.lines }
        ensures lanes { lanes_in result.1.lanes.items ≡ streams_from self.cpus self.lines }
        ensures records { result.1.records.items ≡ records_from self.lines }
    {
        (self.told, self.streams)
    }
}

/// Cuts a trace into the samples of each processor and the records.
pub fn cut(alloc: Global, trace: &Trace) -> Result<Streams, AllocError>
    ensures lanes { IfOk result (λ streams.
        lanes_in streams.lanes.items ≡ streams_in (recording_of trace.now)) }
    ensures records { IfOk result (λ streams.
        streams.records.items ≡ records_in (recording_of trace.now)) }
{
    let mut cutter = Cutter::new(alloc, trace.cpus)?;
    for line in &trace.lines {
        cutter.take(line)?;
    }
    let (_, streams) = cutter.finish();
    Ok(streams)
}

// A list without samples for each of so many processors.
fn no_samples(alloc: Global, cpus: u32) -> Result<Vec<Vec<Marked>>, AllocError>
    ensures { IfOk result (λ lanes. lanes_in lanes.items ≡ streams_from cpus []) }
{
    let mut lanes = Vec::new(alloc);
    for _ in 0..cpus {
        lanes.push(Vec::new(alloc))?;
    }
    Ok(lanes)
}
