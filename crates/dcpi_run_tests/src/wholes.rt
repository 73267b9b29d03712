//! Runs of whole traces that are borrowed: the library's call beside the one that the program makes.
use crate::calls::sound_store;
use crate::traces::FOLD;
use epoch_store::open_database;
use outside_io::{ListedFaults, MemSource, OpenGate};
use run_drive::run;
use sample_key::Pace;
use std::test::Fail;
use trace_text::read_trace;

#[test]
fn a_whole_trace_is_run(rt: HostRuntime) -> Result<(), Fail> {
    let alloc = rt.alloc();
    for pace in [Pace::Free, Pace::Exact] {
        let mut source = MemSource::new(FOLD.to_vec(alloc)?, ListedFaults::none(alloc));
        let mut store = sound_store(alloc);
        let trace = read_trace(alloc, &mut source)?;
        let db = open_database(alloc, &mut store)?;
        let outcome = run(&rt, alloc, &trace, db, &mut store, pace, &OpenGate)?;
        assert_eq!(rt; outcome.kept.run, 1);
        assert_eq!(rt; outcome.stats.len(), 1);
        assert_eq!(rt; (outcome.stats[0].placed, outcome.stats[0].folded), (1, 2));
    }
    Ok(())
}
