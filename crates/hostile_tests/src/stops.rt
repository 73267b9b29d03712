//! Each call of the store fails in turn, and leaves what a failed call may leave: the status, what the database is
//! then, and that the next run goes on.
use crate::calls::{Asked, Given, call_of, gives, is_asked};
use crate::traces::{
    CAT, FLUSH, REPLAY, RUNS, TWO_EPOCHS, WORK_COUNTS, WORK_RUN, WORK_SUMMARY, work,
};
use dcpi_run_top::dcpi;
use outside_io::{ListedFaults, MemSink, MemSource, OpenGate};
use std::alloc::Global;
use std::process::Abort;
use std::sync::Wait;
use std::test::Fail;
use std::thread::Threads;
use store_io::{Left, MemStore, StoreFail};

/// What a failed call leaves under its name.
#[derive(Clone, Copy)]
enum Leaves {
    Absent,
    AsBefore,
    OneByte,
}

const LEFTOVERS: [Leaves; 3] = [Leaves::Absent, Leaves::AsBefore, Leaves::OneByte];

/// A database as it is listed: its counts and its runs.
struct Listed<'a> {
    counts: &'a [u8],
    runs: &'a [u8],
}

/// A run that is stopped.
struct Stopped<'a> {
    /// The call of an earlier replay of the same trace that failed, and left nothing; 0 where there was none.
    earlier: u64,
    /// How many calls of the store the run makes.
    calls: u64,
    /// The calls that write a seal.
    seals: &'a [u64],
    /// The summary where none fails.
    summary: &'a [u8],
    /// The database before the run, and after each seal.
    states: &'a [Listed<'a>],
}

const EMPTY: Listed = Listed {
    counts: b"",
    runs: b"",
};

// The names are asked for; then an unknown profile, the segment, the head and the seal are written.
const FLUSHED: Stopped = Stopped {
    earlier: 0,
    calls: 5,
    seals: &[5],
    summary: b"run 1\nc 0 cycles taken 3 known 0 unknown 3 lost 0\nt 0 folded 0 placed 1 evicted 0 spilt 0 direct 2\ntotal taken 3 known 0 unknown 3 lost 0\n",
    states: &[
        EMPTY,
        Listed {
            counts: b"u 0 cycles 1000 1\nu 0 cycles 1004 1\nu 0 cycles 1008 1\n",
            runs: b"run 1 parts 1 whole\nc 0 cycles taken 3 known 0 unknown 3 lost 0\n",
        },
    ],
};

const FIRST_OF_EPOCHS: Listed = Listed {
    counts: b"k 0 A cycles 0 1\n",
    runs: b"run 1 parts 1 cut\nc 0 cycles taken 1 known 1 unknown 0 lost 0\n",
};

// The names, and then four files for each of two parts.
const IN_EPOCHS: Stopped = Stopped {
    earlier: 0,
    calls: 9,
    seals: &[5, 9],
    summary: b"run 1\nc 0 cycles taken 2 known 2 unknown 0 lost 0\nt 0 folded 0 placed 2 evicted 0 spilt 0 direct 0\ntotal taken 2 known 2 unknown 0 lost 0\n",
    states: &[
        EMPTY,
        FIRST_OF_EPOCHS,
        Listed {
            counts: b"k 0 A cycles 0 1\nk 1 A cycles 0 1\n",
            runs: b"run 1 parts 2 whole\nc 0 cycles taken 2 known 2 unknown 0 lost 0\n",
        },
    ],
};

// The names, six profiles, an unknown one, the segment, the head and the seal.
const WORKED: Stopped = Stopped {
    earlier: 0,
    calls: 11,
    seals: &[11],
    summary: WORK_SUMMARY,
    states: &[
        EMPTY,
        Listed {
            counts: WORK_COUNTS,
            runs: WORK_RUN,
        },
    ],
};

// The fifth write of an earlier replay failed, and left its first part, behind which the epoch 1 begins. The second run
// asks for the names and reads the head, and writes four files for each part.
const AFTER_A_CUT: Stopped = Stopped {
    earlier: 6,
    calls: 10,
    seals: &[6, 10],
    summary: b"run 2\nc 0 cycles taken 2 known 2 unknown 0 lost 0\nt 0 folded 0 placed 2 evicted 0 spilt 0 direct 0\ntotal taken 2 known 2 unknown 0 lost 0\n",
    states: &[
        FIRST_OF_EPOCHS,
        Listed {
            counts: b"k 0 A cycles 0 1\nk 1 A cycles 0 1\n",
            runs: b"run 1 parts 1 cut\nc 0 cycles taken 1 known 1 unknown 0 lost 0\nrun 2 parts 1 cut\nc 0 cycles taken 1 known 1 unknown 0 lost 0\n",
        },
        Listed {
            counts: b"k 0 A cycles 0 1\nk 1 A cycles 0 1\nk 2 A cycles 0 1\n",
            runs: b"run 1 parts 1 cut\nc 0 cycles taken 1 known 1 unknown 0 lost 0\nrun 2 parts 2 whole\nc 0 cycles taken 2 known 2 unknown 0 lost 0\n",
        },
    ],
};

const FAULT: Asked = Asked {
    words: REPLAY,
    status: 4,
    out: b"",
    err: b"dcpi: store fault\n",
};

impl Stopped<'_> {
    // An empty store in which a call of the run fails, and one of the earlier replay where there is one.
    fn store(&self, alloc: Global, call: u64, leaves: Leaves) -> Result<MemStore, Fail> {
        let mut fails = Vec::new(alloc);
        if self.earlier > 0 {
            let left = Left::Absent;
            fails.push(StoreFail {
                call: self.earlier,
                left,
            })?;
        }
        let left = match leaves {
            Leaves::Absent => Left::Absent,
            Leaves::AsBefore => Left::AsBefore,
            Leaves::OneByte => Left::Bytes(b"\x01".to_vec(alloc)?),
        };
        fails.push(StoreFail {
            call: self.earlier.saturating_add(call),
            left,
        })?;
        Ok(MemStore::new(alloc, fails))
    }

    // Makes the earlier replay, where there is one.
    fn begin(
        &self,
        rt: &impl Abort,
        alloc: Global,
        trace: &[u8],
        store: &mut MemStore,
    ) -> Result<(), Fail> {
        if self.earlier > 0 {
            gives(rt, alloc, &FAULT, trace, store)?;
        }
        Ok(())
    }

    // How many parts are in the database where this call fails: those whose seals were written before, and the one
    // whose seal it leaves torn, since the bytes of a seal do not matter.
    fn parts(&self, call: u64, leaves: Leaves) -> usize {
        let before = self.seals.iter().filter(|seal| **seal < call).count();
        match leaves {
            Leaves::OneByte if self.seals.contains(&call) => before.saturating_add(1),
            _ => before,
        }
    }

    // Compares what was given, and lists the database.
    fn ends(
        &self,
        rt: &impl Abort,
        alloc: Global,
        given: &Given,
        parts: usize,
        store: &mut MemStore,
    ) -> Result<(), Fail> {
        is_asked(rt, given, &FAULT);
        let listed = self.states.get(parts).ok_or("no such part")?;
        for (words, out) in [(CAT, listed.counts), (RUNS, listed.runs)] {
            let asked = Asked {
                words,
                status: 0,
                out,
                err: b"",
            };
            gives(rt, alloc, &asked, b"", store)?;
        }
        Ok(())
    }

    // Where no call fails, so many calls are enough.
    fn whole(&self) -> Asked<'_> {
        Asked {
            words: REPLAY,
            status: 0,
            out: self.summary,
            err: b"",
        }
    }
}

fn replay_stops(
    rt: &impl Abort,
    alloc: Global,
    stopped: &Stopped<'_>,
    trace: &[u8],
) -> Result<(), Fail> {
    for call in 1..stopped.calls.saturating_add(1) {
        for leaves in LEFTOVERS {
            let mut store = stopped.store(alloc, call, leaves)?;
            stopped.begin(rt, alloc, trace, &mut store)?;
            let given = call_of(alloc, REPLAY, trace, &mut store)?;
            let parts = stopped.parts(call, leaves);
            stopped.ends(rt, alloc, &given, parts, &mut store)?;
            let again = call_of(alloc, REPLAY, trace, &mut store)?;
            assert_eq!(rt; again.status, 0);
        }
    }
    let unused = stopped.calls.saturating_add(1);
    let mut store = stopped.store(alloc, unused, Leaves::Absent)?;
    stopped.begin(rt, alloc, trace, &mut store)?;
    gives(rt, alloc, &stopped.whole(), trace, &mut store)
}

#[test]
fn a_replay_with_a_flush_stops(rt: HostRuntime) -> Result<(), Fail> {
    replay_stops(&rt, rt.alloc(), &FLUSHED, FLUSH)
}

#[test]
fn a_replay_of_two_epochs_stops(rt: HostRuntime) -> Result<(), Fail> {
    replay_stops(&rt, rt.alloc(), &IN_EPOCHS, TWO_EPOCHS)
}

#[test]
fn a_replay_behind_a_cut_run_stops(rt: HostRuntime) -> Result<(), Fail> {
    replay_stops(&rt, rt.alloc(), &AFTER_A_CUT, TWO_EPOCHS)
}

#[test]
fn a_replay_of_work_stops(rt: HostRuntime) -> Result<(), Fail> {
    let trace = work(rt.alloc())?;
    replay_stops(&rt, rt.alloc(), &WORKED, &trace)
}

// A run by threads that counts as one thread does.
fn run_exactly<R: Threads + Wait + Sync>(
    rt: &R,
    alloc: Global,
    trace: &[u8],
    store: &mut MemStore,
) -> Result<Given, Fail> {
    let mut words = Vec::new(alloc);
    for word in ["run", "db", "--pace", "exact"] {
        words.push(String::from_str(alloc, word)?)?;
    }
    let mut source = MemSource::new(trace.to_vec(alloc)?, ListedFaults::none(alloc));
    let mut out = MemSink::new(alloc, ListedFaults::none(alloc));
    let mut err = MemSink::new(alloc, ListedFaults::none(alloc));
    let status = dcpi(
        rt,
        alloc,
        &words,
        &mut source,
        store,
        &mut out,
        &mut err,
        &OpenGate,
    );
    Ok(Given {
        status,
        out: out.bytes().to_vec(alloc)?,
        err: err.bytes().to_vec(alloc)?,
    })
}

fn run_stops<R: Threads + Wait + Abort + Sync>(
    rt: &R,
    alloc: Global,
    stopped: &Stopped<'_>,
    trace: &[u8],
) -> Result<(), Fail> {
    for call in 1..stopped.calls.saturating_add(1) {
        for leaves in LEFTOVERS {
            let mut store = stopped.store(alloc, call, leaves)?;
            let given = run_exactly(rt, alloc, trace, &mut store)?;
            let parts = stopped.parts(call, leaves);
            stopped.ends(rt, alloc, &given, parts, &mut store)?;
        }
    }
    let mut store = stopped.store(alloc, stopped.calls.saturating_add(1), Leaves::Absent)?;
    let given = run_exactly(rt, alloc, trace, &mut store)?;
    is_asked(rt, &given, &stopped.whole());
    Ok(())
}

#[test]
fn a_run_of_work_stops(rt: HostRuntime) -> Result<(), Fail> {
    let trace = work(rt.alloc())?;
    run_stops(&rt, rt.alloc(), &WORKED, &trace)
}

#[test]
fn a_run_of_two_epochs_stops(rt: HostRuntime) -> Result<(), Fail> {
    run_stops(&rt, rt.alloc(), &IN_EPOCHS, TWO_EPOCHS)
}
