//! The acceptance tables of the driver, turn by turn: a lane, and the steps that it goes through with what each shows.
ghost use Rattle.std.specs.Prelude.{◌≡◌, ◌+◌, ◌*◌, ◌%◌, ◌≤◌, length, IfOk};
ghost use Rattle.driver_model.specs.Handover.{rung_of};
ghost use Rattle.driver_play.specs.Plays.{HaveMark};

use cpu_lane::{Plan, Stats, Turn};
use driver_play::Play;
use sample_key::{Entry, Event, Key, Loss, Marked, Pace};
use std::alloc::{AllocError, Global};
use std::test::Fail;

// A lane at the free pace. Its samples are cycles of process 7.
#[derive(Clone, Copy)]
struct Row {
    // So many of them rise from the program counter 1000, in hexadecimal,
    rising: usize,
    // and so many more are at this one.
    more: usize,
    pc: u64,
    // How many records stand before the samples, and how many the trace has.
    mark: u64,
    records: u64,
    buckets: usize,
    buffer: usize,
}

// What happens next, and what is then seen.
#[derive(Clone, Copy)]
enum Step<'a> {
    // So many turns take a sample.
    Takes(usize),
    // One turn gives this answer.
    Turns(Turn),
    // The daemon rings this value.
    Rings(u64),
    // It finds this buffer, and gives it back.
    Drains(u8),
    // It finds entries with these program counters and counts in this cell, and gives it back.
    Finds(u8, &'a [(u64, u32)]),
    // The samples so far were counted so.
    Counts(Stats),
}

fn pc_of(row: &Row, i: usize) -> u64
    requires aligned { row.now.pc % 4 ≡ 0 }
    requires few { i ≤ 2000000 }
    ensures { result % 4 ≡ 0 }
{
    if i < row.rising {
        0x1000 + 4 * i as u64
    } else {
        row.pc
    }
}

fn samples(alloc: Global, row: &Row) -> Result<Vec<Marked>, AllocError>
    requires aligned { row.now.pc % 4 ≡ 0 }
    requires few { row.now.rising + row.now.more ≤ 2000000 }
    ensures { IfOk result (λ v. (length v.items ≡ row.now.rising + row.now.more)
        × HaveMark row.now.mark v.items) }
{
    let mut samples = Vec::new(alloc);
    for i in 0..row.rising + row.more {
        let key = Key {
            pid: 7,
            pc: pc_of(row, i),
            event: Event::Cycles,
        };
        samples.push(Marked {
            key,
            mark: row.mark,
        })?;
    }
    Ok(samples)
}

// So many turns; whether each took a sample.
fn all_take(play: &mut Play, count: usize) -> bool
    ensures requests { play.new.requests ≡ play.old.requests }
    ensures rungs { play.new.side.far.rungs ≡ play.old.side.far.rungs }
{
    for _ in 0..count {
        if play.turn() != Turn::Took {
            return false;
        }
    }
    true
}

// Empties this cell; whether it held such entries.
fn finds(alloc: Global, play: &mut Play, cell: u8, want: &[(u64, u32)]) -> Result<bool, AllocError>
    ensures requests { play.new.requests ≡ play.old.requests }
    ensures rungs { play.new.side.far.rungs ≡ play.old.side.far.rungs }
{
    let mut out = Vec::new(alloc);
    if cell < 2 {
        play.copy_buffer(cell, &mut out)?;
    } else {
        play.copy_table(&mut out)?;
    }
    Ok(are(&out, want))
}

// Whether they are entries of cycles of process 7 with these program counters and counts.
pub(crate) fn are(entries: &[Entry], want: &[(u64, u32)]) -> bool {
    for (entry, (pc, count)) in entries.iter().zip(want) {
        let key = &entry.key;
        if key.pid != 7 || key.pc != *pc || key.event != Event::Cycles || entry.count != *count {
            return false;
        }
    }
    entries.len() == want.len()
}

// Rings this value, where it is not below the one rung last and there are two requests.
fn rings(play: &mut Play, rung: &mut u64, value: u64) -> bool
    requires two { play.old.requests ≡ 2 }
    requires rung { rung_of play.old.side.far.rungs ≡ rung.old }
    ensures two { play.new.requests ≡ 2 }
    ensures rung { rung_of play.new.side.far.rungs ≡ rung.new }
{
    if value < *rung || value > 4 {
        return false;
    }
    play.ring(value);
    *rung = value;
    true
}

// Goes one step; whether it shows what it says.
fn shows(
    alloc: Global,
    play: &mut Play,
    rung: &mut u64,
    step: &Step<'_>,
) -> Result<bool, AllocError>
    requires two { play.old.requests ≡ 2 }
    requires rung { rung_of play.old.side.far.rungs ≡ rung.old }
    ensures two { play.new.requests ≡ 2 }
    ensures rung { rung_of play.new.side.far.rungs ≡ rung.new }
{
    match step {
        Step::Takes(count) => Ok(all_take(play, *count)),
        Step::Turns(answer) => Ok(play.turn() == *answer),
        Step::Rings(value) => Ok(rings(play, rung, *value)),
        Step::Drains(b) => Ok(*b < 2 && play.drain(*b)),
        Step::Finds(cell, want) => finds(alloc, play, *cell, want),
        Step::Counts(stats) => Ok(play.stats() == *stats),
    }
}

// Whether these are the losses that the steps answered.
fn are_lost(losses: &[Loss], steps: &[Step<'_>]) -> bool {
    let mut left = losses.iter();
    for step in steps {
        if let Step::Turns(Turn::Lost(loss)) = step {
            match left.next() {
                Some(kept) if kept == loss => {}
                _ => return false,
            }
        }
    }
    left.next().is_none()
}

// The index of the first step that shows something else; their number where the losses kept are not those answered.
fn first_wrong(alloc: Global, row: Row, steps: &[Step<'_>]) -> Result<Option<usize>, AllocError>
    requires aligned { row.pc % 4 ≡ 0 }
    requires few { row.rising + row.more ≤ 2000000 }
    requires records { (row.mark ≤ row.records) × (row.records ≤ 1) }
    requires buckets { (1 ≤ row.buckets) × (row.buckets ≤ 4096) }
    requires buffer { (1 ≤ row.buffer) × (row.buffer ≤ 8192) }
{
    let plan = Plan {
        pace: Pace::Free,
        last: 2 * row.records + 1,
        buffer: row.buffer,
    };
    let samples = samples(alloc, &row)?;
    let mut play = Play::new(alloc, samples, row.mark, plan, 2, row.buckets)?;
    let mut rung = 0;
    for (i, step) in steps.iter().enumerate() {
        if !shows(alloc, &mut play, &mut rung, step)? {
            return Ok(Some(i));
        }
    }
    if are_lost(&play.into_losses(), steps) {
        Ok(None)
    } else {
        Ok(Some(steps.len()))
    }
}

// A lane with so many samples at rising program counters, of a table of one bucket with buffers of one entry.
fn narrow(rising: usize) -> Row
    ensures { result ≡ record {
      rising = rising;
      more = 0;
      pc = 0;
      mark = 0;
      records = 0;
      buckets = 1;
      buffer = 1;
    } }
{
    Row {
        rising,
        more: 0,
        pc: 0,
        mark: 0,
        records: 0,
        buckets: 1,
        buffer: 1,
    }
}

// A lane with so many samples at rising program counters after so many records of one, of the usual sizes.
fn usual(rising: usize, mark: u64) -> Row
    ensures { result ≡ record {
      rising = rising;
      more = 0;
      pc = 0;
      mark = mark;
      records = 1;
      buckets = 4096;
      buffer = 8192;
    } }
{
    Row {
        rising,
        more: 0,
        pc: 0,
        mark,
        records: 1,
        buckets: 4_096,
        buffer: 8_192,
    }
}

fn counts(folded: u64, placed: u64, evicted: u64, spilt: u64, direct: u64) -> Step<'static> {
    Step::Counts(Stats {
        folded,
        placed,
        evicted,
        spilt,
        direct,
    })
}

// The sample of this index is lost: each buffer is out since its first hand.
fn loses(index: u64) -> Step<'static> {
    Step::Turns(Turn::Lost(Loss {
        index,
        event: Event::Cycles,
        word0: 1,
        word1: 1,
    }))
}

#[test]
fn a_sample_is_lost_where_both_buffers_are_out(rt: HostRuntime) -> Result<(), Fail> {
    let steps = [
        Step::Takes(6),
        loses(6),
        Step::Turns(Turn::Idle),
        counts(0, 4, 2, 0, 0),
        Step::Finds(0, &[(0x1000, 1)]),
        Step::Finds(1, &[(0x1004, 1)]),
    ];
    assert_eq!(rt; first_wrong(rt.alloc(), narrow(7), &steps)?, None);
    Ok(())
}

#[test]
fn the_second_look_finds_a_buffer(rt: HostRuntime) -> Result<(), Fail> {
    let steps = [
        Step::Takes(6),
        Step::Drains(1),
        Step::Turns(Turn::Took),
        counts(0, 4, 3, 0, 0),
        Step::Drains(0),
        Step::Drains(1),
    ];
    assert_eq!(rt; first_wrong(rt.alloc(), narrow(7), &steps)?, None);
    Ok(())
}

#[test]
fn the_largest_entry_is_written(rt: HostRuntime) -> Result<(), Fail> {
    let row = Row {
        more: 65_536,
        pc: 0x1000,
        records: 0,
        ..usual(0, 0)
    };
    let steps = [
        Step::Takes(65_536),
        counts(65_534, 1, 0, 1, 0),
        Step::Rings(1),
        Step::Turns(Turn::Done),
        Step::Turns(Turn::Done),
        Step::Finds(0, &[(0x1000, 65_535)]),
        Step::Finds(2, &[(0x1000, 1)]),
    ];
    assert_eq!(rt; first_wrong(rt.alloc(), row, &steps)?, None);
    Ok(())
}

#[test]
fn the_largest_entry_stays_where_it_cannot_be_written(rt: HostRuntime) -> Result<(), Fail> {
    let row = Row {
        more: 65_535,
        pc: 0x1010,
        ..narrow(6)
    };
    let steps = [
        Step::Takes(65_540),
        loses(65_540),
        counts(65_534, 4, 2, 0, 0),
        Step::Rings(1),
        Step::Turns(Turn::Done),
        Step::Finds(
            2,
            &[(0x1010, 65_535), (0x1014, 1), (0x1008, 1), (0x100c, 1)],
        ),
    ];
    assert_eq!(rt; first_wrong(rt.alloc(), row, &steps)?, None);
    Ok(())
}

#[test]
fn samples_go_to_a_buffer_while_the_table_is_out(rt: HostRuntime) -> Result<(), Fail> {
    let steps = [
        Step::Takes(1),
        Step::Rings(1),
        Step::Turns(Turn::Answered),
        Step::Takes(2),
        counts(0, 1, 0, 0, 2),
        Step::Finds(2, &[(0x1000, 1)]),
    ];
    assert_eq!(rt; first_wrong(rt.alloc(), usual(3, 0), &steps)?, None);
    Ok(())
}

#[test]
fn a_sample_waits_for_the_record_before_it(rt: HostRuntime) -> Result<(), Fail> {
    let steps = [
        Step::Turns(Turn::Held),
        Step::Rings(2),
        Step::Turns(Turn::Took),
        Step::Rings(3),
        Step::Turns(Turn::Done),
    ];
    assert_eq!(rt; first_wrong(rt.alloc(), usual(1, 1), &steps)?, None);
    Ok(())
}
