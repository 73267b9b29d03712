//! The table of counted entries and a buffer, by the samples that they take.
ghost use Rattle.std.specs.Prelude.{◌≡◌, ◌<◌, ◌≤◌};

use super::tests::are;
use assoc_table::{Added, AssocTable};
use overflow_pair::Buffer;
use sample_key::{Body, Entry, Event, Key};
use std::alloc::{AllocError, Global};
use std::test::Fail;

// What happens next to a table, and what is then seen. A place is that of an instruction from the program counter 1000 on, in
// hexadecimal; the samples are cycles of process 7.
#[derive(Clone, Copy)]
enum Step<'a> {
    // Whether a sample of this place would give an entry out.
    Needs(u16, bool),
    // It gets a way of its own.
    Places(u16),
    // It takes the way of the entry of that other place, which stood for one sample.
    Evicts(u16, u16),
    // So many are counted in the entry that is there.
    Folds(u16, u32),
    // The entry, which stood for so many, is given out.
    Spills(u16, u32),
    // The entries are these, by program counter and count.
    Lists(&'a [(u64, u32)]),
    // The table is emptied.
    Clears,
}

fn key_of(place: u16) -> Key {
    Key {
        pid: 7,
        pc: 0x1000 + 4 * place as u64,
        event: Event::Cycles,
    }
}

// So many samples of this place; whether each was counted in the entry that is there.
fn all_fold(table: &mut AssocTable, place: u16, count: u32) -> bool {
    for _ in 0..count {
        if table.add(key_of(place)) != Added::Folded {
            return false;
        }
    }
    true
}

// Whether this entry, of this place and count, was given out.
fn is_of(entry: &Entry, place: u16, count: u32) -> bool {
    entry.key == key_of(place) && entry.count == count
}

// Goes one step; whether it shows what it says.
fn shows(alloc: Global, table: &mut AssocTable, step: &Step<'_>) -> Result<bool, AllocError> {
    match step {
        Step::Needs(place, needs) => Ok(table.needs_room(&key_of(*place)) == *needs),
        Step::Places(place) => Ok(table.add(key_of(*place)) == Added::Placed),
        Step::Evicts(place, other) => match table.add(key_of(*place)) {
            Added::Evicted(old) => Ok(is_of(&old, *other, 1)),
            _ => Ok(false),
        },
        Step::Folds(place, count) => Ok(all_fold(table, *place, *count)),
        Step::Spills(place, count) => match table.add(key_of(*place)) {
            Added::Spilt(old) => Ok(is_of(&old, *place, *count)),
            _ => Ok(false),
        },
        Step::Lists(want) => {
            let mut out = Vec::new(alloc);
            table.copy_to(&mut out)?;
            Ok(are(&out, want))
        }
        Step::Clears => {
            table.clear();
            Ok(true)
        }
    }
}

// The index of the first step that shows something else, of a new table with so many buckets.
fn first_wrong(
    alloc: Global,
    buckets: usize,
    steps: &[Step<'_>],
) -> Result<Option<usize>, AllocError>
    requires { (1 ≤ buckets) × (buckets ≤ 4096) }
{
    let mut table = AssocTable::new(alloc, buckets)?;
    for (i, step) in steps.iter().enumerate() {
        if !shows(alloc, &mut table, step)? {
            return Ok(Some(i));
        }
    }
    Ok(None)
}

#[test]
fn the_fifth_key_evicts_the_first(rt: HostRuntime) -> Result<(), Fail> {
    let steps = [
        Step::Needs(0, false),
        Step::Places(0),
        Step::Places(1),
        Step::Places(2),
        Step::Needs(3, false),
        Step::Places(3),
        Step::Needs(2, false),
        Step::Needs(4, true),
        Step::Evicts(4, 0),
        Step::Lists(&[(0x1010, 1), (0x1004, 1), (0x1008, 1), (0x100c, 1)]),
        Step::Folds(1, 1),
        // clearing leaves the turn
        Step::Clears,
        Step::Places(0),
        Step::Places(1),
        Step::Places(2),
        Step::Places(3),
        Step::Evicts(4, 1),
    ];
    assert_eq!(rt; first_wrong(rt.alloc(), 1, &steps)?, None);
    Ok(())
}

#[test]
fn a_full_entry_is_given_out(rt: HostRuntime) -> Result<(), Fail> {
    let steps = [
        Step::Places(0),
        Step::Folds(0, 65_534),
        Step::Needs(0, true),
        Step::Spills(0, 65_535),
        Step::Needs(0, false),
        Step::Clears,
        Step::Lists(&[]),
    ];
    assert_eq!(rt; first_wrong(rt.alloc(), 4_096, &steps)?, None);
    Ok(())
}

#[test]
fn entries_are_listed_by_bucket(rt: HostRuntime) -> Result<(), Fail> {
    // 7 * 7 is 1 modulo 4: the buckets of pc / 4 = 3, 0, 1, 0 are 0, 1, 2, 1.
    let steps = [
        Step::Places(3),
        Step::Places(0),
        Step::Places(1),
        Step::Places(4),
        Step::Lists(&[(0x100c, 1), (0x1000, 1), (0x1010, 1), (0x1004, 1)]),
    ];
    assert_eq!(rt; first_wrong(rt.alloc(), 4, &steps)?, None);
    Ok(())
}

#[test]
fn a_buffer_fills_and_is_cleared(rt: HostRuntime) -> Result<(), Fail> {
    let mut buffer = Buffer::with_capacity(rt.alloc(), 2)?;
    let mut out = Vec::new(rt.alloc());
    let empty = buffer.is_full();
    buffer.push(Entry {
        key: key_of(0),
        count: 1,
    });
    let half = buffer.is_full();
    buffer.push(Entry {
        key: key_of(1),
        count: 1,
    });
    let whole = buffer.is_full();
    buffer.copy_to(&mut out)?;
    buffer.copy_to(&mut out)?;
    buffer.clear();
    buffer.copy_to(&mut out)?;
    assert_eq!(rt;
        [empty, half, whole, buffer.is_full()],
        [false, false, true, false]
    );
    let want = [(0x1000, 1), (0x1004, 1), (0x1000, 1), (0x1004, 1)];
    assert_eq!(rt; are(&out, &want), true);
    Ok(())
}
