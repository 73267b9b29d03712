//! Codes and names both ways, keys, a body through its bound, and that the types may go to threads.
ghost use Rattle.std.specs.Prelude.{◌≡◌, ◌%◌};

use crate::threads::{needs_send, needs_sync};
use sample_key::{Batch, Body, Entry, Event, Key, Loss, Marked, Note, Pace, Parcel};
use std::alloc::AllocError;
use std::test::Fail;

#[test]
fn events_have_codes_and_names(rt: HostRuntime) -> Result<(), Fail> {
    let events = [Event::Cycles, Event::Imiss, Event::Dmiss, Event::Branchmp];
    let names: [&[u8]; 4] = [b"cycles", b"imiss", b"dmiss", b"branchmp"];
    for i in 0..4usize {
        assert_eq!(rt; usize::from(events[i].code()), i);
        assert_eq!(rt; Event::of_code(events[i].code()), Some(events[i]));
        assert_eq!(rt; events[i].name(), names[i]);
        assert_eq!(rt; Event::of_name(names[i]), Some(events[i]));
    }
    Ok(())
}

#[test]
fn other_codes_and_names_are_none(rt: HostRuntime) {
    assert_eq!(rt; Event::of_code(4), None);
    assert_eq!(rt; Event::of_code(255), None);
    assert_eq!(rt; Event::of_name(b""), None);
    assert_eq!(rt; Event::of_name(b"cycle"), None);
    assert_eq!(rt; Event::of_name(b"cycles "), None);
    assert_eq!(rt; Event::of_name(b"Cycles"), None);
}

#[test]
fn keys_compare_by_all_fields(rt: HostRuntime) {
    assert_eq!(rt; size_of::<Key>(), 16);
    let key = Key {
        pc: 0x1000,
        pid: 7,
        event: Event::Cycles,
    };
    let other = Key {
        pc: 0x1000,
        pid: 7,
        event: Event::Imiss,
    };
    assert_eq!(rt; key == key, true);
    assert_eq!(rt; key == other, false);
    let sample = Marked { key, mark: 3 };
    assert_eq!(rt; sample.key == key, true);
    assert_eq!(rt; sample.mark, 3);
}

fn key_at(pc: u64) -> Key
    requires { pc % 4 ≡ 0 }
{
    Key {
        pc,
        pid: 7,
        event: Event::Cycles,
    }
}

fn first_note() -> Note {
    Note {
        cpu: 15,
        cell: 2,
        number: 1,
        upto: 2_000_000,
        answers: 1,
        sent0: 0,
        sent1: 0,
    }
}

#[derive(Debug, Drop)]
struct Listed {
    list: Vec<Entry>,
}

impl Body for Listed {
    ghost entries = { λ b. b.list.items };

    fn copy_to(&self, out: &mut Vec<Entry>) -> Result<(), AllocError> {
        out.extend_from_slice(self.list.as_slice())
    }

    fn clear(&mut self) {
        self.list.clear();
    }
}

fn copy_and_clear<B: Body>(body: &mut B, out: &mut Vec<Entry>) -> Result<(), AllocError> {
    body.copy_to(out)?;
    body.clear();
    Ok(())
}

#[test]
fn bodies_are_copied_to_the_end(rt: HostRuntime) -> Result<(), Fail> {
    let mut out = Vec::new(rt.alloc());
    out.push(Entry {
        key: key_at(0x1000),
        count: 65_535,
    })?;
    let mut body = Listed {
        list: Vec::new(rt.alloc()),
    };
    body.list.push(Entry {
        key: key_at(0x1004),
        count: 1,
    })?;
    copy_and_clear(&mut body, &mut out)?;
    assert_eq!(rt; body.list.len(), 0);
    assert_eq!(rt; out.len(), 2);
    assert_eq!(rt; out[0].count, 65_535);
    assert_eq!(rt; out[1].key.pc, 0x1004);
    assert_eq!(rt; out[0] == out[1], false);
    assert_eq!(rt; out[0].key.same(&out[0].key), true);
    assert_eq!(rt; out[0].key.same(&out[1].key), false);
    let batch = Batch {
        note: first_note(),
        entries: out,
    };
    assert_eq!(rt; batch.entries.len(), 2);
    assert_eq!(rt; batch.note == first_note(), true);
    needs_send(&batch);
    needs_sync(&batch);
    let parcel = Parcel {
        note: batch.note,
        body: batch,
    };
    assert_eq!(rt; parcel.note.upto, 2_000_000);
    needs_send(&parcel);
    needs_sync(&parcel);
    Ok(())
}

#[test]
fn plain_data_goes_to_threads(rt: HostRuntime) {
    let sample = Marked {
        key: key_at(0x1000),
        mark: 3,
    };
    let loss = Loss {
        index: 6,
        event: sample.key.event,
        word0: 1,
        word1: 1,
    };
    assert_eq!(rt; loss == loss, true);
    assert_eq!(rt; Pace::Free == Pace::Exact, false);
    needs_send(&sample);
    needs_sync(&sample);
    needs_send(&loss);
    needs_sync(&loss);
    needs_send(&Pace::Free);
    needs_sync(&Pace::Free);
}
