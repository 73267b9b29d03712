//! Worked rows: recordings as values, and the listing of each.
ghost use Rattle.std.specs.Prelude.{◌≡◌, [], true, map, IfOk};
ghost use Rattle.trace_model.specs.Recording.{recording, said_in, are_good, images_in_order};

use direct_counts::{counts_text, one_listing, plain_counts};
use sample_key::{Event, Key};
use std::alloc::Global;
use std::process::Abort;
use std::test::Fail;
use text_num::Name;
use trace_model::{Line, Record, Trace};

macro_rules! sample {
    ($pid:expr, $pc:expr, $event:ident) => {
        Line::Sample {
            cpu: 0,
            key: Key {
                pid: $pid,
                pc: $pc,
                event: Event::$event,
            },
        }
    };
}

macro_rules! load {
    ($base:expr, $length:expr, $image:expr) => {
        Line::Rec(Record::Load {
            pid: 7,
            base: $base,
            length: $length,
            image: $image,
        })
    };
}

fn names(alloc: Global, texts: &[&[u8]]) -> Result<Vec<Name>, Fail>
    ensures { IfOk result (λ names. names.items ≡ map (λ text. text.now) texts.now) }
{
    let mut names = Vec::new(alloc);
    for text in texts {
        let name = Name::of_bytes(alloc, text)?.ok_or("no name")?;
        names.push(name)?;
    }
    Ok(names)
}

// A trace of one processor with the usual sizes and no schedule.
fn trace_of(alloc: Global, images: &[&[u8]], lines: &[Line]) -> Result<Trace, Fail>
    requires good { are_good [] (said_in (recording 1 4096 8192 (map
        (λ image. image.now) images.now) lines.now [])) ≡ true }
    requires in_order { map (λ image. image.now) images.now ≡ images_in_order (said_in
        (recording 1 4096 8192 (map (λ image. image.now) images.now) lines.now [])) }
{
    let images = names(alloc, images)?;
    let lines = Vec::from_slice(alloc, lines)?;
    let schedule = Vec::new(alloc);
    Ok(Trace {
        cpus: 1,
        buckets: 4096,
        buffer: 8192,
        images,
        lines,
        schedule,
    })
}

fn assert_listed(rt: &impl Abort, alloc: Global, trace: &Trace, text: &[u8]) -> Result<(), Fail> {
    let counts = plain_counts(alloc, trace)?;
    let listing = counts_text(alloc, &counts)?;
    assert!(rt; listing.as_slice() == text);
    Ok(())
}

#[test]
fn adds_up_the_samples_of_a_place(rt: HostRuntime) -> Result<(), Fail> {
    let images = [b"/bin/app".as_slice()];
    let lines = [
        load!(0x10000, 0x2000, 0),
        sample!(7, 0x10008, Cycles),
        sample!(7, 0x10008, Cycles),
        sample!(7, 0x10008, Cycles),
    ];
    let trace = trace_of(rt.alloc(), &images, &lines)?;
    assert_listed(&rt, rt.alloc(), &trace, b"k 0 /bin/app cycles 8 3\n")?;
    one_listing();
    Ok(())
}

#[test]
fn places_by_the_records_before_a_sample(rt: HostRuntime) -> Result<(), Fail> {
    let images = [b"A".as_slice(), b"B".as_slice()];
    let lines = [
        load!(0x10000, 0x1000, 0),
        sample!(7, 0x10004, Cycles),
        Line::Rec(Record::Unload {
            pid: 7,
            base: 0x10000,
            length: 0x1000,
        }),
        load!(0x10000, 0x1000, 1),
    ];
    let trace = trace_of(rt.alloc(), &images, &lines)?;
    assert_listed(&rt, rt.alloc(), &trace, b"k 0 A cycles 4 1\n")
}

#[test]
fn lists_what_lies_behind_a_mapping(rt: HostRuntime) -> Result<(), Fail> {
    let images = [b"A".as_slice()];
    let lines = [
        load!(0x10000, 0x1000, 0),
        sample!(7, 0x10ffc, Imiss),
        sample!(7, 0x11000, Imiss),
    ];
    let trace = trace_of(rt.alloc(), &images, &lines)?;
    assert_listed(
        &rt,
        rt.alloc(),
        &trace,
        b"k 0 A imiss ffc 1\nu 0 imiss 11000 1\n",
    )
}

#[test]
fn lists_images_by_name(rt: HostRuntime) -> Result<(), Fail> {
    let images = [b"vmunix".as_slice(), b"old".as_slice(), b"new".as_slice()];
    let lines = [
        Line::Rec(Record::Kernel {
            base: 0xfffffc0000230000,
            length: 0x10000,
            image: 0,
        }),
        load!(0x120000000, 0x1000, 1),
        Line::Rec(Record::Exec {
            pid: 7,
            base: 0x120000000,
            length: 0x2000,
            image: 2,
        }),
        sample!(7, 0x120000010, Cycles),
        sample!(7, 0xfffffc0000230020, Cycles),
        sample!(9, 0x120000010, Cycles),
    ];
    let trace = trace_of(rt.alloc(), &images, &lines)?;
    assert_listed(
        &rt,
        rt.alloc(),
        &trace,
        b"k 0 new cycles 10 1\nk 0 vmunix cycles 20 1\nu 0 cycles 120000010 1\n",
    )
}

#[test]
fn counts_each_epoch_apart(rt: HostRuntime) -> Result<(), Fail> {
    let images = [b"A".as_slice()];
    let lines = [
        load!(0x10000, 0x1000, 0),
        sample!(7, 0x10000, Cycles),
        Line::Rec(Record::Epoch),
        sample!(7, 0x10000, Cycles),
    ];
    let trace = trace_of(rt.alloc(), &images, &lines)?;
    assert_listed(
        &rt,
        rt.alloc(),
        &trace,
        b"k 0 A cycles 0 1\nk 1 A cycles 0 1\n",
    )
}
