//! What no clause says: that memory is found in ordinary use. Records, and where addresses of processes lie after them.
ghost use Rattle.std.specs.Prelude.{◌≡◌, true};
ghost use Rattle.std.specs.List.{list_all};
ghost use Rattle.trace_model.specs.Recording.{keeps_ranges};

use load_map::{LoadMap, Place, Range};
use std::alloc::Global;
use std::process::Abort;
use std::test::Fail;
use trace_model::Record;

// The images by their index.
const A: u32 = 0;

const B: u32 = 1;

const KERNEL: u32 = 2;

macro_rules! load {
    ($pid:expr, $base:expr, $length:expr, $image:expr) => {
        Record::Load {
            pid: $pid,
            base: $base,
            length: $length,
            image: $image,
        }
    };
}

macro_rules! unload {
    ($pid:expr, $base:expr, $length:expr) => {
        Record::Unload {
            pid: $pid,
            base: $base,
            length: $length,
        }
    };
}

macro_rules! exec {
    ($pid:expr, $base:expr, $length:expr, $image:expr) => {
        Record::Exec {
            pid: $pid,
            base: $base,
            length: $length,
            image: $image,
        }
    };
}

macro_rules! kernel {
    ($base:expr, $length:expr, $image:expr) => {
        Record::Kernel {
            base: $base,
            length: $length,
            image: $image,
        }
    };
}

// The map after these records.
fn map_of(alloc: Global, records: &[Record]) -> Result<LoadMap, Fail>
    requires { list_all keeps_ranges records.now ≡ true }
{
    let mut map = LoadMap::new(alloc);
    for entry in records {
        map.apply(entry)?;
    }
    Ok(map)
}

// Each row: a process, an address, and the image and offset that are wanted.
fn assert_places(rt: &impl Abort, map: &LoadMap, rows: &[(u32, u64, Option<(u32, u64)>)]) {
    for (pid, pc, wanted) in rows {
        let found = map
            .place(*pid, *pc)
            .map(|place| (place.image, place.offset));
        assert!(rt; found == *wanted);
    }
}

#[test]
fn a_load_cuts_what_it_covers(rt: HostRuntime) -> Result<(), Fail> {
    let records = [load!(7, 0x1000, 0x3000, A), load!(7, 0x2000, 0x1000, B)];
    let map = map_of(rt.alloc(), &records)?;
    let rows = [
        (7, 0x1ffc, Some((A, 0xffc))),
        (7, 0x2000, Some((B, 0))),
        (7, 0x3000, Some((A, 0x2000))),
    ];
    assert_places(&rt, &map, &rows);
    Ok(())
}

#[test]
fn an_unload_cuts_out_its_range(rt: HostRuntime) -> Result<(), Fail> {
    let records = [
        load!(7, 0x1000, 0x3000, A),
        load!(7, 0x2000, 0x1000, B),
        unload!(7, 0x1800, 0x1000),
    ];
    let map = map_of(rt.alloc(), &records)?;
    let rows = [
        (7, 0x17fc, Some((A, 0x7fc))),
        (7, 0x1800, None),
        (7, 0x2800, Some((B, 0x800))),
    ];
    assert_places(&rt, &map, &rows);
    let ranges = [
        Range {
            base: 0x1000,
            end: 0x1800,
            image: A,
            origin: 0x1000,
        },
        Range {
            base: 0x2800,
            end: 0x3000,
            image: B,
            origin: 0x2000,
        },
        Range {
            base: 0x3000,
            end: 0x4000,
            image: A,
            origin: 0x1000,
        },
    ];
    assert!(rt; map.ranges(7) == ranges.as_slice());
    assert!(rt; map.ranges(8).is_empty());
    Ok(())
}

#[test]
fn the_kernel_lies_behind_each_process(rt: HostRuntime) -> Result<(), Fail> {
    let records = [
        kernel!(0x1000, 0x1000, KERNEL),
        load!(7, 0x1000, 0x1000, A),
        unload!(7, 0x1000, 0x1000),
    ];
    let map = map_of(rt.alloc(), &records)?;
    let rows = [
        (7, 0x1004, Some((KERNEL, 4))),
        (8, 0x1004, Some((KERNEL, 4))),
    ];
    assert_places(&rt, &map, &rows);
    Ok(())
}

#[test]
fn a_map_changes_between_two_samples(rt: HostRuntime) -> Result<(), Fail> {
    let mut map = map_of(rt.alloc(), &[load!(7, 0x10000, 0x1000, A)])?;
    assert_places(&rt, &map, &[(7, 0x10004, Some((A, 4)))]);
    map.apply(&unload!(7, 0x10000, 0x1000))?;
    assert_places(&rt, &map, &[(7, 0x10004, None)]);
    map.apply(&load!(7, 0x10000, 0x1000, B))?;
    assert_places(&rt, &map, &[(7, 0x10004, Some((B, 4)))]);
    Ok(())
}

#[test]
fn a_mapping_ends_before_its_end(rt: HostRuntime) -> Result<(), Fail> {
    let map = map_of(rt.alloc(), &[load!(7, 0x10000, 0x1000, A)])?;
    let rows = [(7, 0x10ffc, Some((A, 0xffc))), (7, 0x11000, None)];
    assert_places(&rt, &map, &rows);
    Ok(())
}

#[test]
fn an_exec_leaves_its_mapping_alone(rt: HostRuntime) -> Result<(), Fail> {
    let records = [
        kernel!(0xfffffc0000230000, 0x10000, KERNEL),
        load!(7, 0x120000000, 0x1000, A),
        exec!(7, 0x120000000, 0x2000, B),
    ];
    let map = map_of(rt.alloc(), &records)?;
    let rows = [
        (7, 0x120000010, Some((B, 0x10))),
        (7, 0xfffffc0000230020, Some((KERNEL, 0x20))),
        (9, 0x120000010, None),
    ];
    assert_places(&rt, &map, &rows);
    Ok(())
}

#[test]
fn an_exit_leaves_none(rt: HostRuntime) -> Result<(), Fail> {
    let records = [load!(7, 0x1000, 0x1000, A), Record::Exit { pid: 7 }];
    let map = map_of(rt.alloc(), &records)?;
    assert_places(&rt, &map, &[(7, 0x1000, None)]);
    assert!(rt; map.ranges(7).is_empty());
    Ok(())
}

// A kernel, programs and a shared library, as a machine in ordinary use has them.
#[test]
fn places_ordinary_programs(rt: HostRuntime) -> Result<(), Fail> {
    let (kernel, x_server, libc, shell, compiler) = (0, 1, 2, 3, 4);
    let records = [
        kernel!(0xfffffc0000230000, 0x400000, kernel),
        Record::Scan {
            pid: 101,
            base: 0x120000000,
            length: 0x40000,
            image: x_server,
        },
        Record::Scan {
            pid: 101,
            base: 0x3ff80000000,
            length: 0x100000,
            image: libc,
        },
        load!(205, 0x120000000, 0x10000, shell),
        load!(205, 0x3ff80000000, 0x100000, libc),
        exec!(309, 0x120000000, 0x20000, compiler),
    ];
    let map = map_of(rt.alloc(), &records)?;
    let rows = [
        (101, 0x120001000, Some((x_server, 0x1000))),
        (101, 0x120002000, Some((x_server, 0x2000))),
        (101, 0x3ff80000400, Some((libc, 0x400))),
        (205, 0x3ff80000400, Some((libc, 0x400))),
        (205, 0x120000040, Some((shell, 0x40))),
        (309, 0x120000100, Some((compiler, 0x100))),
        (309, 0xfffffc0000231000, Some((kernel, 0x1000))),
        (400, 0x120000000, None),
    ];
    assert_places(&rt, &map, &rows);
    Ok(())
}
