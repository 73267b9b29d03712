//! What stands before the first sample of a made trace: its images, and the mappings of the kernel and of each process.

ghost use Rattle.std.specs.Prelude.{◌≡◌, ◌%◌, ◌++◌, ◌∷◌, [], true, codes, map, OnOk, IfOk};
ghost use Rattle.std.specs.Fmt.{decimal};
ghost use Rattle.text_num.specs.Names.{is_name};
ghost use Rattle.trace_model.specs.Recording.{name_at};
ghost use Rattle.trace_generator.specs.Generator.{image_names, mapped_first, scans_of};
ghost use Rattle.trace_generator.specs.Making.{said_of};

use std::alloc::{AllocError, Global};
use text_num::Name;
use trace_model::{Line, Record};

/// How many records stand before the first sample.
pub const MAPPINGS: usize = 17;

/// Where the kernel is mapped.
pub const KERNEL_BASE: u64 = 0xffff_fc00_0000_0000;

/// Where each process has its program.
pub const PROGRAM_BASE: u64 = 0x1_2000_0000;

/// Where each process has the library.
pub const LIBRARY_BASE: u64 = 0x3ff_8000_0000;

/// Where no process has anything.
pub const UNMAPPED_BASE: u64 = 0x5_0000_0000;

/// The index of the kernel's image.
const KERNEL: u32 = 0;

/// The index of the library's image.
const LIBRARY: u32 = 2;

/// The images, in order of first use.
pub fn images(alloc: Global) -> Result<Vec<Name>, AllocError>
    ensures { IfOk result (λ images. images.items ≡ image_names) }
{
    let mut images = Vec::with_capacity(alloc, 6)?;
    images.push(name(alloc, b"vmunix")?)?;
    images.push(name(alloc, b"prog1")?)?;
    images.push(name(alloc, b"libc.so")?)?;
    images.push(name(alloc, b"prog2")?)?;
    images.push(name(alloc, b"prog3")?)?;
    images.push(name(alloc, b"prog0")?)?;
    Ok(images)
}

fn name(alloc: Global, bytes: &[u8]) -> Result<Name, AllocError>
    requires { is_name bytes.now ≡ true }
    ensures { IfOk result (λ name. name ≡ bytes.now) }
{
    match Name::of_bytes(alloc, bytes)? {
        Some(name) => Ok(name),
        None => unreachable!(),
    }
}

/// Appends the mapping of the kernel, and of each process its program and its library.
pub fn put_mappings(lines: &mut Vec<Line>) -> Result<(), AllocError>
    requires { lines.old.items ≡ [] }
    ensures { OnOk result (said_of lines.new.items ≡ mapped_first) }
{
    lines.push(Line::Rec(Record::Kernel {
        base: KERNEL_BASE,
        length: 0x40_0000,
        image: KERNEL,
    }))?;
    for before in 0..8u32 {
        put_process(lines, before + 1)?;
    }
    Ok(())
}

fn put_process(lines: &mut Vec<Line>, pid: u32) -> Result<(), AllocError>
    ensures { OnOk result (said_of lines.new.items ≡ said_of lines.old.items ++ scans_of pid) }
{
    lines.push(Line::Rec(Record::Scan {
        pid,
        base: PROGRAM_BASE,
        length: 0x4_0000,
        image: program_of(pid),
    }))?;
    lines.push(Line::Rec(Record::Scan {
        pid,
        base: LIBRARY_BASE,
        length: 0x10_0000,
        image: LIBRARY,
    }))?;
    Ok(())
}

// The image of a process's program: four programs take turns.
fn program_of(pid: u32) -> u32
    ensures { name_at image_names result ≡ codes "prog" ++ decimal (pid % 4) }
{
    match pid % 4 {
        0 => 5,
        1 => 1,
        2 => 3,
        _ => 4,
    }
}
