//! Symbol lists read from memory, as tables.

use outside_io::{ListedFaults, MemSource};
use std::alloc::Global;
use std::process::Abort;
use std::test::Fail;
use symbol_ranges::{SymbolLineError, SymbolRefusal, SymbolWhy, Symbols, read_symbols};
use text_num::Name;

const LIST: &[u8] =
    b"/usr/bin/X 1000 100 dispatch\n/usr/bin/cc 0 200 parse\n/usr/bin/sh 0 80 main\n/usr/shlib/libc.so 400 40 strcmp\n/vmunix 1000 100 idle\n/usr/bin/X 0 8 start\n/usr/bin/X fffffffffffffff8 4 last\n";

fn read(alloc: Global, bytes: &[u8]) -> Result<Symbols, SymbolRefusal> {
    let mut source = MemSource::new(bytes.to_vec(alloc)?, ListedFaults::none(alloc));
    read_symbols(alloc, &mut source)
}

/// Whether this name, or none where it is empty, lies at an offset of an image.
fn is_at(
    alloc: Global,
    symbols: &Symbols,
    image: &[u8],
    offset: u64,
    wanted: &[u8],
) -> Result<bool, Fail> {
    let image = Name::of_bytes(alloc, image)?.ok_or("no name")?;
    match symbols.name_at(&image, offset) {
        Some(name) => Ok(name.bytes() == wanted),
        None => Ok(wanted.is_empty()),
    }
}

#[test]
fn names_are_found(rt: HostRuntime) -> Result<(), Fail> {
    let symbols = read(rt.alloc(), LIST)?;
    for (image, offset, wanted) in [
        (b"/usr/bin/X".as_slice(), 0u64, b"start".as_slice()),
        (b"/usr/bin/X", 7, b"start"),
        (b"/usr/bin/X", 8, b""),
        (b"/usr/bin/X", 0xfff, b""),
        (b"/usr/bin/X", 0x1000, b"dispatch"),
        (b"/usr/bin/X", 0x10ff, b"dispatch"),
        (b"/usr/bin/X", 0x1100, b""),
        (b"/usr/bin/X", 0xffff_ffff_ffff_fffb, b"last"),
        (b"/usr/bin/X", 0xffff_ffff_ffff_fffc, b""),
        (b"/usr/bin/X", u64::MAX, b""),
        (b"/vmunix", 0x1000, b"idle"),
        (b"/usr/bin/cc", 0x1ff, b"parse"),
        (b"/usr/bin/cc", 0x200, b""),
        (b"/usr/bin/nothing", 0, b""),
    ] {
        assert!(rt; is_at(rt.alloc(), &symbols, image, offset, wanted)?);
    }
    Ok(())
}

#[test]
fn bad_lines_are_refused(rt: HostRuntime) -> Result<(), Fail> {
    for (bytes, line, why) in [
        (b"a 0 8 f".as_slice(), 1u64, SymbolWhy::Unfinished),
        (b"a 0 8 f\na 4 8 g\n", 2, SymbolWhy::Overlap),
        (b"a 4 8 f\na 0 8 g\n", 2, SymbolWhy::Overlap),
        (b"a 4 4 f\na 0 c g\n", 2, SymbolWhy::Overlap),
        (b"a 2 8 f\n", 1, SymbolWhy::Unaligned),
        (b"a 0 6 f\n", 1, SymbolWhy::Unaligned),
        (b"\n", 1, SymbolWhy::BadLine),
        (b"a 0 8\n", 1, SymbolWhy::BadLine),
        (b"a 0 8 f \n", 1, SymbolWhy::BadLine),
        (b"a 0 8 f\nb 00 8 f\n", 2, SymbolWhy::BadNumber),
        (b"a 0 A f\n", 1, SymbolWhy::BadNumber),
        (b"a  8 f\n", 1, SymbolWhy::BadNumber),
        (b"a 0 0 f\n", 1, SymbolWhy::OutOfRange),
        (b"a 10000000000000000 4 f\n", 1, SymbolWhy::OutOfRange),
        (b"a fffffffffffffff8 8 f\n", 1, SymbolWhy::OutOfRange),
        (b" 0 8 f\n", 1, SymbolWhy::BadName),
        (b"a 0 8 \n", 1, SymbolWhy::BadName),
    ] {
        let refusal = read(rt.alloc(), bytes).err();
        assert!(rt; refusal == Some(SymbolRefusal::Bad { line, why }));
    }
    Ok(())
}

#[test]
fn good_lists_are_read(rt: HostRuntime) -> Result<(), Fail> {
    for bytes in [
        b"".as_slice(),
        b"a 0 8 f\na 8 8 f\n",
        b"a 8 8 f\na 0 8 g\n",
        b"a 0 8 f\nb 0 8 f\n",
        b"a fffffffffffffff8 4 f\n",
    ] {
        assert!(rt; read(rt.alloc(), bytes).is_ok());
    }
    Ok(())
}

#[test]
fn a_fault_is_passed_on(rt: HostRuntime) -> Result<(), Fail> {
    let alloc = rt.alloc();
    let mut source = MemSource::new(LIST.to_vec(alloc)?, ListedFaults::of(alloc, &[2])?);
    assert!(rt; read_symbols(alloc, &mut source).err() == Some(SymbolRefusal::ReadFault));
    Ok(())
}

#[test]
fn lines_are_added(rt: HostRuntime) -> Result<(), Fail> {
    let alloc = rt.alloc();
    let mut symbols = Symbols::new(alloc);
    symbols.add_line(alloc, b"a 8 8 g")?;
    let overlap = SymbolLineError::Bad {
        why: SymbolWhy::Overlap,
    };
    assert!(rt; symbols.add_line(alloc, b"a 0 c f") == Err(overlap));
    let bad = SymbolLineError::Bad {
        why: SymbolWhy::BadLine,
    };
    assert!(rt; symbols.add_line(alloc, &[b'x'; 601]) == Err(bad));
    symbols.add_line(alloc, b"a 0 8 f")?;
    assert!(rt; is_at(alloc, &symbols, b"a", 7, b"f")?);
    assert!(rt; is_at(alloc, &symbols, b"a", 8, b"g")?);
    Ok(())
}
