//! Sources and sinks through their bounds, whole and with a fault; the gate that holds nobody.
use crate::threads::{needs_send, needs_sync};
use outside_io::{
    Gate, ListedFaults, MemSink, MemSource, OpenGate, ReadFailed, Source, StdSink, StdSource,
    WriteFault, put_all,
};
use std::io::Cursor;
use std::test::Fail;

/// Three reads of a source, through its bound.
fn three_reads<S: Source>(source: &mut S) -> [Result<usize, ReadFailed>; 3] {
    let mut piece = [0u8; 2];
    [
        source.read(&mut piece),
        source.read(&mut piece),
        source.read(&mut piece),
    ]
}

#[test]
fn sources_give_all_and_fail_where_listed(rt: HostRuntime) -> Result<(), Fail> {
    let alloc = rt.alloc();
    let mut listed_source = MemSource::new(b"abc".to_vec(alloc)?, ListedFaults::of(alloc, &[2])?);
    assert_eq!(rt;
        three_reads(&mut listed_source),
        [Ok(2), Err(ReadFailed), Ok(1)]
    );
    let mut std_source = StdSource::new(Cursor::new(b"abc".to_vec(alloc)?));
    assert_eq!(rt; three_reads(&mut std_source), [Ok(2), Ok(1), Ok(0)]);
    Ok(())
}

#[test]
fn all_is_put_or_a_front_of_it(rt: HostRuntime) -> Result<(), Fail> {
    let alloc = rt.alloc();
    let mut sink = MemSink::new(alloc, ListedFaults::of(alloc, &[2])?);
    assert_eq!(rt; put_all(&mut sink, b"ab"), Ok(()));
    assert_eq!(rt; put_all(&mut sink, b"cd"), Err(WriteFault));
    assert_eq!(rt; put_all(&mut sink, b"ef"), Ok(()));
    assert_eq!(rt; sink.bytes(), b"abef".as_slice());
    // An array takes five bytes, and nothing more.
    assert_eq!(rt; ListedFaults::none(alloc).calls.len(), 0);
    let mut full = StdSink::new(Cursor::new([0u8; 5]));
    assert_eq!(rt; put_all(&mut full, b"abc"), Ok(()));
    assert_eq!(rt; put_all(&mut full, b"def"), Err(WriteFault));
    Ok(())
}

#[test]
fn the_open_gate_holds_nobody(rt: HostRuntime) {
    let gate = OpenGate;
    needs_send(&gate);
    needs_sync(&gate);
    gate.at(0);
    let _ = rt;
}
