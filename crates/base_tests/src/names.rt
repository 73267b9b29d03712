//! Names: which bytes are one, a copy, and that one may go to threads.
use crate::threads::{needs_send, needs_sync};
use std::alloc::{AllocError, Global};
use std::test::Fail;
use text_num::Name;

fn is_some_name(bytes: &[u8], alloc: Global) -> Result<bool, AllocError> {
    let Some(name) = Name::of_bytes(alloc, bytes)? else {
        return Ok(false);
    };
    let copy = name.copy(alloc)?;
    needs_send(&copy);
    needs_sync(&copy);
    Ok(copy.bytes() == bytes)
}

#[test]
fn takes_visible_bytes(rt: HostRuntime) -> Result<(), Fail> {
    let longest = [b'x'; 255];
    let too_long = [b'x'; 256];
    for bytes in [
        b"A".as_slice(),
        b"/bin/app".as_slice(),
        b"[vdso]".as_slice(),
        b"!~".as_slice(),
        longest.as_slice(),
    ] {
        assert!(rt; is_some_name(bytes, rt.alloc())?);
    }
    for bytes in [
        b"".as_slice(),
        b"a b".as_slice(),
        b"\x7f".as_slice(),
        b"\n".as_slice(),
        too_long.as_slice(),
    ] {
        assert!(rt; !is_some_name(bytes, rt.alloc())?);
    }
    Ok(())
}
