//! Numbers in text, read and written by tables.
use std::test::Fail;
use text_num::{
    is_dec, is_hex, one_spelling, put_dec, put_hex, put_hundredths, read_dec, read_hex,
};

#[test]
fn reads_canonical_numbers(rt: HostRuntime) {
    let decimals: [(&[u8], Option<u64>, bool); 8] = [
        (b"0", Some(0), true),
        (b"4096", Some(4096), true),
        (b"18446744073709551615", Some(u64::MAX), true),
        (b"18446744073709551616", None, true),
        (b"01", None, false),
        (b"", None, false),
        (b"1c", None, false),
        (b"-1", None, false),
    ];
    for (text, value, canonical) in decimals {
        assert!(rt; read_dec(text) == value);
        assert!(rt; is_dec(text) == canonical);
    }
    let hexadecimals: [(&[u8], Option<u64>, bool); 6] = [
        (b"0", Some(0), true),
        (b"10ffc", Some(69628), true),
        (b"fffffffffffffff8", Some(18446744073709551608), true),
        (b"10000000000000000", None, true),
        (b"100C", None, false),
        (b"00", None, false),
    ];
    for (text, value, canonical) in hexadecimals {
        assert!(rt; read_hex(text) == value);
        assert!(rt; is_hex(text) == canonical);
    }
}

#[test]
fn writes_numbers(rt: HostRuntime) -> Result<(), Fail> {
    let mut out = Vec::new(rt.alloc());
    put_dec(&mut out, 281474976710656)?;
    put_hex(&mut out, 0xffc)?;
    put_hundredths(&mut out, 1234)?;
    put_hundredths(&mut out, 5)?;
    assert!(rt; out.as_slice() == b"281474976710656ffc12.340.05".as_slice());
    one_spelling();
    Ok(())
}
