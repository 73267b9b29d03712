//! Numbers, fields and profiles with the values of their tables, and the laws at a type.

use profile_file::{
    Profile, ProfileError, ProfileRow, profile_begins_no_other, profile_spelled_once,
    profiles_have_spellings, read_profile, read_rows_rise, write_profile,
};
use std::test::Fail;
use var_bytes::{
    BadField, VarBad, exactly_one_answer, field, field_but, none_begins_another,
    number_spelled_once, one_bad_place, one_reading, put_number, put_numbers, read_as_spelled,
    spelled_by_numbers, take_number,
};

// numbers and their spellings
const SPELLINGS: [(u64, &[u8]); 10] = [
    (0, &[0x00]),
    (127, &[0x7f]),
    (128, &[0x80, 0x01]),
    (1023, &[0xff, 0x07]),
    (17408, &[0x80, 0x88, 0x01]),
    (65535, &[0xff, 0xff, 0x03]),
    (65536, &[0x80, 0x80, 0x04]),
    (281474976710656, &[0x80, 0x80, 0x80, 0x80, 0x80, 0x80, 0x40]),
    (
        9223372036854775808,
        &[0x80, 0x80, 0x80, 0x80, 0x80, 0x80, 0x80, 0x80, 0x80, 0x01],
    ),
    (
        18446744073709551615,
        &[0xff, 0xff, 0xff, 0xff, 0xff, 0xff, 0xff, 0xff, 0xff, 0x01],
    ),
];

// bytes that begin with no number
const BAD: [&[u8]; 6] = [
    &[],
    &[0x80, 0x00],
    &[0x80],
    &[0xff, 0x80, 0x00],
    &[0xff, 0xff, 0xff, 0xff, 0xff, 0xff, 0xff, 0xff, 0xff, 0x02],
    &[
        0x80, 0x80, 0x80, 0x80, 0x80, 0x80, 0x80, 0x80, 0x80, 0x80, 0x01,
    ],
];

#[test]
fn numbers_both_ways(rt: HostRuntime) -> Result<(), Fail> {
    for (number, bytes) in SPELLINGS {
        let mut out = Vec::new(rt.alloc());
        put_number(&mut out, number)?;
        assert_eq!(rt; out.as_slice(), bytes, "the spelling of {number}");
        out.push(7)?;
        let taken = take_number(&out);
        assert_eq!(rt;
            taken,
            Ok((number, bytes.len())),
            "{number} with a byte behind it"
        );
    }
    for bytes in BAD {
        assert_eq!(rt; take_number(bytes), Err(VarBad), "at {bytes:?}");
    }
    Ok(())
}

// where a field begins, its range and the barred number, and what is read
const FIELDS: [(usize, u64, u64, Option<u64>, Result<(u64, usize), BadField>); 8] = [
    (0, 0, 9, None, Ok((5, 1))),
    (1, 300, 300, None, Ok((300, 3))),
    (1, 301, 400, None, Err(BadField { at: 1 })),
    (4, 0, 9, None, Err(BadField { at: 4 })),
    (5, 0, 9, None, Err(BadField { at: 5 })),
    (1, 0, 400, None, Ok((300, 3))),
    (1, 0, 400, Some(299), Ok((300, 3))),
    (1, 0, 400, Some(300), Err(BadField { at: 1 })),
];

#[test]
fn fields_in_range(rt: HostRuntime) -> Result<(), Fail> {
    let mut bytes = Vec::new(rt.alloc());
    put_numbers(&mut bytes, &[5, 300, 0])?;
    assert_eq!(rt; bytes.as_slice(), [0x05, 0xac, 0x02, 0x00].as_slice());
    bytes.push(0x80)?;
    for (at, low, high, barred, found) in FIELDS {
        if at > bytes.len() {
            return Err("no such place".into());
        }
        assert_eq!(rt; field_but(&bytes, at, low, high, barred), found);
        if barred.is_none() {
            assert_eq!(rt; field(&bytes, at, low, high), found);
        }
    }
    Ok(())
}

const LARGEST: ProfileRow = ProfileRow {
    offset: 4,
    count: 281_474_976_710_656,
};

// profiles and their bytes
const PROFILES: [(&[u8], &[ProfileRow]); 6] = [
    (&[0x01, 0x00], &[]),
    (
        &[0x01, 0x01, 0x02, 0x03],
        &[ProfileRow {
            offset: 8,
            count: 3,
        }],
    ),
    (
        &[0x01, 0x01, 0xff, 0x07, 0x01],
        &[ProfileRow {
            offset: 0xffc,
            count: 1,
        }],
    ),
    (
        &[0x01, 0x01, 0x80, 0x88, 0x01, 0x01],
        &[ProfileRow {
            offset: 0x11000,
            count: 1,
        }],
    ),
    (
        &[0x01, 0x01, 0x01, 0x80, 0x80, 0x80, 0x80, 0x80, 0x80, 0x40],
        &[LARGEST],
    ),
    (
        &[0x01, 0x02, 0x00, 0x07, 0x01, 0x80, 0x01],
        &[
            ProfileRow {
                offset: 0,
                count: 7,
            },
            ProfileRow {
                offset: 4,
                count: 128,
            },
        ],
    ),
];

// bytes that tell no profile, and where the first bad field begins
const BAD_PROFILES: [(&[u8], usize); 9] = [
    (&[], 0),
    (&[0x02], 0),
    (&[0x01, 0x01, 0x82, 0x00, 0x03], 2),
    (&[0x01, 0x01, 0x02], 3),
    (&[0x01, 0x02, 0x02, 0x03, 0x00, 0x01], 4),
    (&[0x01, 0x01, 0x02, 0x03, 0x00], 4),
    (&[0x01, 0x01, 0x02, 0x00], 3),
    // a count above 2^48
    (
        &[0x01, 0x01, 0x02, 0x81, 0x80, 0x80, 0x80, 0x80, 0x80, 0x40],
        3,
    ),
    // an offset of 2^64
    (
        &[
            0x01, 0x01, 0x80, 0x80, 0x80, 0x80, 0x80, 0x80, 0x80, 0x80, 0x40, 0x01,
        ],
        2,
    ),
];

#[test]
fn profiles_both_ways(rt: HostRuntime) -> Result<(), Fail> {
    for (bytes, rows) in PROFILES {
        let profile = read_profile(rt.alloc(), bytes)?;
        assert_eq!(rt; profile.rows(), rows, "the rows of {bytes:?}");
        let written = write_profile(rt.alloc(), &profile)?;
        assert_eq!(rt; written.as_slice(), bytes);
    }
    for (bytes, at) in BAD_PROFILES {
        let answer = read_profile(rt.alloc(), bytes).err();
        assert_eq!(rt; answer, Some(ProfileError::Bad { at }), "at {bytes:?}");
    }
    Ok(())
}

fn needs_send<T: Send>(_value: &T) {}

fn needs_sync<T: Sync>(_value: &T) {}

#[test]
fn a_profile_is_made_and_goes_to_threads(rt: HostRuntime) -> Result<(), Fail> {
    let mut profile = Profile::with_capacity(rt.alloc(), 1)?;
    profile.push(ProfileRow {
        offset: 8,
        count: 3,
    })?;
    let written = write_profile(rt.alloc(), &profile)?;
    assert_eq!(rt; written.as_slice(), [1, 1, 2, 3].as_slice());
    needs_send(&profile);
    needs_sync(&profile);
    Ok(())
}

#[test]
fn laws_hold_at_a_type() {
    number_spelled_once();
    one_reading::<u8>();
    none_begins_another::<u8>();
    one_bad_place::<u8>();
    exactly_one_answer::<u8>();
    spelled_by_numbers::<u8>();
    read_as_spelled::<u8>();
    profile_spelled_once();
    profile_begins_no_other();
    profiles_have_spellings();
    read_rows_rise();
}
