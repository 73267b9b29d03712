//! Each byte of a head, of a profile and of a segment is changed to other bytes: the file is named as bad, or what is
//! printed is what the changed file says.
use crate::calls::{Asked, gives, put_file, store_of};
use crate::traces::{CAT, EVENTS, FOLD_FILES, FOLD_HEAD, FOLD_PART, FOLD_PROFILE, RUNS, with_byte};
use std::alloc::Global;
use std::process::Abort;
use std::test::Fail;
use text_num::{put_dec, put_hex};

const HEAD_IS_BAD: Asked = Asked {
    words: CAT,
    status: 7,
    out: b"",
    err: b"dcpi: database file head.1 is bad\n",
};

const PROFILE_IS_BAD: Asked = Asked {
    err: b"dcpi: database file p.0.0.0.1 is bad\n",
    ..HEAD_IS_BAD
};

const PART_IS_BAD: Asked = Asked {
    words: RUNS,
    err: b"dcpi: database file r.1 is bad\n",
    ..HEAD_IS_BAD
};

// The call goes well, and prints this.
fn prints<'a>(words: &'a [&'a str], out: &'a [u8]) -> Asked<'a> {
    Asked {
        words,
        status: 0,
        out,
        err: b"",
    }
}

// A call over the database of three samples, where one file has other bytes.
fn gives_over(
    rt: &impl Abort,
    alloc: Global,
    file: &str,
    bytes: &[u8],
    asked: &Asked<'_>,
) -> Result<(), Fail> {
    let mut store = store_of(rt, alloc, &FOLD_FILES)?;
    put_file(rt, alloc, &mut store, file, Some(bytes))?;
    gives(rt, alloc, asked, b"", &mut store)
}

// What `cat` prints of one place.
fn counted(alloc: Global, image: &[u8], offset: u64, count: u8) -> Result<Vec<u8>, Fail> {
    let mut text = b"k 0 ".to_vec(alloc)?;
    text.extend_from_slice(image)?;
    text.extend_from_slice(b" cycles ")?;
    put_hex(&mut text, offset)?;
    text.push(b' ')?;
    put_dec(&mut text, u128::from(count))?;
    text.push(b'\n')?;
    Ok(text)
}

// Where the head says its last epoch, its one image and the event of its one profile.
const EPOCH_AT: usize = 31;

const IMAGE_AT: usize = 49;

const IMAGE_END: usize = 57;

const EVENT_AT: usize = 73;

// Each kind of byte: none that is printed, the line feed, the blank, digits, letters, and the ends of the printed ones.
const TELLING: &[u8] = b"\x00\x01\t\n\r !-./0123489:Aadepz~\x7f\x80\xff";

// A good head has another name of the image, or the last epoch 1, which is no more than its generation; or its profile
// is that of another event, whose file is missing.
fn changes_head(rt: &impl Abort, alloc: Global, place: usize, byte: u8) -> Result<(), Fail> {
    let head = with_byte(alloc, FOLD_HEAD, place, byte)?;
    let is_same = head.as_slice() == FOLD_HEAD;
    let is_name = (IMAGE_AT..IMAGE_END).contains(&place) && byte.is_ascii_graphic();
    if is_same || is_name || (place == EPOCH_AT && byte == b'1') {
        let image = head.get(IMAGE_AT..IMAGE_END).ok_or("no image")?;
        let text = counted(alloc, image, 8, 3)?;
        return gives_over(rt, alloc, "head.1", &head, &prints(CAT, &text));
    }
    if place == EVENT_AT && (b'1'..=b'3').contains(&byte) {
        let event = byte - b'0';
        let err = format!(in alloc; "dcpi: database file p.0.0.{event}.1 is bad\n")?;
        let asked = Asked {
            err: err.as_bytes(),
            ..HEAD_IS_BAD
        };
        return gives_over(rt, alloc, "head.1", &head, &asked);
    }
    gives_over(rt, alloc, "head.1", &head, &HEAD_IS_BAD)
}

#[test]
fn each_byte_of_a_head(rt: HostRuntime) -> Result<(), Fail> {
    for place in 0..FOLD_HEAD.len() {
        for byte in TELLING {
            changes_head(&rt, rt.alloc(), place, *byte)?;
        }
    }
    Ok(())
}

// A byte below 128 is a number of its own. The third is the distance of the one row, in fours, and the fourth its count.
fn changes_profile(rt: &impl Abort, alloc: Global, place: usize, byte: u8) -> Result<(), Fail> {
    let profile = with_byte(alloc, FOLD_PROFILE, place, byte)?;
    let is_same = profile.as_slice() == FOLD_PROFILE;
    let is_distance = place == 2 && byte < 128;
    let is_count = place == 3 && (1..128).contains(&byte);
    if is_same || is_distance || is_count {
        let distance = *profile.get(2).ok_or("no distance")?;
        let count = *profile.get(3).ok_or("no count")?;
        let text = counted(alloc, b"/bin/app", u64::from(distance) * 4, count)?;
        return gives_over(rt, alloc, "p.0.0.0.1", &profile, &prints(CAT, &text));
    }
    gives_over(rt, alloc, "p.0.0.0.1", &profile, &PROFILE_IS_BAD)
}

#[test]
fn each_byte_of_a_profile(rt: HostRuntime) -> Result<(), Fail> {
    for place in 0..FOLD_PROFILE.len() {
        for byte in 0..=u8::MAX {
            changes_profile(&rt, rt.alloc(), place, byte)?;
        }
    }
    Ok(())
}

/// What a byte of a good segment says of what is printed of its run.
#[derive(Clone, Copy)]
enum Says {
    Nothing,
    Processor,
    Flag,
    Count,
}

// The bytes of a segment that may be others: the place, the least byte and the greatest, and what they say. The other
// bytes are the format, the numbers of things that follow, and those with which the run would not be the first one, or
// not end.
const PART_BYTES: [(usize, u8, u8, Says); 16] = [
    // the first epoch
    (4, 0, 127, Says::Nothing),
    // position and epoch of the drain, its processor and its cell
    (6, 0, 127, Says::Nothing),
    (7, 0, 127, Says::Nothing),
    (8, 0, 15, Says::Processor),
    (9, 0, 2, Says::Nothing),
    // the number of the hand, the samples up to it, the answer, and the hands of both buffers
    (10, 1, 127, Says::Nothing),
    (11, 0, 127, Says::Nothing),
    (12, 0, 127, Says::Nothing),
    (13, 0, 127, Says::Nothing),
    (14, 0, 127, Says::Nothing),
    // the process and the three bytes of the address, of which all but the last go on
    (16, 0, 127, Says::Nothing),
    (17, 128, 255, Says::Nothing),
    (18, 128, 255, Says::Nothing),
    (19, 1, 127, Says::Nothing),
    // the event with the flag, and the count
    (20, 0, 7, Says::Flag),
    (21, 1, 127, Says::Count),
];

// What is printed of the run where a byte says this.
fn run_of(alloc: Global, says: Says, byte: u8) -> Result<String, Fail> {
    let mut cpu = 0;
    let mut event = "cycles";
    let mut known = 3;
    let mut unknown = 0;
    match says {
        Says::Nothing => {}
        Says::Processor => cpu = byte,
        Says::Count => known = byte,
        Says::Flag => {
            event = EVENTS.get(usize::from(byte / 2)).ok_or("no event")?;
            if byte % 2 == 0 {
                known = 0;
                unknown = 3;
            }
        }
    }
    let taken = known.max(unknown);
    Ok(format!(in alloc;
        "run 1 parts 1 whole\nc {cpu} {event} taken {taken} known {known} unknown {unknown} lost 0\n"
    )?)
}

// What a good segment with this byte says, or nothing where it is bad.
fn said(place: usize, byte: u8) -> Option<Says> {
    if FOLD_PART.get(place) == Some(&byte) {
        return Some(Says::Nothing);
    }
    for (at, least, greatest, says) in PART_BYTES {
        if at == place && (least..=greatest).contains(&byte) {
            return Some(says);
        }
    }
    None
}

fn changes_part(rt: &impl Abort, alloc: Global, place: usize, byte: u8) -> Result<(), Fail> {
    let part = with_byte(alloc, FOLD_PART, place, byte)?;
    match said(place, byte) {
        Some(says) => {
            let text = run_of(alloc, says, byte)?;
            gives_over(rt, alloc, "r.1", &part, &prints(RUNS, text.as_bytes()))
        }
        None => gives_over(rt, alloc, "r.1", &part, &PART_IS_BAD),
    }
}

#[test]
fn each_byte_of_a_segment(rt: HostRuntime) -> Result<(), Fail> {
    for place in 0..FOLD_PART.len() {
        for byte in 0..=u8::MAX {
            changes_part(&rt, rt.alloc(), place, byte)?;
        }
    }
    Ok(())
}
