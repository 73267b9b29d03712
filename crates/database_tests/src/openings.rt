//! Stores whose files were put there by hand: what is opened and read, and which file is named as bad.

use crate::asks::{Ask, filled, told};
use sample_key::Event;
use std::test::Fail;

// the head of two epochs of image A
const TWO_EPOCHS: &[u8] =
    b"dcpi-head 1\ngeneration 2\nepoch 1\nruns 1\nimages 1\nA\nprofiles 2\n0 0 0 1\n1 0 0 2\nunknowns 0\n";

// the head of one profile of image A
const ONE_PROFILE: &[u8] =
    b"dcpi-head 1\ngeneration 1\nepoch 0\nruns 1\nimages 1\nA\nprofiles 1\n0 0 0 1\nunknowns 0\n";

// run 1 in one part, and a profile whose one count is 2^48 at offset 4
const WHOLE_RUN: &[u8] = &[1, 1, 0, 1, 0, 0, 1, 0];

const AT_ITS_LIMIT: &[u8] = &[1, 1, 1, 0x80, 0x80, 0x80, 0x80, 0x80, 0x80, 0x40];

// files, what is asked, and the answer
const STORES: [(&[(&str, &[u8])], Ask, &str); 10] = [
    (&[("seal.01", b"")], Ask::Head, "0 0 0 [] []\n"),
    (
        &[("seal.1", b"")],
        Ask::Head,
        "Bad { file: Head { g: 1 } }\n",
    ),
    (
        &[("head.2", TWO_EPOCHS), ("seal.2", b""), ("seal.02", b"")],
        Ask::Head,
        "2 1 1 [KnownRow { epoch: 0, image: 0, event: 0, g: 1 }, \
        KnownRow { epoch: 1, image: 0, event: 0, g: 2 }] []\n",
    ),
    (
        &[
            ("head.2", b"dcpi-head 1\n"),
            ("head.1", ONE_PROFILE),
            ("seal.2", b""),
            ("seal.1", b""),
        ],
        Ask::Head,
        "Bad { file: Head { g: 2 } }\n",
    ),
    (
        &[("head.2", TWO_EPOCHS), ("seal.2", b""), ("seal.65536", b"")],
        Ask::Head,
        "Bad { file: Head { g: 65536 } }\n",
    ),
    (
        &[
            ("p.0.0.0.1", AT_ITS_LIMIT),
            ("head.1", ONE_PROFILE),
            ("seal.1", b""),
        ],
        Ask::Known(0, Event::Cycles),
        "[ProfileRow { offset: 4, count: 281474976710656 }]\n",
    ),
    (
        &[("head.1", ONE_PROFILE), ("seal.1", b"")],
        Ask::Known(0, Event::Imiss),
        "[]\n",
    ),
    (
        &[
            ("p.0.0.0.1", &[1, 1, 2, 3, 0]),
            ("head.1", ONE_PROFILE),
            ("seal.1", b""),
        ],
        Ask::Known(0, Event::Cycles),
        "Bad { file: Known { epoch: 0, image: 0, event: 0, g: 1 } }\n",
    ),
    (
        &[("r.1", WHOLE_RUN), ("head.1", ONE_PROFILE), ("seal.1", b"")],
        Ask::Part(1),
        "RunSegment { run: 1, part: 0, last: true, first_epoch: 0, drains: [], losses: [[]] }\n",
    ),
    (
        &[("r.1", &[1]), ("head.1", ONE_PROFILE), ("seal.1", b"")],
        Ask::Part(1),
        "Bad { file: Segment { g: 1 } }\n",
    ),
];

#[test]
fn files_put_by_hand_are_read(rt: HostRuntime) -> Result<(), Fail> {
    let alloc = rt.alloc();
    for (files, ask, answer) in STORES {
        let mut store = filled(alloc, files)?;
        assert_eq!(rt; told(alloc, &mut store, &[ask])?.as_str(), answer);
    }
    Ok(())
}
