//! Stores of known files: the name and the bytes of each.

/// No file was written.
pub(crate) const NOTHING: &[(&str, &[u8])] = &[];

/// A run without samples: no profile at all.
pub(crate) const NO_SAMPLES: &[(&str, &[u8])] = &[
    (
        "head.1",
        b"dcpi-head 1\ngeneration 1\nepoch 0\nruns 1\nimages 0\nprofiles 0\nunknowns 0\n",
    ),
    ("seal.1", b""),
];

/// Three samples of one place.
pub(crate) const ONE_PLACE: &[(&str, &[u8])] = &[
    (
        "head.1",
        b"dcpi-head 1\ngeneration 1\nepoch 0\nruns 1\nimages 1\n/bin/app\nprofiles 1\n0 0 0 1\nunknowns 0\n",
    ),
    ("p.0.0.0.1", &[1, 1, 2, 3]),
    ("seal.1", b""),
];

/// Six program counters with no known mapping.
pub(crate) const SIX_UNKNOWN: &[(&str, &[u8])] = &[
    (
        "head.1",
        b"dcpi-head 1\ngeneration 1\nepoch 0\nruns 1\nimages 0\nprofiles 0\nunknowns 1\n0 0 1\n",
    ),
    ("u.0.0.1", &[1, 6, 0x80, 8, 1, 1, 1, 1, 1, 1, 1, 1, 1, 1, 1]),
    ("seal.1", b""),
];

/// One program counter, counted more often than an entry of a table holds.
pub(crate) const LARGE_COUNT: &[(&str, &[u8])] = &[
    (
        "head.1",
        b"dcpi-head 1\ngeneration 1\nepoch 0\nruns 1\nimages 0\nprofiles 0\nunknowns 1\n0 0 1\n",
    ),
    ("u.0.0.1", &[1, 1, 0x80, 8, 0x80, 0x80, 4]),
    ("seal.1", b""),
];

/// The last place of a mapping, and the first behind it.
pub(crate) const BOUNDARY: &[(&str, &[u8])] = &[
    (
        "head.1",
        b"dcpi-head 1\ngeneration 1\nepoch 0\nruns 1\nimages 1\nA\nprofiles 1\n0 0 1 1\nunknowns 1\n0 1 1\n",
    ),
    ("p.0.0.1.1", &[1, 1, 0xff, 7, 1]),
    ("u.0.1.1", &[1, 1, 0x80, 0x88, 1, 1]),
    ("seal.1", b""),
];

/// Two images whose numbers are not in the order of their names.
pub(crate) const LATER_NAME_FIRST: &[(&str, &[u8])] = &[
    (
        "head.1",
        b"dcpi-head 1\ngeneration 1\nepoch 0\nruns 1\nimages 2\nvmunix\nnew\nprofiles 2\n0 0 0 1\n0 1 0 1\nunknowns 1\n0 0 1\n",
    ),
    ("p.0.0.0.1", &[1, 1, 8, 1]),
    ("p.0.1.0.1", &[1, 1, 4, 1]),
    ("u.0.0.1", &[1, 1, 0x84, 0x80, 0x80, 0xc0, 4, 1]),
    ("seal.1", b""),
];

/// One image in two epochs.
pub(crate) const TWO_EPOCHS: &[(&str, &[u8])] = &[
    (
        "head.2",
        b"dcpi-head 1\ngeneration 2\nepoch 1\nruns 1\nimages 1\nA\nprofiles 2\n0 0 0 1\n1 0 0 2\nunknowns 0\n",
    ),
    ("p.0.0.0.1", &[1, 1, 0, 1]),
    ("p.1.0.0.2", &[1, 1, 0, 1]),
    ("seal.2", b""),
];

/// A count at its limit.
pub(crate) const MOST_COUNTED: &[(&str, &[u8])] = &[
    (
        "head.1",
        b"dcpi-head 1\ngeneration 1\nepoch 0\nruns 1\nimages 1\nA\nprofiles 1\n0 0 0 1\nunknowns 0\n",
    ),
    (
        "p.0.0.0.1",
        &[1, 1, 1, 0x80, 0x80, 0x80, 0x80, 0x80, 0x80, 0x40],
    ),
    ("seal.1", b""),
];

/// An ordinary run: five images, two events, and a sample with no known mapping.
pub(crate) const FIVE_IMAGES: &[(&str, &[u8])] = &[
    (
        "head.1",
        b"dcpi-head 1\ngeneration 1\nepoch 0\nruns 1\nimages 5\n/vmunix\n/usr/bin/X\n/usr/shlib/libc.so\n/usr/bin/sh\n/usr/bin/cc\nprofiles 6\n0 0 0 1\n0 1 0 1\n0 2 0 1\n0 3 0 1\n0 4 0 1\n0 4 2 1\nunknowns 1\n0 0 1\n",
    ),
    ("p.0.0.0.1", &[1, 1, 0x80, 8, 5]),
    ("p.0.1.0.1", &[1, 2, 0x80, 8, 10, 0x80, 8, 3]),
    ("p.0.2.0.1", &[1, 1, 0x80, 2, 12]),
    ("p.0.3.0.1", &[1, 1, 16, 3]),
    ("p.0.4.0.1", &[1, 1, 64, 5]),
    ("p.0.4.2.1", &[1, 1, 64, 1]),
    ("u.0.0.1", &[1, 1, 0x80, 0x80, 0x80, 0xc0, 4, 1]),
    ("seal.1", b""),
];

/// Profiles without rows between others, of two images whose numbers are not in the order of their names.
pub(crate) const EMPTY_PROFILES: &[(&str, &[u8])] = &[
    (
        "head.2",
        b"dcpi-head 1\ngeneration 2\nepoch 1\nruns 1\nimages 2\nb\na\nprofiles 5\n0 0 0 1\n0 0 3 1\n0 1 1 1\n1 0 0 2\n1 1 0 2\nunknowns 3\n0 0 1\n0 3 1\n1 0 2\n",
    ),
    ("p.0.0.0.1", &[1, 1, 0, 1]),
    ("p.0.0.3.1", &[1, 0]),
    ("p.0.1.1.1", &[1, 0]),
    ("p.1.0.0.2", &[1, 1, 1, 2]),
    ("p.1.1.0.2", &[1, 1, 2, 3]),
    ("u.0.0.1", &[1, 0]),
    ("u.0.3.1", &[1, 1, 3, 4]),
    ("u.1.0.2", &[1, 1, 1, 5]),
    ("seal.2", b""),
];
