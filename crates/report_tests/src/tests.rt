//! Listings by image and by procedure, as tables.

use dcpiprof_report::{Epochs, by_image, by_procedure, rows_csv, rows_text};
use epoch_store::{DbFault, open_database};
use outside_io::{ListedFaults, MemSource};
use sample_key::Event;
use std::alloc::Global;
use std::test::Fail;
use store_io::{FileRef, MemStore, Store};
use symbol_ranges::{Symbols, read_symbols};
use text_num::Name;

/// A form of a listing.
#[derive(Clone, Copy)]
enum Form {
    Text,
    Csv,
}

// An ordinary run: five images, two events, and a sample with no known mapping.
const FIVE_IMAGES: &[(&str, &[u8])] = &[
    (
        "head.1",
        b"dcpi-head 1\ngeneration 1\nepoch 0\nruns 1\nimages 5\n/vmunix\n/usr/bin/X\n/usr/shlib/libc.so\n/usr/bin/sh\n/usr/bin/cc\nprofiles 6\n0 0 0 1\n0 1 0 1\n0 2 0 1\n0 3 0 1\n0 4 0 1\n0 4 2 1\nunknowns 1\n0 0 1\n",
    ),
    ("p.0.0.0.1", &[1, 1, 0x80, 8, 5]),
    ("p.0.1.0.1", &[1, 2, 0x80, 8, 10, 0x80, 8, 3]),
    ("p.0.2.0.1", &[1, 1, 0x80, 2, 12]),
    ("p.0.3.0.1", &[1, 1, 16, 3]),
    ("p.0.4.0.1", &[1, 1, 64, 5]),
    ("p.0.4.2.1", &[1, 1, 64, 1]),
    ("u.0.0.1", &[1, 1, 0x80, 0x80, 0x80, 0xc0, 4, 1]),
    ("seal.1", b""),
];

const FIVE_SYMBOLS: &[u8] =
    b"/usr/bin/X 1000 100 dispatch\n/usr/bin/cc 0 200 parse\n/usr/bin/sh 0 80 main\n/usr/shlib/libc.so 400 40 strcmp\n/vmunix 1000 100 idle\n";

// One image in two epochs.
const TWO_EPOCHS: &[(&str, &[u8])] = &[
    (
        "head.2",
        b"dcpi-head 1\ngeneration 2\nepoch 1\nruns 1\nimages 1\nA\nprofiles 2\n0 0 0 1\n1 0 0 2\nunknowns 0\n",
    ),
    ("p.0.0.0.1", &[1, 1, 0, 1]),
    ("p.1.0.0.2", &[1, 1, 0, 1]),
    ("seal.2", b""),
];

// One image whose name has a comma.
const A_COMMA: &[(&str, &[u8])] = &[
    (
        "head.1",
        b"dcpi-head 1\ngeneration 1\nepoch 0\nruns 1\nimages 1\na,b\nprofiles 1\n0 0 0 1\nunknowns 0\n",
    ),
    ("p.0.0.0.1", &[1, 1, 2, 3]),
    ("seal.1", b""),
];

fn store_of(alloc: Global, files: &[(&str, &[u8])]) -> Result<MemStore, Fail> {
    let mut store = MemStore::new(alloc, Vec::new(alloc));
    for (name, bytes) in files {
        let name = Name::of_bytes(alloc, name.as_bytes())?.ok_or("no name")?;
        store.write(alloc, &name, bytes)?;
    }
    Ok(store)
}

fn symbols_of(alloc: Global, list: &[u8]) -> Result<Symbols, Fail> {
    let mut source = MemSource::new(list.to_vec(alloc)?, ListedFaults::none(alloc));
    Ok(read_symbols(alloc, &mut source)?)
}

/// A listing by image.
fn images(
    alloc: Global,
    files: &[(&str, &[u8])],
    epochs: Epochs,
    event: Event,
    form: Form,
) -> Result<Vec<u8>, Fail> {
    let mut store = store_of(alloc, files)?;
    let db = open_database(alloc, &mut store)?;
    let rows = by_image(alloc, &db, &mut store, epochs, event)?;
    match form {
        Form::Text => Ok(rows_text(alloc, &rows, epochs, event)?),
        Form::Csv => Ok(rows_csv(alloc, &rows, false)?),
    }
}

/// A listing by procedure.
fn procedures(
    alloc: Global,
    files: &[(&str, &[u8])],
    list: &[u8],
    epochs: Epochs,
    form: Form,
) -> Result<Vec<u8>, Fail> {
    let mut store = store_of(alloc, files)?;
    let db = open_database(alloc, &mut store)?;
    let symbols = symbols_of(alloc, list)?;
    let event = Event::Cycles;
    let rows = by_procedure(alloc, &db, &mut store, &symbols, epochs, event)?;
    match form {
        Form::Text => Ok(rows_text(alloc, &rows, epochs, event)?),
        Form::Csv => Ok(rows_csv(alloc, &rows, true)?),
    }
}

#[test]
fn images_are_listed(rt: HostRuntime) -> Result<(), Fail> {
    let alloc = rt.alloc();
    let text = images(alloc, FIVE_IMAGES, Epochs::All, Event::Cycles, Form::Text)?;
    assert!(rt;
        text.as_slice()
            == b"cycles epoch all total 39\n          13  33.33  33.33 /usr/bin/X\n          12  30.76  64.10 /usr/shlib/libc.so\n           5  12.82  76.92 /usr/bin/cc\n           5  12.82  89.74 /vmunix\n           3   7.69  97.43 /usr/bin/sh\n           1   2.56 100.00 (unknown profile)\n".as_slice()
    );
    let text = images(alloc, &[], Epochs::All, Event::Cycles, Form::Text)?;
    assert!(rt; text.as_slice() == b"cycles epoch all total 0\n".as_slice());
    let text = images(alloc, TWO_EPOCHS, Epochs::One(1), Event::Cycles, Form::Text)?;
    assert!(rt;
        text.as_slice() == b"cycles epoch 1 total 1\n           1 100.00 100.00 A\n".as_slice()
    );
    let text = images(alloc, TWO_EPOCHS, Epochs::All, Event::Cycles, Form::Csv)?;
    assert!(rt;
        text.as_slice() == b"count,percent,cumulative,image\n2,100.00,100.00,A\n".as_slice()
    );
    let text = images(alloc, TWO_EPOCHS, Epochs::All, Event::Imiss, Form::Csv)?;
    assert!(rt; text.as_slice() == b"count,percent,cumulative,image\n".as_slice());
    let text = images(alloc, A_COMMA, Epochs::One(0), Event::Cycles, Form::Csv)?;
    assert!(rt;
        text.as_slice() == b"count,percent,cumulative,image\n3,100.00,100.00,\"a,b\"\n".as_slice()
    );
    Ok(())
}

#[test]
fn procedures_are_listed(rt: HostRuntime) -> Result<(), Fail> {
    let alloc = rt.alloc();
    let text = procedures(alloc, FIVE_IMAGES, FIVE_SYMBOLS, Epochs::All, Form::Text)?;
    assert!(rt;
        text.as_slice()
            == b"cycles epoch all total 39\n          12  30.76  30.76 strcmp /usr/shlib/libc.so\n          10  25.64  56.41 dispatch /usr/bin/X\n           5  12.82  69.23 parse /usr/bin/cc\n           5  12.82  82.05 idle /vmunix\n           3   7.69  89.74 (no symbol) /usr/bin/X\n           3   7.69  97.43 main /usr/bin/sh\n           1   2.56 100.00 (unknown profile)\n".as_slice()
    );
    let text = procedures(alloc, A_COMMA, b"a,b 0 8 f\n", Epochs::One(0), Form::Csv)?;
    assert!(rt;
        text.as_slice()
            == b"count,percent,cumulative,procedure,image\n3,100.00,100.00,(no symbol),\"a,b\"\n".as_slice()
    );
    let text = procedures(alloc, A_COMMA, b"a,b 8 4 f\n", Epochs::All, Form::Csv)?;
    assert!(rt;
        text.as_slice()
            == b"count,percent,cumulative,procedure,image\n3,100.00,100.00,f,\"a,b\"\n".as_slice()
    );
    Ok(())
}

#[test]
fn the_first_bad_file_is_named(rt: HostRuntime) -> Result<(), Fail> {
    let alloc = rt.alloc();
    let mut store = store_of(alloc, TWO_EPOCHS)?;
    for name in ["p.0.0.0.1", "p.1.0.0.2"] {
        let name = Name::of_bytes(alloc, name.as_bytes())?.ok_or("no name")?;
        store.write(alloc, &name, &[2])?;
    }
    let db = open_database(alloc, &mut store)?;
    for (epochs, epoch, g) in [(Epochs::All, 0, 1), (Epochs::One(1), 1, 2)] {
        let fault = by_image(alloc, &db, &mut store, epochs, Event::Cycles).err();
        let (image, event) = (0, 0);
        let file = FileRef::Known {
            epoch,
            image,
            event,
            g,
        };
        assert!(rt; fault == Some(DbFault::Bad { file }));
    }
    assert!(rt; by_image(alloc, &db, &mut store, Epochs::All, Event::Dmiss).is_ok());
    assert!(rt; by_image(alloc, &db, &mut store, Epochs::One(7), Event::Cycles).is_ok());
    Ok(())
}
