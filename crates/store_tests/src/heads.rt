//! The text of a head: one that is read and written, texts that are none, and one of as many images as there may be.

use crate::samples::name;
use database_state::KnownRow;
use head_file::{Head, read_head, write_head};
use image_catalog::{Catalog, CatalogError, MOST_IMAGES};
use std::alloc::Global;
use std::test::Fail;

const SECOND: &str =
    "dcpi-head 1\ngeneration 2\nepoch 1\nruns 1\nimages 1\nA\nprofiles 2\n0 0 0 1\n1 0 0 2\nunknowns 0\n";

const ROWS: [KnownRow; 2] = [
    KnownRow {
        epoch: 0,
        image: 0,
        event: 0,
        g: 1,
    },
    KnownRow {
        epoch: 1,
        image: 0,
        event: 0,
        g: 2,
    },
];

/// The text of the head of these rows, with these images.
fn written(alloc: Global, catalog: Catalog) -> Result<Vec<u8>, Fail> {
    let head = Head {
        generation: 2,
        epoch: 1,
        runs: 1,
        catalog,
        known: Vec::from_slice(alloc, &ROWS)?,
        unknown: Vec::new(alloc),
    };
    Ok(write_head(alloc, &head)?)
}

/// What is read of a head of this generation, or `none`.
fn read(alloc: Global, text: &[u8], generation: u32) -> Result<String, Fail> {
    match read_head(alloc, text, generation)? {
        None => Ok(String::from_str(alloc, "none")?),
        Some(head) => shown(alloc, &head),
    }
}

fn shown(alloc: Global, head: &Head) -> Result<String, Fail> {
    let (generation, epoch, runs) = (head.generation, head.epoch, head.runs);
    let (images, known, unknown) = (head.catalog.names().len(), &head.known, &head.unknown);
    Ok(format!(in alloc; "{generation} {epoch} {runs} {images} {known:?} {unknown:?}")?)
}

#[test]
fn a_head_is_written(rt: HostRuntime) -> Result<(), Fail> {
    let mut catalog = Catalog::new(rt.alloc());
    catalog.number_of(rt.alloc(), &name(rt.alloc(), "A")?)?;
    let text = written(rt.alloc(), catalog)?;
    assert_eq!(rt; text.as_slice(), SECOND.as_bytes());
    Ok(())
}

// a part of the text, what stands in its place, and the generation that is asked for
const OTHERS: [(&str, &str, u32); 18] = [
    ("head 1", "head 2", 2),
    ("generation 2", "generation 3", 2),
    ("epoch 1", "epoch 01", 2),
    ("epoch 1", "epoch 3", 2),
    ("runs 1", "runs 0", 2),
    ("images 1\nA", "images 2\nA\nA", 2),
    ("images 1", "images 2", 2),
    ("profiles 2", "profiles 1", 2),
    ("0 0 0 1\n1 0 0 2", "1 0 0 2\n0 0 0 1", 2),
    ("1 0 0 2", "1 1 0 2", 2),
    ("1 0 0 2", "1 0 4 2", 2),
    ("1 0 0 2", "1 0 0 3", 2),
    ("1 0 0 2", "1 0 0 0", 2),
    ("1 0 0 2", "1  0 0 2", 2),
    ("unknowns 0\n", "unknowns 0", 2),
    ("unknowns 0\n", "unknowns 0\n\n", 2),
    ("runs 1", "runs 1", 1),
    (SECOND, "", 2),
];

#[test]
fn other_texts_are_no_heads(rt: HostRuntime) -> Result<(), Fail> {
    let alloc = rt.alloc();
    let head = read(alloc, SECOND.as_bytes(), 2)?;
    assert_eq!(rt;
        head.as_str(),
        "2 1 1 1 [KnownRow { epoch: 0, image: 0, event: 0, g: 1 }, \
        KnownRow { epoch: 1, image: 0, event: 0, g: 2 }] []"
    );
    for (old, new, generation) in OTHERS {
        let text = SECOND.replace(alloc, old, new)?;
        let other = read(alloc, text.as_bytes(), generation)?;
        assert_eq!(rt; other.as_str(), "none", "{old} {new}");
    }
    Ok(())
}

/// As many images as there may be, with their numbers in their names.
fn full(alloc: Global) -> Result<Catalog, Fail> {
    let mut catalog = Catalog::new(alloc);
    for n in 0u32..4096 {
        let image = format!(in alloc; "/usr/lib/image.{n}")?;
        if catalog.number_of(alloc, &name(alloc, image.as_str())?)? != n {
            return Err("another number".into());
        }
    }
    Ok(catalog)
}

/// The number of a name in the head of a text.
fn number_in(alloc: Global, text: &[u8], image: &str) -> Result<Option<u32>, Fail> {
    let image = name(alloc, image)?;
    match read_head(alloc, text, 2)? {
        None => Ok(None),
        Some(head) => Ok(head.catalog.find(&image)),
    }
}

#[test]
fn there_may_be_4096_images(rt: HostRuntime) -> Result<(), Fail> {
    let alloc = rt.alloc();
    let mut catalog = full(alloc)?;
    let refused = catalog.number_of(alloc, &name(alloc, "other")?).err();
    let held = catalog
        .number_of(alloc, &name(alloc, "/usr/lib/image.17")?)
        .ok();
    assert_eq!(rt;
        (refused, held, catalog.names().len()),
        (Some(CatalogError::Full), Some(17), MOST_IMAGES)
    );
    let text = written(alloc, catalog)?;
    assert_eq!(rt; number_in(alloc, &text, "/usr/lib/image.4095")?, Some(4095));
    Ok(())
}

#[test]
fn names_have_numbers(rt: HostRuntime) -> Result<(), Fail> {
    let alloc = rt.alloc();
    let mut catalog = Catalog::new(alloc);
    for (text, held, number) in [("a", None, 0), ("b", None, 1), ("a", Some(0), 0)] {
        let name = name(alloc, text)?;
        let found = catalog.find(&name);
        assert_eq!(rt; (found, catalog.number_of(alloc, &name)?), (held, number));
    }
    let copy = catalog.copy(alloc)?;
    let second = copy.name(1).ok_or("no second name")?;
    let found = copy.find(second);
    assert_eq!(rt; (second.bytes(), found), (b"b".as_slice(), Some(1)));
    assert_eq!(rt; (copy.names().len(), copy.name(2).is_none()), (2, true));
    Ok(())
}
