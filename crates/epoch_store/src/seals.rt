//! The seals among the names of a store: the greatest of them, and the number of one.
ghost use Rattle.std.specs.Prelude.{◌≡◌, ◌≤◌, IfSome};
ghost use Rattle.epoch_store.specs.Seals.{seal_number, later, greatest_seal};

use database_state::LAST_GENERATION;
use text_num::{Name, read_dec};

/// The greatest generation whose seal is among the names; 0 where there is none.
pub fn greatest_seal(names: &[Name]) -> u32
    ensures { result ≡ greatest_seal 0 names.now }
{
    let mut best = 0;
    for name in names {
        best = later(best, seal_number(name.bytes()));
    }
    best
}

fn later(best: u32, found: Option<u32>) -> u32
    ensures { result ≡ later best found }
{
    match found {
        Some(g) => best.max(g),
        None => best,
    }
}

/// The generation whose seal has this name, from 1 to 65,536.
fn seal_number(text: &[u8]) -> Option<u32>
    ensures { result ≡ seal_number text.now }
{
    if text.len() < 5 {
        return None;
    }
    if &text[..5] != b"seal.".as_slice() {
        return None;
    }
    let g = read_dec(&text[5..])?;
    if 1 <= g && g <= LAST_GENERATION {
        Some(g as u32)
    } else {
        None
    }
}
