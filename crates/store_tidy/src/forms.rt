//! The forms of the names of a database's files.
ghost use Rattle.std.specs.Prelude.{◌≡◌};
ghost use Rattle.store_tidy.specs.FileForms.{is_decimal_in, are_decimals_in, is_file_name};
ghost use Rattle.text_num.specs.Fields.{fields_behind};

use database_state::LAST_GENERATION;
use text_num::{cut_field, read_dec};

/// The numbers from `low` to `high`.
#[derive(Clone, Copy)]
pub struct Range {
    /// The least.
    pub low: u64,
    /// The greatest.
    pub high: u64,
}

/// The epochs.
pub const EPOCH: Range = Range {
    low: 0,
    high: 4_294_967_295,
};

/// The numbers of images.
pub const IMAGE: Range = Range {
    low: 0,
    high: 4_095,
};

/// The codes of events.
pub const EVENT: Range = Range { low: 0, high: 3 };

/// The generations of files.
pub const GENERATION: Range = Range {
    low: 1,
    high: LAST_GENERATION,
};

/// Whether this is the name of a database's file: `seal.G`, `head.G`, `p.E.I.V.G`, `u.E.V.G` or `r.G`, in canonical
/// decimals in their ranges.
pub fn is_file_name(name: &[u8]) -> bool
    ensures { result ≡ is_file_name name.now }
{
    let (word, numbers) = cut_field(name, b'.');
    if word == b"p".as_slice() {
        return are_decimals_in(&[EPOCH, IMAGE, EVENT, GENERATION], numbers);
    }
    if word == b"u".as_slice() {
        return are_decimals_in(&[EPOCH, EVENT, GENERATION], numbers);
    }
    let one_number = word == b"seal".as_slice()
        || word == b"head".as_slice()
        || word == b"r".as_slice();
    one_number && are_decimals_in(&[GENERATION], numbers)
}

/// Whether the fields of a text, if there is one, are canonical decimals, one in each of the ranges.
fn are_decimals_in(ranges: &[Range], text: Option<&[u8]>) -> bool
    ensures { result ≡ are_decimals_in ranges.now (fields_behind 46 text.entry) }
{
    let mut rest = text;
    for range in ranges {
        let Some(fields) = rest else {
            return false;
        };
        let (field, behind) = cut_field(fields, b'.');
        if !is_decimal_in(*range, field) {
            return false;
        }
        rest = behind;
    }
    rest.is_none()
}

fn is_decimal_in(range: Range, text: &[u8]) -> bool
    ensures { result ≡ is_decimal_in range text.now }
{
    match read_dec(text) {
        Some(n) => range.low <= n && n <= range.high,
        None => false,
    }
}
