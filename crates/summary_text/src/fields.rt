//! A word and a number.
ghost use Rattle.std.specs.Prelude.{◌≡◌, ◌++◌, OnOk};
ghost use Rattle.summary_text.specs.Summaries.{fates, field};

use std::alloc::AllocError;
use text_num::put_dec;

/// How many samples were taken, and what became of them.
#[derive(Clone, Copy, Debug, PartialEq, Eq)]
pub(crate) struct Fates {
    pub taken: u128,
    pub known: u128,
    pub unknown: u128,
    pub lost: u128,
}

/// Appends what became of samples, to the end of the line.
pub(crate) fn put_fates(out: &mut Vec<u8>, of: Fates) -> Result<(), AllocError>
    ensures { OnOk result
        (out.new.items ≡ out.old.items ++ fates of.taken of.known of.unknown of.lost) }
{
    put_field(out, b"taken", of.taken)?;
    put_field(out, b"known", of.known)?;
    put_field(out, b"unknown", of.unknown)?;
    put_field(out, b"lost", of.lost)?;
    out.push(b'\n')?;
    Ok(())
}

/// Appends a word and a number, each behind a blank.
pub(crate) fn put_field(out: &mut Vec<u8>, word: &[u8], n: u128) -> Result<(), AllocError>
    ensures { OnOk result (out.new.items ≡ out.old.items ++ field word.now n) }
{
    out.push(b' ')?;
    out.extend_from_slice(word)?;
    out.push(b' ')?;
    put_dec(out, n)?;
    Ok(())
}
