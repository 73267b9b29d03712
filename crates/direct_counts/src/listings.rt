//! The text of counts: a line for each row, in their order.
ghost use Rattle.std.specs.Prelude.{◌≡◌, ◌++◌, map, IfOk, OnOk};
ghost use Rattle.trace_model.specs.Listed.{rows_of};
ghost use Rattle.trace_model.specs.Counting.{rows_text, row_text, known_row, unknown_row};
ghost use Rattle.direct_counts.specs.Lines.{row_end};

use sample_key::Event;
use std::alloc::{AllocError, Global};
use text_num::{put_dec, put_hex};
use trace_model::{Counts, KnownCount, UnknownCount};

/// The text of counts: a line `k EPOCH IMAGE EVENT OFFSET COUNT` for each known count and then a line
/// `u EPOCH EVENT PC COUNT` for each unknown one, in the order of the lists; offsets and program counters are
/// hexadecimal, the other numbers decimal.
pub fn counts_text(alloc: Global, counts: &Counts) -> Result<Vec<u8>, AllocError>
    ensures { IfOk result (λ text. text.items ≡ rows_text (rows_of counts.now)) }
{
    let mut out = Vec::new(alloc);
    put_known(&mut out, &counts.known)?;
    put_unknown(&mut out, &counts.unknown)?;
    Ok(out)
}

fn put_known(out: &mut Vec<u8>, rows: &[KnownCount]) -> Result<(), AllocError>
    ensures { OnOk result (out.new.items ≡ out.old.items ++ rows_text (map known_row rows.now)) }
{
    for row in rows {
        put_known_row(out, row)?;
    }
    Ok(())
}

fn put_unknown(out: &mut Vec<u8>, rows: &[UnknownCount]) -> Result<(), AllocError>
    ensures { OnOk result (out.new.items ≡ out.old.items ++ rows_text (map unknown_row rows.now)) }
{
    for row in rows {
        put_unknown_row(out, row)?;
    }
    Ok(())
}

fn put_known_row(out: &mut Vec<u8>, row: &KnownCount) -> Result<(), AllocError>
    ensures { OnOk result (out.new.items ≡ out.old.items ++ row_text (known_row row.now)) }
{
    out.extend_from_slice(b"k ")?;
    put_dec(out, u128::from(row.epoch))?;
    out.push(b' ')?;
    out.extend_from_slice(row.image.bytes())?;
    put_row_end(out, row.event, row.offset, row.count)?;
    Ok(())
}

fn put_unknown_row(out: &mut Vec<u8>, row: &UnknownCount) -> Result<(), AllocError>
    ensures { OnOk result (out.new.items ≡ out.old.items ++ row_text (unknown_row row.now)) }
{
    out.extend_from_slice(b"u ")?;
    put_dec(out, u128::from(row.epoch))?;
    put_row_end(out, row.event, row.pc, row.count)?;
    Ok(())
}

fn put_row_end(out: &mut Vec<u8>, event: Event, address: u64, count: u64) -> Result<(), AllocError>
    ensures { OnOk result (out.new.items ≡ out.old.items ++ row_end event address count) }
{
    out.push(b' ')?;
    out.extend_from_slice(event.name())?;
    out.push(b' ')?;
    put_hex(out, address)?;
    out.push(b' ')?;
    put_dec(out, u128::from(count))?;
    out.push(b'\n')?;
    Ok(())
}
