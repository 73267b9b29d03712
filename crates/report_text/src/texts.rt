//! A listing as text.
ghost use Rattle.std.specs.Prelude.{◌≡◌, ◌≤◌, ◌<◌, ◌+◌, ◌++◌, IfOk, OnOk};
ghost use Rattle.std.specs.Fmt.{decimal};
ghost use Rattle.report_text.specs.Reports.{AddsUp};
ghost use Rattle.report_text.specs.Texts.{epochs_text, first_line, label_text, lines_after, numbers_text, percent, report_text, right_in, row_line};

use crate::epochs::Epochs;
use crate::labels::Label;
use crate::rows::{Row, Rows};
use crate::shares::share;
use sample_key::Event;
use std::alloc::{AllocError, Global};
use text_num::{put_dec, put_hundredths};

/// The places of a count.
const COUNT_PLACES: usize = 12;

/// The places of a percentage.
const PERCENT_PLACES: usize = 6;

/// A listing as text: the line `EVENT epoch EPOCHS total TOTAL`, then for each row its count, its percentage of the total,
/// that of all rows up to it, and its label.
pub fn rows_text(
    alloc: Global,
    rows: &Rows,
    epochs: Epochs,
    event: Event,
) -> Result<Vec<u8>, AllocError>
    requires { AddsUp rows.now }
    ensures { IfOk result (λ text. text.items ≡ report_text rows.now epochs event) }
{
    let mut out = Vec::new(alloc);
    put_first_line(&mut out, rows, epochs, event)?;
    put_lines(&mut out, rows.total, &rows.rows)?;
    Ok(out)
}

fn put_first_line(
    out: &mut Vec<u8>,
    rows: &Rows,
    epochs: Epochs,
    event: Event,
) -> Result<(), AllocError>
    ensures { OnOk result (out.new.items ≡ out.old.items ++ first_line rows.now epochs event) }
{
    out.extend_from_slice(event.name())?;
    out.extend_from_slice(b" epoch ")?;
    put_epochs(out, epochs)?;
    out.extend_from_slice(b" total ")?;
    put_dec(out, rows.total)?;
    out.push(b'\n')?;
    Ok(())
}

fn put_epochs(out: &mut Vec<u8>, epochs: Epochs) -> Result<(), AllocError>
    ensures { OnOk result (out.new.items ≡ out.old.items ++ epochs_text epochs) }
{
    match epochs {
        Epochs::All => out.extend_from_slice(b"all"),
        Epochs::One(epoch) => put_dec(out, u128::from(epoch)),
    }
}

fn put_lines(out: &mut Vec<u8>, total: u128, rows: &[Row]) -> Result<(), AllocError>
    requires { AddsUp (record { total = total; rows = rows.now }) }
    ensures { OnOk result (out.new.items ≡ out.old.items ++ lines_after total 0 rows.now) }
{
    let mut up_to = 0;
    for row in rows {
        up_to += row.count;
        put_line(out, total, up_to, row)?;
    }
    Ok(())
}

fn put_line(out: &mut Vec<u8>, total: u128, up_to: u128, row: &Row) -> Result<(), AllocError>
    requires some { 0 < total }
    requires count { row.now.count ≤ up_to }
    requires up_to { up_to ≤ total }
    ensures { OnOk result (out.new.items ≡ out.old.items ++ row_line total up_to row.now) }
{
    put_numbers(out, total, up_to, row.count)?;
    put_label(out, &row.label)?;
    out.push(b'\n')?;
    Ok(())
}

// The count and its two percentages, with a blank behind each.
fn put_numbers(out: &mut Vec<u8>, total: u128, up_to: u128, count: u128) -> Result<(), AllocError>
    requires some { 0 < total }
    requires count { count ≤ up_to }
    requires up_to { up_to ≤ total }
    ensures { OnOk result (out.new.items ≡ out.old.items ++ numbers_text total up_to count) }
{
    put_count(out, count)?;
    out.push(b' ')?;
    put_percent(out, count, total)?;
    out.push(b' ')?;
    put_percent(out, up_to, total)?;
    out.push(b' ')?;
    Ok(())
}

fn put_count(out: &mut Vec<u8>, count: u128) -> Result<(), AllocError>
    ensures { OnOk result (out.new.items ≡ out.old.items ++ right_in 12 (decimal count)) }
{
    let mut text = Vec::new(*out.allocator());
    put_dec(&mut text, count)?;
    put_right(out, &text, COUNT_PLACES)
}

fn put_percent(out: &mut Vec<u8>, part: u128, total: u128) -> Result<(), AllocError>
    requires part { part ≤ total }
    requires some { 0 < total }
    ensures { OnOk result (out.new.items ≡ out.old.items ++ right_in 6 (percent part total)) }
{
    let mut text = Vec::new(*out.allocator());
    put_hundredths(&mut text, share(part, total))?;
    put_right(out, &text, PERCENT_PLACES)
}

fn put_right(out: &mut Vec<u8>, text: &[u8], places: usize) -> Result<(), AllocError>
    ensures { OnOk result (out.new.items ≡ out.old.items ++ right_in places text.now) }
{
    let blanks = places.saturating_sub(text.len());
    for _blank in 0..blanks {
        out.push(b' ')?;
    }
    out.extend_from_slice(text)
}

fn put_label(out: &mut Vec<u8>, label: &Label) -> Result<(), AllocError>
    ensures { OnOk result (out.new.items ≡ out.old.items ++ label_text label.now) }
{
    match label {
        Label::Image(image) => out.extend_from_slice(image.bytes()),
        Label::Procedure { image, name } => {
            out.extend_from_slice(name.bytes())?;
            out.push(b' ')?;
            out.extend_from_slice(image.bytes())
        }
        Label::NoSymbol { image } => {
            out.extend_from_slice(b"(no symbol) ")?;
            out.extend_from_slice(image.bytes())
        }
        Label::Unknown => out.extend_from_slice(b"(unknown profile)"),
    }
}
