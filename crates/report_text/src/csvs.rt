//! A listing as CSV.
ghost use Rattle.std.specs.Prelude.{◌≡◌, ◌≤◌, ◌<◌, ◌∷◌, true, IfOk, OnOk, map};
ghost use Rattle.std.specs.Io.KnownBytes.{Appends};
ghost use Rattle.csv.specs.Writing.{default_writer, row_text, text_written};
ghost use Rattle.report_text.specs.Labels.{is_listed};
ghost use Rattle.report_text.specs.Reports.{AddsUp, AreListed};
ghost use Rattle.report_text.specs.Csvs.{header_record, records_after, report_csv, row_record, no_symbol_fields, unknown_fields, IsReady};

use crate::labels::Label;
use crate::rows::{Row, Rows};
use crate::shares::share;
use csv::{Writer, WriterBuilder};
use std::alloc::{AllocError, Global};
use std::io::Write;
use text_num::{put_dec, put_hundredths};

/// A listing as CSV: the header `count,percent,cumulative,image`, or in a listing by procedure
/// `count,percent,cumulative,procedure,image`, then a record for each row.
pub fn rows_csv(alloc: Global, rows: &Rows, procedures: bool) -> Result<Vec<u8>, AllocError>
    requires sums { AddsUp rows.now }
    requires labels { AreListed procedures rows.now.rows }
    ensures { IfOk result (λ text. text.items ≡ report_csv procedures rows.now) }
{
    let mut writer = WriterBuilder::new().from_writer(Vec::new(alloc));
    put_header(&mut writer, procedures)?;
    put_rows(alloc, &mut writer, procedures, rows.total, &rows.rows)?;
    match writer.into_inner() {
        Ok(text) => Ok(text),
        Err(_) => Err(AllocError),
    }
}

fn put_header<W: Write + Drop>(writer: &mut Writer<W>, procedures: bool) -> Result<(), AllocError>
    requires { IsReady writer.old }
    ensures ready { OnOk result (IsReady writer.new) }
    ensures bytes { OnOk result (Appends (text_written W.contents writer.old)
        (text_written W.contents writer.new) (header_record procedures)) }
{
    if procedures {
        let fields: [&[u8]; 5] = [b"count", b"percent", b"cumulative", b"procedure", b"image"];
        put_fields(writer, &fields)
    } else {
        let fields: [&[u8]; 4] = [b"count", b"percent", b"cumulative", b"image"];
        put_fields(writer, &fields)
    }
}

fn put_rows<W: Write + Drop>(
    alloc: Global,
    writer: &mut Writer<W>,
    procedures: bool,
    total: u128,
    rows: &[Row],
) -> Result<(), AllocError>
    requires ready { IsReady writer.old }
    requires sums { AddsUp (record { total = total; rows = rows.now }) }
    requires labels { AreListed procedures rows.now }
    ensures ready { OnOk result (IsReady writer.new) }
    ensures bytes { OnOk result (Appends (text_written W.contents writer.old)
        (text_written W.contents writer.new) (records_after procedures total 0 rows.now)) }
{
    let mut up_to = 0;
    for row in rows {
        up_to += row.count;
        put_row(alloc, writer, procedures, total, up_to, row)?;
    }
    Ok(())
}

fn put_row<W: Write + Drop>(
    alloc: Global,
    writer: &mut Writer<W>,
    procedures: bool,
    total: u128,
    up_to: u128,
    row: &Row,
) -> Result<(), AllocError>
    requires ready { IsReady writer.old }
    requires some { 0 < total }
    requires count { row.now.count ≤ up_to }
    requires up_to { up_to ≤ total }
    requires label { is_listed procedures row.now.label ≡ true }
    ensures ready { OnOk result (IsReady writer.new) }
    ensures bytes { OnOk result (Appends (text_written W.contents writer.old)
        (text_written W.contents writer.new) (row_record procedures total up_to row.now)) }
{
    let mut count = Vec::new(alloc);
    put_dec(&mut count, row.count)?;
    let mut part = Vec::new(alloc);
    put_hundredths(&mut part, share(row.count, total))?;
    let mut front = Vec::new(alloc);
    put_hundredths(&mut front, share(up_to, total))?;
    let (count, part, front) = (count.as_slice(), part.as_slice(), front.as_slice());
    match &row.label {
        Label::Image(image) => put_fields(writer, &[count, part, front, image.bytes()]),
        Label::Procedure { image, name } => {
            put_fields(writer, &[count, part, front, name.bytes(), image.bytes()])
        }
        Label::NoSymbol { image } => put_no_symbol(writer, count, part, front, image.bytes()),
        Label::Unknown => put_unknown(writer, procedures, count, part, front),
    }
}

fn put_no_symbol<W: Write + Drop>(
    writer: &mut Writer<W>,
    count: &[u8],
    part: &[u8],
    front: &[u8],
    image: &[u8],
) -> Result<(), AllocError>
    requires { IsReady writer.old }
    ensures ready { OnOk result (IsReady writer.new) }
    ensures bytes { OnOk result (Appends (text_written W.contents writer.old)
        (text_written W.contents writer.new)
        (row_text default_writer (count.now ∷ part.now ∷ front.now ∷ no_symbol_fields image.now))) }
{
    let fields: [&[u8]; 5] = [count, part, front, b"(no symbol)", image];
    put_fields(writer, &fields)
}

fn put_unknown<W: Write + Drop>(
    writer: &mut Writer<W>,
    procedures: bool,
    count: &[u8],
    part: &[u8],
    front: &[u8],
) -> Result<(), AllocError>
    requires { IsReady writer.old }
    ensures ready { OnOk result (IsReady writer.new) }
    ensures bytes { OnOk result (Appends (text_written W.contents writer.old)
        (text_written W.contents writer.new)
        (row_text default_writer (count.now ∷ part.now ∷ front.now ∷ unknown_fields procedures))) }
{
    if procedures {
        let fields: [&[u8]; 5] = [count, part, front, b"(unknown profile)", b""];
        put_fields(writer, &fields)
    } else {
        let fields: [&[u8]; 4] = [count, part, front, b"(unknown profile)"];
        put_fields(writer, &fields)
    }
}

// A record.
fn put_fields<W: Write + Drop>(writer: &mut Writer<W>, fields: &[&[u8]]) -> Result<(), AllocError>
    requires { IsReady writer.old }
    ensures ready { OnOk result (IsReady writer.new) }
    ensures bytes { OnOk result (Appends (text_written W.contents writer.old)
        (text_written W.contents writer.new)
        (row_text default_writer (map (λ f. f.now) fields.now))) }
{
    match writer.write_fields(fields) {
        Ok(()) => Ok(()),
        Err(_) => Err(AllocError),
    }
}
