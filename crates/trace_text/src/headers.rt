//! The header of a trace: `sizes_of` finds its form and reads its sizes.

ghost use Rattle.std.specs.Prelude.{◌≡◌, ◌&&◌, [], ◌∷◌, IfOk};
ghost use Rattle.std.specs.Option.{option_map};
ghost use Rattle.trace_model.specs.Grammar.{header_of, cut_at_spaces, verdict};
ghost use Rattle.trace_model.specs.Said.{every, tested, is_spelled};
ghost use Rattle.trace_text.specs.Forms.{ReadsLine, four_fields, header_shown};
ghost use Rattle.trace_text.specs.Judging.{size_shown};
ghost use Rattle.trace_text.specs.State.{Passes};
ghost use Rattle.trace_text.specs.Stepping.{IsSized};

use crate::fields::{Four, cut_four, decimal, table_size, why_not_read};
use text_num::is_dec;
use trace_model::{MOST_BUCKETS, MOST_CPUS, MOST_ENTRIES, TraceWhy};

/// A header whose words are in order, with its number fields as they stand.
#[derive(Clone, Copy)]
pub enum HeaderForm<'a> {
    /// The processors alone; the sizes are the usual ones.
    Short {
        cpus: &'a [u8],
    },
    /// The processors and the sizes.
    Long {
        cpus: &'a [u8],
        buckets: &'a [u8],
        buffer: &'a [u8],
    },
}

/// The sizes that a header gives.
#[derive(Clone, Copy)]
pub struct Sizes {
    /// How many processors.
    pub cpus: u32,
    /// How many buckets a table has.
    pub buckets: u32,
    /// How many entries a buffer holds.
    pub buffer: u32,
}

/// The sizes that a header gives, or the first reason why it is refused.
pub fn sizes_of(line: &[u8]) -> Result<Sizes, TraceWhy>
    ensures judged { IsSized result (verdict [] line.now) }
    ensures passes { IfOk result (λ sizes. Passes [] (size_shown sizes)) }
{
    let Some(form) = header_form(line) else {
        return Err(TraceWhy::NotHeader);
    };
    let Some(sizes) = read_sizes(&form) else {
        return Err(why_not_read(is_spelled(&form)));
    };
    Ok(sizes)
}

/// The form of a header; nothing where the line has none.
pub fn header_form(line: &[u8]) -> Option<HeaderForm<'_>>
    ensures { option_map header_shown result ≡ header_of (cut_at_spaces line.now) }
{
    let front = cut_four(line)?;
    let Some(behind) = front.rest else {
        return short_form(front.a, front.b, front.c, front.d);
    };
    let back = cut_four(behind)?;
    match back.rest {
        None => long_form(&front, &back),
        Some(_) => None,
    }
}

fn long_form<'a>(front: &Four<'a>, back: &Four<'a>) -> Option<HeaderForm<'a>>
    ensures { option_map header_shown result ≡
        header_of (four_fields front.now (four_fields back.now [])) }
{
    if front.a == b"dcpi-trace".as_slice()
        && front.b == b"1".as_slice()
        && front.c == b"cpus".as_slice()
        && back.a == b"buckets".as_slice()
        && back.c == b"buffer".as_slice()
    {
        Some(HeaderForm::Long {
            cpus: front.d,
            buckets: back.b,
            buffer: back.d,
        })
    } else {
        None
    }
}

fn short_form<'a>(a: &[u8], b: &[u8], c: &[u8], cpus: &'a [u8]) -> Option<HeaderForm<'a>>
    ensures { option_map header_shown result ≡ header_of (a.now ∷ b.now ∷ c.now ∷ cpus.now ∷ []) }
{
    if a == b"dcpi-trace".as_slice() && b == b"1".as_slice() && c == b"cpus".as_slice() {
        Some(HeaderForm::Short { cpus })
    } else {
        None
    }
}

/// The sizes, where each number field is canonical and in its range.
pub fn read_sizes(form: &HeaderForm<'_>) -> Option<Sizes>
    ensures { ReadsLine (header_shown form.now) (option_map size_shown result) }
{
    match *form {
        HeaderForm::Short { cpus } => {
            let cpus = decimal(cpus, 1, MOST_CPUS)?;
            Some(Sizes {
                cpus,
                buckets: MOST_BUCKETS,
                buffer: MOST_ENTRIES,
            })
        }
        HeaderForm::Long {
            cpus,
            buckets,
            buffer,
        } => {
            let cpus = decimal(cpus, 1, MOST_CPUS)?;
            let buckets = table_size(buckets)?;
            let buffer = decimal(buffer, 1, MOST_ENTRIES)?;
            Some(Sizes {
                cpus,
                buckets,
                buffer,
            })
        }
    }
}

/// Whether each number field is canonical.
pub fn is_spelled(form: &HeaderForm<'_>) -> bool
    ensures { result ≡ every is_spelled (tested (header_shown form.now)) }
{
    match form {
        HeaderForm::Short { cpus } => is_dec(cpus),
        HeaderForm::Long {
            cpus,
            buckets,
            buffer,
        } => is_dec(cpus) && (is_dec(buckets) && is_dec(buffer)),
    }
}
