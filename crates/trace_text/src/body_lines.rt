//! The lines of a body. `body_form` finds a line's form by its word and the number of its fields; `read_values` reads the
//! number fields; `is_spelled`, `is_aligned` and `is_titled` are what a line is tested for.

ghost use Rattle.std.specs.Prelude.{◌≡◌, ◌%◌, ◌==◌, ◌&&◌, [], ◌∷◌};
ghost use Rattle.std.specs.Option.{option_map};
ghost use Rattle.trace_model.specs.Grammar.{body_of, cut_at_spaces};
ghost use Rattle.trace_model.specs.Said.{Mapping, every, tested, is_spelled, is_aligned, is_titled};
ghost use Rattle.trace_text.specs.Forms.{ReadsLine, ReadsMapping, body_shown, mapping_fields, notice_shown};
ghost use Rattle.trace_text.specs.Forms.{notice_values, sample_shown, sample_values, values_shown};

use crate::fields::{address, decimal, range};
use sample_key::{Event, LAST_CPU};
use text_num::{cut_field, is_dec, is_hex, is_name};

/// A line of the body: `D` are its decimal fields and `H` its hexadecimal ones, as they stand or as numbers.
#[derive(Clone, Copy)]
pub enum BodyLine<'a, D, H> {
    /// A sample.
    Sample(SampleLine<D, H>),
    /// A record.
    Notice(NoticeLine<'a, D, H>),
    /// The end of the body.
    End,
}

/// The line of a sample.
#[derive(Clone, Copy)]
pub struct SampleLine<D, H> {
    /// The processor.
    pub cpu: D,
    /// The process.
    pub pid: D,
    /// The program counter, in bytes.
    pub pc: H,
    /// The event.
    pub event: Event,
}

/// The line of a record, its image by name.
#[derive(Clone, Copy)]
pub enum NoticeLine<'a, D, H> {
    /// A mapping that was found at startup.
    Scan(MappingLine<'a, D, H>),
    /// A mapping that the loader made.
    Load(MappingLine<'a, D, H>),
    /// A range that is no longer mapped.
    Unload { pid: D, base: H, length: H },
    /// The one mapping that a process has.
    Exec(MappingLine<'a, D, H>),
    /// The end of a process.
    Exit { pid: D },
    /// A mapping of the kernel.
    Kernel { base: H, length: H, image: &'a [u8] },
    /// A complete flush is asked for.
    Drain,
    /// What was gathered is committed.
    Merge,
    /// A new epoch.
    Epoch,
}

/// A mapping of a process.
#[derive(Clone, Copy)]
pub struct MappingLine<'a, D, H> {
    /// The process.
    pub pid: D,
    /// The first address, in bytes.
    pub base: H,
    /// How many bytes.
    pub length: H,
    /// The image by name.
    pub image: &'a [u8],
}

/// A line whose words are in order, with its other fields as they stand.
pub type BodyForm<'a> = BodyLine<'a, &'a [u8], &'a [u8]>;

/// The same with the values of its number fields.
pub type BodyValues<'a> = BodyLine<'a, u32, u64>;

/// A sample's line with its fields as they stand, and with their values.
pub type SampleForm<'a> = SampleLine<&'a [u8], &'a [u8]>;

pub type SampleValues = SampleLine<u32, u64>;

/// A record's line with its fields as they stand, and with their values.
pub type NoticeForm<'a> = NoticeLine<'a, &'a [u8], &'a [u8]>;

pub type NoticeValues<'a> = NoticeLine<'a, u32, u64>;

/// A mapping's line with its fields as they stand, and with their values.
pub type MappingForm<'a> = MappingLine<'a, &'a [u8], &'a [u8]>;

pub type MappingValues<'a> = MappingLine<'a, u32, u64>;

/// The form of a line of the body; nothing where it has none.
pub fn body_form(line: &[u8]) -> Option<BodyForm<'_>>
    ensures { option_map body_shown result ≡ body_of (cut_at_spaces line.now) }
{
    let (word, after_word) = cut_field(line, b' ');
    let Some(behind_word) = after_word else {
        return alone(word);
    };
    let (a, after_a) = cut_field(behind_word, b' ');
    let Some(behind_a) = after_a else {
        return with_one(word, a);
    };
    let (b, after_b) = cut_field(behind_a, b' ');
    let Some(behind_b) = after_b else {
        return None;
    };
    let (c, after_c) = cut_field(behind_b, b' ');
    let Some(behind_c) = after_c else {
        return with_three(word, a, b, c);
    };
    let (d, after_d) = cut_field(behind_c, b' ');
    match after_d {
        None => with_four(word, a, b, c, d),
        Some(_) => None,
    }
}

fn alone(word: &[u8]) -> Option<BodyForm<'_>>
    ensures { option_map body_shown result ≡ body_of (word.now ∷ []) }
{
    if word == b"drain".as_slice() {
        Some(BodyLine::Notice(NoticeLine::Drain))
    } else if word == b"merge".as_slice() {
        Some(BodyLine::Notice(NoticeLine::Merge))
    } else if word == b"epoch".as_slice() {
        Some(BodyLine::Notice(NoticeLine::Epoch))
    } else if word == b"end".as_slice() {
        Some(BodyLine::End)
    } else {
        None
    }
}

fn with_one<'a>(word: &[u8], pid: &'a [u8]) -> Option<BodyForm<'a>>
    ensures { option_map body_shown result ≡ body_of (word.now ∷ pid.now ∷ []) }
{
    if word == b"exit".as_slice() {
        Some(BodyLine::Notice(NoticeLine::Exit { pid }))
    } else {
        None
    }
}

fn with_three<'a>(word: &[u8], a: &'a [u8], b: &'a [u8], c: &'a [u8]) -> Option<BodyForm<'a>>
    ensures { option_map body_shown result ≡ body_of (word.now ∷ a.now ∷ b.now ∷ c.now ∷ []) }
{
    if word == b"unload".as_slice() {
        let (pid, base, length) = (a, b, c);
        Some(BodyLine::Notice(NoticeLine::Unload { pid, base, length }))
    } else if word == b"kernel".as_slice() {
        Some(BodyLine::Notice(NoticeLine::Kernel {
            base: a,
            length: b,
            image: c,
        }))
    } else {
        None
    }
}

fn with_four<'a>(
    word: &[u8],
    a: &'a [u8],
    b: &'a [u8],
    c: &'a [u8],
    d: &'a [u8],
) -> Option<BodyForm<'a>>
    ensures { option_map body_shown result ≡
        body_of (word.now ∷ a.now ∷ b.now ∷ c.now ∷ d.now ∷ []) }
{
    if word == b"s".as_slice() {
        match Event::of_name(d) {
            Some(event) => Some(BodyLine::Sample(SampleLine {
                cpu: a,
                pid: b,
                pc: c,
                event,
            })),
            None => None,
        }
    } else if word == b"load".as_slice() {
        Some(BodyLine::Notice(NoticeLine::Load(mapping_form(a, b, c, d))))
    } else if word == b"scan".as_slice() {
        Some(BodyLine::Notice(NoticeLine::Scan(mapping_form(a, b, c, d))))
    } else if word == b"exec".as_slice() {
        Some(BodyLine::Notice(NoticeLine::Exec(mapping_form(a, b, c, d))))
    } else {
        None
    }
}

fn mapping_form<'a>(
    pid: &'a [u8],
    base: &'a [u8],
    length: &'a [u8],
    image: &'a [u8],
) -> MappingForm<'a>
    ensures pid { result.pid.now ≡ pid.now }
    ensures base { result.base.now ≡ base.now }
    ensures size { result.length.now ≡ length.now }
    ensures image { result.image.now ≡ image.now }
{
    MappingLine {
        pid,
        base,
        length,
        image,
    }
}

/// The values of the fields, where each is canonical and in its range.
pub fn read_values<'a>(form: &BodyForm<'a>) -> Option<BodyValues<'a>>
    ensures { ReadsLine (body_shown form.now) (option_map values_shown result) }
{
    match form {
        BodyLine::Sample(sample) => Some(BodyLine::Sample(read_sample(sample)?)),
        BodyLine::Notice(notice) => Some(BodyLine::Notice(read_notice(notice)?)),
        BodyLine::End => Some(BodyLine::End),
    }
}

fn read_sample(form: &SampleForm<'_>) -> Option<SampleValues>
    ensures { ReadsLine (sample_shown form.now) (option_map sample_values result) }
{
    let cpu = decimal(form.cpu, 0, LAST_CPU)?;
    let pid = decimal(form.pid, 0, u32::MAX)?;
    let pc = address(form.pc)?;
    Some(SampleLine {
        cpu,
        pid,
        pc,
        event: form.event,
    })
}

fn read_notice<'a>(form: &NoticeForm<'a>) -> Option<NoticeValues<'a>>
    ensures { ReadsLine (notice_shown form.now) (option_map notice_values result) }
{
    match *form {
        NoticeLine::Scan(form) => Some(NoticeLine::Scan(read_mapping(&form)?)),
        NoticeLine::Load(form) => Some(NoticeLine::Load(read_mapping(&form)?)),
        NoticeLine::Unload { pid, base, length } => {
            let pid = decimal(pid, 0, u32::MAX)?;
            let (base, length) = range(base, length)?;
            Some(NoticeLine::Unload { pid, base, length })
        }
        NoticeLine::Exec(form) => Some(NoticeLine::Exec(read_mapping(&form)?)),
        NoticeLine::Exit { pid } => {
            let pid = decimal(pid, 0, u32::MAX)?;
            Some(NoticeLine::Exit { pid })
        }
        NoticeLine::Kernel {
            base,
            length,
            image,
        } => {
            let (base, length) = range(base, length)?;
            Some(NoticeLine::Kernel {
                base,
                length,
                image,
            })
        }
        NoticeLine::Drain => Some(NoticeLine::Drain),
        NoticeLine::Merge => Some(NoticeLine::Merge),
        NoticeLine::Epoch => Some(NoticeLine::Epoch),
    }
}

fn read_mapping<'a>(form: &MappingForm<'a>) -> Option<MappingValues<'a>>
    ensures { ReadsMapping form.now result }
{
    let pid = decimal(form.pid, 0, u32::MAX)?;
    let (base, length) = range(form.base, form.length)?;
    Some(MappingLine {
        pid,
        base,
        length,
        image: form.image,
    })
}

/// Whether each number field is canonical.
pub fn is_spelled(form: &BodyForm<'_>) -> bool
    ensures { result ≡ every is_spelled (tested (body_shown form.now)) }
{
    match form {
        BodyLine::Sample(form) => is_dec(form.cpu) && (is_dec(form.pid) && is_hex(form.pc)),
        BodyLine::Notice(form) => is_spelled_notice(form),
        BodyLine::End => true,
    }
}

fn is_spelled_notice(form: &NoticeForm<'_>) -> bool
    ensures { result ≡ every is_spelled (tested (notice_shown form.now)) }
{
    match form {
        NoticeLine::Scan(form) => is_spelled_mapping(form),
        NoticeLine::Load(form) => is_spelled_mapping(form),
        NoticeLine::Unload { pid, base, length } => is_dec(pid) && are_hex(base, length),
        NoticeLine::Exec(form) => is_spelled_mapping(form),
        NoticeLine::Exit { pid } => is_dec(pid),
        NoticeLine::Kernel { base, length, .. } => are_hex(base, length),
        NoticeLine::Drain => true,
        NoticeLine::Merge => true,
        NoticeLine::Epoch => true,
    }
}

fn is_spelled_mapping(form: &MappingForm<'_>) -> bool
    ensures { result ≡ every is_spelled (mapping_fields form.now) }
{
    is_dec(form.pid) && are_hex(form.base, form.length)
}

fn are_hex(base: &[u8], length: &[u8]) -> bool
    ensures { result ≡ is_spelled (Mapping base.now length.now) }
{
    is_hex(base) && is_hex(length)
}

/// Whether addresses and lengths are multiples of 4.
pub fn is_aligned(values: &BodyValues<'_>) -> bool
    ensures { result ≡ every is_aligned (tested (values_shown values.now)) }
{
    match values {
        BodyLine::Sample(sample) => sample.pc % 4 == 0,
        BodyLine::Notice(notice) => is_aligned_notice(notice),
        BodyLine::End => true,
    }
}

fn is_aligned_notice(values: &NoticeValues<'_>) -> bool
    ensures { result ≡ every is_aligned (tested (notice_values values.now)) }
{
    match values {
        NoticeLine::Scan(mapping) => are_aligned(mapping.base, mapping.length),
        NoticeLine::Load(mapping) => are_aligned(mapping.base, mapping.length),
        NoticeLine::Unload { base, length, .. } => are_aligned(*base, *length),
        NoticeLine::Exec(mapping) => are_aligned(mapping.base, mapping.length),
        NoticeLine::Exit { .. } => true,
        NoticeLine::Kernel { base, length, .. } => are_aligned(*base, *length),
        NoticeLine::Drain => true,
        NoticeLine::Merge => true,
        NoticeLine::Epoch => true,
    }
}

fn are_aligned(base: u64, length: u64) -> bool
    ensures { result ≡ is_aligned (Mapping base length) }
{
    base % 4 == 0 && length % 4 == 0
}

/// Whether an image that is named has a name.
pub fn is_titled(values: &BodyValues<'_>) -> bool
    ensures { result ≡ every is_titled (tested (values_shown values.now)) }
{
    match values {
        BodyLine::Sample(_) => true,
        BodyLine::Notice(notice) => is_titled_notice(notice),
        BodyLine::End => true,
    }
}

fn is_titled_notice(values: &NoticeValues<'_>) -> bool
    ensures { result ≡ every is_titled (tested (notice_values values.now)) }
{
    match values {
        NoticeLine::Scan(mapping) => is_name(mapping.image),
        NoticeLine::Load(mapping) => is_name(mapping.image),
        NoticeLine::Unload { .. } => true,
        NoticeLine::Exec(mapping) => is_name(mapping.image),
        NoticeLine::Exit { .. } => true,
        NoticeLine::Kernel { image, .. } => is_name(image),
        NoticeLine::Drain => true,
        NoticeLine::Merge => true,
        NoticeLine::Epoch => true,
    }
}
