//! Writes a trace as text: `write_trace` makes the text of each part and puts it into the sink at once.

ghost use Rattle.std.specs.Prelude.{◌≡◌, ◌++◌, ◌∷◌, [], true, length, map, OnOk, IfOk};
ghost use Rattle.std.specs.Fmt.{decimal};
ghost use Rattle.std.specs.List.{list_all};
ghost use Rattle.text_num.specs.Lines.{text_of_lines};
ghost use Rattle.trace_model.specs.Said.{Sampled, Unloaded, KernelMapped, Polled, line_text};
ghost use Rattle.trace_model.specs.Recording.{Reads, line_said, record_said, step_said, trace_text};
ghost use Rattle.trace_model.specs.Traces.{recording_of};
ghost use Rattle.trace_text.specs.State.{is_among, line_is_among};
ghost use Rattle.trace_text.specs.Writing.{PutsText, ended, header_text, key_end};
ghost use Rattle.trace_text.specs.Writing.{mapping_text, range_text, sizes_text};

use crate::refusals::PutError;
use outside_io::{Sink, put_all};
use sample_key::Key;
use std::alloc::{AllocError, Global};
use text_num::{Name, put_dec, put_hex};
use trace_laws::trace_text_reads;
use trace_model::{Line, Record, Step, Trace};

/// Writes the text of a trace, with the long form of the header; it reads as this very trace. After a fault a front of
/// the text was written, and where no memory is found nothing.
pub fn write_trace<W: Sink>(alloc: Global, trace: &Trace, sink: &mut W) -> Result<(), PutError>
    ensures reads { Reads (trace_text (recording_of trace.now)) (recording_of trace.now) }
    ensures written { PutsText (trace_text (recording_of trace.now)) (W.written sink.old)
        (W.written sink.new) (W.faults sink.old) (W.faults sink.new) result }
{
    trace_text_reads(trace);
    let text = text_of(alloc, trace)?;
    put_all(sink, &text)?;
    Ok(())
}

/// The text of a trace, with the long form of the header.
pub fn text_of(alloc: Global, trace: &Trace) -> Result<Vec<u8>, AllocError>
    ensures { IfOk result (λ text. text.items ≡ trace_text (recording_of trace.now)) }
{
    let mut out = Vec::new(alloc);
    put_header(&mut out, trace.cpus, trace.buckets, trace.buffer)?;
    put_lines(&mut out, &trace.images, &trace.lines)?;
    out.extend_from_slice(b"end\n")?;
    put_steps(&mut out, &trace.schedule)?;
    Ok(out)
}

fn put_header(out: &mut Vec<u8>, cpus: u32, buckets: u32, buffer: u32) -> Result<(), AllocError>
    ensures { OnOk result (out.new.items ≡ out.old.items ++ header_text cpus buckets buffer) }
{
    out.extend_from_slice(b"dcpi-trace 1 cpus ")?;
    put_dec(out, u128::from(cpus))?;
    put_sizes(out, buckets, buffer)
}

// The sizes behind the number of processors, and the end of the line.
fn put_sizes(out: &mut Vec<u8>, buckets: u32, buffer: u32) -> Result<(), AllocError>
    ensures { OnOk result (out.new.items ≡ out.old.items ++ sizes_text buckets buffer) }
{
    out.extend_from_slice(b" buckets ")?;
    put_dec(out, u128::from(buckets))?;
    out.extend_from_slice(b" buffer ")?;
    put_dec(out, u128::from(buffer))?;
    out.push(b'\n')?;
    Ok(())
}

fn put_lines(out: &mut Vec<u8>, images: &[Name], lines: &[Line]) -> Result<(), AllocError>
    requires { list_all (line_is_among (length images.now)) lines.now ≡ true }
    ensures { OnOk result (out.new.items ≡ out.old.items ++
        text_of_lines (map line_text (map (line_said images.now) lines.now))) }
{
    for line in lines {
        put_line(out, images, line)?;
    }
    Ok(())
}

fn put_steps(out: &mut Vec<u8>, steps: &[Step]) -> Result<(), AllocError>
    ensures { OnOk result (out.new.items ≡ out.old.items ++
        text_of_lines (map line_text (map step_said steps.now))) }
{
    for step in steps {
        put_step(out, step)?;
    }
    Ok(())
}

fn put_line(out: &mut Vec<u8>, images: &[Name], line: &Line) -> Result<(), AllocError>
    requires { line_is_among (length images.now) line.now ≡ true }
    ensures { OnOk result (out.new.items ≡ out.old.items ++ ended (line_said images.now line.now)) }
{
    match line {
        Line::Sample { cpu, key } => put_sample(out, *cpu, key),
        Line::Rec(notice) => put_record(out, images, notice),
    }
}

fn put_sample(out: &mut Vec<u8>, cpu: u32, key: &Key) -> Result<(), AllocError>
    ensures { OnOk result (out.new.items ≡ out.old.items ++
        ended (Sampled cpu key.now.pid key.now.pc key.now.event)) }
{
    out.extend_from_slice(b"s ")?;
    put_dec(out, u128::from(cpu))?;
    out.push(b' ')?;
    put_dec(out, u128::from(key.pid))?;
    put_key_end(out, key)
}

// The program counter and the event of a sample, and the end of its line.
fn put_key_end(out: &mut Vec<u8>, key: &Key) -> Result<(), AllocError>
    ensures { OnOk result (out.new.items ≡ out.old.items ++ key_end key.now) }
{
    out.push(b' ')?;
    put_hex(out, key.pc)?;
    out.push(b' ')?;
    out.extend_from_slice(key.event.name())?;
    out.push(b'\n')?;
    Ok(())
}

fn put_record(out: &mut Vec<u8>, images: &[Name], notice: &Record) -> Result<(), AllocError>
    requires { is_among (length images.now) notice.now ≡ true }
    ensures { OnOk result (out.new.items ≡ out.old.items ++
        ended (record_said images.now notice.now)) }
{
    match *notice {
        Record::Scan {
            pid,
            base,
            length,
            image,
        } => put_mapping(out, b"scan", pid, base, length, &images[image as usize]),
        Record::Load {
            pid,
            base,
            length,
            image,
        } => put_mapping(out, b"load", pid, base, length, &images[image as usize]),
        Record::Unload { pid, base, length } => put_unload(out, pid, base, length),
        Record::Exec {
            pid,
            base,
            length,
            image,
        } => put_mapping(out, b"exec", pid, base, length, &images[image as usize]),
        Record::Exit { pid } => put_numbered(out, b"exit ", pid),
        Record::Kernel {
            base,
            length,
            image,
        } => put_kernel(out, base, length, &images[image as usize]),
        Record::Drain => out.extend_from_slice(b"drain\n"),
        Record::Merge => out.extend_from_slice(b"merge\n"),
        Record::Epoch => out.extend_from_slice(b"epoch\n"),
    }
}

// A mapping of a process, under its word.
fn put_mapping(
    out: &mut Vec<u8>,
    word: &[u8],
    pid: u32,
    base: u64,
    length: u64,
    image: &Name,
) -> Result<(), AllocError>
    ensures { OnOk result (out.new.items ≡ out.old.items ++
        mapping_text word.now pid base length image.now) }
{
    out.extend_from_slice(word)?;
    out.push(b' ')?;
    put_dec(out, u128::from(pid))?;
    put_range(out, base, length)?;
    put_image(out, image)
}

fn put_unload(out: &mut Vec<u8>, pid: u32, base: u64, length: u64) -> Result<(), AllocError>
    ensures { OnOk result (out.new.items ≡ out.old.items ++ ended (Unloaded pid base length)) }
{
    out.extend_from_slice(b"unload ")?;
    put_dec(out, u128::from(pid))?;
    put_range(out, base, length)?;
    out.push(b'\n')?;
    Ok(())
}

fn put_kernel(out: &mut Vec<u8>, base: u64, length: u64, image: &Name) -> Result<(), AllocError>
    ensures { OnOk result (out.new.items ≡ out.old.items ++
        ended (KernelMapped base length image.now)) }
{
    out.extend_from_slice(b"kernel")?;
    put_range(out, base, length)?;
    put_image(out, image)
}

// The base and the length of a mapping.
fn put_range(out: &mut Vec<u8>, base: u64, length: u64) -> Result<(), AllocError>
    ensures { OnOk result (out.new.items ≡ out.old.items ++ range_text base length) }
{
    out.push(b' ')?;
    put_hex(out, base)?;
    out.push(b' ')?;
    put_hex(out, length)
}

// The image of a mapping, and the end of its line.
fn put_image(out: &mut Vec<u8>, image: &Name) -> Result<(), AllocError>
    ensures { OnOk result (out.new.items ≡ out.old.items ++ (32 ∷ (image.now ++ 10 ∷ []))) }
{
    out.push(b' ')?;
    out.extend_from_slice(image.bytes())?;
    out.push(b'\n')?;
    Ok(())
}

fn put_step(out: &mut Vec<u8>, step: &Step) -> Result<(), AllocError>
    ensures { OnOk result (out.new.items ≡ out.old.items ++ ended (step_said step.now)) }
{
    match *step {
        Step::Lane { cpu } => put_numbered(out, b"l ", cpu),
        Step::Poll { cpu, cell } => put_poll(out, cpu, cell),
        Step::Advance => out.extend_from_slice(b"a\n"),
    }
}

// A line of a word, with the space behind it, and a number.
fn put_numbered(out: &mut Vec<u8>, word: &[u8], n: u32) -> Result<(), AllocError>
    ensures { OnOk result (out.new.items ≡ out.old.items ++ (word.now ++ (decimal n ++ 10 ∷ []))) }
{
    out.extend_from_slice(word)?;
    put_dec(out, u128::from(n))?;
    out.push(b'\n')?;
    Ok(())
}

fn put_poll(out: &mut Vec<u8>, cpu: u32, cell: u8) -> Result<(), AllocError>
    ensures { OnOk result (out.new.items ≡ out.old.items ++ ended (Polled cpu cell)) }
{
    out.extend_from_slice(b"d ")?;
    put_dec(out, u128::from(cpu))?;
    out.push(b' ')?;
    put_dec(out, u128::from(cell))?;
    out.push(b'\n')?;
    Ok(())
}
