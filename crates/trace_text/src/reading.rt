//! Reads a trace: its header, its body line by line, and its schedule line by line. Each part stops at the first line that
//! is refused, and says what was read before it.

ghost use Rattle.std.specs.Prelude.{◌≡◌, ◌+◌, ◌^◌, ◌<◌, [], length, OnOk, IfOk, IfSome, if◌then◌else◌};
ghost use Rattle.std.specs.Io.KnownBytes.{IsAtEnd};
ghost use Rattle.trace_model.specs.Recording.{Reads, Recording, said_in};
ghost use Rattle.trace_model.specs.Traces.{recording_of};
ghost use Rattle.trace_text.specs.Judging.{size_shown};
ghost use Rattle.trace_text.specs.State.{AreSteps, HasItsImages, IsSound, Passes, cut_for, frame_of, said_in_body, said_with_steps};
ghost use Rattle.trace_lines.specs.Outlines.{outlined};
ghost use Rattle.trace_text.specs.Phases.{ReadsBody, ReadsHeader, ReadsSchedule, StepsBody, StepsSchedule, TakesWhole, unread};
ghost use Rattle.trace_text.specs.Refusing.{Halts, HaltsWithin, IsFirstBadOf, TellsFaults};

use crate::body::{Body, Taken};
use crate::headers::{Sizes, sizes_of};
use crate::input::Input;
use crate::refusals::TraceRefusal;
use crate::schedule::take_step;
use line_reader::Ending;
use outside_io::Source;
use sample_key::MOST_SAMPLES;
use std::alloc::{AllocError, Global};
use trace_laws::MOST_TRACE_LINES;
use trace_lines::{CutTrace, Lines};
use trace_model::{MOST_LINE_BYTES, MOST_RECORDS, MOST_STEPS, Step, Trace, TraceWhy};

/// The most lines of a body: samples, records, and the end.
const MOST_BODY_LINES: u64 = MOST_SAMPLES + MOST_RECORDS as u64 + 1;

/// Reads a trace to its end, or to its first bad line. `Bad` comes exactly where the input is no trace; at `Ok` nothing
/// of the input is left unread. An input that never ends is refused, whatever its bytes are: the line that `Bad` names is at
/// most the one behind the last that a trace may have, and a line is read to 401 bytes at most.
pub fn read_trace<S: Source>(alloc: Global, source: &mut S) -> Result<Trace, TraceRefusal>
    ensures reads { IfOk result (λ trace.
        IfSome (S.left source.old) (λ bytes. Reads bytes (recording_of trace))) }
    ensures whole { OnOk result (IsAtEnd (S.left source.new)) }
    ensures bad { IsFirstBadOf (S.left source.old) result }
    ensures within { HaltsWithin (MOST_TRACE_LINES + 1) result }
    ensures faults { TellsFaults (S.faults source.old) (S.faults source.new) result }
{
    let Parts { body, schedule } = read_parts(alloc, source, false)?;
    Ok(body.into_trace(schedule))
}

/// Reads a trace as `read_trace` does, and cuts it as it is read: no line is kept.
pub fn read_cut<S: Source>(alloc: Global, source: &mut S) -> Result<CutTrace, TraceRefusal>
    ensures reads { IfOk result (λ trace.
        IfSome (S.left source.old) (λ bytes. Reads bytes (outlined trace.outline))) }
    ensures whole { OnOk result (IsAtEnd (S.left source.new)) }
    ensures bad { IsFirstBadOf (S.left source.old) result }
    ensures within { HaltsWithin (MOST_TRACE_LINES + 1) result }
    ensures faults { TellsFaults (S.faults source.old) (S.faults source.new) result }
{
    let Parts { body, schedule } = read_parts(alloc, source, true)?;
    Ok(body.into_cut(schedule))
}

// The parts of a trace that was read: its sizes and lines, and its schedule.
#[derive(Drop)]
pub(crate) struct Parts {
    pub(crate) body: Body,
    pub(crate) schedule: Vec<Step>,
}

// Reads the parts of a trace to its end, or to its first bad line. The lines are kept, or cut for its processors.
fn read_parts<S: Source>(alloc: Global, source: &mut S, cuts: bool) -> Result<Parts, TraceRefusal>
    ensures reads { IfOk result (λ parts. (trace : Recording) →
        said_in trace ≡ said_with_steps parts.body parts.schedule.items → HasItsImages trace →
        IfSome (S.left source.old) (λ bytes. Reads bytes trace)) }
    ensures steps { IfOk result (λ parts. AreSteps parts.body parts.schedule.items) }
    ensures kept { IfOk result (λ parts.
        parts.body.lines.cpus ≡ cut_for cuts parts.body.sizes.cpus) }
    ensures whole { OnOk result (IsAtEnd (S.left source.new)) }
    ensures bad { IsFirstBadOf (S.left source.old) result }
    ensures within { HaltsWithin (MOST_TRACE_LINES + 1) result }
    ensures faults { TellsFaults (S.faults source.old) (S.faults source.new) result }
{
    let mut input = Input::new(alloc)?;
    let sizes = read_header(&mut input, source)?;
    let lines = no_lines(alloc, cuts, sizes.cpus)?;
    let mut body = Body::new(alloc, sizes, lines);
    read_body(alloc, &mut input, source, &mut body)?;
    let schedule = read_schedule(alloc, &mut input, source, &body)?;
    Ok(Parts { body, schedule })
}

// No line yet, each to be kept, or to be cut for so many processors.
fn no_lines(alloc: Global, cuts: bool, cpus: u32) -> Result<Lines, AllocError>
    ensures { IfOk result (λ lines. lines ≡ record { items = []; cpus = cut_for cuts cpus }) }
{
    if cuts {
        Lines::cut(alloc, cpus)
    } else {
        Ok(Lines::whole(alloc))
    }
}

fn read_header<S: Source>(input: &mut Input, source: &mut S) -> Result<Sizes, TraceRefusal>
    requires { input.old.number ≡ 0 }
    ensures went { IfOk result (ReadsHeader (unread input.old (S.left source.old))
        (unread input.new (S.left source.new))) }
    ensures passes { IfOk result (λ sizes. Passes [] (size_shown sizes)) }
    ensures number { OnOk result (input.new.number ≡ 1) }
    ensures stops { Halts (unread input.old (S.left source.old)) [] 0 result }
    ensures within { HaltsWithin 1 result }
    ensures faults { TellsFaults (S.faults source.old) (S.faults source.new) result }
{
    let ending = input.next(source)?;
    match ending {
        Ending::Finished => match sizes_of(&input.line) {
            Ok(sizes) => Ok(sizes),
            Err(why) => Err(input.bad(why)),
        },
        Ending::Unfinished => Err(input.bad(TraceWhy::NoEnd)),
        Ending::TooLong => Err(input.bad(TraceWhy::NotHeader)),
    }
}

fn read_body<S: Source>(
    alloc: Global,
    input: &mut Input,
    source: &mut S,
    body: &mut Body,
) -> Result<(), TraceRefusal>
    requires number { input.old.number ≡ 1 }
    requires sound { IsSound body.old }
    ensures went { OnOk result (ReadsBody (unread input.old (S.left source.old))
        (unread input.new (S.left source.new)) body.old body.new input.new.number) }
    ensures sound { OnOk result (IsSound body.new) }
    ensures frame { OnOk result (frame_of body.new ≡ frame_of body.old) }
    ensures stops { Halts (unread input.old (S.left source.old)) (said_in_body body.old) 1 result }
    ensures within { HaltsWithin (1 + MOST_BODY_LINES) result }
    ensures faults { TellsFaults (S.faults source.old) (S.faults source.new) result }
{
    for _ in 0..MOST_BODY_LINES {
        let taken = step_body(alloc, input, source, body)?;
        match taken {
            Taken::Line => {}
            Taken::End => return Ok(()),
        }
    }
    unreachable!()
}

fn step_body<S: Source>(
    alloc: Global,
    input: &mut Input,
    source: &mut S,
    body: &mut Body,
) -> Result<Taken, TraceRefusal>
    requires number { input.old.number < 2 ^ 62 }
    requires sound { IsSound body.old }
    ensures taken { IfOk result (λ taken. StepsBody taken (unread input.old (S.left source.old))
        (unread input.new (S.left source.new)) body.old body.new) }
    ensures number { OnOk result (input.new.number ≡ input.old.number + 1) }
    ensures stops { Halts (unread input.old (S.left source.old))
        (said_in_body body.old) input.old.number result }
    ensures within { HaltsWithin (input.old.number + 1) result }
    ensures faults { TellsFaults (S.faults source.old) (S.faults source.new) result }
{
    if take_whole_sample(input, body)? {
        Ok(Taken::Line)
    } else {
        step_copied(alloc, input, source, body)
    }
}

// Takes the next line where it stands in the buffer and is a good sample's, and answers whether it did.
fn take_whole_sample(input: &mut Input, body: &mut Body) -> Result<bool, AllocError>
    requires number { input.old.number < 2 ^ 62 }
    requires sound { IsSound body.old }
    ensures { IfOk result (λ took. TakesWhole took input.old input.new body.old body.new) }
{
    let Some(line) = input.reader.whole_line(MOST_LINE_BYTES) else {
        return Ok(false);
    };
    let length = line.len();
    let took = body.take_sample(line)?;
    if took {
        input.reader.pass(length + 1);
        input.number += 1;
    }
    Ok(took)
}

// The same as `step_body`, with the line copied out of the buffer first.
fn step_copied<S: Source>(
    alloc: Global,
    input: &mut Input,
    source: &mut S,
    body: &mut Body,
) -> Result<Taken, TraceRefusal>
    requires number { input.old.number < 2 ^ 62 }
    requires sound { IsSound body.old }
    ensures taken { IfOk result (λ taken. StepsBody taken (unread input.old (S.left source.old))
        (unread input.new (S.left source.new)) body.old body.new) }
    ensures number { OnOk result (input.new.number ≡ input.old.number + 1) }
    ensures stops { Halts (unread input.old (S.left source.old))
        (said_in_body body.old) input.old.number result }
    ensures within { HaltsWithin (input.old.number + 1) result }
    ensures faults { TellsFaults (S.faults source.old) (S.faults source.new) result }
{
    let ending = input.next(source)?;
    match ending {
        Ending::Finished => match body.take_line(alloc, &input.line) {
            Ok(taken) => Ok(taken),
            Err(refusal) => Err(input.refused(refusal)),
        },
        Ending::Unfinished => Err(input.bad(TraceWhy::NoEnd)),
        Ending::TooLong => Err(input.bad(TraceWhy::BadWord)),
    }
}

fn read_schedule<S: Source>(
    alloc: Global,
    input: &mut Input,
    source: &mut S,
    body: &Body,
) -> Result<Vec<Step>, TraceRefusal>
    requires number { input.old.number < 2 ^ 61 }
    requires none { AreSteps body.now [] }
    ensures went { IfOk result (λ steps. ReadsSchedule (unread input.old (S.left source.old))
        (unread input.new (S.left source.new)) body.now steps.items) }
    ensures steps { IfOk result (λ steps. AreSteps body.now steps.items) }
    ensures end { OnOk result (IsAtEnd (unread input.new (S.left source.new))) }
    ensures stops { Halts (unread input.old (S.left source.old))
        (said_with_steps body.now []) input.old.number result }
    ensures within { HaltsWithin (input.old.number + 1 + MOST_STEPS) result }
    ensures faults { TellsFaults (S.faults source.old) (S.faults source.new) result }
{
    let mut steps = Vec::new(alloc);
    for _ in 0..MOST_STEPS + 1 {
        let more = step_schedule(input, source, body, &mut steps)?;
        match more {
            true => {}
            false => return Ok(steps),
        }
    }
    unreachable!()
}

fn step_schedule<S: Source>(
    input: &mut Input,
    source: &mut S,
    body: &Body,
    steps: &mut Vec<Step>,
) -> Result<bool, TraceRefusal>
    requires number { input.old.number < 2 ^ 62 }
    requires steps { AreSteps body.now steps.old.items }
    ensures more { IfOk result (λ more. StepsSchedule more (unread input.old (S.left source.old))
        (unread input.new (S.left source.new)) body.now steps.old.items steps.new.items) }
    ensures count { IfOk result (λ more.
        length steps.new.items ≡ length steps.old.items + (if more then 1 else 0)) }
    ensures number { OnOk result (input.new.number ≡ input.old.number + 1) }
    ensures stops { Halts (unread input.old (S.left source.old))
        (said_with_steps body.now steps.old.items) input.old.number result }
    ensures within { HaltsWithin (input.old.number + 1) result }
    ensures faults { TellsFaults (S.faults source.old) (S.faults source.new) result }
{
    let ending = input.next(source)?;
    match ending {
        Ending::Finished => match take_step(body, steps, &input.line) {
            Ok(()) => Ok(true),
            Err(refusal) => Err(input.refused(refusal)),
        },
        Ending::Unfinished => {
            if input.line.is_empty() {
                Ok(false)
            } else {
                Err(input.bad(TraceWhy::AfterEnd))
            }
        }
        Ending::TooLong => Err(input.bad(TraceWhy::AfterEnd)),
    }
}
