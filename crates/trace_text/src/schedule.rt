//! The schedule of a trace: `take_step` finds a line's form, judges it after what the lines before it said, and keeps the
//! step.

ghost use Rattle.std.specs.Prelude.{◌≡◌, ◌+◌, ◌&&◌, [], ◌∷◌, length, OnOk, IfErr, IfOk};
ghost use Rattle.std.specs.Option.{option_map};
ghost use Rattle.trace_model.specs.Grammar.{cut_at_spaces, step_of};
ghost use Rattle.trace_model.specs.Recording.{step_said};
ghost use Rattle.trace_model.specs.Said.{every, tested, is_spelled};
ghost use Rattle.trace_text.specs.Faults.{cpu_fault, number_fault, step_fault};
ghost use Rattle.trace_text.specs.Forms.{ReadsLine, step_shown};
ghost use Rattle.trace_text.specs.State.{AreSteps, Passes, said_with_steps};
ghost use Rattle.trace_text.specs.Stepping.{JudgesStep, RefusesStep, TakesStep};

use crate::body::Body;
use crate::fields::{decimal, why_not_read};
use crate::refusals::LineRefusal;
use sample_key::{LAST_CELL, LAST_CPU};
use text_num::{cut_field, is_dec};
use trace_model::{MOST_STEPS, Step, TraceWhy};

/// Takes the next line of the schedule behind a body.
pub fn take_step(body: &Body, steps: &mut Vec<Step>, line: &[u8]) -> Result<(), LineRefusal>
    requires { AreSteps body.now steps.old.items }
    ensures taken { OnOk result (TakesStep body.now steps.old.items line.now steps.new.items) }
    ensures more { OnOk result (length steps.new.items ≡ length steps.old.items + 1) }
    ensures refused { IfErr result (RefusesStep body.now steps.old.items line.now) }
{
    let Some(form) = step_form(line) else {
        return Err(LineRefusal::Bad {
            why: TraceWhy::AfterEnd,
        });
    };
    let step = judge(body, steps, &form)?;
    steps.push(step)?;
    Ok(())
}

// What a line whose word is in order says, or the first reason why it is refused.
fn judge(body: &Body, steps: &Vec<Step>, form: &StepForm<'_>) -> Result<Step, TraceWhy>
    requires { AreSteps body.now steps.now.items }
    ensures judged { JudgesStep body.now steps.now.items (step_shown form.now) result }
    ensures passes { IfOk result (λ step.
        Passes (said_with_steps body.now steps.now.items) (step_said step)) }
{
    let Some(step) = read_step(form) else {
        return Err(why_not_read(is_spelled(form)));
    };
    match against(body.sizes.cpus, steps.len(), &step) {
        Some(why) => Err(why),
        None => Ok(step),
    }
}

// The first reason that the lines before it give against a step.
fn against(cpus: u32, steps: usize, step: &Step) -> Option<TraceWhy>
    ensures { result ≡ step_fault cpus steps step.now }
{
    match step {
        Step::Lane { cpu } => against_cpu(cpus, steps, *cpu),
        Step::Poll { cpu, cell: _ } => against_cpu(cpus, steps, *cpu),
        Step::Advance => against_number(steps),
    }
}

fn against_cpu(cpus: u32, steps: usize, cpu: u32) -> Option<TraceWhy>
    ensures { result ≡ cpu_fault cpus steps cpu }
{
    if cpus <= cpu {
        Some(TraceWhy::NoSuchCpu)
    } else {
        against_number(steps)
    }
}

fn against_number(steps: usize) -> Option<TraceWhy>
    ensures { result ≡ number_fault steps }
{
    if MOST_STEPS as usize <= steps {
        Some(TraceWhy::TooManyRecords)
    } else {
        None
    }
}

/// A line of the schedule whose word is in order, with its number fields as they stand.
#[derive(Clone, Copy)]
pub enum StepForm<'a> {
    /// A turn of a processor's driver.
    Lane { cpu: &'a [u8] },
    /// A poll of a cell of a processor.
    Poll { cpu: &'a [u8], cell: &'a [u8] },
    /// An advance of the daemon.
    Advance,
}

/// The form of a line of the schedule; nothing where it has none.
pub fn step_form(line: &[u8]) -> Option<StepForm<'_>>
    ensures { option_map step_shown result ≡ step_of (cut_at_spaces line.now) }
{
    let (word, after_word) = cut_field(line, b' ');
    let Some(behind_word) = after_word else {
        return alone(word);
    };
    let (cpu, after_cpu) = cut_field(behind_word, b' ');
    let Some(behind_cpu) = after_cpu else {
        return with_one(word, cpu);
    };
    let (cell, after_cell) = cut_field(behind_cpu, b' ');
    match after_cell {
        None => with_two(word, cpu, cell),
        Some(_) => None,
    }
}

fn alone(word: &[u8]) -> Option<StepForm<'_>>
    ensures { option_map step_shown result ≡ step_of (word.now ∷ []) }
{
    if word == b"a".as_slice() {
        Some(StepForm::Advance)
    } else {
        None
    }
}

fn with_one<'a>(word: &[u8], cpu: &'a [u8]) -> Option<StepForm<'a>>
    ensures { option_map step_shown result ≡ step_of (word.now ∷ cpu.now ∷ []) }
{
    if word == b"l".as_slice() {
        Some(StepForm::Lane { cpu })
    } else {
        None
    }
}

fn with_two<'a>(word: &[u8], cpu: &'a [u8], cell: &'a [u8]) -> Option<StepForm<'a>>
    ensures { option_map step_shown result ≡ step_of (word.now ∷ cpu.now ∷ cell.now ∷ []) }
{
    if word == b"d".as_slice() {
        Some(StepForm::Poll { cpu, cell })
    } else {
        None
    }
}

/// Whether each number field is canonical.
pub fn is_spelled(form: &StepForm<'_>) -> bool
    ensures { result ≡ every is_spelled (tested (step_shown form.now)) }
{
    match form {
        StepForm::Lane { cpu } => is_dec(cpu),
        StepForm::Poll { cpu, cell } => is_dec(cpu) && is_dec(cell),
        StepForm::Advance => true,
    }
}

/// The step, where each number field is canonical and in its range.
pub fn read_step(form: &StepForm<'_>) -> Option<Step>
    ensures { ReadsLine (step_shown form.now) (option_map step_said result) }
{
    match *form {
        StepForm::Lane { cpu } => {
            let cpu = decimal(cpu, 0, LAST_CPU)?;
            Some(Step::Lane { cpu })
        }
        StepForm::Poll { cpu, cell } => {
            let cpu = decimal(cpu, 0, LAST_CPU)?;
            let cell = decimal(cell, 0, u32::from(LAST_CELL))?;
            Some(Step::Poll {
                cpu,
                cell: cell as u8,
            })
        }
        StepForm::Advance => Some(Step::Advance),
    }
}
