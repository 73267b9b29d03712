//! Reading the losses of a segment, one list for each processor, in the last part alone.

ghost use Rattle.std.specs.Prelude.{◌≡◌, ◌≤◌, ◌+◌, List, [], map, length, Ok, Err, IfOk, MatchResult};
ghost use Rattle.var_bytes.specs.Forms.{repeat};
ghost use Rattle.var_bytes.specs.Reading.{take_form};
ghost use Rattle.database_model.specs.SegmentForm.{event_at, loss_form, next_loss, processor, processors};
ghost use Rattle.var_bytes.specs.Answers.{Gives};

use database_model::MOST_PROCESSORS;
use sample_key::{Event, Loss, MOST_SAMPLES};
use std::alloc::Global;
use var_bytes::{BadField, FormError as SegmentError, field};

// the losses of all processors, in the last part alone
#[tactic(auto, unfolding(database_model::specs::SegmentForm::processors))]
pub(crate) fn processors_of(
    alloc: Global,
    bytes: &[u8],
    at: usize,
    last: bool,
) -> Result<(Vec<Vec<Loss>>, usize), SegmentError>
    requires { at ≤ length bytes.now }
    ensures within { IfOk result (λ x. x.1 ≤ length bytes.now) }
    ensures value { Gives (λ x. (map (λ v. v.items) x.0.items, x.1)) result
        (take_form (processors last) bytes.now at) }
{
    if !last {
        return Ok((Vec::new(alloc), at));
    }
    let (count, at) = field(bytes, at, 1, MOST_PROCESSORS)?;
    lists_of(alloc, bytes, at, count)
}

fn lists_of(
    alloc: Global,
    bytes: &[u8],
    at: usize,
    count: u64,
) -> Result<(Vec<Vec<Loss>>, usize), SegmentError>
    requires { at ≤ length bytes.now }
    ensures within { IfOk result (λ x. x.1 ≤ length bytes.now) }
    ensures value { Gives (λ x. (map (λ v. v.items) x.0.items, x.1)) result
        (take_form (repeat (λ before. processor) count []) bytes.now at) }
{
    let mut lists = Vec::new(alloc);
    let mut at = at;
    for _ in 0..count {
        let (losses, after) = processor_of(alloc, bytes, at)?;
        lists.push(losses)?;
        at = after;
    }
    Ok((lists, at))
}

#[tactic(auto, unfolding(database_model::specs::SegmentForm::processor))]
fn processor_of(alloc: Global, bytes: &[u8], at: usize) -> Result<(Vec<Loss>, usize), SegmentError>
    requires { at ≤ length bytes.now }
    ensures within { IfOk result (λ x. x.1 ≤ length bytes.now) }
    ensures value { Gives (λ x. (x.0.items, x.1)) result (take_form processor bytes.now at) }
{
    let (count, at) = field(bytes, at, 0, MOST_SAMPLES)?;
    losses_of(alloc, bytes, at, count)
}

fn losses_of(
    alloc: Global,
    bytes: &[u8],
    at: usize,
    count: u64,
) -> Result<(Vec<Loss>, usize), SegmentError>
    requires { at ≤ length bytes.now }
    ensures within { IfOk result (λ x. x.1 ≤ length bytes.now) }
    ensures value { Gives (λ x. (x.0.items, x.1)) result
        (take_form (repeat next_loss count []) bytes.now at) }
{
    let mut losses = Vec::new(alloc);
    let mut at = at;
    let mut least: u64 = 0;
    for _ in 0..count {
        let (loss, after) = loss_of(bytes, at, least)?;
        losses.push(loss)?;
        least = loss.index + 1;
        at = after;
    }
    Ok((losses, at))
}

#[tactic(auto, unfolding(database_model::specs::SegmentForm::loss_form))]
fn loss_of(bytes: &[u8], at: usize, least: u64) -> Result<(Loss, usize), BadField>
    requires { at ≤ length bytes.now }
    ensures within { IfOk result (λ x. x.1 ≤ length bytes.now) }
    ensures small { IfOk result (λ x. x.0.index ≤ 1999999) }
    ensures value { MatchResult result
        (λ x. take_form (loss_form least) bytes.now at ≡ Ok (x.0, x.1))
        (λ e. take_form (loss_form least) bytes.now at ≡ Err e.at) }
{
    let (index, at) = field(bytes, at, least, MOST_SAMPLES - 1)?;
    let (code, at) = field(bytes, at, 0, 3)?;
    let (word0, at) = field(bytes, at, 0, u64::MAX)?;
    let (word1, at) = field(bytes, at, 0, u64::MAX)?;
    let loss = Loss {
        index,
        event: event_of(code),
        word0,
        word1,
    };
    Ok((loss, at))
}

// the event of a code up to 3
pub(crate) fn event_of(code: u64) -> Event
    requires { code ≤ 3 }
    ensures { result ≡ event_at code }
{
    Event::of_code(code as u8).unwrap_or(Event::Branchmp)
}
