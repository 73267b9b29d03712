//! Writing the losses of a segment, in the last part alone.

ghost use Rattle.std.specs.Prelude.{◌≡◌, [], map, length, OnOk, All};
ghost use Rattle.var_bytes.specs.Forms.{Appends, repeat};
ghost use Rattle.database_model.specs.Ranges.{AreLosses, EndsWith};
ghost use Rattle.database_model.specs.SegmentForm.{next_loss, processor, processors};

use sample_key::Loss;
use std::alloc::AllocError;
use var_bytes::put_numbers;

// the losses of all processors, in the last part alone
pub(crate) fn put_processors(
    out: &mut Vec<u8>,
    last: bool,
    lists: &[Vec<Loss>],
) -> Result<(), AllocError>
    requires { EndsWith last (map (λ v. v.items) lists.now) }
    ensures { OnOk result (Appends (processors last)
        out.old.items out.new.items (map (λ v. v.items) lists.now)) }
{
    if !last {
        return Ok(());
    }
    put_numbers(out, &[lists.len() as u64])?;
    put_lists(out, lists)?;
    Ok(())
}

fn put_lists(out: &mut Vec<u8>, lists: &[Vec<Loss>]) -> Result<(), AllocError>
    requires { All AreLosses (map (λ v. v.items) lists.now) }
    ensures { OnOk result (Appends (repeat (λ before. processor) (length lists.now) [])
        out.old.items out.new.items (map (λ v. v.items) lists.now)) }
{
    for losses in lists {
        put_processor(out, losses)?;
    }
    Ok(())
}

fn put_processor(out: &mut Vec<u8>, losses: &[Loss]) -> Result<(), AllocError>
    requires { AreLosses losses.now }
    ensures { OnOk result (Appends processor out.old.items out.new.items losses.now) }
{
    put_numbers(out, &[losses.len() as u64])?;
    put_losses(out, losses)?;
    Ok(())
}

fn put_losses(out: &mut Vec<u8>, losses: &[Loss]) -> Result<(), AllocError>
    requires { AreLosses losses.now }
    ensures { OnOk result (Appends (repeat next_loss (length losses.now) [])
        out.old.items out.new.items losses.now) }
{
    for loss in losses {
        let code = u64::from(loss.event.code());
        put_numbers(out, &[loss.index, code, loss.word0, loss.word1])?;
    }
    Ok(())
}
