//! The rows of a head after a commit: those held and those of the changed profiles, merged once.
ghost use Rattle.std.specs.Prelude.{◌≡◌, ◌≤◌, ◌++◌, ◌∷◌, List, true, drop, length, map, IfOk};
ghost use Rattle.database_state.specs.Rows.{is_rising, known_before, unknown_before};
ghost use Rattle.database_state.specs.Updates.{known_row_of, unknown_row_of, known_after, unknown_after};
ghost use Rattle.database_state.specs.Orders.{IsOrder};
ghost use Rattle.epoch_store.specs.Orders.{with_rows};

use database_state::{KnownFile, KnownRow, Placed, UnknownFile, UnknownRow};
use std::alloc::{AllocError, Global};

/// The rows, with those of the changed profiles, which are written at generation `g`.
pub fn known_after(
    alloc: Global,
    rows: &[KnownRow],
    updates: &[KnownFile],
    g: u32,
) -> Result<Vec<KnownRow>, AllocError>
    requires rising { is_rising known_before rows.now ≡ true }
    requires each { is_rising known_before (map (known_row_of g) updates.now) ≡ true }
    ensures { IfOk result (λ after. after.items ≡ known_after g rows.now updates.now) }
{
    let mut changed = Vec::new(alloc);
    for update in updates {
        changed.push(update.row(g))?;
    }
    let after = merged(alloc, rows, &changed)?;
    Ok(after)
}

/// The unknown rows, with those of the changed unknown profiles, which are written at generation `g`.
pub fn unknown_after(
    alloc: Global,
    rows: &[UnknownRow],
    updates: &[UnknownFile],
    g: u32,
) -> Result<Vec<UnknownRow>, AllocError>
    requires rising { is_rising unknown_before rows.now ≡ true }
    requires each { is_rising unknown_before (map (unknown_row_of g) updates.now) ≡ true }
    ensures { IfOk result (λ after. after.items ≡ unknown_after g rows.now updates.now) }
{
    let mut changed = Vec::new(alloc);
    for update in updates {
        changed.push(update.row(g))?;
    }
    let after = merged(alloc, rows, &changed)?;
    Ok(after)
}

/// The rows with each of the changed ones in the place of the row of the same profile, or else where it stands in
/// their order.
fn merged<R: Placed>(alloc: Global, rows: &[R], changed: &[R]) -> Result<Vec<R>, AllocError>
    requires order { IsOrder R.before R.same }
    requires rising { is_rising R.before rows.now ≡ true }
    requires each { is_rising R.before changed.now ≡ true }
    ensures { IfOk result (λ after. after.items ≡ with_rows R.before R.same rows.now changed.now) }
{
    let mut after = Vec::new(alloc);
    let mut at = 0;
    for row in changed {
        at = put_row(&mut after, rows, at, *row)?;
    }
    put_rest(&mut after, rows, at)?;
    Ok(after)
}

/// Puts the rows from an index that come before this one, and this one; gives the index behind them and behind the
/// row of the same profile.
fn put_row<R: Placed>(
    after: &mut Vec<R>,
    rows: &[R],
    at: usize,
    row: R,
) -> Result<usize, AllocError>
    requires order { IsOrder R.before R.same }
    requires within { at ≤ length rows.now }
    ensures within { IfOk result (λ end. end ≤ length rows.now) }
    ensures rows { IfOk result (λ end. (more : List R) → is_rising R.before (row ∷ more) ≡ true →
        after.new.items ++ with_rows R.before R.same (drop end rows.now) more
        ≡ after.old.items ++ with_rows R.before R.same (drop at rows.now) (row ∷ more)) }
{
    let mut at = at;
    while at < rows.len() {
        let held = rows[at];
        if !held.is_before(row) {
            after.push(row)?;
            if row.is_same(held) {
                return Ok(at + 1);
            }
            return Ok(at);
        }
        after.push(held)?;
        at += 1;
    }
    after.push(row)?;
    Ok(at)
}

/// Puts the rows from an index.
fn put_rest<R: Placed>(after: &mut Vec<R>, rows: &[R], at: usize) -> Result<(), AllocError>
    requires { at ≤ length rows.now }
    ensures { IfOk result (λ _. after.new.items ≡ after.old.items ++ drop at rows.now) }
{
    for i in at..rows.len() {
        after.push(rows[i])?;
    }
    Ok(())
}
