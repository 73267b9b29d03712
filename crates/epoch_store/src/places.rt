//! Where places stand among rows in their order.
ghost use Rattle.std.specs.Prelude.{◌≡◌, ◌≤◌, true, false, length, find};
ghost use Rattle.std.specs.List.{AllWithin};
ghost use Rattle.database_state.specs.Rows.{is_rising};
ghost use Rattle.database_state.specs.Orders.{IsOrder};

use database_state::Placed;

/// How many rows come before a place.
pub fn count_before<R: Placed>(rows: &[R], place: R) -> usize
    requires order { IsOrder R.before R.same }
    requires rising { is_rising R.before rows.now ≡ true }
    ensures within { result ≤ length rows.now }
    ensures before { AllWithin (λ row. R.before row place ≡ true) rows.now 0 result }
    ensures behind { AllWithin (λ row. R.before row place ≡ false)
        rows.now result (length rows.now) }
{
    rows.partition_point(|row| row.is_before(place))
}

/// The row of a place.
pub fn find_row<R: Placed>(rows: &[R], place: R) -> Option<R>
    requires order { IsOrder R.before R.same }
    requires rising { is_rising R.before rows.now ≡ true }
    ensures { result ≡ find (R.same place) rows.now }
{
    let at = count_before(rows, place);
    if at >= rows.len() {
        return None;
    }
    let held = rows[at];
    if place.is_same(held) {
        return Some(held);
    }
    None
}
