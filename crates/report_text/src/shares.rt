//! Percentages by exact arithmetic, whatever the size of the numbers.
ghost use Rattle.std.specs.Prelude.{◌≡◌, ◌<◌, ◌≤◌, ◌+◌, ◌*◌};
ghost use Rattle.report_text.specs.Texts.{share_of};

/// The hundredths of a percent that a part has of a total, rounded down.
pub(crate) fn share(part: u128, total: u128) -> u32
    requires part { part ≤ total }
    requires some { 0 < total }
    ensures { result ≡ share_of part total }
{
    let quotient = match part.checked_mul(10_000) {
        Some(product) => product / total,
        None => long_quotient(part, total),
    };
    quotient as u32
}

// The same digit by digit, where the product has no room.
fn long_quotient(part: u128, total: u128) -> u128
    requires part { part ≤ total }
    requires some { 0 < total }
    ensures { result ≡ share_of part total }
{
    let mut quotient = part / total;
    let mut rest = part % total;
    for _digit in 0..4u32 {
        let (next, left) = tenfold(rest, total);
        quotient = 10 * quotient + next;
        rest = left;
    }
    quotient
}

// How often a total is in ten times a part that is less than it, and what is left.
fn tenfold(part: u128, total: u128) -> (u128, u128)
    requires { part < total }
    ensures parts { result.0 * total + result.1 ≡ 10 * part }
    ensures left { result.1 < total }
    ensures few { result.0 ≤ 10 }
{
    let mut times: u128 = 0;
    let mut rest: u128 = 0;
    for _turn in 0..10u32 {
        let (more, left) = sum_within(rest, part, total);
        times += more;
        rest = left;
    }
    (times, rest)
}

// How often a total is in the sum of two parts that are less than it, and what is left.
fn sum_within(a: u128, b: u128, total: u128) -> (u128, u128)
    requires first { a < total }
    requires second { b < total }
    ensures parts { result.0 * total + result.1 ≡ a + b }
    ensures left { result.1 < total }
    ensures few { result.0 ≤ 1 }
{
    if a >= total - b {
        (1, a - (total - b))
    } else {
        (0, a + b)
    }
}
