//! The index of a catalog: where a name stands among the numbers, which are in the byte order of their names.
ghost use Rattle.std.specs.Prelude.{◌≡◌, ◌≤◌, length, find};
ghost use Rattle.std.specs.Str.{bytes_eq};
ghost use Rattle.image_catalog.specs.Images.{text_at, comes_before, FrontIsBefore, RestIsNotBefore, Rises};

use text_num::Name;

/// How many numbers have names before this one.
pub fn count_before(names: &[Name], order: &[u32], name: &[u8]) -> usize
    requires rising { Rises names.now order.now }
    ensures within { result ≤ length order.now }
    ensures before { FrontIsBefore names.now order.now result name.now }
    ensures behind { RestIsNotBefore names.now order.now result name.now }
{
    order.partition_point(|number| comes_before(names, *number, name))
}

/// The number of a name, which stands behind as many others.
pub fn number_at(names: &[Name], order: &[u32], at: usize, name: &[u8]) -> Option<u32>
    requires rising { Rises names.now order.now }
    requires within { at ≤ length order.now }
    requires before { FrontIsBefore names.now order.now at name.now }
    requires behind { RestIsNotBefore names.now order.now at name.now }
    ensures { result ≡ find (λ k. bytes_eq (text_at names.now k) name.now) order.now }
{
    if at >= order.len() {
        return None;
    }
    let number = order[at];
    if text_at(names, number) == name {
        return Some(number);
    }
    None
}

/// Whether the name of a number comes before this one.
fn comes_before(names: &[Name], number: u32, name: &[u8]) -> bool
    ensures { result ≡ comes_before names.now number name.now }
{
    text_at(names, number).cmp(name).is_lt()
}

/// The name of a number.
fn text_at(names: &[Name], number: u32) -> &[u8]
    ensures { result.now ≡ text_at names.now number }
{
    match names.get(number as usize) {
        Some(name) => name.bytes(),
        None => &[],
    }
}
