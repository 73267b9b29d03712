//! Whether the numbers of a head are in their ranges and its rows in their order.
ghost use Rattle.std.specs.Prelude.{◌≡◌, ◌+◌, nat_le, length};
ghost use Rattle.std.specs.List.{list_all};
ghost use Rattle.database_state.specs.Rows.{is_known_row, is_unknown_row};
ghost use Rattle.database_state.specs.Heads.{is_in_range};
ghost use Rattle.database_state.specs.declared.limits.TheConstants.{MOST_ROWS};

use crate::heads::Head;
use database_state::{KnownRow, MOST_ROWS, UnknownRow, is_rising};

/// Whether a head's numbers are in their ranges, and its rows few enough and in their order.
pub fn is_in_range(head: &Head) -> bool
    ensures { result ≡ is_in_range head.now }
{
    let images = head.catalog.names().len();
    head.epoch <= head.generation
        && head.runs <= head.generation
        && are_few(head.known.len(), head.unknown.len(), head.generation)
        && are_known_rows(&head.known, head.epoch, images, head.generation)
        && is_rising(&head.known)
        && are_unknown_rows(&head.unknown, head.epoch, head.generation)
        && is_rising(&head.unknown)
}

fn are_few(known: usize, unknown: usize, generation: u32) -> bool
    ensures { result ≡ nat_le (known + unknown + generation) MOST_ROWS }
{
    known as u128 + unknown as u128 + u128::from(generation) <= MOST_ROWS
}

fn are_known_rows(rows: &[KnownRow], epoch: u32, images: usize, generation: u32) -> bool
    ensures { result ≡ list_all (is_known_row epoch images generation) rows.now }
{
    rows.iter().all(|row| {
        row.epoch <= epoch
            && (row.image as usize) < images
            && row.event <= 3
            && 1 <= row.g
            && row.g <= generation
    })
}

fn are_unknown_rows(rows: &[UnknownRow], epoch: u32, generation: u32) -> bool
    ensures { result ≡ list_all (is_unknown_row epoch generation) rows.now }
{
    rows.iter().all(|row| {
        row.epoch <= epoch && row.event <= 3 && 1 <= row.g && row.g <= generation
    })
}
