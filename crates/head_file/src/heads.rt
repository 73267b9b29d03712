//! A head as a value: what contracts see of it is the head of `database_state`.

use database_state::{KnownRow, UnknownRow};
use image_catalog::Catalog;
use std::marker::Model;

/// What the head of a generation says. A value of this type need not be one: `read_head` gives heads alone.
#[derive(Drop)]
pub struct Head {
    /// Its generation: 1 at the first commit.
    pub generation: u32,
    /// The last epoch, from 0.
    pub epoch: u32,
    /// The number of runs, the last of which may still go on.
    pub runs: u32,
    /// The images, by their numbers.
    pub catalog: Catalog,
    /// The rows of the profiles, in the order of epoch, image and event.
    pub known: Vec<KnownRow>,
    /// The rows of the unknown profiles, in the order of epoch and event.
    pub unknown: Vec<UnknownRow>,
}

impl Model for Head {
    ghost use Rattle.database_state.specs.Heads as heads;

    ghost Value = { heads.Head };

    ghost view = { λ h. record {
      generation = h.generation;
      epoch = h.epoch;
      runs = h.runs;
      names = h.catalog;
      known = h.known.items;
      unknown = h.unknown.items;
    } };
}
