//! What a commit adds to a database.

use crate::rows::{KnownRow, UnknownRow};
use database_model::RunSegment;
use profile_file::Profile;
use sample_key::Event;
use std::marker::Model;
use store_io::FileRef;
use text_num::Name;

/// A changed profile, whole: what is written into a file of the next generation.
pub trait Changed {
    ghost use Rattle.std.specs.Prelude.{◌≡◌, ℕ, List};
    ghost use Rattle.database_model.specs.declared.profiles.ProfileRow.{ProfileRow as Counted};
    ghost use Rattle.store_io.specs.declared.file_refs.FileRef.{FileRef as Named};

    ghost file: { ℕ → Self → Named };

    ghost rows: { Self → List Counted };

    /// Its file at generation `g`.
    fn file(&self, g: u32) -> FileRef
        ensures { result ≡ file g self.now };

    /// The profile.
    fn profile(&self) -> &Profile
        ensures { result.now ≡ rows self.now };
}

/// A changed profile of an image, whole.
#[derive(Debug, Drop)]
pub struct KnownFile {
    /// The epoch, at most the last one after the change.
    pub epoch: u32,
    /// The image's number.
    pub image: u32,
    /// The event.
    pub event: Event,
    /// The counts by offset, those of before among them.
    pub profile: Profile,
}

impl Model for KnownFile {
    ghost use Rattle.sample_key.specs.Events.{code_of};
    ghost use Rattle.database_state.specs.Updates.{KnownUpdate};

    ghost Value = { KnownUpdate };

    ghost view = { λ k. record {
      epoch = k.epoch;
      image = k.image;
      event = code_of k.event;
      rows = k.profile;
    } };
}

impl KnownFile {
    ghost use Rattle.std.specs.Prelude.{◌≡◌};
    ghost use Rattle.database_state.specs.Updates.{known_row_of};

    /// Its row in the head of generation `g`.
    pub fn row(&self, g: u32) -> KnownRow
        ensures { result ≡ known_row_of g self.now }
    {
        KnownRow {
            epoch: self.epoch,
            image: self.image,
            event: self.event.code(),
            g,
        }
    }
}

impl Changed for KnownFile {
    ghost use Rattle.database_state.specs.Updates.{known_ref_of};

    ghost file = { known_ref_of };

    ghost rows = { λ k. k.rows };

    fn file(&self, g: u32) -> FileRef {
        FileRef::Known {
            epoch: self.epoch,
            image: self.image,
            event: self.event.code(),
            g,
        }
    }

    fn profile(&self) -> &Profile {
        &self.profile
    }
}

/// A changed profile of unknown samples, whole.
#[derive(Debug, Drop)]
pub struct UnknownFile {
    /// The epoch, at most the last one after the change.
    pub epoch: u32,
    /// The event.
    pub event: Event,
    /// The counts by program counter, those of before among them.
    pub profile: Profile,
}

impl Model for UnknownFile {
    ghost use Rattle.sample_key.specs.Events.{code_of};
    ghost use Rattle.database_state.specs.Updates.{UnknownUpdate};

    ghost Value = { UnknownUpdate };

    ghost view = { λ k. record { epoch = k.epoch; event = code_of k.event; rows = k.profile } };
}

impl UnknownFile {
    ghost use Rattle.std.specs.Prelude.{◌≡◌};
    ghost use Rattle.database_state.specs.Updates.{unknown_row_of};

    /// Its row in the head of generation `g`.
    pub fn row(&self, g: u32) -> UnknownRow
        ensures { result ≡ unknown_row_of g self.now }
    {
        UnknownRow {
            epoch: self.epoch,
            event: self.event.code(),
            g,
        }
    }
}

impl Changed for UnknownFile {
    ghost use Rattle.database_state.specs.Updates.{unknown_ref_of};

    ghost file = { unknown_ref_of };

    ghost rows = { λ k. k.rows };

    fn file(&self, g: u32) -> FileRef {
        FileRef::Unknown {
            epoch: self.epoch,
            event: self.event.code(),
            g,
        }
    }

    fn profile(&self) -> &Profile {
        &self.profile
    }
}

/// What a commit adds.
#[derive(Drop)]
pub struct Change {
    /// The last epoch afterwards: the last one of before or the next.
    pub epoch: u32,
    /// The new images, in the order of their numbers.
    pub names: Vec<Name>,
    /// The changed profiles, by epoch, image number and event code.
    pub known: Vec<KnownFile>,
    /// The changed unknown profiles, by epoch and event code.
    pub unknown: Vec<UnknownFile>,
    /// The part of the run, of the last run of before or the next.
    pub segment: RunSegment,
}

impl Model for Change {
    ghost use Rattle.database_state.specs.Updates.{Update};

    ghost Value = { Update };

    ghost view = { λ c. record {
      epoch = c.epoch;
      names = c.names.items;
      known = c.known.items;
      unknown = c.unknown.items;
      segment = c.segment;
    } };
}
