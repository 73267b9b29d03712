//! An opened database: its head, and the fault of the commit that failed.
ghost use Rattle.std.specs.Prelude.{◌≡◌, true};
ghost use Rattle.database_state.specs.Heads.{is_in_range};

use database_state::{DbFault, KnownRow, UnknownRow};
use head_file::Head;
use image_catalog::Catalog;
use std::alloc::Global;

/// An opened database: its head, which is empty before the first commit, and the fault of the commit that failed, after
/// which this value commits no more. The numbers of the head are in their ranges.
#[derive(Drop)]
pub struct Database {
    pub(crate) head: Head,
    pub(crate) failed: Option<DbFault>,
    ghost range: { is_in_range head ≡ true },
}

impl Database {
    ghost use Rattle.std.specs.Prelude.{None};
    ghost use Rattle.std.specs.List.{list_all};
    ghost use Rattle.database_state.specs.Rows.{is_rising, known_before, unknown_before};
    ghost use Rattle.database_state.specs.Heads.{empty_head, IsHead};
    ghost use Rattle.epoch_store.specs.Databases.{head_of, failed_of, is_row_of, is_unknown_row_of};

    /// The database before the first commit.
    pub(crate) fn empty(alloc: Global) -> Database
        ensures head { head_of result ≡ empty_head }
        ensures failed { failed_of result ≡ None }
    {
        Database {
            head: Head {
                generation: 0,
                epoch: 0,
                runs: 0,
                catalog: Catalog::new(alloc),
                known: Vec::new(alloc),
                unknown: Vec::new(alloc),
            },
            failed: None,
        }
    }

    /// The database of a head.
    pub(crate) fn with_head(head: Head) -> Database
        requires { IsHead head }
        ensures head { head_of result ≡ head }
        ensures failed { failed_of result ≡ None }
    {
        Database { head, failed: None }
    }

    /// How many commits there were.
    pub fn generation(&self) -> u32
        ensures { result ≡ (head_of self.now).generation }
    {
        self.head.generation
    }

    /// The last epoch.
    pub fn last_epoch(&self) -> u32
        ensures { result ≡ (head_of self.now).epoch }
    {
        self.head.epoch
    }

    /// The number of runs.
    pub fn runs(&self) -> u32
        ensures { result ≡ (head_of self.now).runs }
    {
        self.head.runs
    }

    /// The images, by their numbers.
    pub fn catalog(&self) -> &Catalog
        ensures { result.now ≡ (head_of self.now).names }
    {
        &self.head.catalog
    }

    /// The rows of the profiles, by epoch, image number and event code: each of an epoch up to the last one, of an image
    /// that there is, of an event code up to 3, and of a generation from 1 to the present one.
    pub fn known_rows(&self) -> &[KnownRow]
        ensures list { result.now ≡ (head_of self.now).known }
        ensures rising { is_rising known_before result.now ≡ true }
        ensures ranges { list_all (is_row_of (head_of self.now)) result.now ≡ true }
    {
        &self.head.known
    }

    /// The rows of the unknown profiles, by epoch and event code, in the same ranges.
    pub fn unknown_rows(&self) -> &[UnknownRow]
        ensures list { result.now ≡ (head_of self.now).unknown }
        ensures rising { is_rising unknown_before result.now ≡ true }
        ensures ranges { list_all (is_unknown_row_of (head_of self.now)) result.now ≡ true }
    {
        &self.head.unknown
    }
}
