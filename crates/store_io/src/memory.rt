//! A store in memory: it remembers all its changes, and fails where it was told to.
ghost use Rattle.std.specs.Prelude.{◌≡◌, ℕ, [], true};
ghost use Rattle.store_io.specs.Changes.{are_whole};

use crate::changes::{
    add, copy_of, find, half_written, left_by_write, listed, present_names, takes_away,
};
use crate::errors::StoreError;
use crate::fails::{Left, StoreFail};
use crate::order::names_among;
use crate::steps::{Outcome, Step};
use crate::store::Store;
use std::alloc::Global;
use text_num::Name;

/// A store in memory. It keeps a record of its changes, so that contracts see what a crash at any moment may have left,
/// torn bytes too, and fails exactly at the calls that it was made with. It keeps a change for as long as it lives.
#[derive(Drop)]
pub struct MemStore {
    changes: Vec<Step>,
    fails: Vec<StoreFail>,
    calls: u64,
    faults: u64,
    ghost quiet: { fails.items ≡ [] → faults ≡ 0 },
    ghost whole: { faults ≡ 0 → are_whole changes.items ≡ true },
}

impl MemStore {
    ghost use Rattle.store_io.specs.Memory.{changes_of, fails_of, calls_of, faults_of};

    /// A store with no files, of which no call was made. Where a call is listed twice, the first entry counts.
    pub fn new(alloc: Global, fails: Vec<StoreFail>) -> MemStore
        ensures changes { changes_of result ≡ [] }
        ensures fails { fails_of result ≡ fails.items }
        ensures calls { calls_of result ≡ 0 }
        ensures faults { faults_of result ≡ 0 }
    {
        MemStore {
            changes: Vec::new(alloc),
            fails,
            calls: 0,
            faults: 0,
        }
    }
}

impl Store for MemStore {
    ghost use Rattle.std.specs.Prelude.{ℕ, ◌≤◌, None, Some, IfOk};
    ghost use Rattle.store_io.specs.Files.{Files};
    ghost use Rattle.store_io.specs.Listing.{IsInByteOrder, Lists, Finds};
    ghost use Rattle.store_io.specs.Outcomes.{HasStoreCause, Torn, MaybeRemoved, Writes, Removes};
    ghost use Rattle.store_io.specs.Crashes.{LeftNow, LeavesNoMore, LeavesWritten, LeavesRemoved, Passes, PassesChange, Tears};
    ghost use Rattle.store_io.specs.Changes.{left_bytes, unremoved_bytes};
    ghost use Rattle.store_io.specs.Memory.{changes_of, told_of, faults_of, moment_of, left_of, origin_of, IsCounted, FailsLeaving, RemembersFailure};
    ghost use Rattle.store_io.specs.Present.{present_files, left_lasts};

    type Origin = bool;

    ghost origin = { origin_of };

    ghost files = { told_of };

    ghost faults = { faults_of };

    ghost moment = { moment_of };

    ghost left_since = { left_of };

    ghost present = { λ s f told. present_files (changes_of s) f told };

    ghost lasting = { λ s t c earlier now. left_lasts (changes_of s) t c now };

    fn names(&mut self, alloc: Global) -> Result<Vec<Name>, StoreError>
        ensures order { IfOk result (λ names. IsInByteOrder names.items) }
        ensures names { IfOk result (λ names. Lists (told_of self.old) names.items) }
        ensures files { told_of self.new ≡ told_of self.old }
        ensures crash { LeavesNoMore moment_of left_of self.old self.new }
        ensures time { Passes moment_of left_of self.old self.new
            (LeftNow moment_of left_of self.old) }
        ensures cause { HasStoreCause (faults_of self.old) (faults_of self.new) result }
        ensures origin { origin_of self.new ≡ origin_of self.old }
        ensures counted { IsCounted self.old self.new result }
        ensures changes { changes_of self.new ≡ changes_of self.old }
    {
        self.calls = self.calls.saturating_add(1);
        match listed(&self.fails, self.calls) {
            None => {
                let texts = present_names(alloc, &self.changes)?;
                let names = names_among(alloc, texts)?;
                Ok(names)
            }
            Some(_) => {
                self.faults = self.faults.saturating_add(1);
                Err(StoreError::Failed)
            }
        }
    }

    fn read(&mut self, alloc: Global, name: &Name) -> Result<Option<Vec<u8>>, StoreError>
        ensures found { IfOk result (Finds (told_of self.old) name.now) }
        ensures files { told_of self.new ≡ told_of self.old }
        ensures crash { LeavesNoMore moment_of left_of self.old self.new }
        ensures time { Passes moment_of left_of self.old self.new
            (LeftNow moment_of left_of self.old) }
        ensures cause { HasStoreCause (faults_of self.old) (faults_of self.new) result }
        ensures origin { origin_of self.new ≡ origin_of self.old }
        ensures counted { IsCounted self.old self.new result }
        ensures changes { changes_of self.new ≡ changes_of self.old }
    {
        self.calls = self.calls.saturating_add(1);
        match listed(&self.fails, self.calls) {
            None => {
                let found = copy_of(alloc, find(&self.changes, name.bytes()))?;
                Ok(found)
            }
            Some(_) => {
                self.faults = self.faults.saturating_add(1);
                Err(StoreError::Failed)
            }
        }
    }

    fn write(&mut self, alloc: Global, name: &Name, bytes: &[u8]) -> Result<(), StoreError>
        ensures files { Writes name.now bytes.now (told_of self.old) (told_of self.new) result }
        ensures crash { LeavesWritten moment_of left_of name.now bytes.now
            self.old self.new result }
        ensures time { PassesChange moment_of left_of (Torn name.now) self.old self.new }
        ensures torn { Tears moment_of left_of (Torn name.now) self.old self.new result }
        ensures cause { HasStoreCause (faults_of self.old) (faults_of self.new) result }
        ensures origin { origin_of self.new ≡ origin_of self.old }
        ensures counted { IsCounted self.old self.new result }
        ensures left { FailsLeaving left_bytes self.old self.new name.now result }
        ensures failures { RemembersFailure self.old self.new result }
    {
        self.calls = self.calls.saturating_add(1);
        match listed(&self.fails, self.calls) {
            None => {
                let bytes = Vec::from_slice(alloc, bytes)?;
                add(alloc, &mut self.changes, name, Outcome::Written(bytes))?;
                Ok(())
            }
            Some(left) => {
                let before = find(&self.changes, name.bytes());
                let bytes = left_by_write(alloc, left, before)?;
                add(alloc, &mut self.changes, name, half_written(bytes))?;
                self.faults = self.faults.saturating_add(1);
                Err(StoreError::Failed)
            }
        }
    }

    fn remove(&mut self, alloc: Global, name: &Name) -> Result<(), StoreError>
        ensures files { Removes name.now (told_of self.old) (told_of self.new) result }
        ensures crash { LeavesRemoved moment_of left_of name.now self.old self.new result }
        ensures time { PassesChange moment_of left_of (MaybeRemoved name.now) self.old self.new }
        ensures torn { Tears moment_of left_of (MaybeRemoved name.now) self.old self.new result }
        ensures cause { HasStoreCause (faults_of self.old) (faults_of self.new) result }
        ensures origin { origin_of self.new ≡ origin_of self.old }
        ensures counted { IsCounted self.old self.new result }
        ensures left { FailsLeaving unremoved_bytes self.old self.new name.now result }
        ensures failures { RemembersFailure self.old self.new result }
    {
        self.calls = self.calls.saturating_add(1);
        match listed(&self.fails, self.calls) {
            None => {
                add(alloc, &mut self.changes, name, Outcome::Removed)?;
                Ok(())
            }
            Some(left) => {
                let gone = takes_away(left);
                add(
                    alloc,
                    &mut self.changes,
                    name,
                    Outcome::HalfRemoved { gone },
                )?;
                self.faults = self.faults.saturating_add(1);
                Err(StoreError::Failed)
            }
        }
    }
}
