//! Reading what a listing counts: the known rows of the head that are wanted, then the unknown ones, in their order.
ghost use Rattle.std.specs.Prelude.{◌≡◌, ◌<◌, ◌≤◌, ◌+◌, ◌*◌, ◌^◌, ◌==◌, ◌&&◌, [], ◌∷◌, is_some, length, Some, IfOk, OnOk, sum_by};
ghost use Rattle.std.specs.Option.{option_copied};
ghost use Rattle.store_io.specs.Files.{Files};
ghost use Rattle.store_io.specs.Crashes.{OnlyReads};
ghost use Rattle.sample_key.specs.Events.{code_of};
ghost use Rattle.image_catalog.specs.Images.{text_at};
ghost use Rattle.database_state.specs.Rows.{known_row, known_ref, unknown_row, unknown_ref};
ghost use Rattle.epoch_store.specs.Databases.{head_of};
ghost use Rattle.epoch_store.specs.Faults.{HasDbCause};
ghost use Rattle.report_text.specs.declared.labels.Label.TheVariants.{Unknown};
ghost use Rattle.dcpiprof_report.specs.Counting.{label_at};
ghost use Rattle.dcpiprof_report.specs.Reading.{Gives, first_bad, is_chosen, known_wanted, unknown_wanted, wanted};
ghost use Rattle.dcpiprof_report.specs.Sums.{AddsFile, AreSums, Counts, Grows, held_in_all, known_count, known_counts, most_counted, unknown_count, unknown_counts};

use crate::sums::{add_rows, add_unknown};
use epoch_store::{Database, DbFault, KnownRow, UnknownRow, read_known, read_unknown};
use profile_file::ProfileRow;
use report_text::{Epochs, Label};
use sample_key::Event;
use std::alloc::Global;
use std::collections::BTreeMap;
use store_io::Store;
use symbol_ranges::Symbols;

/// What is to be listed: by procedure where there are symbols, else by image.
#[derive(Clone, Copy)]
pub(crate) struct Query<'a> {
    pub db: &'a Database,
    pub symbols: Option<&'a Symbols>,
    pub epochs: Epochs,
    pub event: Event,
}

impl Query<'_> {
    /// How much the database holds under each label.
    pub fn sums<D: Store>(
        &self,
        alloc: Global,
        store: &mut D,
    ) -> Result<BTreeMap<Label, u128>, DbFault>
        ensures told { (files : Files) → D.files store.old ≡ Some files →
            Gives (first_bad files (wanted (head_of self.now.db.now) self.now.epochs
            (code_of self.now.event)))
            (λ sums. Counts files (head_of self.now.db.now)
            (option_copied self.now.symbols) self.now.epochs
            (code_of self.now.event) sums.entries)
            result }
        ensures small { IfOk result (λ sums. held_in_all sums.entries < 2 ^ 128) }
        ensures labels { IfOk result (λ sums. AreSums (is_some self.now.symbols) sums.entries) }
        ensures reads { OnlyReads (D.files store.old) (D.files store.new) (D.moment store.old)
            (D.moment store.new) (D.left_since store.old) (D.left_since store.new) }
        ensures cause { HasDbCause (D.faults store.old) (D.faults store.new) result }
        ensures origin { D.origin store.new ≡ D.origin store.old }
    {
        let mut sums = BTreeMap::new(alloc);
        self.add_known(alloc, store, &mut sums)?;
        self.add_unknown(alloc, store, &mut sums)?;
        Ok(sums)
    }

    fn add_known<D: Store>(
        &self,
        alloc: Global,
        store: &mut D,
        sums: &mut BTreeMap<Label, u128>,
    ) -> Result<(), DbFault>
        requires { held_in_all sums.old.entries
            + length (head_of self.now.db.now).known * most_counted < 2 ^ 128 }
        ensures told { (files : Files) → D.files store.old ≡ Some files →
            Gives (first_bad files (known_wanted self.now.epochs (code_of self.now.event)
            (head_of self.now.db.now).known))
            (λ _. Grows sums.old.entries sums.new.entries
            (λ test. known_counts files (head_of self.now.db.now)
            (option_copied self.now.symbols) self.now.epochs (code_of self.now.event) test))
            result }
        ensures room { OnOk result (held_in_all sums.new.entries
            ≤ held_in_all sums.old.entries + length
            (head_of self.now.db.now).known * most_counted) }
        ensures labels { OnOk result (AreSums (is_some self.now.symbols) sums.old.entries
            → AreSums (is_some self.now.symbols) sums.new.entries) }
        ensures reads { OnlyReads (D.files store.old) (D.files store.new) (D.moment store.old)
            (D.moment store.new) (D.left_since store.old) (D.left_since store.new) }
        ensures cause { HasDbCause (D.faults store.old) (D.faults store.new) result }
        ensures origin { D.origin store.new ≡ D.origin store.old }
    {
        for row in self.db.known_rows() {
            self.take_known(alloc, store, sums, *row)?;
        }
        Ok(())
    }

    fn add_unknown<D: Store>(
        &self,
        alloc: Global,
        store: &mut D,
        sums: &mut BTreeMap<Label, u128>,
    ) -> Result<(), DbFault>
        requires { held_in_all sums.old.entries
            + length (head_of self.now.db.now).unknown * most_counted < 2 ^ 128 }
        ensures told { (files : Files) → D.files store.old ≡ Some files →
            Gives (first_bad files (unknown_wanted self.now.epochs (code_of self.now.event)
            (head_of self.now.db.now).unknown))
            (λ _. Grows sums.old.entries sums.new.entries
            (λ test. unknown_counts files (head_of self.now.db.now) self.now.epochs
            (code_of self.now.event) test))
            result }
        ensures room { OnOk result (held_in_all sums.new.entries
            ≤ held_in_all sums.old.entries + length
            (head_of self.now.db.now).unknown * most_counted) }
        ensures labels { OnOk result (AreSums (is_some self.now.symbols) sums.old.entries
            → AreSums (is_some self.now.symbols) sums.new.entries) }
        ensures reads { OnlyReads (D.files store.old) (D.files store.new) (D.moment store.old)
            (D.moment store.new) (D.left_since store.old) (D.left_since store.new) }
        ensures cause { HasDbCause (D.faults store.old) (D.faults store.new) result }
        ensures origin { D.origin store.new ≡ D.origin store.old }
    {
        for row in self.db.unknown_rows() {
            self.take_unknown(alloc, store, sums, *row)?;
        }
        Ok(())
    }

    fn take_known<D: Store>(
        &self,
        alloc: Global,
        store: &mut D,
        sums: &mut BTreeMap<Label, u128>,
        row: KnownRow,
    ) -> Result<(), DbFault>
        requires found { known_row (head_of self.now.db.now).known row.epoch row.image row.event
            ≡ Some row }
        requires image { row.image < length (head_of self.now.db.now).names }
        requires room { held_in_all sums.old.entries + most_counted < 2 ^ 128 }
        ensures told { (files : Files) → D.files store.old ≡ Some files →
            Gives (first_bad files (known_wanted self.now.epochs (code_of self.now.event)
            (row ∷ [])))
            (λ _. Grows sums.old.entries sums.new.entries (λ test. known_count files
            (head_of self.now.db.now).names (option_copied self.now.symbols) self.now.epochs
            (code_of self.now.event) test row))
            result }
        ensures room { OnOk result (held_in_all sums.new.entries
            ≤ held_in_all sums.old.entries + most_counted) }
        ensures labels { OnOk result (AreSums (is_some self.now.symbols) sums.old.entries
            → AreSums (is_some self.now.symbols) sums.new.entries) }
        ensures reads { OnlyReads (D.files store.old) (D.files store.new) (D.moment store.old)
            (D.moment store.new) (D.left_since store.old) (D.left_since store.new) }
        ensures cause { HasDbCause (D.faults store.old) (D.faults store.new) result }
        ensures origin { D.origin store.new ≡ D.origin store.old }
    {
        if !self.wants(row.epoch, row.event) {
            return Ok(());
        }
        self.add_known_row(alloc, store, sums, row)
    }

    fn add_known_row<D: Store>(
        &self,
        alloc: Global,
        store: &mut D,
        sums: &mut BTreeMap<Label, u128>,
        row: KnownRow,
    ) -> Result<(), DbFault>
        requires found { known_row (head_of self.now.db.now).known row.epoch row.image row.event
            ≡ Some row }
        requires image { row.image < length (head_of self.now.db.now).names }
        requires event { row.event ≡ code_of self.now.event }
        requires room { held_in_all sums.old.entries + most_counted < 2 ^ 128 }
        ensures told { (files : Files) → D.files store.old ≡ Some files →
            AddsFile files (known_ref row) (label_at (option_copied self.now.symbols) (text_at
            (head_of self.now.db.now).names row.image))
            sums.old.entries result sums.new.entries }
        ensures room { OnOk result (held_in_all sums.new.entries
            ≤ held_in_all sums.old.entries + most_counted) }
        ensures labels { OnOk result (AreSums (is_some self.now.symbols) sums.old.entries
            → AreSums (is_some self.now.symbols) sums.new.entries) }
        ensures reads { OnlyReads (D.files store.old) (D.files store.new) (D.moment store.old)
            (D.moment store.new) (D.left_since store.old) (D.left_since store.new) }
        ensures cause { HasDbCause (D.faults store.old) (D.faults store.new) result }
        ensures origin { D.origin store.new ≡ D.origin store.old }
    {
        let profile = read_known(alloc, self.db, store, row.epoch, row.image, self.event)?;
        let Some(image) = self.db.catalog().name(row.image) else {
            unreachable!()
        };
        add_rows(alloc, sums, self.symbols, image, profile.rows())?;
        Ok(())
    }

    fn take_unknown<D: Store>(
        &self,
        alloc: Global,
        store: &mut D,
        sums: &mut BTreeMap<Label, u128>,
        row: UnknownRow,
    ) -> Result<(), DbFault>
        requires found { unknown_row (head_of self.now.db.now).unknown row.epoch row.event
            ≡ Some row }
        requires room { held_in_all sums.old.entries + most_counted < 2 ^ 128 }
        ensures told { (files : Files) → D.files store.old ≡ Some files →
            Gives (first_bad files (unknown_wanted self.now.epochs (code_of self.now.event)
            (row ∷ [])))
            (λ _. Grows sums.old.entries sums.new.entries
            (λ test. unknown_count files self.now.epochs (code_of self.now.event) test row))
            result }
        ensures room { OnOk result (held_in_all sums.new.entries
            ≤ held_in_all sums.old.entries + most_counted) }
        ensures labels { OnOk result (AreSums (is_some self.now.symbols) sums.old.entries
            → AreSums (is_some self.now.symbols) sums.new.entries) }
        ensures reads { OnlyReads (D.files store.old) (D.files store.new) (D.moment store.old)
            (D.moment store.new) (D.left_since store.old) (D.left_since store.new) }
        ensures cause { HasDbCause (D.faults store.old) (D.faults store.new) result }
        ensures origin { D.origin store.new ≡ D.origin store.old }
    {
        if !self.wants(row.epoch, row.event) {
            return Ok(());
        }
        self.add_unknown_row(alloc, store, sums, row)
    }

    fn add_unknown_row<D: Store>(
        &self,
        alloc: Global,
        store: &mut D,
        sums: &mut BTreeMap<Label, u128>,
        row: UnknownRow,
    ) -> Result<(), DbFault>
        requires found { unknown_row (head_of self.now.db.now).unknown row.epoch row.event
            ≡ Some row }
        requires event { row.event ≡ code_of self.now.event }
        requires room { held_in_all sums.old.entries + most_counted < 2 ^ 128 }
        ensures told { (files : Files) → D.files store.old ≡ Some files →
            AddsFile files (unknown_ref row) (λ pc. Unknown)
            sums.old.entries result sums.new.entries }
        ensures room { OnOk result (held_in_all sums.new.entries
            ≤ held_in_all sums.old.entries + most_counted) }
        ensures labels { OnOk result (AreSums (is_some self.now.symbols) sums.old.entries
            → AreSums (is_some self.now.symbols) sums.new.entries) }
        ensures reads { OnlyReads (D.files store.old) (D.files store.new) (D.moment store.old)
            (D.moment store.new) (D.left_since store.old) (D.left_since store.new) }
        ensures cause { HasDbCause (D.faults store.old) (D.faults store.new) result }
        ensures origin { D.origin store.new ≡ D.origin store.old }
    {
        let profile = read_unknown(alloc, self.db, store, row.epoch, self.event)?;
        add_unknown(sums, count_of(profile.rows()))?;
        Ok(())
    }

    fn wants(&self, epoch: u32, event: u8) -> bool
        ensures { result ≡ (is_chosen self.now.epochs epoch && code_of self.now.event == event) }
    {
        match self.epochs {
            Epochs::All => self.event.code() == event,
            Epochs::One(one) => one == epoch && self.event.code() == event,
        }
    }
}

// What the rows of a profile count.
fn count_of(rows: &[ProfileRow]) -> u128
    requires { sum_by (λ row. row.count) rows.now < 2 ^ 128 }
    ensures { result ≡ sum_by (λ row. row.count) rows.now }
{
    rows.iter().map(|row| u128::from(row.count)).sum()
}
