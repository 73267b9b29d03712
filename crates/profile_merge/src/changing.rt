//! The change of a commit.
ghost use Rattle.std.specs.Prelude.{◌≡◌, ℕ, List, IfOk, IfErr, Some};
ghost use Rattle.std.specs.List.{IsDistinct};
ghost use Rattle.std.specs.Str.{bytes_eq};
ghost use Rattle.store_io.specs.Crashes.{OnlyReads};
ghost use Rattle.store_io.specs.Files.{Files};
ghost use Rattle.database_state.specs.Updates.{Fits, head_after};
ghost use Rattle.database_state.specs.declared.faults.DbFault.{DbFault as Fault};
ghost use Rattle.epoch_store.specs.Databases.{head_of};
ghost use Rattle.growth_model.specs.Fitting.{HeadGrows};
ghost use Rattle.profile_merge.specs.Gathering.{ImagesAreIn, EpochsAreUpTo};
ghost use Rattle.profile_merge.specs.Faults.{IsFirstFault};
ghost use Rattle.profile_merge.specs.Changing.{Follows, OfGathered, GrowsFiles, HasFaultCause, IsAnswered, HasChangeCause};

use crate::gathered::Gathered;
use crate::growing::{renew_all, split};
use crate::numbering::{number_images, used_images};
use crate::parts::parts_of;
use database_model::RunSegment;
use database_state::{Change, DbFault, told_profiles_rise};
use epoch_store::Database;
use std::alloc::Global;
use store_io::Store;
use text_num::Name;

/// The change that adds what was gathered to a database, with `epoch` as its last epoch and the segment of this part. The
/// files of the changed profiles are read.
///
/// `names` are the images of the trace. `Full` with `Images` (held 4,096, added 1) where the new images have no numbers.
/// Then the profiles follow in the order of a commit: `Bad` names the first file that is missing or not in its form, `Full`
/// the first place whose count would be above 2^48, whichever comes first.
pub fn change_of<D: Store>(
    alloc: Global,
    gathered: &Gathered,
    names: &[Name],
    db: &Database,
    store: &mut D,
    epoch: u32,
    segment: RunSegment,
) -> Result<Change, DbFault>
    requires distinct { IsDistinct bytes_eq names.now }
    requires images { ImagesAreIn names.now gathered.now }
    requires epochs { EpochsAreUpTo epoch gathered.now }
    ensures part { IfOk result (λ change. (change.segment ≡ segment) × (change.epoch ≡ epoch)) }
    ensures fits { IfOk result (λ change. Follows (head_of db.now) epoch segment →
        Fits (head_of db.now).epoch (head_of db.now).runs (head_of db.now).names change) }
    // Where the store tells its files the change is the growth of one part.
    ensures grows { IfOk result (λ change. OfGathered gathered.now names.now (λ added.
        GrowsFiles names.now added (head_of db.now) segment change (D.files store.old))) }
    ensures head { IfOk result (λ change. OfGathered gathered.now names.now (λ added.
        HeadGrows names.now added epoch segment (head_of db.now)
        (head_after change (head_of db.now)))) }
    // A fault of the database has its cause, and where there is one it is answered.
    ensures fails { IfErr result (λ fault. (files : Files) → D.files store.old ≡ Some files →
        OfGathered gathered.now names.now (λ added.
        HasFaultCause names.now added (head_of db.now) files fault)) }
    ensures answers { (files : Files) (fault : Fault) → D.files store.old ≡ Some files →
        OfGathered gathered.now names.now (λ added.
        IsFirstFault names.now added (head_of db.now) files fault → IsAnswered fault result) }
    ensures reads { OnlyReads (D.files store.old) (D.files store.new) (D.moment store.old)
        (D.moment store.new) (D.left_since store.old) (D.left_since store.new) }
    ensures cause { HasChangeCause (D.faults store.old) (D.faults store.new) result }
    ensures origin { D.origin store.new ≡ D.origin store.old }
{
    told_profiles_rise();
    let used = used_images(alloc, gathered, names.len())?;
    let numbered = number_images(alloc, &used, names, db.catalog())?;
    let parts = parts_of(alloc, gathered, &numbered.numbers)?;
    let all = renew_all(alloc, gathered, &parts, db, store)?;
    let kinds = split(alloc, all)?;
    Ok(Change {
        epoch,
        names: numbered.names,
        known: kinds.known,
        unknown: kinds.unknown,
        segment,
    })
}
