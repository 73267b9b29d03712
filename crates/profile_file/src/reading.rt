//! Reading a profile from bytes: the entry, the rows, one row.

ghost use Rattle.std.specs.Prelude.{◌≡◌, ◌≤◌, ◌-◌, ◌^◌, ◌⊎◌, ℕ, List, [], length, Ok, Err, IfOk, MatchResult};
ghost use Rattle.database_model.specs.declared.profiles.ProfileRow.{ProfileRow as Row};
ghost use Rattle.var_bytes.specs.Forms.{Spells, IsBadAt, repeat};
ghost use Rattle.var_bytes.specs.Reading.{take_form, read_form};
ghost use Rattle.database_model.specs.ProfileForm.{row_form, next_row, format1};
ghost use Rattle.var_bytes.specs.Answers.{Gives};
ghost use Rattle.profile_file.specs.Places.{IsRowAt};

use crate::profiles::Profile;
use database_model::{LAST_POSITION, MOST_ROW_COUNT, ProfileRow};
use std::alloc::Global;
use var_bytes::{BadField, FormError as ProfileError, field};

/// The bytes of the shortest row: a distance and a count of one byte each.
const LEAST_ROW_BYTES: usize = 2;

/// Reads a profile in format 1 from all of the bytes.
pub fn read_profile(alloc: Global, bytes: &[u8]) -> Result<Profile, ProfileError>
    // What is read is what the bytes tell.
    ensures found { IfOk result (λ p. Spells format1 bytes.now p) }
    // What the bytes tell is read, unless memory runs out.
    ensures only { (rows : List Row) → Spells format1 bytes.now rows →
        (result ≡ Err ProfileError.Memory) ⊎ (result ≡ Ok rows) }
    // A bad place is that of the first bad field.
    ensures bad { (at : ℕ) → result ≡ Err (ProfileError.Bad at) → IsBadAt format1 bytes.now at }
    // The first bad field is answered, unless memory runs out.
    ensures refused { (at : ℕ) → IsBadAt format1 bytes.now at →
        (result ≡ Err ProfileError.Memory) ⊎ (result ≡ Err (ProfileError.Bad at)) }
{
    whole_profile(alloc, bytes)
}

#[tactic(auto, unfolding(database_model::specs::ProfileForm::format1))]
fn whole_profile(alloc: Global, bytes: &[u8]) -> Result<Profile, ProfileError>
    ensures { Gives (λ p. p) result (read_form format1 bytes.now) }
{
    let (_format, at) = field(bytes, 0, 1, 1)?;
    let (count, at) = field(bytes, at, 0, u64::MAX)?;
    let (profile, at) = rows_of(alloc, bytes, at, count)?;
    if at != bytes.len() {
        return Err(ProfileError::Bad { at });
    }
    Ok(profile)
}

fn rows_of(
    alloc: Global,
    bytes: &[u8],
    at: usize,
    count: u64,
) -> Result<(Profile, usize), ProfileError>
    requires { at ≤ length bytes.now }
    ensures within { IfOk result (λ x. x.1 ≤ length bytes.now) }
    ensures value { Gives (λ x. (x.0, x.1)) result
        (take_form (repeat next_row count []) bytes.now at) }
{
    let mut profile = Profile::with_capacity(alloc, room_for(count, bytes.len()))?;
    let mut at = at;
    let mut last: u64 = 0;
    let mut least: u64 = 0;
    for _ in 0..count {
        let (row, after) = row_of(bytes, at, least, last)?;
        profile.push(row)?;
        last = row.offset / 4;
        least = 1;
        at = after;
    }
    Ok((profile, at))
}

// the rows to make room for: the count that is told, but no more than so many bytes can hold
fn room_for(count: u64, bytes: usize) -> usize {
    let most = bytes / LEAST_ROW_BYTES;
    usize::try_from(count).map_or(most, |told| told.min(most))
}

// the row behind a row at the position `last`, at a distance of at least `least`
#[tactic(auto, unfolding(database_model::specs::ProfileForm::row_form))]
fn row_of(bytes: &[u8], at: usize, least: u64, last: u64) -> Result<(ProfileRow, usize), BadField>
    requires within { at ≤ length bytes.now }
    requires small { last ≤ 2 ^ 62 - 1 }
    ensures within { IfOk result (λ x. x.1 ≤ length bytes.now) }
    ensures row { IfOk result (λ x. IsRowAt least last x.0) }
    ensures value { MatchResult result
        (λ x. take_form (row_form least last) bytes.now at ≡ Ok (x.0, x.1))
        (λ e. take_form (row_form least last) bytes.now at ≡ Err e.at) }
{
    let (distance, at) = field(bytes, at, least, LAST_POSITION - last)?;
    let (count, at) = field(bytes, at, 1, MOST_ROW_COUNT)?;
    let offset = 4 * (last + distance);
    Ok((ProfileRow { offset, count }, at))
}
