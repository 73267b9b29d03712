//! A profile: rows by rising offset, which the type keeps.

ghost use Rattle.std.specs.Prelude.{◌≡◌, ◌<◌, List, [], ◌∷◌, ◌++◌, All, is_ok, IfOk, if◌then◌else◌};
ghost use Rattle.database_model.specs.Ranges.{IsRow, AreRows};

use database_model::ProfileRow;
use std::alloc::{AllocError, Global};
use std::marker::Model;

/// The profile of one image and one event, or of the unknown samples of one event: counts from 1 to 2^48 by rising
/// offset (Anderson et al., ACM TOCS 15(4), section 4.3.3).
#[derive(Debug, Drop)]
pub struct Profile {
    rows: Vec<ProfileRow>,
}

impl Model for Profile {
    ghost use Rattle.std.specs.Prelude.{List};
    ghost use Rattle.database_model.specs.declared.profiles.ProfileRow.{ProfileRow};
    ghost use Rattle.database_model.specs.Ranges.{AreRows};

    ghost Value = { List ProfileRow };

    ghost view = { λ p. p.rows.items };

    ghost invariant = { λ p. AreRows p.rows.items };
}

impl Profile {
    /// The profile with no rows.
    pub fn new(alloc: Global) -> Profile
        ensures { result ≡ [] }
    {
        Profile {
            rows: Vec::new(alloc),
        }
    }

    /// The profile with no rows, and memory for this many.
    pub fn with_capacity(alloc: Global, rows: usize) -> Result<Profile, AllocError>
        ensures { IfOk result (λ p. p ≡ []) }
    {
        Ok(Profile {
            rows: Vec::with_capacity(alloc, rows)?,
        })
    }

    /// Appends a row; after a refusal the profile is as before.
    pub fn push(&mut self, row: ProfileRow) -> Result<(), AllocError>
        requires row { IsRow row }
        requires above { All (λ held. held.offset < row.offset) self.old }
        ensures { self.new ≡ (if is_ok result then self.old ++ row ∷ [] else self.old) }
    {
        Ok(self.rows.push(row)?)
    }

    /// The rows, by rising offset.
    pub fn rows(&self) -> &[ProfileRow]
        ensures list { result.now ≡ self.now }
        ensures rising { AreRows result.now }
    {
        self.rows.as_slice()
    }
}
