//! Laws of the profiles' bytes: each function's contract is a law, and its body is empty.

ghost use Rattle.std.specs.Prelude.{◌≡◌, ◌++◌, ℕ, List, Ok};
ghost use Rattle.database_model.specs.declared.profiles.ProfileRow.{ProfileRow as Row};
ghost use Rattle.var_bytes.specs.Forms.{Spells};
ghost use Rattle.var_bytes.specs.Reading.{read_form};
ghost use Rattle.database_model.specs.Ranges.{AreRows};
ghost use Rattle.database_model.specs.ProfileForm.{format1};

/// A profile has one spelling.
pub fn profile_spelled_once()
    ensures { (a b : List ℕ) (rows : List Row) →
        Spells format1 a rows → Spells format1 b rows → a ≡ b }
{}

/// No profile's spelling begins another's.
pub fn profile_begins_no_other()
    ensures { (a b x y : List ℕ) (v w : List Row) →
        Spells format1 a v → Spells format1 b w → a ++ x ≡ b ++ y → (a ≡ b) × (v ≡ w) }
{}

/// Rows are told by some bytes exactly where they are rows of a profile: by rising offset, each with a count from 1
/// to 2^48.
pub fn profiles_have_spellings()
    ensures spelled { (rows : List Row) → AreRows rows →
        (bytes : List ℕ) × Spells format1 bytes rows }
    ensures told { (bytes : List ℕ) (rows : List Row) → Spells format1 bytes rows → AreRows rows }
{}

/// What is read in the profiles' format are the rows of a profile, whatever the bytes.
pub fn read_rows_rise()
    ensures told { (bytes : List ℕ) (rows : List Row) →
        read_form format1 bytes ≡ Ok rows → AreRows rows }
{}
