//! Laws of opened databases: each function's contract is a law, and its body is empty.

ghost use Rattle.std.specs.Prelude.{◌≡◌, ℕ, ◌-◌, ◌≤◌, List, Some, slice_get};
ghost use Rattle.store_io.specs.Files.{Files};
ghost use Rattle.image_catalog.specs.Images.{place_of};
ghost use Rattle.database_model.specs.SegmentForm.{segment};
ghost use Rattle.database_state.specs.Rows.{known_row, unknown_row};
ghost use Rattle.database_state.specs.Heads as heads;
ghost use Rattle.database_state.specs.Database.{Database as Said};
ghost use Rattle.database_state.specs.Limits.{IsWithinLimits};
ghost use Rattle.database_state.specs.Standing.{HaveHead, StandsFor, database_of, known_at, unknown_at, value_in, segment_file};

/// What the files say of a profile, of an unknown profile and of a part is what the readers read.
pub fn readers_read_the_database()
    ensures known { (h : heads.Head) (files : Files) (name : List ℕ) (epoch image event : ℕ) →
        place_of name h.names ≡ Some image →
        (database_of h files).known epoch name event
        ≡ known_at files (known_row h.known epoch image event) }
    ensures unknown { (h : heads.Head) (files : Files) (epoch event : ℕ) →
        (database_of h files).unknown epoch event
        ≡ unknown_at files (unknown_row h.unknown epoch event) }
    ensures segment { (h : heads.Head) (files : Files) (g : ℕ) → 1 ≤ g → g ≤ h.generation →
        slice_get (database_of h files).segments (g - 1)
        ≡ Some (value_in segment (files (segment_file g))) }
{}

/// Files have one head and stand for one database.
pub fn files_stand_for_one_database()
    ensures heads { (files : Files) (h k : heads.Head) →
        HaveHead files h → HaveHead files k → h ≡ k }
    ensures databases { (files : Files) (a b : Said) →
        StandsFor files a → StandsFor files b → a ≡ b }
{}

/// What files stand for is within the limits of a database.
pub fn what_stands_is_within_limits()
    ensures { (files : Files) (h : heads.Head) →
        HaveHead files h → IsWithinLimits h (database_of h files) }
{}
