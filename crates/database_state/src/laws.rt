//! Laws of a database's files: each function's contract is a law, and its body is empty.

ghost use Rattle.std.specs.Prelude.{◌≡◌, ◌<◌, ◌^◌, ℕ, List};
ghost use Rattle.store_io.specs.Files.{Files};
ghost use Rattle.store_io.specs.declared.file_refs.FileRef.{FileRef as Named};
ghost use Rattle.store_io.specs.FileNames.{file_name};
ghost use Rattle.database_state.specs.Heads as heads;
ghost use Rattle.database_state.specs.Standing.{seal_file, database_of};
ghost use Rattle.database_state.specs.Generations.{FileFits};
ghost use Rattle.database_state.specs.Limits.{IsProfile};

/// The names of a database's files are apart: each names one file or one seal.
pub fn file_names_are_apart()
    ensures files { (a b : Named) → FileFits a → FileFits b → file_name a ≡ file_name b → a ≡ b }
    ensures seals { (j k : ℕ) → j < 2 ^ 64 → k < 2 ^ 64 → seal_file j ≡ seal_file k → j ≡ k }
    ensures kinds { (k : ℕ) (file : Named) → seal_file k ≡ file_name file → ⊥ }
{}

/// What files tell under a head are the rows of profiles, whatever their bytes.
pub fn told_profiles_rise()
    ensures known { (h : heads.Head) (files : Files) (epoch : ℕ) (name : List ℕ) (event : ℕ) →
        IsProfile ((database_of h files).known epoch name event) }
    ensures unknown { (h : heads.Head) (files : Files) (epoch event : ℕ) →
        IsProfile ((database_of h files).unknown epoch event) }
{}
