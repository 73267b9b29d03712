//! Laws of file names: each function's contract is a law, and its body is empty.
ghost use Rattle.std.specs.Prelude.{◌≡◌, ◌<◌, ◌^◌, ℕ, List, true};
ghost use Rattle.store_io.specs.declared.file_refs.FileRef.{FileRef as Named};
ghost use Rattle.store_io.specs.FileNames.{file_name};
ghost use Rattle.database_state.specs.Standing.{seal_file};
ghost use Rattle.database_state.specs.Generations.{FileFits};
ghost use Rattle.store_tidy.specs.FileForms.{is_in, generations, is_file_name};
ghost use Rattle.store_tidy.specs.Named.{is_in_ranges, IsFileOrSeal};

/// The names of the forms are those of the files and seals of a database whose numbers are in their ranges.
pub fn forms_are_of_files()
    ensures files { (file : Named) → FileFits file →
        is_file_name (file_name file) ≡ is_in_ranges file }
    ensures seals { (g : ℕ) → g < 2 ^ 64 → is_file_name (seal_file g) ≡ is_in generations g }
    ensures named { (name : List ℕ) → is_file_name name ≡ true → IsFileOrSeal name }
{}
