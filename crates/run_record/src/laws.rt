//! Laws of the segments' bytes: each function's contract is a law, and its body is empty.

ghost use Rattle.std.specs.Prelude.{◌≡◌, ◌++◌, ℕ, List};
ghost use Rattle.var_bytes.specs.Forms.{Spells};
ghost use Rattle.database_model.specs.Runs.{Segment};
ghost use Rattle.database_model.specs.Ranges.{IsSegment};
ghost use Rattle.database_model.specs.SegmentForm.{segment};

/// A segment has one spelling.
pub fn segment_spelled_once()
    ensures { (a b : List ℕ) (s : Segment) → Spells segment a s → Spells segment b s → a ≡ b }
{}

/// No segment's spelling begins another's.
pub fn segment_begins_no_other()
    ensures { (a b x y : List ℕ) (s t : Segment) →
        Spells segment a s → Spells segment b t → a ++ x ≡ b ++ y → (a ≡ b) × (s ≡ t) }
{}

/// What some bytes tell is a segment that can be stored.
pub fn segments_are_in_range()
    ensures { (bytes : List ℕ) (s : Segment) → Spells segment bytes s → IsSegment s }
{}
