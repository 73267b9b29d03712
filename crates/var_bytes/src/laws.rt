//! Laws of the spellings: each function's contract is a law, and its body is empty.

ghost use Rattle.std.specs.Prelude.{◌≡◌, ◌<◌, ◌^◌, ◌++◌, ◌⊎◌, ◌↔◌, ℕ, List, [], Ok};
ghost use Rattle.var_bytes.specs.Numbers.{number_bytes, spell, IsBytes};
ghost use Rattle.var_bytes.specs.Forms.{Form, Spells, Follows, IsBadAt};
ghost use Rattle.var_bytes.specs.Reading.{read_form};

/// A number has one spelling, and no number's spelling begins another's.
pub fn number_spelled_once()
    ensures { (m n : ℕ) (x y : List ℕ) → m < 2 ^ 64 → n < 2 ^ 64 →
        number_bytes m ++ x ≡ number_bytes n ++ y → (m ≡ n) × (x ≡ y) }
{}

/// Bytes tell at most one value in a format.
pub fn one_reading<A>()
    ensures { (form : Form A) (bytes : List ℕ) (v w : A) →
        Spells form bytes v → Spells form bytes w → v ≡ w }
{}

/// No bytes that tell a value begin other bytes that do.
pub fn none_begins_another<A>()
    ensures { (form : Form A) (a b x y : List ℕ) (v w : A) →
        Spells form a v → Spells form b w → a ++ x ≡ b ++ y → (a ≡ b) × (v ≡ w) }
{}

/// Bytes have at most one first bad field.
pub fn one_bad_place<A>()
    ensures { (form : Form A) (bytes : List ℕ) (i j : ℕ) →
        IsBadAt form bytes i → IsBadAt form bytes j → i ≡ j }
{}

/// Bytes tell a value or have a first bad field, and not both.
pub fn exactly_one_answer<A>()
    ensures one { (form : Form A) (bytes : List ℕ) → IsBytes bytes →
        ((v : A) × Spells form bytes v) ⊎ ((at : ℕ) × IsBadAt form bytes at) }
    ensures not_both { (form : Form A) (bytes : List ℕ) (v : A) (at : ℕ) →
        Spells form bytes v → IsBadAt form bytes at → ⊥ }
{}

/// Bytes tell a value exactly where they are the spellings, one after the other, of numbers that do.
pub fn spelled_by_numbers<A>()
    ensures { (form : Form A) (bytes : List ℕ) (v : A) →
        Spells form bytes v
        ↔ ((numbers : List ℕ) × Follows form numbers v [] × (bytes ≡ spell numbers)) }
{}

/// What is read from left to right follows from numbers, and where the elements are bytes it is what they spell.
pub fn read_as_spelled<A>()
    ensures spelled { (form : Form A) (bytes : List ℕ) (v : A) → IsBytes bytes →
        (read_form form bytes ≡ Ok v ↔ Spells form bytes v) }
    ensures numbers { (form : Form A) (bytes : List ℕ) (v : A) → read_form form bytes ≡ Ok v →
        (numbers : List ℕ) × Follows form numbers v [] }
{}
