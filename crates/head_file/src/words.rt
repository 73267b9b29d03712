//! Words and numbers of a text, from its front. What was written is read again; of other texts anything may be read.
ghost use Rattle.std.specs.Prelude.{◌≡◌, ℕ, ◌<◌, ◌≤◌, ◌^◌, ◌++◌, ◌∷◌, List, true, nat_le, position};
ghost use Rattle.std.specs.Fmt.{decimal};
ghost use Rattle.head_file.specs.Words.{is_word};

use text_num::{one_spelling, read_dec};

/// The first word, and what stands behind the blank or line feed that ends it.
pub fn next_word(text: &[u8]) -> (&[u8], &[u8])
    ensures { (word rest : List ℕ) (end : ℕ) → is_word word ≡ true → end ≤ 32 →
        text.now ≡ word ++ end ∷ rest → (result.0.now ≡ word) × (result.1.now ≡ rest) }
{
    match word_end(text) {
        Some(at) => (&text[..at], &text[at + 1..]),
        None => (text, &text[text.len()..]),
    }
}

/// Where the first blank or line feed stands.
fn word_end(text: &[u8]) -> Option<usize>
    ensures { result ≡ position (λ byte. nat_le byte 32) text.now }
{
    text.iter().position(|byte| *byte <= 32)
}

/// The first number, and what stands behind the blank or line feed that ends it.
pub fn next_number(text: &[u8]) -> (u32, &[u8])
    ensures { (n : ℕ) (rest : List ℕ) (end : ℕ) → n < 2 ^ 32 → end ≤ 32 →
        text.now ≡ decimal n ++ end ∷ rest → (result.0 ≡ n) × (result.1.now ≡ rest) }
{
    one_spelling();
    let (word, rest) = next_word(text);
    (number_of(word), rest)
}

/// The number that the second word of a line is, and the next lines.
pub fn next_line(text: &[u8]) -> (u32, &[u8])
    ensures { (word rest : List ℕ) (n : ℕ) → is_word word ≡ true → n < 2 ^ 32 →
        text.now ≡ word ++ 32 ∷ (decimal n ++ 10 ∷ rest) → (result.0 ≡ n) × (result.1.now ≡ rest) }
{
    let (_word, text) = next_word(text);
    next_number(text)
}

fn number_of(word: &[u8]) -> u32
    ensures { (n : ℕ) → n < 2 ^ 32 → word.now ≡ decimal n → result ≡ n }
{
    one_spelling();
    match read_dec(word) {
        Some(n) => u32::try_from(n).unwrap_or(0),
        None => 0,
    }
}
