//! The fields of a text, cut from its front: `cut_field`.

ghost use Rattle.std.specs.Prelude.{◌≡◌, ◌∷◌};
ghost use Rattle.text_num.specs.Fields.{cut_at, fields_behind};

use memchr::memchr;

/// The first field of a text, and the text behind the separator that ends it; no text where no separator stands in it.
pub fn cut_field(text: &[u8], separator: u8) -> (&[u8], Option<&[u8]>)
    ensures { cut_at separator text.now ≡ result.0.now ∷ fields_behind separator result.1 }
{
    match memchr(separator, text) {
        Some(at) => (&text[..at], Some(&text[at + 1..])),
        None => (text, None),
    }
}
