//! Cleaned texts, in which each separator is an underscore instead.
ghost use Rattle.std.specs.Prelude.{◌≡◌, IfOk, map, string_bytes};
ghost use Rattle.cadence_text.specs.Cleaned.{cleaned_byte, cleaned_text, stays};

use crate::line::separators::{is_no_separator, is_no_tag_end};
use std::alloc::{AllocError, Allocator};

// Returns whether a byte is no separator. If it follows the key of a tag, it may be a colon.
fn stays(after_key: bool, byte: u8) -> bool
    ensures { result ≡ stays after_key byte }
{
    if after_key {
        is_no_tag_end(byte)
    } else {
        is_no_separator(byte)
    }
}

// Returns the byte, or an underscore in place of a separator.
#[tactic(auto, unfolding(crate::specs::Cleaned::cleaned_byte))]
fn cleaned_byte(after_key: bool, byte: u8) -> u8
    ensures { result ≡ cleaned_byte after_key byte }
{
    if stays(after_key, byte) {
        return byte;
    }
    b'_'
}

// Puts an underscore in place of each separator.
pub(crate) fn clean(text: &mut [u8], after_key: bool)
    ensures { text.new ≡ map (cleaned_byte after_key) text.old }
{
    for i in 0..text.len() {
        let byte = text[i];
        text[i] = cleaned_byte(after_key, byte);
    }
}

/// Returns the text with an underscore in place of each colon, comma, bar and newline. If the text follows the key of a
/// tag (`after_key`), colons stay, because the first colon of a tag ends the key. A text without separators is returned
/// as it is. The only error is that memory ran out; it takes memory once, as many bytes as the text has.
pub fn cleaned<A: Allocator>(alloc: A, text: &str, after_key: bool) -> Result<String<A>, AllocError>
    ensures { IfOk result (λ made. string_bytes made ≡ cleaned_text after_key text.now) }
{
    let mut bytes = Vec::from_slice(alloc, text.as_bytes())?;
    clean(&mut bytes, after_key);
    Ok(unsafe { String::from_utf8_unchecked(bytes) })
}
