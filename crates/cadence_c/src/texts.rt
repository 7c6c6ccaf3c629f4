//! The calls of C that make the texts of settings and test texts. They need no client, and threads may make them at the
//! same time.
ghost use Rattle.std.specs.Prelude.{◌≡◌, [], ◌∷◌, All, IfOk, IsFalse, IsTrue, map, false, true};
ghost use Rattle.std.specs.Str.{IsUtf8};
ghost use Rattle.cadence_text.specs.Cleaned.{cleaned_text, text_as};
ghost use Rattle.cadence_text.specs.FreeTexts.{is_free_text};
ghost use Rattle.cadence_text.specs.Line.{tags_field};
ghost use Rattle.cadence_settings.specs.Settings.{client_prefix};
ghost use Rattle.cadence_host.specs.Calls.{IsUtf8Tag, c_tag_as};
ghost use Rattle.cadence_c.specs.Results.{WritesText};
ghost use Rattle.cadence_host.specs.Status.{CADENCE_NOT_UTF8, CADENCE_OK, CADENCE_SEPARATOR, IsOkOr};
ghost use Rattle.cadence_host.specs.Texts.{allows_prefix, allows_tags};

use cadence_host::call::{CTag, are_clear_tags, are_tags, known_tag, text_of};
use cadence_host::status::{OK, StatusError, copy_out};
use cadence_settings::{formatted_prefix, key_text, text_is_free};
use cadence_text::line::{TagsText, cleaned};
use std::alloc::{AllocError, Global};

/// Tests a text: whether it is UTF-8, and then whether it has no separator.
#[unsafe(no_mangle)]
pub extern "C" fn cadence_test_text(_alloc: Global, text: &[u8]) -> u32
    ensures free { result ≡ CADENCE_OK → IsTrue (is_free_text text.now) }
    ensures unfree { result ≡ CADENCE_SEPARATOR → IsFalse (is_free_text text.now) }
    ensures text { result ≡ CADENCE_NOT_UTF8 → IsUtf8 text.now → ⊥ }
    ensures statuses { IsOkOr (CADENCE_NOT_UTF8 ∷ CADENCE_SEPARATOR ∷ []) result }
{
    let Some(text) = text_of(text) else {
        return StatusError::NotUtf8.code();
    };
    if !text_is_free(text) {
        return StatusError::Separator.code();
    }
    OK
}

/// Writes a cleaned text into the first bytes of `out`, and its length into `size`: each separator is an underscore.
#[unsafe(no_mangle)]
pub extern "C" fn cadence_cleaned_text(
    alloc: Global,
    text: &[u8],
    out: &mut [u8],
    size: &mut usize,
) -> u32
    ensures written { WritesText result (cleaned_text false text.now) true out.new size.new }
    ensures text { result ≡ CADENCE_NOT_UTF8 → IsUtf8 text.now → ⊥ }
{
    *size = 0;
    let Some(text) = text_of(text) else {
        return StatusError::NotUtf8.code();
    };
    let Ok(text) = cleaned(alloc, text, false) else {
        return StatusError::NoMemory.code();
    };
    copy_out(text.as_str().as_bytes(), out, size)
}

/// Writes a prefix as each line begins with it into the first bytes of `out`, and its length into `size`. It is cleaned if
/// `is_cleaned` is set.
#[unsafe(no_mangle)]
pub extern "C" fn cadence_prefix_text(
    alloc: Global,
    prefix: &[u8],
    strict: bool,
    is_cleaned: bool,
    out: &mut [u8],
    size: &mut usize,
) -> u32
    ensures written { WritesText result (text_as is_cleaned (client_prefix prefix.now))
        (allows_prefix strict prefix.now) out.new size.new }
    ensures text { result ≡ CADENCE_NOT_UTF8 → IsUtf8 prefix.now → ⊥ }
{
    *size = 0;
    let Some(prefix) = text_of(prefix) else {
        return StatusError::NotUtf8.code();
    };
    let Ok(text) = formatted_prefix(alloc, prefix) else {
        return StatusError::NoMemory.code();
    };
    if strict && !text_is_free(text.as_str()) {
        return StatusError::Separator.code();
    }
    let Ok(text) = key_text(&alloc, text.as_str(), is_cleaned) else {
        return StatusError::NoMemory.code();
    };
    copy_out(text.as_str().as_bytes(), out, size)
}

// Returns the text of tags, with cleaned texts if `is_cleaned` is set. The error is that memory ran out.
fn text_of_tags(alloc: Global, tags: &[CTag<'_>], is_cleaned: bool) -> Result<TagsText, AllocError>
    requires { All IsUtf8Tag tags.now }
    ensures { IfOk result (λ text. text ≡ tags_field (map (c_tag_as is_cleaned) tags.now)) }
{
    let mut text = TagsText::new(alloc);
    for tag in tags {
        text.add(known_tag(tag), is_cleaned)?;
    }
    Ok(text)
}

/// Writes the text of default tags into the first bytes of `out`, and its length into `size`. Their texts are cleaned if
/// `is_cleaned` is set.
#[unsafe(no_mangle)]
pub extern "C" fn cadence_tags_text(
    alloc: Global,
    tags: &[CTag<'_>],
    strict: bool,
    is_cleaned: bool,
    out: &mut [u8],
    size: &mut usize,
) -> u32
    ensures written { WritesText result (tags_field (map (c_tag_as is_cleaned) tags.now))
        (allows_tags strict tags.now) out.new size.new }
    ensures text { result ≡ CADENCE_NOT_UTF8 → All IsUtf8Tag tags.now → ⊥ }
{
    *size = 0;
    if !are_tags(tags) {
        return StatusError::NotUtf8.code();
    }
    if strict && !are_clear_tags(tags) {
        return StatusError::Separator.code();
    }
    let Ok(text) = text_of_tags(alloc, tags, is_cleaned) else {
        return StatusError::NoMemory.code();
    };
    copy_out(text.as_str().as_bytes(), out, size)
}
