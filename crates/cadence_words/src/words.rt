//! Splits a line into words, and reads single words.
ghost use Rattle.std.specs.Prelude.{◌≡◌, ◌↔◌, ◌==◌, ◌∷◌, [], IfNone, IfOk, IfSome, IsTrue, map};
ghost use Rattle.std.specs.List.{slice_split};
ghost use Rattle.std.specs.Option.{option_map};
ghost use Rattle.std.specs.Str.{IsUtf8};
ghost use Rattle.cadence_words.specs.Asked.{IsTagWord, IsWord, NamesKind, words_of};
ghost use Rattle.cadence_value.specs.Finds.{Finds};
ghost use Rattle.cadence_text.specs.Record.{tag_of};

use cadence_text::line::{MetricType, Tag, is_free, is_free_after_key};
use cadence_value::bytes::split_text_once;
use std::alloc::{AllocError, Allocator};
use std::str;

/// Returns whether a text is not empty and has no separator.
pub fn is_word(text: &str) -> bool
    ensures { IsTrue result ↔ IsWord text.now }
{
    !text.is_empty() && is_free(text.as_bytes())
}

// Returns the kind of metric that a word names: by its type text, as `c`, or by its name, as `count`.
pub(crate) fn read_kind(word: &str) -> Option<MetricType>
    ensures { Finds (NamesKind word.now) result }
{
    if let Some(kind) = MetricType::from_text(word.as_bytes()) {
        return Some(kind);
    }
    match word {
        "count" => Some(MetricType::Counter),
        "time" => Some(MetricType::Timer),
        "gauge" => Some(MetricType::Gauge),
        "meter" => Some(MetricType::Meter),
        "histogram" => Some(MetricType::Histogram),
        "set" => Some(MetricType::Set),
        "distribution" => Some(MetricType::Distribution),
        _ => None,
    }
}

// Returns the bytes as a text if they are UTF-8. Most bytes are ASCII, and the test for ASCII is faster.
pub(crate) fn utf8_text(bytes: &[u8]) -> Option<&str>
    ensures text { IfSome result (λ t. (t.now ≡ bytes.now) × IsUtf8 bytes.now) }
    ensures none { IfNone result (IsUtf8 bytes.now → ⊥) }
{
    if bytes.is_ascii() {
        return Some(unsafe { str::from_utf8_unchecked(bytes) });
    }
    str::from_utf8(bytes).ok()
}

/// Returns the tag that a word is: a key and a text with a colon between them, or a text alone. The first colon ends the
/// key, and the text may have more. Returns `None` if the word is empty, or has a comma, a bar or a newline.
pub fn read_tag(word: &str) -> Option<Tag<'_>>
    ensures { Finds (IsTagWord word.now) (option_map tag_of result) }
{
    if word.is_empty() {
        return None;
    }
    let Some((key, text)) = split_text_once(word, b':') else {
        if !is_free(word.as_bytes()) {
            return None;
        }
        return Some(Tag {
            key: None,
            text: word,
        });
    };
    if !is_free(key.as_bytes()) {
        return None;
    }
    if !is_free_after_key(text.as_bytes()) {
        return None;
    }
    Some(Tag {
        key: Some(key),
        text,
    })
}

// Returns the first word of a text, and the text after it.
pub(crate) fn split_word(text: &str) -> Option<(&str, &str)>
    ensures none { IfNone result (words_of text.now ≡ []) }
    ensures some { IfSome result
        (λ parts. words_of text.now ≡ parts.0.now ∷ words_of parts.1.now) }
{
    let mut left = text;
    while let Some((word, others)) = split_text_once(left, b' ') {
        if !word.is_empty() {
            return Some((word, others));
        }
        left = others;
    }
    if left.is_empty() {
        return None;
    }
    Some((left, ""))
}

// Returns the items between the commas of a text.
pub(crate) fn split_items<A: Allocator>(alloc: A, text: &str) -> Result<Vec<&str, A>, AllocError>
    ensures { IfOk result (λ items.
        map (λ w. w.now) items.items ≡ slice_split (λ b. b == 44) text.now) }
{
    text.split(',').collect(alloc)
}
