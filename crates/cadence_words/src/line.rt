//! Writes the line of a metric from the words that ask for it.
ghost use Rattle.std.specs.Prelude.{◌∷◌, map, true};
ghost use Rattle.cadence_words.specs.Asked.{AreHead, words_of};
ghost use Rattle.cadence_words.specs.Finds.{FindsOrFails};
ghost use Rattle.cadence_words.specs.Lines.{IsLineOfGiven, IsLineOfText, IsLineOfWords, IsTextOf, said_text, words_as};
ghost use Rattle.cadence_words.specs.TagWords.{tag_words};
ghost use Rattle.cadence_words.specs.Heads.{said_of};

use crate::defaults::Defaults;
use crate::draft::write_value;
use crate::given::{Given, read_given};
use crate::level::write_level;
use crate::tags::{Tags, lend_words};
use crate::word_error::{Part, WordError};
use crate::words::{is_word, read_kind, split_word, utf8_text};
use cadence_text::line::cleaned;
use std::alloc::Allocator;

// Reads the kind and what is said of the value, and checks the name.
fn read_head<'a, A: Allocator + Clone>(
    alloc: &A,
    kind: &str,
    name: &str,
    value: &'a str,
) -> Result<Given<'a, A>, WordError>
    ensures { FindsOrFails (λ h. AreHead kind.now name.now value.now h.0 h.1) said_of result }
{
    let Some(kind) = read_kind(kind) else {
        return Err(WordError::Unusable(Part::Kind));
    };
    if !is_word(name) {
        return Err(WordError::Unusable(Part::Name));
    }
    read_given(alloc, kind, value)
}

// Writes what sends a value, or sets a gauge, with a name and tags into a buffer, in place of its text.
fn write_said<A: Allocator + Clone>(
    alloc: &A,
    defaults: &Defaults<A>,
    buffer: &mut Vec<u8, A>,
    name: &str,
    given: Given<'_, A>,
    tags: Tags<'_>,
) -> Result<(), WordError>
    ensures { FindsOrFails (IsTextOf defaults.now (said_text (said_of given.entry).1)
        (said_of given.entry).0 name.now (tag_words tags.entry)) (λ _. buffer.new.items) result }
{
    match given {
        Given::Value(value) => write_value(alloc, defaults, buffer, name, value, tags),
        Given::Level(kind, number) => {
            write_level(alloc, defaults, buffer, kind, name, number, tags)
        }
    }
}

// Writes the line of the metric of a kind, a name, a value and tags, as they are given, into a buffer, in place of its
// text.
fn write_given_line<A: Allocator + Clone>(
    alloc: &A,
    defaults: &Defaults<A>,
    buffer: &mut Vec<u8, A>,
    kind: &str,
    name: &str,
    value: &str,
    tags: Tags<'_>,
) -> Result<(), WordError>
    ensures { FindsOrFails (IsLineOfGiven defaults.now
        (kind.now ∷ name.now ∷ value.now ∷ tag_words tags.entry)) (λ _. buffer.new.items) result }
{
    let given = match read_head(alloc, kind, name, value) {
        Ok(given) => given,
        Err(error) => return Err(error),
    };
    write_said(alloc, defaults, buffer, name, given, tags)
}

// Writes the line of the metric of a kind, a name, a value and tags into a buffer, in place of its text. The name and
// the words of the tags are cleaned first.
#[cold]
fn write_cleaned_line<A: Allocator + Clone>(
    alloc: &A,
    defaults: &Defaults<A>,
    buffer: &mut Vec<u8, A>,
    kind: &str,
    name: &str,
    value: &str,
    tags: Tags<'_>,
) -> Result<(), WordError>
    ensures { FindsOrFails (IsLineOfGiven defaults.now (words_as true
        (kind.now ∷ name.now ∷ value.now ∷ tag_words tags.entry))) (λ _. buffer.new.items) result }
{
    let name = cleaned(alloc.clone()?, name, false)?;
    let words = tags.cleaned(alloc)?;
    let lent = lend_words(alloc.clone()?, &words)?;
    let tags = Tags::Words(&lent);
    write_given_line(alloc, defaults, buffer, kind, &name, value, tags)
}

// Writes the line of the metric of a kind, a name, a value and tags into a buffer, in place of its text.
fn write_line<A: Allocator + Clone>(
    alloc: &A,
    defaults: &Defaults<A>,
    buffer: &mut Vec<u8, A>,
    kind: &str,
    name: &str,
    value: &str,
    tags: Tags<'_>,
) -> Result<(), WordError>
    ensures { FindsOrFails (IsLineOfWords defaults.now
        (kind.now ∷ name.now ∷ value.now ∷ tag_words tags.entry)) (λ _. buffer.new.items) result }
{
    if defaults.settings.is_cleaned() {
        return write_cleaned_line(alloc, defaults, buffer, kind, name, value, tags);
    }
    write_given_line(alloc, defaults, buffer, kind, name, value, tags)
}

/// Writes the line of a metric into a buffer, in place of its text. The words are KIND NAME VALUE and any tags, and the
/// command line adds its defaults. If the settings clean texts, an underscore replaces each separator in the name and in
/// the tags, whose colons stay. The caller can use one buffer for many lines, and so save memory requests.
///
/// A `=` before the value of a gauge sets the gauge. If the value is below 0, the line of 0 and a newline come first.
///
/// # Errors
/// `Unusable` if the words ask for no metric, and `OutOfMemory`. If a tag is unreadable or memory runs out for the
/// line, the buffer is empty afterwards, and its memory is freed. After any other error the buffer is unchanged.
pub fn write_line_of_words<A: Allocator + Clone>(
    alloc: &A,
    defaults: &Defaults<A>,
    buffer: &mut Vec<u8, A>,
    words: &[&str],
) -> Result<(), WordError>
    ensures { FindsOrFails (IsLineOfWords defaults.now (map (λ w. w.now) words.now))
        (λ _. buffer.new.items) result }
{
    let [kind, name, value, tags @ ..] = words else {
        return Err(WordError::Unusable(Part::Words));
    };
    write_line(
        alloc,
        defaults,
        buffer,
        kind,
        name,
        value,
        Tags::Words(tags),
    )
}

// Writes the line of the metric that the words of a text ask for into a buffer, in place of its text.
fn write_line_of_str<A: Allocator + Clone>(
    alloc: &A,
    defaults: &Defaults<A>,
    buffer: &mut Vec<u8, A>,
    text: &str,
) -> Result<(), WordError>
    ensures { FindsOrFails (IsLineOfWords defaults.now (words_of text.now))
        (λ _. buffer.new.items) result }
{
    let Some((kind, after_kind)) = split_word(text) else {
        return Err(WordError::Unusable(Part::Words));
    };
    let Some((name, after_name)) = split_word(after_kind) else {
        return Err(WordError::Unusable(Part::Words));
    };
    let Some((value, tags)) = split_word(after_name) else {
        return Err(WordError::Unusable(Part::Words));
    };
    write_line(alloc, defaults, buffer, kind, name, value, Tags::Text(tags))
}

/// Writes the line of a metric into a buffer, in place of its text. The words KIND NAME VALUE and any tags are
/// separated by spaces, and the command line adds its defaults. If the settings clean texts, an underscore replaces each
/// separator in the name and in the tags, whose colons stay. A gauge is set as `write_line_of_words` sets it.
///
/// # Errors
/// `Unusable` if the text asks for no metric, and `OutOfMemory`. If a tag is unreadable or memory runs out for the
/// line, the buffer is empty afterwards, and its memory is freed. After any other error the buffer is unchanged.
pub fn write_line_of_text<A: Allocator + Clone>(
    alloc: &A,
    defaults: &Defaults<A>,
    buffer: &mut Vec<u8, A>,
    text: &[u8],
) -> Result<(), WordError>
    ensures { FindsOrFails (IsLineOfText defaults.now text.now) (λ _. buffer.new.items) result }
{
    let Some(text) = utf8_text(text) else {
        return Err(WordError::Unusable(Part::Text));
    };
    write_line_of_str(alloc, defaults, buffer, text)
}
