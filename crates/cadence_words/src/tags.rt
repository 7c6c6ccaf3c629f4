//! The words of a metric's tags: adds the tags to a draft, and makes cleaned copies of the words.
ghost use Rattle.std.specs.Prelude.{◌≡◌, IfOk, map, string_bytes, true};
ghost use Rattle.cadence_text.specs.Cleaned.{cleaned_text};
ghost use Rattle.cadence_words.specs.Asked.{AddsTag, AddsTags, words_of};
ghost use Rattle.cadence_words.specs.TagWords.{tag_words};

use crate::word_error::{Part, WordError};
use crate::words::{read_tag, split_word};
use cadence_text::line::{DraftLine, cleaned};
use std::alloc::{AllocError, Allocator};

// Adds the tag that a word says.
fn add_tag<A: Allocator>(draft: &mut DraftLine<'_, A>, word: &str) -> Result<(), WordError>
    ensures { AddsTag word.now draft.old draft.new result }
{
    let Some(tag) = read_tag(word) else {
        return Err(WordError::Unusable(Part::Tag));
    };
    draft.add_tag(tag)?;
    Ok(())
}

// Adds the tags that the words say.
fn add_tags<A: Allocator>(draft: &mut DraftLine<'_, A>, words: &[&str]) -> Result<(), WordError>
    ensures { AddsTags (map (λ w. w.now) words.now) draft.old draft.new result }
{
    for word in words {
        add_tag(draft, word)?;
    }
    Ok(())
}

// Adds the tags that the words of a text say.
fn add_all<A: Allocator>(draft: &mut DraftLine<'_, A>, text: &str) -> Result<(), WordError>
    ensures { AddsTags (words_of text.now) draft.old draft.new result }
{
    let mut left = text;
    while let Some((word, others)) = split_word(left) {
        add_tag(draft, word)?;
        left = others;
    }
    Ok(())
}

// Returns cleaned copies of the words. The only error is that memory ran out.
fn cleaned_words<A: Allocator + Clone>(
    alloc: &A,
    words: &[&str],
) -> Result<Vec<String<A>, A>, AllocError>
    ensures { IfOk result (λ made. map string_bytes made.items ≡
        map (cleaned_text true) (map (λ w. w.now) words.now)) }
{
    let mut made = Vec::new(alloc.clone()?);
    for word in words {
        let copy = cleaned(alloc.clone()?, word, true)?;
        made.push(copy)?;
    }
    Ok(made)
}

// Returns cleaned copies of the words of a text. The only error is that memory ran out.
fn cleaned_words_of<A: Allocator + Clone>(
    alloc: &A,
    text: &str,
) -> Result<Vec<String<A>, A>, AllocError>
    ensures { IfOk result (λ made. map string_bytes made.items ≡
        map (cleaned_text true) (words_of text.now)) }
{
    let mut made = Vec::new(alloc.clone()?);
    let mut left = text;
    while let Some((word, others)) = split_word(left) {
        let copy = cleaned(alloc.clone()?, word, true)?;
        made.push(copy)?;
        left = others;
    }
    Ok(made)
}

// Returns the texts of the words as borrowed ones. The only error is that memory ran out.
pub(crate) fn lend_words<A: Allocator>(
    alloc: A,
    words: &[String<A>],
) -> Result<Vec<&str, A>, AllocError>
    ensures { IfOk result (λ lent. map (λ w. w.now) lent.items ≡ map string_bytes words.now) }
{
    let mut lent = Vec::new(alloc);
    for word in words {
        lent.push(word.as_str())?;
    }
    Ok(lent)
}

// The words of the tags.
#[derive(Clone, Copy)]
pub(crate) enum Tags<'a> {
    // A list of words.
    Words(&'a [&'a str]),
    // The words between the spaces of a text.
    Text(&'a str),
}

impl Tags<'_> {
    // Adds the tags to a draft.
    pub(crate) fn add_to<A: Allocator>(self, draft: &mut DraftLine<'_, A>) -> Result<(), WordError>
        ensures { AddsTags (tag_words self.entry) draft.old draft.new result }
    {
        match self {
            Tags::Words(words) => add_tags(draft, words),
            Tags::Text(text) => add_all(draft, text),
        }
    }

    // Returns cleaned copies of the words. The only error is that memory ran out.
    pub(crate) fn cleaned<A: Allocator + Clone>(
        self,
        alloc: &A,
    ) -> Result<Vec<String<A>, A>, AllocError>
        ensures { IfOk result (λ made. map string_bytes made.items ≡
            map (cleaned_text true) (tag_words self.entry)) }
    {
        match self {
            Tags::Words(words) => cleaned_words(alloc, words),
            Tags::Text(text) => cleaned_words_of(alloc, text),
        }
    }
}
