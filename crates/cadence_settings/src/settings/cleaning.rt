//! Settings that clean texts: each separator in a text of a call is sent as an underscore.
ghost use Rattle.std.specs.Prelude.{◌≡◌, IfOk, IsTrue, OnErr, OnOk, map, string_bytes, true};
ghost use Rattle.std.specs.Option.{option_copied, option_map};
ghost use Rattle.cadence_errors.specs.Errors.{MayOnlyRunOutOfMemory};
ghost use Rattle.cadence_settings.specs.KeptTexts.{key_text};
ghost use Rattle.cadence_settings.specs.Settings.{is_clear_settings, with_cleaned_texts};
ghost use Rattle.cadence_text.specs.Cleaned.{cleaned_tag, container_as, text_as};
ghost use Rattle.cadence_text.specs.Line.{tags_field};
ghost use Rattle.cadence_text.specs.Owned.{tag_of_owned};

use super::ClientSettings;
use cadence_errors::MetricResult;
use cadence_text::laws::cleaned_texts_are_clear;
use cadence_text::line::{OwnedTag, TagsText, cleaned, lend_tag};
use std::alloc::{AllocError, Allocator, Global};

/// The key of a call as its line has it: the caller's text, or a cleaned copy of it.
#[derive(Drop)]
pub enum KeyText<'k, A: Allocator = Global> {
    /// The caller's text.
    Given(&'k str),
    /// A copy with an underscore in place of each separator.
    Cleaned(String<A>),
}

impl<A: Allocator> KeyText<'_, A> {
    /// Returns the text.
    pub fn as_str(&self) -> &str
        ensures { result.now ≡ key_text self.now }
    {
        match self {
            KeyText::Given(text) => text,
            KeyText::Cleaned(text) => text.as_str(),
        }
    }
}

/// Returns a key as it is, or a cleaned copy of it if `is_cleaned` is set, which takes memory once. The only error is that
/// memory ran out.
#[inline(always)]
pub fn key_text<'k, A: Allocator + Clone>(
    alloc: &A,
    key: &'k str,
    is_cleaned: bool,
) -> Result<KeyText<'k, A>, AllocError>
    ensures { IfOk result (λ made. key_text made ≡ text_as is_cleaned key.now) }
{
    if !is_cleaned {
        return Ok(KeyText::Given(key));
    }
    Ok(KeyText::Cleaned(cleaned(alloc.clone()?, key, false)?))
}

// Returns a copy of a tag with cleaned texts. The only error is that memory ran out.
fn cleaned_tag<A: Allocator + Clone>(
    alloc: &A,
    tag: &OwnedTag<A>,
) -> Result<OwnedTag<A>, AllocError>
    ensures { IfOk result (λ made. tag_of_owned made ≡ cleaned_tag (tag_of_owned tag.now)) }
{
    match &tag.0 {
        Some(key) => {
            let key = cleaned(alloc.clone()?, key, false)?;
            Ok((Some(key), cleaned(alloc.clone()?, &tag.1, true)?))
        }
        None => Ok((None, cleaned(alloc.clone()?, &tag.1, false)?)),
    }
}

// Returns a cleaned copy of a container, if there is one. The only error is that memory ran out.
fn cleaned_container<A: Allocator>(
    alloc: A,
    container: Option<&str>,
) -> Result<Option<String<A>>, AllocError>
    ensures { IfOk result (λ made. option_map string_bytes made ≡
        container_as true (option_copied container.entry)) }
{
    match container {
        Some(container) => Ok(Some(cleaned(alloc, container, false)?)),
        None => Ok(None),
    }
}

// Returns the tags with cleaned texts, and their text in a line. The only error is that memory ran out.
fn cleaned_tags<A: Allocator + Clone>(
    alloc: A,
    text_alloc: A,
    tags: &[OwnedTag<A>],
) -> Result<(Vec<OwnedTag<A>, A>, TagsText<A>), AllocError>
    ensures tags { IfOk result (λ made. map tag_of_owned made.0.items ≡
        map cleaned_tag (map tag_of_owned tags.now)) }
    ensures text { IfOk result (λ made. made.1 ≡ tags_field (map tag_of_owned made.0.items)) }
{
    let mut made = Vec::new(alloc);
    let mut text = TagsText::new(text_alloc);
    for tag in tags {
        let cleaned = cleaned_tag(made.allocator(), tag)?;
        text.add(lend_tag(&cleaned), false)?;
        made.push(cleaned)?;
    }
    Ok((made, text))
}

impl<A: Allocator + Clone> ClientSettings<A> {
    // Returns the key as a line has it. The only error is that memory ran out.
    #[inline(always)]
    pub(super) fn key_text<'k>(&self, key: &'k str) -> Result<KeyText<'k, A>, AllocError>
        ensures { IfOk result (λ made. key_text made ≡ text_as (self.now).cleaned key.now) }
    {
        key_text(self.tags.allocator(), key, self.cleaned)
    }

    /// Makes settings that clean texts, in place of strict ones: from then on each colon, comma, bar and newline in a
    /// key, a tag or a container is sent as an underscore, so that no text of a call can make, change or split a
    /// metric. Colons stay in the text of a tag with a key, because the first colon of a tag ends its key. The prefix,
    /// the default tags and the default container are cleaned too. A text without separators is sent as it is.
    ///
    /// # Errors
    /// `SinkError::OutOfMemory`, and no other. Then the settings are unchanged.
    pub fn set_cleaned(&mut self) -> MetricResult<()>
        ensures ok { OnOk result (self.new ≡ with_cleaned_texts self.old) }
        ensures refused { MayOnlyRunOutOfMemory result }
        ensures kept { OnErr result (self.new ≡ self.old) }
    {
        cleaned_texts_are_clear();
        let alloc = self.tags.allocator().clone()?;
        let prefix = cleaned(alloc.clone()?, &self.prefix, false)?;
        let container = cleaned_container(alloc.clone()?, self.default_container())?;
        let (tags, text) = cleaned_tags(alloc.clone()?, alloc, &self.tags)?;
        self.prefix = prefix;
        self.tags = tags;
        self.text = text;
        self.container = container;
        self.strict = false;
        self.cleaned = true;
        Ok(())
    }

    /// Returns whether the settings clean texts.
    pub fn is_cleaned(&self) -> bool
        ensures cleaned { result ≡ (self.now).cleaned }
        ensures clear { IsTrue result → IsTrue (is_clear_settings self.now) }
    {
        self.cleaned
    }
}
