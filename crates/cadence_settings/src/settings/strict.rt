//! Strict settings: the tests of texts for separators, and the error of a text that has one.
ghost use Rattle.std.specs.Prelude.{◌≡◌, IfErr, IsFalse, IsTrue, OnOk, OnErr, Some, map, option_copied};
ghost use Rattle.std.specs.List.{list_all};
ghost use Rattle.cadence_errors.specs.Errors.{IsInvalid};
ghost use Rattle.cadence_text.specs.Owned.{tag_of_owned};
ghost use Rattle.cadence_text.specs.FreeTexts.{is_free_if_any, is_clear_tag, is_free_text};
ghost use Rattle.cadence_text.specs.Record.{tag_of};

use super::ClientSettings;
use super::enriching::external_is_field;
use crate::call::Call;
use cadence_errors::{ErrorKind, InputError, MetricError, MetricResult, Reason};
use cadence_text::line::{OwnedTag, Tag, is_free, is_free_after_key, lend_tag};
use cadence_value::value::MetricValue;
use std::alloc::Allocator;

/// The settings are strict, and a text has a colon, a comma, a bar or a newline. The text of a tag with a key may have
/// colons.
#[derive(Clone, Copy, Debug, PartialEq, Eq)]
pub struct Separator;

impl Reason for Separator {
    ghost use Rattle.cadence_settings.specs.Settings.{separator_text};

    ghost said = { λ _. Some separator_text };

    fn message(self) -> &'static str {
        "separator in a text"
    }
}

/// Why the draft or the line of a call was not made: `Unusable(Separator)` or `OutOfMemory`. It is `OutOfMemory` also if
/// the length of the line passes `usize::MAX`.
pub type DraftError = InputError<Separator>;

/// Returns whether a text has no colon, comma, bar or newline.
pub fn text_is_free(text: &str) -> bool
    ensures { result ≡ is_free_text text.now }
{
    is_free(text.as_bytes())
}

/// Returns whether a text has no separator, if there is a text.
pub fn any_is_free(text: Option<&str>) -> bool
    ensures { result ≡ is_free_if_any (option_copied text.entry) }
{
    match text {
        Some(text) => text_is_free(text),
        None => true,
    }
}

/// Returns whether a tag can be read in one way only. With a key, the key must have no colon, comma, bar or newline, and
/// the text no comma, bar or newline: the first colon of a tag ends its key. Without a key, the text must have none of
/// the four.
pub fn tag_is_clear(key: Option<&str>, text: &str) -> bool
    ensures { result ≡ is_clear_tag (record { key = option_copied key.entry; text = text.now }) }
{
    match key {
        Some(key) => text_is_free(key) && is_free_after_key(text.as_bytes()),
        None => text_is_free(text),
    }
}

// Returns whether a tag is clear: it has no separator, except colons after its key.
fn is_clear(tag: &Tag<'_>) -> bool
    ensures { result ≡ is_clear_tag (tag_of tag.now) }
{
    tag_is_clear(tag.key, tag.text)
}

/// Returns whether each tag of the list is clear, as `tag_is_clear` says of one.
pub fn tags_are_clear(tags: &[Tag<'_>]) -> bool
    ensures { result ≡ list_all is_clear_tag (map tag_of tags.now) }
{
    for tag in tags {
        if !is_clear(tag) {
            return false;
        }
    }
    true
}

// Returns whether each tag that settings own is clear.
fn own_tags_are_clear<A: Allocator>(tags: &[OwnedTag<A>]) -> bool
    ensures { result ≡ list_all is_clear_tag (map tag_of_owned tags.now) }
{
    for owned in tags {
        let tag = lend_tag(owned);
        if !tag_is_clear(tag.key, tag.text) {
            return false;
        }
    }
    true
}

// Returns the error of a call that strict settings refuse: the error of its value, if the value doesn't fit, and
// otherwise that of the separator.
#[cold]
fn unclear_error<V: Drop>(value: MetricResult<V>) -> MetricError
    ensures { IsInvalid result }
{
    match value {
        Err(MetricError::Described(ErrorKind::InvalidInput, text)) => {
            MetricError::Described(ErrorKind::InvalidInput, text)
        }
        _ => MetricError::from(DraftError::Unusable(Separator)),
    }
}

impl<A: Allocator + Clone> ClientSettings<A> {
    ghost use Rattle.cadence_value.specs.Values.{Converts};
    ghost use Rattle.cadence_settings.specs.CallData.{numbers_of_data};
    ghost use Rattle.cadence_settings.specs.Settings.{HasSeparator, allows_text, is_clear_settings, with_strict_texts};

    /// Makes the settings strict. From then on each call, default tag and default container with a separator in a text
    /// is refused: a colon, a comma, a bar or a newline. Colons are allowed in the text of a tag with a key, because the
    /// first colon of a tag ends its key. So no text of a call can make, change or split a metric.
    ///
    /// # Errors
    /// An error of kind `InvalidInput` (`separator in a text`) if and only if the prefix, a default tag or the default
    /// container has a separator that is not allowed there. Then the settings are unchanged.
    pub fn set_strict(&mut self) -> MetricResult<()>
        ensures ok { OnOk result (self.new ≡ with_strict_texts self.old) }
        ensures clear { OnOk result (IsTrue (is_clear_settings self.old)) }
        ensures err { IfErr result HasSeparator }
        ensures unclear { OnErr result (IsFalse (is_clear_settings self.old)) }
        ensures kept { OnErr result (self.new ≡ self.old) }
    {
        if !self.is_clear() {
            return Err(MetricError::from(DraftError::Unusable(Separator)));
        }
        self.strict = true;
        self.cleaned = false;
        Ok(())
    }

    /// Returns whether the settings are strict.
    pub fn is_strict(&self) -> bool
        ensures strict { result ≡ self.now.strict }
        ensures clear { IsTrue result → IsTrue (is_clear_settings self.now) }
    {
        self.strict
    }

    // Returns whether no text of the settings has a separator, except colons after the keys of tags.
    fn is_clear(&self) -> bool
        ensures { result ≡ is_clear_settings self.now }
    {
        if !text_is_free(&self.prefix) || !own_tags_are_clear(&self.tags) {
            return false;
        }
        any_is_free(self.default_container()) && external_is_field(self.enrichment())
    }

    /// Returns the error of a call without options whose value could not be made because of `error`. That is `error`
    /// itself if the settings allow the key, or if `error` says that the value doesn't fit. Otherwise it is the error
    /// of kind `InvalidInput` (`separator in a text`). So strict settings refuse a key in the same way if memory ran
    /// out for the value.
    #[cold]
    pub fn value_error(&self, key: &str, error: MetricError) -> MetricError
        ensures allowed { IsTrue (allows_text self.now key.now) → result ≡ error }
        ensures refused { IsFalse (allows_text self.now key.now) → IsInvalid result }
    {
        if self.allows_text(key) {
            return error;
        }
        unclear_error::<()>(Err(error))
    }

    // Returns the value of a call. If the settings don't allow the call, the error is of kind `InvalidInput`.
    pub(super) fn value_of(&self, call: &Call<A>) -> MetricResult<MetricValue<A>>
        ensures { Converts (numbers_of_data self.now call.now) result }
    {
        let value = call.value.convert();
        if self.strict && !call.is_clear() {
            return Err(unclear_error(value));
        }
        value
    }
}
