//! The settings of a client: the prefix, the default tags, the default container and the enrichment that it adds to each
//! call, and the lines and drafts of calls with them. `enriching` sets the enrichment, `record` makes records of calls in place of lines, `strict` has the tests of strict
//! settings, `cleaning` has settings that clean texts, and `text` makes the drafts of calls whose value is a text.
mod cleaning;
mod enriching;
mod record;
mod strict;
mod text;

ghost use Rattle.std.specs.Prelude.{◌≡◌, [], IfOk, IfErr, IfSome, IsTrue, OnErr, OnOk, Some, string_bytes};
ghost use Rattle.std.specs.Option.{option_copied};
ghost use Rattle.cadence_text.specs.Cleaned.{tag_as};
ghost use Rattle.cadence_text.specs.Draft.{draft_of};
ghost use Rattle.cadence_text.specs.Line.{line_of, tags_field};
ghost use Rattle.cadence_text.specs.Owned.{tag_of_owned};
ghost use Rattle.cadence_text.specs.Representable.{IsRepresentable};
ghost use Rattle.cadence_value.specs.Values.{numbers_of};
ghost use Rattle.cadence_settings.specs.Settings.{client_prefix, without_dots, settings_of, with_default_tag, with_default_container};
ghost use Rattle.cadence_settings.specs.Settings.{FailsFor, allows_tag, allows_text};
ghost use Rattle.cadence_settings.specs.Call.{metric_for, metric_of_call, plain_call};
ghost use Rattle.cadence_settings.specs.KeptTexts.{kept_text};
ghost use Rattle.cadence_settings.specs.DraftErrors.{DraftFails};
ghost use Rattle.cadence_settings.specs.CallData.{line_of_data, metric_of_data};
ghost use Rattle.cadence_settings.specs.CallData.{LineFails};

use super::call::{Call, choose_all};
use cadence_errors::{MetricError, MetricResult};
use cadence_text::laws::cleaned_texts_are_clear;
use cadence_text::line::{
    Cardinality, DraftLine, Head, MetricType, OwnedTag, Tag, TagsText, cleaned, lend_tag,
};
use cadence_value::value::MetricValue;
pub use cleaning::{KeyText, key_text};
use std::alloc::{AllocError, Allocator, Global};
use std::marker::Model;
pub use strict::{DraftError, Separator, any_is_free, tag_is_clear, tags_are_clear, text_is_free};
pub use text::{TextError, UnfitText};

// How many bytes a draft reserves for the tags and other options of the call itself.
const OWN_BYTES: usize = 96;

// Returns the text without its trailing dots.
fn without_trailing_dots(prefix: &str) -> &str
    ensures { result.now ≡ without_dots prefix.now }
{
    let mut kept = prefix;
    while let Some(shorter) = kept.strip_suffix('.') {
        kept = shorter;
    }
    kept
}

/// Returns the prefix as each line begins with it: an empty one stays empty, and any other one loses its trailing dots
/// and gets one dot. The only error is that memory ran out.
pub fn formatted_prefix<A: Allocator>(alloc: A, prefix: &str) -> Result<String<A>, AllocError>
    ensures { IfOk result (λ s. string_bytes s ≡ client_prefix prefix.now) }
{
    if prefix.is_empty() {
        return String::from_str(alloc, "");
    }
    let kept = without_trailing_dots(prefix);
    let mut text = String::with_capacity(alloc, kept.len().saturating_add(1))?;
    text.push_str(kept)?;
    text.push('.')?;
    Ok(text)
}

/// What a client adds to each call: its prefix, its default tags, its default container and its enrichment. Settings can be strict: then
/// they refuse each text with a colon, a comma, a bar or a newline, so that no text can change another metric. The text
/// of a tag with a key may have colons, because the first colon of a tag ends its key. Or they can clean texts: then each
/// such separator is sent as an underscore.
///
/// Contracts see the value as a `Settings` of the definitions.
#[derive(Drop)]
pub struct ClientSettings<A: Allocator = Global> {
    prefix: String<A>,
    tags: Vec<OwnedTag<A>, A>,
    // The tags as a line has them, so that a call copies one text.
    text: TagsText<A>,
    container: Option<String<A>>,
    external: Option<String<A>>,
    cardinality: Option<Cardinality>,
    strict: bool,
    cleaned: bool,
}

impl<A: Allocator> Model for ClientSettings<A> {
    ghost use Rattle.cadence_settings.specs.Settings.{Settings};

    ghost Value = { Settings };

    ghost use Rattle.cadence_settings.specs.SettingsParts.{IsInOrder, settings_seen};

    ghost view = { settings_seen };

    ghost invariant = { IsInOrder };
}

impl<A: Allocator + Clone> ClientSettings<A> {
    ghost use Rattle.cadence_errors.specs.Errors.{Makes};

    /// Returns settings with this prefix, and without defaults. They are not strict.
    ///
    /// An empty prefix adds nothing to a name. Any other prefix loses its trailing dots, and then one dot is added. The
    /// Rust crate does so too.
    ///
    /// # Errors
    /// `SinkError::OutOfMemory`, and no other.
    pub fn new(alloc: A, prefix: &str) -> MetricResult<ClientSettings<A>>
        ensures { Makes (settings_of prefix.now) result }
    {
        Ok(ClientSettings {
            prefix: formatted_prefix(alloc.clone()?, prefix)?,
            text: TagsText::new(alloc.clone()?),
            tags: Vec::new(alloc),
            container: None,
            external: None,
            cardinality: None,
            strict: false,
            cleaned: false,
        })
    }

    // Returns whether the settings allow a text.
    fn allows_text(&self, text: &str) -> bool
        ensures { result ≡ allows_text self.now text.now }
    {
        !self.strict || text_is_free(text)
    }

    // Returns whether the settings allow a tag.
    fn allows_tag(&self, key: Option<&str>, text: &str) -> bool
        ensures { result ≡ allows_tag self.now
            (record { key = option_copied key.entry; text = text.now }) }
    {
        !self.strict || tag_is_clear(key, text)
    }

    /// Adds a default tag after those that the settings have: `key:text`, or `text` alone if `key` is `None`.
    ///
    /// # Errors
    /// An error of kind `InvalidInput` (`separator in a text`) if and only if the settings are strict and a text of the
    /// tag has a separator, other than a colon after a key. Otherwise `SinkError::OutOfMemory`. After an error the
    /// settings are unchanged.
    pub fn add_tag(&mut self, key: Option<&str>, text: &str) -> MetricResult<()>
        ensures ok { OnOk result (self.new ≡
            with_default_tag self.old (record { key = option_copied key.entry; text = text.now })) }
        ensures allowed { OnOk result (IsTrue
            (allows_tag self.old (record { key = option_copied key.entry; text = text.now }))) }
        ensures err { IfErr result (FailsFor
            (allows_tag self.old (record { key = option_copied key.entry; text = text.now }))) }
        ensures kept { OnErr result (self.new ≡ self.old) }
    {
        if !self.allows_tag(key, text) {
            return Err(MetricError::from(DraftError::Unusable(Separator)));
        }
        cleaned_texts_are_clear();
        let tag = self.kept_tag(key, text)?;
        self.tags.reserve(1)?;
        self.text.add(lend_tag(&tag), false)?;
        self.tags.push_reserved(tag);
        Ok(())
    }

    // Returns a copy of a text, which is cleaned if the settings clean texts. The only error is that memory ran out.
    fn kept_text(&self, text: &str, after_key: bool) -> Result<String<A>, AllocError>
        ensures { IfOk result (λ kept. string_bytes kept ≡
            kept_text self.now after_key text.now) }
    {
        let alloc = self.tags.allocator().clone()?;
        if self.cleaned {
            return cleaned(alloc, text, after_key);
        }
        String::from_str(alloc, text)
    }

    // Returns a copy of a tag, which is cleaned if the settings clean texts. The only error is that memory ran out.
    fn kept_tag(&self, key: Option<&str>, text: &str) -> Result<OwnedTag<A>, AllocError>
        ensures { IfOk result (λ kept. tag_of_owned kept ≡ tag_as (self.now).cleaned
            (record { key = option_copied key.entry; text = text.now })) }
    {
        match key {
            Some(key) => {
                let kept = self.kept_text(key, false)?;
                Ok((Some(kept), self.kept_text(text, true)?))
            }
            None => Ok((None, self.kept_text(text, false)?)),
        }
    }

    /// Sets the default container, which replaces an earlier one.
    ///
    /// # Errors
    /// An error of kind `InvalidInput` (`separator in a text`) if and only if the settings are strict and the container
    /// has a separator. Otherwise `SinkError::OutOfMemory`. After an error the settings are unchanged.
    pub fn set_container(&mut self, container: &str) -> MetricResult<()>
        ensures ok { OnOk result (self.new ≡ with_default_container self.old container.now) }
        ensures allowed { OnOk result (IsTrue (allows_text self.old container.now)) }
        ensures err { IfErr result (FailsFor (allows_text self.old container.now)) }
        ensures kept { OnErr result (self.new ≡ self.old) }
    {
        if !self.allows_text(container) {
            return Err(MetricError::from(DraftError::Unusable(Separator)));
        }
        cleaned_texts_are_clear();
        self.container = Some(self.kept_text(container, false)?);
        Ok(())
    }

    /// Returns the default container, or `None` if there is none.
    pub fn default_container(&self) -> Option<&str>
        ensures { option_copied result ≡ (self.now).container }
    {
        self.container.as_ref().map(|id| id.as_str())
    }

    /// Returns the text of the default tags as a line has it, such as `|#env:prod,beta`. It is empty if there are none.
    pub fn default_tags_text(&self) -> &str
        ensures { result.now ≡ tags_field (self.now).tags }
    {
        self.text.as_str()
    }

    /// Returns an empty list of tags, which takes its memory where the settings take theirs. It takes none before a tag
    /// is added. The only error is that memory for a copy of the allocator ran out.
    pub fn empty_tags<'t>(&self) -> Result<Vec<Tag<'t>, A>, AllocError>
        ensures { IfOk result (λ tags. tags.items ≡ []) }
    {
        Ok(Vec::new(self.tags.allocator().clone()?))
    }

    /// Returns the draft of the line of a call without options. The draft begins with the prefix and has the default
    /// tags and the default container, and room for some tags of the call itself. Its buffer is allocated at once.
    ///
    /// # Errors
    /// `Unusable(Separator)` if and only if the settings are strict and the key has a separator. Otherwise
    /// `OutOfMemory`.
    pub fn draft<'a>(
        &'a self,
        key: &str,
        kind: MetricType,
        value: MetricValue<A>,
    ) -> Result<DraftLine<'a, A>, DraftError>
        ensures draft { IfOk result (λ draft. draft ≡
            draft_of (metric_for self.now (plain_call kind key.now (numbers_of value)))) }
        ensures representable { OnOk result
            (IsRepresentable
            (metric_for self.now (plain_call kind key.now (numbers_of value)))) }
        ensures allowed { OnOk result (IsTrue (allows_text self.now key.now)) }
        ensures refused { IfErr result (DraftFails (allows_text self.now key.now)) }
    {
        if !self.allows_text(key) {
            return Err(DraftError::Unusable(Separator));
        }
        let key = self.key_text(key)?;
        Ok(self.draft_with(key.as_str(), kind, value, OWN_BYTES)?)
    }

    // Returns the draft of the line of a call without options, with room for `room` bytes of options. It neither
    // tests nor cleans a text.
    // Without this hint a call of `bench count` takes 134 instructions more.
    #[inline(always)]
    fn draft_with<'a>(
        &'a self,
        key: &str,
        kind: MetricType,
        value: MetricValue<A>,
        room: usize,
    ) -> Result<DraftLine<'a, A>, AllocError>
        ensures draft { IfOk result (λ draft. draft ≡
            draft_of (metric_of_call self.now (plain_call kind key.now (numbers_of value)))) }
        ensures representable { OnOk result
            (IsRepresentable
            (metric_of_call self.now (plain_call kind key.now (numbers_of value)))) }
    {
        let head = Head {
            prefix: &self.prefix,
            key,
            value,
            kind,
        };
        let alloc = self.tags.allocator().clone()?;
        let tags = self.text.as_str();
        let mut draft = DraftLine::new(alloc, &head, tags, self.default_container(), room)?;
        draft.set_enrichment(self.enrichment());
        Ok(draft)
    }

    /// Returns what `draft` returns, but writes it into a buffer of the caller's, whose text is lost. It takes memory
    /// only if the buffer is too short. The errors are those of `draft`, and after an error the buffer is freed.
    // Without this hint a counter with tags of `bindings/c/speed.c` takes 13 instructions more.
    #[inline(always)]
    pub fn draft_in_buffer<'a>(
        &'a self,
        buffer: Vec<u8, A>,
        key: &str,
        kind: MetricType,
        value: MetricValue<A>,
    ) -> Result<DraftLine<'a, A>, DraftError>
        ensures draft { IfOk result (λ draft. draft ≡
            draft_of (metric_for self.now (plain_call kind key.now (numbers_of value)))) }
        ensures allowed { OnOk result (IsTrue (allows_text self.now key.now)) }
        ensures refused { IfErr result (DraftFails (allows_text self.now key.now)) }
    {
        if !self.allows_text(key) {
            return Err(DraftError::Unusable(Separator));
        }
        let key = self.key_text(key)?;
        let head = Head {
            prefix: &self.prefix,
            key: key.as_str(),
            value,
            kind,
        };
        let tags = self.text.as_str();
        let mut draft = DraftLine::in_buffer(
            buffer,
            &head,
            tags,
            self.default_container(),
            OWN_BYTES,
        )?;
        draft.set_enrichment(self.enrichment());
        Ok(draft)
    }

    /// Returns the line of a call without options, with the prefix and the defaults of these settings. It takes memory
    /// by one request, of exactly the length of the line.
    ///
    /// # Errors
    /// Those of `draft`.
    // Without this hint a call of `bench count` takes 91 instructions more.
    #[inline(always)]
    pub fn line(
        &self,
        key: &str,
        kind: MetricType,
        value: MetricValue<A>,
    ) -> Result<String<A>, DraftError>
        ensures line { IfOk result (λ text. string_bytes text ≡
            line_of (metric_for self.now (plain_call kind key.now (numbers_of value)))) }
        ensures allowed { OnOk result (IsTrue (allows_text self.now key.now)) }
        ensures refused { IfErr result (DraftFails (allows_text self.now key.now)) }
    {
        if !self.allows_text(key) {
            return Err(DraftError::Unusable(Separator));
        }
        let key = self.key_text(key)?;
        let room = self.last_bytes();
        Ok(
            self.draft_with(key.as_str(), kind, value, room)?
                .into_text()?,
        )
    }

    /// Returns the line of a call that is kept as data, with the prefix and the defaults of these settings and the
    /// options of the call. It is made by the same drafts as the lines of a client's builder.
    ///
    /// # Errors
    /// An error of kind `InvalidInput` if and only if a duration of the call passes `u64::MAX` in the unit of its kind
    /// (`u64 overflow`), which is milliseconds for a timer and nanoseconds for a histogram, or the settings are strict
    /// and a text of the call has a separator (`separator in a text`), other than a colon after the key of a tag. If both
    /// are true, the error is the first one. Otherwise the only error is `SinkError::OutOfMemory`.
    pub fn line_of<'a>(&'a self, call: &'a Call<A>) -> MetricResult<String<A>>
        ensures line { IfOk result (λ line.
            line_of_data self.now call.now ≡ Some (string_bytes line)) }
        ensures refused { IfErr result (LineFails (line_of_data self.now call.now)) }
        ensures representable { OnOk result
            (IfSome (metric_of_data self.now call.now) IsRepresentable) }
    {
        let value = match self.value_of(call) {
            Ok(value) => value,
            Err(error) => return Err(error),
        };
        let key = self.key_text(&call.key)?;
        let mut draft = self.draft_with(key.as_str(), call.value.kind(), value, OWN_BYTES)?;
        choose_all(&mut draft, &call.options, self.cleaned)?;
        let line = draft.into_text()?;
        Ok(line)
    }
}
