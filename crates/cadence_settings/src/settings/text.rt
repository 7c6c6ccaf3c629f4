//! Calls whose value is a text and no number: a member of a set, or a change of a gauge.
ghost use Rattle.std.specs.Prelude.{◌≡◌, [], IfErr, IfOk, IsTrue, OnOk};
ghost use Rattle.cadence_text.specs.Draft.{draft_with};
ghost use Rattle.cadence_text.specs.TextValue.{IsFitValue, value_kind, value_text};
ghost use Rattle.cadence_settings.specs.Call.{metric_for, plain_call};
ghost use Rattle.cadence_settings.specs.Settings.{allows_text};
ghost use Rattle.cadence_settings.specs.TextCalls.{TextDraftFails};

use super::{ClientSettings, OWN_BYTES};
use cadence_errors::{InputError, Reason};
use cadence_text::line::{DraftLine, TextValue};
use std::alloc::Allocator;

/// Which text of a call was refused, if the value of the call is a text: a member of a set, or a change of a gauge.
#[derive(Clone, Copy, Debug, PartialEq, Eq)]
pub enum UnfitText {
    /// The settings are strict, and the key has a colon, a comma, a bar or a newline.
    Key,
    /// The member of a set is empty, or has a colon, a bar or a newline.
    Member,
}

impl Reason for UnfitText {
    fn message(self) -> &'static str {
        match self {
            UnfitText::Key => "separator in a text",
            UnfitText::Member => "a member of a set is not empty, and has no colon, bar or newline",
        }
    }
}

/// Why the draft of a call with a text as its value was not made.
pub type TextError = InputError<UnfitText>;

impl<A: Allocator + Clone> ClientSettings<A> {
    /// Returns the draft of the line of a call without options, whose value is a text: a member of a set, or a change
    /// of a gauge. The draft begins with the prefix, and has the default tags and the default container. It is written
    /// into a buffer of the caller's, whose text is lost, with room for some tags of the call itself.
    ///
    /// # Errors
    /// `Unusable(UnfitText::Key)` if the settings are strict and the key has a separator, `Unusable(UnfitText::Member)`
    /// if the value is no member that a line can have, and otherwise `OutOfMemory`. After an error the buffer is freed.
    pub fn text_draft<'a>(
        &'a self,
        buffer: Vec<u8, A>,
        key: &str,
        value: &TextValue<'_>,
    ) -> Result<DraftLine<'a, A>, TextError>
        ensures draft { IfOk result (λ draft. draft ≡ draft_with (value_text value.now)
            (metric_for self.now (plain_call (value_kind value.now) key.now []))) }
        ensures allowed { OnOk result (IsTrue (allows_text self.now key.now)) }
        ensures fit { OnOk result (IsFitValue value.now) }
        ensures refused { IfErr result (TextDraftFails (allows_text self.now key.now) value.now) }
    {
        if !self.allows_text(key) {
            return Err(TextError::Unusable(UnfitText::Key));
        }
        if !value.is_fit() {
            return Err(TextError::Unusable(UnfitText::Member));
        }
        let key = self.key_text(key)?;
        let (tags, container) = (self.text.as_str(), self.default_container());
        let mut draft = DraftLine::of_text(
            buffer,
            &self.prefix,
            key.as_str(),
            value,
            tags,
            container,
            OWN_BYTES,
        )?;
        draft.set_enrichment(self.enrichment());
        Ok(draft)
    }
}
