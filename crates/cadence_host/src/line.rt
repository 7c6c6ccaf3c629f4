//! The line of a call: the test of what the call says, the draft with the texts of the settings, and the options in the
//! line.
ghost use Rattle.std.specs.Prelude.{◌≡◌, [], ◌∷◌, All, IfOk, IsFalse, IsTrue, List, OnOk, Some, false, if◌then◌else◌, true, ℕ, ⊤};
ghost use Rattle.std.specs.Option.{option_or};
ghost use Rattle.cadence_settings.specs.Settings.{Settings};
ghost use Rattle.cadence_text.specs.Cleaned.{text_as};
ghost use Rattle.cadence_text.specs.Draft.{draft_with};
ghost use Rattle.cadence_text.specs.Line.{line_with};
ghost use Rattle.cadence_text.specs.Metric.{Metric};
ghost use Rattle.cadence_text.specs.TextValue.{value_kind, value_text};
ghost use Rattle.cadence_value.specs.Number.{numbers_text};
ghost use Rattle.cadence_value.specs.Values.{numbers_of};
ghost use Rattle.cadence_host.specs.Status.{status, CADENCE_INVALID, CADENCE_NOT_UTF8, CADENCE_SEPARATOR, IsOkOr};
ghost use Rattle.cadence_host.specs.Calls.{AreCardinalities, IsUtf8Options, IsInvalidCall, IsRateOf, IsUtf8Call, IsUtf8IfKnown, IsUtf8Tag, kind_named, with_c_cardinality, with_c_tags, with_options};
ghost use Rattle.cadence_host.specs.Texts.{AreTextsOf, HasTextsOf, IsUtf8Settings, allows_c_call};
ghost use Rattle.cadence_host.specs.Tested.{IsLineOfTested};
ghost use Rattle.cadence_text.specs.declared.line.MetricType.{MetricType};

use crate::call::{
    COptions, CTag, HIGH, are_texts, cardinality_of, kind_of, known_tag, rate_of, read_text,
};
use crate::settings::{CSettings, Texts, allows_c_call, read_settings};
use crate::status::StatusError;
use cadence_text::line::{DraftLine, Head, MetricType, TextValue};
use cadence_value::decimal::Decimal;
use cadence_value::value::MetricValue;
use std::alloc::{AllocError, Global};
use std::str;

/// The texts, the kind and the rate of a call whose texts and numbers passed their tests, and whether its texts are cleaned.
/// Its value is tested elsewhere.
#[derive(Clone, Copy)]
pub struct TestedCall<'a> {
    pub texts: Texts<'a>,
    pub key: &'a str,
    pub kind: MetricType,
    pub rate: Option<Decimal>,
    pub is_cleaned: bool,
}

/// Tests a call: the texts of its settings, its key, its kind, the texts of its options, its rate, the cardinalities of
/// the settings and of the options, and the separators in these texts if the settings are strict, in this order. The
/// error is `NotUtf8` if a text is not UTF-8, `Invalid` if the kind or a cardinality is unknown or the rate has more
/// than 30 places, and `Separator` if the settings are strict and the key or a text of the options has a separator, other
/// than a colon after the key of a tag. The line is begun only after this test, so a call that fails it takes no memory.
// Without this hint a counter of `bindings/c/speed.c` takes 40 instructions more.
#[inline(always)]
pub fn test_call<'a>(
    settings: &CSettings<'a>,
    kind: u32,
    key: &'a [u8],
    options: &COptions<'_>,
) -> Result<TestedCall<'a>, StatusError>
    requires settings { options.now.known ≡ true → IsUtf8Settings settings.now }
    requires texts { IsUtf8IfKnown key.now options.now }
    ensures settings { IfOk result (λ call. (s : Settings) → AreTextsOf settings.now s →
        HasTextsOf call.texts s) }
    ensures key { IfOk result (λ call. call.key.now ≡ key.now) }
    ensures kind { IfOk result (λ call. kind_named kind ≡ Some call.kind) }
    ensures rate { IfOk result (λ call. IsRateOf options.now call.rate) }
    ensures cleaned { IfOk result (λ call. call.is_cleaned ≡ settings.now.cleaned) }
    ensures texts { OnOk result (IsUtf8Options options.now) }
    ensures allowed { OnOk result (IsTrue (allows_c_call settings.now.strict key.now options.now)) }
    ensures forbidden { status result ≡ CADENCE_SEPARATOR →
        IsFalse (allows_c_call settings.now.strict key.now options.now) }
    ensures text { status result ≡ CADENCE_NOT_UTF8 →
        IsUtf8Settings settings.now → IsUtf8Call key.now options.now → ⊥ }
    ensures cardinalities { OnOk result (AreCardinalities settings.now options.now) }
    ensures invalid { status result ≡ CADENCE_INVALID →
        IsInvalidCall settings.now kind options.now }
    ensures statuses { IsOkOr (CADENCE_INVALID ∷ CADENCE_NOT_UTF8 ∷ CADENCE_SEPARATOR ∷ [])
        (status result) }
{
    let Some(texts) = read_settings(settings, options.known) else {
        return Err(StatusError::NotUtf8);
    };
    let Some(key) = read_text(key, options.known) else {
        return Err(StatusError::NotUtf8);
    };
    let Some(kind) = kind_of(kind) else {
        return Err(StatusError::Invalid);
    };
    if !are_texts(options) {
        return Err(StatusError::NotUtf8);
    }
    let rate = rate_of(options)?;
    if settings.cardinality > HIGH || options.cardinality > HIGH {
        return Err(StatusError::Invalid);
    }
    if !allows_c_call(settings.strict, key, options) {
        return Err(StatusError::Separator);
    }
    Ok(TestedCall {
        texts,
        key,
        kind,
        rate,
        is_cleaned: settings.cleaned,
    })
}

// A rate, a cardinality, a time and the signs before a container take at most 78 bytes. This is a little more.
const RATE_AND_TIME: usize = 80;

// How many bytes a draft in a buffer reserves for the options of the call.
const OWN_BYTES: usize = 96;

// The length of the longest buffer of a caller that counts as short, in bytes.
const SHORT: usize = 512;

// Returns at least as many bytes as the options of a call take in its line, so that the line asks for memory once. If the
// caller's buffer is short, its length is enough, because a line that is longer is refused. This takes 57 instructions
// less than to add up three tags. No contract says so, because a line that needs more memory asks for it.
#[inline]
fn room_for_options(options: &COptions<'_>, out_len: usize) -> usize {
    if out_len <= SHORT {
        return out_len;
    }
    let mut room = RATE_AND_TIME;
    if options.contained {
        room = room.saturating_add(options.container.len());
    }
    for tag in options.tags {
        let key = if tag.keyed { tag.key.len() } else { 0 };
        room = room.saturating_add(key).saturating_add(tag.text.len());
        room = room.saturating_add(3);
    }
    room
}

/// The value of a call: numbers, or a text, which is a member of a set or a change of a gauge. Each makes the line of a
/// tested call itself, because a draft is large, and a call that returned it would copy it once more.
pub trait LineValue {
    // The text of the value.
    ghost text: { Self → List ℕ };
    // The value can belong to a metric of this kind.
    ghost suits: { Self → MetricType → Type 0 };

    /// Returns the line of a tested call with this key, which may be cleaned, and this value, for a caller whose buffer
    /// has `out_len` bytes. The error is that memory ran out.
    fn line_of<'a>(
        self,
        alloc: Global,
        call: &TestedCall<'a>,
        key: &str,
        options: &COptions<'a>,
        out_len: usize,
    ) -> Result<Vec<u8>, AllocError>
        requires texts { IsUtf8Options options.now }
        requires kind { Self.suits self call.now.kind }
        ensures { IfOk result (λ line. IsLineOfTested call.now key.now (Self.text self)
            options.now line.items) };

    /// Returns the same line, but makes it in a buffer, in place of the text there. It takes memory only if the
    /// buffer is too short. After an error the buffer is freed.
    fn line_in_buffer<'a>(
        self,
        buffer: Vec<u8>,
        call: &TestedCall<'a>,
        key: &str,
        options: &COptions<'a>,
    ) -> Result<Vec<u8>, AllocError>
        requires texts { IsUtf8Options options.now }
        requires kind { Self.suits self call.now.kind }
        ensures { IfOk result (λ line. IsLineOfTested call.now key.now (Self.text self)
            options.now line.items) };
}

/// Numbers can belong to a metric of any kind.
impl LineValue for MetricValue {
    ghost text = { λ value. numbers_text (numbers_of value) };

    ghost suits = { λ _ _. ⊤ };

    #[inline(always)]
    fn line_of<'a>(
        self,
        alloc: Global,
        call: &TestedCall<'a>,
        key: &str,
        options: &COptions<'a>,
        out_len: usize,
    ) -> Result<Vec<u8>, AllocError> {
        let head = Head {
            prefix: call.texts.prefix,
            key,
            value: self,
            kind: call.kind,
        };
        let (tags, container) = (call.texts.tags, call.texts.container);
        let room = room_for_options(options, out_len);
        let mut draft = DraftLine::new(alloc, &head, tags, container, room)?;
        draft.set_enrichment(call.texts.enrichment);
        finish_line(draft, options, call.rate, call.is_cleaned)
    }

    #[inline(always)]
    fn line_in_buffer<'a>(
        self,
        buffer: Vec<u8>,
        call: &TestedCall<'a>,
        key: &str,
        options: &COptions<'a>,
    ) -> Result<Vec<u8>, AllocError> {
        let head = Head {
            prefix: call.texts.prefix,
            key,
            value: self,
            kind: call.kind,
        };
        let (tags, container) = (call.texts.tags, call.texts.container);
        // The draft is large, and a `?` here would copy it once more.
        let mut draft = match DraftLine::in_buffer(buffer, &head, tags, container, OWN_BYTES) {
            Ok(draft) => draft,
            Err(error) => return Err(error),
        };
        draft.set_enrichment(call.texts.enrichment);
        finish_line(draft, options, call.rate, call.is_cleaned)
    }
}

/// A text belongs to one kind.
impl LineValue for &TextValue<'_> {
    ghost text = { λ value. value_text value.now };

    ghost suits = { λ value kind. kind ≡ value_kind value.now };

    fn line_of<'a>(
        self,
        alloc: Global,
        call: &TestedCall<'a>,
        key: &str,
        options: &COptions<'a>,
        _out_len: usize,
    ) -> Result<Vec<u8>, AllocError> {
        self.line_in_buffer(Vec::new(alloc), call, key, options)
    }

    fn line_in_buffer<'a>(
        self,
        buffer: Vec<u8>,
        call: &TestedCall<'a>,
        key: &str,
        options: &COptions<'a>,
    ) -> Result<Vec<u8>, AllocError> {
        let (prefix, tags, container) = (call.texts.prefix, call.texts.tags, call.texts.container);
        let mut draft = match DraftLine::of_text(
            buffer, prefix, key, self, tags, container, OWN_BYTES,
        ) {
            Ok(draft) => draft,
            Err(error) => return Err(error),
        };
        draft.set_enrichment(call.texts.enrichment);
        finish_line(draft, options, call.rate, call.is_cleaned)
    }
}

// Sets the rate, the container, the cardinality and the time of a line from the options of its call.
fn set_options<'a>(
    draft: &mut DraftLine<'a>,
    options: &COptions<'a>,
    rate: Option<Decimal>,
    is_cleaned: bool,
)
    requires { IsUtf8Options options.now }
    ensures { draft.new ≡ record draft.old {
      rate = option_or rate draft.old.rate;
      container = if options.now.contained
          then Some (text_as is_cleaned options.now.container.now) else draft.old.container;
      enrichment = with_c_cardinality (draft.old).enrichment options.now.cardinality;
      time = if options.now.timed then Some options.now.time else draft.old.time;
    } }
{
    if let Some(rate) = rate {
        draft.set_rate(rate);
    }
    if options.contained {
        let container = unsafe { str::from_utf8_unchecked(options.container) };
        draft.set_container_as(container, is_cleaned);
    }
    if let Some(cardinality) = cardinality_of(options.cardinality) {
        draft.set_cardinality(cardinality);
    }
    if options.timed {
        draft.set_time(options.time);
    }
}

// Adds the tags of a call to its line, with cleaned texts. The error is that memory ran out. Few clients clean texts,
// so this is a loop of its own: the loop of the others tests no flag.
#[cold]
#[inline(never)]
fn add_cleaned_tags(draft: &mut DraftLine<'_>, tags: &[CTag<'_>]) -> Result<(), AllocError>
    requires { All IsUtf8Tag tags.now }
    ensures { OnOk result ((m : Metric) (value : List ℕ) → draft.old ≡ draft_with value m →
        draft.new ≡ draft_with value (with_c_tags true m tags.now)) }
{
    for tag in tags {
        draft.add_tag_as(known_tag(tag), true)?;
    }
    Ok(())
}

// Adds the tags of a call to its line as they are. The error is that memory ran out.
// Without this hint a counter with tags of `bindings/c/speed.c` takes 75 instructions more.
#[inline(always)]
fn add_same_tags(draft: &mut DraftLine<'_>, tags: &[CTag<'_>]) -> Result<(), AllocError>
    requires { All IsUtf8Tag tags.now }
    ensures { OnOk result ((m : Metric) (value : List ℕ) → draft.old ≡ draft_with value m →
        draft.new ≡ draft_with value (with_c_tags false m tags.now)) }
{
    for tag in tags {
        draft.add_tag(known_tag(tag))?;
    }
    Ok(())
}

// Adds the tags of a call to its line, with cleaned texts if `is_cleaned` is set. The error is that memory ran out.
// Without the first test, which the loop makes anyway, a counter of `bindings/c/speed.c` takes 3 instructions more.
#[inline(always)]
fn add_tags(
    draft: &mut DraftLine<'_>,
    tags: &[CTag<'_>],
    is_cleaned: bool,
) -> Result<(), AllocError>
    requires { All IsUtf8Tag tags.now }
    ensures { OnOk result ((m : Metric) (value : List ℕ) → draft.old ≡ draft_with value m →
        draft.new ≡ draft_with value (with_c_tags is_cleaned m tags.now)) }
{
    if tags.is_empty() {
        return Ok(());
    }
    if is_cleaned {
        return add_cleaned_tags(draft, tags);
    }
    add_same_tags(draft, tags)
}

// Adds the options of a call to the draft of its line and returns the line. `rate` is the rate of the options, and their
// texts are cleaned if `is_cleaned` is set. The error is that memory ran out.
// Without this hint a counter of `bindings/c/speed.c` takes 86 instructions more.
#[inline(always)]
fn finish_line<'a>(
    draft: DraftLine<'a>,
    options: &COptions<'a>,
    rate: Option<Decimal>,
    is_cleaned: bool,
) -> Result<Vec<u8>, AllocError>
    requires { IsUtf8Options options.now }
    ensures { IfOk result (λ line. (m : Metric) (value : List ℕ) →
        draft.entry ≡ draft_with value m →
        line.items ≡ line_with value (with_options is_cleaned m options.now rate)) }
{
    let mut draft = draft;
    set_options(&mut draft, options, rate, is_cleaned);
    add_tags(&mut draft, options.tags, is_cleaned)?;
    draft.into_bytes()
}
