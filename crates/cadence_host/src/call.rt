//! The arguments of a call of C, and their conversion to the types of the library.
ghost use Rattle.std.specs.Prelude.{◌≡◌, ◌<◌, All, IfOk, IfErr, IfSome, IfNone, map, true, false};
ghost use Rattle.std.specs.List.{list_all};
ghost use Rattle.std.specs.Str.{IsUtf8};
ghost use Rattle.cadence_text.specs.FreeTexts.{is_clear_tag};
ghost use Rattle.cadence_text.specs.Record.{tag_of as record_tag};
ghost use Rattle.cadence_host.specs.declared.status.StatusError.TheVariants.{Invalid};
ghost use Rattle.cadence_host.specs.Calls.{IsUtf8Options, c_tag, cardinality_named, kind_named, HasInvalidRate, IsNumberOf, IsRateOf, IsUtf8Tag, are_clear_options};

use crate::ascii::is_ascii;
use crate::status::StatusError;
use cadence_settings::{tag_is_clear, text_is_free};
use cadence_text::line::{Cardinality, MetricType, Tag};
use cadence_value::decimal::Decimal;
use std::str;

/// A tag: its text, and its key if `keyed` is set.
#[repr(C)]
#[derive(Clone, Copy)]
pub struct CTag<'a> {
    pub key: &'a [u8],
    pub text: &'a [u8],
    pub keyed: bool,
}

/// A decimal number: `mantissa` divided by 10 to the power of `places`. At most 30 places are valid.
#[repr(C)]
#[derive(Clone, Copy)]
pub struct CDecimal {
    pub mantissa: i64,
    pub places: u8,
}

/// What a call adds to its metric, besides what the client adds: tags, and a container, a sampling rate and a time if
/// `contained`, `rated` and `timed` are set. `cardinality` is the number of the cardinality, which replaces the default
/// one, or 0 for none. If `known` is set, the host knows that the texts of the call are UTF-8, and they are not tested.
#[repr(C)]
#[derive(Clone, Copy)]
pub struct COptions<'a> {
    pub tags: &'a [CTag<'a>],
    pub container: &'a [u8],
    pub rate: CDecimal,
    pub time: u64,
    pub contained: bool,
    pub rated: bool,
    pub timed: bool,
    pub known: bool,
    pub cardinality: u32,
}

/// The number of sets in C.
pub const SET: u32 = 5;
/// The number by which C names a change of a gauge, in place of a kind.
pub const CHANGE: u32 = 7;
/// The greatest number that a cardinality has in C.
pub const HIGH: u32 = 4;

/// Returns the kind that has this number in C, if one has it. A change belongs to a gauge.
pub fn kind_of(kind: u32) -> Option<MetricType>
    ensures { result ≡ kind_named kind }
{
    match kind {
        0 => Some(MetricType::Counter),
        1 => Some(MetricType::Timer),
        2 => Some(MetricType::Gauge),
        3 => Some(MetricType::Meter),
        4 => Some(MetricType::Histogram),
        SET => Some(MetricType::Set),
        6 => Some(MetricType::Distribution),
        CHANGE => Some(MetricType::Gauge),
        _ => None,
    }
}

/// Returns the cardinality that has this number in C, if one has it.
#[inline(always)]
pub fn cardinality_of(number: u32) -> Option<Cardinality>
    ensures { result ≡ cardinality_named number }
{
    match number {
        1 => Some(Cardinality::NoTags),
        2 => Some(Cardinality::Low),
        3 => Some(Cardinality::Orchestrator),
        HIGH => Some(Cardinality::High),
        _ => None,
    }
}

/// Returns the number of a decimal. The error is `Invalid` if it has more than 30 places.
pub fn decimal_of(decimal: CDecimal) -> Result<Decimal, StatusError>
    ensures number { IfOk result (λ d. IsNumberOf decimal d) }
    ensures invalid { IfErr result (λ e. (30 < decimal.places) × (e ≡ Invalid)) }
{
    match Decimal::new(i128::from(decimal.mantissa), decimal.places) {
        Ok(number) => Ok(number),
        Err(_) => Err(StatusError::Invalid),
    }
}

/// Returns the text of bytes if they are UTF-8. Most texts are ASCII, and the test for ASCII is faster.
pub fn text_of(bytes: &[u8]) -> Option<&str>
    ensures text { IfSome result (λ t. (t.now ≡ bytes.now) × IsUtf8 bytes.now) }
    ensures none { IfNone result (IsUtf8 bytes.now → ⊥) }
{
    if is_ascii(bytes) {
        return Some(unsafe { str::from_utf8_unchecked(bytes) });
    }
    any_text_of(bytes)
}

// Returns the text of any bytes if they are UTF-8. Only few texts aren't ASCII, so it is never inlined.
#[cold]
#[inline(never)]
fn any_text_of(bytes: &[u8]) -> Option<&str>
    ensures text { IfSome result (λ t. (t.now ≡ bytes.now) × IsUtf8 bytes.now) }
    ensures none { IfNone result (IsUtf8 bytes.now → ⊥) }
{
    str::from_utf8(bytes).ok()
}

/// Returns the text of bytes if they are UTF-8. If the caller knows that they are, they are not tested.
pub fn read_text(bytes: &[u8], known: bool) -> Option<&str>
    requires { known ≡ true → IsUtf8 bytes.now }
    ensures text { IfSome result (λ t. (t.now ≡ bytes.now) × IsUtf8 bytes.now) }
    ensures none { IfNone result (IsUtf8 bytes.now → ⊥) }
{
    if known {
        return Some(unsafe { str::from_utf8_unchecked(bytes) });
    }
    text_of(bytes)
}

/// Returns the tag if its texts are UTF-8.
pub fn tag_of<'a>(tag: &CTag<'a>) -> Option<Tag<'a>>
    ensures tag { IfSome result (λ t. record_tag t ≡ c_tag tag.now) }
    ensures texts { IfSome result (λ _. IsUtf8Tag tag.now) }
    ensures none { IfNone result (IsUtf8Tag tag.now → ⊥) }
{
    if !is_tag(tag) {
        return None;
    }
    Some(known_tag(tag))
}

// Returns whether the texts of the tag are UTF-8.
fn is_tag(tag: &CTag<'_>) -> bool
    ensures yes { result ≡ true → IsUtf8Tag tag.now }
    ensures no { result ≡ false → IsUtf8Tag tag.now → ⊥ }
{
    text_of(tag.text).is_some() && (!tag.keyed || text_of(tag.key).is_some())
}

/// Returns a tag whose texts are UTF-8, without testing them.
pub fn known_tag<'a>(tag: &CTag<'a>) -> Tag<'a>
    requires { IsUtf8Tag tag.now }
    ensures { record_tag result ≡ c_tag tag.now }
{
    let text = unsafe { str::from_utf8_unchecked(tag.text) };
    if !tag.keyed {
        return Tag { key: None, text };
    }
    Tag {
        key: Some(unsafe { str::from_utf8_unchecked(tag.key) }),
        text,
    }
}

/// Returns whether the texts of the tags are UTF-8.
#[inline]
pub fn are_tags(tags: &[CTag<'_>]) -> bool
    ensures yes { result ≡ true → All IsUtf8Tag tags.now }
    ensures no { result ≡ false → All IsUtf8Tag tags.now → ⊥ }
{
    for tag in tags {
        if !is_tag(tag) {
            return false;
        }
    }
    true
}

/// Returns whether the texts of the options are UTF-8. If the host knows that they are, they are not tested.
// Without this hint a counter of `bindings/c/speed.c` takes 14 instructions more.
#[inline]
pub fn are_texts(options: &COptions<'_>) -> bool
    requires { options.now.known ≡ true → IsUtf8Options options.now }
    ensures yes { result ≡ true → IsUtf8Options options.now }
    ensures no { result ≡ false → IsUtf8Options options.now → ⊥ }
{
    if options.known {
        return true;
    }
    if !are_tags(options.tags) {
        return false;
    }
    !options.contained || text_of(options.container).is_some()
}

/// Returns whether each tag is clear: it has no separator, except colons after its key.
#[inline]
pub fn are_clear_tags(tags: &[CTag<'_>]) -> bool
    requires { All IsUtf8Tag tags.now }
    ensures { result ≡ list_all is_clear_tag (map c_tag tags.now) }
{
    for tag in tags {
        let tag = known_tag(tag);
        if !tag_is_clear(tag.key, tag.text) {
            return false;
        }
    }
    true
}

/// Returns whether each tag is clear and the container has no separator.
#[inline]
pub fn are_clear_options(options: &COptions<'_>) -> bool
    requires { IsUtf8Options options.now }
    ensures { result ≡ are_clear_options options.now }
{
    if !are_clear_tags(options.tags) {
        return false;
    }
    !options.contained || text_is_free(unsafe { str::from_utf8_unchecked(options.container) })
}

/// Returns the sampling rate of the options, if they have one. The error is `Invalid` if it has more than 30 places.
pub fn rate_of(options: &COptions<'_>) -> Result<Option<Decimal>, StatusError>
    ensures rate { IfOk result (λ rate. IsRateOf options.now rate) }
    ensures invalid { IfErr result (λ e. HasInvalidRate options.now × (e ≡ Invalid)) }
{
    if !options.rated {
        return Ok(None);
    }
    Ok(Some(decimal_of(options.rate)?))
}
