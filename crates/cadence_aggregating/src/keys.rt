//! The keys of calls that make no line.
ghost use Rattle.std.specs.Prelude.{◌≡◌, IfErr, IfNone, IfOk, IfSome, IsFalse, IsTrue, OnErr, OnOk, map, string_bytes};
ghost use Rattle.std.specs.List.{fold};
ghost use Rattle.cadence_settings.specs.Call.{chosen, is_clear_call};
ghost use Rattle.cadence_text.specs.Draft.{draft_of};
ghost use Rattle.cadence_text.specs.Metric.{Metric};
ghost use Rattle.cadence_text.specs.Record.{tag_of};
ghost use Rattle.cadence_text.specs.declared.line.MetricType.TheVariants.{Counter, Gauge};
ghost use Rattle.cadence_value.specs.Values.{numbers_of};
ghost use Rattle.cadence_aggregating.specs.Contexts.{IsLineOfZero, MayFailFor, sent_tag, tagged_call, zeros};
ghost use Rattle.cadence_aggregating.specs.Says.{IsContext};

use crate::said::read_said;
use cadence_aggregate::Line;
use cadence_errors::{ErrorKind, MetricError, MetricResult};
use cadence_settings::{
    ClientSettings, DraftError, Separator, strict_calls_are_clear, tags_are_clear,
};
use cadence_text::line::{DraftLine, MetricType, Tag};
use cadence_value::value::MetricValue;
use std::alloc::{AllocError, Global};

/// Settings that are strict.
#[derive(Drop)]
pub(crate) struct StrictSettings {
    settings: ClientSettings,
    pub ghost strict: { IsTrue settings.strict },
}

impl StrictSettings {
    ghost use Rattle.cadence_settings.specs.Settings.{HasSeparator, is_clear_settings, with_strict_texts};

    /// Makes settings strict. The error is of kind `InvalidInput`, and comes if and only if a text of them has a
    /// separator.
    pub(crate) fn new(settings: ClientSettings) -> MetricResult<StrictSettings>
        ensures settings { IfOk result (λ made. made.settings ≡ with_strict_texts settings) }
        ensures clear { OnOk result (IsTrue (is_clear_settings settings)) }
        ensures refused { IfErr result HasSeparator }
        ensures unclear { OnErr result (IsFalse (is_clear_settings settings)) }
    {
        let mut settings = settings;
        settings.set_strict()?;
        Ok(StrictSettings { settings })
    }

    // Returns the line of a call with these tags and the number 0.
    fn line_of_zero(
        &self,
        key: &str,
        kind: MetricType,
        zero: MetricValue,
        tags: &[Tag<'_>],
    ) -> MetricResult<String>
        requires { numbers_of zero ≡ zeros }
        ensures line { IfOk result (λ line. IsLineOfZero self.now.settings
            (tagged_call kind key.now (map tag_of tags.now)) (string_bytes line)) }
        ensures refused { IfErr result (MayFailFor
            (is_clear_call (tagged_call kind key.now (map tag_of tags.now)))) }
    {
        self.settings.is_strict();
        strict_calls_are_clear();
        if !tags_are_clear(tags) {
            return Err(MetricError::from(DraftError::Unusable(Separator)));
        }
        let mut draft = match self.settings.draft(key, kind, zero) {
            Ok(draft) => draft,
            Err(error) => return Err(MetricError::from(error)),
        };
        add_tags(&mut draft, tags, self.settings.is_cleaned())?;
        let line = draft.into_text()?;
        Ok(line)
    }
}

/// The key of a counter, with all else that its lines have but the number: the prefix, the tags and the container. An
/// `AggregatedClient` makes it once, and raises the counter by it without making a line.
#[derive(Drop)]
pub struct CounterKey {
    pub(crate) context: String,
    pub ghost of: { ∥ IsContext Counter (string_bytes context) ∥₁ },
}

/// The key of a gauge, with all else that its lines have but the value. An `AggregatedClient` makes it once.
#[derive(Drop)]
pub struct GaugeKey {
    pub(crate) context: String,
    pub ghost of: { ∥ IsContext Gauge (string_bytes context) ∥₁ },
}

// Returns the error for a line that can't be added to others. It never comes, because the lines of keys can.
#[cold]
fn not_added() -> MetricError {
    MetricError::from((ErrorKind::InvalidInput, "no line to add up"))
}

/// The key of a line that can be added to others by its number.
#[derive(Drop)]
pub enum LineKey {
    /// The line raises this counter.
    Raises(CounterKey),
    /// The line sets this gauge.
    Sets(GaugeKey),
}

impl LineKey {
    ghost use Rattle.cadence_aggregating.specs.Keys.{IsKeyOfLine, SaysNeither};

    /// Makes the key of the counter that a line raises by a whole number, or of the gauge that it sets. Returns `None` if
    /// the line can't be added to others so. The only error is that memory ran out.
    pub fn of_line(alloc: Global, line: &str) -> Result<Option<LineKey>, AllocError>
        ensures key { IfOk result (λ made. IfSome made (IsKeyOfLine line.now)) }
        ensures none { IfOk result (λ made. IfNone made (SaysNeither line.now)) }
    {
        let mut text = String::with_capacity(alloc, line.len())?;
        match read_said(line, &mut text)? {
            Line::Amount(context, _) => Ok(Some(LineKey::Raises(CounterKey {
                context: String::from_str(alloc, context)?,
            }))),
            Line::Level(context, _) => Ok(Some(LineKey::Sets(GaugeKey {
                context: String::from_str(alloc, context)?,
            }))),
            Line::Member(_) | Line::Timing(_, _) | Line::Unclear(_) | Line::Other(_) => Ok(None),
        }
    }
}

impl StrictSettings {
    ghost use Rattle.std.specs.Prelude.{◌⊎◌};
    ghost use Rattle.cadence_aggregating.specs.Keys.{IsKeyFor};

    // Makes the key of a call that counts or sets a gauge. Its line has the number 0, and is dropped.
    fn key_of(
        &self,
        alloc: Global,
        key: &str,
        kind: MetricType,
        zero: MetricValue,
        tags: &[Tag<'_>],
    ) -> MetricResult<LineKey>
        requires kind { (kind ≡ Counter) ⊎ (kind ≡ Gauge) }
        requires zero { numbers_of zero ≡ zeros }
        ensures key { IfOk result (IsKeyFor self.now.settings
            (tagged_call kind key.now (map tag_of tags.now))) }
        ensures refused { IfErr result (MayFailFor
            (is_clear_call (tagged_call kind key.now (map tag_of tags.now)))) }
    {
        let line = self.line_of_zero(key, kind, zero, tags)?;
        match LineKey::of_line(alloc, &line)? {
            Some(key) => Ok(key),
            None => Err(not_added()),
        }
    }
}

impl CounterKey {
    ghost use Rattle.cadence_aggregating.specs.Keys.{CountsFor};

    /// Makes the key of a counter with tags.
    ///
    /// # Errors
    /// An error of kind `InvalidInput` only if the key or a tag has a separator, and `SinkError::OutOfMemory`.
    pub(crate) fn of_tagged(
        alloc: Global,
        settings: &StrictSettings,
        key: &str,
        tags: &[Tag<'_>],
    ) -> MetricResult<CounterKey>
        ensures lines { IfOk result (CountsFor settings.now.settings
            (tagged_call Counter key.now (map tag_of tags.now))) }
        ensures refused { IfErr result (MayFailFor
            (is_clear_call (tagged_call Counter key.now (map tag_of tags.now)))) }
    {
        match settings.key_of(
            alloc,
            key,
            MetricType::Counter,
            MetricValue::Signed(0),
            tags,
        )? {
            LineKey::Raises(key) => Ok(key),
            LineKey::Sets(_) => Err(not_added()),
        }
    }
}

impl GaugeKey {
    ghost use Rattle.cadence_aggregating.specs.Keys.{SetsFor};

    /// Makes the key of a gauge with tags.
    ///
    /// # Errors
    /// An error of kind `InvalidInput` only if the key or a tag has a separator, and `SinkError::OutOfMemory`.
    pub(crate) fn of_tagged(
        alloc: Global,
        settings: &StrictSettings,
        key: &str,
        tags: &[Tag<'_>],
    ) -> MetricResult<GaugeKey>
        ensures lines { IfOk result (SetsFor settings.now.settings
            (tagged_call Gauge key.now (map tag_of tags.now))) }
        ensures refused { IfErr result (MayFailFor
            (is_clear_call (tagged_call Gauge key.now (map tag_of tags.now)))) }
    {
        match settings.key_of(
            alloc,
            key,
            MetricType::Gauge,
            MetricValue::Unsigned(0),
            tags,
        )? {
            LineKey::Sets(key) => Ok(key),
            LineKey::Raises(_) => Err(not_added()),
        }
    }
}

// Adds tags to the draft of a line, with cleaned texts if `is_cleaned` is set. The only error is that memory ran out.
fn add_tags(draft: &mut DraftLine<'_>, tags: &[Tag<'_>], is_cleaned: bool) -> Result<(), AllocError>
    ensures { OnOk result ((m : Metric) → draft.old ≡ draft_of m →
        draft.new ≡ draft_of (fold chosen m (map (sent_tag is_cleaned) (map tag_of tags.now)))) }
{
    for tag in tags {
        draft.add_tag_as(*tag, is_cleaned)?;
    }
    Ok(())
}
