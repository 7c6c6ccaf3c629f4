//! Reads what a line says. The line may be that of any client.
ghost use Rattle.std.specs.Prelude.{◌≡◌, ◌≢◌, ◌↔◌, true, All, IfNone, IfOk, IfSome, IsTrue, OnOk, string_bytes};
ghost use Rattle.std.specs.Option.{option_map};
ghost use Rattle.cadence_aggregate.specs.Lines.{sample_of};
ghost use Rattle.cadence_read.specs.Cuts.{parts_of_text};
ghost use Rattle.cadence_read.specs.Values.{AreNumbers, IsNumberText};
ghost use Rattle.cadence_value.specs.Finds.{Finds};
ghost use Rattle.cadence_aggregating.specs.Additions.{IsAddable, IsAddedAs, IsAddition, IsAdditionBy, context_of};
ghost use Rattle.cadence_aggregating.specs.Says.{HasComma, HasTime, IsEventName, IsNotAdded, LineSays, MaySetGauge};
ghost use Rattle.cadence_aggregating.specs.declared.said.Addition.TheVariants.{Level};

use cadence_aggregate::Line;
use cadence_read::{TextParts, are_numbers, cut_text_metric, is_number, whole_number};
use cadence_text::line::MetricType;
use cadence_value::bytes::{split_once, split_text_once};
use std::alloc::AllocError;

/// How the values of a line are added to others of its context.
#[derive(Clone, Copy)]
pub(crate) enum Addition {
    /// This is added to a sum.
    Amount(i64),
    /// The value is the last one of a gauge.
    Level,
    /// The text is a member of a set.
    Member,
    /// The values are put beside those of a timer, a histogram or a distribution.
    Timing,
}

// Returns this, if each of the values is a number.
fn if_numbers(values: &str, addition: Addition) -> Option<Addition>
    ensures some { IfSome result (λ a. (a ≡ addition) × AreNumbers values.now) }
    ensures none { IfNone result (AreNumbers values.now → ⊥) }
{
    if are_numbers(values) {
        return Some(addition);
    }
    None
}

// Returns that the value is one of a gauge, if it is a number. A gauge with several values is not added, because servers
// differ in what they make of them.
fn if_number(value: &str) -> Option<Addition>
    ensures some { IfSome result (λ a. (a ≡ Level) × IsNumberText value.now) }
    ensures none { IfNone result (IsNumberText value.now → ⊥) }
{
    if is_number(value) {
        return Some(Addition::Level);
    }
    None
}

// Returns how values of this kind are added, or `None` if they can't be.
fn addition_by(kind: MetricType, values: &str) -> Option<Addition>
    ensures { Finds (IsAdditionBy kind values.now) result }
{
    match kind {
        MetricType::Counter => match whole_number(values) {
            Some(by) => Some(Addition::Amount(by)),
            None => None,
        },
        MetricType::Gauge => if_number(values),
        MetricType::Set => Some(Addition::Member),
        MetricType::Meter => None,
        MetricType::Timer | MetricType::Histogram | MetricType::Distribution => {
            if_numbers(values, Addition::Timing)
        }
    }
}

// Returns how the values of a line are added, or `None` if they can't be.
fn addition_of(parts: TextParts<'_>) -> Option<Addition>
    ensures { Finds (IsAddition (parts_of_text parts.entry)) result }
{
    match MetricType::from_text(parts.kind.as_bytes()) {
        Some(kind) => addition_by(kind, parts.values),
        None => None,
    }
}

// Returns whether a text has a comma.
fn has_comma(text: &[u8]) -> bool
    ensures { IsTrue result ↔ HasComma text.now }
{
    match split_once(text, b',') {
        Some(_) => true,
        None => false,
    }
}

// Returns whether a name begins as an event of DogStatsD does.
fn is_event_name(name: &str) -> bool
    ensures { IsTrue result ↔ IsEventName name.now }
{
    match name.as_bytes().strip_prefix(b"_e{") {
        Some(rest) => has_comma(rest),
        None => false,
    }
}

// Returns whether a line has a bar and then a `T`, as each line with a time has.
fn has_time(line: &str) -> bool
    ensures { (result ≡ true) ↔ HasTime line.now }
{
    line.contains("|T")
}

// Returns whether a text has no newline.
fn is_single_line(text: &str) -> bool
    ensures { IsTrue result ↔ All (λ byte. byte ≢ 10) text.now }
{
    match split_text_once(text, b'\n') {
        Some(_) => false,
        None => true,
    }
}

// Returns whether a line with this name may be added to others.
fn is_addable(line: &str, name: &str) -> bool
    ensures { IsTrue result ↔ IsAddable line.now name.now }
{
    is_single_line(line) && !is_event_name(name) && !has_time(line)
}

// Returns whether a line has a bar and then a `g`, as each line of a gauge has.
fn may_set_gauge(line: &str) -> bool
    ensures { (result ≡ true) ↔ MaySetGauge line.now }
{
    line.contains("|g")
}

// Returns what a line says if none of its metrics can be added.
fn not_added(line: &str) -> Line<'_>
    requires { IsNotAdded line.now }
    ensures { LineSays line.now (sample_of result) }
{
    if may_set_gauge(line) {
        Line::Unclear(line)
    } else {
        Line::Other(line)
    }
}

// Writes the context of a line that was cut.
fn write_context(context: &mut String, parts: TextParts<'_>) -> Result<(), AllocError>
    ensures { OnOk result (string_bytes context.new ≡ context_of (parts_of_text parts.entry)) }
{
    context.clear();
    context.push_str(parts.name)?;
    context.push('|')?;
    context.push_str(parts.kind)?;
    context.push_str(parts.fields)
}

// Returns the parts of a line whose metric can be added to others, and how it is added.
fn addable_of(line: &str) -> Option<(TextParts<'_>, Addition)>
    ensures { Finds (IsAddedAs line.now) (option_map (λ a. (parts_of_text a.0, a.1)) result) }
{
    let Some(parts) = cut_text_metric(line) else {
        return None;
    };
    if !is_addable(line, parts.name) {
        return None;
    }
    match addition_of(parts) {
        Some(addition) => Some((parts, addition)),
        None => None,
    }
}

/// Reads what a line says. Its context, if it has one, is written into `context`, in place of what that had. The only
/// error is that memory ran out.
pub fn read_said<'a>(line: &'a str, context: &'a mut String) -> Result<Line<'a>, AllocError>
    ensures { IfOk result (λ said. LineSays line.now (sample_of said)) }
{
    let Some((parts, addition)) = addable_of(line) else {
        return Ok(not_added(line));
    };
    write_context(context, parts)?;
    match addition {
        Addition::Amount(by) => Ok(Line::Amount(context, by)),
        Addition::Level => Ok(Line::Level(context, parts.values)),
        Addition::Member => Ok(Line::Member(line)),
        Addition::Timing => Ok(Line::Timing(context, parts.values)),
    }
}
