//! Cuts the line of any client of Statsd or DogStatsD into its parts. It doesn't read the parts.
ghost use Rattle.std.specs.Prelude.{◌≡◌, ◌≢◌, ◌++◌, ◌↔◌, All, IsTrue};
ghost use Rattle.std.specs.Option.{option_map};
ghost use Rattle.cadence_value.specs.Finds.{Finds};
ghost use Rattle.cadence_read.specs.EventLines.{CutsEventLines};
ghost use Rattle.cadence_read.specs.Cuts.{AreFields, CutsOwnLines, IsCut, IsEvent, IsFound, IsServiceCheck, parts_of};

use crate::splitting::split_first;
use cadence_value::bytes::split_once;

/// The parts of a metric's line, which is `NAME:VALUES|KIND` and perhaps other fields.
#[derive(Clone, Copy, Debug, PartialEq, Eq)]
pub struct MetricParts<'a> {
    /// The text before the first colon.
    pub name: &'a [u8],
    /// The text between this colon and the first bar. Several values have a colon between each two.
    pub values: &'a [u8],
    /// The text between this bar and the next one, or the end of the line.
    pub kind: &'a [u8],
    /// The rest of the line, such as `|@0.5|#env:prod`: the other fields, each with the bar before it. It is empty if
    /// the line has no other fields.
    pub fields: &'a [u8],
}

/// What a line is.
#[derive(Clone, Copy, Debug, PartialEq, Eq)]
pub enum AnyLine<'a> {
    /// The line of a metric.
    MetricLine(MetricParts<'a>),
    /// The line of an event of DogStatsD, as in `_e{5,4}:title|text`.
    Event(&'a [u8]),
    /// The line of a service check of DogStatsD, as in `_sc|web|0`.
    ServiceCheck(&'a [u8]),
    /// A line of none of these forms.
    Opaque(&'a [u8]),
}

// Cuts a text before its first bar.
pub(crate) fn cut_field(text: &[u8]) -> (&[u8], &[u8])
    ensures whole { text.now ≡ result.0.now ++ result.1.now }
    ensures front { All (λ byte. byte ≢ 124) result.0.now }
    ensures fields { AreFields result.1.now }
{
    match split_once(text, b'|') {
        Some((front, _)) => text.split_at(front.len()),
        None => (text, &[]),
    }
}

// Cuts the line of a metric. Returns `None` if the line has no colon, or no bar behind its first colon, or a bar before
// it.
pub(crate) fn cut_metric(line: &[u8]) -> Option<MetricParts<'_>>
    ensures { Finds (IsCut line.now) (option_map parts_of result) }
{
    let (head, others) = split_once(line, b'|')?;
    let (name, values) = split_once(head, b':')?;
    let (kind, fields) = cut_field(others);
    Some(MetricParts {
        name,
        values,
        kind,
        fields,
    })
}

// Returns whether a line begins as an event of DogStatsD does.
fn is_event(line: &[u8]) -> bool
    ensures { IsTrue result ↔ IsEvent line.now }
{
    match line.strip_prefix(b"_e{") {
        Some(text) => split_first(text, b',').is_some(),
        None => false,
    }
}

// Returns whether a line begins as a service check of DogStatsD does.
fn is_service_check(line: &[u8]) -> bool
    ensures { IsTrue result ↔ IsServiceCheck line.now }
{
    line.strip_prefix(b"_sc|").is_some()
}

/// Cuts a line into its parts, and reads none of them. A line that begins as an event or as a service check isn't cut.
/// It takes no memory, and reads each byte a few times at most.
///
/// The line is that of any client of Statsd or DogStatsD, without the newline after it. Which other fields a metric has,
/// in which order, and how its numbers are spelled makes no difference.
pub fn cut_line(line: &[u8]) -> AnyLine<'_>
    ensures { IsFound line.now result }
{
    if is_event(line) {
        return AnyLine::Event(line);
    }
    if is_service_check(line) {
        return AnyLine::ServiceCheck(line);
    }
    match cut_metric(line) {
        Some(parts) => AnyLine::MetricLine(parts),
        None => AnyLine::Opaque(line),
    }
}

/// States how lines are cut: there is at most one way, and the line of a clear metric is cut into the metric's texts. A
/// metric is clear if no text of it has a separator, except colons after the keys of tags. Proofs cite it. The function
/// does nothing when it runs.
pub fn cuts_own_lines()
    ensures { CutsOwnLines }
{}

/// States that the lines of events and of service checks that this library's clients send are cut as events and as service
/// checks. Proofs cite it. The function does nothing when it runs.
pub fn cuts_event_lines()
    ensures { CutsEventLines }
{}
