//! The kinds of metrics, metrics before they are text, and the lines that are made of them.
//!
//! A client makes its lines with a `DraftLine`, to which tags and other options can be added until it is finished. A
//! `Record` is a metric as data: it can be compared and formatted more than once. An `OwnedMetric` is what is read back
//! from a line.

mod cleaning;
mod draft;
mod enrichment;
mod line_buf;
mod options;
mod pieces;
mod record;
mod separators;
mod tag;
mod window;

use cadence_value::text::PieceWriter;
pub use cleaning::cleaned;
pub use draft::{DraftLine, Head, TagsText, TextValue, is_member};
pub use enrichment::{Cardinality, Enrichment};
pub use record::{OwnedMetric, Record};
pub use separators::{first_separator, is_field_text, is_free, is_free_after_key};
use std::fmt;
pub use tag::{OwnedTag, Tag, lend_tag, lend_tags};

/// The kind of a metric: what the server does with its numbers. It prints as its type text.
///
/// The client sends every kind in the same way. Only servers treat them differently, and a server may not know all of
/// them.
#[derive(Clone, Copy, Debug, PartialEq, Eq, Hash)]
pub enum MetricType {
    /// `c`: the server adds the number to a sum, for example 1 for each request. A number below zero subtracts.
    Counter,
    /// `ms`: how long something took, in milliseconds, for example a database query. The server computes statistics of
    /// the times, such as their mean and percentiles.
    Timer,
    /// `g`: the current value of something, for example the number of open connections. The server keeps the value
    /// until the next one comes.
    Gauge,
    /// `m`: a number of events. The server computes the rate at which they occur. A meter can only go up.
    Meter,
    /// `h`: one value of many, for example the size of a response. The server computes statistics of the values, as for
    /// a timer, and each server does so for the values that it received.
    Histogram,
    /// `s`: a member of a set, for example the number of a user. The server counts how many different ones it received.
    Set,
    /// `d`: one value of many, as in a histogram, but the statistics are computed over the values of all servers
    /// together. This kind is DogStatsD's.
    Distribution,
}

impl MetricType {
    ghost use Rattle.std.specs.Prelude.{◌≡◌, ◌++◌, IfNone, IfSome, codes};
    ghost use Rattle.cadence_text.specs.Line.{kind_text};
    ghost use Rattle.cadence_value.specs.Takes.{Takes};

    /// Returns the type text of the kind, which a line has after the numbers.
    pub fn text(self) -> &'static str
        ensures { result.now ≡ kind_text self }
    {
        match self {
            MetricType::Counter => "c",
            MetricType::Timer => "ms",
            MetricType::Gauge => "g",
            MetricType::Meter => "m",
            MetricType::Histogram => "h",
            MetricType::Set => "s",
            MetricType::Distribution => "d",
        }
    }

    // Writes a bar and the type text. It does so byte by byte, because `take_piece` calls the C library to copy a text,
    // and that call takes some 30 instructions even for one or two bytes.
    fn push_to<S: PieceWriter>(self, line: &mut S)
        ensures { Takes S.ends_as line.old (codes "|" ++ kind_text self) line.new }
    {
        line.take_byte(b'|');
        let text = self.text().as_bytes();
        line.take_byte(text[0]);
        if text.len() > 1 {
            line.take_byte(text[1]);
        }
    }

    /// Returns the kind that has this type text, or `None` if no kind has it.
    pub fn from_text(text: &[u8]) -> Option<MetricType>
        ensures found { IfSome result (λ kind. kind_text kind ≡ text.now) }
        ensures none { IfNone result ((kind : MetricType) → kind_text kind ≡ text.now → ⊥) }
    {
        match text {
            b"c" => Some(MetricType::Counter),
            b"ms" => Some(MetricType::Timer),
            b"g" => Some(MetricType::Gauge),
            b"m" => Some(MetricType::Meter),
            b"h" => Some(MetricType::Histogram),
            b"s" => Some(MetricType::Set),
            b"d" => Some(MetricType::Distribution),
            _ => None,
        }
    }
}

impl fmt::Display for MetricType {
    ghost use Rattle.std.specs.Prelude.{Some};
    ghost use Rattle.cadence_text.specs.Line.{kind_text};

    ghost output = { λ kind. Some (kind_text kind) };

    fn fmt<W: fmt::Write>(&self, f: &mut fmt::Formatter<W>) -> fmt::Result {
        f.write_str(self.text())
    }
}
