//! Why words can't be read.
use cadence_errors::{InputError, Reason};
use cadence_events::Unfit;
use cadence_text::line::MetricType;
use std::fmt;

/// The part of a line that can't be read. Its text says what the part has to be.
#[derive(Clone, Copy, Debug, PartialEq, Eq)]
pub enum Part {
    /// The line is not UTF-8.
    Text,
    /// The line has fewer than three words.
    Words,
    /// The kind is not one that a metric has.
    Kind,
    /// The name is empty or has a separator.
    Name,
    /// The value is not one that a metric of this kind has.
    Value(MetricType),
    /// A tag is empty, or has a separator that a tag can't have.
    Tag,
    /// The line is longer than a datagram.
    Length,
    /// The words that begin with `event` are fewer than three.
    EventWords,
    /// The words that begin with `check` are fewer than three.
    CheckWords,
    /// The status of a service check is not one that it has.
    Status,
    /// This text of an event or of a service check can't stand in its line.
    Field(Unfit),
}

// Returns what the value of a metric of this kind has to be.
fn wanted_value(kind: MetricType) -> &'static str {
    match kind {
        MetricType::Counter => "VALUE of c is a whole number, as in `c visits 1`",
        MetricType::Timer => {
            "VALUE of ms is milliseconds from 0, or durations, as in `ms wait 12.5,1.25s`"
        }
        MetricType::Gauge => {
            "VALUE of g is a number, a change as +5, or a level as =-5, as in `g load 0.75`"
        }
        MetricType::Meter => "VALUE of m is a whole number from 0, as in `m requests 1`",
        MetricType::Histogram => {
            "VALUE of h is numbers, or durations, which are sent in nanoseconds, as in `h size 0.75,12`"
        }
        MetricType::Set => "VALUE of s has no colon, bar or newline, as in `s users alice`",
        MetricType::Distribution => "VALUE of d is numbers, as in `d size 0.75,12`",
    }
}

impl Part {
    // Returns what the part has to be.
    fn message(self) -> &'static str {
        match self {
            Part::Text => "not UTF-8: wants text, as in `c visits 1 page:home`",
            Part::Words => "wants KIND NAME VALUE [TAG ..], as in `c visits 1 page:home`",
            Part::Kind => "KIND is c, ms, g, m, h, s, d or the name of one, as in `count visits 1`",
            Part::Name => "NAME has no colon, comma, bar or newline, as in `c site.visits 1`",
            Part::Value(kind) => wanted_value(kind),
            Part::Tag => {
                "TAG is K:V or V, and has no comma, bar or newline, as in `c visits 1 page:home`"
            }
            Part::Length => "the line is longer than a datagram can be",
            Part::EventWords => {
                "wants event TITLE TEXT [TAG ..], as in `event Deploy 'version 2.1'`"
            }
            Part::CheckWords => "wants check NAME STATUS [TAG ..], as in `check web ok`",
            Part::Status => {
                "STATUS is ok, warning, critical, unknown or 0 to 3, as in `check web critical`"
            }
            Part::Field(unfit) => unfit.message(),
        }
    }
}

impl fmt::Display for Part {
    fn fmt<W: fmt::Write>(&self, f: &mut fmt::Formatter<W>) -> fmt::Result {
        f.write_str(self.message())
    }
}

/// Why words are not read: a part of them is unreadable, or memory ran out.
pub type WordError = InputError<Part>;
