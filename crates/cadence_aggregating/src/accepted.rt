//! A record of a line that was accepted, for proofs.
ghost use Rattle.std.specs.Prelude.{◌≡◌};
ghost use Rattle.cadence_aggregate.specs.Lines.{sample_of};
ghost use Rattle.cadence_aggregating.specs.Accepted.{said_by_entry};
ghost use Rattle.cadence_stage.specs.Call.{only_text};

use crate::note::Kind;
use cadence_aggregate::Line;
use cadence_stage::GhostTexts;

/// What an accepted line says, for proofs: its kind, the number by which a counter is raised, and its context and its
/// values, which are in lists of their own. The line itself may never have been made.
#[derive(Drop)]
pub struct Accepted {
    pub(crate) kind: Kind,
    pub(crate) by: i64,
    pub(crate) context: GhostTexts,
    pub(crate) values: GhostTexts,
}

impl Accepted {
    // Notes a line of one of the kinds.
    fn new(kind: Kind, by: i64, context: &str, values: &str) -> Accepted
        ensures kind { result.kind ≡ kind }
        ensures by { result.by ≡ by }
        ensures context { only_text result.context.items ≡ context.now }
        ensures values { only_text result.values.items ≡ values.now }
    {
        Accepted {
            kind,
            by,
            context: GhostTexts::of(context),
            values: GhostTexts::of(values),
        }
    }

    /// Notes what a line says.
    pub(crate) fn of(line: Line<'_>) -> Accepted
        ensures { said_by_entry result ≡ sample_of line.entry }
    {
        match line {
            Line::Amount(context, by) => Accepted::new(Kind::Amount, by, context, ""),
            Line::Level(context, value) => Accepted::new(Kind::Level, 0, context, value),
            Line::Member(line) => Accepted::new(Kind::Member, 0, line, ""),
            Line::Timing(context, values) => Accepted::new(Kind::Timing, 0, context, values),
            Line::Unclear(line) => Accepted::new(Kind::Unclear, 0, line, ""),
            Line::Other(line) => Accepted::new(Kind::Other, 0, line, ""),
        }
    }
}
