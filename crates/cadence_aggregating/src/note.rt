//! A record of what a line says, for proofs.
ghost use Rattle.std.specs.Prelude.{◌≡◌, FitsSigned};
ghost use mir.Syntax.{w64};
ghost use Rattle.cadence_aggregating.specs.Noted.{noted};
ghost use Rattle.cadence_stage.specs.Call.{only_text};
ghost use Rattle.cadence_aggregating.specs.Printed.{line_saying};

use cadence_stage::GhostTexts;

/// What a line is about.
#[derive(Clone, Copy)]
pub enum Kind {
    /// A counter is raised.
    Amount,
    /// A gauge has a value.
    Level,
    /// A set has a member.
    Member,
    /// A timer, a histogram or a distribution has values.
    Timing,
    /// The line may set a gauge, though nothing says which one, or to what.
    Unclear,
    /// The line is none of these.
    Other,
}

/// What a line says, for proofs: the kind, the number by which a counter is raised, the length of the name and that of
/// the values in bytes, and the line, which is in a list of its own.
#[derive(Drop)]
pub struct Note {
    pub(crate) kind: Kind,
    pub(crate) by: i64,
    pub(crate) name: usize,
    pub(crate) values: usize,
    pub(crate) line: GhostTexts,
    pub ghost in_range: { FitsSigned w64 by },
    pub ghost printed: { only_text line.items
        ≡ line_saying (noted kind by name values (only_text line.items)) },
}
