//! Makes the one line for which the words of a command line ask: that of a metric, of an event or of a service check.
ghost use Rattle.std.specs.Prelude.{map};
ghost use Rattle.cadence_words.specs.Commands.{IsLineOfCommand, IsSubject, first_word};
ghost use Rattle.cadence_words.specs.Finds.{FindsOrFails};

use crate::defaults::Defaults;
use crate::events::{Fields, line_of_check, line_of_event};
use crate::line::write_line_of_words;
use crate::word_error::WordError;
use std::alloc::Allocator;

/// What the words of a command line ask for.
#[derive(Clone, Copy, Debug, PartialEq, Eq)]
pub enum Subject {
    /// A metric.
    Metric,
    /// An event: the first word is `event`.
    Event,
    /// A service check: the first word is `check`.
    ServiceCheck,
}

// Returns what a first word asks for.
fn subject_named(word: &str) -> Subject
    ensures { IsSubject word.now result }
{
    match word {
        "event" => Subject::Event,
        "check" => Subject::ServiceCheck,
        _ => Subject::Metric,
    }
}

/// Returns what the words ask for, as the first of them says.
pub fn subject_of(words: &[&str]) -> Subject
    ensures { IsSubject (first_word (map (λ w. w.now) words.now)) result }
{
    match words.first() {
        Some(word) => subject_named(word),
        None => Subject::Metric,
    }
}

/// Returns the line for which the words of a command line ask, to which the command line adds its defaults:
///
/// - KIND NAME VALUE and any tags: the line of a metric, which `write_line_of_words` writes.
/// - `event` TITLE TEXT and any tags: that of an event, without a prefix and without a rate. It has the event's fields.
/// - `check` NAME STATUS and any tags: that of a service check, of the same kind.
///
/// # Errors
/// `Unusable` if the words ask for none of these or if a text of the fields can't stand in the line, and `OutOfMemory`.
pub fn line_of_command<'a, A: Allocator + Clone>(
    alloc: &A,
    defaults: &Defaults<A>,
    fields: &Fields<'a>,
    words: &[&'a str],
) -> Result<Vec<u8, A>, WordError>
    ensures { FindsOrFails (IsLineOfCommand defaults.now fields.now (map (λ w. w.now) words.now))
        (λ line. line.items) result }
{
    match subject_of(words) {
        Subject::Event => {
            let line = line_of_event(alloc, defaults, fields, words)?;
            Ok(line.into_bytes())
        }
        Subject::ServiceCheck => {
            let line = line_of_check(alloc, defaults, fields, words)?;
            Ok(line.into_bytes())
        }
        Subject::Metric => {
            let mut line = Vec::new(alloc.clone()?);
            write_line_of_words(alloc, defaults, &mut line, words)?;
            Ok(line)
        }
    }
}
