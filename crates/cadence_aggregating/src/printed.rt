//! Writes the line that says something, and notes what it says.
ghost use Rattle.std.specs.Prelude.{◌≡◌, ◌++◌, [], IfOk, OnOk, length, string_bytes};
ghost use Rattle.cadence_aggregate.specs.Lines.{sample_of};
ghost use Rattle.cadence_value.specs.Number.{natural, number_text, whole};
ghost use Rattle.cadence_aggregating.specs.Noted.{noted};
ghost use Rattle.cadence_aggregating.specs.Notes.{line_of_note, sample_of_note};
ghost use Rattle.cadence_aggregating.specs.Printed.{before_bar, from_bar, spliced, line_saying};

use crate::note::{Kind, Note};
use cadence_aggregate::Line;
use cadence_read::cut_text_field;
use cadence_stage::GhostTexts;
use cadence_value::decimal::Decimal;
use std::alloc::AllocError;
use std::fmt::Write;

// Cuts a context before its first bar.
fn cut_context(context: &str) -> (&str, &str)
    ensures name { result.0.now ≡ before_bar context.now }
    ensures fields { result.1.now ≡ from_bar context.now }
{
    cut_text_field(context)
}

// Writes a whole number at the end of a text.
fn write_whole(text: &mut String, number: i64) -> Result<(), AllocError>
    ensures { OnOk result (string_bytes text.new
        ≡ string_bytes text.old ++ number_text (whole number)) }
{
    let Ok(number) = Decimal::new(i128::from(number), 0) else {
        return Err(AllocError);
    };
    write!(text, "{number}")
}

/// Writes a whole number, in place of what the text had. The only error is that memory ran out.
pub(crate) fn rewrite(text: &mut String, number: u64) -> Result<(), AllocError>
    ensures { OnOk result (string_bytes text.new ≡ number_text (natural number)) }
{
    text.clear();
    let Ok(number) = Decimal::new(i128::from(number), 0) else {
        return Err(AllocError);
    };
    write!(text, "{number}")
}

// Writes the line of a counter that is raised by a number. Returns the length of the name and that of the number.
fn write_amount(text: &mut String, context: &str, by: i64) -> Result<(usize, usize), AllocError>
    requires { string_bytes text.old ≡ [] }
    ensures line { OnOk result (string_bytes text.new
        ≡ spliced context.now (number_text (whole by))) }
    ensures name { IfOk result (λ lengths. lengths.0 ≡ length (before_bar context.now)) }
    ensures values { IfOk result (λ lengths. lengths.1 ≡ length (number_text (whole by))) }
{
    let (name, fields) = cut_context(context);
    text.push_str(name)?;
    text.push(':')?;
    let before = text.len();
    write_whole(text, by)?;
    let values = text.len() - before;
    text.push_str(fields)?;
    Ok((name.len(), values))
}

// Writes the line of a context with values. Returns the length of the name.
fn write_values(text: &mut String, context: &str, values: &str) -> Result<usize, AllocError>
    requires { string_bytes text.old ≡ [] }
    ensures line { OnOk result (string_bytes text.new ≡ spliced context.now values.now) }
    ensures name { IfOk result (λ name. name ≡ length (before_bar context.now)) }
{
    let (name, fields) = cut_context(context);
    text.push_str(name)?;
    text.push(':')?;
    text.push_str(values)?;
    text.push_str(fields)?;
    Ok(name.len())
}

// Notes what the line in a text says.
fn note_of(kind: Kind, by: i64, name: usize, values: usize, text: &String) -> Note
    requires { string_bytes text.now
        ≡ line_saying (noted kind by name values (string_bytes text.now)) }
    ensures said { sample_of_note result ≡ noted kind by name values (string_bytes text.now) }
    ensures line { line_of_note result ≡ string_bytes text.now }
{
    Note {
        kind,
        by,
        name,
        values,
        line: GhostTexts::of(text.as_str()),
    }
}

/// Writes the line that says this, in place of what the text had. Returns a note of it.
pub fn note_line(text: &mut String, line: Line<'_>) -> Result<Note, AllocError>
    ensures said { IfOk result (λ note. sample_of_note note ≡ sample_of line.entry) }
    ensures line { IfOk result (λ note. string_bytes text.new ≡ line_of_note note) }
{
    text.clear();
    match line {
        Line::Amount(context, by) => {
            let (name, values) = write_amount(text, context, by)?;
            Ok(note_of(Kind::Amount, by, name, values, text))
        }
        Line::Level(context, value) => {
            let name = write_values(text, context, value)?;
            Ok(note_of(Kind::Level, 0, name, value.len(), text))
        }
        Line::Member(line) => {
            text.push_str(line)?;
            Ok(note_of(Kind::Member, 0, 0, 0, text))
        }
        Line::Timing(context, values) => {
            let name = write_values(text, context, values)?;
            Ok(note_of(Kind::Timing, 0, name, values.len(), text))
        }
        Line::Unclear(line) => {
            text.push_str(line)?;
            Ok(note_of(Kind::Unclear, 0, 0, 0, text))
        }
        Line::Other(line) => {
            text.push_str(line)?;
            Ok(note_of(Kind::Other, 0, 0, 0, text))
        }
    }
}
