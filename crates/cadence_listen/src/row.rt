//! Prints what a line is, and its parts, as columns with a tab between each two.
ghost use Rattle.std.specs.Prelude.{◌≡◌, ◌++◌, OnOk, string_bytes};
ghost use Rattle.cadence_listen.specs.Rows.{column, row_of};

use cadence_cli::push_bytes;
use cadence_read::AnyLine;
use std::alloc::{AllocError, Allocator};

// Adds a tab and the bytes, which have no tab when they are printed.
fn push_column<A: Allocator>(out: &mut String<A>, bytes: &[u8]) -> Result<(), AllocError>
    ensures { OnOk result (string_bytes out.new ≡ string_bytes out.old ++ column bytes.now) }
{
    out.push('\t')?;
    push_bytes(out, bytes)
}

/// Adds what a line is, and then its parts: of a metric the name, the values, the kind and the other fields, and of
/// every other line the whole line. There is a tab before each part. In a part no tab is printed, since bytes are printed
/// as `push_bytes` does.
///
/// # Errors
/// `AllocError`. A part of the row may be added then.
pub fn push_row<A: Allocator>(out: &mut String<A>, line: AnyLine<'_>) -> Result<(), AllocError>
    ensures { OnOk result (string_bytes out.new ≡ string_bytes out.old ++ row_of line.entry) }
{
    match line {
        AnyLine::MetricLine(parts) => {
            out.push_str("metric")?;
            push_column(out, parts.name)?;
            push_column(out, parts.values)?;
            push_column(out, parts.kind)?;
            push_column(out, parts.fields)
        }
        AnyLine::Event(text) => {
            out.push_str("event")?;
            push_column(out, text)
        }
        AnyLine::ServiceCheck(text) => {
            out.push_str("check")?;
            push_column(out, text)
        }
        AnyLine::Opaque(text) => {
            out.push_str("unreadable")?;
            push_column(out, text)
        }
    }
}
