//! Prints a program's report, or why there is none, and returns the exit status.
ghost use Rattle.std.specs.Prelude.{◌≡◌, ◌≤◌, IsOkAnd, string_bytes};
ghost use Rattle.std.specs.Io.KnownBytes.{Appends};

use crate::streams::{BrokenInput, print_all};
use cadence_errors::InputError;
use std::alloc::{AllocError, Allocator};
use std::fmt;
use std::io::Write;

/// Why a program prints no report. The type `E` says what is wrong with an input that was read.
#[derive(Debug, Drop)]
pub enum ReportError<E: Drop> {
    /// The input was read, but it can't be used, for this reason.
    Unusable(E),
    /// The input can't be read.
    Input,
    /// Memory ran out.
    OutOfMemory,
}

impl<E: Drop> From<AllocError> for ReportError<E> {
    fn from(_error: AllocError) -> ReportError<E> {
        ReportError::OutOfMemory
    }
}

impl<E: Drop> From<InputError<BrokenInput>> for ReportError<E> {
    fn from(error: InputError<BrokenInput>) -> ReportError<E> {
        match error {
            InputError::Unusable(BrokenInput) => ReportError::Input,
            InputError::OutOfMemory => ReportError::OutOfMemory,
        }
    }
}

impl<E: fmt::Display + Drop> fmt::Display for ReportError<E> {
    fn fmt<W: fmt::Write>(&self, f: &mut fmt::Formatter<W>) -> fmt::Result {
        match self {
            ReportError::Unusable(why) => write!(f, "{why}"),
            ReportError::Input => f.write_str("input: cannot read"),
            ReportError::OutOfMemory => f.write_str("out of memory"),
        }
    }
}

impl<E: Drop> ReportError<E> {
    /// Returns the exit status of a program that ends with this error: 3 if memory ran out, and 2 for every other
    /// error.
    pub fn status(&self) -> u8
        ensures least { 2 ≤ result }
        ensures most { result ≤ 3 }
    {
        match self {
            ReportError::OutOfMemory => 3,
            _ => 2,
        }
    }
}

/// Prints the report to `output`. If there is no report, it writes one line to `errors` instead, with the name of the
/// program and the error. An error of `errors` is ignored.
///
/// Returns the exit status of the program: 0 if the report was printed; 1 if writing to `output` failed, and then
/// nothing is written to `errors`; otherwise the status of the error.
pub fn print_report<A: Allocator, E: fmt::Display + Drop, O: Write, W: Write>(
    program: &str,
    report: Result<String<A>, ReportError<E>>,
    output: &mut O,
    errors: &mut W,
) -> u8
    ensures most { result ≤ 3 }
    ensures printed { result ≡ 0 → IsOkAnd report (λ text.
        Appends (O.contents output.old) (O.contents output.new) (string_bytes text)) }
{
    match report {
        Ok(text) => match print_all(output, &text) {
            Ok(()) => 0,
            Err(_) => 1,
        },
        Err(error) => {
            let _ = writeln!(errors, "{program}: {error}");
            error.status()
        }
    }
}
