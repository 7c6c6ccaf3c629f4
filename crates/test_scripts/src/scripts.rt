//! Runs scripts, and compares the outcomes with those that they must have.
use cadence_cli::push_bytes;
use cadence_script::run_script;
use std::alloc::{AllocError, Allocator, Global};
use std::io::{ErrorKind, Read};
use std::rt::Files;
use std::{fs, io};

/// The outcome of a run, or the outcome that it must have: the output, the errors and the exit status.
#[derive(Drop)]
pub struct Outcome {
    pub output: Vec<u8>,
    pub errors: Vec<u8>,
    pub status: u8,
}

impl Outcome {
    /// Returns the first part that differs from `wanted`, and `None` if no part does.
    pub fn difference(&self, wanted: &Outcome) -> Option<&'static str> {
        if self.status != wanted.status {
            Some("has another status")
        } else if self.errors != wanted.errors {
            Some("tells another error")
        } else if self.output != wanted.output {
            Some("prints something else")
        } else {
            None
        }
    }
}

/// Runs the script that is read from this input, with this memory, and returns the outcome.
pub fn outcome_with<A: Allocator + Clone, I: Read>(
    alloc: Global,
    heap: A,
    input: &mut I,
) -> Outcome {
    let (mut output, mut errors) = (Vec::new(alloc), Vec::new(alloc));
    let status = run_script(alloc, heap, input, &mut output, &mut errors);
    Outcome {
        output,
        errors,
        status,
    }
}

/// Runs a script, and returns the outcome.
pub fn outcome_of(alloc: Global, script: &[u8]) -> Outcome {
    let mut input = script;
    outcome_with(alloc, alloc, &mut input)
}

// Reads the file of a row with this ending. Returns `None` if there is no such file.
fn read_file<R: Files + AllocGlobal>(
    rt: &R,
    name: &str,
    ending: &str,
) -> io::Result<Option<Vec<u8>>> {
    let path = format!(in rt.alloc(); "{name}.{ending}")?;
    match fs::read(rt, &path) {
        Ok(bytes) => Ok(Some(bytes)),
        Err(error) if error.kind() == ErrorKind::NotFound => Ok(None),
        Err(error) => Err(error),
    }
}

// Reads the status in a file. Returns 0 if there is no file.
fn parse_status(file: Option<Vec<u8>>) -> io::Result<u8> {
    let Some(bytes) = file else {
        return Ok(0);
    };
    let text = str::from_utf8(&bytes).map_err(|_| io::Error::from(ErrorKind::InvalidData))?;
    text.trim()
        .parse()
        .map_err(|_| io::Error::from(ErrorKind::InvalidData))
}

/// Reads the script of this row.
pub fn read_script<R: Files + AllocGlobal>(rt: &R, name: &str) -> io::Result<Vec<u8>> {
    Ok(read_file(rt, name, "in")?.unwrap_or_else(|| Vec::new(rt.alloc())))
}

/// Runs the script of this row, and returns what differs from the row's files. Returns `None` if nothing does.
pub fn row_difference<R: Files + AllocGlobal>(
    rt: &R,
    name: &str,
) -> io::Result<Option<&'static str>> {
    let none = || Vec::new(rt.alloc());
    let wanted = Outcome {
        output: read_file(rt, name, "out")?.unwrap_or_else(none),
        errors: read_file(rt, name, "err")?.unwrap_or_else(none),
        status: parse_status(read_file(rt, name, "status")?)?,
    };
    Ok(outcome_of(rt.alloc(), &read_script(rt, name)?).difference(&wanted))
}

/// Runs a script of one line that can't be read, and returns what differs from the refusal that is due. Returns `None`
/// if nothing does.
pub fn unreadable_difference(
    alloc: Global,
    line: &str,
) -> Result<Option<&'static str>, AllocError> {
    let wanted = Outcome {
        output: Vec::new(alloc),
        errors: Vec::from_slice(alloc, b"statsd_schedule: line 1: cannot read\n")?,
        status: 2,
    };
    Ok(outcome_of(alloc, line.as_bytes()).difference(&wanted))
}

/// Returns a line in printable ASCII, with the escapes of a report.
pub fn printable(alloc: Global, line: &str) -> Result<String, AllocError> {
    let mut out = String::new(alloc);
    push_bytes(&mut out, line.as_bytes())?;
    Ok(out)
}
