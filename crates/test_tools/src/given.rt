//! An environment of a test's own.
ghost use Rattle.std.specs.Io.{WritesAtMost};

use std::env::{Env, FillError};

/// An environment that has these variables, as in `DD_ENV=prod;DD_TAGS=beta`, and no arguments.
#[derive(Clone, Copy)]
pub struct Given<'a> {
    pub variables: &'a [u8],
}

/// Returns the value of a variable, if it is one of these variables, as in `DD_ENV=prod;DD_TAGS=beta`.
pub fn value_in<'a>(variables: &'a [u8], name: &str) -> Option<&'a [u8]> {
    for variable in variables.split(|byte| *byte == b';') {
        if let Some([b'=', value @ ..]) = variable.strip_prefix(name.as_bytes()) {
            return Some(value);
        }
    }
    None
}

// Copies a value to the start of the buffer, if the buffer is long enough.
fn fill(value: &[u8], buffer: &mut [u8]) -> Result<usize, FillError>
    ensures { WritesAtMost result buffer.new }
{
    if value.len() > buffer.len() {
        return Err(FillError::TooLong);
    }
    buffer[..value.len()].copy_from_slice(value);
    Ok(value.len())
}

/// Copies the value of a variable to the start of the buffer, if it is one of these and the buffer is long enough.
pub fn fill_from(variables: &[u8], name: &str, buffer: &mut [u8]) -> Result<usize, FillError>
    ensures { WritesAtMost result buffer.new }
{
    match value_in(variables, name) {
        Some(value) => fill(value, buffer),
        None => Err(FillError::NotPresent),
    }
}

impl Env for Given<'_> {
    fn arg(&self, _i: usize, _buffer: &mut [u8]) -> Result<usize, FillError> {
        Err(FillError::NotPresent)
    }

    fn var(&self, name: &str, buffer: &mut [u8]) -> Result<usize, FillError> {
        fill_from(self.variables, name, buffer)
    }

    fn var_at(&self, _i: usize, _buffer: &mut [u8]) -> Result<usize, FillError> {
        Err(FillError::NotPresent)
    }
}
