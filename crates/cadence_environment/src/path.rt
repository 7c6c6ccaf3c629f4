//! Which texts can be the path of a Unix socket.
ghost use Rattle.std.specs.Prelude.{IfErr, IfOk};
ghost use Rattle.cadence_errors.specs.Errors.{IsInvalid};
ghost use Rattle.cadence_environment.specs.Paths.{IsFault, IsPath};

use cadence_errors::{ErrorKind, MetricError};
use std::fmt;

/// The most bytes that the path of a Unix socket can have. The system keeps one byte more, for the NUL at its end.
pub const MAX_PATH: usize = 107;

/// Why a text can't be the path of a Unix socket.
#[derive(Clone, Copy, Debug, PartialEq, Eq)]
pub enum PathError {
    /// The path is empty.
    Empty,
    /// The path has a NUL, and the system would read it only up to there.
    Nul,
    /// The path has more than `MAX_PATH` bytes.
    TooLong,
}

impl PathError {
    /// Returns what is wrong with the path.
    pub fn text(self) -> &'static str {
        match self {
            PathError::Empty => "the path of a Unix socket is empty",
            PathError::Nul => "the path of a Unix socket has a NUL inside",
            PathError::TooLong => "the path of a Unix socket has more than 107 bytes",
        }
    }
}

/// Prints what is wrong with the path.
impl fmt::Display for PathError {
    fn fmt<W: fmt::Write>(&self, f: &mut fmt::Formatter<W>) -> fmt::Result {
        f.write_str((*self).text())
    }
}

/// Makes a `Described` error of the kind `InvalidInput`, whose text says what is wrong with the path.
impl From<PathError> for MetricError {
    ghost from_gives = { λ _ e. IsInvalid e };

    fn from(fault: PathError) -> MetricError {
        MetricError::from((ErrorKind::InvalidInput, fault.text()))
    }
}

/// Tests whether a text can be the path of a Unix socket: it has from 1 to `MAX_PATH` bytes, and none is a NUL. Whether
/// a socket is bound to the path is not tested, because that may change at any time.
///
/// # Errors
/// A fault that the path has. A path that has several gives one of them.
pub fn check_path(path: &str) -> Result<(), PathError>
    ensures fits { IfOk result (λ _. IsPath path.now) }
    ensures fault { IfErr result (IsFault path.now) }
{
    let bytes = path.as_bytes();
    if bytes.is_empty() {
        return Err(PathError::Empty);
    }
    if bytes.contains(&0) {
        return Err(PathError::Nul);
    }
    if bytes.len() > MAX_PATH {
        return Err(PathError::TooLong);
    }
    Ok(())
}
