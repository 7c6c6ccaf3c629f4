//! Why a run ended early.
ghost use Rattle.std.specs.Prelude.{◌≡◌, ◌⊎◌};

use cadence_errors::SinkError;
use std::alloc::AllocError;
use std::io;
use thiserror::Error;

/// Why a run ended early.
#[derive(Debug, Drop, Error)]
pub enum RunError {
    /// The input can't be read, for this reason.
    #[error("input: cannot read: {0}")]
    Input(io::Error),
    /// The writer of packets refused a packet.
    #[error("cannot send: {0}")]
    Writer(SinkError),
    /// Memory ran out.
    #[error("out of memory")]
    OutOfMemory,
}

impl From<AllocError> for RunError {
    fn from(_error: AllocError) -> RunError {
        RunError::OutOfMemory
    }
}

impl From<SinkError> for RunError {
    fn from(error: SinkError) -> RunError {
        match error {
            SinkError::OutOfMemory => RunError::OutOfMemory,
            refusal => RunError::Writer(refusal),
        }
    }
}

impl RunError {
    /// Returns the exit status of a program that ends with this error: 3 if memory ran out, and 1 for every other
    /// error.
    pub fn status(&self) -> u8
        ensures { (result ≡ 1) ⊎ (result ≡ 3) }
    {
        match self {
            RunError::Input(_) | RunError::Writer(_) => 1,
            RunError::OutOfMemory => 3,
        }
    }
}
