//! The error of a call that reads an input.
ghost use Rattle.std.specs.Prelude.{◌≡◌, IfSome, List, None, Option, ℕ};
ghost use Rattle.cadence_errors.specs.declared.input_error.InputError.TheVariants.{OutOfMemory};
ghost use Rattle.cadence_errors.specs.InputErrors.{IsSame};

use crate::{ErrorKind, MetricError, SinkError};
use std::alloc::{AllocError, AllocFailed};
use std::fmt;
use thiserror::Error;

/// Why an input was not used. The type `W` says what is wrong with it.
#[derive(Clone, Copy, Debug, PartialEq, Eq, Error)]
#[error_bound(W: fmt::Debug + fmt::Display)]
pub enum InputError<W> {
    /// The input can't be used, for this reason.
    #[error("{0}")]
    Unusable(W),
    /// Memory ran out.
    #[error("out of memory")]
    OutOfMemory,
}

impl<W> From<AllocError> for InputError<W> {
    ghost from_gives = { λ _ e. e ≡ OutOfMemory };

    fn from(_error: AllocError) -> InputError<W> {
        InputError::OutOfMemory
    }
}

/// Drops the value that could not be stored.
impl<W, T: Drop> From<AllocFailed<T>> for InputError<W> {
    ghost from_gives = { λ _ e. e ≡ OutOfMemory };

    fn from(_error: AllocFailed<T>) -> InputError<W> {
        InputError::OutOfMemory
    }
}

/// What is wrong with the input of a call that makes or sends a metric.
pub trait Reason {
    /// The text of the call's error, if contracts name it.
    ghost said: { Self → Option (List ℕ) } = { λ _. None };

    /// Returns the text of the call's error.
    fn message(self) -> &'static str
        ensures { IfSome (said self) (λ text. result.now ≡ text) };
}

/// Makes a `Described` error of the kind `InvalidInput` with the reason's text, or `SinkError::OutOfMemory`.
impl<W: Reason> From<InputError<W>> for MetricError {
    ghost from_gives = { IsSame W.said };

    fn from(error: InputError<W>) -> MetricError {
        match error {
            InputError::Unusable(why) => MetricError::from((
                ErrorKind::InvalidInput,
                why.message(),
            )),
            InputError::OutOfMemory => MetricError::Sink(SinkError::OutOfMemory),
        }
    }
}
