//! Why nothing is read from the environment.
use crate::variables::Variable;
use cadence_errors::InputError;

/// Why nothing is read from the environment: `Unusable` with a variable that can't be used as it is, or `OutOfMemory`.
/// Its text names the variable and says what the variable has to be.
pub type EnvironmentError = InputError<Variable>;
