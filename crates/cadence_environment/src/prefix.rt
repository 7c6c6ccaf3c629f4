//! The prefix that a variable says.
ghost use Rattle.std.specs.Prelude.{◌≡◌, IfErr, IfOk};
ghost use Rattle.cadence_environment.specs.EnvironmentFaults.{IsSetFault};
ghost use Rattle.cadence_environment.specs.declared.variables.Variable.TheVariants as variable;

use crate::error::EnvironmentError;
use crate::variables::Variable;

// Returns whether the text has a colon, a comma, a bar or a newline.
fn has_mark(text: &str) -> bool {
    text.as_bytes().iter().any(|byte| *byte == b':'
        || *byte == b','
        || *byte == b'|'
        || *byte == b'\n')
}

/// Tests this text of `STATSD_PREFIX`, and returns it.
///
/// # Errors
/// `Unusable` if the text has a colon, a comma, a bar or a newline.
pub fn read_prefix(text: &str) -> Result<&str, EnvironmentError>
    ensures same { IfOk result (λ prefix. prefix.now ≡ text.now) }
    ensures refused { IfErr result (IsSetFault variable.Prefix text.now) }
{
    if !text.is_empty() && has_mark(text) {
        return Err(EnvironmentError::Unusable(Variable::Prefix));
    }
    Ok(text)
}
