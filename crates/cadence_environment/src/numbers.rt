//! The numbers that the variables say: ports, and how many bytes a packet has.
ghost use Rattle.std.specs.Prelude.{IfErr, IfOk, OnErr};
ghost use Rattle.cadence_value.specs.Finds.{Finds, HasNone};
ghost use Rattle.cadence_environment.specs.Destinations.{IsPort, IsSize, SaysPort, SaysSize};
ghost use Rattle.cadence_environment.specs.EnvironmentFaults.{IsSetFault};
ghost use Rattle.cadence_environment.specs.declared.variables.Variable.TheVariants as variable;

use crate::error::EnvironmentError;
use crate::variables::Variable;
use cadence_resolve::DEFAULT_PORT;

// How many bytes a packet over UDP has if no variable says it, as in the agent's own clients: it fits an Ethernet frame
// with its headers.
const UDP_CAPACITY: usize = 1432;

// The most bytes that a UDP datagram holds.
const MAX_CAPACITY: u16 = 65_507;

/// Reads a port: a number from 1 to 65535, in digits. So a text with a sign is no port.
pub fn read_port(text: &str) -> Option<u16>
    ensures { Finds (IsPort text.now) result }
{
    if text.starts_with('+') {
        return None;
    }
    match text.parse::<u16>() {
        Ok(port) if port > 0 => Some(port),
        _ => None,
    }
}

// Reads how many bytes a packet over UDP has: a number from 1 to 65507, in digits.
fn read_size(text: &str) -> Option<u16>
    ensures { Finds (IsSize text.now) result }
{
    if text.starts_with('+') {
        return None;
    }
    match text.parse::<u16>() {
        Ok(size) if size > 0 && size <= MAX_CAPACITY => Some(size),
        _ => None,
    }
}

// Returns the port that a variable says, or 8125 if the variable is not set.
pub(crate) fn port_or_default(variable: Variable, text: &str) -> Result<u16, EnvironmentError>
    ensures said { IfOk result (SaysPort text.now) }
    ensures refused { IfErr result (IsSetFault variable text.now) }
    ensures none { OnErr result (HasNone (SaysPort text.now)) }
{
    if text.is_empty() {
        return Ok(DEFAULT_PORT);
    }
    match read_port(text) {
        Some(port) => Ok(port),
        None => Err(EnvironmentError::Unusable(variable)),
    }
}

// Returns how many bytes a packet over UDP has, as the variable says, or 1432 if the variable is not set.
pub(crate) fn size_or_default(text: &str) -> Result<usize, EnvironmentError>
    ensures said { IfOk result (SaysSize text.now) }
    ensures refused { IfErr result (IsSetFault variable.MaxSize text.now) }
    ensures none { OnErr result (HasNone (SaysSize text.now)) }
{
    if text.is_empty() {
        return Ok(UDP_CAPACITY);
    }
    match read_size(text) {
        Some(size) => Ok(size as usize),
        None => Err(EnvironmentError::Unusable(Variable::MaxSize)),
    }
}
