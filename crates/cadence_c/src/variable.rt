//! The texts of the variables of the environment, and their numbers in C.
ghost use Rattle.std.specs.Prelude.{◌≡◌, ◌≢◌, ◌⊎◌, [], ◌∷◌, IfErr, IfOk, None, Some, if◌then◌else◌, true};
ghost use Rattle.cadence_errors.specs.declared.input_error.InputError.TheVariants.{Unusable};
ghost use Rattle.cadence_c.specs.Environment.{Names, variable_named};
ghost use Rattle.cadence_host.specs.Status.{CADENCE_INVALID, CADENCE_NO_MEMORY, CADENCE_TOO_SMALL, CADENCE_VARIABLE, IsOkOr};

use cadence_environment::{EnvironmentError, Variable};
use cadence_host::call::text_of;
use cadence_host::status::{StatusError, copy_out};
use std::alloc::Global;

/// The texts of the variables. A variable that is not set has the empty text.
#[repr(C)]
#[derive(Clone, Copy)]
pub struct CVariables<'a> {
    pub url: &'a [u8],
    pub socket: &'a [u8],
    pub agent_host: &'a [u8],
    pub agent_port: &'a [u8],
    pub statsd_host: &'a [u8],
    pub statsd_port: &'a [u8],
    pub env: &'a [u8],
    pub service: &'a [u8],
    pub version: &'a [u8],
    pub tags: &'a [u8],
    pub entity_id: &'a [u8],
    pub disable: &'a [u8],
    pub enabled: &'a [u8],
    pub max_size: &'a [u8],
    pub prefix: &'a [u8],
    pub origin: &'a [u8],
    pub ipv6: &'a [u8],
    pub external: &'a [u8],
    pub cardinality: &'a [u8],
    pub datadog_cardinality: &'a [u8],
}

/// Returns the text of a variable, or the empty text if it is not wanted.
pub fn read_variable(
    text: &[u8],
    variable: Variable,
    is_wanted: bool,
) -> Result<&str, EnvironmentError>
    ensures read { IfOk result (λ t. t.now ≡ (if is_wanted then text.now else [])) }
    ensures refused { IfErr result (λ e. e ≡ Unusable variable) }
    ensures wanted { IfErr result (λ _. is_wanted ≡ true) }
    ensures set { IfErr result (λ _. text.now ≢ []) }
{
    if !is_wanted || text.is_empty() {
        return Ok("");
    }
    match text_of(text) {
        Some(text) => Ok(text),
        None => Err(EnvironmentError::Unusable(variable)),
    }
}

// Returns the number of a variable in C: its place in the struct of the texts.
fn number_of(variable: Variable) -> u32
    ensures { variable_named result ≡ Some variable }
{
    match variable {
        Variable::Url => 0,
        Variable::Socket => 1,
        Variable::AgentHost => 2,
        Variable::AgentPort => 3,
        Variable::StatsdHost => 4,
        Variable::StatsdPort => 5,
        Variable::Env => 6,
        Variable::Service => 7,
        Variable::Version => 8,
        Variable::Tags => 9,
        Variable::EntityId => 10,
        Variable::Disable => 11,
        Variable::Enabled => 12,
        Variable::MaxSize => 13,
        Variable::Prefix => 14,
        Variable::Origin => 15,
        Variable::Ipv6 => 16,
        Variable::External => 17,
        Variable::Cardinality => 18,
        Variable::DatadogCardinality => 19,
    }
}

/// Returns the status of an error, and stores the number of the variable that the error names.
pub fn refusal(error: EnvironmentError, variable: &mut u32) -> u32
    ensures named { result ≡ CADENCE_VARIABLE → Names error variable.new }
    ensures statuses { (result ≡ CADENCE_VARIABLE) ⊎ (result ≡ CADENCE_NO_MEMORY) }
{
    match error {
        EnvironmentError::Unusable(which) => {
            *variable = number_of(which);
            StatusError::Variable.code()
        }
        EnvironmentError::OutOfMemory => StatusError::NoMemory.code(),
    }
}

// Returns the variable that has this number in C, if one has it.
fn variable_of(number: u32) -> Option<Variable>
    ensures { result ≡ variable_named number }
{
    match number {
        0 => Some(Variable::Url),
        1 => Some(Variable::Socket),
        2 => Some(Variable::AgentHost),
        3 => Some(Variable::AgentPort),
        4 => Some(Variable::StatsdHost),
        5 => Some(Variable::StatsdPort),
        6 => Some(Variable::Env),
        7 => Some(Variable::Service),
        8 => Some(Variable::Version),
        9 => Some(Variable::Tags),
        10 => Some(Variable::EntityId),
        11 => Some(Variable::Disable),
        12 => Some(Variable::Enabled),
        13 => Some(Variable::MaxSize),
        14 => Some(Variable::Prefix),
        15 => Some(Variable::Origin),
        16 => Some(Variable::Ipv6),
        17 => Some(Variable::External),
        18 => Some(Variable::Cardinality),
        19 => Some(Variable::DatadogCardinality),
        _ => None,
    }
}

/// Writes the message for a variable that can't be used into the first bytes of `out`, and the length of that text into
/// `size`. The message begins with the name of the variable, and says what its value has to be. The status is that of
/// `Invalid` if no variable has the number.
#[unsafe(no_mangle)]
pub extern "C" fn cadence_variable_text(
    alloc: Global,
    variable: u32,
    out: &mut [u8],
    size: &mut usize,
) -> u32
    ensures invalid { result ≡ CADENCE_INVALID → variable_named variable ≡ None }
    ensures statuses { IsOkOr
        (CADENCE_INVALID ∷ CADENCE_NO_MEMORY ∷ CADENCE_TOO_SMALL ∷ []) result }
{
    *size = 0;
    let Some(variable) = variable_of(variable) else {
        return StatusError::Invalid.code();
    };
    let Ok(text) = format!(in alloc; "{variable}") else {
        return StatusError::NoMemory.code();
    };
    copy_out(text.as_bytes(), out, size)
}
