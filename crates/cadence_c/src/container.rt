//! The default container of a client, which is that of the process if a variable says so.
ghost use Rattle.std.specs.Prelude.{◌≡◌, [], ◌∷◌, IfErr, IfOk, string_bytes, true};
ghost use Rattle.cadence_environment.specs.EnvironmentFaults.{IsRefusedVariable};
ghost use Rattle.cadence_environment.specs.Switches.{is_yes};
ghost use Rattle.cadence_environment.specs.declared.variables.Variables.{Variables as TheVariables};
ghost use Rattle.cadence_c.specs.Environment.{HasTexts, IsNamed, container_text};
ghost use Rattle.cadence_c.specs.Results.{WritesOut};
ghost use Rattle.cadence_host.specs.Status.{CADENCE_NO_MEMORY, CADENCE_TOO_SMALL, CADENCE_VARIABLE, IsOkOr};

use crate::variable::{CVariables, read_variable, refusal};
use cadence_environment::{EnvironmentError, Variable, container_id, read_origin};
use cadence_host::status::{StatusError, copy_out};
use std::alloc::{AllocError, Global};

/// Returns whether the default container and the default external data are those of the process.
pub fn is_origin_wanted(texts: &CVariables<'_>) -> Result<bool, EnvironmentError>
    ensures said { IfOk result (λ is_wanted. is_wanted ≡ is_yes texts.now.origin.now) }
    ensures refused { IfErr result (λ e. (v : TheVariables) → HasTexts texts.now v →
        IsRefusedVariable v e) }
{
    read_origin(read_variable(texts.origin, Variable::Origin, true)?)
}

// Returns the text of the container of a process: its id, or if it has none the number of its control group, unless that
// is 0. The error is that memory ran out.
fn container_text(alloc: Global, cgroup: &[u8], inode: u64) -> Result<String, AllocError>
    ensures { IfOk result (λ text. string_bytes text ≡ container_text true cgroup.now inode) }
{
    match container_id(cgroup) {
        Some(id) => String::from_str(alloc, id),
        None if inode == 0 => Ok(String::new(alloc)),
        None => format!(in alloc; "in-{inode}"),
    }
}

/// Writes the default container of a client into the first bytes of `out`, and its length into `size`: if the variables say
/// that it is that of the process, its id by this text of `/proc/self/cgroup`, or if the text says none and `inode` is
/// not 0, `in-` and that number, which is the one of the directory of the control group. Otherwise it is empty. If the
/// variable can't be used, its number is in `variable`. No other one is tested.
#[unsafe(no_mangle)]
pub extern "C" fn cadence_environment_container(
    alloc: Global,
    variables: &CVariables<'_>,
    cgroup: &[u8],
    inode: u64,
    out: &mut [u8],
    size: &mut usize,
    variable: &mut u32,
) -> u32
    ensures container { (v : TheVariables) → HasTexts variables.now v →
        WritesOut result (λ text. text ≡ container_text (is_yes v.origin.now) cgroup.now inode)
        out.new size.new }
    ensures refused { result ≡ CADENCE_VARIABLE → (v : TheVariables) → HasTexts variables.now v →
        IsNamed v variable.new }
    ensures statuses { IsOkOr (CADENCE_VARIABLE ∷ CADENCE_NO_MEMORY ∷ CADENCE_TOO_SMALL ∷ [])
        result }
{
    *size = 0;
    match is_origin_wanted(variables) {
        Ok(true) => match container_text(alloc, cgroup, inode) {
            Ok(text) => copy_out(text.as_bytes(), out, size),
            Err(_) => StatusError::NoMemory.code(),
        },
        Ok(false) => copy_out(&[], out, size),
        Err(error) => refusal(error, variable),
    }
}
