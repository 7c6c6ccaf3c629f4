//! By what a Datadog agent adds tags to the lines of a client: the default external data, which are those of the process
//! if a variable says so, and the default cardinality.
ghost use Rattle.std.specs.Prelude.{◌≡◌, ◌≢◌, ◌≤◌, [], ◌∷◌, IfErr, IfOk, string_bytes};
ghost use Rattle.cadence_environment.specs.Cardinalities.{SaysCardinality, first_set};
ghost use Rattle.cadence_environment.specs.EnvironmentFaults.{IsRefusedVariable};
ghost use Rattle.cadence_environment.specs.ExternalData.{external_of};
ghost use Rattle.cadence_environment.specs.Switches.{is_yes};
ghost use Rattle.cadence_environment.specs.declared.variables.Variables.{Variables as TheVariables};
ghost use Rattle.cadence_c.specs.Environment.{HasTexts, IsNamed, when};
ghost use Rattle.cadence_c.specs.Results.{WritesOut};
ghost use Rattle.cadence_host.specs.Calls.{CADENCE_CARDINALITY_HIGH, cardinality_named};
ghost use Rattle.cadence_host.specs.Status.{CADENCE_NO_MEMORY, CADENCE_OK, CADENCE_TOO_SMALL, CADENCE_VARIABLE, IsOkOr};

use crate::container::is_origin_wanted;
use crate::variable::{CVariables, read_variable, refusal};
use cadence_environment::{EnvironmentError, Variable, read_cardinality, read_external};
use cadence_host::call::HIGH;
use cadence_host::status::{OK, copy_out};
use cadence_text::line::Cardinality;
use std::alloc::Global;

// Returns the default external data, which are empty unless they are those of the process.
fn default_external(alloc: Global, texts: &CVariables<'_>) -> Result<String, EnvironmentError>
    ensures said { IfOk result (λ text. (v : TheVariables) → HasTexts texts.now v →
        string_bytes text ≡ when (is_yes v.origin.now) (external_of v.external.now)) }
    ensures refused { IfErr result (λ e. (v : TheVariables) → HasTexts texts.now v →
        IsRefusedVariable v e) }
{
    if !is_origin_wanted(texts)? {
        return Ok(String::new(alloc));
    }
    let text = read_variable(texts.external, Variable::External, true)?;
    Ok(read_external(alloc, text)?)
}

/// Writes the default external data of a client into the first bytes of `out`, and their length into `size`: if the
/// variables say that they are those of the process, the text of their variable without bars and control characters of
/// ASCII. Otherwise they are empty, and that variable is not tested. If a variable can't be used, its number is in
/// `variable`. Only these two are tested.
#[unsafe(no_mangle)]
pub extern "C" fn cadence_environment_external(
    alloc: Global,
    variables: &CVariables<'_>,
    out: &mut [u8],
    size: &mut usize,
    variable: &mut u32,
) -> u32
    ensures external { (v : TheVariables) → HasTexts variables.now v →
        WritesOut result (λ text. text ≡ when (is_yes v.origin.now) (external_of v.external.now))
        out.new size.new }
    ensures refused { result ≡ CADENCE_VARIABLE → (v : TheVariables) → HasTexts variables.now v →
        IsNamed v variable.new }
    ensures statuses { IsOkOr (CADENCE_VARIABLE ∷ CADENCE_NO_MEMORY ∷ CADENCE_TOO_SMALL ∷ [])
        result }
{
    *size = 0;
    match default_external(alloc, variables) {
        Ok(text) => copy_out(text.as_bytes(), out, size),
        Err(error) => refusal(error, variable),
    }
}

// Returns the default cardinality. Its second variable is read if the first one is not set.
fn default_cardinality(texts: &CVariables<'_>) -> Result<Option<Cardinality>, EnvironmentError>
    ensures said { IfOk result (λ cardinality. (v : TheVariables) → HasTexts texts.now v →
        SaysCardinality (first_set v.cardinality.now v.datadog_cardinality.now) cardinality) }
    ensures refused { IfErr result (λ e. (v : TheVariables) → HasTexts texts.now v →
        IsRefusedVariable v e) }
{
    if !texts.cardinality.is_empty() {
        let first = read_variable(texts.cardinality, Variable::Cardinality, true)?;
        return read_cardinality(first, "");
    }
    let variable = Variable::DatadogCardinality;
    read_cardinality(
        "",
        read_variable(texts.datadog_cardinality, variable, true)?,
    )
}

// Returns the number of a cardinality in C, or 0 for none.
fn number_of(cardinality: Option<Cardinality>) -> u32
    ensures named { cardinality_named result ≡ cardinality }
    ensures known { result ≤ CADENCE_CARDINALITY_HIGH }
{
    match cardinality {
        None => 0,
        Some(Cardinality::NoTags) => 1,
        Some(Cardinality::Low) => 2,
        Some(Cardinality::Orchestrator) => 3,
        Some(Cardinality::High) => HIGH,
    }
}

/// Sets `cardinality` to the number of the default cardinality that the variables say, or to 0 if they say none. If a
/// variable can't be used, its number is in `variable`, and `cardinality` is as it was. Only the two variables of the
/// cardinality are tested, and the second one only if the first one is not set.
#[unsafe(no_mangle)]
pub extern "C" fn cadence_environment_cardinality(
    variables: &CVariables<'_>,
    cardinality: &mut u32,
    variable: &mut u32,
) -> u32
    ensures said { result ≡ CADENCE_OK → (v : TheVariables) → HasTexts variables.now v →
        SaysCardinality (first_set v.cardinality.now v.datadog_cardinality.now)
        (cardinality_named cardinality.new) }
    ensures known { result ≡ CADENCE_OK → cardinality.new ≤ CADENCE_CARDINALITY_HIGH }
    ensures unchanged { result ≢ CADENCE_OK → cardinality.new ≡ cardinality.old }
    ensures refused { result ≡ CADENCE_VARIABLE → (v : TheVariables) → HasTexts variables.now v →
        IsNamed v variable.new }
    ensures statuses { IsOkOr (CADENCE_VARIABLE ∷ CADENCE_NO_MEMORY ∷ []) result }
{
    match default_cardinality(variables) {
        Ok(said) => {
            *cardinality = number_of(said);
            OK
        }
        Err(error) => refusal(error, variable),
    }
}
