//! The cardinality that the variables say: which tags of a container a Datadog agent adds.
ghost use Rattle.std.specs.Prelude.{IfErr, IfOk, OnErr};
ghost use Rattle.cadence_value.specs.Finds.{HasNone};
ghost use Rattle.cadence_environment.specs.Cardinalities.{SaysCardinality, first_set};
ghost use Rattle.cadence_environment.specs.EnvironmentFaults.{IsCardinalityFault, IsRefusedVariable, IsSetFault, NamesNoPath};
ghost use Rattle.cadence_environment.specs.declared.variables.Variable.TheVariants as variable;

use crate::error::EnvironmentError;
use crate::variables::{Variable, Variables};
use cadence_text::line::Cardinality;

// Returns the cardinality that a variable says, or none if the variable is not set.
fn read_word(variable: Variable, text: &str) -> Result<Option<Cardinality>, EnvironmentError>
    ensures said { IfOk result (SaysCardinality text.now) }
    ensures refused { IfErr result (IsSetFault variable text.now) }
    ensures none { OnErr result (HasNone (SaysCardinality text.now)) }
{
    if text.is_empty() {
        return Ok(None);
    }
    match Cardinality::from_text(text) {
        Some(cardinality) => Ok(Some(cardinality)),
        None => Err(EnvironmentError::Unusable(variable)),
    }
}

/// Returns the cardinality that these texts of `DD_CARDINALITY` and of `DATADOG_CARDINALITY` say: that of the first one,
/// or that of the second one if the first one is empty, or none if both are.
///
/// # Errors
/// `Unusable` with the variable that is read if its text is none of `none`, `low`, `orchestrator` and `high`.
pub fn read_cardinality(first: &str, second: &str) -> Result<Option<Cardinality>, EnvironmentError>
    ensures said { IfOk result (SaysCardinality (first_set first.now second.now)) }
    ensures refused { IfErr result (IsCardinalityFault first.now second.now) }
    ensures none { OnErr result (HasNone (SaysCardinality (first_set first.now second.now))) }
{
    if first.is_empty() {
        return read_word(Variable::DatadogCardinality, second);
    }
    read_word(Variable::Cardinality, first)
}

// Returns the default cardinality that the variables say.
pub(crate) fn default_cardinality(
    variables: &Variables<'_>,
) -> Result<Option<Cardinality>, EnvironmentError>
    ensures said { IfOk result (SaysCardinality
        (first_set variables.now.cardinality.now variables.now.datadog_cardinality.now)) }
    ensures refused { IfErr result (IsRefusedVariable variables.now) }
    ensures paths { IfErr result (NamesNoPath variables.now) }
{
    read_cardinality(variables.cardinality, variables.datadog_cardinality)
}
