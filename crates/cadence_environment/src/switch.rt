//! The switches of the environment: whether nothing is sent, whether the default container is that of the process, and
//! whether a host is looked up for addresses of IPv6 alone.
ghost use Rattle.std.specs.Prelude.{◌≡◌, IfErr, IfOk};
ghost use Rattle.cadence_environment.specs.EnvironmentFaults.{IsRefusedVariable, IsSetFault, NamesNoPath};
ghost use Rattle.cadence_environment.specs.Switches.{IsSwitch, is_no, is_yes, turns_off};
ghost use Rattle.cadence_environment.specs.declared.variables.Variable.TheVariants as variable;

use crate::error::EnvironmentError;
use crate::variables::{Variable, Variables};

// Returns whether a text says yes.
fn says_yes(text: &str) -> bool
    ensures { result ≡ is_yes text.now }
{
    text == "1" || (text == "true" || (text == "True" || text == "yes"))
}

// Returns whether a text says no.
fn says_no(text: &str) -> bool
    ensures { result ≡ is_no text.now }
{
    text == "0" || (text == "false" || (text == "False" || text == "no"))
}

/// Returns whether these texts of `DD_DOGSTATSD_DISABLE` and of `STATSD_ENABLED` say that nothing is sent.
pub fn is_off(disable: &str, enabled: &str) -> bool
    ensures { result ≡ turns_off disable.now enabled.now }
{
    says_yes(disable) || says_no(enabled)
}

// Tests whether a variable says yes or no, if it is set.
fn check_switch(variable: Variable, text: &str) -> Result<(), EnvironmentError>
    ensures said { IfOk result (λ _. IsSwitch text.now) }
    ensures refused { IfErr result (IsSetFault variable text.now) }
{
    if text.is_empty() || says_yes(text) || says_no(text) {
        return Ok(());
    }
    Err(EnvironmentError::Unusable(variable))
}

// Tests whether the two variables say yes or no, if they are set.
pub(crate) fn check_switches(variables: &Variables<'_>) -> Result<(), EnvironmentError>
    ensures disable { IfOk result (λ _. IsSwitch variables.now.disable.now) }
    ensures enabled { IfOk result (λ _. IsSwitch variables.now.enabled.now) }
    ensures refused { IfErr result (IsRefusedVariable variables.now) }
    ensures paths { IfErr result (NamesNoPath variables.now) }
{
    check_switch(Variable::Disable, variables.disable)?;
    check_switch(Variable::Enabled, variables.enabled)
}

// Returns whether a variable says yes.
fn read_switch(variable: Variable, text: &str) -> Result<bool, EnvironmentError>
    ensures said { IfOk result (λ is_wanted. is_wanted ≡ is_yes text.now) }
    ensures switch { IfOk result (λ _. IsSwitch text.now) }
    ensures refused { IfErr result (IsSetFault variable text.now) }
{
    check_switch(variable, text)?;
    Ok(says_yes(text))
}

/// Returns whether this text of `DD_ORIGIN_DETECTION_ENABLED` says that the default container is that of the process.
///
/// # Errors
/// `Unusable` if the text is set and says neither yes nor no.
pub fn read_origin(text: &str) -> Result<bool, EnvironmentError>
    ensures said { IfOk result (λ is_wanted. is_wanted ≡ is_yes text.now) }
    ensures switch { IfOk result (λ _. IsSwitch text.now) }
    ensures refused { IfErr result (IsSetFault variable.Origin text.now) }
{
    read_switch(Variable::Origin, text)
}

// Returns whether this text of `STATSD_IPV6` says that a host is looked up for addresses of IPv6 alone.
pub(crate) fn read_ipv6(text: &str) -> Result<bool, EnvironmentError>
    ensures said { IfOk result (λ only_ipv6. only_ipv6 ≡ is_yes text.now) }
    ensures switch { IfOk result (λ _. IsSwitch text.now) }
    ensures refused { IfErr result (IsSetFault variable.Ipv6 text.now) }
{
    read_switch(Variable::Ipv6, text)
}
