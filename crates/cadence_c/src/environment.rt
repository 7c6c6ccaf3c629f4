//! What the variables of the environment say of a client, for a host that read them. The calls need no client, and threads
//! may make them at the same time.
ghost use Rattle.std.specs.Prelude.{◌≡◌, ◌&&◌, [], ◌∷◌, IfErr, IfOk, IsFalse, map, not, true};
ghost use Rattle.cadence_text.specs.Line.{tags_field};
ghost use Rattle.cadence_text.specs.Owned.{tag_of_owned};
ghost use Rattle.cadence_environment.specs.Destinations.{SaysPlace};
ghost use Rattle.cadence_environment.specs.EnvironmentFaults.{IsRefusedVariable};
ghost use Rattle.cadence_environment.specs.Shown.{destination_of, tags_of};
ghost use Rattle.cadence_environment.specs.TagTexts.{has_bytes, tags_said};
ghost use Rattle.cadence_environment.specs.Switches.{turns_off};
ghost use Rattle.cadence_environment.specs.declared.variables.Variables.{Variables as TheVariables};
ghost use Rattle.cadence_c.specs.Environment.{ArePlacesRead, AreTagsRead, HasTexts, IsNamed, SaysTarget};
ghost use Rattle.cadence_c.specs.Results.{WritesOut};
ghost use Rattle.cadence_host.specs.Status.{CADENCE_NO_MEMORY, CADENCE_TOO_SMALL, CADENCE_VARIABLE, IsOkOr};

use crate::variable::{CVariables, read_variable, refusal};
use cadence_environment::{
    Destination, Environment, EnvironmentError, Variable, Variables, is_off, read_prefix,
};
use cadence_host::status::{StatusError, copy_out};
use cadence_text::line::{OwnedTag, TagsText, lend_tag};
use std::alloc::{AllocError, Global};

// Returns whether these texts of two variables don't say that nothing is sent.
fn is_sending(disable: &str, enabled: &str) -> bool
    ensures same { result ≡ not (turns_off disable.now enabled.now) }
    ensures on { result ≡ true → IsFalse (turns_off disable.now enabled.now) }
{
    !is_off(disable, enabled)
}

// Returns whether a variable that is read lets the next one be read, because it is not set.
fn lets_pass(is_read: bool, text: &[u8]) -> bool
    ensures same { result ≡ (is_read && not (has_bytes text.now)) }
    ensures read { result ≡ true → is_read ≡ true }
    ensures unset { result ≡ true → text.now ≡ [] }
{
    is_read && text.is_empty()
}

// Returns the texts of the variables that say where to send. One that another variable overrides has the empty text, so
// it is not tested, and so has each other variable.
fn read_places<'a>(texts: &CVariables<'a>) -> Result<Variables<'a>, EnvironmentError>
    ensures read { IfOk result (ArePlacesRead texts.now) }
    ensures refused { IfErr result (λ e. (v : TheVariables) →
        HasTexts texts.now v → IsRefusedVariable v e) }
{
    let disable = read_variable(texts.disable, Variable::Disable, true)?;
    let enabled = read_variable(texts.enabled, Variable::Enabled, true)?;
    let is_on = is_sending(disable, enabled);
    let no_url = lets_pass(is_on, texts.url);
    let no_path = lets_pass(no_url, texts.socket);
    let no_agent = lets_pass(lets_pass(no_path, texts.agent_host), texts.agent_port);
    Ok(Variables {
        url: read_variable(texts.url, Variable::Url, is_on)?,
        socket: read_variable(texts.socket, Variable::Socket, no_url)?,
        agent_host: read_variable(texts.agent_host, Variable::AgentHost, no_path)?,
        agent_port: read_variable(texts.agent_port, Variable::AgentPort, no_path)?,
        statsd_host: read_variable(texts.statsd_host, Variable::StatsdHost, no_agent)?,
        statsd_port: read_variable(texts.statsd_port, Variable::StatsdPort, no_agent)?,
        env: "",
        service: "",
        version: "",
        tags: "",
        entity_id: "",
        disable,
        enabled,
        max_size: read_variable(texts.max_size, Variable::MaxSize, is_on)?,
        prefix: "",
        origin: "",
        ipv6: read_variable(texts.ipv6, Variable::Ipv6, is_on)?,
        external: "",
        cardinality: "",
        datadog_cardinality: "",
    })
}

// Returns the texts of the variables that say tags. Each other variable has the empty text.
fn read_tag_texts<'a>(texts: &CVariables<'a>) -> Result<Variables<'a>, EnvironmentError>
    ensures read { IfOk result (AreTagsRead texts.now) }
    ensures refused { IfErr result (λ e. (v : TheVariables) →
        HasTexts texts.now v → IsRefusedVariable v e) }
{
    Ok(Variables {
        url: "",
        socket: "",
        agent_host: "",
        agent_port: "",
        statsd_host: "",
        statsd_port: "",
        env: read_variable(texts.env, Variable::Env, true)?,
        service: read_variable(texts.service, Variable::Service, true)?,
        version: read_variable(texts.version, Variable::Version, true)?,
        tags: read_variable(texts.tags, Variable::Tags, true)?,
        entity_id: read_variable(texts.entity_id, Variable::EntityId, true)?,
        disable: "",
        enabled: "",
        max_size: "",
        prefix: "",
        origin: "",
        ipv6: "",
        external: "",
        cardinality: "",
        datadog_cardinality: "",
    })
}

// Returns an environment that says where to send.
fn read_destination(alloc: Global, texts: &CVariables<'_>) -> Result<Environment, EnvironmentError>
    ensures place { IfOk result (λ e. (v : TheVariables) → HasTexts texts.now v →
        SaysPlace v (destination_of e)) }
    ensures refused { IfErr result (λ e. (v : TheVariables) → HasTexts texts.now v →
        IsRefusedVariable v e) }
{
    let variables = read_places(texts)?;
    Environment::from_variables(alloc, &variables)
}

// Returns an environment that says the tags.
fn read_tags(alloc: Global, texts: &CVariables<'_>) -> Result<Environment, EnvironmentError>
    ensures tags { IfOk result (λ e. (v : TheVariables) → HasTexts texts.now v →
        tags_of e ≡ tags_said v) }
    ensures refused { IfErr result (λ e. (v : TheVariables) → HasTexts texts.now v →
        IsRefusedVariable v e) }
{
    let variables = read_tag_texts(texts)?;
    Environment::from_variables(alloc, &variables)
}

/// Writes where the variables say to send into the first bytes of `out`, and the length of that text into `size`: a host,
/// with its port in `port`, or the path of a Unix socket, with the port 0, or no text, with the port 0, if nothing is
/// sent. How many bytes a packet has is in `capacity`, and whether the host is looked up for addresses of IPv6 alone in
/// `only_ipv6`. If a variable can't be used, its number is in `variable`. The variables that say tags are not tested.
#[unsafe(no_mangle)]
pub extern "C" fn cadence_destination(
    alloc: Global,
    variables: &CVariables<'_>,
    out: &mut [u8],
    size: &mut usize,
    port: &mut u16,
    capacity: &mut usize,
    only_ipv6: &mut bool,
    variable: &mut u32,
) -> u32
    ensures target { (v : TheVariables) → HasTexts variables.now v →
        WritesOut result (λ text. SaysTarget v text port.new capacity.new only_ipv6.new)
        out.new size.new }
    ensures refused { result ≡ CADENCE_VARIABLE → (v : TheVariables) → HasTexts variables.now v →
        IsNamed v variable.new }
    ensures statuses { IsOkOr (CADENCE_VARIABLE ∷ CADENCE_NO_MEMORY ∷ CADENCE_TOO_SMALL ∷ [])
        result }
{
    *size = 0;
    let environment = match read_destination(alloc, variables) {
        Ok(environment) => environment,
        Err(error) => return refusal(error, variable),
    };
    *capacity = environment.destination().capacity();
    *only_ipv6 = environment.destination().only_ipv6();
    match environment.destination() {
        Destination::Nowhere => {
            *port = 0;
            copy_out(&[], out, size)
        }
        Destination::Udp {
            host,
            port: number,
            ..
        } => {
            *port = *number;
            copy_out(host.as_bytes(), out, size)
        }
        Destination::Unix { path } => {
            *port = 0;
            copy_out(path.as_bytes(), out, size)
        }
    }
}

// Returns the text of tags that own their texts. The error is that memory ran out.
fn text_of_owned(alloc: Global, tags: &[OwnedTag]) -> Result<TagsText, AllocError>
    ensures { IfOk result (λ text. text ≡ tags_field (map tag_of_owned tags.now)) }
{
    let mut text = TagsText::new(alloc);
    for tag in tags {
        text.add(lend_tag(tag), false)?;
    }
    Ok(text)
}

/// Writes the text of the tags that the variables say into the first bytes of `out`, and its length into `size`. If a
/// variable can't be used, its number is in `variable`. The variables that say where to send are not tested.
#[unsafe(no_mangle)]
pub extern "C" fn cadence_environment_tags(
    alloc: Global,
    variables: &CVariables<'_>,
    out: &mut [u8],
    size: &mut usize,
    variable: &mut u32,
) -> u32
    ensures tags { (v : TheVariables) → HasTexts variables.now v →
        WritesOut result (λ text. text ≡ tags_field (tags_said v)) out.new size.new }
    ensures refused { result ≡ CADENCE_VARIABLE → (v : TheVariables) → HasTexts variables.now v →
        IsNamed v variable.new }
    ensures statuses { IsOkOr (CADENCE_VARIABLE ∷ CADENCE_NO_MEMORY ∷ CADENCE_TOO_SMALL ∷ [])
        result }
{
    *size = 0;
    let environment = match read_tags(alloc, variables) {
        Ok(environment) => environment,
        Err(error) => return refusal(error, variable),
    };
    let Ok(text) = text_of_owned(alloc, environment.tags()) else {
        return StatusError::NoMemory.code();
    };
    copy_out(text.as_str().as_bytes(), out, size)
}

// Returns the prefix that a variable says, after it was tested.
fn read_prefix_text<'a>(texts: &CVariables<'a>) -> Result<&'a str, EnvironmentError>
    ensures same { IfOk result (λ prefix. prefix.now ≡ texts.now.prefix.now) }
    ensures refused { IfErr result (λ e. (v : TheVariables) → HasTexts texts.now v →
        IsRefusedVariable v e) }
{
    read_prefix(read_variable(texts.prefix, Variable::Prefix, true)?)
}

/// Writes the prefix that the variables say into the first bytes of `out`, and its length into `size`. If that variable
/// can't be used, its number is in `variable`. No other one is tested.
#[unsafe(no_mangle)]
pub extern "C" fn cadence_environment_prefix(
    variables: &CVariables<'_>,
    out: &mut [u8],
    size: &mut usize,
    variable: &mut u32,
) -> u32
    ensures prefix { (v : TheVariables) → HasTexts variables.now v →
        WritesOut result (λ text. text ≡ v.prefix.now) out.new size.new }
    ensures refused { result ≡ CADENCE_VARIABLE → (v : TheVariables) → HasTexts variables.now v →
        IsNamed v variable.new }
    ensures statuses { IsOkOr (CADENCE_VARIABLE ∷ CADENCE_NO_MEMORY ∷ CADENCE_TOO_SMALL ∷ [])
        result }
{
    *size = 0;
    match read_prefix_text(variables) {
        Ok(prefix) => copy_out(prefix.as_bytes(), out, size),
        Err(error) => refusal(error, variable),
    }
}
