//! The texts of the variables, read from the environment of a runtime.

use crate::error::EnvironmentError;
use crate::switch::is_off;
use crate::variables::{Variable, Variables};
use std::alloc::{Alloc, Allocator};
use std::env;
use std::env::{Env, VarError};

// Returns the text of a variable, or the empty text if it is not set or not wanted.
pub(crate) fn read_text<R: Env + Alloc>(
    rt: &R,
    variable: Variable,
    is_wanted: bool,
) -> Result<String<R::A>, EnvironmentError> {
    if !is_wanted {
        return Ok(String::new(rt.alloc()));
    }
    match env::var(rt, variable.name()) {
        Ok(text) => Ok(text),
        Err(VarError::NotPresent) => Ok(String::new(rt.alloc())),
        Err(VarError::NotUnicode) => Err(EnvironmentError::Unusable(variable)),
        Err(VarError::OutOfMemory) => Err(EnvironmentError::OutOfMemory),
    }
}

// The texts of the variables that say where to send. One that is not set or that another one overrides has the empty
// text.
#[derive(Drop)]
pub(crate) struct PlaceTexts<A: Allocator> {
    url: String<A>,
    socket: String<A>,
    agent_host: String<A>,
    agent_port: String<A>,
    statsd_host: String<A>,
    statsd_port: String<A>,
    disable: String<A>,
    enabled: String<A>,
    max_size: String<A>,
    ipv6: String<A>,
}

impl<A: Allocator> PlaceTexts<A> {
    // Reads the texts of the variables that no other one overrides.
    pub(crate) fn read<R: Env + Alloc<A = A>>(rt: &R) -> Result<PlaceTexts<A>, EnvironmentError> {
        let disable = read_text(rt, Variable::Disable, true)?;
        let enabled = read_text(rt, Variable::Enabled, true)?;
        let is_on = !is_off(&disable, &enabled);
        let url = read_text(rt, Variable::Url, is_on)?;
        let no_url = is_on && url.is_empty();
        let socket = read_text(rt, Variable::Socket, no_url)?;
        let no_path = no_url && socket.is_empty();
        let agent_host = read_text(rt, Variable::AgentHost, no_path)?;
        let agent_port = read_text(rt, Variable::AgentPort, no_path)?;
        let no_agent = no_path && agent_host.is_empty() && agent_port.is_empty();
        let statsd_host = read_text(rt, Variable::StatsdHost, no_agent)?;
        let statsd_port = read_text(rt, Variable::StatsdPort, no_agent)?;
        let max_size = read_text(rt, Variable::MaxSize, is_on)?;
        let ipv6 = read_text(rt, Variable::Ipv6, is_on)?;
        Ok(PlaceTexts {
            url,
            socket,
            agent_host,
            agent_port,
            statsd_host,
            statsd_port,
            disable,
            enabled,
            max_size,
            ipv6,
        })
    }

    // Returns these variables with the texts.
    pub(crate) fn lend<'a>(&'a self, others: Variables<'a>) -> Variables<'a> {
        Variables {
            url: &self.url,
            socket: &self.socket,
            agent_host: &self.agent_host,
            agent_port: &self.agent_port,
            statsd_host: &self.statsd_host,
            statsd_port: &self.statsd_port,
            disable: &self.disable,
            enabled: &self.enabled,
            max_size: &self.max_size,
            ipv6: &self.ipv6,
            ..others
        }
    }
}

// The texts of the variables that say the tags. One that is not set has the empty text.
#[derive(Drop)]
pub(crate) struct TagTexts<A: Allocator> {
    env: String<A>,
    service: String<A>,
    version: String<A>,
    tags: String<A>,
    entity_id: String<A>,
}

impl<A: Allocator> TagTexts<A> {
    // Reads the texts.
    pub(crate) fn read<R: Env + Alloc<A = A>>(rt: &R) -> Result<TagTexts<A>, EnvironmentError> {
        Ok(TagTexts {
            env: read_text(rt, Variable::Env, true)?,
            service: read_text(rt, Variable::Service, true)?,
            version: read_text(rt, Variable::Version, true)?,
            tags: read_text(rt, Variable::Tags, true)?,
            entity_id: read_text(rt, Variable::EntityId, true)?,
        })
    }

    // Returns these variables with the texts.
    pub(crate) fn lend<'a>(&'a self, others: Variables<'a>) -> Variables<'a> {
        Variables {
            env: &self.env,
            service: &self.service,
            version: &self.version,
            tags: &self.tags,
            entity_id: &self.entity_id,
            ..others
        }
    }
}

// The texts of the variables by which an agent finds the container and adds tags. One that is not set or that another one
// overrides has the empty text.
#[derive(Drop)]
pub(crate) struct OriginTexts<A: Allocator> {
    origin: String<A>,
    external: String<A>,
    cardinality: String<A>,
    datadog_cardinality: String<A>,
}

impl<A: Allocator> OriginTexts<A> {
    // Reads the texts of the variables that no other one overrides.
    pub(crate) fn read<R: Env + Alloc<A = A>>(rt: &R) -> Result<OriginTexts<A>, EnvironmentError> {
        let origin = read_text(rt, Variable::Origin, true)?;
        let external = read_text(rt, Variable::External, true)?;
        let cardinality = read_text(rt, Variable::Cardinality, true)?;
        let is_other_read = cardinality.is_empty();
        let datadog_cardinality = read_text(rt, Variable::DatadogCardinality, is_other_read)?;
        Ok(OriginTexts {
            origin,
            external,
            cardinality,
            datadog_cardinality,
        })
    }

    // Returns these variables with the texts.
    pub(crate) fn lend<'a>(&'a self, others: Variables<'a>) -> Variables<'a> {
        Variables {
            origin: &self.origin,
            external: &self.external,
            cardinality: &self.cardinality,
            datadog_cardinality: &self.datadog_cardinality,
            ..others
        }
    }
}
