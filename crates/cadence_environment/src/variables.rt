//! The variables of the environment, and the texts that they have.

use cadence_errors::Reason;
use std::fmt;

/// A variable of the environment. It prints as the text of an error: its name, and what it has to be.
#[derive(Clone, Copy, Debug, PartialEq, Eq)]
pub enum Variable {
    /// `DD_DOGSTATSD_URL`: the agent, as a URL.
    Url,
    /// `DD_DOGSTATSD_SOCKET`: the agent, as the path of a Unix socket.
    Socket,
    /// `DD_AGENT_HOST`: the host of the agent.
    AgentHost,
    /// `DD_DOGSTATSD_PORT`: the port of the agent.
    AgentPort,
    /// `STATSD_HOST`: the host of a Statsd server.
    StatsdHost,
    /// `STATSD_PORT`: the port of a Statsd server.
    StatsdPort,
    /// `DD_ENV`: the value of the tag `env`.
    Env,
    /// `DD_SERVICE`: the value of the tag `service`.
    Service,
    /// `DD_VERSION`: the value of the tag `version`.
    Version,
    /// `DD_TAGS`: other tags.
    Tags,
    /// `DD_ENTITY_ID`: the value of the tag `dd.internal.entity_id`.
    EntityId,
    /// `DD_DOGSTATSD_DISABLE`: if it says yes, nothing is sent.
    Disable,
    /// `STATSD_ENABLED`: if it says no, nothing is sent.
    Enabled,
    /// `STATSD_MAXUDPSIZE`: the most bytes of a packet over UDP.
    MaxSize,
    /// `STATSD_PREFIX`: the prefix of all names, if the caller gives none.
    Prefix,
    /// `DD_ORIGIN_DETECTION_ENABLED`: if it says yes, the default container is that of the process.
    Origin,
    /// `STATSD_IPV6`: if it says yes, a host over UDP is looked up for addresses of IPv6 alone.
    Ipv6,
    /// `DD_EXTERNAL_ENV`: the external data of the process, such as `it-false,cn-web,pu-4a`.
    External,
    /// `DD_CARDINALITY`: the default cardinality.
    Cardinality,
    /// `DATADOG_CARDINALITY`: the same, if `DD_CARDINALITY` is not set.
    DatadogCardinality,
}

impl Variable {
    /// Returns the name of the variable.
    pub fn name(self) -> &'static str {
        match self {
            Variable::Url => "DD_DOGSTATSD_URL",
            Variable::Socket => "DD_DOGSTATSD_SOCKET",
            Variable::AgentHost => "DD_AGENT_HOST",
            Variable::AgentPort => "DD_DOGSTATSD_PORT",
            Variable::StatsdHost => "STATSD_HOST",
            Variable::StatsdPort => "STATSD_PORT",
            Variable::Env => "DD_ENV",
            Variable::Service => "DD_SERVICE",
            Variable::Version => "DD_VERSION",
            Variable::Tags => "DD_TAGS",
            Variable::EntityId => "DD_ENTITY_ID",
            Variable::Disable => "DD_DOGSTATSD_DISABLE",
            Variable::Enabled => "STATSD_ENABLED",
            Variable::MaxSize => "STATSD_MAXUDPSIZE",
            Variable::Prefix => "STATSD_PREFIX",
            Variable::Origin => "DD_ORIGIN_DETECTION_ENABLED",
            Variable::Ipv6 => "STATSD_IPV6",
            Variable::External => "DD_EXTERNAL_ENV",
            Variable::Cardinality => "DD_CARDINALITY",
            Variable::DatadogCardinality => "DATADOG_CARDINALITY",
        }
    }
}

/// The message names the variable and says what it has to be.
impl Reason for Variable {
    // None of these texts is longer than `MAX_DESCRIPTION`, so an error has the whole text.
    fn message(self) -> &'static str {
        match self {
            Variable::Url =>
                "DD_DOGSTATSD_URL wants udp://HOST[:PORT] or unix:///PATH, datagrams only",
            Variable::Socket => "DD_DOGSTATSD_SOCKET wants an absolute path, as in /run/dsd.socket",
            Variable::AgentHost => "DD_AGENT_HOST wants a host, as in DD_AGENT_HOST=127.0.0.1",
            Variable::AgentPort => "DD_DOGSTATSD_PORT wants a port, as in DD_DOGSTATSD_PORT=8125",
            Variable::StatsdHost => "STATSD_HOST wants a host, as in STATSD_HOST=127.0.0.1",
            Variable::StatsdPort => "STATSD_PORT wants a port, as in STATSD_PORT=8125",
            Variable::Env => "DD_ENV wants no commas, bars or newlines, as in DD_ENV=prod",
            Variable::Service =>
                "DD_SERVICE wants no commas, bars or newlines, as in DD_SERVICE=shop",
            Variable::Version =>
                "DD_VERSION wants no commas, bars or newlines, as in DD_VERSION=1.2.3",
            Variable::Tags =>
                "DD_TAGS wants tags K:V or V, no bars or newlines, as in DD_TAGS=a:b,c",
            Variable::EntityId =>
                "DD_ENTITY_ID wants no commas, bars or newlines, as in DD_ENTITY_ID=9f2c",
            Variable::Disable => "DD_DOGSTATSD_DISABLE wants 1, true or yes, or 0, false or no",
            Variable::Enabled => "STATSD_ENABLED wants 1, true or yes, or 0, false or no",
            Variable::MaxSize =>
                "STATSD_MAXUDPSIZE wants 1 to 65507 bytes, as in STATSD_MAXUDPSIZE=1432",
            Variable::Prefix => "STATSD_PREFIX wants no colons, commas, bars or newlines",
            Variable::Origin =>
                "DD_ORIGIN_DETECTION_ENABLED wants 1, true or yes, or 0, false or no",
            Variable::Ipv6 => "STATSD_IPV6 wants 1, true or yes, or 0, false or no",
            Variable::External =>
                "DD_EXTERNAL_ENV wants text in UTF-8, as in it-false,cn-web,pu-4a",
            Variable::Cardinality => "DD_CARDINALITY wants none, low, orchestrator or high",
            Variable::DatadogCardinality =>
                "DATADOG_CARDINALITY wants none, low, orchestrator or high",
        }
    }
}

impl fmt::Display for Variable {
    fn fmt<W: fmt::Write>(&self, f: &mut fmt::Formatter<W>) -> fmt::Result {
        f.write_str(self.message())
    }
}

/// The texts of the variables. A variable that is not set has the empty text, because an empty one counts as not set.
#[derive(Clone, Copy, Debug)]
pub struct Variables<'a> {
    /// The text of `DD_DOGSTATSD_URL`.
    pub url: &'a str,
    /// The text of `DD_DOGSTATSD_SOCKET`.
    pub socket: &'a str,
    /// The text of `DD_AGENT_HOST`.
    pub agent_host: &'a str,
    /// The text of `DD_DOGSTATSD_PORT`.
    pub agent_port: &'a str,
    /// The text of `STATSD_HOST`.
    pub statsd_host: &'a str,
    /// The text of `STATSD_PORT`.
    pub statsd_port: &'a str,
    /// The text of `DD_ENV`.
    pub env: &'a str,
    /// The text of `DD_SERVICE`.
    pub service: &'a str,
    /// The text of `DD_VERSION`.
    pub version: &'a str,
    /// The text of `DD_TAGS`.
    pub tags: &'a str,
    /// The text of `DD_ENTITY_ID`.
    pub entity_id: &'a str,
    /// The text of `DD_DOGSTATSD_DISABLE`.
    pub disable: &'a str,
    /// The text of `STATSD_ENABLED`.
    pub enabled: &'a str,
    /// The text of `STATSD_MAXUDPSIZE`.
    pub max_size: &'a str,
    /// The text of `STATSD_PREFIX`.
    pub prefix: &'a str,
    /// The text of `DD_ORIGIN_DETECTION_ENABLED`.
    pub origin: &'a str,
    /// The text of `STATSD_IPV6`.
    pub ipv6: &'a str,
    /// The text of `DD_EXTERNAL_ENV`.
    pub external: &'a str,
    /// The text of `DD_CARDINALITY`.
    pub cardinality: &'a str,
    /// The text of `DATADOG_CARDINALITY`.
    pub datadog_cardinality: &'a str,
}

impl Variables<'_> {
    /// Returns the texts of an environment in which no variable is set.
    pub fn none() -> Variables<'static> {
        Variables {
            url: "",
            socket: "",
            agent_host: "",
            agent_port: "",
            statsd_host: "",
            statsd_port: "",
            env: "",
            service: "",
            version: "",
            tags: "",
            entity_id: "",
            disable: "",
            enabled: "",
            max_size: "",
            prefix: "",
            origin: "",
            ipv6: "",
            external: "",
            cardinality: "",
            datadog_cardinality: "",
        }
    }
}
