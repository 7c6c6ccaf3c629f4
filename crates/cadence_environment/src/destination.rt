//! Where the variables say to send.
ghost use Rattle.std.specs.Prelude.{◌≡◌, ◌↔◌, IfErr, IfNone, IfOk, IfSome, IsTrue};
ghost use Rattle.cadence_value.specs.Finds.{HasNone};
ghost use Rattle.cadence_environment.specs.Destinations.{ChoosesTarget, EndsWithPort, HasAfterUnix, HasCapacity, HasFamily, IsAbsolute, IsAuthority, IsHost, IsHostByte, IsPathUrl, NamesHost};
ghost use Rattle.cadence_environment.specs.Destinations.{SaysHost, SaysHostAndPort, SaysPath, SaysPlace, SaysTarget, SaysUrl, capacity_of, only_ipv6_of};
ghost use Rattle.cadence_environment.specs.EnvironmentFaults.{IsFaultOf, IsMemoryOr, IsOn, IsPairFault, IsRefusedVariable, IsSetFault, NamesNoPath};
ghost use Rattle.cadence_environment.specs.declared.variables.Variable.TheVariants as variable;

use crate::error::EnvironmentError;
use crate::numbers::{port_or_default, read_port, size_or_default};
use crate::path::check_path;
use crate::switch::{check_switches, is_off, read_ipv6};
use crate::variables::{Variable, Variables};
use cadence_resolve::DEFAULT_PORT;
use cadence_value::bytes::split_text_once;
use std::alloc::{Allocator, Global};
use std::net::Ipv6Addr;

// The host to which packets are sent if none is set.
const DEFAULT_HOST: &str = "127.0.0.1";

// How many bytes a packet to a Unix socket has. The agent reads datagrams of this length unless it is configured
// otherwise.
const UNIX_CAPACITY: usize = 8192;

/// Where packets are sent.
#[derive(Drop)]
pub enum Destination<A: Allocator = Global> {
    /// Nowhere: nothing is sent.
    Nowhere,
    /// A host, which is a name or an address without brackets, a UDP port, how many bytes a packet has, and whether the
    /// host is looked up for addresses of IPv6 alone, as `look_up_host` does.
    Udp {
        host: String<A>,
        port: u16,
        capacity: usize,
        only_ipv6: bool,
    },
    /// The path of a Unix datagram socket, which `check_path` accepts.
    Unix {
        path: String<A>,
    },
}

impl<A: Allocator> Destination<A> {
    /// Returns how many bytes a packet has. If nothing is sent, it is as many as to a Unix socket.
    pub fn capacity(&self) -> usize
        ensures { result ≡ capacity_of self.now }
    {
        match self {
            Destination::Udp { capacity, .. } => *capacity,
            _ => UNIX_CAPACITY,
        }
    }

    /// Returns whether a host is looked up for addresses of IPv6 alone. It is false if nothing is looked up.
    pub fn only_ipv6(&self) -> bool
        ensures { result ≡ only_ipv6_of self.now }
    {
        match self {
            Destination::Udp { only_ipv6, .. } => *only_ipv6,
            _ => false,
        }
    }
}

// Returns whether a host can have the byte, which is no space, slash, bracket or control character of ASCII.
fn is_host_byte(byte: u8) -> bool
    ensures { IsTrue result ↔ IsHostByte byte }
{
    byte > 32 && byte != b'/' && byte != b'[' && byte != b']' && byte != 127
}

// Returns whether a text can be a host: a name, or an address without brackets.
fn is_host(text: &str) -> bool
    ensures { IsTrue result ↔ IsHost text.now }
{
    !text.is_empty() && text.as_bytes().iter().all(|byte| is_host_byte(*byte))
}

// Returns whether a text is an address of IPv6. It may have a zone, as in `fe80::1%eth0`.
fn is_ipv6(text: &str) -> bool {
    let address = match split_text_once(text, b'%') {
        Some((_, zone)) if zone.is_empty() || zone.contains('%') || zone.contains(':') => {
            return false;
        }
        Some((address, _)) => address,
        None => text,
    };
    address.parse::<Ipv6Addr>().is_ok()
}

// Returns the host if the text is one. Only an address of IPv6 has colons, and it may have brackets round it.
fn read_host(text: &str) -> Option<&str>
    ensures { IfSome result (λ host. NamesHost text.now host.now) }
{
    if is_host(text) {
        return if text.contains(':') && !is_ipv6(text) {
            None
        } else {
            Some(text)
        };
    }
    let inner = text.strip_prefix('[')?.strip_suffix(']')?;
    if !is_host(inner) || !is_ipv6(inner) {
        return None;
    }
    Some(inner)
}

// Reads what comes after the host of a URL: nothing, or a colon and a port.
fn read_url_port(text: &str) -> Option<u16>
    ensures { IfSome result (EndsWithPort text.now) }
{
    if text.is_empty() {
        return Some(DEFAULT_PORT);
    }
    read_port(text.strip_prefix(':')?)
}

// Returns the parts if the first one is a host.
fn with_host(host: &str, port: u16) -> Option<(&str, u16)>
    ensures host { IfSome result (λ parts. IsHost parts.0.now) }
    ensures same { IfSome result (λ parts. (parts.0.now ≡ host.now) × (parts.1 ≡ port)) }
{
    if !is_host(host) {
        return None;
    }
    Some((host, port))
}

// Reads HOST or HOST:PORT. A host that is an address of IPv6 has brackets round it.
fn read_authority(text: &str) -> Option<(&str, u16)>
    ensures { IfSome result (λ parts. IsAuthority text.now parts.0.now parts.1) }
{
    if let Some(inner) = text.strip_prefix('[') {
        let (host, rest) = split_text_once(inner, b']')?;
        if !is_ipv6(host) {
            return None;
        }
        return with_host(host, read_url_port(rest)?);
    }
    match split_text_once(text, b':') {
        Some((host, port)) => with_host(host, read_port(port)?),
        None => with_host(text, DEFAULT_PORT),
    }
}

// Reads the path of a Unix socket, from the root on, which a variable says.
fn read_path<A: Allocator>(
    alloc: A,
    variable: Variable,
    path: &str,
) -> Result<Destination<A>, EnvironmentError>
    ensures said { IfOk result (SaysPath path.now) }
    ensures refused { IfErr result (IsFaultOf variable) }
    ensures paths { IfErr result (IsMemoryOr (IsAbsolute path.now → ⊥)) }
{
    if !path.starts_with('/') || check_path(path).is_err() {
        return Err(EnvironmentError::Unusable(variable));
    }
    let path = String::from_str(alloc, path)?;
    Ok(Destination::Unix { path })
}

// Returns what a URL has after `unix://` or `unixgram://`, which mean the same.
fn after_unix(url: &str) -> Option<&str>
    ensures found { IfSome result (λ text. HasAfterUnix url.now text.now) }
    ensures none { IfNone result (HasNone (HasAfterUnix url.now)) }
{
    match url.strip_prefix("unix://") {
        Some(text) => Some(text),
        None => url.strip_prefix("unixgram://"),
    }
}

// Reads a URL: udp://HOST, udp://HOST:PORT, unix:///PATH or unixgram:///PATH.
fn read_url<A: Allocator>(
    alloc: A,
    url: &str,
    capacity: usize,
    only_ipv6: bool,
) -> Result<Destination<A>, EnvironmentError>
    ensures said { IfOk result (SaysUrl url.now) }
    ensures capacity { IfOk result (HasCapacity capacity) }
    ensures family { IfOk result (HasFamily only_ipv6) }
    ensures refused { IfErr result (IsFaultOf variable.Url) }
    ensures paths { IfErr result (IsMemoryOr (HasNone (IsPathUrl url.now))) }
{
    if let Some(path) = after_unix(url) {
        return read_path(alloc, Variable::Url, path);
    }
    let Some(authority) = url.strip_prefix("udp://") else {
        return Err(EnvironmentError::Unusable(Variable::Url));
    };
    let Some((host, port)) = read_authority(authority) else {
        return Err(EnvironmentError::Unusable(Variable::Url));
    };
    let host = String::from_str(alloc, host)?;
    Ok(Destination::Udp {
        host,
        port,
        capacity,
        only_ipv6,
    })
}

// Returns the host that a variable says, or that of this machine if the variable is not set.
fn host_or_default(variable: Variable, text: &str) -> Result<&str, EnvironmentError>
    ensures said { IfOk result (λ host. SaysHost text.now host.now) }
    ensures refused { IfErr result (IsSetFault variable text.now) }
{
    if text.is_empty() {
        return Ok(DEFAULT_HOST);
    }
    match read_host(text) {
        Some(host) => Ok(host),
        None => Err(EnvironmentError::Unusable(variable)),
    }
}

// Makes the destination from a host and a port, each given as a variable and the text of this variable.
fn read_pair<A: Allocator>(
    alloc: A,
    host: (Variable, &str),
    port: (Variable, &str),
    capacity: usize,
    only_ipv6: bool,
) -> Result<Destination<A>, EnvironmentError>
    ensures said { IfOk result (SaysHostAndPort host.entry.1.now port.entry.1.now) }
    ensures capacity { IfOk result (HasCapacity capacity) }
    ensures family { IfOk result (HasFamily only_ipv6) }
    ensures refused { IfErr result
        (IsPairFault host.entry.0 host.entry.1.now port.entry.0 port.entry.1.now) }
{
    let host = host_or_default(host.0, host.1)?;
    let port = port_or_default(port.0, port.1)?;
    let host = String::from_str(alloc, host)?;
    Ok(Destination::Udp {
        host,
        port,
        capacity,
        only_ipv6,
    })
}

// Returns the target of the variables that win over the others, with this capacity and this family if it is a host.
fn choose_target<A: Allocator>(
    alloc: A,
    variables: &Variables<'_>,
    capacity: usize,
    only_ipv6: bool,
) -> Result<Destination<A>, EnvironmentError>
    ensures said { IfOk result (ChoosesTarget variables.now) }
    ensures capacity { IfOk result (HasCapacity capacity) }
    ensures family { IfOk result (HasFamily only_ipv6) }
    ensures refused { IfErr result (λ e. IsOn variables.now → IsRefusedVariable variables.now e) }
    ensures paths { IfErr result (NamesNoPath variables.now) }
{
    if !variables.url.is_empty() {
        return read_url(alloc, variables.url, capacity, only_ipv6);
    }
    if !variables.socket.is_empty() {
        return read_path(alloc, Variable::Socket, variables.socket);
    }
    if !variables.agent_host.is_empty() || !variables.agent_port.is_empty() {
        let host = (Variable::AgentHost, variables.agent_host);
        let port = (Variable::AgentPort, variables.agent_port);
        return read_pair(alloc, host, port, capacity, only_ipv6);
    }
    let host = (Variable::StatsdHost, variables.statsd_host);
    let port = (Variable::StatsdPort, variables.statsd_port);
    read_pair(alloc, host, port, capacity, only_ipv6)
}

// Returns the target that the variables say, whether or not they say that nothing is sent.
fn read_target<A: Allocator>(
    alloc: A,
    variables: &Variables<'_>,
) -> Result<Destination<A>, EnvironmentError>
    ensures said { IfOk result (SaysTarget variables.now) }
    ensures refused { IfErr result (λ e. IsOn variables.now → IsRefusedVariable variables.now e) }
    ensures paths { IfErr result (NamesNoPath variables.now) }
{
    let capacity = size_or_default(variables.max_size)?;
    let only_ipv6 = read_ipv6(variables.ipv6)?;
    choose_target(alloc, variables, capacity, only_ipv6)
}

// Returns where the variables say to send.
pub(crate) fn read_destination<A: Allocator>(
    alloc: A,
    variables: &Variables<'_>,
) -> Result<Destination<A>, EnvironmentError>
    ensures said { IfOk result (SaysPlace variables.now) }
    ensures refused { IfErr result (IsRefusedVariable variables.now) }
    ensures paths { IfErr result (NamesNoPath variables.now) }
{
    check_switches(variables)?;
    if is_off(variables.disable, variables.enabled) {
        return Ok(Destination::Nowhere);
    }
    read_target(alloc, variables)
}
