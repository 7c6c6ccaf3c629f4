//! Clients that send to where the environment says, with its tags.
use crate::tests::steps::assert_receives;
use cadence::prelude::*;
use cadence::types::ErrorKind;
use cadence::{Metric, MetricResult, MetricSink, Runtime, StatsdClient};
use cadence_agent::{Environment, EnvironmentExt, EnvironmentSink, environment_sink, sink_to};
use std::alloc::Global;
use std::net::{Ipv4Addr, Ipv6Addr, SocketAddr, UdpSocket};
use std::test::Fail;
use std::time::Duration;
use test_tools::given::Given;

// A client to where an environment says.
type Client<R> = StatsdClient<Global, EnvironmentSink<R>>;

// Makes a client to where the environment says, with its tags.
fn client_of<R: Runtime>(
    rt: &R,
    alloc: Global,
    environment: &Environment,
) -> MetricResult<Client<R>> {
    let sink = sink_to(rt, alloc, environment.destination())?;
    environment.builder(alloc, "p", sink).build()
}

// Makes a client to where these variables say, with their tags.
fn client_by<R: Runtime>(rt: &R, alloc: Global, variables: &str) -> MetricResult<Client<R>> {
    let given = Given {
        variables: variables.as_bytes(),
    };
    client_of(rt, alloc, &Environment::read(&(given, alloc))?)
}

// Sends a line with a tag of its own.
fn send_tagged<R: Runtime>(client: &Client<R>) -> MetricResult<()> {
    let call = client.count_with_tags("k", 1).with_tag("a", "b");
    call.try_send()?;
    client.flush()
}

#[test]
fn a_server_gets_the_tags_over_udp(rt: HostRuntime) -> Result<(), Fail> {
    let server = UdpSocket::bind(&rt, SocketAddr::from((Ipv4Addr::LOCALHOST, 0)))?;
    server.set_read_timeout(Some(Duration::from_secs(60)))?;
    let port = server.local_addr()?.port();
    let variables = format!(in rt.alloc(); "DD_DOGSTATSD_PORT={port};DD_ENV=prod;DD_TAGS=beta")?;
    let client = client_by(&rt, rt.alloc(), &variables)?;
    send_tagged(&client)?;
    assert!(rt; client.sink().stats().packets_sent == 1 && client.sink().dropped_lines() == 0);
    assert_receives(&server, "p.k:1|c|#env:prod,beta,a:b\n")
}

// An address of IPv4 is refused. One of IPv6 is sent to, if this machine has IPv6.
#[test]
fn with_ipv6_alone_no_other_address_is_sent_to(rt: HostRuntime) -> Result<(), Fail> {
    match client_by(&rt, rt.alloc(), "STATSD_HOST=127.0.0.1;STATSD_IPV6=1") {
        Err(error) if error.kind() == ErrorKind::InvalidInput => {}
        Err(error) => return Err(Fail::new(error)),
        Ok(_) => return Err(Fail::new("an address of IPv4")),
    }
    let Ok(server) = UdpSocket::bind(&rt, SocketAddr::from((Ipv6Addr::LOCALHOST, 0))) else {
        return Ok(());
    };
    server.set_read_timeout(Some(Duration::from_secs(60)))?;
    let port = server.local_addr()?.port();
    let variables = format!(in rt.alloc(); "STATSD_HOST=::1;STATSD_PORT={port};STATSD_IPV6=1")?;
    let client = client_by(&rt, rt.alloc(), &variables)?;
    send_tagged(&client)?;
    assert_receives(&server, "p.k:1|c|#a:b\n")
}

#[test]
fn a_client_that_is_off_sends_nothing(rt: HostRuntime) -> Result<(), Fail> {
    let client = client_by(&rt, rt.alloc(), "DD_DOGSTATSD_DISABLE=1;STATSD_HOST=a b")?;
    send_tagged(&client)?;
    assert!(rt; client.sink().stats().packets_sent == 0 && client.sink().dropped_lines() == 0);
    Ok(())
}

// Asserts that a client to where the environment says sends over UDP, and without tags.
fn assert_is_untagged<R: Runtime>(client: &Client<R>) -> Result<(), Fail> {
    if client.count("k", 1)?.as_metric_str() != "p.k:1|c" {
        return Err(Fail::new("another line"));
    }
    match client.sink() {
        EnvironmentSink::Udp(_) => Ok(()),
        EnvironmentSink::Unix(_) => Err(Fail::new("a path")),
        EnvironmentSink::Nowhere(_) => Err(Fail::new("nowhere")),
    }
}

// The process of the tests has none of the variables, so both send to this machine over UDP, without tags.
#[test]
fn the_environment_of_the_process_is_read(rt: HostRuntime) -> Result<(), Fail> {
    if let EnvironmentSink::Unix(_) = environment_sink(&rt, rt.alloc())? {
        return Err(Fail::new("a path"));
    }
    let environment = Environment::read(&(&rt, rt.alloc()))?;
    assert_is_untagged(&client_of(&rt, rt.alloc(), &environment)?)
}
