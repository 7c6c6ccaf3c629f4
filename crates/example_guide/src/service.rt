//! The service of `example_service`, and a sink that reports its own counts, with what their server receives.
//!
//! Datagrams on the loopback address arrive in order here, so the text is the same in each run.

use cadence::prelude::*;
use cadence::ready::buffered_udp_sink;
use cadence::sinks::Target;
use cadence::{MetricResult, Runtime, StatsdClient};
use cadence_agent::ReportingMetricSink;
use example_service::service;
use std::alloc::Global;
use std::net::{Ipv4Addr, SocketAddr, UdpSocket};
use std::time::Duration;

// Sends a line over a sink that reports its own counts, and then two reports: one that the service asks for, and the
// last one, which the drop of the client sends. A report counts the datagram of the one before too.
fn send_counts<R: Runtime>(rt: &R, alloc: Global, server: SocketAddr) -> MetricResult<()> {
    let inner = buffered_udp_sink(rt, alloc, Target::Addr(server), 512)?;
    let period = Duration::from_secs(3600);
    let sink = ReportingMetricSink::new(rt.clone()?, alloc, inner, "my.statsd", period)?;
    let client = StatsdClient::from_sink(alloc, "my.service", sink)?;
    client.incr("visits")?;
    client.flush()?;
    client.sink().report()?;
    client.flush()
}

// Adds datagrams until this many lines have come.
fn add_lines(
    alloc: Global,
    text: &mut String,
    server: &UdpSocket,
    number: usize,
) -> MetricResult<()> {
    let mut bytes = [0u8; 512];
    for _ in 0..number {
        if text.lines().count() >= number {
            break;
        }
        let (length, _from) = server.recv_from(&mut bytes)?;
        text.push_str(&String::from_utf8_lossy(alloc, &bytes[..length])?)?;
    }
    Ok(())
}

// Returns how often the line of a page is among these lines.
fn times(lines: &str, page: &str) -> usize {
    let same = lines.lines().filter(|line| line.strip_prefix("shop.visits:1|c|#env:prod,page:")
        == Some(page));
    same.count()
}

// Runs the whole service, whose two threads send three lines each. The lines of the two may come in any order, so this
// returns how often the lines of each came, and then the errors of the service's socket.
fn visits<R: Runtime>(rt: &R, alloc: Global, server: &UdpSocket) -> MetricResult<String> {
    let errors = service::run(rt, alloc, Target::Addr(server.local_addr()?))?;
    let mut lines = String::new(alloc);
    add_lines(alloc, &mut lines, server, 6)?;
    let (home, cart) = (times(&lines, "home"), times(&lines, "cart"));
    Ok(format!(in alloc; "{home} at home, {cart} in the cart, {errors} errors\n")?)
}

/// Returns what a server of its own receives. The server waits for each datagram five seconds at most.
pub fn report<R: Runtime>(rt: &R, alloc: Global) -> MetricResult<String> {
    let server = UdpSocket::bind(rt, SocketAddr::from((Ipv4Addr::LOCALHOST, 0)))?;
    server.set_read_timeout(Some(Duration::from_secs(5)))?;
    let mut text = visits(rt, alloc, &server)?;
    send_counts(rt, alloc, server.local_addr()?)?;
    // the line above, a line, and two reports of two lines
    add_lines(alloc, &mut text, &server, 6)?;
    Ok(text)
}
