//! Ends of processes: a program that sends lines through a sink over UDP, drops the client, and ends at once.
//!
//! Its words are the name of a row of `ends`, the port of a receiver on this machine, and how many lines it sends. The
//! gate runs each row a hundred times, and counts the lines that arrive. Without words the program prints the names.
#![tactic(auto)]

mod ends;

use cadence::ready::buffered_udp_sink;
use cadence::{BufferedUdpMetricSink, MetricResult, Runtime, Target};
use std::alloc::Global;
use std::env;
use std::net::{Ipv4Addr, SocketAddr};
use std::sync::Wait;

/// The rows of `ends` by their names.
const NAMES: [&str; 7] = [
    "queue",
    "flushing",
    "aggregating",
    "keys",
    "reporting",
    "aggregating_over_a_queue",
    "reporting_over_a_queue",
];

/// What a row is given: a buffered sink to the receiver, and the number of lines.
#[derive(Drop)]
pub struct Given<R: Wait + Drop> {
    pub sink: BufferedUdpMetricSink<R>,
    pub lines: u64,
}

fn number(word: Option<String>) -> u64 {
    match word {
        Some(word) => word.as_str().parse::<u64>().unwrap_or(0),
        None => 0,
    }
}

fn made_for<R: Runtime>(rt: &R, alloc: Global, port: u64, lines: u64) -> MetricResult<Given<R>> {
    let port = u16::try_from(port).unwrap_or(0);
    let receiver = Target::Addr(SocketAddr::from((Ipv4Addr::LOCALHOST, port)));
    let sink = buffered_udp_sink(rt, alloc, receiver, 1432)?;
    Ok(Given { sink, lines })
}

fn main(rt: HostRuntime) -> MetricResult<()> {
    let mut words = env::args(&rt)?;
    let _program = words.next();
    let Some(name) = words.next() else {
        for name in &NAMES {
            println!(rt; "{name}")?;
        }
        return Ok(());
    };
    let port = number(words.next());
    let given = made_for(&rt, rt.alloc(), port, number(words.next()))?;
    ends::run(&rt, rt.alloc(), name.as_str(), given)
}
