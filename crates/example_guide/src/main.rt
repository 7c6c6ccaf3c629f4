//! The programs of docs/rattle.md, and the examples of the library's documentation. Each block of Rattle there is in a
//! file of this crate or of `example_service`, word for word, and `.ci/front-door` compares them.
//!
//! The program runs them, and prints the lines, numbers and datagrams of those that have some. The lines follow from
//! the grammar of Statsd with the DogStatsD fields. Nobody has to listen at port 8125 or at a path.
//!
//! - `kinds`: each kind of metric and each option of a call. `own`: sinks, a value and a metric of a caller's own types.
//! - `clients`: clients, and what spies receive of them. `errors`: what a service does with errors.
//! - `sinks`: sinks over UDP and over Unix sockets, and queues. `agent`: clients of the environment and of an agent.
//! - `aggregated`: a sink that adds up lines, and a client whose calls make no line.
//! - `shop`: a service whose client adds up by keys, over a queue to the place that the environment says.
//! - `texts`: records, events, service checks, numbers, plans of packets, and packets that are read back.
//! - `service`: the service of `example_service`, and a sink that reports, with the datagrams that a server receives.
//! - `ported`: a program of the Rust crate.
#![tactic(auto)]

mod agent;
mod aggregated;
mod clients;
mod errors;
mod kinds;
mod own;
mod ported;
mod service;
mod shop;
mod sinks;
mod texts;

use cadence::client::BoxedHandler;
use cadence::{MetricError, MetricResult, NopMetricSink, Runtime, StatsdClient};
use std::alloc::Global;
use std::env::Env;

// Runs the examples that have something to print, and returns it.
fn report<R: Runtime>(rt: &R, alloc: Global) -> MetricResult<String> {
    let mut text = clients::report(rt, alloc)?;
    text.push_str(&sinks::report(rt, alloc)?)?;
    text.push_str(&errors::report(rt, alloc)?)?;
    text.push_str(&texts::report(alloc)?)?;
    text.push_str(&aggregated::report(rt, alloc)?)?;
    text.push_str(&shop::report(rt, alloc)?)?;
    text.push_str(&service::report(rt, alloc)?)?;
    Ok(text)
}

// Runs the examples whose lines nobody has to receive.
fn send_unheard<R: Runtime + Env>(rt: &R, alloc: Global) -> MetricResult<()> {
    agent::count_by_environment(rt, alloc)?;
    aggregated::count_by_sums(rt, alloc)?;
    shop::run(rt, alloc)?;
    ported::send_over_re_resolving_sink(rt, alloc)
}

// Sends over a client whose handler prints errors.
fn send_with_handler(rt: &HostRuntime, alloc: Global) -> MetricResult<()> {
    let printer = rt.clone()?;
    let handler: BoxedHandler = Box::new(alloc, move |error: MetricError| {
        let _ = eprintln!(printer; "metric lost: {error}");
    })?;
    let client = StatsdClient::builder(alloc, "my.service", NopMetricSink)
        .with_error_handler(handler)
        .build()?;
    errors::send_quietly(&client);
    Ok(())
}

fn main(rt: HostRuntime) -> MetricResult<()> {
    let alloc = rt.alloc();
    print!(rt; "{}", report(&rt, alloc)?)?;
    send_unheard(&rt, alloc)?;
    // nobody listens at the paths of these, so their results are not looked at
    let _ = agent::send_to_agent(&rt, alloc, "/run/statsd.sock");
    let _ = agent::send_to_nobody(&rt, alloc);
    let _ = agent::count_for_nobody(&rt, alloc);
    send_with_handler(&rt, alloc)
}
