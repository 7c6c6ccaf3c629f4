//! Queues to an agent that flush by time. Each test moves the clock itself; a worker with a period of five milliseconds
//! looks at it after as many milliseconds of real time.
use super::unix::sending::path_of;
use super::unix::server::{Server, bind_server, unlink};
use cadence::prelude::*;
use cadence::{MetricResult, QueuingMetricSink, QueuingMetricSinkBuilder, Runtime, StatsdClient};
use cadence_agent::{Environment, EnvironmentExt, EnvironmentSink, sink_to};
use std::alloc::Global;
use std::fs::Files;
use std::net::Net;
use std::sync::Wait;
use std::test::Fail;
use std::thread::Threads;
use std::time::{Clock, Duration};
use test_tools::moved_clock::MovedClock;

// The period of each queue, in milliseconds.
const PERIOD: u64 = 5;

// Asserts that nothing is sent when the moved clock shows this time.
fn assert_stays<R: Runtime>(clock: &MovedClock<R>, server: &Server, now: u64) -> Result<(), Fail> {
    clock.move_to(now);
    clock.assert_reads(6)?;
    server.assert_datagrams(&[])
}

// Asserts that a line which the queue has got is sent as soon as the moved clock shows the period, and not before.
fn assert_sends_by_time<R: Runtime>(
    clock: &MovedClock<R>,
    server: &Server,
    datagram: &str,
) -> Result<(), Fail> {
    assert_stays(clock, server, 0)?;
    assert_stays(clock, server, PERIOD - 1)?;
    clock.move_to(PERIOD);
    server.assert_comes(&clock.rt, datagram)
}

// A client over a queue to where the environment says, which flushes by the moved clock.
type QueuingClient<R> = StatsdClient<
    Global,
    QueuingMetricSink<EnvironmentSink<MovedClock<R>>, MovedClock<R>>,
>;

// Makes such a client, with the tags that the environment says.
fn make_client<R: Runtime>(clock: &MovedClock<R>, alloc: Global) -> MetricResult<QueuingClient<R>> {
    let environment = Environment::read(&(clock, alloc))?;
    let inner = sink_to(clock, alloc, environment.destination())?;
    let queue = QueuingMetricSinkBuilder::new().with_capacity(9);
    let queue = queue.with_flush_period(Duration::from_millis(PERIOD));
    let sink = queue.build(clock.clone()?, alloc, inner)?;
    environment.builder(alloc, "p", sink).build()
}

// Counts twice. The line that comes after the flush is sent when the queue stops, before the next period is over.
fn assert_client_sends<R: Runtime>(
    clock: &MovedClock<R>,
    server: &Server,
    client: &QueuingClient<R>,
) -> Result<(), Fail> {
    client.incr("a")?;
    assert_sends_by_time(clock, server, "p.a:1|c|#env:prod\n")?;
    client.incr("b")?;
    client.sink().stop_and_wait();
    server.assert_comes(&clock.rt, "p.b:1|c|#env:prod\n")
}

fn assert_environment_sends<R: Runtime + Files>(
    rt: &R,
    alloc: Global,
    path: &str,
) -> Result<(), Fail> {
    let server = bind_server(rt, path)?;
    let variables = format!(in alloc; "DD_DOGSTATSD_URL=unix://{path};DD_ENV=prod")?;
    let clock = MovedClock::new(rt.clone()?, alloc, variables)?;
    assert_client_sends(&clock, &server, &make_client(&clock, alloc)?)?;
    unlink(rt, path)
}

#[test]
fn a_client_of_the_environment_sends_after_its_period(rt: HostRuntime) -> Result<(), Fail> {
    assert_environment_sends(&rt, rt.alloc(), &path_of(&rt, "environment-period")?)
}
