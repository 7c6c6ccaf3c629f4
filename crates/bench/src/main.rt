//! `bench MODE N [SIZES]`: does the work of one mode N times, and prints how long a call takes.
//!
//! docs/speed.md has the tables that `run.py` makes of it, beside a program that does the same work over the Rust
//! crate. Standard output has the number `check`, which is the same for every implementation that did the same work;
//! standard error has the time. The run that the gate makes shows only that the program works: 1000 counters whose
//! lines have together 29,890 bytes (10 lines of 28 bytes, 90 of 29 and 900 of 30).
//!
//! - `arguments`: the words of the command line.
//! - `lines`, `sizes`: calls of a client, of one size and of growing sizes.
//! - `keys`: counts by the keys of a client whose calls make no line.
//! - `packets`: lines into a packer.
//! - `sinks`, `callers`: lines into sinks and queues, from one thread and from several.
//! - `reading`: packets that are read.
//! - `counting`: a writer of packets that counts them.
//! - `done`: what the work of a mode gave, and how it is printed.
#![tactic(auto)]

mod arguments;
mod callers;
mod counting;
mod done;
mod keys;
mod lines;
mod packets;
mod reading;
mod sinks;
mod sizes;

use arguments::{Arguments, Calling, Mode};
use cadence::{MetricResult, MetricSink, NopMetricSink, StatsdClient};
use done::{Done, report};
use std::env;

// Reads the arguments of this run.
fn read_arguments(rt: &HostRuntime) -> MetricResult<Option<Arguments>> {
    let mut words = env::args(rt)?;
    let _program = words.next();
    Ok(arguments::parse(&mut words))
}

// Makes calls of a client over a sink that does nothing.
fn call(rt: &HostRuntime, what: Calling, arguments: &Arguments) -> MetricResult<Done> {
    let sink: Box<dyn MetricSink + Send + Sync> = Box::new(rt.alloc(), NopMetricSink)?;
    let client = StatsdClient::from_sink(rt.alloc(), "some.prefix", sink)?;
    let (calls, size) = (arguments.calls, arguments.size);
    match what {
        Calling::Count => lines::count(rt, &client, calls),
        Calling::CountTags => lines::count_tags(rt, &client, calls),
        Calling::Options => lines::options(rt, &client, calls),
        Calling::Histogram4 => lines::histogram4(rt, &client, calls),
        Calling::Tags => sizes::tags(rt, &client, calls, size),
        Calling::Values => sizes::values(rt, &client, calls, size),
        Calling::Key => sizes::key(rt, &client, calls, size),
    }
}

fn main(rt: HostRuntime) -> MetricResult<()> {
    let Some(arguments) = read_arguments(&rt)? else {
        eprintln!(rt; "{}", arguments::USAGE)?;
        return Ok(());
    };
    let alloc = rt.alloc();
    let done = match arguments.mode {
        Mode::Client(what) => call(&rt, what, &arguments)?,
        Mode::DefaultTags => sizes::default_tags(&rt, arguments.calls, arguments.size)?,
        Mode::StrictTags => lines::strict_tags(&rt, arguments.calls)?,
        Mode::Packer => packets::write_lines(&rt, alloc, &arguments)?,
        Mode::Read(what) => reading::read_packets(&rt, alloc, what, &arguments)?,
        Mode::Emit(what) => callers::emit(&rt, alloc, what, &arguments)?,
        Mode::Keys(tagged) => keys::count(&rt, alloc, &arguments, tagged)?,
        Mode::Service => {
            let (_server, queue) = callers::make_queue_over_udp(&rt, alloc, &arguments)?;
            let sink: Box<dyn MetricSink + Send + Sync> = Box::new(alloc, queue.clone()?)?;
            let client = StatsdClient::from_sink(alloc, "my.service", sink)?;
            callers::run_service(&rt, alloc, &arguments, &client, &queue)?
        }
    };
    report(&rt, &arguments, &done)
}
