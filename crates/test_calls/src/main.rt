//! Calls of one caller, as rows of `data/`, the sinks that have a thread, and the calls of four callers at once.
//!
//! The first part reads rows, and prints how many each file has, and each row with another outcome than it wants.
//!
//! - `data/calls`: every call of the client, for every type of its value, with each option, and clients with settings.
//!   `rows` reads them, `clients` has the clients, `calls` makes a call in each way, and `outcomes` compares what came
//!   of it.
//! - `data/sums`: lines that are added up, and what is sent of them. `sums` makes them.
//! - `data/environment.rows`: variables of the environment. `environment` reads them; the tests of C, Rust and Python
//!   read the same file. It also prints the message of each variable that can't be used.
//! - `data/enrichments.rows`: the external data and the cardinality that variables say. `environment` reads them too, as
//!   those tests do, and `enrichments` says what is compared.
//! - `data/containers.rows`: the containers of processes. `containers` reads them, as those tests do.
//! - `data/addresses.rows`: the addresses of a name, and the one that is sent to. `addresses` reads them, as those tests do.
//!
//! Then it prints the texts of an audited queue's errors. Sockets, memory that is refused and numbers of calls are
//! tested in `test_client`.
//!
//! The second part makes each sink that has a thread, and prints whether it is made. With the word `threads` the program
//! has this part alone, and `.ci/programs` runs it so with room for no thread. A sink that can't start its thread has to
//! return the error `Io` and drop the sink that it wraps.
//!
//! - `makers`: makes each sink.
//!
//! The third part has four callers in threads over one queuing sink, for each kind of queue, while handles are cloned
//! and dropped. It prints only what has to be true for any order of the threads' turns: sums, and whether each accepted
//! line that wasn't dropped reached the wrapped sink once, in the order of its caller, one at a time. First the callers
//! emit as fast as they can. Then each one waits until no line is queued, so the worker sleeps before most lines: a lost
//! wake-up would show as a caller that doesn't end. It waits for each thing 20 seconds at most, so it ends even if a
//! thread hangs. A run tries some orders of turns, and not all of them; the model in `model/` goes through all orders of
//! a few threads.
//!
//! - `callers`: the callers and what their calls returned. `queues`: the three kinds of queues.
//! - `record`: the wrapped sink, and what it records. `turns`: waiting.
//! - `bursts`: callers that emit as fast as they can. `wake_ups`: callers that wait after each line.
#![tactic(auto)]

mod addresses;
mod bursts;
mod callers;
mod calls;
mod clients;
mod containers;
mod enrichments;
mod environment;
mod makers;
mod outcomes;
mod queues;
mod record;
mod rows;
mod sums;
mod turns;
mod wake_ups;

use cadence::queue::{AuditError, EndFault};
use cadence::{DEFAULT_PORT, MetricResult, Runtime};
use environment::Kind;
use queues::QueueKind;
use std::alloc::{Alloc, AllocError, Global};
use std::fs::Files;
use std::net::Net;
use std::{env, fs};

// Returns the text of each error of an audited queue and of its end.
fn audit_error_texts(alloc: Global) -> Result<String, AllocError> {
    let (memory, stranger) = (AuditError::OutOfMemory, AuditError::Stranger);
    let (missing, mismatch) = (EndFault::SeatsMissing, EndFault::Mismatch);
    let texts = format!(in alloc; "  {memory}\n  {stranger}\n  {missing}\n  {mismatch}\n")?;
    format!(in alloc; "faults of an audited queue:\n{texts}")
}

// Lets four callers emit as fast as they can, into each kind of queue, and returns the report.
fn report_bursts<R: Runtime>(rt: &R, alloc: Global) -> MetricResult<String> {
    let mut text = String::new(alloc);
    let emits = bursts::EMITS;
    writeln!(
        &mut text,
        "while the wrapped sink takes each line at once, of {emits} emits:"
    )?;
    for kind in QueueKind::ALL {
        writeln!(&mut text, "{kind}")?;
        text.push_str(&bursts::report(rt, alloc, kind)?)?;
    }
    Ok(text)
}

// Lets four callers wait after each line, over each kind of queue, and returns the report.
fn report_wake_ups<R: Runtime>(rt: &R, alloc: Global) -> MetricResult<String> {
    let mut text = String::new(alloc);
    let emits = wake_ups::EMITS;
    writeln!(
        &mut text,
        "while each caller waits after a line until none is queued, of {emits} emits:"
    )?;
    for kind in QueueKind::ALL {
        writeln!(&mut text, "{kind}")?;
        text.push_str(&wake_ups::report(rt, alloc, kind)?)?;
    }
    Ok(text)
}

// Returns whether the first argument is the word `threads`.
fn wants_threads_alone(rt: &HostRuntime) -> MetricResult<bool> {
    let mut words = env::args(rt)?;
    let _program = words.next();
    Ok(words.next().is_some_and(|word| word.as_str() == "threads"))
}

// Returns what came of the rows of each file.
fn report_rows<R: Runtime + Alloc + Files + Net>(rt: &R, alloc: Global) -> MetricResult<String> {
    let mut text = outcomes::report(rt, alloc, &fs::read_to_string(rt, "calls")?)?;
    text.push_str(&sums::report(rt, alloc, &fs::read_to_string(rt, "sums")?)?)?;
    let variables = fs::read_to_string(rt, "environment.rows")?;
    text.push_str(&environment::report(alloc, Kind::Variables, &variables)?)?;
    let enrichments = fs::read_to_string(rt, "enrichments.rows")?;
    text.push_str(&environment::report(alloc, Kind::Enrichments, &enrichments)?)?;
    let containers = fs::read_to_string(rt, "containers.rows")?;
    text.push_str(&containers::report(alloc, &containers)?)?;
    let addresses = fs::read_to_string(rt, "addresses.rows")?;
    text.push_str(&addresses::report(rt, alloc, &addresses)?)?;
    writeln!(&mut text, "port {DEFAULT_PORT}")?;
    text.push_str(&audit_error_texts(alloc)?)?;
    Ok(text)
}

fn main(rt: HostRuntime) -> MetricResult<()> {
    let alloc = rt.alloc();
    if wants_threads_alone(&rt)? {
        print!(rt; "{}", makers::report(&rt, alloc)?)?;
        return Ok(());
    }
    print!(rt; "{}", report_rows(&rt, alloc)?)?;
    print!(rt; "{}", makers::report(&rt, alloc)?)?;
    print!(rt; "{}", report_bursts(&rt, alloc)?)?;
    print!(rt; "{}", report_wake_ups(&rt, alloc)?)?;
    Ok(())
}
