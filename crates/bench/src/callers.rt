//! Emits lines into queues, and into sinks from several threads at the same time.

use crate::arguments::{Arguments, Emitting};
use crate::done::{Accepted, BlackBox, Done, Note};
use crate::packets::make_line;
use crate::sinks::{
    GatedSink, done_by, emit_to_udp, make_buffered_sink, make_queue, wait_until_drained,
};
use cadence::prelude::*;
use cadence::{
    BufferedUdpMetricSink, MetricResult, MetricSink, NopMetricSink, QueuingMetricSink, StatsdClient,
};
use std::alloc::Global;
use std::io;
use std::net::{Net, UdpSocket};
use std::sync::{Arc, Barrier, Mutex, Wait};
use std::thread::{self, Threads};
use std::time::{Clock, Duration, Instant};

// What the turns of a caller gave: when they began and ended, as times since one moment for all callers, and how many
// of them succeeded.
#[derive(Clone, Copy, Drop)]
struct Turns {
    begun: Duration,
    ended: Duration,
    succeeded: u64,
}

// The work that several callers do at the same time, one turn after another.
trait Turn: Sync {
    // Does the work once, and returns whether it succeeded.
    fn take(&self, hidden: &BlackBox, number: u64) -> bool;
}

// Takes `count` turns.
fn take_turns<R: Clock, T: Turn>(
    rt: &R,
    since: Instant,
    count: u64,
    turn: &T,
) -> io::Result<Turns> {
    let hidden = BlackBox::new();
    let begun = since.elapsed(rt)?;
    let mut succeeded = 0u64;
    for i in 0..count {
        if turn.take(&hidden, i) {
            succeeded = succeeded.wrapping_add(1);
        }
    }
    Ok(Turns {
        begun,
        ended: since.elapsed(rt)?,
        succeeded,
    })
}

// Runs the callers, each with its share of the turns, all from the same moment on. A single one runs in this thread.
// Returns how many turns succeeded, and the time from when the first caller began until the last one ended.
fn run_together<R: Clock + Wait + Threads + Sync, T: Turn>(
    rt: &R,
    alloc: Global,
    arguments: &Arguments,
    turn: &T,
) -> MetricResult<Accepted> {
    let each = arguments.calls / (arguments.callers as u64).max(1);
    let ready = Barrier::new(arguments.callers);
    let since = Instant::now(rt)?;
    let all = thread::map_indices(
        rt,
        alloc,
        arguments.callers,
        &|_caller| {
            ready.wait(rt);
            take_turns(rt, since, each, turn)
        },
    )?;
    let (mut begun, mut ended, mut lines) = (Duration::MAX, Duration::ZERO, 0u64);
    for one in all {
        let one = one?;
        begun = begun.min(one.begun);
        ended = ended.max(one.ended);
        lines = lines.wrapping_add(one.succeeded);
    }
    Ok(Accepted {
        lines,
        time: ended.saturating_sub(begun),
    })
}

// Emits a line into a sink.
#[derive(Drop)]
struct EmitLine<'a, S: MetricSink> {
    sink: &'a S,
    line: &'a str,
}

impl<S: MetricSink + Sync> Turn for EmitLine<'_, S> {
    fn take(&self, hidden: &BlackBox, _number: u64) -> bool {
        self.sink.emit(hidden.text(self.line)).is_ok()
    }
}

// Emits lines of one caller or of several into a queue over a sink that does nothing.
fn emit_to_queue<R: Clock + Wait + Threads + Clone + Drop + Send + Sync + 'static>(
    rt: &R,
    alloc: Global,
    arguments: &Arguments,
) -> MetricResult<Done> {
    let line = make_line(alloc, arguments.length)?;
    let queue = make_queue(rt, alloc, NopMetricSink, arguments.capacity)?;
    queue.emit(&line)?;
    wait_until_drained(rt, &queue, 1);
    let emit = EmitLine {
        sink: &queue,
        line: &line,
    };
    let start = Instant::now(rt)?;
    let accepted = run_together(rt, alloc, arguments, &emit)?;
    wait_until_drained(rt, &queue, accepted.lines.wrapping_add(1));
    let drained = start.elapsed(rt)?;
    queue.stop_and_wait();
    Ok(accepted.into_done(arguments.capacity, drained))
}

// Emits lines of several callers that a full queue refuses. Its worker sleeps in the sink, so that it takes no line and no
// processor.
fn emit_to_full_queue<R: Clock + Wait + Threads + Clone + Drop + Send + Sync + 'static>(
    rt: &R,
    alloc: Global,
    arguments: &Arguments,
) -> MetricResult<Done> {
    let line = make_line(alloc, arguments.length)?;
    let gate = Arc::new(alloc, Mutex::new(()))?;
    let closed = gate.lock(rt);
    let sink = GatedSink::new(rt.clone()?, gate.clone()?);
    let queue = make_queue(rt, alloc, sink, arguments.capacity.max(1))?;
    queue.emit(&line)?;
    wait_until_drained(rt, &queue, 1);
    for _ in rt.forever() {
        if queue.emit(&line).is_err() {
            break;
        }
    }
    let emit = EmitLine {
        sink: &queue,
        line: &line,
    };
    let accepted = run_together(rt, alloc, arguments, &emit)?;
    drop(closed);
    queue.stop_and_wait();
    Ok(Done {
        time: accepted.time,
        check: accepted.lines,
        note: Note::Nothing,
    })
}

// Emits lines of several callers into a buffered UDP sink.
fn emit_together_to_udp<R: Clock + Net + Wait + Threads + Clone + Drop + Send + Sync>(
    rt: &R,
    alloc: Global,
    arguments: &Arguments,
) -> MetricResult<Done> {
    let line = make_line(alloc, arguments.length)?;
    let (_server, sink) = make_buffered_sink(rt, alloc, arguments.capacity)?;
    let emit = EmitLine {
        sink: &sink,
        line: &line,
    };
    let emitted = run_together(rt, alloc, arguments, &emit)?;
    sink.flush()?;
    Ok(done_by(emitted.time, &sink))
}

// Sends a counter with a tag.
#[derive(Clone, Copy)]
struct Visit<'a> {
    client: &'a StatsdClient,
}

impl Turn for Visit<'_> {
    fn take(&self, hidden: &BlackBox, number: u64) -> bool {
        self.client
            .count_with_tags(
                hidden.text("visits"),
                hidden.hide((number % 1000) as i64, 0),
            )
            .with_tag(hidden.text("page"), hidden.text("home"))
            .try_send()
            .is_ok()
    }
}

type QueuedUdp<R> = QueuingMetricSink<BufferedUdpMetricSink<R>, R>;

/// Makes a queue over a buffered UDP sink of 512 bytes, and the socket of this process that the sink sends to, which
/// nobody reads.
pub fn make_queue_over_udp<R: Clock + Net + Wait + Threads + Clone + Drop + Send + Sync + 'static>(
    rt: &R,
    alloc: Global,
    arguments: &Arguments,
) -> MetricResult<(UdpSocket, QueuedUdp<R>)> {
    let (server, udp) = make_buffered_sink(rt, alloc, 512)?;
    Ok((server, make_queue(rt, alloc, udp, arguments.capacity)?))
}

/// Sends counters of several callers of a client over a queue, and waits until the last line that the queue accepted is
/// taken.
pub fn run_service<R: Clock + Wait + Threads + Drop + Sync, S: MetricSink>(
    rt: &R,
    alloc: Global,
    arguments: &Arguments,
    client: &StatsdClient,
    queue: &QueuingMetricSink<S, R>,
) -> MetricResult<Done> {
    let start = Instant::now(rt)?;
    let accepted = run_together(rt, alloc, arguments, &Visit { client })?;
    wait_until_drained(rt, queue, accepted.lines);
    client.flush()?;
    Ok(accepted.into_done(arguments.capacity, start.elapsed(rt)?))
}

/// Emits lines into a sink or a queue, from one thread or from several.
pub fn emit<R: Clock + Net + Wait + Threads + Clone + Drop + Send + Sync + 'static>(
    rt: &R,
    alloc: Global,
    what: Emitting,
    arguments: &Arguments,
) -> MetricResult<Done> {
    match what {
        Emitting::Udp => emit_to_udp(rt, alloc, arguments),
        Emitting::Queue | Emitting::Callers => emit_to_queue(rt, alloc, arguments),
        Emitting::Refused => emit_to_full_queue(rt, alloc, arguments),
        Emitting::UdpCallers => emit_together_to_udp(rt, alloc, arguments),
    }
}
