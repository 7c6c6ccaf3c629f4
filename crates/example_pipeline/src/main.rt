//! A service whose lines are proved to arrive. Two threads count over one queue, whose worker feeds a packer. `stop` says
//! in its contract what became of their lines; its proof takes one step over the clauses of `stop_and_flush`.
//!
//! It prints how many lines the packets have. Which thread's line comes first is not known.
#![tactic(auto)]

ghost use Rattle.std.specs.Prelude.{◌≡◌, [], OnOk, false, map, string_bytes};
ghost use Rattle.cadence_queue.specs.QueueState.{drops};
ghost use Rattle.cadence_queuing.specs.Logs.{names_of};
ghost use Rattle.cadence_queuing.specs.Look.{calls_at, policy_at, stage_at, texts_accepted};
ghost use Rattle.cadence_flow.specs.RecordedPacker.{packer_of};
ghost use Rattle.cadence_queuing.specs.Delivered.{IsPackedOf};
ghost use Rattle.cadence_stage.specs.Past.{lines_in};

use cadence::pipeline::{FedLogs, FedSink, Look, Named, Names, SpyLines, WorkerLogs};
use cadence::prelude::*;
use cadence::sinks::SpyReceiver;
use cadence::{
    BufferedSpyMetricSink, MetricResult, QueuingMetricSink, QueuingMetricSinkBuilder, SinkError,
    StatsdClient,
};
use std::alloc::Global;
use std::marker::Brand;
use std::sync::Wait;
use std::thread::{self, Threads};
use std::time::Clock;

/// The queue of the service: its worker feeds the packer of a spy. `J` names the logs of both.
type Queue<R, J> = QueuingMetricSink<
    FedSink<SpyLines<R, Global>, R, Global, J>,
    R,
    Global,
    Named<J>,
>;

/// Stops the queue, waits for its worker, and flushes the packer. Then the packer was given each accepted line, once and
/// in the order of acceptance. The packets and the held text are the frames of the lines that it took, and nothing is
/// held if the flush succeeded.
fn stop<R: Wait + Drop, J: Names>(
    queue: &Queue<R, J>,
) -> (Look<SpyLines<R, Global>, Global, J>, Result<(), SinkError>)
    ensures given { drops (policy_at result.0) ≡ false →
        ∥ lines_in (calls_at result.0) ≡ map string_bytes (texts_accepted result.0) ∥₁ }
    ensures packed { ∥ IsPackedOf (packer_of (stage_at result.0)) (calls_at result.0) ∥₁ }
    ensures sent { OnOk result.1 ((packer_of (stage_at result.0)).held ≡ []) }
{
    let mut receipt = queue.accepted();
    let (look, flushed) = queue.stop_and_flush(&mut receipt);
    look.frames();
    look.holds_nothing(&flushed);
    (look, flushed)
}

// The work of one thread.
fn count<R: Wait + Drop, J: Names>(
    client: &StatsdClient<Global, Queue<R, J>>,
    name: &str,
) -> MetricResult<()> {
    for _ in 0..100 {
        client.incr(name)?;
    }
    Ok(())
}

// Returns how many lines the packets of a receiver have.
fn count_lines<R: Wait + Drop>(receiver: &SpyReceiver<R>) -> u64 {
    let mut lines: u64 = 0;
    for _ in 0..1000 {
        let Some(packet) = receiver.try_recv() else {
            break;
        };
        for byte in packet.iter() {
            if *byte == b'\n' {
                lines = lines.wrapping_add(1);
            }
        }
    }
    lines
}

// Runs the service to its end, and returns how many lines were sent.
fn serve<
    J: Names + Send + Sync + 'static,
    R: Wait + Clock + Threads + Clone + Drop + Send + Sync + 'static,
>(rt: &R, alloc: Global, logs: WorkerLogs<Global>, fed: FedLogs<Global>) -> MetricResult<u64>
    requires worker { names_of logs ≡ J.names }
    requires sink { (fed.fed.name ≡ J.names.fed) × (fed.from.name ≡ J.names.taken) }
{
    let (receiver, packer) = BufferedSpyMetricSink::stage(rt.clone()?, alloc, None, 512)?;
    let sink: FedSink<_, R, Global, J> = FedSink::new(rt.clone()?, packer, fed);
    let queue = QueuingMetricSinkBuilder::new().build_fed(rt.clone()?, alloc, sink, logs)?;
    let client = StatsdClient::from_sink(alloc, "shop", queue)?;
    let (one, two) = thread::join(rt, || count(&client, "visits"), || count(&client, "orders"));
    one.and(two)?;
    let (_look, flushed) = stop(client.sink());
    flushed?;
    Ok(count_lines(&receiver))
}

fn main(rt: HostRuntime) -> MetricResult<()> {
    let (logs, fed) = WorkerLogs::begin();
    let lines = serve::<Brand, HostRuntime>(&rt, rt.alloc(), logs, fed)?;
    println!(rt; "{lines} lines were sent")?;
    Ok(())
}
