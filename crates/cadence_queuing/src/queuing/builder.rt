//! The builder of a queuing sink, which starts its worker.
ghost use Rattle.std.specs.Option.{ForSome};
ghost use Rattle.std.specs.Prelude.{◌≡◌, [], IfOk, IfErr, Some, None};
ghost use Rattle.cadence_queue.specs.SharedQueue.{bound_of, rule_of};
ghost use Rattle.cadence_queuing.specs.Builder.{IsMadeBy, no_options, options_of, plain_queue};
ghost use Rattle.cadence_queuing.specs.Logs.{names_of};
ghost use Rattle.cadence_queuing.specs.Queuing.{IsQueuingRefusal, flush_period, queue_capacity, queue_policy, wrapped_sink};

use super::QueuingMetricSink;
use super::long_texts::LongTexts;
use super::worker::{Part, Shared, Start, Worker};
use crate::fed_sink::FedSink;
use crate::feeds::Feeds;
use crate::logs::WorkerLogs;
use cadence_errors::MetricResult;
use cadence_flow::thread::start;
use cadence_flow::{Handler, MetricSink, SinkErrorHandler};
use cadence_queue::{QueuePolicy, SharedQueue};
use cadence_stage::{Entry, Latch, Logs, Named, Names, OwnLog, Right, Seen, Stage, twins};
use std::alloc::{Allocator, Global};
use std::marker::PhantomData;
use std::sync::{Arc, Wait};
use std::thread::Threads;
use std::time::{Clock, Duration};

/// Makes a `QueuingMetricSink`. Without a capacity its queue has no bound. Without a policy a full queue refuses lines.
/// Without a handler the errors of the wrapped sink are dropped. Without a flush period the worker never flushes the
/// wrapped sink.
///
/// ```text
/// let builder = QueuingMetricSinkBuilder::new()
///     .with_capacity(1000)
///     .with_policy(QueuePolicy::DropOldest)
///     .with_flush_period(Duration::from_secs(1));
/// let sink = builder.build(rt.clone()?, alloc, inner)?;
/// ```
#[derive(Drop)]
pub struct QueuingMetricSinkBuilder<A: Allocator = Global> {
    capacity: Option<usize>,
    policy: QueuePolicy,
    handler: Option<Handler<A>>,
    period: Option<Duration>,
}

impl<A: Allocator> QueuingMetricSinkBuilder<A> {
    /// Returns a builder without any setting.
    pub fn new() -> Self
        ensures { options_of result ≡ no_options }
    {
        QueuingMetricSinkBuilder {
            capacity: None,
            policy: QueuePolicy::Refuse,
            handler: None,
            period: None,
        }
    }

    /// Sets the capacity of the queue, in lines.
    pub fn with_capacity(mut self, capacity: usize) -> Self
        ensures { options_of result ≡ record (options_of self) { capacity = Some capacity } }
    {
        self.capacity = Some(capacity);
        self
    }

    /// Sets what a full queue does with a new line: it refuses the new line, or drops its oldest one, whose `emit` has
    /// long returned `Ok`. A dropped line is only counted, by `QueuingMetricSink::dropped`.
    pub fn with_policy(mut self, policy: QueuePolicy) -> Self
        ensures { options_of result ≡ record (options_of self) { policy = policy } }
    {
        self.policy = policy;
        self
    }

    /// Sets the handler, which receives the error of each line that the wrapped sink refuses, and of each flush of the
    /// worker that fails. It runs in the worker thread while no lock is held, so it may `emit` into the same queue. A
    /// handler that owns a handle of this queue keeps the queue and its worker alive until somebody stops the queue.
    pub fn with_error_handler(mut self, handler: SinkErrorHandler<A>) -> Self
        requires { IsAlwaysCallable handler }
        ensures { options_of result ≡ record (options_of self) { handler = Some handler } }
    {
        self.handler = Some(Handler::new(handler));
        self
    }

    /// Sets a period. The worker flushes the wrapped sink if this time has passed since its last flush and it has
    /// handed on a line since. So no line waits in a buffer for longer than the period, even if no more lines come,
    /// unless a flush fails. A period above 0 and below one millisecond counts as one millisecond.
    ///
    /// The worker flushes the wrapped sink between two lines. It looks for a due flush before it takes more lines out of
    /// the queue, at most 32 at a time. While a line that it has handed on was not flushed yet, it sleeps at most until
    /// the flush is due; otherwise it sleeps until a line comes. It also flushes the sink at its end. The error of a
    /// failed flush goes to the error handler, and the flush is tried again after one more period. Between two tries the
    /// worker looks at the queue, so it still takes lines and sees a stop if each flush fails. With a period of 0, and
    /// if the clock can't be read, it flushes the sink whenever it has no more lines in hand, and tries a failed flush
    /// again after each look at the queue, and after a millisecond if no line comes.
    pub fn with_flush_period(mut self, period: Duration) -> Self
        ensures { options_of result ≡ record (options_of self) { period = Some period } }
    {
        self.period = Some(period);
        self
    }
}

// Makes a sink over this queue whose worker is not started yet. If the sink is dropped, the queue is stopped.
fn make_sink<S: Drop, R: Wait + Drop, A: Allocator + Clone, N: Logs>(
    rt: R,
    alloc: A,
    sink: S,
    queue: SharedQueue<String<A>, A, String<A>, N>,
    period: Option<Duration>,
) -> MetricResult<QueuingMetricSink<S, R, A, N>>
    ensures wrapped { IfOk result (λ q. wrapped_sink q ≡ sink) }
    ensures queue { IfOk result (λ q. (queue_capacity q ≡ bound_of queue)
        × (queue_policy q ≡ rule_of queue)) }
    ensures period { IfOk result (λ q. flush_period q ≡ period) }
    ensures refused { IfErr result IsQueuingRefusal }
{
    let long_texts = LongTexts::new(alloc.clone()?)?;
    let shared = Shared {
        sink,
        queue,
        long_texts,
        period,
    };
    let shared = Arc::new(alloc.clone()?, shared)?;
    let end = Arc::new(alloc.clone()?, Latch::new())?;
    Ok(QueuingMetricSink {
        rt,
        alloc,
        shared,
        end,
    })
}

// Makes what the worker of this sink needs.
fn make_worker<S: Drop, R: Wait + Clone + Drop, A: Allocator + Clone, N: Feeds<S, A>>(
    sink: &QueuingMetricSink<S, R, A, N>,
    take: Right<String<A>>,
    seen: Seen<String<A>>,
    feed: Right<Entry>,
    fed: N::Fed,
) -> MetricResult<Worker<S, R, A, N>>
    requires named { ForSome N.logs (λ names. (take.name ≡ names.taken)
        × (seen.name ≡ names.taken) × (feed.name ≡ names.fed)) }
    requires none { (take.items ≡ []) × (seen.items ≡ []) × (feed.items ≡ []) }
    requires nothing { N.handed fed ≡ [] }
    ensures { IfErr result IsQueuingRefusal }
{
    let room = sink.shared.queue.room_of_taker(sink.alloc.clone()?)?;
    let part = Part {
        rt: sink.rt.clone()?,
        shared: sink.shared.clone()?,
        end: sink.end.clone()?,
    };
    let start = Start {
        room,
        take,
        seen,
        feed,
        fed,
        of: PhantomData,
    };
    Ok(Worker { part, start })
}

impl<A: Allocator + Clone + Send + Sync + 'static> QueuingMetricSinkBuilder<A> {
    /// Makes the sink and starts its worker thread. The errors are `OutOfMemory`, and `Io` if the thread can't be
    /// started. The wrapped sink is dropped then.
    pub fn build<
        S: MetricSink + Send + Sync + 'static,
        R: Wait + Clock + Threads + Clone + Drop + Send + Sync + 'static,
    >(self, rt: R, alloc: A, sink: S) -> MetricResult<QueuingMetricSink<S, R, A>>
        ensures made { IfOk result (IsMadeBy (options_of self) sink) }
        ensures refused { IfErr result IsQueuingRefusal }
    {
        let queue = SharedQueue::with_policy(alloc.clone()?, self.capacity, self.policy)?;
        let sink = make_sink(rt, alloc, sink, queue, self.period)?;
        let (mut taken, take) = twins();
        let (_fed, feed) = twins();
        let worker = make_worker(&sink, take, taken.seen(), feed, OwnLog::new())?;
        start(&sink.rt, worker, self.handler)?;
        Ok(sink)
    }

    /// Makes a sink whose worker feeds a `FedSink`, and starts the worker. The logs of the three have the names `J`, so
    /// `look` and `stop_and_flush` can say what became of the lines. The errors are those of `build`.
    pub fn build_fed<
        S: Stage + Send + 'static,
        R: Wait + Clock + Threads + Clone + Drop + Send + Sync + 'static,
        J: Names + Send + Sync + 'static,
    >(
        self,
        rt: R,
        alloc: A,
        sink: FedSink<S, R, A, J>,
        logs: WorkerLogs<A>,
    ) -> MetricResult<QueuingMetricSink<FedSink<S, R, A, J>, R, A, Named<J>>>
        requires { names_of logs ≡ J.names }
        ensures made { IfOk result (IsMadeBy (options_of self) sink) }
        ensures refused { IfErr result IsQueuingRefusal }
    {
        let WorkerLogs {
            queue,
            take,
            seen,
            feed,
        } = logs;
        let queue = SharedQueue::with_logs(alloc.clone()?, self.capacity, self.policy, queue)?;
        let sink = make_sink(rt, alloc, sink, queue, self.period)?;
        let worker = make_worker(&sink, take, seen, feed, OwnLog::new())?;
        start(&sink.rt, worker, self.handler)?;
        Ok(sink)
    }
}

impl<
    S: MetricSink + Send + Sync + 'static,
    R: Wait + Clock + Threads + Clone + Drop + Send + Sync + 'static,
    A: Allocator + Clone + Send + Sync + 'static,
> QueuingMetricSink<S, R, A> {
    /// Makes a sink with an unbounded queue, and starts its worker thread. The errors are `OutOfMemory`, and `Io` if
    /// the thread can't be started. The wrapped sink is dropped then.
    pub fn from(rt: R, alloc: A, sink: S) -> MetricResult<Self>
        ensures made { IfOk result (IsMadeBy (plain_queue None) sink) }
        ensures refused { IfErr result IsQueuingRefusal }
    {
        QueuingMetricSinkBuilder::new().build(rt, alloc, sink)
    }

    /// Makes a sink with a queue of at most `capacity` lines, and starts its worker thread. The errors are
    /// `OutOfMemory`, and `Io` if the thread can't be started. The wrapped sink is dropped then.
    pub fn with_capacity(rt: R, alloc: A, sink: S, capacity: usize) -> MetricResult<Self>
        ensures made { IfOk result (IsMadeBy (plain_queue (Some capacity)) sink) }
        ensures refused { IfErr result IsQueuingRefusal }
    {
        let builder = QueuingMetricSinkBuilder::new().with_capacity(capacity);
        builder.build(rt, alloc, sink)
    }
}

impl<S: MetricSink, R: Wait + Drop, A: Allocator> QueuingMetricSink<S, R, A> {
    /// Returns a builder without any setting.
    pub fn builder() -> QueuingMetricSinkBuilder<A>
        ensures { options_of result ≡ no_options }
    {
        QueuingMetricSinkBuilder::new()
    }
}
