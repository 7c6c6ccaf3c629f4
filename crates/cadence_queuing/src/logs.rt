//! The logs that a queue with names, its worker and the sink that it feeds begin with. They exist in proofs only.
ghost use Rattle.std.specs.Prelude.{◌≡◌, []};

use crate::fed::FedLogs;
use cadence_queue::QueueLogs;
use cadence_stage::{Entry, OwnLog, Right, Seen, twins};
use std::alloc::Allocator;

/// The logs of a queue that has not begun, and the rights of its worker.
#[derive(Drop)]
pub struct WorkerLogs<A: Allocator> {
    /// The logs of the queue.
    pub queue: QueueLogs<String<A>>,
    /// The right to note what is taken from the queue.
    pub take: Right<String<A>>,
    /// What was taken from the queue: nothing yet.
    pub seen: Seen<String<A>>,
    /// The right to feed the sink.
    pub feed: Right<Entry>,
    pub ghost name: { (take.name ≡ queue.taken.name) × (seen.name ≡ queue.taken.name) },
    pub ghost none: { (take.items ≡ []) × (seen.items ≡ []) × (feed.items ≡ []) },
}

impl<A: Allocator> WorkerLogs<A> {
    ghost use Rattle.cadence_queuing.specs.Logs.{names_of};

    /// Makes the logs of a queue, of its worker, and of the sink that the worker feeds.
    pub fn begin() -> (WorkerLogs<A>, FedLogs<A>)
        ensures { (result.1.fed.name ≡ (names_of result.0).fed)
            × (result.1.from.name ≡ (names_of result.0).taken) }
    {
        let (mut taken, take) = twins();
        let (_other, own) = twins();
        let (fed, feed) = twins();
        let (seen, from) = (taken.seen(), taken.seen());
        let queue = QueueLogs {
            accepted: OwnLog::new(),
            taken,
            own,
            ended: OwnLog::new(),
        };
        let worker = WorkerLogs {
            queue,
            take,
            seen,
            feed,
        };
        (worker, FedLogs { fed, from })
    }
}
