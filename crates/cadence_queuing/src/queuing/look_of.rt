//! A queue and the stage that its worker feeds, as proofs see them at one moment.
ghost use Rattle.std.specs.Prelude.{◌≡◌, [], ◌++◌, OnOk, false};
ghost use Rattle.cadence_flow.specs.RecordedPacker.{IsPackerStep, packer_of};
ghost use Rattle.cadence_queue.specs.QueuePast.{IsPast};
ghost use Rattle.cadence_queue.specs.QueueState.{drops};
ghost use Rattle.cadence_queue.specs.RecordedQueue.{core_of};
ghost use Rattle.cadence_queuing.specs.Delivered.{IsPackedOf};
ghost use Rattle.cadence_stage.specs.Call.{Flush};

use crate::fed::FedStage;
use cadence_errors::SinkError;
use cadence_flow::RecordedPacker;
use cadence_flow::io::PacketWriter;
use cadence_queue::RecordedQueue;
use cadence_stage::{Logs, Named, Names, Stage};
use std::alloc::Allocator;
use std::snapshot::Snapshot;

/// A queue and the stage that its worker feeds, as they were at one moment. It exists in proofs only.
#[derive(Drop)]
pub struct Look<S: Stage, A: Allocator, J: Names>
where
    Named<J>: Logs,
{
    queue: Snapshot<RecordedQueue<String<A>, A, Named<J>>>,
    stage: Snapshot<FedStage<S, A, J>>,
}

impl<S: Stage, A: Allocator, J: Names> Look<S, A, J> {
    ghost use Rattle.cadence_queuing.specs.Look.{calls_at, fed_at, policy_at, queue_at, stage_at, texts_accepted, texts_taken};
    ghost use Rattle.cadence_stage.specs.Past.{taken_in};

    // Keeps what was seen.
    pub(super) fn new(
        queue: Snapshot<RecordedQueue<String<A>, A, Named<J>>>,
        stage: Snapshot<FedStage<S, A, J>>,
    ) -> Self
        ensures queue { queue_at result ≡ queue.value }
        ensures stage { fed_at result ≡ stage.value }
    {
        Look { queue, stage }
    }

    /// States that each line that the queue accepted was taken or dropped, or it waits, in order (`past`). In a queue that
    /// drops none, the accepted lines are those that were taken, and then those that wait. Does nothing when it is called.
    pub fn in_order(&self)
        ensures past { ∥ IsPast (texts_accepted self.now) (texts_taken self.now)
            (core_of (queue_at self.now)) ∥₁ }
        ensures whole { drops (policy_at self.now) ≡ false → texts_accepted self.now
            ≡ texts_taken self.now ++ (core_of (queue_at self.now)).waiting }
    {}

    /// States that the stage took just those lines that it answered with a number. Does nothing when it is called.
    pub fn took(&self)
        ensures { S.taken (stage_at self.now) ≡ taken_in (calls_at self.now) }
    {}
}

impl<W: PacketWriter, B: Allocator, A: Allocator, J: Names> Look<RecordedPacker<W, B>, A, J> {
    ghost use Rattle.cadence_queuing.specs.Look.{calls_at, stage_at};

    /// States that the packets that the writer took, joined, and then the held text are the frames of the lines that the
    /// packer took, in order. Does nothing when it is called.
    pub fn frames(&self)
        ensures { ∥ IsPackedOf (packer_of (stage_at self.now)) (calls_at self.now) ∥₁ }
    {}

    /// States that nothing is held, if the flush that came last succeeded. Does nothing when it is called.
    pub fn holds_nothing(&self, flushed: &Result<(), SinkError>)
        requires { (before : RecordedPacker W B)
            × IsPackerStep W.kind W.history before (stage_at self.now) (Flush flushed.now) }
        ensures { OnOk flushed.now ((packer_of (stage_at self.now)).held ≡ []) }
    {}
}
