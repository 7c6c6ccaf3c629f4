//! How the steps of a run are made, whatever takes the lines that its worker hands on.
ghost use Rattle.std.specs.Prelude.{◌≡◌, ◌<◌, ◌≤◌, ◌^◌, [], All, IfOk, length, vec_capacity};
ghost use Rattle.std.specs.List.{zip};
ghost use Rattle.cadence_queue.specs.Queue.{new_queue};
ghost use Rattle.cadence_text.specs.Representable.{IsRepresentable};
ghost use Rattle.cadence_settings.specs.CallData.{line_of_data, metric_of_data};
ghost use Rattle.cadence_schedule.specs.RunHistory.{accepted};
ghost use Rattle.cadence_schedule.specs.Running.{Runs};

use super::running::Running;
use super::steps::{Reply, Step};
use cadence_errors::MetricResult;
use cadence_queue::{QueueCore, QueuePolicy};
use cadence_settings::ClientSettings;
use cadence_stage::Stage;
use std::alloc::Allocator;

// Returns a list with room for the replies to this many steps, and a queue. The only error is that memory ran out.
pub(crate) fn lists_of_run<A: Allocator + Clone>(
    alloc: &A,
    steps: usize,
    queue: Option<usize>,
    policy: QueuePolicy,
) -> MetricResult<(Vec<Reply, A>, QueueCore<String<A>, A>)>
    ensures replies { IfOk result (λ lists.
        (lists.0.items ≡ []) × (steps ≤ vec_capacity lists.0)) }
    ensures queue { IfOk result (λ lists. lists.1 ≡ new_queue queue policy) }
    ensures few { IfOk result (λ lists. steps < 2 ^ 64) }
{
    let replies = Vec::with_capacity(alloc.clone()?, steps)?;
    let queue = QueueCore::with_policy(alloc.clone()?, queue, policy)?;
    Ok((replies, queue))
}

// Makes the steps in their order, from a new queue and an empty hand on, and returns the last state and the replies.
pub(crate) fn make_steps<S: Stage, A: Allocator + Clone>(
    settings: &ClientSettings<A>,
    steps: &[Step<A>],
    queue: QueueCore<String<A>, A>,
    stage: S,
    replies: Vec<Reply, A>,
) -> (Running<S, A>, Vec<Reply, A>)
    requires queue { queue ≡ new_queue queue.capacity queue.policy }
    requires replies { (replies.items ≡ []) × (length steps.now ≤ vec_capacity replies) }
    ensures runs { Runs S.step (line_of_data settings.now) queue.capacity queue.policy
        stage result.0 (zip steps.now result.1.items) }
    ensures representable { All IsRepresentable (accepted (metric_of_data settings.now)
        (zip steps.now result.1.items)) }
    ensures one_each { length result.1.items ≡ length steps.now }
{
    let mut running = Running {
        queue,
        in_hand: None,
        stage,
    };
    let mut replies = replies;
    for step in steps {
        let reply = running.step(settings, step);
        let Ok(()) = replies.push(reply) else {
            unreachable!()
        };
    }
    (running, replies)
}
