//! The run of a schedule. The contract of `run_schedule_with` is the headline of this project.
ghost use Rattle.std.specs.Prelude.{◌≡◌, IfOk, IfErr};
ghost use Rattle.std.specs.List.{zip};
ghost use Rattle.cadence_schedule.specs.Headline.{given_of, HasHeadline, IsAccounted};
ghost use Rattle.cadence_schedule.specs.RunHistory.{dropped_count};
ghost use Rattle.cadence_schedule.specs.Report.{outcome_of};
ghost use Rattle.cadence_queue.specs.declared.policy.QueuePolicy.TheVariants.{Refuse};

use super::laws::{packets_read_one_way, tight_is_fewest};
use super::make_steps::{lists_of_run, make_steps};
use super::packing::Packing;
use super::reports::Report;
use super::steps::Step;
use cadence_flow::io::{CountingWriter, PacketWriter};
use cadence_queue::QueuePolicy;
use cadence_settings::{ClientSettings, cleaned_calls_are_clear, strict_calls_are_clear};
use cadence_text::laws::no_line_is_empty;
use std::alloc::Allocator;

/// Runs a schedule and returns its report.
///
/// A schedule is a list of steps: what callers, one worker and whoever flushes or stops do to one client, in the order
/// in which they do it. Anything that several callers and one worker can do, each in steps of its own, is such a list.
/// Between the callers and the worker is a queue of `queue` lines (`None` means no bound), and the worker hands lines
/// to a packer, which packs them into packets of at most `capacity` bytes for `writer`.
///
/// - `Call` formats the line of a call with the settings and puts it into the queue. If the queue is full, `policy`
///   says whether the call is refused or the oldest line is dropped for it. Strict settings refuse a call that has a
///   separator in a text, other than a colon after the key of a tag, before they look at the queue.
/// - `Take` moves the oldest line of the queue into the worker's hand, which has one line at most.
/// - `Hand` gives the line in hand to the packer. The packer appends it and `ending` to the text that it holds. If
///   there is no room, it sends the held text as a packet first. A line that with its ending passes the capacity is
///   oversize: it is sent at once, as a packet of its own and without the ending.
/// - `Flush` sends the held text as a packet.
/// - `Stop` stops the queue: from then on calls are refused, and the lines that wait may still be taken.
///
/// The report has the reply to each step, the numbers of lines in the packets, the text that the packer still holds,
/// the queue and the line in hand as they are at the end, the bytes and packets sent and refused, and the writer.
///
/// The contract promises the following. `HasHeadline` of specs/Headline.antt states it in five fields, and
/// `IsAccounted` adds the sums, the packets sent before the run, and what a listener reads.
///
/// 1. The packets of the run, joined, and then the held text are exactly the lines that were accepted, taken, and kept
///    by the packer, in order, each with its ending (an oversize line without).
/// 2. No line is split between packets, no packet passes the capacity except that of an oversize line, and a packet
///    ends at each flush that returned `Ok`.
/// 3. Each reply is the one that the steps before it call for, and the queue, its counts and the line in hand are what
///    these steps leave; so each refusal has one of its stated causes and leaves nothing behind.
/// 4. As many hands and flushes returned an error as the writer refused packets, modulo 2 to the 64.
/// 5. If the writer refused no packet, no way to pack the same lines that ends a packet at each flush has fewer
///    packets.
///
/// If the settings refuse separators in texts or clean them, and each line ends in a newline, the packets can be read
/// as the metrics of the kept lines, and as no other clear metrics, whatever texts the calls have. A metric is clear if
/// no text of it has a separator, except colons after the keys of tags.
///
/// Number 3 holds for every writer, number 4 for one that takes each packet whole or refuses it, and the others for one
/// that does so and reports its packets to contracts. The Rust crate has no such function.
///
/// # Errors
/// The writer is returned if memory for the lists of the run or for the buffer of the packer runs out. No step was made
/// then. If memory runs out in a step, the reply to that step says so.
pub fn run_schedule_with<W: PacketWriter, A: Allocator + Clone>(
    alloc: A,
    settings: &ClientSettings<A>,
    capacity: usize,
    ending: &str,
    queue: Option<usize>,
    policy: QueuePolicy,
    steps: &[Step<A>],
    writer: W,
) -> Result<Report<W, A>, W>
    ensures headline { let given =
        given_of W.kind W.history settings.now capacity ending.now queue policy steps.now writer in
        IfOk result (λ report. HasHeadline W.history given (outcome_of report)
        × IsAccounted W.history given (outcome_of report)) }
    ensures returned { IfErr result (λ back. back ≡ writer) }
{
    // Laws, which only the proof needs. The calls compile to no code.
    no_line_is_empty();
    tight_is_fewest();
    packets_read_one_way();
    strict_calls_are_clear();
    cleaned_calls_are_clear();
    let _ = settings.is_strict();
    let _ = settings.is_cleaned();
    let Ok((replies, queue)) = lists_of_run(&alloc, steps.len(), queue, policy) else {
        return Err(writer);
    };
    let counting = CountingWriter::new(writer);
    match Packing::new(&alloc, capacity, ending, steps.len(), counting) {
        Ok(packing) => {
            let (running, replies) = make_steps(settings, steps, queue, packing, replies);
            Ok(Report::of(running, replies))
        }
        Err(counting) => Err(counting.into_inner()),
    }
}

/// Runs a schedule as [`run_schedule_with`] does, with a queue that refuses lines when it is full. So no line is
/// dropped.
///
/// # Errors
/// The writer is returned if memory for the lists of the run or for the buffer of the packer runs out. No step was made
/// then.
pub fn run_schedule<W: PacketWriter, A: Allocator + Clone>(
    alloc: A,
    settings: &ClientSettings<A>,
    capacity: usize,
    ending: &str,
    queue: Option<usize>,
    steps: &[Step<A>],
    writer: W,
) -> Result<Report<W, A>, W>
    ensures headline { let given =
        given_of W.kind W.history settings.now capacity ending.now queue Refuse steps.now writer in
        IfOk result (λ report. HasHeadline W.history given (outcome_of report)
        × IsAccounted W.history given (outcome_of report)) }
    ensures none_dropped { IfOk result (λ report.
        dropped_count (zip steps.now (outcome_of report).replies) ≡ 0) }
    ensures returned { IfErr result (λ back. back ≡ writer) }
{
    let refuse = QueuePolicy::Refuse;
    run_schedule_with(
        alloc, settings, capacity, ending, queue, refuse, steps, writer,
    )
}
