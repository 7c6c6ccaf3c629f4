//! Plans that say how many lines each packet has. They need the sizes of the lines alone, and not the lines.
//!
//! A size is the number of bytes of a line with its ending. A size above the capacity is oversize: its line is a packet
//! of its own. A mark `p` asks that a packet ends after the first `p` lines, as a flush does.
ghost use Rattle.std.specs.Prelude.{◌≡◌, ◌+◌, ◌<◌, ◌≤◌, ◌↔◌, IsTrue, IfSome, IfNone, IfOk, drop, length, sum, All, Contains};
ghost use Rattle.cadence_schedule.specs.Plan.{IsFewest, IsTight, IsTightGroup};
ghost use Rattle.cadence_errors.specs.Errors.{MayOnlyRunOutOfMemory};

use cadence_errors::MetricResult;
use std::alloc::Allocator;

// Returns how many bytes of the capacity these sizes leave, or `None` if their sum passes it.
fn room_after(group: &[usize], capacity: usize) -> Option<usize>
    ensures room { IfSome result (λ room. room + sum group.now ≡ capacity) }
    ensures none { IfNone result (capacity < sum group.now) }
{
    let mut room = capacity;
    for size in group {
        if *size > room {
            return None;
        }
        room -= *size;
    }
    Some(room)
}

// Returns whether no mark lies between the two places. A mark at one of them doesn't count.
fn none_between(marks: &[usize], start: usize, end: usize) -> bool
    ensures { IsTrue result ↔ All (λ mark. start < mark → end ≤ mark) marks.now }
{
    marks.iter().all(|mark| *mark <= start || end <= *mark)
}

// Returns whether there is a mark at this place.
fn is_mark(marks: &[usize], place: usize) -> bool
    ensures { IsTrue result ↔ Contains marks.now place }
{
    marks.contains(&place)
}

// Returns whether the next `count` sizes from `start` on may be a packet, and are as many as the capacity and the marks
// allow.
fn is_tight_group(
    sizes: &[usize],
    capacity: usize,
    marks: &[usize],
    start: usize,
    count: usize,
) -> bool
    requires { start ≤ length sizes.now }
    ensures { IsTrue result ↔ IsTightGroup capacity marks.now start count (drop start sizes.now) }
{
    let left = &sizes[start..];
    if count == 0 || count > left.len() {
        return false;
    }
    let end = start + count;
    if !none_between(marks, start, end) {
        return false;
    }
    match room_after(&left[..count], capacity) {
        None => count == 1,
        Some(room) => count == left.len() || left[count] > room || is_mark(marks, end),
    }
}

/// Returns whether the plan cuts these sizes into packets that respect the capacity and the marks, and none of which
/// could have had one more line. A plan that passes this check has the fewest packets.
///
/// Sizes and the capacity are in bytes. The plan lists how many sizes each packet has, in order. A mark `p` asks that a
/// packet ends after the first `p` sizes. A mark that is not below the number of sizes asks nothing, and the order of
/// the marks doesn't matter. The sum of the sizes may pass `usize::MAX`. The check takes no memory.
///
/// The Rust crate has no such function.
pub fn check_plan(sizes: &[usize], capacity: usize, marks: &[usize], plan: &[usize]) -> bool
    ensures exact { IsTrue result ↔ IsTight capacity marks.now sizes.now plan.now }
    ensures fewest { IsTrue result → IsFewest capacity marks.now sizes.now plan.now }
{
    let mut start = 0;
    for count in plan {
        if !is_tight_group(sizes, capacity, marks, start, *count) {
            return false;
        }
        start += *count;
    }
    start == sizes.len()
}

// Returns how many sizes from `start` on go into one packet: as many as fit, up to the next mark.
fn group_len(sizes: &[usize], capacity: usize, marks: &[usize], start: usize) -> usize
    requires { start < length sizes.now }
    ensures { IsTightGroup capacity marks.now start result (drop start sizes.now) }
{
    let left = &sizes[start..];
    if left[0] > capacity {
        return 1;
    }
    let mut room = capacity - left[0];
    for count in 1..left.len() {
        if left[count] > room || is_mark(marks, start + count) {
            return count;
        }
        room -= left[count];
    }
    left.len()
}

/// Returns a plan with the fewest packets, which `check_plan` accepts: how many sizes each packet has, in order.
///
/// Sizes and the capacity are in bytes. A mark `p` asks that a packet ends after the first `p` sizes. The Rust crate
/// has no such function.
///
/// ```
/// let sizes = [300, 200, 100];
/// let plan = plan_packets(alloc, &sizes, 512, &[])?; // 2 sizes in the first packet, 1 in the second
/// ```
///
/// # Errors
/// `SinkError::OutOfMemory` if memory for the plan runs out, and no other.
pub fn plan_packets<A: Allocator>(
    alloc: A,
    sizes: &[usize],
    capacity: usize,
    marks: &[usize],
) -> MetricResult<Vec<usize, A>>
    ensures tight { IfOk result (λ plan. IsTight capacity marks.now sizes.now plan.items) }
    ensures fewest { IfOk result (λ plan. IsFewest capacity marks.now sizes.now plan.items) }
    ensures refused { MayOnlyRunOutOfMemory result }
{
    let mut plan = Vec::new(alloc);
    let mut start = 0;
    while start < sizes.len() {
        let count = group_len(sizes, capacity, marks, start);
        plan.push(count)?;
        start += count;
    }
    Ok(plan)
}
