//! Plans whose memory is refused. The program `test_scripts` has more worked plans, in its file `data/plans`.
use cadence::schedule::plan_packets;
use cadence::types::{MetricError, SinkError};
use std::alloc::Global;
use std::test::Fail;
use test_tools::{RefusingAllocator, each_refused};

// The lengths of lines, the marks before which a packet ends, and how many lines each packet of at most 10 bytes has:
// lines of 4 and 4 bytes fit a packet, another line of 4 bytes doesn't fit beside them, and lines of 9 and 1 bytes do.
const PLANS: &[(&[usize], &[usize], &[usize])] = &[
    (&[4, 4, 4, 9, 1], &[], &[2, 1, 2]),
    (&[4, 4, 4, 9, 1], &[1], &[1, 2, 2]),
];

// Plans packets of at most 10 bytes. Returns whether there was memory for the plan, which must be the wanted one.
fn is_planned(
    heap: RefusingAllocator<Global>,
    sizes: &[usize],
    marks: &[usize],
    wanted: &[usize],
) -> Result<bool, Fail> {
    match plan_packets(heap, sizes, 10, marks) {
        Ok(plan) if plan.as_slice() == wanted => Ok(true),
        Ok(_) => Err(Fail::new("another plan")),
        Err(MetricError::Sink(SinkError::OutOfMemory)) => Ok(false),
        Err(_) => Err(Fail::new("another error")),
    }
}

#[test]
fn a_plan_without_memory_is_refused(rt: HostRuntime) -> Result<(), Fail> {
    for (sizes, marks, wanted) in PLANS {
        let granted: Result<Option<u64>, Fail> = each_refused(
            rt.alloc(),
            |heap| is_planned(heap, sizes, marks, wanted),
        );
        assert!(rt; granted? > Some(0));
    }
    Ok(())
}
