//! A run whose packets are read back, with each request for memory refused in turn.
use cadence_flow::io::PacketLog;
use cadence_listen::{ReadFault, read_line, run_and_read};
use cadence_schedule::Step;
use cadence_settings::{Call, CallValue, ClientSettings};
use cadence_text::line::OwnedMetric;
use std::alloc::Global;
use std::test::Fail;
use test_tools::{RefusingAllocator, each_refused};

type Heap = RefusingAllocator<Global>;

// Makes the step that counts `n` under the key `foo`.
fn count_step(heap: &Heap, n: i64) -> Result<Step<Heap>, Fail> {
    Ok(Step::Call(Call {
        key: String::from_str(heap.clone()?, "foo")?,
        value: CallValue::CountI64(n),
        options: Vec::new(heap.clone()?),
    }))
}

// Returns whether the metrics have these lines, and there was memory for the lines.
fn have_lines(metrics: &[OwnedMetric<Heap>], lines: &[&str]) -> bool {
    let are_lines = |(metric, wanted): (&OwnedMetric<Heap>, &&str)| match metric.line() {
        Ok(line) => line.as_str() == *wanted,
        Err(_) => false,
    };
    metrics.len() == lines.len() && metrics.iter().zip(lines).all(are_lines)
}

// Runs two counters with this memory, each of which is taken and handed on, and reads them back. Returns whether there
// was memory for all of that. Each line has 10 bytes, so with its newline it needs a packet of its own, because a packet
// has 16 bytes. The second line is still held at the end.
fn reads_run(alloc: Global, heap: Heap) -> Result<bool, Fail> {
    let ample = RefusingAllocator::after(alloc, alloc, u64::MAX)?;
    let settings = ClientSettings::new(ample.clone()?, "p")?;
    let steps = [
        count_step(&ample, 54)?,
        count_step(&ample, 67)?,
        Step::Take,
        Step::Hand,
        Step::Take,
        Step::Hand,
    ];
    let log = PacketLog::new(ample.clone()?, Vec::new(ample));
    match run_and_read(heap, &settings, 16, None, &steps, log) {
        Ok((report, metrics)) => Ok(
            report.held().len() == 11 && have_lines(&metrics, &["p.foo:54|c", "p.foo:67|c"]),
        ),
        Err(ReadFault::OutOfMemory) => Ok(false),
        Err(ReadFault::Unusable(_)) => Err(Fail::new("no metrics")),
    }
}

#[test]
fn each_request_may_be_refused(rt: HostRuntime) -> Result<(), Fail> {
    let granted = each_refused(rt.alloc(), |heap| reads_run(rt.alloc(), heap))?;
    assert!(rt; granted.is_some_and(|granted| granted > 4));
    Ok(())
}

#[test]
fn a_line_is_read(rt: HostRuntime) -> Result<(), Fail> {
    let line = "a:1:2.5|ms|@0.5|#k:v,w|c:id|T7";
    let metric = read_line(&rt.alloc(), line.as_bytes())?;
    assert!(rt; metric.line()?.as_str() == line);
    Ok(())
}
