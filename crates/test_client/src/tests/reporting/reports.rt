//! What a report has, if a test asks for it.
use super::stage::{Reported, Reporting, Watch, make_counted, make_reported, report_on};
use crate::tests::steps::{assert_got, assert_passes_on, assert_takes, is_made};
use cadence::Runtime;
use cadence::client::BoxedSink;
use cadence::sinks::MetricSink;
use cadence::types::{MetricError, SinkError};
use std::alloc::Global;
use std::test::Fail;
use test_tools::{RefusingAllocator, each_refused};

// The counts of a stage, and the lines of the report that is made then.
type Row = ([u64; 5], &'static str);

// Reports with the counts of each row in turn, and asserts that each report has the lines of its row.
fn assert_reports<R: Runtime>(made: &Reported<R>, rows: &[Row]) -> Result<(), Fail> {
    for (counts, lines) in rows {
        made.watch.stage.set(*counts);
        made.sink.report()?;
        assert_got(&made.watch.notes, lines)?;
    }
    Ok(())
}

const GROWTHS: &[Row] = &[
    ([1000, 100, 50, 5, 7], ""),
    (
        [1300, 103, 60, 6, 9],
        "me.bytes_sent:300|c
me.packets_sent:3|c
me.bytes_dropped:10|c
me.packets_dropped:1|c
me.lines_dropped:2|c",
    ),
    ([1300, 103, 60, 6, 9], ""),
    ([1300, 103, 60, 8, 9], "me.packets_dropped:2|c"),
    // a count may wrap
    (
        [u64::MAX, 103, 60, 8, 9],
        "me.bytes_sent:18446744073709550315|c",
    ),
    ([2, 103, 60, 8, 9], "me.bytes_sent:3|c"),
];

#[test]
fn a_report_has_what_grew_since_the_last_one(rt: HostRuntime) -> Result<(), Fail> {
    assert_reports(
        &make_reported(&rt, rt.alloc(), [1000, 100, 50, 5, 7])?,
        GROWTHS,
    )
}

// Asserts that the sink refuses a line as its wrapped sink does.
fn assert_refuses<S: MetricSink>(sink: &S, line: &str) -> Result<(), Fail> {
    match sink.emit(line) {
        Err(SinkError::PacketRefused) => Ok(()),
        _ => Err(Fail::new("another answer")),
    }
}

// Makes a report, and asserts that it has these lines, beside what the sink took before it.
fn assert_report<R: Runtime>(made: &Reported<R>, lines: &str) -> Result<(), Fail> {
    made.sink.report()?;
    assert_got(&made.watch.notes, lines)
}

// Emits two lines that are refused and one that is taken, and makes two reports.
fn assert_counts_refused<R: Runtime>(made: &Reported<R>) -> Result<(), Fail> {
    made.watch.set_refuses(true);
    assert_refuses(&made.sink, "a:1|c")?;
    assert_refuses(&made.sink, "b:1|c")?;
    made.watch.set_refuses(false);
    assert_takes(&made.sink, "c:1|c")?;
    assert_report(made, "c:1|c\nme.lines_refused:2|c")?;
    assert_report(made, "")
}

#[test]
fn a_report_has_the_lines_that_were_refused(rt: HostRuntime) -> Result<(), Fail> {
    assert_counts_refused(&make_reported(&rt, rt.alloc(), [0, 0, 0, 0, 0])?)
}

// Asserts that a report is refused as its wrapped sink refuses a line.
fn assert_report_is_refused<R: Runtime>(sink: &Reporting<R>) -> Result<(), Fail> {
    match sink.report() {
        Err(MetricError::Sink(SinkError::PacketRefused)) => Ok(()),
        _ => Err(Fail::new("another answer")),
    }
}

const KEPT: &str = "me.bytes_sent:15|c
me.packets_sent:1|c
me.bytes_dropped:4|c
me.packets_dropped:2|c
me.lines_dropped:3|c
me.lines_refused:1|c";

// Makes a report that is refused, and one that is taken.
fn assert_keeps<R: Runtime>(made: &Reported<R>) -> Result<(), Fail> {
    made.watch.stage.set([10, 1, 4, 2, 3]);
    made.watch.set_refuses(true);
    assert_refuses(&made.sink, "a:1|c")?;
    assert_report_is_refused(&made.sink)?;
    made.watch.set_refuses(false);
    made.watch.stage.set([15, 1, 4, 2, 3]);
    assert_report(made, KEPT)
}

// What a report couldn't send is in the next one, and the counters that were refused aren't lines that were refused.
#[test]
fn what_a_report_could_not_send_stays(rt: HostRuntime) -> Result<(), Fail> {
    assert_keeps(&make_reported(&rt, rt.alloc(), [0, 0, 0, 0, 0])?)
}

#[test]
fn the_drop_sends_the_last_report(rt: HostRuntime) -> Result<(), Fail> {
    let Reported { sink, watch } = make_reported(&rt, rt.alloc(), [0, 0, 0, 0, 0])?;
    watch.stage.set([0, 0, 0, 0, 4]);
    drop(sink);
    assert_got(&watch.notes, "me.lines_dropped:4|c")
}

#[test]
fn a_reporting_sink_passes_calls_on(rt: HostRuntime) -> Result<(), Fail> {
    let made = make_reported(&rt, rt.alloc(), [0, 0, 0, 0, 0])?;
    made.watch.stage.set([1, 2, 3, 4, 5]);
    assert_passes_on(&made.sink)
}

#[test]
fn a_box_passes_the_number_of_dropped_lines_on(rt: HostRuntime) -> Result<(), Fail> {
    let (watch, counted) = make_counted(&rt, rt.alloc())?;
    let sink: BoxedSink = Box::new(rt.alloc(), counted)?;
    watch.stage.set([0, 0, 0, 0, 5]);
    assert_eq!(rt; sink.dropped_lines(), 5);
    Ok(())
}

// Sends two reports. If a request for memory of the first one is refused, then the second one has the counters that
// the first one lacks: together the two have each counter once. Returns whether there was memory for the first report.
fn reports_both<R: Runtime>(
    sink: &Reporting<R, RefusingAllocator<Global>>,
    watch: &Watch<R>,
) -> Result<bool, Fail> {
    watch.stage.set([10, 1, 0, 0, 0]);
    let has_memory = is_made(sink.report())?;
    sink.report()?;
    assert_both(watch)?;
    Ok(has_memory)
}

// Makes a sink with this memory and sends two reports. Returns whether there was memory for the sink and for the first
// report.
fn reports_once<R: Runtime>(
    rt: &R,
    alloc: Global,
    heap: RefusingAllocator<Global>,
) -> Result<bool, Fail> {
    let (watch, counted) = make_counted(rt, alloc)?;
    match report_on(rt, heap, counted) {
        Ok(sink) => reports_both(&sink, &watch),
        Err(error) => is_made::<()>(Err(error)),
    }
}

// Asserts that the two counters came, each once, in any order.
fn assert_both<R: Runtime>(watch: &Watch<R>) -> Result<(), Fail> {
    let (Some(one), Some(other)) = (watch.notes.try_recv(), watch.notes.try_recv()) else {
        return Err(Fail::new("a counter is missing"));
    };
    if !are_both(&one, &other) && !are_both(&other, &one) {
        return Err(Fail::new("another counter"));
    }
    assert_got(&watch.notes, "")
}

// Returns whether these are the counters of 10 bytes and of a packet.
fn are_both(bytes: &[u8], packets: &[u8]) -> bool {
    bytes == "me.bytes_sent:10|c".as_bytes() && packets == "me.packets_sent:1|c".as_bytes()
}

#[test]
fn each_request_for_memory_of_a_report_is_refused_in_turn(rt: HostRuntime) -> Result<(), Fail> {
    let granted: Result<Option<u64>, Fail> = each_refused(
        rt.alloc(),
        |heap| reports_once(&rt, rt.alloc(), heap),
    );
    assert!(rt; granted? > Some(4));
    Ok(())
}
