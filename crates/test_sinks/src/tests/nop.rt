//! The sink that does nothing.
use cadence_flow::stats::SinkStats;
use cadence_flow::{MetricSink, NopMetricSink};
use std::test::Fail;

#[test]
fn nop_answers_0(rt: HostRuntime) -> Result<(), Fail> {
    let sink = NopMetricSink.clone()?;
    assert!(rt; matches!(sink.emit("a:1|c"), Ok(0)));
    assert!(rt; sink.flush().is_ok());
    assert_eq!(rt; sink.stats(), SinkStats::default());
    assert_eq!(rt; sink.dropped_lines(), 0);
    Ok(())
}
