//! Records, events, service checks, numbers, plans of packets, and packets that are read back.

use cadence::MetricResult;
use cadence::decimal::Decimal;
use cadence::line::{MetricType, Record, Tag};
use cadence::schedule::plan_packets;
use cadence::value::MetricValue;
use cadence_events::{AlertType, Event, ServiceCheck, ServiceStatus};
use cadence_read::{ReadFault, read_packet};
use std::alloc::Global;

// The example of `Record`.
fn record_line(alloc: Global) -> MetricResult<String> {
    let one = MetricValue::Signed(1);
    let mut record = Record::new(alloc, "app.", "visits", MetricType::Counter, one);
    record.add_tag(Tag {
        key: Some("page"),
        text: "home",
    })?;
    let line = record.format(alloc)?; // app.visits:1|c|#page:home
    Ok(line)
}

// The example of `Event`.
fn event_line(alloc: Global) -> MetricResult<String> {
    let mut event = Event::new("Deploy", "version 2.1");
    event.alert = Some(AlertType::Info);
    let line = event.line(alloc)?; // _e{6,11}:Deploy|version 2.1|t:info
    Ok(line)
}

// The example of `ServiceCheck`.
fn check_line(alloc: Global) -> MetricResult<String> {
    let mut check = ServiceCheck::new("web", ServiceStatus::Critical);
    check.message = Some("no answer");
    let line = check.line(alloc)?; // _sc|web|2|m:no answer
    Ok(line)
}

// The example of `Decimal`.
fn add_decimals(text: &mut String) -> MetricResult<()> {
    let rate = Decimal::new(25, 2)?; // 0.25
    let half = Decimal::new(50, 2)?; // prints as 0.5
    let read: Decimal = "-12.40".parse()?; // prints as -12.4
    writeln!(text, "{rate} {half} {read}")?;
    Ok(())
}

// The example of `plan_packets`. Returns how many packets three lines need, by their lengths with the newlines.
fn packets_of_three(alloc: Global) -> MetricResult<usize> {
    let sizes = [300, 200, 100];
    let plan = plan_packets(alloc, &sizes, 512, &[])?; // 2 sizes in the first packet, 1 in the second
    Ok(plan.len())
}

// The example of `read_packet`. Returns how many metrics the packet has.
fn metrics_in_packet(alloc: Global) -> Result<usize, ReadFault> {
    let metrics = read_packet(alloc, b"app.visits:1|c\napp.load:0.5|g\n")?;
    Ok(metrics.len())
}

/// Runs the examples, and returns their results.
pub fn report(alloc: Global) -> MetricResult<String> {
    let mut text = record_line(alloc)?;
    writeln!(&mut text, "\n{}", event_line(alloc)?)?;
    writeln!(&mut text, "{}", check_line(alloc)?)?;
    add_decimals(&mut text)?;
    writeln!(&mut text, "{} packets", packets_of_three(alloc)?)?;
    if let Ok(count) = metrics_in_packet(alloc) {
        writeln!(&mut text, "{count} metrics read")?;
    }
    Ok(text)
}
