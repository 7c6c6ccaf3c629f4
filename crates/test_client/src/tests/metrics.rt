//! The metric types: their lines, equality, hashes and copies. The expected lines follow from the grammar: prefix, key,
//! number, kind.
ghost use Rattle.std.specs.Prelude.{◌≡◌, IfOk};

use cadence::decimal::Decimal;
use cadence::types::{
    Counter, Distribution, Gauge, Histogram, Meter, Metric, MetricError, MetricResult, MetricText,
    Set, SinkError, Timer,
};
use std::alloc::{AllocError, Allocator, Global};
use std::hash::{DefaultHasher, Hash, Hasher};
use std::test::Fail;
use test_tools::{RefusingAllocator, each_refused};

// Returns a copy of a metric. Its contract is a law of copies: the copy has the same text.
fn copy_of<K, A: Allocator + Clone>(
    metric: &MetricText<K, A>,
) -> Result<MetricText<K, A>, AllocError>
    ensures { IfOk result (λ copy. copy ≡ metric.now) }
{
    metric.clone()
}

// Hashes two metrics. Its contract is a law of hashing: equal metrics leave equal hashers equal.
fn hash_both<K, A: Allocator, H: Hasher>(
    one: &MetricText<K, A>,
    other: &MetricText<K, A>,
    first: &mut H,
    second: &mut H,
)
    ensures { one.now ≡ other.now → first.old ≡ second.old → first.new ≡ second.new }
{
    one.hash(first);
    other.hash(second);
}

// Returns the text of any metric. The function uses only the bound `Metric`.
fn text_of<M: Metric>(metric: &M) -> &str
    ensures { result.now ≡ M.metric_text metric.now }
{
    metric.as_metric_str()
}

// Returns the hash of a metric.
fn hash_of<M: Hash>(metric: &M) -> u64 {
    let mut hasher = DefaultHasher::new();
    metric.hash(&mut hasher);
    hasher.finish()
}

// Makes a counter of this line.
fn counter_of(alloc: Global, line: &str) -> Result<Counter, AllocError> {
    Ok(Counter::from(String::from_str(alloc, line)?))
}

// Asserts that two counters are equal, and that so are a copy and the hashes.
fn assert_equal(made: &Counter, kept: &Counter) -> Result<(), Fail> {
    if *made != *kept || copy_of(made)? != *kept || hash_of(made) != hash_of(kept) {
        return Err(Fail::new("they differ"));
    }
    Ok(())
}

#[test]
fn equal_texts_are_equal_metrics(rt: HostRuntime) -> Result<(), Fail> {
    let made = Counter::new(rt.alloc(), "", "k", 1)?;
    assert_equal(&made, &counter_of(rt.alloc(), "k:1|c")?)?;
    assert!(rt; made != counter_of(rt.alloc(), "k:2|c")?);
    Ok(())
}

// Returns whether a metric was made, which must have this line. It may only be refused because memory runs out.
fn is_made_with_line<K>(
    made: MetricResult<MetricText<K, RefusingAllocator<Global>>>,
    line: &str,
) -> Result<bool, Fail> {
    match made {
        Ok(metric) if text_of(&metric) == line => Ok(true),
        Ok(_) => Err(Fail::new("another line")),
        Err(MetricError::Sink(SinkError::OutOfMemory)) => Ok(false),
        Err(_) => Err(Fail::new("another error")),
    }
}

// Makes the metric with this number, of ten in all. Returns whether there was memory for it.
fn makes(heap: RefusingAllocator<Global>, number: u8) -> Result<bool, Fail> {
    match number {
        0 => is_made_with_line(Counter::new(heap, "a..", "k", 1), "a..k:1|c"),
        1 => is_made_with_line(
            Timer::new(heap, "my.app.", "test.timer", 34),
            "my.app.test.timer:34|ms",
        ),
        2 => is_made_with_line(Gauge::new(heap, "p.", "k", 8), "p.k:8|g"),
        3 => is_made_with_line(Meter::new(heap, "p.", "k", 8), "p.k:8|m"),
        4 => is_made_with_line(Histogram::new(heap, "p.", "k", 8), "p.k:8|h"),
        _ => makes_later(heap, number),
    }
}

// Makes the metric with this number, of the last five. Returns whether there was memory for it.
fn makes_later(heap: RefusingAllocator<Global>, number: u8) -> Result<bool, Fail> {
    let half = Decimal::new(5, 1)?;
    match number {
        5 => is_made_with_line(Distribution::new(heap, "p.", "k", 8), "p.k:8|d"),
        6 => is_made_with_line(Set::new(heap, "p.", "k", -8), "p.k:-8|s"),
        7 => is_made_with_line(Gauge::new_decimal(heap, "p.", "k", half), "p.k:0.5|g"),
        8 => is_made_with_line(Histogram::new_decimal(heap, "p.", "k", half), "p.k:0.5|h"),
        _ => is_made_with_line(
            Distribution::new_decimal(heap, "p.", "k", half),
            "p.k:0.5|d",
        ),
    }
}

#[test]
fn each_kind_has_its_line_and_takes_memory_once(rt: HostRuntime) -> Result<(), Fail> {
    for number in 0..10 {
        let granted = each_refused(rt.alloc(), |heap| makes(heap, number))?;
        assert_eq!(rt; granted, Some(1));
    }
    Ok(())
}
