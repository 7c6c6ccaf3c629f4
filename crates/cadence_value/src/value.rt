//! The values of metrics. Each submodule has the trait of the types that a kind of metric accepts: `timers`,
//! `histograms`, `distributions`, and `plain` for counters, gauges, meters and sets. `durations` converts durations to
//! milliseconds or nanoseconds.

mod distributions;
mod durations;
mod histograms;
mod plain;
mod timers;

use crate::decimal::Decimal;
pub use distributions::ToDistributionValue;
pub use histograms::ToHistogramValue;
pub use plain::{ToCounterValue, ToGaugeValue, ToMeterValue, ToSetValue};
use std::alloc::{Allocator, Global};
pub use timers::ToTimerValue;

/// The value of a metric: one number or a list of numbers, in the type in which the caller has them.
///
/// A line shows only the numbers, not their type: `Signed(5)`, `Unsigned(5)` and a `Decimal` of 5 all print as `5`.
///
/// Cloning a list takes memory and returns an error if memory runs out. Cloning a single number always succeeds.
#[derive(Drop)]
#[derive_where(Clone; A)]
#[derive_where(Debug)]
pub enum MetricValue<A: Allocator = Global> {
    /// A signed whole number.
    Signed(i64),
    /// Signed whole numbers. None of this crate's conversions makes this variant.
    PackedSigned(Vec<i64, A>),
    /// An unsigned whole number.
    Unsigned(u64),
    /// Unsigned whole numbers.
    PackedUnsigned(Vec<u64, A>),
    /// A decimal number. It takes the place of the Rust crate's `Float(f64)`.
    Decimal(Decimal),
    /// Decimal numbers.
    PackedDecimal(Vec<Decimal, A>),
}
