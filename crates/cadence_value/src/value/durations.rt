//! Converts durations to whole milliseconds or nanoseconds. What is less than one unit is cut off.
ghost use Rattle.std.specs.Prelude.{◌≡◌, ◌<◌, ◌^◌, ◌↔◌, [], ◌∷◌, map, IfOk, IsTrue, All};
ghost use Rattle.cadence_value.specs.Values.{Converts, ConvertsInPlace, IsOverflow, count_in, numbers_in_u64};

use crate::value::MetricValue;
use cadence_errors::{ErrorKind, MetricError, MetricResult};
use std::alloc::{AllocError, Allocator};
use std::time::Duration;

// The unit in which durations are counted.
#[derive(Clone, Copy)]
pub(crate) enum TimeUnit {
    Millisecond,
    Nanosecond,
}

impl TimeUnit {
    fn count(self, duration: Duration) -> u128
        ensures { result ≡ count_in self duration }
    {
        match self {
            TimeUnit::Millisecond => duration.as_millis(),
            TimeUnit::Nanosecond => duration.as_nanos(),
        }
    }
}

#[cold]
fn overflow() -> MetricError
    ensures { IsOverflow result }
{
    MetricError::from((ErrorKind::InvalidInput, "u64 overflow"))
}

// Returns one duration as a value in this unit, or an `InvalidInput` error if it does not fit 64 bits.
pub(crate) fn number_in<A: Allocator>(
    unit: TimeUnit,
    duration: Duration,
) -> MetricResult<MetricValue<A>>
    ensures { ConvertsInPlace (numbers_in_u64 (count_in unit duration ∷ [])) result }
{
    match u64::try_from(unit.count(duration)) {
        Ok(number) => Ok(MetricValue::Unsigned(number)),
        Err(_) => Err(overflow()),
    }
}

fn all_fit(unit: TimeUnit, durations: &[Duration]) -> bool
    ensures { IsTrue result ↔ All (λ d. count_in unit d < 2 ^ 64) durations.now }
{
    durations
        .iter()
        .all(|duration| unit.count(*duration) <= u128::from(u64::MAX))
}

// Returns the durations as numbers in this unit. The list allocates once, for all of them.
fn counts<A: Allocator + Clone>(
    unit: TimeUnit,
    durations: &Vec<Duration, A>,
) -> Result<Vec<u64, A>, AllocError>
    requires { All (λ d. count_in unit d < 2 ^ 64) durations.now.items }
    ensures { IfOk result (λ v. v.items ≡ map (count_in unit) durations.now.items) }
{
    let alloc = durations.allocator().clone()?;
    let mut numbers = Vec::with_capacity(alloc, durations.len())?;
    for duration in durations {
        numbers.push(unit.count(*duration) as u64).unwrap();
    }
    Ok(numbers)
}

// Returns a list of durations as a value in this unit. If one of them does not fit 64 bits, the error is
// `InvalidInput`, because that is tested before any memory is asked for.
pub(crate) fn numbers_in<A: Allocator + Clone>(
    unit: TimeUnit,
    durations: &Vec<Duration, A>,
) -> MetricResult<MetricValue<A>>
    ensures { Converts (numbers_in_u64 (map (count_in unit) durations.now.items)) result }
{
    if !all_fit(unit, durations) {
        return Err(overflow());
    }
    let numbers = counts(unit, durations)?;
    Ok(MetricValue::PackedUnsigned(numbers))
}
