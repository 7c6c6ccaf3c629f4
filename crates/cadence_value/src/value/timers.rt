//! The values that a timer accepts.
ghost use Rattle.std.specs.Prelude.{[], ◌∷◌, List, map, Option, Some};
ghost use Rattle.cadence_value.specs.Number.{Number, natural};
ghost use Rattle.cadence_value.specs.Values.{Converts, ConvertsInPlace, millis_of, numbers_in_u64};

use super::durations::{TimeUnit, number_in, numbers_in};
use crate::decimal::Decimal;
use crate::value::MetricValue;
use cadence_errors::MetricResult;
use std::alloc::Allocator;
use std::time::Duration;

/// A type whose values a timer accepts: `u64`, `Decimal`, `Duration`, and lists of these.
///
/// You can implement it for a type of your own. The ghost member `numbers` states which numbers a value has, or that
/// the value is refused. `MetricType` in `cadence_text` explains what a timer is.
pub trait ToTimerValue<A: Allocator> {
    // The numbers of a value, or `None` if the value is refused.
    ghost numbers: { Self → Option (List Number) };

    /// Converts this into a value with exactly its numbers.
    ///
    /// Returns an error of kind `InvalidInput` if and only if the value is refused, and `SinkError::OutOfMemory` if
    /// memory runs out.
    fn try_to_value(self) -> MetricResult<MetricValue<A>>
        ensures converts { Converts (numbers self) result };
}

impl<A: Allocator> ToTimerValue<A> for u64 {
    ghost numbers = { λ n. Some (natural n ∷ []) };

    fn try_to_value(self) -> MetricResult<MetricValue<A>>
        ensures in_place { ConvertsInPlace (Some (natural self ∷ [])) result }
    {
        Ok(MetricValue::Unsigned(self))
    }
}

impl<A: Allocator> ToTimerValue<A> for Vec<u64, A> {
    ghost numbers = { λ v. Some (map natural v.items) };

    fn try_to_value(self) -> MetricResult<MetricValue<A>>
        ensures in_place { ConvertsInPlace (Some (map natural self.items)) result }
    {
        Ok(MetricValue::PackedUnsigned(self))
    }
}

/// Milliseconds with a fraction, which is sent as it is: `Decimal::new(125, 1)?` as `12.5`.
impl<A: Allocator> ToTimerValue<A> for Decimal {
    ghost numbers = { λ d. Some (d ∷ []) };

    fn try_to_value(self) -> MetricResult<MetricValue<A>>
        ensures in_place { ConvertsInPlace (Some (self ∷ [])) result }
    {
        Ok(MetricValue::Decimal(self))
    }
}

impl<A: Allocator> ToTimerValue<A> for Vec<Decimal, A> {
    ghost numbers = { λ v. Some v.items };

    fn try_to_value(self) -> MetricResult<MetricValue<A>>
        ensures in_place { ConvertsInPlace (Some self.items) result }
    {
        Ok(MetricValue::PackedDecimal(self))
    }
}

/// Counts the whole milliseconds and cuts off what is less than one. Takes no memory.
///
/// Returns an error of kind `InvalidInput` with the text `u64 overflow` if the count is more than `u64::MAX`.
impl<A: Allocator> ToTimerValue<A> for Duration {
    ghost numbers = { λ d. numbers_in_u64 (millis_of d ∷ []) };

    fn try_to_value(self) -> MetricResult<MetricValue<A>>
        ensures in_place { ConvertsInPlace (numbers_in_u64 (millis_of self ∷ [])) result }
    {
        number_in(TimeUnit::Millisecond, self)
    }
}

/// Counts the whole milliseconds of each duration and cuts off what is less than one. Allocates one list.
///
/// Returns an error of kind `InvalidInput` with the text `u64 overflow` if one of the counts is more than `u64::MAX`.
/// Otherwise it returns `SinkError::OutOfMemory` if memory runs out.
impl<A: Allocator + Clone> ToTimerValue<A> for Vec<Duration, A> {
    ghost numbers = { λ v. numbers_in_u64 (map millis_of v.items) };

    fn try_to_value(self) -> MetricResult<MetricValue<A>> {
        numbers_in(TimeUnit::Millisecond, &self)
    }
}

/// Converts a borrowed list in the same way as an owned one, without a copy of the durations.
impl<A: Allocator + Clone> ToTimerValue<A> for &Vec<Duration, A> {
    ghost numbers = { λ v. numbers_in_u64 (map millis_of v.now.items) };

    fn try_to_value(self) -> MetricResult<MetricValue<A>> {
        numbers_in(TimeUnit::Millisecond, self)
    }
}
