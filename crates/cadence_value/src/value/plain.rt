//! The values that counters, gauges, meters and sets accept.
ghost use Rattle.std.specs.Prelude.{◌≡◌, [], ◌∷◌, List, Option, Some};
ghost use Rattle.cadence_value.specs.Number.{Number, natural, whole};
ghost use Rattle.cadence_value.specs.Values.{Converts, ConvertsInPlace, numbers_of};

use crate::decimal::Decimal;
use crate::number::IsNumber;
use crate::value::MetricValue;
use cadence_errors::MetricResult;
use std::alloc::Allocator;

/// A type whose values a counter accepts: `i64`, `i32`, `u64` and `u32`.
///
/// You can implement it for a type of your own. The ghost member `numbers` states which numbers a value has, or that
/// the value is refused. `MetricType` in `cadence_text` explains what a counter is.
pub trait ToCounterValue<A: Allocator> {
    // The numbers of a value, or `None` if the value is refused.
    ghost numbers: { Self → Option (List Number) };

    /// Converts this into a value with exactly its numbers.
    ///
    /// Returns an error of kind `InvalidInput` if and only if the value is refused, and `SinkError::OutOfMemory` if
    /// memory runs out.
    fn try_to_value(self) -> MetricResult<MetricValue<A>>
        ensures converts { Converts (numbers self) result };
}

/// A whole number type that a counter accepts: `i64`, `i32`, `u64` and `u32`.
///
/// It does not name an allocator, so that the literal in `client.count("key", 3)` has Rust's default type, `i32`.
pub trait WholeNumber: IsNumber {
    /// Returns the value that has this one number.
    fn to_value<A: Allocator>(self) -> MetricValue<A>
        ensures { numbers_of result ≡ Self.number self ∷ [] };
}

/// Converts `i64`, `i32`, `u64` and `u32`. It always succeeds.
impl<A: Allocator, T: WholeNumber> ToCounterValue<A> for T {
    ghost numbers = { λ n. Some (T.number n ∷ []) };

    fn try_to_value(self) -> MetricResult<MetricValue<A>>
        ensures in_place { ConvertsInPlace (Some (T.number self ∷ [])) result }
    {
        Ok(self.to_value())
    }
}

impl WholeNumber for i64 {
    fn to_value<A: Allocator>(self) -> MetricValue<A> {
        MetricValue::Signed(self)
    }
}

impl WholeNumber for i32 {
    fn to_value<A: Allocator>(self) -> MetricValue<A> {
        MetricValue::Signed(i64::from(self))
    }
}

impl WholeNumber for u64 {
    fn to_value<A: Allocator>(self) -> MetricValue<A> {
        MetricValue::Unsigned(self)
    }
}

impl WholeNumber for u32 {
    fn to_value<A: Allocator>(self) -> MetricValue<A> {
        MetricValue::Unsigned(u64::from(self))
    }
}

/// A type whose values a gauge accepts: `u64` and `Decimal`.
///
/// You can implement it for a type of your own. The ghost member `numbers` states which numbers a value has, or that
/// the value is refused. `MetricType` in `cadence_text` explains what a gauge is.
pub trait ToGaugeValue<A: Allocator> {
    // The numbers of a value, or `None` if the value is refused.
    ghost numbers: { Self → Option (List Number) };

    /// Converts this into a value with exactly its numbers.
    ///
    /// Returns an error of kind `InvalidInput` if and only if the value is refused, and `SinkError::OutOfMemory` if
    /// memory runs out.
    fn try_to_value(self) -> MetricResult<MetricValue<A>>
        ensures converts { Converts (numbers self) result };
}

impl<A: Allocator> ToGaugeValue<A> for u64 {
    ghost numbers = { λ n. Some (natural n ∷ []) };

    fn try_to_value(self) -> MetricResult<MetricValue<A>>
        ensures in_place { ConvertsInPlace (Some (natural self ∷ [])) result }
    {
        Ok(MetricValue::Unsigned(self))
    }
}

impl<A: Allocator> ToGaugeValue<A> for Decimal {
    ghost numbers = { λ d. Some (d ∷ []) };

    fn try_to_value(self) -> MetricResult<MetricValue<A>>
        ensures in_place { ConvertsInPlace (Some (self ∷ [])) result }
    {
        Ok(MetricValue::Decimal(self))
    }
}

/// A type whose values a meter accepts: `u64`.
///
/// You can implement it for a type of your own. The ghost member `numbers` states which numbers a value has, or that
/// the value is refused. `MetricType` in `cadence_text` explains what a meter is.
pub trait ToMeterValue<A: Allocator> {
    // The numbers of a value, or `None` if the value is refused.
    ghost numbers: { Self → Option (List Number) };

    /// Converts this into a value with exactly its numbers.
    ///
    /// Returns an error of kind `InvalidInput` if and only if the value is refused, and `SinkError::OutOfMemory` if
    /// memory runs out.
    fn try_to_value(self) -> MetricResult<MetricValue<A>>
        ensures converts { Converts (numbers self) result };
}

impl<A: Allocator> ToMeterValue<A> for u64 {
    ghost numbers = { λ n. Some (natural n ∷ []) };

    fn try_to_value(self) -> MetricResult<MetricValue<A>>
        ensures in_place { ConvertsInPlace (Some (natural self ∷ [])) result }
    {
        Ok(MetricValue::Unsigned(self))
    }
}

/// A type whose values a set accepts: `i64`.
///
/// You can implement it for a type of your own. The ghost member `numbers` states which numbers a value has, or that
/// the value is refused. `MetricType` in `cadence_text` explains what a set is.
pub trait ToSetValue<A: Allocator> {
    // The numbers of a value, or `None` if the value is refused.
    ghost numbers: { Self → Option (List Number) };

    /// Converts this into a value with exactly its numbers.
    ///
    /// Returns an error of kind `InvalidInput` if and only if the value is refused, and `SinkError::OutOfMemory` if
    /// memory runs out.
    fn try_to_value(self) -> MetricResult<MetricValue<A>>
        ensures converts { Converts (numbers self) result };
}

impl<A: Allocator> ToSetValue<A> for i64 {
    ghost numbers = { λ n. Some (whole n ∷ []) };

    fn try_to_value(self) -> MetricResult<MetricValue<A>>
        ensures in_place { ConvertsInPlace (Some (whole self ∷ [])) result }
    {
        Ok(MetricValue::Signed(self))
    }
}
