//! The values that a distribution accepts.
ghost use Rattle.std.specs.Prelude.{[], ◌∷◌, List, map, Option, Some};
ghost use Rattle.cadence_value.specs.Number.{Number, natural};
ghost use Rattle.cadence_value.specs.Values.{Converts, ConvertsInPlace};

use crate::decimal::Decimal;
use crate::value::MetricValue;
use cadence_errors::MetricResult;
use std::alloc::Allocator;

/// A type whose values a distribution accepts: `u64`, `Decimal`, and lists of these.
///
/// You can implement it for a type of your own. The ghost member `numbers` states which numbers a value has, or that
/// the value is refused. `MetricType` in `cadence_text` explains what a distribution is.
pub trait ToDistributionValue<A: Allocator> {
    // The numbers of a value, or `None` if the value is refused.
    ghost numbers: { Self → Option (List Number) };

    /// Converts this into a value with exactly its numbers.
    ///
    /// Returns an error of kind `InvalidInput` if and only if the value is refused, and `SinkError::OutOfMemory` if
    /// memory runs out.
    fn try_to_value(self) -> MetricResult<MetricValue<A>>
        ensures converts { Converts (numbers self) result };
}

impl<A: Allocator> ToDistributionValue<A> for u64 {
    ghost numbers = { λ n. Some (natural n ∷ []) };

    fn try_to_value(self) -> MetricResult<MetricValue<A>>
        ensures in_place { ConvertsInPlace (Some (natural self ∷ [])) result }
    {
        Ok(MetricValue::Unsigned(self))
    }
}

impl<A: Allocator> ToDistributionValue<A> for Vec<u64, A> {
    ghost numbers = { λ v. Some (map natural v.items) };

    fn try_to_value(self) -> MetricResult<MetricValue<A>>
        ensures in_place { ConvertsInPlace (Some (map natural self.items)) result }
    {
        Ok(MetricValue::PackedUnsigned(self))
    }
}

impl<A: Allocator> ToDistributionValue<A> for Decimal {
    ghost numbers = { λ d. Some (d ∷ []) };

    fn try_to_value(self) -> MetricResult<MetricValue<A>>
        ensures in_place { ConvertsInPlace (Some (self ∷ [])) result }
    {
        Ok(MetricValue::Decimal(self))
    }
}

impl<A: Allocator> ToDistributionValue<A> for Vec<Decimal, A> {
    ghost numbers = { λ v. Some v.items };

    fn try_to_value(self) -> MetricResult<MetricValue<A>>
        ensures in_place { ConvertsInPlace (Some self.items) result }
    {
        Ok(MetricValue::PackedDecimal(self))
    }
}
