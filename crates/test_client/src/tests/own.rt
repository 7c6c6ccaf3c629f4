//! Types of a caller's own: two values of a counter, and a metric.
ghost use Rattle.std.specs.Prelude.{[], ◌∷◌, None, Some, codes};
ghost use Rattle.cadence_value.specs.Number.{natural};

use cadence::ext::{MetricValue, ToCounterValue};
use cadence::types::{ErrorKind, Metric, MetricError, MetricResult};
use std::alloc::Allocator;

/// A value that is the number 7.
pub struct Seven;

impl<A: Allocator> ToCounterValue<A> for Seven {
    ghost numbers = { λ _. Some (natural 7 ∷ []) };

    fn try_to_value(self) -> MetricResult<MetricValue<A>> {
        let Seven = self;
        Ok(MetricValue::Unsigned(7))
    }
}

/// A value that is always refused.
pub struct Nothing;

impl<A: Allocator> ToCounterValue<A> for Nothing {
    ghost numbers = { λ _. None };

    fn try_to_value(self) -> MetricResult<MetricValue<A>> {
        let Nothing = self;
        Err(MetricError::from((ErrorKind::InvalidInput, "no number")))
    }
}

/// A metric of a kind that the library doesn't have.
pub struct Event;

impl Metric for Event {
    ghost metric_text = { λ _. codes "p.k:1|e" };

    fn as_metric_str(&self) -> &str {
        "p.k:1|e"
    }
}
