//! The trait of all sinks, and the sink that drops each line.
ghost use Rattle.std.specs.Prelude.{◌≡◌, List, ℕ, Result, Ok, IfErr};
ghost use Rattle.cadence_errors.specs.declared.SinkError.{SinkError};
ghost use Rattle.cadence_stage.specs.Held.{NothingIsHeld};

use crate::stats::SinkStats;
use cadence_errors::SinkError;
use std::alloc::Allocator;

/// Takes lines and sends them somewhere. A line has no newline at its end.
///
/// An impl states which results `emit` may return for a line, and which results `flush` may return. Those of `flush`
/// have to include `Ok(())`, because that is what the default `flush` returns.
///
/// ```text
/// impl MetricSink for MySink {
///     ghost may_answer = { λ _ line answer. answer ≡ Ok (length line) };
///
///     fn emit(&self, line: &str) -> Result<usize, SinkError> {
///         Ok(line.len())
///     }
///
///     ghost flush_may_succeed = { λ _ _. tt };
/// }
/// ```
pub trait MetricSink: Drop {
    /// The results that `emit` may return for a line.
    ghost may_answer: { Self → List ℕ → Result ℕ SinkError → Type 0 };

    /// The results that `flush` may return. By default a flush can't fail.
    ghost may_flush: { Self → Result (Unit {0}) SinkError → Type 0 } = { λ _ r. IfErr r (λ _. ⊥) };

    /// States that a flush may return `Ok(())` if the sink holds no text (`NothingIsHeld`). Only the default `flush`
    /// can show that no text is held. So the `flush` of a sink that wraps another one has to call the `flush` of that
    /// one.
    ghost flush_may_succeed: { (s : Self) → NothingIsHeld → may_flush s (Ok tt) };

    /// Takes a line, and returns how many of its bytes the sink took, or why it refused the line.
    fn emit(&self, line: &str) -> Result<usize, SinkError>
        ensures { may_answer self.now line.now result };

    /// Sends the held text. A sink that holds no text has nothing to do.
    fn flush(&self) -> Result<(), SinkError>
        ensures { may_flush self.now result }
    {
        holds_nothing();
        Ok(())
    }

    /// Returns how many bytes and packets were sent and dropped. All four are 0 if the sink keeps no counts.
    fn stats(&self) -> SinkStats {
        SinkStats::default()
    }

    /// Returns how many accepted lines were dropped because a full queue made room for later ones, modulo 2 to the 64.
    /// It is 0 if the sink has no queue. A sink that wraps another one adds the number of that one.
    fn dropped_lines(&self) -> u64 {
        0
    }
}

// Says that a sink holds no text, for the default flush alone. The call compiles to no code.
#[inline(always)]
fn holds_nothing()
    ensures { NothingIsHeld }
{}

/// A box is a sink that passes each call on to the sink in it.
impl<A: Allocator> MetricSink for Box<dyn MetricSink + Send + Sync, A> {
    ghost may_answer = { λ b. (MetricSink-box b).may_answer b.value };

    ghost may_flush = { λ b. (MetricSink-box b).may_flush b.value };

    ghost flush_may_succeed = { λ b. (MetricSink-box b).flush_may_succeed b.value };

    fn emit(&self, line: &str) -> Result<usize, SinkError> {
        (**self).emit(line)
    }

    fn flush(&self) -> Result<(), SinkError> {
        (**self).flush()
    }

    fn stats(&self) -> SinkStats {
        (**self).stats()
    }

    fn dropped_lines(&self) -> u64 {
        (**self).dropped_lines()
    }
}

/// A sink that drops each line. `emit` returns 0.
///
/// ```text
/// let client = StatsdClient::from_sink(alloc, "my.service", NopMetricSink)?;
/// ```
#[derive(Clone, Debug, Drop)]
pub struct NopMetricSink;

impl MetricSink for NopMetricSink {
    ghost may_answer = { λ _ _ r. r ≡ Ok 0 };

    fn emit(&self, _line: &str) -> Result<usize, SinkError> {
        Ok(0)
    }

    ghost flush_may_succeed = { λ _ _. tt };
}
