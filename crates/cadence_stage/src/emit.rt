//! How the library's own sinks answer: the one body of their `emit`, and the one of their `flush`.
//!
//! A sink of the library can't make up what its `emit` returns. Beside the answer, its `emit_line`, or that of the part
//! that does its work, returns a receipt, which only a stage, the queue or the counts of a socket can make, while they
//! take or refuse the line. No code can let a receipt go but `emit_by`, which has one call of the sink and not the sink.
//! So an `emit_line` that does nothing, or that writes a line twice, doesn't compile, and neither does an `emit_by` that
//! calls the sink twice.
ghost use Rattle.std.specs.Option.{ok_or};
ghost use Rattle.std.specs.Prelude.{List, ℕ, Result};
ghost use Rattle.cadence_errors.specs.declared.SinkError.{SinkError};
ghost use Rattle.cadence_stage.specs.Answered.{IsAnswered, IsFlushAnswered};
ghost use Rattle.cadence_stage.specs.Call.{Flush};
ghost use Rattle.cadence_stage.specs.Kept.{IsStep};
ghost use Rattle.cadence_stage.specs.OneCall.{sink_of};

pub mod closed;

use crate::answering_sink::AnsweringSink;
use crate::locked::Locked;
use crate::one_call::OneCall;
use crate::stage::Stage;
use cadence_errors::SinkError;
use closed::{Closed, Opener};
use std::sync::Wait;

/// Gives a line to a sink of the library, and returns how many of its bytes were taken. After an error it returns `None`,
/// and `fault` has the error. Each sink of the library calls this in its `emit`. Only the results of this call meet
/// `IsAnswered`, so the `emit` of such a sink can't return a result of its own.
// Each sink has an `impl` of `MetricSink` of its own over these two functions. With one `impl` for all of them, a sink
// that implements `Drop` by code can't be put in a box.
#[inline(always)]
pub fn emit_by<S: AnsweringSink>(
    call: OneCall<'_, S>,
    line: &str,
    fault: &mut SinkError,
) -> Option<usize>
    ensures may { S.may_answer (sink_of call.entry) line.now (ok_or result fault.new) }
    ensures answered { IsAnswered line.now (ok_or result fault.new) }
{
    answers();
    let (taken, receipt) = call.emit_line(line, fault);
    receipt.close(Opener { of: () });
    taken
}

/// Flushes the stage of a sink of the library. After an error it returns `None`, and `fault` has the error. Each sink of
/// the library that holds text calls this in its `flush`. Only the results of this call, and of the default `flush` of a
/// sink that holds no text, meet `IsFlushAnswered`.
pub fn flush_by<S: Stage, R: Wait + Drop>(
    call: OneCall<'_, Locked<S, R>>,
    fault: &mut SinkError,
) -> Option<()>
    ensures made { IsStep S.step (Flush (ok_or result fault.new)) }
    ensures answered { IsFlushAnswered (ok_or result fault.new) }
{
    answers();
    let (done, receipt) = call.empty(fault);
    receipt.close(Opener { of: () });
    done
}

// Says that the results of this module are answered. The call compiles to no code.
#[inline(always)]
fn answers()
    ensures line { (line : List ℕ) → (r : Result ℕ SinkError) → IsAnswered line r }
    ensures flush { (r : Result (Unit {0}) SinkError) → IsFlushAnswered r }
{}
