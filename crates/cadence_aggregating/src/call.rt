//! A call by a key, which makes no line.
ghost use Rattle.std.specs.Prelude.{◌≡◌, ◌≤◌, IfOk, length};
ghost use Rattle.cadence_aggregate.specs.Lines.{sample_of};
ghost use Rattle.cadence_aggregating.specs.Calls.{line_of_keyed};
ghost use Rattle.cadence_aggregating.specs.Printed.{line_saying};
ghost use Rattle.cadence_aggregating.specs.Says.{LineSays};

use crate::keys::{CounterKey, GaugeKey};
use crate::printed::rewrite;
use cadence_aggregate::Line;
use std::alloc::AllocError;

/// A call by a key. It makes no line, but counts as the line with the key's context and this number.
#[derive(Clone, Copy)]
pub(crate) enum KeyedCall<'a> {
    /// The call raises this counter by a number.
    Raise(&'a CounterKey, i64),
    /// The call sets this gauge to a number.
    Set(&'a GaugeKey, u64),
}

/// Returns the context of the line that a call counts as. The context is no longer than the line.
pub(crate) fn context_of<'a>(call: KeyedCall<'a>) -> &'a str
    ensures { length result.now ≤ length (line_of_keyed call.entry) }
{
    match call {
        KeyedCall::Raise(key, _) => &key.context,
        KeyedCall::Set(key, _) => &key.context,
    }
}

/// Returns what the line says that a call counts as. The number of a gauge is written into `text`, in place of what that
/// had. The only error is that memory ran out.
pub(crate) fn said_by<'a>(call: KeyedCall<'a>, text: &'a mut String) -> Result<Line<'a>, AllocError>
    ensures line { IfOk result (λ said. line_saying (sample_of said) ≡ line_of_keyed call.entry) }
    ensures says { IfOk result (λ said. ∥ LineSays (line_of_keyed call.entry) (sample_of said) ∥₁) }
{
    match call {
        KeyedCall::Raise(key, by) => Ok(Line::Amount(&key.context, by)),
        KeyedCall::Set(key, value) => {
            rewrite(text, value)?;
            Ok(Line::Level(&key.context, text))
        }
    }
}
