//! An aggregator of lines as a stage, which lies under the lock of an aggregating sink.
ghost use Rattle.std.specs.Option.{ok_or};
ghost use Rattle.std.specs.Prelude.{◌≡◌};
ghost use Rattle.cadence_aggregating.specs.Recorded.{lines_accepted, whole_lines};
ghost use Rattle.cadence_aggregating.specs.Shown.{EndsFlush, IsSumsStep};

use super::RecordedAggregator;
use cadence_errors::SinkError;
use cadence_flow::MetricSink;
use cadence_stage::Stage;

/// A line is added as `RecordedAggregator::add` does. A flush sends what is held, and then flushes the sink.
impl<S: MetricSink> Stage for RecordedAggregator<S> {
    ghost step = { λ old new call. IsSumsStep old new S.may_flush call };

    ghost taken = { λ a. whole_lines a };

    fn take_line(&mut self, line: &str, fault: &mut SinkError) -> Option<usize> {
        self.add(line, fault)?;
        Some(line.len())
    }

    fn empty(&mut self, fault: &mut SinkError) -> Option<()> {
        self.send_all(fault)
    }

    /// If the sink refuses a line, all is tried again, as long as a try sends something. The error is that of the last
    /// try.
    fn send_rest(&mut self) -> Result<(), SinkError> {
        let mut held = self.count_held();
        let mut fault = SinkError::NothingWritten;
        let mut sent = self.send_all(&mut fault);
        for _ in 0..held {
            sent = self.try_again(&mut held, sent, &mut fault);
        }
        sent.ok_or(fault)
    }
}

impl<S: MetricSink> RecordedAggregator<S> {
    // Tries once more to send all, if the last try failed but sent something. `held` has how many contexts were held before
    // the last try.
    fn try_again(&mut self, held: &mut u128, sent: Option<()>, fault: &mut SinkError) -> Option<()>
        requires { (before : RecordedAggregator S)
            × EndsFlush before self.old S.may_flush (ok_or sent fault.old) }
        ensures { (before : RecordedAggregator S)
            × EndsFlush before self.new S.may_flush (ok_or result fault.new) }
    {
        let left = self.count_held();
        if sent.is_some() || left == *held {
            return sent;
        }
        *held = left;
        self.send_all(fault)
    }

    // Sends what is held, and flushes the sink. After an error the result is `None` and `fault` has the error.
    fn send_all(&mut self, fault: &mut SinkError) -> Option<()>
        ensures flush { EndsFlush self.old self.new S.may_flush (ok_or result fault.new) }
        ensures accepted { lines_accepted self.new ≡ lines_accepted self.old }
    {
        self.flush(fault)?;
        match self.sink().flush() {
            Ok(()) => Some(()),
            Err(error) => {
                *fault = error;
                None
            }
        }
    }
}
