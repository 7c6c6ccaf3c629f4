//! When buffered lines are sent before more input is read.

/// Decides when buffered lines are sent before more input is read.
pub trait Pace: Drop {
    /// Returns whether the buffered lines are to be sent now. It is called after each piece of input, if lines are
    /// buffered.
    fn is_due(&mut self) -> bool;

    /// Waits until the buffered lines are to be sent, or until there is more input. Returns whether they are to be sent.
    /// It is called before more input is read, if there are buffered lines that are not to be sent now.
    fn wait_until_due(&mut self) -> bool;

    /// Returns the time in seconds, counted from some start, or `None` if there is no clock.
    fn seconds(&mut self) -> Option<u64> {
        None
    }

    /// Waits until there is more input, but for at most as many seconds.
    fn wait(&mut self, _most: u64) {}
}

/// `None` never sends early: buffered lines are sent only when a packet is full and at the end of the input.
impl<P: Pace> Pace for Option<P> {
    fn is_due(&mut self) -> bool {
        match self {
            Some(pace) => pace.is_due(),
            None => false,
        }
    }

    fn wait_until_due(&mut self) -> bool {
        match self {
            Some(pace) => pace.wait_until_due(),
            None => false,
        }
    }

    fn seconds(&mut self) -> Option<u64> {
        match self {
            Some(pace) => pace.seconds(),
            None => None,
        }
    }

    fn wait(&mut self, most: u64) {
        if let Some(pace) = self {
            pace.wait(most);
        }
    }
}
