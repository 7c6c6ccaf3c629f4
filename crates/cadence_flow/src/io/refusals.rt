//! How many packets a writer refused.
ghost use Rattle.std.specs.Prelude.{◌≡◌};
ghost use Rattle.cadence_flow.specs.Writer.{no_refusals, one_more_refusal, refusals_after};

use cadence_errors::SinkError;

/// How many packets a writer refused, and how many bytes these packets had together, each modulo 2^64.
#[derive(Clone, Copy, Debug, PartialEq, Eq)]
pub struct Refusals {
    /// The number of refused packets.
    pub count: u64,
    /// The bytes of the refused packets.
    pub bytes: u64,
}

impl Refusals {
    /// Makes two counts of 0.
    pub fn none() -> Refusals
        ensures { result ≡ no_refusals }
    {
        Refusals { count: 0, bytes: 0 }
    }

    /// Counts a packet of `len` bytes as refused if the writer's result is an error.
    pub fn note(&mut self, answer: &Result<usize, SinkError>, len: usize)
        ensures { self.new ≡ refusals_after self.old answer.now len }
    {
        if answer.is_err() {
            self.add(len);
        }
    }

    /// Counts a packet of `len` bytes as refused.
    pub fn add(&mut self, len: usize)
        ensures { self.new ≡ one_more_refusal self.old len }
    {
        self.count = self.count.wrapping_add(1);
        self.bytes = self.bytes.wrapping_add(len as u64);
    }
}
