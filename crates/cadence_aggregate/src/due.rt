//! How many contexts are to be sent before all others.

/// How many contexts of each kind the next flush sends before all others: as many as the last flush left. They are the
/// oldest ones of their kind.
#[derive(Clone, Copy)]
pub struct Due {
    pub(crate) sums: usize,
    pub(crate) levels: usize,
    pub(crate) members: usize,
    pub(crate) timings: usize,
}

impl Due {
    ghost use Rattle.std.specs.Prelude.{◌≡◌};
    ghost use Rattle.cadence_aggregate.specs.Held.{none_due};

    /// Returns counts of 0: no context is due.
    pub(crate) fn none() -> Due
        ensures { result ≡ none_due }
    {
        Due {
            sums: 0,
            levels: 0,
            members: 0,
            timings: 0,
        }
    }
}
