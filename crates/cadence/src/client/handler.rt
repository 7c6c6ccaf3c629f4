//! Receivers of the errors that a client can't return.

use cadence_errors::MetricError;
use std::alloc::{Allocator, Global};

/// Receives the errors of `MetricBuilder::send` and of `MetricBackend::consume_error`. Implement it on a type of your
/// own to avoid a box.
pub trait ErrorHandler: Drop {
    /// Receives one error.
    fn handle(&self, error: MetricError);
}

/// Drops each error. A client for which no handler is set has this one.
#[derive(Drop)]
pub struct NopErrorHandler;

impl ErrorHandler for NopErrorHandler {
    fn handle(&self, _error: MetricError) {}
}

/// A caller's closure that receives errors, in a box.
pub type BoxedHandler<A = Global> = Box<dyn Fn(MetricError) + Send + Sync, A>;

/// Stores a closure that may be called at any time. `StatsdClientBuilder::with_error_handler` makes such a handler.
// `Handler` of `cadence_flow` is the same struct for a `SinkError`, and a comment there says why they are two.
#[derive(Drop)]
pub struct BoxedErrorHandler<A: Allocator = Global> {
    call: BoxedHandler<A>,
    ghost callable: { IsAlwaysCallable call },
}

impl<A: Allocator> BoxedErrorHandler<A> {
    ghost use Rattle.std.specs.Prelude.{◌≡◌};
    ghost use Rattle.cadence.specs.Shown.{box_of_handler};

    /// Stores this closure.
    pub fn new(call: BoxedHandler<A>) -> BoxedErrorHandler<A>
        requires { IsAlwaysCallable call }
        ensures { box_of_handler result ≡ call }
    {
        BoxedErrorHandler { call }
    }
}

impl<A: Allocator> ErrorHandler for BoxedErrorHandler<A> {
    fn handle(&self, error: MetricError) {
        (self.call)(error);
    }
}
