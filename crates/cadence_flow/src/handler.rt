//! A caller's closure that receives the errors of a sink or of a resolver.

use cadence_errors::SinkError;
use std::alloc::{Allocator, Global};

/// A caller's closure that receives the errors of a sink or of a resolver. It runs in the thread that met the error.
pub type SinkErrorHandler<A = Global> = Box<dyn Fn(SinkError) + Send + Sync, A>;

/// Stores a closure that may be called at any time.
// `BoxedErrorHandler` of the crate `cadence` is the same struct for a `MetricError`. They aren't one struct with the
// type of the error as a parameter, because the checker "cannot state an item with a field whose function pointer or
// `dyn` type names a type parameter yet".
#[derive(Drop)]
pub struct Handler<A: Allocator = Global> {
    call: SinkErrorHandler<A>,
    ghost callable: { IsAlwaysCallable call },
}

impl<A: Allocator> Handler<A> {
    ghost use Rattle.std.specs.Prelude.{◌≡◌};
    ghost use Rattle.cadence_flow.specs.Handler.{closure_of};

    /// Stores this closure.
    pub fn new(call: SinkErrorHandler<A>) -> Handler<A>
        requires { IsAlwaysCallable call }
        ensures { closure_of result ≡ call }
    {
        Handler { call }
    }

    /// Calls the closure with this error.
    pub fn handle(&self, error: SinkError) {
        (self.call)(error);
    }
}
