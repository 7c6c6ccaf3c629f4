//! What a call does when memory runs out.
ghost use Rattle.std.specs.Prelude.{◌≡◌, None};
ghost use Rattle.cadence_errors.specs.declared.SinkError.TheVariants.{OutOfMemory};

use cadence_errors::SinkError;

/// Returns `None`, and leaves `OutOfMemory` in `fault`.
pub fn out_of_memory<T>(fault: &mut SinkError) -> Option<T>
    ensures none { result ≡ None }
    ensures fault { fault.new ≡ OutOfMemory }
{
    *fault = SinkError::OutOfMemory;
    None
}
