//! Why no metrics were read.
use cadence_errors::InputError;
use thiserror::Error;

/// The text is neither the line of a metric nor a packet of such lines, in the form in which this library writes them.
/// A server may read it all the same, because servers allow other forms too.
#[derive(Clone, Copy, Debug, PartialEq, Eq, Error)]
#[error("not a packet of metrics")]
pub struct NotMetrics;

/// Why no metrics were read: `Unusable(NotMetrics)` or `OutOfMemory`.
pub type ReadFault = InputError<NotMetrics>;
