//! How large the packets of a datagram socket may be.
ghost use Rattle.std.specs.Prelude.{◌≤◌, ◌<◌, IfErr, IfOk};
ghost use Rattle.cadence_sinks.specs.Buffers.{IsTooLarge};

use cadence_errors::{ErrorKind, MetricError, MetricResult};

/// The most bytes that a UDP datagram holds over IPv4. Over IPv6 it holds 20 bytes more. A Unix datagram may be larger,
/// because it holds as many bytes as the send buffer of its socket, less 32.
pub const MAX_PACKET: usize = 65_507;

/// Tests whether a datagram can hold the packets of a buffer of `capacity` bytes, so that the system never refuses one
/// for its size.
///
/// # Errors
/// `Described` of the kind `InvalidInput` if the capacity is larger than `MAX_PACKET`.
pub fn check_capacity(capacity: usize) -> MetricResult<()>
    ensures fits { IfOk result (λ _. capacity ≤ 65507) }
    ensures refused { IfErr result (λ e. IsTooLarge e × (65507 < capacity)) }
{
    if capacity > MAX_PACKET {
        let text = "the capacity is more than a datagram holds, 65507 bytes";
        return Err(MetricError::from((ErrorKind::InvalidInput, text)));
    }
    Ok(())
}
