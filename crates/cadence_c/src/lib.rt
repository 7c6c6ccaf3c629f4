//! The client for C. It formats lines and packs them into packets, and C sends the packets. `cadence_host` has the client
//! and makes the lines. This module has the calls that take a handle and make no line. `include/cadence.h` declares each
//! call and says which statuses it returns. The modules:
//! - `texts`: the calls that make the texts of settings
//! - `events`: the calls for events and service checks
//! - `environment`: what the variables of the environment say
//! - `container`: the default container, which is that of the process if a variable says so
//! - `enrichment`: the default external data and the default cardinality, as variables say them
//! - `variable`: the texts of the variables, and their numbers in C
//! - `metrics`: the calls that keep the line of a metric
//! - `format`: the calls that write a line and need no client
//! - `floats`: the decimals of floats
//! - `sums` and `sums_handle`: the calls that add up before a client keeps lines, and the handle of the sums with its
//!   keys
//! - `box_parts` and `handle`: a `Box` taken apart, and the handle that C stores
#![tactic(auto)]

mod box_parts;
mod container;
mod enrichment;
mod environment;
mod events;
mod floats;
mod format;
mod handle;
mod metrics;
mod sums;
mod sums_handle;
mod texts;
mod variable;

ghost use Rattle.std.specs.Prelude.{◌≡◌, ◌≢◌, ◌⊎◌, ◌≤◌, ◌<◌, [], ◌∷◌, None, Some, length, map, take, true};
ghost use Rattle.cadence_c.specs.Handle.{client_of, IsOpenAnd, OnOpen};
ghost use Rattle.cadence_c.specs.Results.{UnchangedUnlessOk};
ghost use Rattle.cadence_host.specs.ClientState.{policy_named, AreCountsOf, DropsHeld, DropsOldest, PacksHeld, HasNoPacket, IsNew, IsOldest, IsOldestLength, KeepsLine, LacksRoomForHeld, LacksRoomForLine};
ghost use Rattle.cadence_host.specs.Status.{CADENCE_FULL, CADENCE_INVALID, CADENCE_NO_CLIENT, CADENCE_NO_MEMORY, CADENCE_NO_PACKET, CADENCE_OK, CADENCE_TOO_SMALL, IsOkOr};

use cadence_host::client::{CCounts, Client};
use cadence_host::status::{NO_CLIENT, OK, StatusError, status_of};
use cadence_queue::QueuePolicy;
use handle::Handle;
use std::alloc::Global;

// Returns the policy that has this number in C, if one has it.
fn policy_of(policy: u32) -> Option<QueuePolicy>
    ensures { result ≡ policy_named policy }
{
    match policy {
        0 => Some(QueuePolicy::Refuse),
        1 => Some(QueuePolicy::DropOldest),
        _ => None,
    }
}

/// Makes a client in a handle, and drops an earlier one there. `capacity` is how many bytes a packet holds, `packets`
/// is how many packets may wait, at least two, and `policy` says what the client does if one more would wait.
#[unsafe(no_mangle)]
pub extern "C" fn cadence_open(
    alloc: Global,
    handle: &mut Handle,
    capacity: usize,
    packets: usize,
    policy: u32,
) -> u32
    ensures made { result ≡ CADENCE_OK → IsNew capacity packets policy (client_of handle.new) }
    ensures refused { result ≢ CADENCE_OK → client_of handle.new ≡ client_of handle.old }
    ensures invalid { result ≡ CADENCE_INVALID → (policy_named policy ≡ None) ⊎ (packets < 2) }
    ensures statuses { IsOkOr (CADENCE_NO_MEMORY ∷ CADENCE_INVALID ∷ []) result }
{
    let Some(policy) = policy_of(policy) else {
        return StatusError::Invalid.code();
    };
    if packets < 2 {
        return StatusError::Invalid.code();
    }
    let client = match Client::new(alloc, capacity, packets, policy) {
        Ok(client) => client,
        Err(error) => return error.code(),
    };
    let Ok(made) = Handle::new(alloc, client) else {
        return StatusError::NoMemory.code();
    };
    *handle = made;
    OK
}

/// Drops the client of a handle, with its held text and its packets. The handle has no client then.
#[unsafe(no_mangle)]
pub extern "C" fn cadence_free(alloc: Global, handle: &mut Handle)
    ensures { client_of handle.new ≡ None }
{
    *handle = Handle::empty(alloc);
}

/// Keeps a line that the host has made.
#[unsafe(no_mangle)]
pub extern "C" fn cadence_line(alloc: Global, handle: &mut Handle, line: &[u8]) -> u32
    ensures kept { result ≡ CADENCE_OK →
        OnOpen (λ s t. KeepsLine s line.now t) handle.old handle.new }
    ensures refused { UnchangedUnlessOk result handle.old handle.new }
    ensures full { result ≡ CADENCE_FULL → IsOpenAnd handle.old (λ s. LacksRoomForLine s line.now) }
    ensures statuses { IsOkOr (CADENCE_NO_CLIENT ∷ CADENCE_NO_MEMORY ∷ CADENCE_FULL ∷ []) result }
{
    let Some(mut client) = handle.take(alloc) else {
        return NO_CLIENT;
    };
    let status = status_of(client.pack(alloc, line));
    handle.put(client);
    status
}

/// Makes a packet of the held text, if there is any.
#[unsafe(no_mangle)]
pub extern "C" fn cadence_flush(alloc: Global, handle: &mut Handle) -> u32
    ensures flushed { result ≡ CADENCE_OK → OnOpen PacksHeld handle.old handle.new }
    ensures refused { UnchangedUnlessOk result handle.old handle.new }
    ensures full { result ≡ CADENCE_FULL → IsOpenAnd handle.old LacksRoomForHeld }
    ensures statuses { IsOkOr (CADENCE_NO_CLIENT ∷ CADENCE_NO_MEMORY ∷ CADENCE_FULL ∷ []) result }
{
    let Some(mut client) = handle.take(alloc) else {
        return NO_CLIENT;
    };
    let status = status_of(client.flush(alloc));
    handle.put(client);
    status
}

/// Copies the oldest packet that waits into the first bytes of `buf`, and writes its length into `size`. The packet
/// still waits.
#[unsafe(no_mangle)]
pub extern "C" fn cadence_next(
    alloc: Global,
    handle: &mut Handle,
    buf: &mut [u8],
    size: &mut usize,
) -> u32
    ensures copied { result ≡ CADENCE_OK → IsOpenAnd handle.old (IsOldest (take size.new buf.new)) }
    ensures within { result ≡ CADENCE_OK → size.new ≤ length buf.new }
    ensures kept { client_of handle.new ≡ client_of handle.old }
    ensures closed { result ≡ CADENCE_NO_CLIENT → client_of handle.old ≡ None }
    ensures none { result ≡ CADENCE_NO_PACKET → IsOpenAnd handle.old HasNoPacket }
    ensures small { result ≡ CADENCE_TOO_SMALL → length buf.new < size.new }
    ensures told { result ≡ CADENCE_TOO_SMALL → IsOpenAnd handle.old (IsOldestLength size.new) }
    ensures nothing { (result ≡ CADENCE_NO_CLIENT) ⊎ (result ≡ CADENCE_NO_PACKET) → size.new ≡ 0 }
    ensures statuses { IsOkOr
        (CADENCE_NO_CLIENT ∷ CADENCE_NO_PACKET ∷ CADENCE_TOO_SMALL ∷ []) result }
{
    *size = 0;
    let Some(client) = handle.take(alloc) else {
        return NO_CLIENT;
    };
    let status = client.copy_oldest(buf, size);
    handle.put(client);
    status
}

/// Drops the oldest packet that waits, because the host has sent it.
#[unsafe(no_mangle)]
pub extern "C" fn cadence_sent(alloc: Global, handle: &mut Handle) -> u32
    ensures dropped { result ≡ CADENCE_OK → OnOpen DropsOldest handle.old handle.new }
    ensures refused { UnchangedUnlessOk result handle.old handle.new }
    ensures none { result ≡ CADENCE_NO_PACKET → IsOpenAnd handle.old HasNoPacket }
    ensures statuses { IsOkOr (CADENCE_NO_CLIENT ∷ CADENCE_NO_PACKET ∷ []) result }
{
    let Some(mut client) = handle.take(alloc) else {
        return NO_CLIENT;
    };
    let status = status_of(client.drop_oldest());
    handle.put(client);
    status
}

/// Copies the held text into the first bytes of `buf`, and writes its length into `size`. The text stays held.
#[unsafe(no_mangle)]
pub extern "C" fn cadence_held(
    alloc: Global,
    handle: &mut Handle,
    buf: &mut [u8],
    size: &mut usize,
) -> u32
    ensures copied { result ≡ CADENCE_OK →
        IsOpenAnd handle.old (λ s. take size.new buf.new ≡ s.held) }
    ensures within { result ≡ CADENCE_OK → size.new ≤ length buf.new }
    ensures told { result ≡ CADENCE_TOO_SMALL →
        IsOpenAnd handle.old (λ s. size.new ≡ length s.held) }
    ensures small { result ≡ CADENCE_TOO_SMALL → length buf.new < size.new }
    ensures closed { result ≡ CADENCE_NO_CLIENT → client_of handle.old ≡ None }
    ensures nothing { result ≡ CADENCE_NO_CLIENT → size.new ≡ 0 }
    ensures kept { client_of handle.new ≡ client_of handle.old }
    ensures statuses { IsOkOr (CADENCE_NO_CLIENT ∷ CADENCE_TOO_SMALL ∷ []) result }
{
    *size = 0;
    let Some(client) = handle.take(alloc) else {
        return NO_CLIENT;
    };
    let status = client.copy_held(buf, size);
    handle.put(client);
    status
}

/// Drops the held text, because the host has sent it. No packet may wait, because packets come before the held text.
#[unsafe(no_mangle)]
pub extern "C" fn cadence_drop_held(alloc: Global, handle: &mut Handle) -> u32
    ensures dropped { result ≡ CADENCE_OK →
        OnOpen (λ s t. DropsHeld s s.held t) handle.old handle.new }
    ensures refused { UnchangedUnlessOk result handle.old handle.new }
    ensures full { result ≡ CADENCE_FULL → IsOpenAnd handle.old (λ s. HasNoPacket s → ⊥) }
    ensures statuses { IsOkOr (CADENCE_NO_CLIENT ∷ CADENCE_FULL ∷ []) result }
{
    let Some(mut client) = handle.take(alloc) else {
        return NO_CLIENT;
    };
    let status = status_of(client.drop_held());
    handle.put(client);
    status
}

/// Writes the counts of a client into `counts`.
#[unsafe(no_mangle)]
pub extern "C" fn cadence_counts(alloc: Global, handle: &mut Handle, counts: &mut CCounts) -> u32
    ensures counted { result ≡ CADENCE_OK → IsOpenAnd handle.old (λ s. AreCountsOf s counts.new) }
    ensures kept { client_of handle.new ≡ client_of handle.old }
    ensures closed { result ≢ CADENCE_OK → client_of handle.old ≡ None }
    ensures untouched { result ≢ CADENCE_OK → counts.new ≡ counts.old }
    ensures statuses { IsOkOr (CADENCE_NO_CLIENT ∷ []) result }
{
    let Some(client) = handle.take(alloc) else {
        return NO_CLIENT;
    };
    *counts = client.counts();
    handle.put(client);
    OK
}
