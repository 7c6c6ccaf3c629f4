//! The calls of C that add lines up before a client keeps them. A line that the client has no room for waits, and the
//! next call gives it to the client first. `keyed` has the calls that make no line.
mod keyed;

ghost use Rattle.std.specs.Prelude.{◌≡◌, ◌≢◌, ◌⊎◌, ◌++◌, [], ◌∷◌, IfSome, IsSomeAnd, None, OnErr, OnOk, Some};
ghost use Rattle.std.specs.Str.{IsUtf8};
ghost use Rattle.cadence_aggregating.specs.Summed.{AddsQuietly, accepted_in, gone_in, held_in, limits_in, waiting_in};
ghost use Rattle.cadence_c.specs.Handle.{IsOpenAnd, OnOpen, client_of};
ghost use Rattle.cadence_host.specs.Status.{status, CADENCE_FULL, CADENCE_NOT_UTF8, CADENCE_NO_CLIENT, CADENCE_NO_MEMORY, CADENCE_OK, IsOkOr};
ghost use Rattle.cadence_c.specs.Sums.{AddsLine, AddsUp, GivesAll, GivesLines, IsNewSums, HasSummary, LacksRoomForFirst};
ghost use Rattle.cadence_c.specs.SumsHandle.{OnBothOpen, keys_of, open_sums_of};
ghost use Rattle.cadence_c.specs.SumsKeys.{line_of_addend};

use crate::handle::Handle;
use crate::sums_handle::{Sums, SumsHandle};
use cadence_aggregating::{CounterKey, GaugeKey, Limits, SummedLines};
use cadence_host::call::text_of;
use cadence_host::client::Client;
use cadence_host::status::{NO_CLIENT, OK, StatusError, status_of};
use std::alloc::{AllocError, Global};
use std::num::NonZeroUsize;

/// Makes sums in a handle, and drops earlier ones there. A context is a line without its values: at most `contexts`
/// contexts of each kind are held, and lines of at most `longest` bytes. If `packed` is set, one line holds several
/// values of a timer, a histogram or a distribution. If it is not set, the client gets each line of these kinds at
/// once.
#[unsafe(no_mangle)]
pub extern "C" fn cadence_open_sums(
    alloc: Global,
    sums: &mut SumsHandle,
    contexts: usize,
    longest: usize,
    packed: bool,
) -> u32
    ensures made { result ≡ CADENCE_OK → IsSomeAnd (open_sums_of sums.new)
        (IsNewSums contexts longest packed) }
    ensures keys { result ≡ CADENCE_OK → keys_of sums.new ≡ Some [] }
    ensures refused { result ≢ CADENCE_OK → open_sums_of sums.new ≡ open_sums_of sums.old }
    ensures statuses { IsOkOr (CADENCE_NO_MEMORY ∷ []) result }
{
    let limits = Limits {
        most_contexts: NonZeroUsize::new(contexts).unwrap_or(NonZeroUsize::MIN),
        most_bytes: longest,
        packs_values: packed,
    };
    let Ok(lines) = SummedLines::new(alloc, limits) else {
        return StatusError::NoMemory.code();
    };
    let keys = Vec::new(alloc);
    let Ok(made) = SumsHandle::new(alloc, Sums { lines, keys }) else {
        return StatusError::NoMemory.code();
    };
    *sums = made;
    OK
}

/// Drops the sums of a handle, with all that they hold. The handle has no sums then.
#[unsafe(no_mangle)]
pub extern "C" fn cadence_free_sums(alloc: Global, sums: &mut SumsHandle)
    ensures { open_sums_of sums.new ≡ None }
{
    *sums = SumsHandle::empty(alloc);
}

// Gives the lines that wait to the client, in order, until it refuses one.
fn give_waiting(
    alloc: Global,
    lines: &mut SummedLines,
    client: &mut Client,
) -> Result<(), StatusError>
    ensures gives { GivesLines lines.old lines.new client.old client.new }
    ensures accepted { accepted_in lines.new ≡ accepted_in lines.old }
    ensures held { held_in lines.new ≡ held_in lines.old }
    ensures all { OnOk result (waiting_in lines.new ≡ []) }
    ensures none { waiting_in lines.old ≡ [] →
        (lines.new ≡ lines.old) × (client.new ≡ client.old) }
    ensures full { status result ≡ CADENCE_FULL → LacksRoomForFirst lines.new client.new }
    ensures statuses { IsOkOr (CADENCE_NO_MEMORY ∷ CADENCE_FULL ∷ []) (status result) }
{
    while let Some(line) = lines.first() {
        client.pack(alloc, line.as_bytes())?;
        lines.drop_first();
    }
    Ok(())
}

// What a call adds up: a line, or a number by a key.
#[derive(Clone, Copy)]
enum Addend<'a> {
    // This line.
    Line(&'a str),
    // The line that raises this counter by a number.
    Raise(&'a CounterKey, i64),
    // The line that sets this gauge.
    Set(&'a GaugeKey, u64),
}

// Adds up. The only error is that memory ran out.
fn add(lines: &mut SummedLines, addend: Addend<'_>) -> Result<(), AllocError>
    ensures ok { OnOk result (accepted_in lines.new
        ≡ accepted_in lines.old ++ line_of_addend addend.entry ∷ []) }
    ensures err { OnErr result (accepted_in lines.new ≡ accepted_in lines.old) }
    ensures gone { gone_in lines.new ≡ gone_in lines.old }
    ensures limits { limits_in lines.new ≡ limits_in lines.old }
    ensures quiet { OnOk result (AddsQuietly lines.old (line_of_addend addend.entry)
        (waiting_in lines.old) (waiting_in lines.new)) }
{
    match addend {
        Addend::Line(line) => lines.add(line),
        Addend::Raise(key, by) => lines.count(key, by),
        Addend::Set(key, value) => lines.gauge(key, value),
    }
}

// Gives the lines that wait to the client, and then adds up and gives the client those that wait after that. A line
// that the client refuses then waits.
fn add_up(
    alloc: Global,
    lines: &mut SummedLines,
    client: &mut Client,
    addend: Addend<'_>,
) -> Result<(), StatusError>
    ensures ok { OnOk result
        (AddsLine (line_of_addend addend.entry) lines.old lines.new client.old client.new) }
    ensures err { OnErr result (AddsUp [] lines.old lines.new client.old client.new) }
    ensures full { status result ≡ CADENCE_FULL → LacksRoomForFirst lines.new client.new }
    ensures statuses { IsOkOr (CADENCE_NO_MEMORY ∷ CADENCE_FULL ∷ []) (status result) }
{
    give_waiting(alloc, lines, client)?;
    add(lines, addend)?;
    let _ = give_waiting(alloc, lines, client);
    Ok(())
}

// Gives the client the lines that wait, and a line for each context that is held.
fn empty(alloc: Global, lines: &mut SummedLines, client: &mut Client) -> Result<(), StatusError>
    ensures ok { OnOk result (GivesAll lines.old lines.new client.old client.new) }
    ensures err { OnErr result (AddsUp [] lines.old lines.new client.old client.new) }
    ensures full { status result ≡ CADENCE_FULL → LacksRoomForFirst lines.new client.new }
    ensures statuses { IsOkOr (CADENCE_NO_MEMORY ∷ CADENCE_FULL ∷ []) (status result) }
{
    give_waiting(alloc, lines, client)?;
    lines.flush()?;
    give_waiting(alloc, lines, client)
}

// Calls `add_up` with the client of a handle, and returns the status.
fn add_with(alloc: Global, lines: &mut SummedLines, handle: &mut Handle, addend: Addend<'_>) -> u32
    ensures added { result ≡ CADENCE_OK → OnOpen
        (AddsLine (line_of_addend addend.entry) lines.old lines.new) handle.old handle.new }
    ensures refused { (result ≡ CADENCE_FULL) ⊎ (result ≡ CADENCE_NO_MEMORY) →
        OnOpen (AddsUp [] lines.old lines.new) handle.old handle.new }
    ensures full { result ≡ CADENCE_FULL → IsOpenAnd handle.new (LacksRoomForFirst lines.new) }
    ensures lines { result ≡ CADENCE_NO_CLIENT → lines.new ≡ lines.old }
    ensures client { result ≡ CADENCE_NO_CLIENT → client_of handle.new ≡ client_of handle.old }
    ensures closed { result ≡ CADENCE_NO_CLIENT → client_of handle.old ≡ None }
    ensures statuses { IsOkOr (CADENCE_NO_CLIENT ∷ CADENCE_NO_MEMORY ∷ CADENCE_FULL ∷ []) result }
{
    let Some(mut client) = handle.take(alloc) else {
        return NO_CLIENT;
    };
    let status = status_of(add_up(alloc, lines, &mut client, addend));
    handle.put(client);
    status
}

// Calls `empty` with the client of a handle, and returns the status.
fn empty_with(alloc: Global, lines: &mut SummedLines, handle: &mut Handle) -> u32
    ensures flushed { result ≡ CADENCE_OK →
        OnOpen (GivesAll lines.old lines.new) handle.old handle.new }
    ensures refused { (result ≡ CADENCE_FULL) ⊎ (result ≡ CADENCE_NO_MEMORY) →
        OnOpen (AddsUp [] lines.old lines.new) handle.old handle.new }
    ensures full { result ≡ CADENCE_FULL → IsOpenAnd handle.new (LacksRoomForFirst lines.new) }
    ensures lines { result ≡ CADENCE_NO_CLIENT → lines.new ≡ lines.old }
    ensures client { result ≡ CADENCE_NO_CLIENT → client_of handle.new ≡ client_of handle.old }
    ensures closed { result ≡ CADENCE_NO_CLIENT → client_of handle.old ≡ None }
    ensures statuses { IsOkOr (CADENCE_NO_CLIENT ∷ CADENCE_NO_MEMORY ∷ CADENCE_FULL ∷ []) result }
{
    let Some(mut client) = handle.take(alloc) else {
        return NO_CLIENT;
    };
    let status = status_of(empty(alloc, lines, &mut client));
    handle.put(client);
    status
}

/// Adds up a line. The client keeps no line for it yet, unless it can't be added: then the client keeps it at once.
#[unsafe(no_mangle)]
pub extern "C" fn cadence_add_line(
    alloc: Global,
    sums: &mut SumsHandle,
    handle: &mut Handle,
    line: &[u8],
) -> u32
    ensures added { result ≡ CADENCE_OK →
        OnBothOpen (AddsLine line.now) sums.old sums.new handle.old handle.new }
    ensures refused { (result ≡ CADENCE_FULL) ⊎ (result ≡ CADENCE_NO_MEMORY) →
        OnBothOpen (AddsUp []) sums.old sums.new handle.old handle.new }
    ensures full { result ≡ CADENCE_FULL →
        IsSomeAnd (open_sums_of sums.new) (λ b. IsOpenAnd handle.new (LacksRoomForFirst b)) }
    ensures sums { (result ≡ CADENCE_NO_CLIENT) ⊎ (result ≡ CADENCE_NOT_UTF8) →
        open_sums_of sums.new ≡ open_sums_of sums.old }
    ensures client { (result ≡ CADENCE_NO_CLIENT) ⊎ (result ≡ CADENCE_NOT_UTF8) →
        client_of handle.new ≡ client_of handle.old }
    ensures closed { result ≡ CADENCE_NO_CLIENT →
        (client_of handle.old ≡ None) ⊎ (open_sums_of sums.old ≡ None) }
    ensures text { result ≡ CADENCE_NOT_UTF8 → IsUtf8 line.now → ⊥ }
    ensures keys { keys_of sums.new ≡ keys_of sums.old }
    ensures summary { IfSome (open_sums_of sums.new) HasSummary }
    ensures statuses { IsOkOr (CADENCE_NO_CLIENT ∷ CADENCE_NO_MEMORY ∷ CADENCE_FULL
        ∷ CADENCE_NOT_UTF8 ∷ []) result }
{
    let Some(mut held) = sums.take(alloc) else {
        return NO_CLIENT;
    };
    let status = match text_of(line) {
        Some(line) => add_with(alloc, &mut held.lines, handle, Addend::Line(line)),
        None => StatusError::NotUtf8.code(),
    };
    held.lines.keeps_the_record();
    sums.put(held);
    status
}

/// Gives the client a line for each context that is held, so that nothing is held any more.
#[unsafe(no_mangle)]
pub extern "C" fn cadence_flush_sums(
    alloc: Global,
    sums: &mut SumsHandle,
    handle: &mut Handle,
) -> u32
    ensures flushed { result ≡ CADENCE_OK →
        OnBothOpen GivesAll sums.old sums.new handle.old handle.new }
    ensures refused { (result ≡ CADENCE_FULL) ⊎ (result ≡ CADENCE_NO_MEMORY) →
        OnBothOpen (AddsUp []) sums.old sums.new handle.old handle.new }
    ensures full { result ≡ CADENCE_FULL →
        IsSomeAnd (open_sums_of sums.new) (λ b. IsOpenAnd handle.new (LacksRoomForFirst b)) }
    ensures sums { result ≡ CADENCE_NO_CLIENT → open_sums_of sums.new ≡ open_sums_of sums.old }
    ensures client { result ≡ CADENCE_NO_CLIENT → client_of handle.new ≡ client_of handle.old }
    ensures closed { result ≡ CADENCE_NO_CLIENT →
        (client_of handle.old ≡ None) ⊎ (open_sums_of sums.old ≡ None) }
    ensures keys { keys_of sums.new ≡ keys_of sums.old }
    ensures summary { IfSome (open_sums_of sums.new) HasSummary }
    ensures statuses { IsOkOr (CADENCE_NO_CLIENT ∷ CADENCE_NO_MEMORY ∷ CADENCE_FULL ∷ []) result }
{
    let Some(mut held) = sums.take(alloc) else {
        return NO_CLIENT;
    };
    let status = empty_with(alloc, &mut held.lines, handle);
    held.lines.keeps_the_record();
    sums.put(held);
    status
}
