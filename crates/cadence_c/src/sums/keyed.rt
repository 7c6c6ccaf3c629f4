//! The calls of C that add numbers up by keys. A key is made once of a line, and a call by it makes no line.
ghost use Rattle.std.specs.Prelude.{◌≡◌, ◌≢◌, ◌⊎◌, ◌∷◌, [], IfOk, IfSome, IsSomeAnd, None, OnErr, option_map};
ghost use Rattle.std.specs.Str.{IsUtf8};
ghost use Rattle.cadence_aggregating.specs.Keys.{SaysNeither};
ghost use Rattle.cadence_c.specs.Handle.{IsOpenAnd, OnOpen, client_of};
ghost use Rattle.cadence_host.specs.Status.{CADENCE_FULL, CADENCE_INVALID, CADENCE_NOT_UTF8, CADENCE_NO_CLIENT, CADENCE_NO_MEMORY, CADENCE_OK, IsOkOr, status};
ghost use Rattle.cadence_c.specs.Sums.{AddsLine, AddsUp, HasSummary, LacksRoomForFirst};
ghost use Rattle.cadence_c.specs.SumsHandle.{OnBothOpen, keys_of, open_sums_of};
ghost use Rattle.cadence_c.specs.SumsKeys.{GetsKey, HasKeyMore, line_by_key, line_by_handle, line_of_addend};

use super::{Addend, add_with};
use crate::handle::Handle;
use crate::sums_handle::{Sums, SumsHandle};
use cadence_aggregating::LineKey;
use cadence_host::call::text_of;
use cadence_host::status::{NO_CLIENT, OK, StatusError};
use std::alloc::Global;

// Makes the key of a line, and returns its number.
fn make_key(alloc: Global, keys: &mut Vec<LineKey>, line: &[u8]) -> Result<usize, StatusError>
    ensures made { IfOk result (λ place. GetsKey line.now place keys.old.items keys.new.items) }
    ensures refused { OnErr result (keys.new.items ≡ keys.old.items) }
    ensures invalid { status result ≡ CADENCE_INVALID → SaysNeither line.now }
    ensures text { status result ≡ CADENCE_NOT_UTF8 → IsUtf8 line.now → ⊥ }
    ensures statuses { IsOkOr (CADENCE_NO_MEMORY ∷ CADENCE_INVALID ∷ CADENCE_NOT_UTF8 ∷ [])
        (status result) }
{
    let Some(line) = text_of(line) else {
        return Err(StatusError::NotUtf8);
    };
    let Some(key) = LineKey::of_line(alloc, line)? else {
        return Err(StatusError::Invalid);
    };
    let place = keys.len();
    match keys.push(key) {
        Ok(()) => Ok(place),
        Err(_key) => Err(StatusError::NoMemory),
    }
}

/// Makes the key of the counter that a line raises, or of the gauge that it sets, and writes its number into `key`. The
/// key can be used until the sums are dropped.
#[unsafe(no_mangle)]
pub extern "C" fn cadence_make_key(
    alloc: Global,
    sums: &mut SumsHandle,
    line: &[u8],
    key: &mut usize,
) -> u32
    ensures made { result ≡ CADENCE_OK → HasKeyMore line.now key.new sums.old sums.new }
    ensures refused { result ≢ CADENCE_OK → keys_of sums.new ≡ keys_of sums.old }
    ensures sums { open_sums_of sums.new ≡ open_sums_of sums.old }
    ensures closed { result ≡ CADENCE_NO_CLIENT → open_sums_of sums.old ≡ None }
    ensures invalid { result ≡ CADENCE_INVALID → SaysNeither line.now }
    ensures text { result ≡ CADENCE_NOT_UTF8 → IsUtf8 line.now → ⊥ }
    ensures statuses { IsOkOr (CADENCE_NO_CLIENT ∷ CADENCE_NO_MEMORY ∷ CADENCE_INVALID
        ∷ CADENCE_NOT_UTF8 ∷ []) result }
{
    let Some(mut held) = sums.take(alloc) else {
        return NO_CLIENT;
    };
    let made = make_key(alloc, &mut held.keys, line);
    sums.put(held);
    match made {
        Ok(place) => {
            *key = place;
            OK
        }
        Err(error) => error.code(),
    }
}

// Returns what a number by a key adds up. Returns `None` if there is no such key, or if it is the key of a gauge and
// the number is negative.
fn addend_by(keys: &[LineKey], key: usize, number: i64) -> Option<Addend<'_>>
    ensures { option_map line_of_addend result ≡ line_by_key keys.now key number }
{
    match keys.get(key)? {
        LineKey::Raises(key) => Some(Addend::Raise(key, number)),
        LineKey::Sets(key) => match u64::try_from(number) {
            Ok(value) => Some(Addend::Set(key, value)),
            Err(_) => None,
        },
    }
}

// Adds up a number by one of the keys of the sums, and returns the status.
fn add_by(alloc: Global, sums: &mut Sums, handle: &mut Handle, key: usize, number: i64) -> u32
    ensures added { result ≡ CADENCE_OK →
        IsSomeAnd (line_by_key sums.old.keys.items key number) (λ line. OnOpen
        (AddsLine line sums.old.lines sums.new.lines) handle.old handle.new) }
    ensures refused { (result ≡ CADENCE_FULL) ⊎ (result ≡ CADENCE_NO_MEMORY) →
        OnOpen (AddsUp [] sums.old.lines sums.new.lines) handle.old handle.new }
    ensures full { result ≡ CADENCE_FULL →
        IsOpenAnd handle.new (LacksRoomForFirst sums.new.lines) }
    ensures lines { (result ≡ CADENCE_NO_CLIENT) ⊎ (result ≡ CADENCE_INVALID) →
        sums.new.lines ≡ sums.old.lines }
    ensures client { (result ≡ CADENCE_NO_CLIENT) ⊎ (result ≡ CADENCE_INVALID) →
        client_of handle.new ≡ client_of handle.old }
    ensures closed { result ≡ CADENCE_NO_CLIENT → client_of handle.old ≡ None }
    ensures invalid { result ≡ CADENCE_INVALID → line_by_key sums.old.keys.items key number ≡ None }
    ensures keys { sums.new.keys.items ≡ sums.old.keys.items }
    ensures statuses { IsOkOr (CADENCE_NO_CLIENT ∷ CADENCE_NO_MEMORY ∷ CADENCE_FULL
        ∷ CADENCE_INVALID ∷ []) result }
{
    let Some(addend) = addend_by(&sums.keys, key, number) else {
        return StatusError::Invalid.code();
    };
    add_with(alloc, &mut sums.lines, handle, addend)
}

/// Adds up a number by a key: raises the counter by it, or sets the gauge to it. It makes no line.
#[unsafe(no_mangle)]
pub extern "C" fn cadence_add_number(
    alloc: Global,
    sums: &mut SumsHandle,
    handle: &mut Handle,
    key: usize,
    number: i64,
) -> u32
    ensures added { result ≡ CADENCE_OK →
        IsSomeAnd (line_by_handle sums.old key number) (λ line. OnBothOpen
        (AddsLine line) sums.old sums.new handle.old handle.new) }
    ensures refused { (result ≡ CADENCE_FULL) ⊎ (result ≡ CADENCE_NO_MEMORY) →
        OnBothOpen (AddsUp []) sums.old sums.new handle.old handle.new }
    ensures full { result ≡ CADENCE_FULL →
        IsSomeAnd (open_sums_of sums.new) (λ b. IsOpenAnd handle.new (LacksRoomForFirst b)) }
    ensures sums { (result ≡ CADENCE_NO_CLIENT) ⊎ (result ≡ CADENCE_INVALID) →
        open_sums_of sums.new ≡ open_sums_of sums.old }
    ensures client { (result ≡ CADENCE_NO_CLIENT) ⊎ (result ≡ CADENCE_INVALID) →
        client_of handle.new ≡ client_of handle.old }
    ensures closed { result ≡ CADENCE_NO_CLIENT →
        (client_of handle.old ≡ None) ⊎ (open_sums_of sums.old ≡ None) }
    ensures invalid { result ≡ CADENCE_INVALID → line_by_handle sums.old key number ≡ None }
    ensures keys { keys_of sums.new ≡ keys_of sums.old }
    ensures summary { IfSome (open_sums_of sums.new) HasSummary }
    ensures statuses { IsOkOr (CADENCE_NO_CLIENT ∷ CADENCE_NO_MEMORY ∷ CADENCE_FULL
        ∷ CADENCE_INVALID ∷ []) result }
{
    let Some(mut held) = sums.take(alloc) else {
        return NO_CLIENT;
    };
    let status = add_by(alloc, &mut held, handle, key, number);
    held.lines.keeps_the_record();
    sums.put(held);
    status
}
