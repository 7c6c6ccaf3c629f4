//! The calls of C that keep the line of a metric.
ghost use Rattle.std.specs.Prelude.{◌≡◌, ◌⊎◌, None, Some, map, true};
ghost use Rattle.cadence_value.specs.Number.{natural, whole};
ghost use Rattle.cadence_value.specs.Values.{numbers_of};
ghost use Rattle.cadence_c.specs.Results.{Keeps};
ghost use Rattle.cadence_host.specs.Calls.{AreFloatsInRange, AreNumbersOf, AreNumbersOfFloats, AreValidDecimals, CADENCE_SET, IsMemberText, IsNoChange, IsNoMember, IsTextOf, IsTextOfNumbers, IsUtf8IfKnown, durations_of, kind_named};
ghost use Rattle.cadence_host.specs.Texts.{IsUtf8Settings};
ghost use Rattle.cadence_text.specs.declared.line.MetricType.{MetricType};

use crate::handle::Handle;
use cadence_host::call::{CDecimal, CHANGE, COptions, SET};
use cadence_host::line::LineValue;
use cadence_host::settings::CSettings;
use cadence_host::status::{NO_CLIENT, StatusError, status_of};
use cadence_host::value::{
    decimal_value, duration_value, floating_value, member_value, one_number, signed_value,
    unsigned_value,
};
use cadence_text::line::TextValue;
use cadence_value::value::MetricValue;
use std::alloc::Global;

// Keeps the line of a call's value.
// Without this hint a counter of `bindings/c/speed.c` takes 11 instructions more.
#[inline(always)]
fn keep<V: LineValue + Drop>(
    alloc: Global,
    handle: &mut Handle,
    settings: &CSettings<'_>,
    kind: u32,
    key: &[u8],
    value: V,
    options: &COptions<'_>,
) -> u32
    requires settings { options.now.known ≡ true → IsUtf8Settings settings.now }
    requires texts { IsUtf8IfKnown key.now options.now }
    requires kind { (k : MetricType) → kind_named kind ≡ Some k → V.suits value k }
    ensures { Keeps result settings.now kind key.now (λ t. t ≡ V.text value)
        ⊥ options.now handle.old handle.new }
{
    let Some(mut client) = handle.take(alloc) else {
        return NO_CLIENT;
    };
    let status = status_of(client.keep(alloc, settings, kind, key, value, options));
    handle.put(client);
    status
}

// Keeps the line of a call of numbers.
#[inline(always)]
fn keep_numbers(
    alloc: Global,
    handle: &mut Handle,
    settings: &CSettings<'_>,
    kind: u32,
    key: &[u8],
    numbers: MetricValue,
    options: &COptions<'_>,
) -> u32
    requires settings { options.now.known ≡ true → IsUtf8Settings settings.now }
    requires texts { IsUtf8IfKnown key.now options.now }
    ensures { Keeps result settings.now kind key.now (IsTextOfNumbers kind (numbers_of numbers))
        (IsNoChange kind (numbers_of numbers)) options.now handle.old handle.new }
{
    if kind != CHANGE {
        return keep(alloc, handle, settings, kind, key, numbers, options);
    }
    let Some(number) = one_number(&numbers) else {
        return StatusError::Invalid.code();
    };
    let change = TextValue::Change(number);
    keep(alloc, handle, settings, kind, key, &change, options)
}

/// Keeps the line of a metric of signed whole numbers.
#[unsafe(no_mangle)]
pub extern "C" fn cadence_signed(
    alloc: Global,
    handle: &mut Handle,
    settings: &CSettings<'_>,
    kind: u32,
    key: &[u8],
    values: &[i64],
    options: &COptions<'_>,
) -> u32
    requires settings { options.now.known ≡ true → IsUtf8Settings settings.now }
    requires texts { IsUtf8IfKnown key.now options.now }
    ensures { Keeps result settings.now kind key.now
        (IsTextOf kind (λ ns. ns ≡ map whole values.now))
        (IsNoChange kind values.now) options.now handle.old handle.new }
{
    match signed_value(alloc, values) {
        Ok(value) => keep_numbers(alloc, handle, settings, kind, key, value, options),
        Err(error) => error.code(),
    }
}

/// Keeps the line of a metric of unsigned whole numbers.
#[unsafe(no_mangle)]
pub extern "C" fn cadence_unsigned(
    alloc: Global,
    handle: &mut Handle,
    settings: &CSettings<'_>,
    kind: u32,
    key: &[u8],
    values: &[u64],
    options: &COptions<'_>,
) -> u32
    requires settings { options.now.known ≡ true → IsUtf8Settings settings.now }
    requires texts { IsUtf8IfKnown key.now options.now }
    ensures { Keeps result settings.now kind key.now
        (IsTextOf kind (λ ns. ns ≡ map natural values.now))
        (IsNoChange kind values.now) options.now handle.old handle.new }
{
    match unsigned_value(alloc, values) {
        Ok(value) => keep_numbers(alloc, handle, settings, kind, key, value, options),
        Err(error) => error.code(),
    }
}

/// Keeps the line of a metric of decimal numbers.
#[unsafe(no_mangle)]
pub extern "C" fn cadence_decimal(
    alloc: Global,
    handle: &mut Handle,
    settings: &CSettings<'_>,
    kind: u32,
    key: &[u8],
    values: &[CDecimal],
    options: &COptions<'_>,
) -> u32
    requires settings { options.now.known ≡ true → IsUtf8Settings settings.now }
    requires texts { IsUtf8IfKnown key.now options.now }
    ensures { Keeps result settings.now kind key.now (IsTextOf kind (AreNumbersOf values.now))
        ((AreValidDecimals values.now → ⊥) ⊎ IsNoChange kind values.now)
        options.now handle.old handle.new }
{
    match decimal_value(alloc, values) {
        Ok(value) => keep_numbers(alloc, handle, settings, kind, key, value, options),
        Err(error) => error.code(),
    }
}

/// Keeps the line of a metric of floats. In a timer they are rounded to six places.
#[unsafe(no_mangle)]
pub extern "C" fn cadence_floating(
    alloc: Global,
    handle: &mut Handle,
    settings: &CSettings<'_>,
    kind: u32,
    key: &[u8],
    values: &[f64],
    options: &COptions<'_>,
) -> u32
    requires settings { options.now.known ≡ true → IsUtf8Settings settings.now }
    requires texts { IsUtf8IfKnown key.now options.now }
    ensures { Keeps result settings.now kind key.now
        (IsTextOf kind (AreNumbersOfFloats kind values.now))
        ((AreFloatsInRange values.now → ⊥) ⊎ IsNoChange kind values.now)
        options.now handle.old handle.new }
{
    match floating_value(alloc, kind, values) {
        Ok(value) => keep_numbers(alloc, handle, settings, kind, key, value, options),
        Err(error) => error.code(),
    }
}

/// Keeps the line of a metric of durations in nanoseconds. A timer prints whole milliseconds and a histogram
/// nanoseconds.
#[unsafe(no_mangle)]
pub extern "C" fn cadence_duration(
    alloc: Global,
    handle: &mut Handle,
    settings: &CSettings<'_>,
    kind: u32,
    key: &[u8],
    nanos: &[u64],
    options: &COptions<'_>,
) -> u32
    requires settings { options.now.known ≡ true → IsUtf8Settings settings.now }
    requires texts { IsUtf8IfKnown key.now options.now }
    ensures { Keeps result settings.now kind key.now
        (IsTextOf kind (λ ns. durations_of kind nanos.now ≡ Some ns))
        (durations_of kind nanos.now ≡ None) options.now handle.old handle.new }
{
    match duration_value(alloc, kind, nanos) {
        Ok(value) => keep_numbers(alloc, handle, settings, kind, key, value, options),
        Err(error) => error.code(),
    }
}

/// Keeps the line of a member of a set, which is a text.
#[unsafe(no_mangle)]
pub extern "C" fn cadence_member(
    alloc: Global,
    handle: &mut Handle,
    settings: &CSettings<'_>,
    key: &[u8],
    member: &[u8],
    options: &COptions<'_>,
) -> u32
    requires settings { options.now.known ≡ true → IsUtf8Settings settings.now }
    requires texts { IsUtf8IfKnown key.now options.now }
    ensures { Keeps result settings.now CADENCE_SET key.now (IsMemberText member.now)
        (IsNoMember member.now) options.now handle.old handle.new }
{
    match member_value(member) {
        Ok(member) => keep(alloc, handle, settings, SET, key, &member, options),
        Err(error) => error.code(),
    }
}
