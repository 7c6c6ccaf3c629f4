//! The values of a call: numbers, or a text. A list of one number needs no memory of its own, so only longer or empty
//! lists can fail with `NoMemory`.
ghost use Rattle.std.specs.Prelude.{◌≡◌, ◌≢◌, [], ◌∷◌, IfErr, IfNone, IfOk, IfSome, OnOk, length, map, Some, None};
ghost use Rattle.cadence_text.specs.TextValue.{IsMember, value_kind, value_text};
ghost use Rattle.cadence_text.specs.declared.line.MetricType.TheVariants.{Set};
ghost use Rattle.cadence_value.specs.Number.{natural, whole};
ghost use Rattle.cadence_value.specs.Values.{numbers_of};
ghost use Rattle.cadence_host.specs.Status.{status, CADENCE_INVALID, CADENCE_NO_MEMORY, IsOkOr};
ghost use Rattle.cadence_host.specs.Calls.{AreFloatsInRange, AreNumbersOf, AreNumbersOfFloats, AreValidDecimals, IsNoMember, IsNumberOfFloat, durations_of, in_millis};
ghost use Rattle.cadence_float.specs.Worth.{IsTooLarge};
ghost use Rattle.cadence_host.specs.declared.status.StatusError.TheVariants.{Invalid};

use crate::call::{CDecimal, decimal_of, text_of};
use crate::status::StatusError;
use cadence_float::{decimal_of_float, rounded_decimal_of_float};
use cadence_text::line::{TextValue, is_member};
use cadence_value::decimal::Decimal;
use cadence_value::value::MetricValue;
use std::alloc::Global;

const NANOS_PER_MILLI: u64 = 1_000_000;

// Returns the decimal of a whole number.
fn whole_decimal(number: i128) -> Option<Decimal>
    ensures some { IfSome result (λ n. n ≡ whole number) }
    ensures none { IfNone result ⊥ }
{
    Decimal::new(number, 0).ok()
}

// Returns the value of a list that has exactly one.
fn one_of<T: Copy>(values: &[T]) -> Option<T>
    ensures some { IfSome result (λ v. values.now ≡ v ∷ []) }
    ensures none { IfNone result (length values.now ≢ 1) }
{
    match values {
        [value] => Some(*value),
        _ => None,
    }
}

/// Returns the number of a value that has exactly one.
pub fn one_number(value: &MetricValue) -> Option<Decimal>
    ensures some { IfSome result (λ n. numbers_of value.now ≡ n ∷ []) }
    ensures none { IfNone result (length (numbers_of value.now) ≢ 1) }
{
    match value {
        MetricValue::Signed(n) => whole_decimal(i128::from(*n)),
        MetricValue::Unsigned(n) => whole_decimal(i128::from(*n)),
        MetricValue::Decimal(n) => Some(*n),
        MetricValue::PackedSigned(ns) => whole_decimal(i128::from(one_of(ns)?)),
        MetricValue::PackedUnsigned(ns) => whole_decimal(i128::from(one_of(ns)?)),
        MetricValue::PackedDecimal(ns) => one_of(ns),
    }
}

/// Returns the member of a set that is this text. The error is `Invalid` if the text is not UTF-8 or can't be a member.
pub fn member_value(text: &[u8]) -> Result<TextValue<'_>, StatusError>
    ensures text { IfOk result (λ v. value_text v ≡ text.now) }
    ensures kind { IfOk result (λ v. value_kind v ≡ Set) }
    ensures member { OnOk result (IsMember text.now) }
    ensures invalid { IfErr result (λ e. (e ≡ Invalid) × IsNoMember text.now) }
{
    let Some(text) = text_of(text) else {
        return Err(StatusError::Invalid);
    };
    if !is_member(text) {
        return Err(StatusError::Invalid);
    }
    Ok(TextValue::Member(text))
}

/// Returns the value of signed whole numbers.
pub fn signed_value(alloc: Global, values: &[i64]) -> Result<MetricValue, StatusError>
    ensures numbers { IfOk result (λ v. numbers_of v ≡ map whole values.now) }
    ensures statuses { IsOkOr (CADENCE_NO_MEMORY ∷ []) (status result) }
{
    if let [value] = values {
        return Ok(MetricValue::Signed(*value));
    }
    Ok(MetricValue::PackedSigned(Vec::from_slice(alloc, values)?))
}

/// Returns the value of unsigned whole numbers.
pub fn unsigned_value(alloc: Global, values: &[u64]) -> Result<MetricValue, StatusError>
    ensures numbers { IfOk result (λ v. numbers_of v ≡ map natural values.now) }
    ensures statuses { IsOkOr (CADENCE_NO_MEMORY ∷ []) (status result) }
{
    if let [value] = values {
        return Ok(MetricValue::Unsigned(*value));
    }
    Ok(MetricValue::PackedUnsigned(Vec::from_slice(alloc, values)?))
}

/// Returns the value of decimal numbers. The error is `Invalid` if one of them has more than 30 places.
pub fn decimal_value(alloc: Global, values: &[CDecimal]) -> Result<MetricValue, StatusError>
    ensures numbers { IfOk result (λ v. AreNumbersOf values.now (numbers_of v)) }
    ensures invalid { status result ≡ CADENCE_INVALID → AreValidDecimals values.now → ⊥ }
    ensures statuses { IsOkOr (CADENCE_NO_MEMORY ∷ CADENCE_INVALID ∷ []) (status result) }
{
    if let [value] = values {
        return Ok(MetricValue::Decimal(decimal_of(*value)?));
    }
    let mut numbers = Vec::with_capacity(alloc, values.len())?;
    for value in values {
        if numbers.push(decimal_of(*value)?).is_err() {
            return Err(StatusError::NoMemory);
        }
    }
    Ok(MetricValue::PackedDecimal(numbers))
}

// Returns the decimal of a float in a metric of a kind: rounded to six places in a timer. The error is `Invalid` if the
// float is NaN, infinite or too large.
#[inline]
fn float_decimal(kind: u32, x: f64) -> Result<Decimal, StatusError>
    ensures number { IfOk result (λ n. IsNumberOfFloat kind x n) }
    ensures invalid { IfErr result (λ e. IsTooLarge x × (e ≡ Invalid)) }
{
    let made = if kind == 1 {
        rounded_decimal_of_float(x)
    } else {
        decimal_of_float(x)
    };
    match made {
        Some(number) => Ok(number),
        None => Err(StatusError::Invalid),
    }
}

/// Returns the value of floats. The error is `Invalid` if one of them is NaN, infinite or too large.
pub fn floating_value(alloc: Global, kind: u32, values: &[f64]) -> Result<MetricValue, StatusError>
    ensures numbers { IfOk result (λ v. AreNumbersOfFloats kind values.now (numbers_of v)) }
    ensures invalid { status result ≡ CADENCE_INVALID → AreFloatsInRange values.now → ⊥ }
    ensures statuses { IsOkOr (CADENCE_NO_MEMORY ∷ CADENCE_INVALID ∷ []) (status result) }
{
    if let [value] = values {
        return Ok(MetricValue::Decimal(float_decimal(kind, *value)?));
    }
    let mut numbers = Vec::with_capacity(alloc, values.len())?;
    for value in values {
        if numbers.push(float_decimal(kind, *value)?).is_err() {
            return Err(StatusError::NoMemory);
        }
    }
    Ok(MetricValue::PackedDecimal(numbers))
}

// Returns the value of the whole milliseconds of durations.
fn millis_value(alloc: Global, nanos: &[u64]) -> Result<MetricValue, StatusError>
    ensures numbers { IfOk result (λ v. numbers_of v ≡ map natural (map in_millis nanos.now)) }
    ensures statuses { IsOkOr (CADENCE_NO_MEMORY ∷ []) (status result) }
{
    if let [nanos] = nanos {
        return Ok(MetricValue::Unsigned(*nanos / NANOS_PER_MILLI));
    }
    let mut millis = Vec::with_capacity(alloc, nanos.len())?;
    for nanos in nanos {
        if millis.push(*nanos / NANOS_PER_MILLI).is_err() {
            return Err(StatusError::NoMemory);
        }
    }
    Ok(MetricValue::PackedUnsigned(millis))
}

/// Returns the value of durations in nanoseconds: whole milliseconds for a timer and nanoseconds for a histogram. For
/// any other kind the error is `Invalid`.
pub fn duration_value(alloc: Global, kind: u32, nanos: &[u64]) -> Result<MetricValue, StatusError>
    ensures numbers { IfOk result (λ v. durations_of kind nanos.now ≡ Some (numbers_of v)) }
    ensures invalid { status result ≡ CADENCE_INVALID → durations_of kind nanos.now ≡ None }
    ensures statuses { IsOkOr (CADENCE_NO_MEMORY ∷ CADENCE_INVALID ∷ []) (status result) }
{
    match kind {
        1 => millis_value(alloc, nanos),
        4 => unsigned_value(alloc, nanos),
        _ => Err(StatusError::Invalid),
    }
}
