//! Which number a value of a number type is.
ghost use Rattle.cadence_value.specs.Number.{Number, natural, whole};

use crate::decimal::Decimal;

/// A type whose values are numbers.
pub trait IsNumber {
    // The number that a value is.
    ghost number: { Self → Number };
}

impl IsNumber for i64 {
    ghost number = { whole };
}

impl IsNumber for i32 {
    ghost number = { whole };
}

impl IsNumber for u64 {
    ghost number = { natural };
}

impl IsNumber for u32 {
    ghost number = { natural };
}

impl IsNumber for Decimal {
    ghost number = { λ n. n };
}
