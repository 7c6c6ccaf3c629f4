//! Exact decimal numbers.

pub use cadence_value::decimal::{Decimal, MAX_PLACES, ParseDecimalError, read_number, read_whole};
