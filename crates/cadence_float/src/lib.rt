//! Floats as decimals.
//!
//! - `candidate`: digits and places that the decimal of a float may have
//! - `float`: the decimal of a float, whose text is read as the float
//! - `millis`: the same, rounded to six places
//! - `parts`: the decimal of a sign, digits and a power of ten
//! - `text`: the decimal of the shortest text of a float
#![tactic(auto)]

mod candidate;
mod float;
mod millis;
mod parts;
mod text;

pub use float::decimal_of_float;
pub use millis::rounded_decimal_of_float;
