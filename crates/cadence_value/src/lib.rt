//! Decimal numbers, the values of metrics, and the texts of both.
//!
//! - `chance`: chances, with which calls or lines are chosen at random.
//! - `decimal`: exact decimal numbers, and how they are read from a text.
//! - `spelled`: reads numbers in any spelling, as in `.5`, `+3` and `1.5e+06`.
//! - `value`: the values of metrics, and the types that each kind of metric accepts as its value.
//! - `text`: writes numbers and values into a line, piece by piece, and prints them.
//! - `number`: which number a value of a number type is.
//! - `bytes`: splits a text at a byte, and cuts zeros off its end.
//! - `laws`: facts about the definitions, for proofs in other crates.
#![tactic(auto)]

pub mod bytes;
pub mod chance;
pub mod decimal;
pub mod laws;
mod number;
pub mod spelled;
pub mod text;
pub mod value;
