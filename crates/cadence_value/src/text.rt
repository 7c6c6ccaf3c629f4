//! Writes the texts of numbers and of values, piece by piece: `numbers` has the traits of what takes the pieces, and
//! writes digits, decimals and whole values, and `display` prints decimals and values.

mod display;
mod numbers;

pub use numbers::{ByteWriter, PieceWriter, number_len, push_number, push_value, wide_len};
