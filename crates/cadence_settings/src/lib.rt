//! A client's settings and its calls: what a client adds to each call, calls that are kept as data, and the line and the
//! record that a call makes.
//!
//! - `settings`: what a client adds to each call, and the lines and records that calls make with it
//! - `call`: a call as data, and its options
//! - `laws`: laws that follow from the definitions
#![tactic(auto)]

mod call;
mod laws;
mod settings;

pub use call::{Call, CallOption, CallValue};
pub use laws::{an_option_is_chosen, cleaned_calls_are_clear, strict_calls_are_clear};
pub use settings::{
    ClientSettings, DraftError, KeyText, Separator, TextError, UnfitText, any_is_free,
    formatted_prefix, key_text, tag_is_clear, tags_are_clear, text_is_free,
};
