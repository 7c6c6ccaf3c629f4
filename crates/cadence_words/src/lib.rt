//! Makes the line of a metric from the words that ask for it, whose numbers are written as tools print them, and that
//! of an event or of a service check; and takes samples of lines with a chance that is such a number.
//!
//! - `command`: makes the one line for which the words of a command line ask.
//! - `decimal`: reads decimal numbers in the form of a line.
//! - `defaults`: what a command line adds to each metric.
//! - `draft`: writes the line of a metric from its name, its value and its tags.
//! - `duration`: reads durations.
//! - `events`: makes the lines of events and service checks from their words.
//! - `given`: reads what a word says about a metric.
//! - `level`: writes the text that sets a gauge, also below 0.
//! - `line`: writes the line of a metric from the words that ask for it.
//! - `sample`: lets only a random sample of lines pass.
//! - `tags`: the words of a metric's tags.
//! - `text`: reads the value of a metric, which may be a text.
//! - `value`: reads the numbers of a value.
//! - `word_error`: why words can't be read.
//! - `words`: splits a line into words, and reads single words.
#![tactic(auto)]

mod command;
mod decimal;
mod defaults;
mod draft;
mod duration;
mod events;
mod given;
mod level;
mod line;
mod sample;
mod tags;
mod text;
mod value;
mod word_error;
mod words;

pub use command::{Subject, line_of_command, subject_of};
pub use defaults::Defaults;
pub use duration::read_duration;
pub use events::{Fields, read_alert, read_priority};
pub use line::{write_line_of_text, write_line_of_words};
pub use sample::{SampledReader, Sampler};
pub use word_error::{Part, WordError};
pub use words::{is_word, read_tag};
