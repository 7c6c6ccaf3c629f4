//! Reads a script: its settings, and then its steps.

use crate::calls::call_of;
use crate::words::{BadLine, LineError, Words, number, text_of};
use cadence_cli::ReportError;
use cadence_errors::MetricError;
use cadence_flow::io::{Answer, DEFAULT_CAPACITY};
use cadence_queue::QueuePolicy;
use cadence_schedule::Step;
use cadence_settings::ClientSettings;
use std::alloc::{AllocError, Allocator};
use std::num::NonZeroUsize;
use thiserror::Error;

/// Why a text is not a script.
#[derive(Clone, Copy, Debug, Error)]
pub enum ScriptError {
    /// The line with this number can't be read. The first line has the number 1, and empty lines count.
    #[error("line {0}: cannot read")]
    Line(usize),
    /// The text is not UTF-8.
    #[error("input: not UTF-8")]
    NotUtf8,
    /// The script is strict, and its prefix, a default tag or the default container has a separator.
    #[error("settings: separator in a text")]
    Separator,
}

/// The settings and the steps of a script.
#[derive(Drop)]
pub struct Script<A: Allocator> {
    alloc: A,
    /// The client's prefix.
    pub prefix: String<A>,
    /// The default tags, in order.
    pub tags: Vec<(Option<String<A>>, String<A>), A>,
    /// The default container.
    pub container: Option<String<A>>,
    /// Whether calls with a separator in a text are refused.
    pub strict: bool,
    /// The packer's capacity, in bytes.
    pub capacity: usize,
    /// The text that follows each line in a packet.
    pub ending: String<A>,
    /// The queue's capacity, in lines. `None` means that the queue has no limit.
    pub queue: Option<usize>,
    /// What a full queue does with a new line.
    pub policy: QueuePolicy,
    /// The most contexts of each kind that an aggregator before the packer holds. `None` means that there is none.
    pub aggregate: Option<NonZeroUsize>,
    /// The answers of the packet log, in order.
    pub answers: Vec<Answer, A>,
    /// The steps, in order.
    pub steps: Vec<Step<A>, A>,
}

// Returns an empty list. With this function and `first_texts`, `Script::new` has few places at which memory can run
// out, and so its check takes less time.
fn empty<T, A: Allocator + Clone>(alloc: &A) -> Result<Vec<T, A>, AllocError> {
    Ok(Vec::new(alloc.clone()?))
}

// Returns the prefix and the ending of a script that doesn't set them.
fn first_texts<A: Allocator + Clone>(alloc: &A) -> Result<(String<A>, String<A>), AllocError> {
    let prefix = String::new(alloc.clone()?);
    let ending = String::from_str(alloc.clone()?, "\n")?;
    Ok((prefix, ending))
}

impl<A: Allocator + Clone> Script<A> {
    /// Returns the script without any lines.
    pub fn new(alloc: A) -> Result<Script<A>, AllocError> {
        let (prefix, ending) = first_texts(&alloc)?;
        let (tags, answers, steps) = (empty(&alloc)?, empty(&alloc)?, empty(&alloc)?);
        Ok(Script {
            alloc,
            prefix,
            tags,
            container: None,
            strict: false,
            capacity: DEFAULT_CAPACITY,
            ending,
            queue: None,
            policy: QueuePolicy::Refuse,
            aggregate: None,
            answers,
            steps,
        })
    }

    /// Returns the settings of the client.
    ///
    /// # Errors
    /// An error of kind `InvalidInput` if the script is strict and its prefix, a default tag or the default container has
    /// a separator, and `SinkError::OutOfMemory`.
    pub fn settings(&self) -> Result<ClientSettings<A>, MetricError> {
        let mut settings = ClientSettings::new(self.alloc.clone()?, &self.prefix)?;
        for (key, text) in &self.tags {
            let key = match key {
                Some(key) => Some(key.as_str()),
                None => None,
            };
            settings.add_tag(key, text)?;
        }
        if let Some(container) = &self.container {
            settings.set_container(container)?;
        }
        if self.strict {
            settings.set_strict()?;
        }
        Ok(settings)
    }

    // Reads the next word as a text.
    fn next_text(&self, words: &mut Words<'_>) -> Result<String<A>, LineError> {
        text_of(self.alloc.clone()?, words.word()?)
    }

    // Reads a default tag, with or without a key.
    fn read_tag(&mut self, has_key: bool, words: &mut Words<'_>) -> Result<(), LineError> {
        let key = if has_key {
            Some(self.next_text(words)?)
        } else {
            None
        };
        let text = self.next_text(words)?;
        self.tags.push((key, text))?;
        Ok(())
    }

    // Reads the answers of the packet log from the words of a line, which must have at least one. They replace the
    // answers of an earlier line.
    fn read_answers(&mut self, words: &mut Words<'_>) -> Result<(), LineError> {
        let mut answers = Vec::new(self.alloc.clone()?);
        answers.push(answer_of(words.word()?)?)?;
        while let Some(word) = words.next()? {
            answers.push(answer_of(word)?)?;
        }
        self.answers = answers;
        Ok(())
    }

    fn read_setting(&mut self, name: &str, words: &mut Words<'_>) -> Result<(), LineError> {
        match name {
            "prefix" => self.prefix = self.next_text(words)?,
            "tag" => self.read_tag(true, words)?,
            "tagvalue" => self.read_tag(false, words)?,
            "container" => self.container = Some(self.next_text(words)?),
            "strict" => self.strict = true,
            "capacity" => self.capacity = number(words.word()?)?,
            "ending" => self.ending = self.next_text(words)?,
            "queue" => self.queue = Some(number(words.word()?)?),
            "policy" => self.policy = policy_of(words.word()?)?,
            "aggregate" => self.aggregate = Some(contexts_of(words.word()?)?),
            "writer" => self.read_answers(words)?,
            _ => return Err(LineError::Unusable(BadLine)),
        }
        Ok(())
    }

    // Reads the words of the step with this name. Returns `None` if no step has this name.
    fn step_of(&self, name: &str, words: &mut Words<'_>) -> Result<Option<Step<A>>, LineError> {
        match name {
            "call" => Ok(Some(Step::Call(call_of(&self.alloc, words)?))),
            "take" => Ok(Some(Step::Take)),
            "hand" => Ok(Some(Step::Hand)),
            "flush" => Ok(Some(Step::Flush)),
            "stop" => Ok(Some(Step::Stop)),
            _ => Ok(None),
        }
    }

    // Reads a line that is not empty. All settings come before the first step.
    fn read_line(&mut self, line: &str) -> Result<(), LineError> {
        let mut words = Words::new(line);
        let name = words.word()?;
        match self.step_of(name, &mut words)? {
            Some(step) => self.steps.push(step)?,
            None if self.steps.is_empty() => self.read_setting(name, &mut words)?,
            None => return Err(LineError::Unusable(BadLine)),
        }
        words.end()
    }
}

// Returns what a full queue does with a new line.
fn policy_of(word: &str) -> Result<QueuePolicy, LineError> {
    match word {
        "refuse" => Ok(QueuePolicy::Refuse),
        "drop" => Ok(QueuePolicy::DropOldest),
        _ => Err(LineError::Unusable(BadLine)),
    }
}

// Reads a word as a number of contexts. The error is that the word is no number, or is 0.
fn contexts_of(word: &str) -> Result<NonZeroUsize, LineError> {
    match NonZeroUsize::new(number(word)?) {
        Some(contexts) => Ok(contexts),
        None => Err(LineError::Unusable(BadLine)),
    }
}

// Returns the answer of the packet log that a word names.
fn answer_of(word: &str) -> Result<Answer, LineError> {
    match word {
        "whole" => Ok(Answer::Whole),
        "refuse" => Ok(Answer::Refuse),
        _ => match word.strip_prefix("short:") {
            Some(count) => Ok(Answer::Short(number(count)?)),
            None => Err(LineError::Unusable(BadLine)),
        },
    }
}

/// Reads a whole script.
///
/// # Errors
/// `Unusable`, with the number of the first line that can't be read, and `OutOfMemory`.
pub fn read_script<A: Allocator + Clone>(
    alloc: A,
    text: &str,
) -> Result<Script<A>, ReportError<ScriptError>> {
    let mut script = Script::new(alloc)?;
    for (index, line) in text.split('\n').enumerate() {
        if line.is_empty() {
            continue;
        }
        match script.read_line(line) {
            Ok(()) => {}
            Err(LineError::Unusable(BadLine)) => {
                let number = index.saturating_add(1);
                return Err(ReportError::Unusable(ScriptError::Line(number)));
            }
            Err(LineError::OutOfMemory) => return Err(ReportError::OutOfMemory),
        }
    }
    Ok(script)
}
