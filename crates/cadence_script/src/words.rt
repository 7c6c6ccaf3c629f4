//! Reads the words of a line, and the texts and numbers that they stand for.
ghost use Rattle.std.specs.Prelude.{◌<◌, ◌≤◌, IfOk, IsSome};
ghost use Rattle.cadence_script.specs.Words.{bytes_left};

use cadence_errors::InputError;
use std::alloc::Allocator;
use std::str::FromStr;

/// A line, or a part of a line, is not one that a script may have at this place.
#[derive(Clone, Copy, Debug, PartialEq, Eq)]
pub struct BadLine;

/// Why a line is not read.
pub type LineError = InputError<BadLine>;

/// The words of a line that were not read yet. One space separates two words.
#[derive(Clone, Copy)]
pub struct Words<'a> {
    rest: Option<&'a str>,
}

impl<'a> Words<'a> {
    /// Returns all words of a line.
    pub fn new(line: &'a str) -> Words<'a> {
        Words { rest: Some(line) }
    }

    /// Returns the next word, or `None` after the last one.
    ///
    /// # Errors
    /// `Unusable` if the next word is empty.
    pub fn next(&mut self) -> Result<Option<&'a str>, LineError>
        ensures fewer { IfOk result (λ word.
            IsSome word → bytes_left self.new < bytes_left self.old) }
        ensures no_more { bytes_left self.new ≤ bytes_left self.old }
    {
        let Some(rest) = self.rest else {
            return Ok(None);
        };
        let word = match rest.split_once(' ') {
            Some((word, others)) => {
                self.rest = Some(others);
                word
            }
            None => {
                self.rest = None;
                rest
            }
        };
        if word.is_empty() {
            return Err(LineError::Unusable(BadLine));
        }
        Ok(Some(word))
    }

    /// Returns the next word.
    ///
    /// # Errors
    /// `Unusable` if there is no word left, or if the next word is empty.
    pub fn word(&mut self) -> Result<&'a str, LineError>
        ensures { bytes_left self.new ≤ bytes_left self.old }
    {
        match self.next()? {
            Some(word) => Ok(word),
            None => Err(LineError::Unusable(BadLine)),
        }
    }

    /// Checks that no word is left.
    ///
    /// # Errors
    /// `Unusable` if a word is left.
    pub fn end(&mut self) -> Result<(), LineError> {
        match self.next()? {
            Some(_) => Err(LineError::Unusable(BadLine)),
            None => Ok(()),
        }
    }
}

/// Returns the text that a word stands for: `\\` stands for a backslash, `\n` for a newline, `\s` for a space and `\e`
/// for no text at all.
///
/// # Errors
/// `Unusable` if another character follows a backslash, or if nothing follows it, and `OutOfMemory`.
pub fn text_of<A: Allocator>(alloc: A, word: &str) -> Result<String<A>, LineError> {
    let mut text = String::with_capacity(alloc, word.len())?;
    let mut is_escaped = false;
    for c in word.chars() {
        match (is_escaped, c) {
            (true, '\\') => text.push('\\')?,
            (true, 'n') => text.push('\n')?,
            (true, 's') => text.push(' ')?,
            (true, 'e') => {}
            (true, _) => return Err(LineError::Unusable(BadLine)),
            (false, '\\') => {}
            (false, _) => text.push(c)?,
        }
        is_escaped = !is_escaped && c == '\\';
    }
    if is_escaped {
        return Err(LineError::Unusable(BadLine));
    }
    Ok(text)
}

// Returns whether the word is `0`, or digits that don't begin with 0.
fn is_number(word: &str) -> bool {
    let digits = word.as_bytes();
    match digits.first() {
        None => false,
        Some(b'0') => digits.len() == 1,
        Some(_) => digits.iter().all(|digit| digit.is_ascii_digit()),
    }
}

/// Returns the whole number that a word stands for. The word has no sign and no needless zeros.
///
/// # Errors
/// `Unusable` if the word is not such a number, or if the number doesn't fit the type `N`.
pub fn number<N: FromStr<Err: Drop>>(word: &str) -> Result<N, LineError> {
    if !is_number(word) {
        return Err(LineError::Unusable(BadLine));
    }
    match word.parse() {
        Ok(n) => Ok(n),
        Err(_) => Err(LineError::Unusable(BadLine)),
    }
}

/// Returns the whole number that a word stands for. A minus may come before a number that is not 0.
///
/// # Errors
/// `Unusable` if the word is not such a number, or if the number doesn't fit the type `N`.
pub fn signed_number<N: FromStr<Err: Drop>>(word: &str) -> Result<N, LineError> {
    let is_signed = match word.strip_prefix('-') {
        Some(digits) => is_number(digits) && digits != "0",
        None => is_number(word),
    };
    if !is_signed {
        return Err(LineError::Unusable(BadLine));
    }
    match word.parse() {
        Ok(n) => Ok(n),
        Err(_) => Err(LineError::Unusable(BadLine)),
    }
}
