//! The texts of long lines that were handed on, into whose memory later long lines are copied.

use std::alloc::{AllocError, Allocator};
use std::sync::Mutex;

/// The largest capacity in bytes of a text that is kept.
const WIDEST: usize = 2048;

/// How many texts are kept at most.
const MOST: usize = 32;

/// Keeps texts of long lines. The worker leaves those here that it has handed on, and a caller copies its next long line
/// into one of them. Otherwise the caller would request memory that the worker frees, and the two would often wait for
/// each other inside of the allocator.
///
/// The texts have a lock of their own, because such a line is copied before the lock of the queue is taken. This lock is
/// only tried: a thread that finds it held goes without it.
#[derive(Drop)]
pub struct LongTexts<A: Allocator> {
    texts: Mutex<Vec<String<A>, A>>,
}

impl<A: Allocator> LongTexts<A> {
    /// Begins without a text, and takes the memory of the list now, so that a call that keeps a text requests none.
    pub fn new(alloc: A) -> Result<LongTexts<A>, AllocError> {
        let texts = Vec::with_capacity(alloc, MOST)?;
        Ok(LongTexts {
            texts: Mutex::new(texts),
        })
    }

    /// Takes the text that was kept last, if there is one and no other thread has the lock.
    pub fn take(&self) -> Option<String<A>> {
        let mut texts = self.texts.try_lock()?;
        texts.pop()
    }

    /// Keeps a text. It is freed instead if it is too wide, if there are enough, or if another thread has the lock.
    pub fn keep(&self, text: String<A>) {
        if text.capacity() > WIDEST {
            return;
        }
        if let Some(mut texts) = self.texts.try_lock() {
            if texts.len() < MOST {
                let _ = texts.push(text);
            }
        }
    }
}
