//! An allocator that refuses one request, and a function that runs an attempt with each of its requests refused.

use std::alloc::{AllocError, Allocator, Global};
use std::sync::Arc;
use std::sync::atomic::{AtomicU64, Ordering};

/// An allocator that passes each request on to `inner`, but refuses the one that finds the countdown at 0.
///
/// Its clones share the countdown.
pub struct RefusingAllocator<B: Allocator> {
    inner: B,
    left: Arc<AtomicU64>,
}

impl<B: Allocator> RefusingAllocator<B> {
    /// Creates an allocator that grants `granted` requests, refuses the next one, and grants all later ones.
    pub fn after(
        alloc: Global,
        inner: B,
        granted: u64,
    ) -> Result<RefusingAllocator<B>, AllocError> {
        let left = Arc::new(alloc, AtomicU64::new(granted))?;
        Ok(RefusingAllocator { inner, left })
    }

    /// Returns the countdown. It starts at `granted`, falls by one with each request, and wraps below 0.
    pub fn left(&self) -> u64 {
        self.left.load(Ordering::SeqCst)
    }
}

impl<B: Allocator + Clone> Clone for RefusingAllocator<B> {
    fn clone(&self) -> Result<RefusingAllocator<B>, AllocError> {
        let inner = self.inner.clone()?;
        let left = self.left.clone()?;
        Ok(RefusingAllocator { inner, left })
    }
}

impl<B: Allocator> Drop for RefusingAllocator<B> {
    fn drop(self) {
        let Self { inner: _, left: _ } = self;
    }
}

// Counts one request, and returns whether it is the one to refuse.
fn refuses(left: &Arc<AtomicU64>) -> bool {
    left.fetch_sub(1, Ordering::SeqCst) == 0
}

unsafe impl<B: Allocator> Allocator for RefusingAllocator<B> {
    ghost dealloc_token = { λ heap ty ptr. B.dealloc_token heap.inner ty ptr };

    fn allocate(&self, size: usize, align: usize) -> Result<*mut u8, AllocError> {
        if refuses(&self.left) {
            return Err(AllocError);
        }
        self.inner.allocate(size, align)
    }

    unsafe fn deallocate(&self, ptr: *mut u8, size: usize, align: usize) {
        self.inner.deallocate(ptr, size, align);
    }
}

// `each_refused` makes this many attempts at most.
const MOST_REQUESTS: u64 = 1000;

/// Runs the attempt with an allocator that refuses its first request, then with one that refuses its second, and so on,
/// until the attempt returns `true`, which says that it got all the memory that it asked for.
///
/// Returns how many requests that last attempt was granted, and `None` if 1000 attempts were not enough. An attempt
/// returns `false` if it ended as it should after a refusal.
///
/// # Errors
/// The first error that an attempt returns. No further attempt is made then.
pub fn each_refused<E, F>(alloc: Global, attempt: F) -> Result<Option<u64>, E>
where
    E: From<AllocError>,
    F: Fn(RefusingAllocator<Global>) -> Result<bool, E>,
    requires { F.IsAlwaysCallable attempt }
{
    for granted in 0..MOST_REQUESTS {
        let heap = RefusingAllocator::after(alloc, alloc, granted)?;
        if attempt(heap)? {
            return Ok(Some(granted));
        }
    }
    Ok(None)
}
