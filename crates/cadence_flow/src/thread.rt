//! A thread that does a job.
use std::thread::Threads;
use std::{io, thread};

/// Work for a thread of its own. One part of what the work needs, such as an error handler, is not in the job but is an
/// argument of `run`, because the checker can't see that a thread may own a job whose type has a handler inside.
pub trait Job<P>: Drop {
    /// Does the work. The thread ends when this returns.
    fn run(self, part: P);
}

/// Starts a thread that does the work, and doesn't wait for it. If the thread can't be started, it returns the
/// system's error and drops the job and the part.
pub fn start<R: Threads, P: Drop + Send + 'static, J: Job<P> + Send + 'static>(
    rt: &R,
    job: J,
    part: P,
) -> io::Result<()> {
    thread::Builder::new().spawn(rt, move || job.run(part))?;
    Ok(())
}
