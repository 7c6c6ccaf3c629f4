//! What lets a receipt go.

/// The right to let one receipt go. Only the module `emit` makes one.
#[derive(Drop)]
pub struct Opener {
    pub(super) of: (),
}

/// What shows that a sink was called. Its type has no `Drop`.
pub trait Closed {
    /// Lets it go.
    fn close(self, by: Opener);
}
