//! A list that exists in proofs only and only grows, in two halves: the log, which lies beside what it records, and the
//! right, without which nobody adds to the log. What was seen of a log is a beginning of it for good.
//!
//! All three types take no memory, and their functions do nothing at run time. What they do to `items` is proved by hand,
//! in `proofs/ghost_log`.
ghost use Rattle.std.specs.Prelude.{◌≡◌, [], ◌∷◌, ◌++◌, ℕ, List};
ghost use mathlib.Core.List.{IsPrefix};
ghost use Rattle.cadence_stage.specs.GhostLog.{log_owns, right_owns, seen_owns};

use std::marker::{Model, PhantomData};

/// The half that lies beside what it records. Each log has a name of its own.
pub struct Log<T> {
    marker: PhantomData<T>,
    pub ghost name: { ℕ },
    pub ghost items: { List T },
}

impl<T> Model for Log<T> {
    ghost also_owns = { λ l. log_owns T.row.coded.code l.name l.items };
}

/// The half without which nobody adds to the log. Each log has one right, which has its name. Who has the right knows the
/// log at every moment.
pub struct Right<T> {
    marker: PhantomData<T>,
    pub ghost name: { ℕ },
    pub ghost items: { List T },
}

impl<T> Model for Right<T> {
    ghost also_owns = { λ r. right_owns T.row.coded.code r.name r.items };
}

/// What the log of this name had at some moment. The log has begun with it ever since.
pub struct Seen<T> {
    marker: PhantomData<T>,
    pub ghost name: { ℕ },
    pub ghost items: { List T },
}

impl<T> Model for Seen<T> {
    ghost also_owns = { λ s. seen_owns T.row.coded.code s.name s.items };
}

/// Makes an empty log with its right.
pub fn twins<T>() -> (Log<T>, Right<T>)
    ensures name { result.0.name ≡ result.1.name }
    ensures log { result.0.items ≡ [] }
    ensures right { result.1.items ≡ [] }
{
    (
        Log {
            marker: PhantomData,
        },
        Right {
            marker: PhantomData,
        },
    )
}

impl<T> Log<T> {
    /// Adds an item, by the right of this log. Both halves had the same items.
    pub fn note(&mut self, right: &mut Right<T>, item: &T)
        requires { right.old.name ≡ self.old.name }
        ensures same { right.old.items ≡ self.old.items }
        ensures log { self.new.items ≡ self.old.items ++ item.now ∷ [] }
        ensures right { right.new.items ≡ self.old.items ++ item.now ∷ [] }
        ensures names { (self.new.name ≡ self.old.name) × (right.new.name ≡ self.old.name) }
    {}

    /// Both halves have the same items. The call changes nothing.
    pub fn meets(&mut self, right: &mut Right<T>)
        requires { right.old.name ≡ self.old.name }
        ensures same { right.old.items ≡ self.old.items }
        ensures log { self.new ≡ self.old }
        ensures right { right.new ≡ right.old }
    {}

    /// Returns what the log has now.
    pub fn seen(&mut self) -> Seen<T>
        ensures name { result.name ≡ self.old.name }
        ensures items { result.items ≡ self.old.items }
        ensures same { self.new ≡ self.old }
    {
        Seen {
            marker: PhantomData,
        }
    }

    /// The log begins with what was seen of it. The call changes nothing.
    pub fn began(&mut self, seen: &mut Seen<T>)
        requires { seen.old.name ≡ self.old.name }
        ensures begins { IsPrefix seen.old.items self.old.items }
        ensures log { self.new ≡ self.old }
        ensures seen { seen.new ≡ seen.old }
    {}
}

impl<T> Seen<T> {
    /// Returns the same once more.
    pub fn again(&mut self) -> Seen<T>
        ensures name { result.name ≡ self.old.name }
        ensures items { result.items ≡ self.old.items }
        ensures same { self.new ≡ self.old }
    {
        Seen {
            marker: PhantomData,
        }
    }
}

/// A log together with its right: whoever has both may add to it.
pub struct OwnLog<T> {
    log: Log<T>,
    right: Right<T>,
    pub ghost whole: { right.name ≡ log.name },
}

impl<T> OwnLog<T> {
    ghost use Rattle.cadence_stage.specs.OwnLog.{items_of, name_of};

    /// Makes an empty log.
    pub fn new() -> OwnLog<T>
        ensures { items_of result ≡ [] }
    {
        let (log, right) = twins();
        OwnLog { log, right }
    }

    /// Adds an item.
    pub fn note(&mut self, item: &T)
        ensures items { items_of self.new ≡ items_of self.old ++ item.now ∷ [] }
        ensures name { name_of self.new ≡ name_of self.old }
    {
        self.log.note(&mut self.right, item);
    }

    /// Returns what the log has now.
    pub fn seen(&mut self) -> Seen<T>
        ensures name { result.name ≡ name_of self.old }
        ensures items { result.items ≡ items_of self.old }
        ensures same { self.new ≡ self.old }
    {
        self.log.seen()
    }

    /// The log begins with what was seen of it. The call changes nothing.
    pub fn began(&mut self, seen: &mut Seen<T>)
        requires { seen.old.name ≡ name_of self.old }
        ensures begins { IsPrefix seen.old.items (items_of self.old) }
        ensures same { (self.new ≡ self.old) × (seen.new ≡ seen.old) }
    {
        self.log.began(seen);
    }
}

impl<T> Drop for OwnLog<T> {
    fn drop(self) {
        let OwnLog { log: _, right: _ } = self;
    }
}

// A derived drop would want items that can be dropped.
impl<T> Drop for Log<T> {
    fn drop(self) {
        let Log { marker: _ } = self;
    }
}

impl<T> Drop for Right<T> {
    fn drop(self) {
        let Right { marker: _ } = self;
    }
}

impl<T> Drop for Seen<T> {
    fn drop(self) {
        let Seen { marker: _ } = self;
    }
}

// None of the three owns an item, so each may go to another thread.
unsafe impl<T> Send for Log<T> {}

unsafe impl<T> Send for Right<T> {}

unsafe impl<T> Send for Seen<T> {}
