//! The right to take texts out of a queue.
ghost use Rattle.std.specs.Option.{ForSome};
ghost use Rattle.std.specs.Prelude.{◌≡◌, [], ◌∷◌, ◌++◌, None};
ghost use Rattle.cadence_stage.specs.OwnLog.{items_of};

use cadence_stage::{Log, Logs, Named, Names, OwnLog, Right, Seen, Unnamed, twins};
use std::marker::PhantomData;

/// The right to take texts out of a queue, and the list of those that it took, which exists in proofs only. If the logs
/// of the queue have names, there is one such right for the queue, so its list is all that was ever taken.
pub struct Hand<T, N: Logs = Unnamed> {
    right: Right<T>,
    // what the log has had since the last text was taken
    seen: Seen<T>,
    texts: OwnLog<T>,
    of: PhantomData<N>,
    pub ghost named: { ForSome N.logs (λ names. (right.name ≡ names.taken)
        × (right.items ≡ items_of texts)) },
    pub ghost told: { ForSome N.logs (λ names. (seen.name ≡ names.taken)
        × (seen.items ≡ items_of texts)) },
}

impl<T> Hand<T> {
    ghost use Rattle.cadence_queue.specs.Hand.{texts_by};

    // Makes a right to take texts out of a queue whose logs have no names.
    pub(super) fn new() -> Hand<T>
        ensures { texts_by result ≡ [] }
    {
        let (mut log, right) = twins();
        Hand {
            right,
            seen: log.seen(),
            texts: OwnLog::new(),
            of: PhantomData,
        }
    }
}

impl<T, N: Logs> Hand<T, N> {
    ghost use Rattle.cadence_queue.specs.Hand.{texts_by};

    // Makes the one right to take texts out of a queue whose logs have names.
    pub(super) fn by(right: Right<T>, seen: Seen<T>) -> Self
        requires named { ForSome N.logs (λ names. (right.name ≡ names.taken)
            × (seen.name ≡ names.taken)) }
        requires none { (right.items ≡ []) × (seen.items ≡ []) }
        ensures { texts_by result ≡ [] }
    {
        Hand {
            right,
            seen,
            texts: OwnLog::new(),
            of: PhantomData,
        }
    }

    /// Adds a text to the log of what was taken, and to the list of this right.
    pub fn note(&mut self, taken: &mut Log<T>, own: &mut Right<T>, text: &T)
        requires unnamed { N.logs ≡ None → own.old.name ≡ taken.old.name }
        requires named { ForSome N.logs (λ names. taken.old.name ≡ names.taken) }
        ensures told { texts_by self.new ≡ texts_by self.old ++ text.now ∷ [] }
        ensures noted { taken.new.items ≡ taken.old.items ++ text.now ∷ [] }
        ensures names { (taken.new.name ≡ taken.old.name) × (own.new.name ≡ own.old.name) }
    {
        N::note(taken, own, &mut self.right, text);
        self.seen = taken.seen();
        self.texts.note(text);
    }

    /// Returns what the log had when the last text was taken. If the log has a name, that is what this right took.
    pub fn seen(&mut self) -> Seen<T>
        ensures seen { ForSome N.logs (λ names. (result.name ≡ names.taken)
            × (result.items ≡ texts_by self.old)) }
        ensures same { texts_by self.new ≡ texts_by self.old }
    {
        self.seen.again()
    }
}

impl<T, J: Names> Hand<T, Named<J>> {
    ghost use Rattle.cadence_queue.specs.Hand.{texts_by};

    /// The log has what this right took. The call changes nothing.
    pub fn meets(&mut self, taken: &mut Log<T>)
        requires { taken.old.name ≡ J.names.taken }
        ensures taken { taken.new.items ≡ texts_by self.old }
        ensures same { (taken.new ≡ taken.old) × (texts_by self.new ≡ texts_by self.old) }
    {
        taken.meets(&mut self.right);
    }
}

// A derived drop would want texts that can be dropped.
impl<T, N: Logs> Drop for Hand<T, N> {
    fn drop(self) {
        let Hand {
            right: _,
            seen: _,
            texts: _,
            of: _,
        } = self;
    }
}
