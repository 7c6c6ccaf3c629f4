//! The names of the logs of a queue and of the sink that its worker feeds. They exist in proofs only.
//!
//! A lock says of what lies under it only what the type says. So a fact that one thread learns under one lock can be used
//! under another only if both types name the same logs. A service that wants such facts picks the names of its logs once,
//! as `Brand`, and has them in its types as `Named<J>`. Every other service has `Unnamed` there, which is the default.
ghost use Rattle.std.specs.Option.{ForSome};
ghost use Rattle.std.specs.Prelude.{◌≡◌, [], ◌∷◌, ◌++◌, Option, Some, None};
ghost use Rattle.cadence_stage.specs.Names.{LogNames, MayNote};

use crate::ghost_log::{Log, Right};
use std::marker::{Brand, PhantomData};

/// Which logs a pipeline has: a queue, its worker, and the sink that the worker feeds. One call of a program picks them.
pub trait Names {
    /// The names of the logs.
    ghost names: { LogNames };
}

impl Names for Brand {
    ghost names = { record { accepted = 0; taken = 0; ended = 0; fed = 0 } };
}

/// Whether the logs of a queue have names, and who has the right to note what is taken from it.
pub trait Logs {
    /// The names of the logs, or none.
    ghost logs: { Option LogNames };

    /// Adds an item to a log. If the logs have no names, the right that lies beside the log does it, and otherwise the
    /// right that one worker has.
    fn note<T>(log: &mut Log<T>, own: &mut Right<T>, lent: &mut Right<T>, item: &T)
        requires { MayNote logs log.old own.old lent.old }
        ensures items { log.new.items ≡ log.old.items ++ item.now ∷ [] }
        ensures names { (log.new.name ≡ log.old.name) × (own.new.name ≡ own.old.name)
            × (lent.new.name ≡ lent.old.name) }
        ensures lent { ForSome logs (λ _. (lent.old.items ≡ log.old.items)
            × (lent.new.items ≡ log.new.items)) };
}

/// The logs have no names: what one lock says of them can't be used under another.
pub struct Unnamed;

impl Logs for Unnamed {
    ghost logs = { None };

    fn note<T>(log: &mut Log<T>, own: &mut Right<T>, _lent: &mut Right<T>, item: &T) {
        log.note(own, item);
    }
}

/// The logs have these names.
pub struct Named<J: Names> {
    of: PhantomData<J>,
}

impl<J: Names> Logs for Named<J> {
    ghost logs = { Some J.names };

    fn note<T>(log: &mut Log<T>, _own: &mut Right<T>, lent: &mut Right<T>, item: &T) {
        log.note(lent, item);
    }
}
