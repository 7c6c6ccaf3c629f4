//! The loop of a queuing sink's worker: it gets a text, hands it on, and gets the next one.
ghost use Rattle.std.specs.Prelude.{◌≡◌, List, [], ◌∷◌, ◌++◌, Bool, true, IfSome, IfNone};

use std::sync::Wait;

/// A list of texts that `work` hands on, one after the other, until its end.
///
/// An impl states which texts it gave, which were handed on, and whether it has ended. It also states, by `promises`,
/// whether it promises anything about these three: an impl with `promises` false promises nothing. No call changes
/// `promises`. The list of a queuing sink's worker promises all of it.
pub trait Worklist {
    /// The type of a text, for example `String`. It needn't be `Clone`, so `work` can't hand a copy on.
    type Text: Drop;

    /// The texts that `next` gave, in order.
    ghost given: { Self → List Self.Text };

    /// The texts that `hand` handed on, in order.
    ghost handed: { Self → List Self.Text };

    /// Whether `next` has returned `None`.
    ghost ended: { Self → Bool };

    /// Whether the impl promises anything about `given`, `handed` and `ended`.
    ghost promises: { Self → Bool };

    /// Returns the next text, or `None` at the end. It may wait for a text.
    fn next(&mut self) -> Option<Self::Text>
        requires { promises self.old ≡ true → given self.old ≡ handed self.old }
        ensures promises { promises self.new ≡ promises self.old }
        ensures handed { promises self.old ≡ true → handed self.new ≡ handed self.old }
        ensures text { IfSome result (λ text. promises self.old ≡ true →
            (given self.new ≡ given self.old ++ text ∷ []) × (ended self.new ≡ ended self.old)) }
        ensures end { IfNone result (promises self.old ≡ true →
            (given self.new ≡ given self.old) × (ended self.new ≡ true)) };

    /// Hands on the text that `next` returned last.
    fn hand(&mut self, text: Self::Text)
        requires { promises self.old ≡ true → given self.old ≡ handed self.old ++ text ∷ [] }
        ensures promises { promises self.new ≡ promises self.old }
        ensures given { promises self.old ≡ true → given self.new ≡ given self.old }
        ensures handed { promises self.old ≡ true → handed self.new ≡ handed self.old ++ text ∷ [] }
        ensures ended { promises self.old ≡ true → ended self.new ≡ ended self.old };
}

/// Runs a queuing sink's worker: gets each text and hands it on before it asks for the next one, until the list ends.
pub fn work<R: Wait, W: Worklist>(rt: &R, list: &mut W)
    requires { W.promises list.old ≡ true → W.given list.old ≡ W.handed list.old }
    ensures promises { W.promises list.new ≡ W.promises list.old }
    ensures ended { W.promises list.old ≡ true → W.ended list.new ≡ true }
    ensures handed { W.promises list.old ≡ true → (texts : List W.Text)
        × (W.given list.new ≡ W.given list.old ++ texts)
        × (W.handed list.new ≡ W.handed list.old ++ texts) }
{
    for _ in rt.forever() {
        match list.next() {
            Some(text) => list.hand(text),
            None => return,
        }
    }
    unreachable!()
}
