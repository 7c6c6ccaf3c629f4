//! A list of texts that exists in proofs only.
ghost use Rattle.std.specs.Prelude.{◌≡◌, ◌∷◌, ◌++◌, [], ℕ, List};
ghost use Rattle.std.specs.Borrow.{ftrue};
ghost use Rattle.std.specs.Coded.{coded_list, coded_ℕ, coded×};

use std::marker::{Model, PhantomData};

/// A list of texts, each with a count. It exists in proofs only: it takes no memory, and its methods do nothing at run
/// time. What `new` and `note` do to `items` is proved by hand, in `proofs/ghost_texts`.
#[derive(Drop)]
pub struct GhostTexts {
    marker: PhantomData<u8>,
    pub ghost items: { List (List ℕ × ℕ) } by { coded_list (coded× (coded_list coded_ℕ) coded_ℕ) },
}

impl Model for GhostTexts {
    ghost also_owns = { λ _. ftrue };
}

impl GhostTexts {
    /// Makes the empty list.
    pub fn new() -> GhostTexts
        ensures { result.items ≡ [] }
    {
        GhostTexts {
            marker: PhantomData,
        }
    }

    /// Makes the list that has this text alone, with the count 0.
    pub fn of(text: &str) -> GhostTexts
        ensures { result.items ≡ (text.now, 0) ∷ [] }
    {
        let mut texts = GhostTexts::new();
        texts.note(text.as_bytes(), 0);
        texts
    }

    /// Adds a text with its count at the end of the list.
    pub fn note(&mut self, _text: &[u8], _count: usize)
        ensures { self.new.items ≡ self.old.items ++ (_text.now, _count) ∷ [] }
    {}
}

// A `GhostTexts` owns nothing, so it may go to another thread.
unsafe impl Send for GhostTexts {}
