//! A text that contracts see as its bytes.
ghost use Rattle.std.specs.Prelude.{◌≡◌, string_bytes};

use std::alloc::{AllocError, Allocator, Global};
use std::marker::Model;

/// A text, which contracts see as its bytes. It wraps a `String`, which `into_string` returns without a copy.
#[derive(Drop)]
#[derive_where(Clone; A)]
pub struct Text<A: Allocator = Global> {
    text: String<A>,
}

impl<A: Allocator> Model for Text<A> {
    ghost use Rattle.std.specs.Prelude.{List, ℕ, string_bytes};

    ghost Value = { List ℕ };

    ghost view = { λ t. string_bytes t.text };
}

impl<A: Allocator> Text<A> {
    /// Returns the text as a `&str`.
    pub fn as_str(&self) -> &str
        ensures { result.now ≡ self.now }
    {
        self.text.as_str()
    }

    /// Returns the text as a `String`, without a copy.
    pub fn into_string(self) -> String<A>
        ensures { string_bytes result ≡ self }
    {
        let Text { text } = self;
        text
    }
}

impl<A: Allocator> From<String<A>> for Text<A> {
    ghost from_gives = { λ string text. text ≡ string_bytes string };

    fn from(text: String<A>) -> Text<A> {
        Text { text }
    }
}

impl<A: Allocator> PartialEq for Text<A> {
    ghost use Rattle.std.specs.Prelude.{nat_eq};
    ghost use Rattle.std.specs.Cmp.Lexicographic.{pointwise};
    ghost use Rattle.std.specs.Cmp as Cmp;
    ghost use Rattle.std.proofs.lemmas.Cmp.{nat_list_eq_equiv};

    ghost eq = { pointwise nat_eq };

    ghost laws = { Cmp.partial_equiv_from_equiv nat_list_eq_equiv };

    fn eq(&self, other: &Text<A>) -> bool {
        self.as_str() == other.as_str()
    }
}

impl<A: Allocator> Eq for Text<A> {
    ghost use Rattle.std.proofs.lemmas.Cmp.{nat_list_eq_equiv};

    ghost laws = { nat_list_eq_equiv };
}
