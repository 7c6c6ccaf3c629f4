//! A law about the definitions, as the contract of a function that does nothing. Proofs in other crates cite it.
ghost use Rattle.std.specs.Prelude.{◌≡◌, ◌↔◌, IsTrue};
ghost use Rattle.cadence_value.specs.Number.{Number};

use crate::decimal::Decimal;
use std::hash::Hash;

/// States that two decimals are equal exactly if they are the same number, and that equal decimals have equal hashes.
/// Does nothing when it is called.
pub fn decimals_equal_by_number()
    ensures equal { (a b : Number) → IsTrue (⟦<Decimal as PartialEq>⟧.eq a b) ↔ (a ≡ b) }
    ensures hashes { (a b : Number) → a ≡ b →
        ⟦<Decimal as Hash>⟧.hash_input a ≡ ⟦<Decimal as Hash>⟧.hash_input b }
{}
