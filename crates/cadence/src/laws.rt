//! Facts that follow from the definitions, for proofs to cite. The functions do nothing when they run.
ghost use Rattle.std.specs.Prelude.{◌≡◌, ◌↔◌, ℕ, Bool, List, IsTrue, Result};
ghost use Rattle.cadence_errors.specs.declared.MetricError.{MetricError};
ghost use Rattle.cadence_text.specs.Draft.{Draft};
ghost use Rattle.cadence_settings.specs.Call.{Choice};
ghost use Rattle.cadence_settings.specs.Settings.{Settings};
ghost use Rattle.cadence.specs.Sending.{AppliesOption, StandsForMore, choice_for};

use crate::types::MetricText;
pub use cadence_schedule::{packets_read_one_way, tight_is_fewest};
use cadence_settings::an_option_is_chosen;
pub use cadence_settings::{cleaned_calls_are_clear, strict_calls_are_clear};
pub use cadence_text::laws::{
    cleaned_texts_are_clear, clear_texts_pass, free_is_clear, line_reads_one_way, no_line_is_empty,
    packet_reads_one_way,
};
pub use cadence_value::laws::decimals_equal_by_number;
use std::alloc::Allocator;

/// States that if a builder has the draft of a call's metric, then after one more option it has the draft of the metric
/// of this call with the option as the client sends it, or an error.
pub fn choosing_stands_for_more()
    ensures { (settings : Settings) (takes_memory : Bool) (old new : Result Draft MetricError)
        (option : Choice) → AppliesOption settings takes_memory old option new →
        StandsForMore old (choice_for settings option) new }
{
    an_option_is_chosen();
}

/// States that two metrics of one kind are equal if and only if their texts are equal.
pub fn metrics_equal_by_text<K, A: Allocator>()
    ensures { (a b : List ℕ) →
        IsTrue (⟦<MetricText<K, A> as PartialEq>⟧.eq a b) ↔ (a ≡ b) }
{}
