//! Laws that follow from the definitions. Each function does nothing when it runs: its contract is a law, and a proof
//! that needs the law cites the call.
ghost use Rattle.cadence_settings.specs.Laws.{CleanedCallsAreClear, OptionsAreChosen, StrictCallsAreClear};

use cadence_text::laws::{cleaned_texts_are_clear, clear_texts_pass};

/// States that applying an option to the metric of a call gives the metric of the call with that option added.
pub fn an_option_is_chosen()
    ensures { OptionsAreChosen }
{}

/// States that the metric of each call that strict settings allow is clear, if the texts of the settings are: no text
/// of it has a separator, except colons after the keys of tags.
pub fn strict_calls_are_clear()
    ensures { StrictCallsAreClear }
{
    clear_texts_pass();
    cleaned_texts_are_clear();
}

/// States that the metric of each call of settings that clean texts is clear, if the texts of the settings are.
pub fn cleaned_calls_are_clear()
    ensures { CleanedCallsAreClear }
{
    clear_texts_pass();
    cleaned_texts_are_clear();
}
