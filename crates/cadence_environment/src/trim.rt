//! Texts without the spaces round them.
ghost use Rattle.std.specs.Prelude.{◌≡◌};
ghost use Rattle.cadence_environment.specs.TagTexts.{trimmed, without_end, without_front};

// Returns the text without the spaces at its front.
fn trim_front(text: &str) -> &str
    ensures { result.now ≡ without_front text.now }
{
    let mut kept = text;
    while let Some(shorter) = kept.strip_prefix(' ') {
        kept = shorter;
    }
    kept
}

// Returns the text without the spaces at its end.
fn trim_end(text: &str) -> &str
    ensures { result.now ≡ without_end text.now }
{
    let mut kept = text;
    while let Some(shorter) = kept.strip_suffix(' ') {
        kept = shorter;
    }
    kept
}

// Returns the text without the spaces at its front and its end.
pub(crate) fn trim_spaces(text: &str) -> &str
    ensures { result.now ≡ trimmed text.now }
{
    trim_end(trim_front(text))
}
