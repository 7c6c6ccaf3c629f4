//! Settings as texts that the host keeps: the prefix as each line begins with it, the text of the default tags, the default
//! container and the external data. They are plain data, so threads may share them.
ghost use Rattle.std.specs.Prelude.{◌≡◌, IfNone, IfSome, true};
ghost use Rattle.std.specs.Option.{option_copied};
ghost use Rattle.std.specs.Str.{IsUtf8};
ghost use Rattle.cadence_settings.specs.Settings.{Settings};
ghost use Rattle.cadence_host.specs.Calls.{IsUtf8Options};
ghost use Rattle.cadence_host.specs.Texts.{AreTextsOf, HasTextsOf, IsUtf8Settings, allows_c_call, text_if_any};

use crate::call::{COptions, are_clear_options, cardinality_of, read_text};
use cadence_settings::text_is_free;
use cadence_text::line::Enrichment;

/// The texts of settings, whether the settings are strict, and whether they clean the texts of calls. `prefix` is what
/// each line begins with, `tags` is the text of the default tags, and `container` is the default container if
/// `contained` is set. `external` are the external data, unless it is empty, and `cardinality` is the number of the default
/// cardinality, or 0 for none.
#[repr(C)]
#[derive(Clone, Copy)]
pub struct CSettings<'a> {
    pub prefix: &'a [u8],
    pub tags: &'a [u8],
    pub container: &'a [u8],
    pub contained: bool,
    pub strict: bool,
    pub cleaned: bool,
    pub external: &'a [u8],
    pub cardinality: u32,
}

/// The texts of settings that are UTF-8, and the default cardinality.
#[derive(Clone, Copy)]
pub struct Texts<'a> {
    pub prefix: &'a str,
    pub tags: &'a str,
    pub container: Option<&'a str>,
    pub enrichment: Enrichment<'a>,
}

// Returns the external data, or none if the text is empty, if they are UTF-8. If the host knows that they are, they are not
// tested.
#[inline(always)]
fn read_external(external: &[u8], known: bool) -> Option<Option<&str>>
    requires { known ≡ true → IsUtf8 external.now }
    ensures external { IfSome result (λ t. option_copied t ≡ text_if_any external.now) }
    ensures none { IfNone result (IsUtf8 external.now → ⊥) }
{
    if external.is_empty() {
        return Some(None);
    }
    Some(Some(read_text(external, known)?))
}

/// Returns the texts of the settings if they are UTF-8. If the host knows that they are, they are not tested. The number of
/// the cardinality isn't tested: a number that no cardinality has counts as 0.
#[inline(always)]
pub fn read_settings<'a>(settings: &CSettings<'a>, known: bool) -> Option<Texts<'a>>
    requires { known ≡ true → IsUtf8Settings settings.now }
    ensures texts { IfSome result (λ texts. (s : Settings) → AreTextsOf settings.now s →
        HasTextsOf texts s) }
    ensures none { IfNone result (IsUtf8Settings settings.now → ⊥) }
{
    let prefix = read_text(settings.prefix, known)?;
    let tags = read_text(settings.tags, known)?;
    let container = if settings.contained {
        Some(read_text(settings.container, known)?)
    } else {
        None
    };
    let external = read_external(settings.external, known)?;
    Some(Texts {
        prefix,
        tags,
        container,
        enrichment: Enrichment {
            external,
            cardinality: cardinality_of(settings.cardinality),
        },
    })
}

/// Returns whether settings allow the texts of a call: all texts, or if they are strict, those without a separator
/// other than colons after the keys of tags.
#[inline(always)]
pub fn allows_c_call(strict: bool, key: &str, options: &COptions<'_>) -> bool
    requires { IsUtf8Options options.now }
    ensures { result ≡ allows_c_call strict key.now options.now }
{
    !strict || are_clear_options(options) && text_is_free(key)
}
