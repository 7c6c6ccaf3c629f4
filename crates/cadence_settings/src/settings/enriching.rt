//! What settings say to a Datadog agent, by which it adds tags: the external data of the process and the default
//! cardinality.
ghost use Rattle.std.specs.Prelude.{◌≡◌, IfErr, OnErr, OnOk, IsTrue};
ghost use Rattle.cadence_settings.specs.Settings.{FailsFor, with_default_cardinality, with_external};
ghost use Rattle.cadence_text.specs.FreeTexts.{is_field_if_any, is_field_text};
ghost use Rattle.cadence_text.specs.Record.{enrichment_of};

use super::{ClientSettings, DraftError, Separator};
use cadence_errors::{MetricError, MetricResult};
use cadence_text::line::{Cardinality, Enrichment, is_field_text};
use std::alloc::Allocator;

// Returns whether the external data, if there are any, can be the text of a field.
pub(super) fn external_is_field(enrichment: Enrichment<'_>) -> bool
    ensures { result ≡ is_field_if_any (enrichment_of enrichment.entry).external }
{
    match enrichment.external {
        Some(external) => is_field_text(external.as_bytes()),
        None => true,
    }
}

impl<A: Allocator + Clone> ClientSettings<A> {
    /// Sets the external data of each line (`|e:`), in place of earlier ones. A Datadog agent finds the container and the
    /// pod of the process by them.
    ///
    /// # Errors
    /// An error of kind `InvalidInput` (`separator in a text`) if and only if the text has a bar or a newline, also if the
    /// settings aren't strict. Otherwise `SinkError::OutOfMemory`. After an error the settings are unchanged.
    pub fn set_external(&mut self, external: &str) -> MetricResult<()>
        ensures ok { OnOk result (self.new ≡ with_external self.old external.now) }
        ensures allowed { OnOk result (IsTrue (is_field_text external.now)) }
        ensures err { IfErr result (FailsFor (is_field_text external.now)) }
        ensures kept { OnErr result (self.new ≡ self.old) }
    {
        if !is_field_text(external.as_bytes()) {
            return Err(MetricError::from(DraftError::Unusable(Separator)));
        }
        let alloc = self.tags.allocator().clone()?;
        self.external = Some(String::from_str(alloc, external)?);
        Ok(())
    }

    /// Sets the default cardinality (`|card:`), in place of an earlier one.
    pub fn set_cardinality(&mut self, cardinality: Cardinality)
        ensures { self.new ≡ with_default_cardinality self.old cardinality }
    {
        self.cardinality = Some(cardinality);
    }

    /// Returns the external data and the default cardinality.
    #[inline(always)]
    pub fn enrichment(&self) -> Enrichment<'_>
        ensures { enrichment_of result ≡ (self.now).enrichment }
    {
        Enrichment {
            external: self.external.as_ref().map(|text| text.as_str()),
            cardinality: self.cardinality,
        }
    }

    // Returns how many bytes the fields of the default container and of the enrichment have.
    #[inline(always)]
    pub(super) fn last_bytes(&self) -> usize {
        let container = match &self.container {
            Some(id) => id.len().saturating_add(3),
            None => 0,
        };
        let external = match &self.external {
            Some(text) => text.len().saturating_add(3),
            None => 0,
        };
        let cardinality = match self.cardinality {
            Some(cardinality) => cardinality.text().len().saturating_add(6),
            None => 0,
        };
        container
            .saturating_add(external)
            .saturating_add(cardinality)
    }
}
