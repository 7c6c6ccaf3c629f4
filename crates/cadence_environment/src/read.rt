//! What the environment says, read from a runtime or from texts.
ghost use Rattle.std.specs.Prelude.{◌≡◌, IfErr, IfOk, IfSome, IsNone, IsTrue, map, string_bytes};
ghost use Rattle.cadence_text.specs.FreeTexts.{is_field_text};
ghost use Rattle.cadence_text.specs.Owned.{tag_of_owned};
ghost use Rattle.cadence_environment.specs.Destinations.{SaysPlace};
ghost use Rattle.cadence_environment.specs.EnvironmentFaults.{IsRefusedVariable, NamesNoPath};
ghost use Rattle.cadence_environment.specs.Cardinalities.{SaysCardinality, first_set};
ghost use Rattle.cadence_environment.specs.Containers.{default_container};
ghost use Rattle.cadence_environment.specs.ExternalData.{default_external, external_of, text_if_any};
ghost use Rattle.cadence_environment.specs.Switches.{IsSwitch, is_yes};
ghost use Rattle.cadence_environment.specs.TagTexts.{tags_said};
ghost use Rattle.std.specs.Option.{option_copied};

use crate::cardinality::default_cardinality;
use crate::container::container_id;
use crate::destination::{Destination, read_destination};
use crate::error::EnvironmentError;
use crate::external::read_external;
use crate::prefix::read_prefix;
use crate::switch::read_origin;
use crate::tags::{Tags, read_tags};
use crate::texts::{OriginTexts, PlaceTexts, TagTexts, read_text};
use crate::variables::{Variable, Variables};
use cadence_text::line::{Cardinality, OwnedTag};
use std::alloc::{Alloc, Allocator, Global};
use std::env::Env;

/// What the environment says: where to send, the prefix of all names, the default tags of the service, whether its
/// default container is that of the process, its external data, and the default cardinality.
#[derive(Drop)]
pub struct Environment<A: Allocator = Global> {
    destination: Destination<A>,
    prefix: String<A>,
    tags: Tags<A>,
    finds_container: bool,
    external: String<A>,
    cardinality: Option<Cardinality>,
    ghost external_is_field: { IsTrue (is_field_text (string_bytes external)) },
}

impl<A: Allocator> Environment<A> {
    ghost use Rattle.cadence_environment.specs.Shown.{cardinality_said, destination_of, external_said, finds_container, prefix_of, tags_of};

    /// Returns where the environment says to send.
    pub fn destination(&self) -> &Destination<A>
        ensures { result.now ≡ destination_of self.now }
    {
        &self.destination
    }

    /// Returns the prefix that the environment says, which is empty by default. It is meant for a caller that has none.
    pub fn prefix(&self) -> &str
        ensures { result.now ≡ prefix_of self.now }
    {
        &self.prefix
    }

    /// Returns the tags that the environment says, in order.
    pub fn tags(&self) -> &[OwnedTag<A>]
        ensures { map tag_of_owned result.now ≡ tags_of self.now }
    {
        &self.tags
    }

    /// Returns whether the default container is that of the process, so that the caller reads `/proc/self/cgroup`.
    pub fn finds_container(&self) -> bool
        ensures { result ≡ finds_container self.now }
    {
        self.finds_container
    }

    /// Returns the default container of a client: the one that the caller gives, or otherwise the one that this text of
    /// `/proc/self/cgroup` says, if the environment says that it is the default one. `container_id` says which one that
    /// is.
    pub fn container<'a>(&self, given: Option<&'a str>, cgroup: &'a [u8]) -> Option<&'a str>
        ensures { option_copied result ≡ default_container (finds_container self.now)
            (option_copied given.entry) cgroup.now }
    {
        if given.is_some() || !self.finds_container {
            return given;
        }
        container_id(cgroup)
    }

    /// Returns the external data that `DD_EXTERNAL_ENV` says, or `None` if it says none: its text without bars and control
    /// characters. They are those of the process, also if the default container isn't, for a caller that wants them.
    pub fn external_data(&self) -> Option<&str>
        ensures said { option_copied result ≡ text_if_any (external_said self.now) }
        ensures field { IfSome result (λ text. IsTrue (is_field_text text.now)) }
    {
        if self.external.is_empty() {
            return None;
        }
        Some(&self.external)
    }

    /// Returns the external data of a client: those that the caller gives, or otherwise those of the process, if the
    /// environment says that the default container is that of the process. `ClientSettings::set_external` takes them.
    pub fn external<'a>(&'a self, given: Option<&'a str>) -> Option<&'a str>
        ensures said { option_copied result ≡ default_external (finds_container self.now)
            (option_copied given.entry) (external_said self.now) }
        ensures field { IsNone given.entry →
            IfSome result (λ text. IsTrue (is_field_text text.now)) }
    {
        match given {
            None if self.finds_container => self.external_data(),
            _ => given,
        }
    }

    /// Returns the default cardinality that the environment says.
    pub fn cardinality(&self) -> Option<Cardinality>
        ensures { result ≡ cardinality_said self.now }
    {
        self.cardinality
    }
}

impl<A: Allocator + Clone> Environment<A> {
    ghost use Rattle.cadence_environment.specs.Shown.{cardinality_said, destination_of, external_said, finds_container, prefix_of, tags_of};

    /// Returns what these texts of the variables say.
    ///
    /// # Errors
    /// `Unusable` with a variable that can't be used as it is set, and `OutOfMemory`. A variable that another one
    /// overrides is never the reason, nor is one that says the path of a Unix socket.
    pub fn from_variables(
        alloc: A,
        variables: &Variables<'_>,
    ) -> Result<Environment<A>, EnvironmentError>
        ensures place { IfOk result (λ e. SaysPlace variables.now (destination_of e)) }
        ensures prefix { IfOk result (λ e. prefix_of e ≡ variables.now.prefix.now) }
        ensures tags { IfOk result (λ e. tags_of e ≡ tags_said variables.now) }
        ensures container { IfOk result (λ e.
            finds_container e ≡ is_yes variables.now.origin.now) }
        ensures switch { IfOk result (λ _. IsSwitch variables.now.origin.now) }
        ensures external { IfOk result (λ e.
            external_said e ≡ external_of variables.now.external.now) }
        ensures cardinality { IfOk result (λ e. SaysCardinality
            (first_set variables.now.cardinality.now variables.now.datadog_cardinality.now)
            (cardinality_said e)) }
        ensures refused { IfErr result (IsRefusedVariable variables.now) }
        ensures paths { IfErr result (NamesNoPath variables.now) }
    {
        let destination = read_destination(alloc.clone()?, variables)?;
        let prefix = String::from_str(alloc.clone()?, read_prefix(variables.prefix)?)?;
        let tags = read_tags(alloc.clone()?, variables, false)?;
        let finds_container = read_origin(variables.origin)?;
        let external = read_external(alloc, variables.external)?;
        let cardinality = default_cardinality(variables)?;
        Ok(Environment {
            destination,
            prefix,
            tags,
            finds_container,
            external,
            cardinality,
        })
    }

    /// Reads the variables of the runtime's environment, and returns what they say. A variable that another one
    /// overrides is not read.
    ///
    /// # Errors
    /// `Unusable` with a variable that can't be used as it is set, also because it is not UTF-8, and `OutOfMemory`.
    pub fn read<R: Env + Alloc<A = A>>(rt: &R) -> Result<Environment<A>, EnvironmentError> {
        let places = PlaceTexts::read(rt)?;
        let prefix = read_text(rt, Variable::Prefix, true)?;
        let tags = TagTexts::read(rt)?;
        let origins = OriginTexts::read(rt)?;
        let others = Variables {
            prefix: &prefix,
            ..Variables::none()
        };
        let variables = origins.lend(tags.lend(places.lend(others)));
        Environment::from_variables(rt.alloc(), &variables)
    }

    /// Reads the variables that say where to send, and returns what they say. The tags are not read.
    ///
    /// # Errors
    /// Those of `read`.
    pub fn read_destination<R: Env + Alloc<A = A>>(
        rt: &R,
    ) -> Result<Destination<A>, EnvironmentError> {
        let places = PlaceTexts::read(rt)?;
        read_destination(rt.alloc(), &places.lend(Variables::none()))
    }

    /// Reads the variables that say the tags, and returns what they say. A caller that says itself where to send calls
    /// this in place of `read`, because its destination wins over that of the environment.
    ///
    /// # Errors
    /// Those of `read`.
    pub fn read_tags<R: Env + Alloc<A = A>>(
        rt: &R,
    ) -> Result<Vec<OwnedTag<A>, A>, EnvironmentError> {
        let tags = TagTexts::read(rt)?;
        read_tags(rt.alloc(), &tags.lend(Variables::none()), false)
    }

    /// Reads the tags as `read_tags` does, for settings that clean texts: a separator in a text is no reason to refuse it,
    /// because the settings replace it.
    ///
    /// # Errors
    /// Those of `read`. Of the separators, only a colon before the text of a tag of `DD_TAGS` is refused.
    pub fn read_tags_to_clean<R: Env + Alloc<A = A>>(
        rt: &R,
    ) -> Result<Vec<OwnedTag<A>, A>, EnvironmentError> {
        let tags = TagTexts::read(rt)?;
        read_tags(rt.alloc(), &tags.lend(Variables::none()), true)
    }
}
