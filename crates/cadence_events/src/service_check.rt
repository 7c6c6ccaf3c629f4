//! Service checks: the state of a service.
ghost use Rattle.std.specs.Prelude.{◌≡◌, ◌<◌, ◌^◌, [], List, None, IfErr, IsTrue, SomeIff, length};
ghost use Rattle.std.specs.Option.{option_copied};
ghost use Rattle.cadence_errors.specs.declared.input_error.InputError.TheVariants.{OutOfMemory};
ghost use Rattle.cadence_events.specs.Cleaned.{check_as};
ghost use Rattle.cadence_events.specs.Lined.{common_of};
ghost use Rattle.cadence_events.specs.Refusals.{MakesLine, check_refusal};
ghost use Rattle.cadence_events.specs.ServiceCheck.{ServiceCheck, check_common, check_line, check_line_with, check_of, check_sharing, check_text, check_with, status_text};
ghost use Rattle.cadence_text.specs.Line.{tags_field};
ghost use Rattle.cadence_text.specs.Metric.{Tag as MetricTag};
ghost use Rattle.cadence_value.specs.Takes.{Takes};

use crate::cleaning::push_text_as;
use crate::fields::{push_container, push_field_as, push_message_field, push_seconds, push_tags};
use crate::lined::{Common, Lined, length_of, line_with};
use crate::refusal::{LineError, Unfit, is_without_bar};
use cadence_settings::{any_is_free, tags_are_clear, text_is_free};
use cadence_text::line::Tag;
use cadence_value::text::PieceWriter;
use std::alloc::Allocator;

/// The state of a service.
#[derive(Clone, Copy, Debug, PartialEq, Eq)]
pub enum ServiceStatus {
    /// `0`: it works.
    Ok,
    /// `1`: it works, but something is wrong.
    Warning,
    /// `2`: it doesn't work.
    Critical,
    /// `3`: its state isn't known.
    Unknown,
}

impl ServiceStatus {
    /// Returns the digit that a line has.
    pub fn text(self) -> &'static str
        ensures { result.now ≡ status_text self }
    {
        match self {
            ServiceStatus::Ok => "0",
            ServiceStatus::Warning => "1",
            ServiceStatus::Critical => "2",
            ServiceStatus::Unknown => "3",
        }
    }
}

/// A service check of DogStatsD, as data. It borrows its texts.
///
/// ```text
/// let mut check = ServiceCheck::new("web", ServiceStatus::Critical);
/// check.message = Some("no answer");
/// let line = check.line(alloc)?; // _sc|web|2|m:no answer
/// ```
#[derive(Clone, Copy, Debug)]
pub struct ServiceCheck<'a> {
    /// The name of the service.
    pub name: &'a str,
    /// The state of the service.
    pub status: ServiceStatus,
    /// When it was in this state, in seconds since 1970. Without it a server takes the time at which the line comes.
    pub time: Option<u64>,
    /// The name of the host.
    pub host: Option<&'a str>,
    /// The tags.
    pub tags: &'a [Tag<'a>],
    /// The id of the container in which the sender runs.
    pub container: Option<&'a str>,
    /// Why the service is in this state. It may have any character but a bar: a newline and `m:` are escaped.
    pub message: Option<&'a str>,
}

impl<'a> ServiceCheck<'a> {
    /// Returns a service check without optional fields.
    pub fn new(name: &'a str, status: ServiceStatus) -> ServiceCheck<'a>
        ensures { check_of result ≡ record {
          name = name.now;
          status = status;
          time = None;
          host = None;
          tags = [];
          container = None;
          message = None;
        } }
    {
        ServiceCheck {
            name,
            status,
            time: None,
            host: None,
            tags: &[],
            container: None,
            message: None,
        }
    }

    // Returns the fields that events have too.
    fn common(&self) -> Common<'a>
        ensures { common_of result ≡ check_common (check_of self.now) }
    {
        Common {
            time: self.time,
            host: self.host,
            tags: self.tags,
            container: self.container,
        }
    }

    // Returns the first text that can't stand in the line with these common fields, if there is one.
    fn first_unfit(&self, common: &Common<'_>) -> Option<Unfit>
        ensures { result ≡
            check_refusal (check_sharing (common_of common.now) (check_of self.now)) }
    {
        if !text_is_free(self.name) {
            return Some(Unfit::Name);
        }
        if !any_is_free(common.host) {
            return Some(Unfit::Host);
        }
        if !tags_are_clear(common.tags) {
            return Some(Unfit::Tags);
        }
        if !any_is_free(common.container) {
            return Some(Unfit::Container);
        }
        if !is_without_bar(self.message) {
            return Some(Unfit::Message);
        }
        None
    }

    /// Returns the length of the line in bytes, without making the line: `None` if it passes `usize::MAX`. It takes no
    /// memory. It is the length also if `line` would refuse the service check.
    pub fn line_len(&self) -> Option<usize>
        ensures { SomeIff result (length (check_line (check_of self.now)) < 2 ^ 64)
            (length (check_line (check_of self.now))) }
    {
        length_of(self, &self.common(), "", None, false)
    }

    /// Returns which text can't stand in the line, if there is one: the first one in the order of the line.
    pub fn refusal(&self) -> Option<Unfit>
        ensures { result ≡ check_refusal (check_of self.now) }
    {
        self.first_unfit(&self.common())
    }

    /// Returns the line, without a newline at its end. It takes memory once, as many bytes as the line has
    /// (`line_len`).
    ///
    /// # Errors
    /// `Unusable` with the text that `refusal` returns, if it returns one, before any memory is taken. Otherwise
    /// `OutOfMemory`.
    pub fn line<A: Allocator>(&self, alloc: A) -> Result<String<A>, LineError>
        ensures { MakesLine (check_refusal (check_of self.now))
            (check_line (check_of self.now)) result }
    {
        self.line_with(alloc, "", None)
    }

    /// Returns the line of the service check of a client that has default tags and a default container. `tags` is the
    /// text of the default tags, as `TagsText` has it: they come before the tags of the service check. Its own
    /// container, if it has one, replaces the default one. Neither of these defaults is tested.
    ///
    /// # Errors
    /// Those of `line`.
    pub fn line_with<A: Allocator>(
        &self,
        alloc: A,
        tags: &str,
        container: Option<&str>,
    ) -> Result<String<A>, LineError>
        ensures line { MakesLine (check_refusal (check_of self.now))
            (check_line_with tags.now (option_copied container.entry) (check_of self.now)) result }
        ensures defaults { (defaults : List MetricTag) → tags.now ≡ tags_field defaults →
            check_line_with tags.now (option_copied container.entry) (check_of self.now)
            ≡ check_line
            (check_with defaults (option_copied container.entry) (check_of self.now)) }
    {
        self.line_as(alloc, tags, container, false)
    }

    /// Returns the line that `line_with` returns, of the service check as it is or, if `is_cleaned` is set, of the cleaned
    /// one. In its name, host, tags and container each separator for which they would be refused is an underscore, and
    /// so is each bar of its message. So a cleaned service check is never refused. The defaults are not cleaned.
    ///
    /// # Errors
    /// Those of `line`. If `is_cleaned` is set, only `OutOfMemory`.
    pub fn line_as<A: Allocator>(
        &self,
        alloc: A,
        tags: &str,
        container: Option<&str>,
        is_cleaned: bool,
    ) -> Result<String<A>, LineError>
        ensures line { MakesLine (check_refusal (check_as is_cleaned (check_of self.now)))
            (check_line_with tags.now (option_copied container.entry)
            (check_as is_cleaned (check_of self.now))) result }
        ensures defaults { (defaults : List MetricTag) → tags.now ≡ tags_field defaults →
            check_line_with tags.now (option_copied container.entry)
            (check_as is_cleaned (check_of self.now))
            ≡ check_line (check_with defaults (option_copied container.entry)
            (check_as is_cleaned (check_of self.now))) }
        ensures fit { IsTrue is_cleaned → IfErr result (λ e. e ≡ OutOfMemory) }
    {
        line_with(alloc, self, &self.common(), tags, container, is_cleaned)
    }
}

impl Lined for ServiceCheck<'_> {
    ghost refused = { λ is_cleaned c common.
        check_refusal (check_sharing common (check_as is_cleaned (check_of c))) };

    ghost spelled = { λ is_cleaned c common tags.
        check_text (check_sharing common (check_as is_cleaned (check_of c))) tags };

    fn refusal_with(&self, common: &Common<'_>, is_cleaned: bool) -> Option<Unfit> {
        if is_cleaned {
            return None;
        }
        self.first_unfit(common)
    }

    #[tactic(auto, using(std::proofs::lemmas::Grind::common_steps), unfolding(crate::specs::ServiceCheck::check_text))]
    fn push_to<S: PieceWriter>(
        &self,
        line: &mut S,
        common: &Common<'_>,
        tags: &str,
        container: Option<&str>,
        is_cleaned: bool,
    ) {
        line.take_piece("_sc|");
        push_text_as(line, self.name, is_cleaned);
        line.take_byte(b'|');
        line.take_piece(self.status.text());
        push_seconds(line, common.time);
        push_field_as(line, "|h:", common.host, is_cleaned);
        push_tags(line, tags, common.tags, is_cleaned);
        push_container(line, common.container, container, is_cleaned);
        push_message_field(line, self.message, is_cleaned);
    }
}
