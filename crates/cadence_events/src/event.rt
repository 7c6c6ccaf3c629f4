//! Events: something that happened, with a title and a text that people read.
ghost use Rattle.std.specs.Prelude.{◌≡◌, ◌<◌, ◌^◌, [], List, None, IfErr, IfOk, IsTrue, SomeIff, length, map, string_bytes};
ghost use Rattle.std.specs.Option.{option_copied};
ghost use Rattle.cadence_errors.specs.declared.input_error.InputError.TheVariants.{OutOfMemory};
ghost use Rattle.cadence_events.specs.Cleaned.{event_as, sent_common};
ghost use Rattle.cadence_events.specs.Escapes.{escaped};
ghost use Rattle.cadence_events.specs.Event.{Event, IsCutByLengths, alert_text, event_common, event_fields, event_head, event_line, event_line_with, event_of, event_sharing, event_text, event_with, priority_text};
ghost use Rattle.cadence_events.specs.Fields.{tags_after};
ghost use Rattle.cadence_events.specs.Lined.{common_of};
ghost use Rattle.cadence_events.specs.Refusals.{MakesLine, event_refusal};
ghost use Rattle.cadence_text.specs.Cleaned.{tag_as};
ghost use Rattle.cadence_text.specs.Line.{tags_field};
ghost use Rattle.cadence_text.specs.Metric.{Tag as MetricTag};
ghost use Rattle.cadence_value.specs.Takes.{Takes};

use crate::escapes::{escaped_len, push_escaped};
use crate::fields::{push_container, push_field, push_field_as, push_seconds, push_tags};
use crate::lined::{Common, Lined, length_of, line_with};
use crate::refusal::{LineError, Unfit};
use cadence_settings::{any_is_free, tags_are_clear};
use cadence_text::line::Tag;
use cadence_value::text::PieceWriter;
use std::alloc::Allocator;

/// How much an event matters. A server takes an event without a priority for a `Normal` one.
#[derive(Clone, Copy, Debug, PartialEq, Eq)]
pub enum Priority {
    /// `low`
    Low,
    /// `normal`
    Normal,
}

/// What kind of news an event is. A server takes an event without an alert type for an `Info`.
#[derive(Clone, Copy, Debug, PartialEq, Eq)]
pub enum AlertType {
    /// `error`
    Error,
    /// `warning`
    Warning,
    /// `info`
    Info,
    /// `success`
    Success,
}

impl Priority {
    /// Returns the word that a line has.
    pub fn text(self) -> &'static str
        ensures { result.now ≡ priority_text self }
    {
        match self {
            Priority::Low => "low",
            Priority::Normal => "normal",
        }
    }
}

impl AlertType {
    /// Returns the word that a line has.
    pub fn text(self) -> &'static str
        ensures { result.now ≡ alert_text self }
    {
        match self {
            AlertType::Error => "error",
            AlertType::Warning => "warning",
            AlertType::Info => "info",
            AlertType::Success => "success",
        }
    }
}

/// An event of DogStatsD, as data. It borrows its texts.
///
/// ```text
/// let mut event = Event::new("Deploy", "version 2.1");
/// event.alert = Some(AlertType::Info);
/// let line = event.line(alloc)?; // _e{6,11}:Deploy|version 2.1|t:info
/// ```
#[derive(Clone, Copy, Debug)]
pub struct Event<'a> {
    /// The title. It may have any character: a newline is escaped.
    pub title: &'a str,
    /// The text. It may have any character: a newline is escaped.
    pub text: &'a str,
    /// When it happened, in seconds since 1970. Without it a server takes the time at which the line comes.
    pub time: Option<u64>,
    /// The name of the host.
    pub host: Option<&'a str>,
    /// The aggregation key: a server groups events that have the same one.
    pub key: Option<&'a str>,
    /// The priority.
    pub priority: Option<Priority>,
    /// The source type, for example `jenkins`.
    pub source: Option<&'a str>,
    /// The alert type.
    pub alert: Option<AlertType>,
    /// The tags.
    pub tags: &'a [Tag<'a>],
    /// The id of the container in which the sender runs.
    pub container: Option<&'a str>,
}

// Writes the head of a line.
#[tactic(auto, using(std::proofs::lemmas::Grind::common_steps))]
fn push_head<S: PieceWriter>(line: &mut S, title: &str, text: &str)
    ensures { Takes S.ends_as line.old
        (event_head (escaped title.now) (escaped text.now)) line.new }
{
    line.take_piece("_e{");
    line.take_number(escaped_len(title) as u64);
    line.take_byte(b',');
    line.take_number(escaped_len(text) as u64);
    line.take_piece("}:");
    push_escaped(line, title);
    line.take_byte(b'|');
    push_escaped(line, text);
}

impl<'a> Event<'a> {
    /// Returns an event without optional fields.
    pub fn new(title: &'a str, text: &'a str) -> Event<'a>
        ensures { event_of result ≡ record {
          title = title.now;
          text = text.now;
          time = None;
          host = None;
          key = None;
          priority = None;
          source = None;
          alert = None;
          tags = [];
          container = None;
        } }
    {
        Event {
            title,
            text,
            time: None,
            host: None,
            key: None,
            priority: None,
            source: None,
            alert: None,
            tags: &[],
            container: None,
        }
    }

    // Returns the fields that service checks have too.
    fn common(&self) -> Common<'a>
        ensures { common_of result ≡ event_common (event_of self.now) }
    {
        Common {
            time: self.time,
            host: self.host,
            tags: self.tags,
            container: self.container,
        }
    }

    // Returns the first text that can't stand in the line with these common fields, if there is one.
    fn first_unfit(&self, common: &Common<'_>) -> Option<Unfit>
        ensures { result ≡
            event_refusal (event_sharing (common_of common.now) (event_of self.now)) }
    {
        if !any_is_free(common.host) {
            return Some(Unfit::Host);
        }
        if !any_is_free(self.key) {
            return Some(Unfit::AggregationKey);
        }
        if !any_is_free(self.source) {
            return Some(Unfit::SourceType);
        }
        if !tags_are_clear(common.tags) {
            return Some(Unfit::Tags);
        }
        if !any_is_free(common.container) {
            return Some(Unfit::Container);
        }
        None
    }

    // Writes the fields of a line, with these defaults.
    #[tactic(auto, using(std::proofs::lemmas::Grind::common_steps))]
    fn push_fields<S: PieceWriter>(
        &self,
        line: &mut S,
        common: &Common<'_>,
        tags: &str,
        container: Option<&str>,
        is_cleaned: bool,
    )
        ensures { Takes S.ends_as line.old
            (event_fields (event_sharing
            (sent_common is_cleaned (option_copied container.entry) (common_of common.now))
            (event_as is_cleaned (event_of self.now)))
            (tags_after tags.now (map (tag_as is_cleaned) (common_of common.now).tags))) line.new }
    {
        push_seconds(line, common.time);
        push_field_as(line, "|h:", common.host, is_cleaned);
        push_field_as(line, "|k:", self.key, is_cleaned);
        push_field(line, "|p:", self.priority.map(Priority::text));
        push_field_as(line, "|s:", self.source, is_cleaned);
        push_field(line, "|t:", self.alert.map(AlertType::text));
        push_tags(line, tags, common.tags, is_cleaned);
        push_container(line, common.container, container, is_cleaned);
    }

    /// Returns the length of the line in bytes, without making the line: `None` if it passes `usize::MAX`. It takes no
    /// memory. It is the length also if `line` would refuse the event.
    pub fn line_len(&self) -> Option<usize>
        ensures { SomeIff result (length (event_line (event_of self.now)) < 2 ^ 64)
            (length (event_line (event_of self.now))) }
    {
        length_of(self, &self.common(), "", None, false)
    }

    /// Returns which text makes `line` refuse the event, or `None` if it accepts all of them. If there are several, it
    /// is the one that comes first in the line.
    pub fn refusal(&self) -> Option<Unfit>
        ensures { result ≡ event_refusal (event_of self.now) }
    {
        self.first_unfit(&self.common())
    }

    /// Returns the line, without a newline at its end. It takes memory once, as many bytes as the line has
    /// (`line_len`).
    ///
    /// # Errors
    /// `Unusable` with the text that `refusal` returns, if it returns one, before any memory is taken. Otherwise
    /// `OutOfMemory`.
    pub fn line<A: Allocator>(&self, alloc: A) -> Result<String<A>, LineError>
        ensures line { MakesLine (event_refusal (event_of self.now))
            (event_line (event_of self.now)) result }
        ensures lengths { IfOk result (λ line. IsCutByLengths
            (escaped (event_of self.now).title) (escaped (event_of self.now).text)
            (string_bytes line)) }
    {
        self.line_with(alloc, "", None)
    }

    /// Returns the line of the event of a client that has default tags and a default container. `tags` is the text of
    /// the default tags, as `TagsText` has it: they come before the tags of the event. The event's own container, if it
    /// has one, replaces the default one. Neither of these defaults is tested.
    ///
    /// # Errors
    /// Those of `line`.
    pub fn line_with<A: Allocator>(
        &self,
        alloc: A,
        tags: &str,
        container: Option<&str>,
    ) -> Result<String<A>, LineError>
        ensures line { MakesLine (event_refusal (event_of self.now))
            (event_line_with tags.now (option_copied container.entry) (event_of self.now)) result }
        ensures defaults { (defaults : List MetricTag) → tags.now ≡ tags_field defaults →
            event_line_with tags.now (option_copied container.entry) (event_of self.now)
            ≡ event_line
            (event_with defaults (option_copied container.entry) (event_of self.now)) }
    {
        self.line_as(alloc, tags, container, false)
    }

    /// Returns the line that `line_with` returns, of the event as it is or, if `is_cleaned` is set, of the cleaned event.
    /// In its host, aggregation key, source type, tags and container each separator for which they would be refused is
    /// an underscore, so a cleaned event is never refused. The defaults are not cleaned.
    ///
    /// # Errors
    /// Those of `line`. If `is_cleaned` is set, only `OutOfMemory`.
    pub fn line_as<A: Allocator>(
        &self,
        alloc: A,
        tags: &str,
        container: Option<&str>,
        is_cleaned: bool,
    ) -> Result<String<A>, LineError>
        ensures line { MakesLine (event_refusal (event_as is_cleaned (event_of self.now)))
            (event_line_with tags.now (option_copied container.entry)
            (event_as is_cleaned (event_of self.now))) result }
        ensures defaults { (defaults : List MetricTag) → tags.now ≡ tags_field defaults →
            event_line_with tags.now (option_copied container.entry)
            (event_as is_cleaned (event_of self.now))
            ≡ event_line (event_with defaults (option_copied container.entry)
            (event_as is_cleaned (event_of self.now))) }
        ensures fit { IsTrue is_cleaned → IfErr result (λ e. e ≡ OutOfMemory) }
    {
        line_with(alloc, self, &self.common(), tags, container, is_cleaned)
    }
}

impl Lined for Event<'_> {
    ghost refused = { λ is_cleaned e common.
        event_refusal (event_sharing common (event_as is_cleaned (event_of e))) };

    ghost spelled = { λ is_cleaned e common tags.
        event_text (event_sharing common (event_as is_cleaned (event_of e))) tags };

    fn refusal_with(&self, common: &Common<'_>, is_cleaned: bool) -> Option<Unfit> {
        if is_cleaned {
            return None;
        }
        self.first_unfit(common)
    }

    #[tactic(auto, unfolding(crate::specs::Event::event_text))]
    fn push_to<S: PieceWriter>(
        &self,
        line: &mut S,
        common: &Common<'_>,
        tags: &str,
        container: Option<&str>,
        is_cleaned: bool,
    ) {
        push_head(line, self.title, self.text);
        self.push_fields(line, common, tags, container, is_cleaned);
    }
}
