//! The metric types. A metric of each type is the text of one line. `MetricType` of `cadence_text` explains the kinds.
ghost use Rattle.std.proofs.Common.{rules};
ghost use Rattle.std.specs.Cmp.Rules.{comparing, hashing};
ghost use Rattle.std.specs.Hash as writes;
ghost use Rattle.std.specs.Prelude.{◌≡◌, ◌++◌, ℕ, List};
ghost use Rattle.std.specs.Str.{bytes_eq};
ghost use Rattle.std.specs.String.{string_bytes};
ghost use Rattle.cadence_errors.specs.Errors.{Makes};
ghost use Rattle.cadence.specs.Metrics.{MakesLine};
ghost use Rattle.cadence_text.specs.Line.{line_of};
ghost use Rattle.cadence_text.specs.Metric.{plain_metric};
ghost use Rattle.cadence_value.specs.Number.{natural, whole};
ghost use Rattle.cadence_value.specs.Values.{numbers_of};
ghost use Rattle.cadence_text.specs.declared.line.MetricType.TheVariants as kind;

use super::kinds::{self, MetricKind};
use cadence_errors::MetricResult;
use cadence_text::line::{DraftLine, Head, MetricType};
use cadence_value::decimal::Decimal;
use cadence_value::value::MetricValue;
use std::alloc::{Allocator, Global};
use std::fmt;
use std::hash::{Hash, Hasher};
use std::marker::{Model, PhantomData};

/// A metric that can be sent. A caller may implement it on types of its own.
pub trait Metric {
    /// The text of the metric: one line, without a newline at its end.
    ghost metric_text: { Self → List ℕ };

    /// Returns the text, as it is sent to a sink.
    fn as_metric_str(&self) -> &str
        ensures { result.now ≡ metric_text self.now };
}

/// The text of one metric of the kind `K`. Contracts see it as this text.
#[derive(Drop)]
#[derive_where(Clone; A)]
pub struct MetricText<K, A: Allocator = Global> {
    line: String<A>,
    kind: PhantomData<K>,
}

impl<K, A: Allocator> Model for MetricText<K, A> {
    ghost Value = { List ℕ };

    ghost view = { λ m. string_bytes m.line };
}

/// A count of events, `c`.
pub type Counter<A = Global> = MetricText<kinds::Counter, A>;

/// A time in milliseconds, `ms`.
pub type Timer<A = Global> = MetricText<kinds::Timer, A>;

/// A value of a gauge, `g`.
pub type Gauge<A = Global> = MetricText<kinds::Gauge, A>;

/// A count of events for a rate, `m`.
pub type Meter<A = Global> = MetricText<kinds::Meter, A>;

/// A value for a distribution over one server, `h`.
pub type Histogram<A = Global> = MetricText<kinds::Histogram, A>;

/// A value for a distribution over all servers, `d`.
pub type Distribution<A = Global> = MetricText<kinds::Distribution, A>;

/// A member of a set, `s`.
pub type Set<A = Global> = MetricText<kinds::Set, A>;

impl<K: MetricKind, A: Allocator + Clone> MetricText<K, A> {
    // Makes the line of a metric without rate, tags, container and time.
    fn plain(
        alloc: A,
        prefix: &str,
        key: &str,
        value: MetricValue<A>,
    ) -> MetricResult<MetricText<K, A>>
        ensures { Makes (line_of (plain_metric (prefix.now ++ key.now) (numbers_of value) K.TYPE))
            result }
    {
        let head = Head {
            prefix,
            key,
            value,
            kind: K::TYPE,
        };
        let line = DraftLine::new(alloc, &head, "", None, 0)?.into_text()?;
        Ok(MetricText::from(line))
    }
}

impl<A: Allocator + Clone> Counter<A> {
    /// Makes the line of one number. The prefix is used as it is. The only error has the kind `OutOfMemory`.
    pub fn new(alloc: A, prefix: &str, key: &str, count: i64) -> MetricResult<Counter<A>>
        ensures { MakesLine kind.Counter prefix.now key.now (whole count) result }
    {
        Counter::plain(alloc, prefix, key, MetricValue::Signed(count))
    }
}

impl<A: Allocator + Clone> Timer<A> {
    /// Makes the line of one number. The prefix is used as it is. The only error has the kind `OutOfMemory`.
    pub fn new(alloc: A, prefix: &str, key: &str, milliseconds: u64) -> MetricResult<Timer<A>>
        ensures { MakesLine kind.Timer prefix.now key.now (natural milliseconds) result }
    {
        Timer::plain(alloc, prefix, key, MetricValue::Unsigned(milliseconds))
    }
}

impl<A: Allocator + Clone> Gauge<A> {
    /// Makes the line of one number. The prefix is used as it is. The only error has the kind `OutOfMemory`.
    pub fn new(alloc: A, prefix: &str, key: &str, value: u64) -> MetricResult<Gauge<A>>
        ensures { MakesLine kind.Gauge prefix.now key.now (natural value) result }
    {
        Gauge::plain(alloc, prefix, key, MetricValue::Unsigned(value))
    }

    /// Makes the line of one decimal. The prefix is used as it is. The only error has the kind `OutOfMemory`.
    pub fn new_decimal(alloc: A, prefix: &str, key: &str, value: Decimal) -> MetricResult<Gauge<A>>
        ensures { MakesLine kind.Gauge prefix.now key.now (value) result }
    {
        Gauge::plain(alloc, prefix, key, MetricValue::Decimal(value))
    }
}

impl<A: Allocator + Clone> Meter<A> {
    /// Makes the line of one number. The prefix is used as it is. The only error has the kind `OutOfMemory`.
    pub fn new(alloc: A, prefix: &str, key: &str, marks: u64) -> MetricResult<Meter<A>>
        ensures { MakesLine kind.Meter prefix.now key.now (natural marks) result }
    {
        Meter::plain(alloc, prefix, key, MetricValue::Unsigned(marks))
    }
}

impl<A: Allocator + Clone> Histogram<A> {
    /// Makes the line of one number. The prefix is used as it is. The only error has the kind `OutOfMemory`.
    pub fn new(alloc: A, prefix: &str, key: &str, sample: u64) -> MetricResult<Histogram<A>>
        ensures { MakesLine kind.Histogram prefix.now key.now (natural sample) result }
    {
        Histogram::plain(alloc, prefix, key, MetricValue::Unsigned(sample))
    }

    /// Makes the line of one decimal. The prefix is used as it is. The only error has the kind `OutOfMemory`.
    pub fn new_decimal(alloc: A, prefix: &str, key: &str, sample: Decimal) -> MetricResult<Self>
        ensures { MakesLine kind.Histogram prefix.now key.now (sample) result }
    {
        Histogram::plain(alloc, prefix, key, MetricValue::Decimal(sample))
    }
}

impl<A: Allocator + Clone> Distribution<A> {
    /// Makes the line of one number. The prefix is used as it is. The only error has the kind `OutOfMemory`.
    pub fn new(alloc: A, prefix: &str, key: &str, observation: u64) -> MetricResult<Distribution<A>>
        ensures { MakesLine kind.Distribution prefix.now key.now (natural observation) result }
    {
        Distribution::plain(alloc, prefix, key, MetricValue::Unsigned(observation))
    }

    /// Makes the line of one decimal. The prefix is used as it is. The only error has the kind `OutOfMemory`.
    pub fn new_decimal(alloc: A, prefix: &str, key: &str, value: Decimal) -> MetricResult<Self>
        ensures { MakesLine kind.Distribution prefix.now key.now (value) result }
    {
        Distribution::plain(alloc, prefix, key, MetricValue::Decimal(value))
    }
}

impl<A: Allocator + Clone> Set<A> {
    /// Makes the line of one number. The prefix is used as it is. The only error has the kind `OutOfMemory`.
    pub fn new(alloc: A, prefix: &str, key: &str, member: i64) -> MetricResult<Set<A>>
        ensures { MakesLine kind.Set prefix.now key.now (whole member) result }
    {
        Set::plain(alloc, prefix, key, MetricValue::Signed(member))
    }
}

/// Makes the metric whose text is this string.
impl<K, A: Allocator> From<String<A>> for MetricText<K, A> {
    ghost from_gives = { λ line text. text ≡ string_bytes line };

    fn from(line: String<A>) -> MetricText<K, A> {
        let kind = PhantomData;
        MetricText { line, kind }
    }
}

impl<K, A: Allocator> Metric for MetricText<K, A> {
    ghost metric_text = { λ text. text };

    fn as_metric_str(&self) -> &str {
        self.line.as_str()
    }
}

/// Prints the text in quotes.
impl<K, A: Allocator> fmt::Debug for MetricText<K, A> {
    fn fmt<W: fmt::Write>(&self, f: &mut fmt::Formatter<W>) -> fmt::Result {
        let text = self.line.as_str();
        write!(f, "{text:?}")
    }
}

/// Two metrics of one kind are equal if and only if their texts are equal.
impl<K, A: Allocator> PartialEq for MetricText<K, A> {
    ghost eq = { bytes_eq };

    ghost laws = { Prim.search (comparing, rules) };

    fn eq(&self, other: &MetricText<K, A>) -> bool {
        self.line == other.line
    }
}

impl<K, A: Allocator> Eq for MetricText<K, A> {
    ghost laws = { Prim.search (comparing, rules) };
}

/// Hashes the text, so that equal metrics have equal hashes.
impl<K, A: Allocator> Hash for MetricText<K, A> {
    ghost hash_input = { writes.str };

    ghost respects_eq = { Prim.search (hashing, rules) };

    fn hash<H: Hasher>(&self, state: &mut H) {
        self.line.hash(state);
    }
}
