//! Makes the call of a row: each call of a client, with each type of its value, in each way to send it.
use crate::clients::Client;
use crate::rows::{duration, durations, number, numbers, unreadable};
use cadence::decimal::Decimal;
use cadence::ext::{
    ToCounterValue, ToDistributionValue, ToGaugeValue, ToHistogramValue, ToMeterValue, ToSetValue,
    ToTimerValue,
};
use cadence::prelude::*;
use cadence::types::{Metric, MetricResult};
use cadence::{Cardinality, Chance, MetricBuilder};
use std::alloc::Global;
use std::sync::Wait;

/// How a call is sent.
#[derive(Clone, Copy, PartialEq, Eq)]
pub enum Way {
    /// By the call without a builder.
    Plain,
    /// By a builder, which returns the metric or the error.
    TrySend,
    /// By a builder, which gives an error to the handler.
    Send,
}

/// All three.
pub const WAYS: [Way; 3] = [Way::Plain, Way::TrySend, Way::Send];

/// A call: its name with the type of its value, the value, the key, and pairs of an option's name and its text.
#[derive(Drop)]
pub struct Call<'a, R: Wait + Clone + Drop> {
    pub alloc: Global,
    pub client: &'a Client<R>,
    pub way: Way,
    pub name: &'a str,
    pub value: &'a str,
    pub key: &'a str,
    pub options: &'a [String],
}

type Builder<'a, T, R> = MetricBuilder<'a, 'a, T, Client<R>>;

// Adds an option. If its text can't be read, the text becomes a tag, so that another line is sent than the row wants.
fn choose<'a, T: Metric + From<String>, R: Wait + Clone + Drop>(
    builder: Builder<'a, T, R>,
    name: &str,
    text: &'a str,
) -> Builder<'a, T, R> {
    match (name, text.split_once('=')) {
        ("tag", Some((key, text))) => builder.with_tag(key, text),
        ("container", _) => builder.with_container_id(text),
        ("cardinality", _) => match Cardinality::from_text(text) {
            Some(cardinality) => builder.with_cardinality(cardinality),
            None => builder.with_tag_value(text),
        },
        ("time", _) => match text.parse::<u64>() {
            Ok(time) => builder.with_timestamp(time),
            Err(_) => builder.with_tag_value(text),
        },
        ("rate", _) => match text.parse::<Decimal>() {
            Ok(rate) => builder.with_sampling_rate(rate),
            Err(_) => builder.with_tag_value(text),
        },
        _ => builder.with_tag_value(text),
    }
}

// Reads a chance, a slash and the number that is drawn.
fn sample_of(text: &str) -> Option<(Chance, u64)> {
    let (chance, draw) = text.split_once('/')?;
    let chance = Chance::new(chance.parse::<Decimal>().ok()?)?;
    Some((chance, draw.parse::<u64>().ok()?))
}

// Drops the metric that was sent.
fn end<T: Drop>(sent: MetricResult<T>) -> MetricResult<()> {
    sent?;
    Ok(())
}

impl<'a, R: Wait + Clone + Drop> Call<'a, R> {
    // Sends the metric, or a sample of it.
    fn finish<T: Metric + From<String> + Drop>(
        &self,
        builder: Builder<'a, T, R>,
        sample: Option<(Chance, u64)>,
    ) -> MetricResult<()> {
        match (self.way, sample) {
            (Way::Send, None) => builder.send(),
            (Way::Send, Some((chance, draw))) => builder.send_sampled(chance, draw),
            (_, None) => return end(builder.try_send()),
            (_, Some((chance, draw))) => return end(builder.try_send_sampled(chance, draw)),
        }
        Ok(())
    }

    // Returns the chance and the number drawn of the option `sample`, if the row has it.
    fn sample(&self) -> Option<(Chance, u64)> {
        for pair in self.options.chunks(2) {
            if let [name, text] = pair {
                if name.as_str() == "sample" {
                    return sample_of(text);
                }
            }
        }
        None
    }

    // Adds the options other than `sample`.
    fn choose_all<T: Metric + From<String> + Drop>(
        &self,
        mut builder: Builder<'a, T, R>,
    ) -> Builder<'a, T, R> {
        for pair in self.options.chunks(2) {
            if let [name, text] = pair {
                if name.as_str() != "sample" {
                    builder = choose(builder, name, text);
                }
            }
        }
        builder
    }

    // Adds the options, and sends the metric.
    fn send<T: Metric + From<String> + Drop>(
        &self,
        builder: Builder<'a, T, R>,
    ) -> MetricResult<()> {
        self.finish(self.choose_all(builder), self.sample())
    }

    fn count<T: ToCounterValue<Global>>(&self, value: T) -> MetricResult<()> {
        match self.way {
            Way::Plain => end(self.client.count(self.key, value)),
            _ => self.send(self.client.count_with_tags(self.key, value)),
        }
    }

    fn time<T: ToTimerValue<Global>>(&self, value: T) -> MetricResult<()> {
        match self.way {
            Way::Plain => end(self.client.time(self.key, value)),
            _ => self.send(self.client.time_with_tags(self.key, value)),
        }
    }

    fn gauge<T: ToGaugeValue<Global>>(&self, value: T) -> MetricResult<()> {
        match self.way {
            Way::Plain => end(self.client.gauge(self.key, value)),
            _ => self.send(self.client.gauge_with_tags(self.key, value)),
        }
    }

    fn meter<T: ToMeterValue<Global>>(&self, value: T) -> MetricResult<()> {
        match self.way {
            Way::Plain => end(self.client.meter(self.key, value)),
            _ => self.send(self.client.meter_with_tags(self.key, value)),
        }
    }

    fn histogram<T: ToHistogramValue<Global>>(&self, value: T) -> MetricResult<()> {
        match self.way {
            Way::Plain => end(self.client.histogram(self.key, value)),
            _ => self.send(self.client.histogram_with_tags(self.key, value)),
        }
    }

    fn distribution<T: ToDistributionValue<Global>>(&self, value: T) -> MetricResult<()> {
        match self.way {
            Way::Plain => end(self.client.distribution(self.key, value)),
            _ => self.send(self.client.distribution_with_tags(self.key, value)),
        }
    }

    fn set<T: ToSetValue<Global>>(&self, value: T) -> MetricResult<()> {
        match self.way {
            Way::Plain => end(self.client.set(self.key, value)),
            _ => self.send(self.client.set_with_tags(self.key, value)),
        }
    }

    fn set_text(&self) -> MetricResult<()> {
        match self.way {
            Way::Plain => end(self.client.set_text(self.key, self.value)),
            _ => self.send(self.client.set_text_with_tags(self.key, self.value)),
        }
    }

    fn change(&self, by: Decimal) -> MetricResult<()> {
        match self.way {
            Way::Plain => end(self.client.change(self.key, by)),
            _ => self.send(self.client.change_with_tags(self.key, by)),
        }
    }

    fn level(&self, value: Decimal) -> MetricResult<()> {
        if self.way == Way::Plain {
            return end(self.client.level(self.key, value));
        }
        let line = self.client.gauge_with_tags(self.key, value);
        if value.mantissa() >= 0 {
            return self.send(line);
        }
        let zero = self.choose_all(self.client.gauge_with_tags(self.key, 0u64));
        end(zero.try_send_before(self.choose_all(line)))
    }

    fn incr(&self) -> MetricResult<()> {
        match self.way {
            Way::Plain => end(self.client.incr(self.key)),
            _ => self.send(self.client.incr_with_tags(self.key)),
        }
    }

    fn decr(&self) -> MetricResult<()> {
        match self.way {
            Way::Plain => end(self.client.decr(self.key)),
            _ => self.send(self.client.decr_with_tags(self.key)),
        }
    }

    fn make_timer(&self) -> MetricResult<()> {
        match self.name {
            "time/u64" => self.time(number::<u64>(self.value)?),
            "time/decimal" => self.time(number::<Decimal>(self.value)?),
            "time/duration" => self.time(duration(self.value)?),
            "time/decimals" => self.time(numbers::<Decimal>(self.alloc, self.value)?),
            "time/u64s" => self.time(numbers::<u64>(self.alloc, self.value)?),
            "time/durations" => self.time(durations(self.alloc, self.value)?),
            _ => self.make_histogram(),
        }
    }

    fn make_histogram(&self) -> MetricResult<()> {
        match self.name {
            "histogram/u64" => self.histogram(number::<u64>(self.value)?),
            "histogram/decimal" => self.histogram(number::<Decimal>(self.value)?),
            "histogram/duration" => self.histogram(duration(self.value)?),
            "histogram/u64s" => self.histogram(numbers::<u64>(self.alloc, self.value)?),
            "histogram/decimals" => self.histogram(numbers::<Decimal>(self.alloc, self.value)?),
            "histogram/durations" => self.histogram(durations(self.alloc, self.value)?),
            _ => self.make_distribution(),
        }
    }

    fn make_distribution(&self) -> MetricResult<()> {
        match self.name {
            "distribution/u64" => self.distribution(number::<u64>(self.value)?),
            "distribution/decimal" => self.distribution(number::<Decimal>(self.value)?),
            "distribution/u64s" => self.distribution(numbers::<u64>(self.alloc, self.value)?),
            "distribution/decimals" => self.distribution(numbers::<Decimal>(
                self.alloc, self.value,
            )?),
            _ => Err(unreadable()),
        }
    }

    /// Makes the call. The error is that of the call, or that the row can't be read.
    pub fn make(&self) -> MetricResult<()> {
        match self.name {
            "incr" => self.incr(),
            "decr" => self.decr(),
            "count/i64" => self.count(number::<i64>(self.value)?),
            "count/i32" => self.count(number::<i32>(self.value)?),
            "count/u64" => self.count(number::<u64>(self.value)?),
            "count/u32" => self.count(number::<u32>(self.value)?),
            "gauge/u64" => self.gauge(number::<u64>(self.value)?),
            "gauge/decimal" => self.gauge(number::<Decimal>(self.value)?),
            "level/decimal" => self.level(number::<Decimal>(self.value)?),
            "meter/u64" => self.meter(number::<u64>(self.value)?),
            "change/decimal" => self.change(number::<Decimal>(self.value)?),
            "set/i64" => self.set(number::<i64>(self.value)?),
            "set/text" => self.set_text(),
            _ => self.make_timer(),
        }
    }
}
