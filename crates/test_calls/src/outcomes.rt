//! Whether each call of a row has the line or the error that the row wants.
use crate::calls::{Call, WAYS, Way};
use crate::clients::{Client, make_client};
use crate::rows::{is_row, unescaped, unreadable, words_of};
use cadence::ext::MetricBackend;
use cadence::sinks::{SpyMetricSink, SpyReceiver};
use cadence::types::{MetricError, MetricResult};
use std::alloc::Global;
use std::sync::Wait;

// A client, the lines that its sink gets, and the errors that its handler gets.
#[derive(Drop)]
struct Watched<R: Wait + Clone + Drop> {
    client: Client<R>,
    lines: SpyReceiver<R>,
    errors: SpyReceiver<R>,
}

// Makes a client from the words of a row, with its spies.
fn make_watched<R: Wait + Clone + Drop>(
    rt: &R,
    alloc: Global,
    words: &[String],
) -> MetricResult<Watched<R>> {
    let (lines, sink) = SpyMetricSink::new(rt.clone()?, alloc)?;
    let (errors, notes) = SpyMetricSink::new(rt.clone()?, alloc)?;
    let client = make_client(alloc, words, sink, notes)?;
    Ok(Watched {
        client,
        lines,
        errors,
    })
}

impl<R: Wait + Clone + Drop> Watched<R> {
    // Returns whether just this line came. If the wanted text begins with the word `refused`, just one error has to
    // have come instead, whose text follows that word. If it is the word `nothing`, neither may have come.
    fn has_got(&self, wanted: &[u8]) -> bool {
        let is_wanted = match (self.lines.try_recv(), self.errors.try_recv()) {
            (Some(line), None) => line.as_slice() == wanted,
            (None, Some(error)) => {
                wanted.strip_prefix("refused ".as_bytes()) == Some(error.as_slice())
            }
            (None, None) => wanted == "nothing".as_bytes(),
            _ => false,
        };
        is_wanted && self.lines.is_empty() && self.errors.is_empty()
    }

    // Makes the call of these words in this way, and returns whether just the wanted outcome came of it. If the call
    // returns an error, this gives the error to the handler. So if the call gave it to the handler too, the handler has
    // two errors, and the outcome is another one.
    fn is_right(&self, alloc: Global, way: Way, words: &[String], wanted: &[u8]) -> bool {
        let [name, value, key, options @ ..] = words else {
            return false;
        };
        let call = Call {
            alloc,
            client: &self.client,
            way,
            name,
            value,
            key,
            options,
        };
        if let Err(error) = call.make() {
            self.client.consume_error(error);
        }
        self.has_got(wanted)
    }

    // Returns whether the call of these words has this outcome in each way. A plain call has no options.
    fn is_right_in_each_way(&self, alloc: Global, words: &[String], wanted: &[u8]) -> bool {
        WAYS.iter().all(|way| {
            *way == Way::Plain && words.len() > 3 || self.is_right(alloc, *way, words, wanted)
        })
    }
}

// Returns whether a client was made, or was refused with the wanted text.
fn is_made_as_wanted<R: Wait + Clone + Drop>(
    alloc: Global,
    made: &MetricResult<Watched<R>>,
    wanted: &str,
) -> MetricResult<bool> {
    match made {
        Ok(_) => Ok(wanted == "made"),
        Err(error) => {
            let text = format!(in alloc; "{error}")?;
            Ok(wanted.strip_prefix("refused ") == Some(text.as_str()))
        }
    }
}

/// Makes the clients and the calls of rows, and returns how many rows there are, and each row with another outcome.
pub fn report<R: Wait + Clone + Drop>(rt: &R, alloc: Global, rows: &str) -> MetricResult<String> {
    let (mut text, mut count) = (String::new(alloc), 0u32);
    let mut watched = Err(unreadable());
    for row in rows.lines().filter(|line| is_row(line)) {
        let Some((made, wanted)) = row.split_once(" -> ") else {
            return Err(unreadable());
        };
        let words = words_of(alloc, made)?;
        let is_right = if made.starts_with("client ") {
            watched = make_watched(rt, alloc, &words);
            is_made_as_wanted(alloc, &watched, wanted)?
        } else if let Ok(watched) = &watched {
            watched.is_right_in_each_way(alloc, &words, &unescaped(alloc, wanted)?)
        } else {
            false
        };
        count = count.wrapping_add(1);
        if !is_right {
            writeln!(&mut text, "  another outcome: {row}")?;
        }
    }
    format!(in alloc; "{count} rows of calls\n{text}").map_err(MetricError::from)
}
