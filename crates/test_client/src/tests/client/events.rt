//! Events and service checks that a client sends with its defaults, one of which has a colon that no text of a call may
//! have. The rows give each option of a builder, and each request for memory is refused in turn.

use super::sending::make_counter;
use cadence::client::{
    AlertType, EventBuilder, Priority, ServiceCheckBuilder, ServiceStatus, StatsdClient,
};
use cadence::line::Tag;
use cadence::sinks::MetricSink;
use cadence::types::{MetricError, MetricResult, SinkError};
use cadence_events::{Event, ServiceCheck};
use std::alloc::Global;
use std::sync::Arc;
use std::sync::atomic::{AtomicU64, Ordering};
use std::test::Fail;
use test_tools::{RefusingAllocator, each_refused};

// A sink that takes this line and no other, and counts its calls.
#[derive(Drop)]
struct OneLineSink {
    line: &'static str,
    calls: Arc<AtomicU64>,
}

impl MetricSink for OneLineSink {
    ghost may_answer = { λ _ _ _. Unit {0} };

    fn emit(&self, line: &str) -> Result<usize, SinkError> {
        self.calls.fetch_add(1, Ordering::SeqCst);
        if line == self.line {
            Ok(line.len())
        } else {
            Err(SinkError::NothingWritten)
        }
    }

    ghost flush_may_succeed = { λ _ _. tt };
}

// The client of these tests.
type Client = StatsdClient<RefusingAllocator<Global>, OneLineSink>;

// What a row sends.
enum News {
    Event(Event<'static>),
    Check(ServiceCheck<'static>),
}

// What a row wants: the line that is sent, or the text of the error, and how many requests for memory the call makes.
type Wanted = (Result<&'static str, &'static str>, u64);

const PROD: Tag<'static> = Tag {
    key: Some("env"),
    text: "prod",
};

const BETA: Tag<'static> = Tag {
    key: None,
    text: "beta",
};

const PLAIN: Event<'static> = Event {
    title: "a",
    text: "b",
    time: None,
    host: None,
    key: None,
    priority: None,
    source: None,
    alert: None,
    tags: &[],
    container: None,
};

const WEB: ServiceCheck<'static> = ServiceCheck {
    name: "web",
    status: ServiceStatus::Ok,
    time: None,
    host: None,
    tags: &[],
    container: None,
    message: None,
};

// A call takes memory for the line, and once more if it has tags of its own.
const ROWS: &[(News, Wanted)] = &[
    (
        News::Event(PLAIN),
        (Ok("_e{1,1}:a|b|#image:nginx:1.25,c|c:id"), 1),
    ),
    (
        News::Event(Event {
            title: "one\ntwo",
            text: "a|b:\n",
            ..PLAIN
        }),
        (Ok("_e{8,6}:one\\ntwo|a|b:\\n|#image:nginx:1.25,c|c:id"), 1),
    ),
    (
        News::Event(Event {
            time: Some(1656581400),
            host: Some("web-1"),
            key: Some("deploys"),
            priority: Some(Priority::Low),
            source: Some("jenkins"),
            alert: Some(AlertType::Success),
            tags: &[PROD, BETA],
            container: Some("4bb1"),
            ..PLAIN
        }),
        (
            Ok(
                "_e{1,1}:a|b|d:1656581400|h:web-1|k:deploys|p:low|s:jenkins|t:success|#image:nginx:1.25,c,env:prod,beta|c:4bb1",
            ),
            2,
        ),
    ),
    (
        News::Event(Event {
            host: Some("web|1"),
            container: Some("a:b"),
            ..PLAIN
        }),
        (Err("separator in the host"), 0),
    ),
    (
        News::Event(Event {
            tags: &[
                BETA,
                Tag {
                    key: None,
                    text: "a\nb",
                },
            ],
            ..PLAIN
        }),
        (Err("separator in a tag"), 1),
    ),
    (
        News::Check(WEB),
        (Ok("_sc|web|0|#image:nginx:1.25,c|c:id"), 1),
    ),
    (
        News::Check(ServiceCheck {
            status: ServiceStatus::Critical,
            time: Some(1656581400),
            host: Some("web-1"),
            tags: &[PROD, BETA],
            container: Some("4bb1"),
            message: Some("m:slow\nagain"),
            ..WEB
        }),
        (
            Ok(
                "_sc|web|2|d:1656581400|h:web-1|#image:nginx:1.25,c,env:prod,beta|c:4bb1|m:m\\:slow\\nagain",
            ),
            2,
        ),
    ),
    (
        News::Check(ServiceCheck { name: "a|b", ..WEB }),
        (Err("separator in the name of a service check"), 0),
    ),
    (
        News::Check(ServiceCheck {
            message: Some("a|b"),
            ..WEB
        }),
        (Err("bar in the message of a service check"), 0),
    ),
];

// What a client that cleans texts sends.
const CLEANED_ROWS: &[(News, Wanted)] = &[
    (
        News::Event(Event {
            title: "a|b",
            text: "c:d",
            host: Some("web|1"),
            key: Some("a:b"),
            source: Some(","),
            tags: &[
                Tag {
                    key: Some("k|"),
                    text: "v:w,x",
                },
                Tag {
                    key: None,
                    text: "a:b\n",
                },
            ],
            container: Some("a:b"),
            ..PLAIN
        }),
        (
            Ok("_e{3,3}:a|b|c:d|h:web_1|k:a_b|s:_|#image:nginx:1.25,c,k_:v:w_x,a_b_|c:a_b"),
            2,
        ),
    ),
    (
        News::Event(PLAIN),
        (Ok("_e{1,1}:a|b|#image:nginx:1.25,c|c:id"), 1),
    ),
    (
        News::Check(ServiceCheck {
            name: "a|b",
            host: Some("\n"),
            message: Some("m:|no|"),
            ..WEB
        }),
        (Ok("_sc|a_b|0|h:_|#image:nginx:1.25,c|c:id|m:m\\:_no_"), 1),
    ),
];

// How many requests the client takes. One that cleans texts takes one more, for its prefix.
const REQUESTS_OF_CLIENT: u64 = 8;

// Makes a client with default tags and a container, whose sink takes this line.
fn make_client(
    heap: &RefusingAllocator<Global>,
    line: &'static str,
    calls: Arc<AtomicU64>,
    is_cleaned: bool,
) -> MetricResult<Client> {
    let mut builder = StatsdClient::builder(heap.clone()?, "p", OneLineSink { line, calls });
    if is_cleaned {
        builder = builder.with_cleaned_texts();
    }
    builder
        .with_tag("image", "nginx:1.25")
        .with_tag_value("c")
        .with_container_id("id")
        .build()
}

type EventCall<'a> = EventBuilder<'a, 'a, Client>;

type CheckCall<'a> = ServiceCheckBuilder<'a, 'a, Client>;

// Adds the time, the host and the container of a row.
fn with_common<'a>(mut call: EventCall<'a>, row: &Event<'static>) -> EventCall<'a> {
    if let Some(time) = row.time {
        call = call.with_timestamp(time);
    }
    if let Some(host) = row.host {
        call = call.with_hostname(host);
    }
    if let Some(container) = row.container {
        call = call.with_container_id(container);
    }
    call
}

// Adds what service checks don't have.
fn with_own<'a>(mut call: EventCall<'a>, row: &Event<'static>) -> EventCall<'a> {
    if let Some(key) = row.key {
        call = call.with_aggregation_key(key);
    }
    if let Some(priority) = row.priority {
        call = call.with_priority(priority);
    }
    if let Some(source) = row.source {
        call = call.with_source_type(source);
    }
    if let Some(alert) = row.alert {
        call = call.with_alert_type(alert);
    }
    call
}

// Sends the event of a row.
fn send_event(client: &Client, row: &Event<'static>) -> MetricResult<()> {
    let mut call = client.event(row.title, row.text);
    for tag in row.tags {
        call = match tag.key {
            Some(key) => call.with_tag(key, tag.text),
            None => call.with_tag_value(tag.text),
        };
    }
    with_own(with_common(call, row), row).try_send()
}

// Adds the options of a row.
fn with_options<'a>(mut call: CheckCall<'a>, row: &ServiceCheck<'static>) -> CheckCall<'a> {
    if let Some(time) = row.time {
        call = call.with_timestamp(time);
    }
    if let Some(host) = row.host {
        call = call.with_hostname(host);
    }
    if let Some(message) = row.message {
        call = call.with_message(message);
    }
    if let Some(container) = row.container {
        call = call.with_container_id(container);
    }
    call
}

// Sends the service check of a row.
fn send_check(client: &Client, row: &ServiceCheck<'static>) -> MetricResult<()> {
    let mut call = client.service_check(row.name, row.status);
    for tag in row.tags {
        call = match tag.key {
            Some(key) => call.with_tag(key, tag.text),
            None => call.with_tag_value(tag.text),
        };
    }
    with_options(call, row).try_send()
}

// Sends what a row has.
fn send(client: &Client, news: &News) -> MetricResult<()> {
    match news {
        News::Event(event) => send_event(client, event),
        News::Check(check) => send_check(client, check),
    }
}

// Returns whether a call returned what its row wants. It may only be refused because memory runs out. A call that is
// sent calls the sink once, and any other one doesn't call it.
fn is_wanted(
    alloc: Global,
    sent: MetricResult<()>,
    wanted: &Wanted,
    calls: u64,
) -> Result<bool, Fail> {
    match (sent, wanted.0) {
        (Ok(()), Ok(_)) if calls == 1 => Ok(true),
        (Err(MetricError::Sink(SinkError::OutOfMemory)), _) if calls == 0 => Ok(false),
        (Err(error), Err(text)) if calls == 0 => {
            if format!(in alloc; "{error}")?.as_str() == text {
                return Ok(true);
            }
            Err(Fail::new("another error"))
        }
        _ => Err(Fail::new("another result")),
    }
}

// Makes a client and the call of a row. Returns whether there was memory for both.
fn makes_client_and_sends(
    alloc: Global,
    heap: &RefusingAllocator<Global>,
    row: &(News, Wanted),
    is_cleaned: bool,
) -> Result<bool, Fail> {
    let calls = make_counter(alloc)?;
    let line = match row.1.0 {
        Ok(line) => line,
        Err(_) => "",
    };
    match make_client(heap, line, calls.clone()?, is_cleaned) {
        Ok(client) => {
            let sent = send(&client, &row.0);
            is_wanted(alloc, sent, &row.1, calls.load(Ordering::SeqCst))
        }
        Err(error) => is_wanted(alloc, Err(error), &row.1, 0),
    }
}

#[test]
fn events_and_service_checks_have_defaults(rt: HostRuntime) -> Result<(), Fail> {
    let alloc = rt.alloc();
    for row in ROWS {
        let granted = each_refused(alloc, |heap: RefusingAllocator<Global>| {
            makes_client_and_sends(alloc, &heap, row, false)
        })?;
        assert_eq!(rt; granted, Some(REQUESTS_OF_CLIENT.wrapping_add(row.1.1)));
    }
    Ok(())
}

#[test]
fn texts_of_events_and_service_checks_are_cleaned(rt: HostRuntime) -> Result<(), Fail> {
    let alloc = rt.alloc();
    for row in CLEANED_ROWS {
        let granted = each_refused(alloc, |heap: RefusingAllocator<Global>| {
            makes_client_and_sends(alloc, &heap, row, true)
        })?;
        assert_eq!(rt; granted, Some(REQUESTS_OF_CLIENT.wrapping_add(1).wrapping_add(row.1.1)));
    }
    Ok(())
}
