//! Each request for memory of the environment refused in turn.
use crate::tests::steps::is_made;
use cadence::Runtime;
use cadence::prelude::*;
use cadence::types::{ErrorKind, MetricError, MetricResult};
use cadence_agent::{Environment, EnvironmentError, EnvironmentExt, EnvironmentSink, sink_to};
use std::alloc::Global;
use std::test::Fail;
use test_tools::given::Given;
use test_tools::{RefusingAllocator, each_refused};

// The heap of these tests.
type Heap = RefusingAllocator<Global>;

const GIVEN: Given<'static> = Given {
    variables: b"DD_DOGSTATSD_URL=udp://127.0.0.1:9;DD_ENV=prod;DD_TAGS=a:b, c;DD_ENTITY_ID=id",
};

// More than the requests of any attempt. The countdown of a heap that refused one has passed 0, and is greater.
const MOST_REQUESTS: u64 = 1000;

// Returns whether the environment was read, and no request was refused. Only a refused request may be why it isn't read.
// A list that is refused more room than it needs asks again, so not each refusal is an error.
fn is_read(heap: &Heap) -> Result<bool, Fail> {
    match Environment::read(&(GIVEN, heap)) {
        Ok(environment) if environment.tags().len() == 4 => Ok(heap.left() <= MOST_REQUESTS),
        Ok(_) => Err(Fail::new("a tag is lost")),
        Err(EnvironmentError::OutOfMemory) => Ok(false),
        Err(error) => Err(Fail::new(error)),
    }
}

#[test]
fn each_request_of_a_reading_may_be_refused(rt: HostRuntime) -> Result<(), Fail> {
    let granted = each_refused(rt.alloc(), |heap| is_read(&heap))?;
    // Six variables, the host, and four tags with three keys take a request each.
    assert!(rt; granted.is_some_and(|granted| granted >= 14));
    Ok(())
}

// Makes a client of what the environment says, and sends a line of it.
fn send_line<R: Runtime>(rt: &R, alloc: Global, heap: Heap) -> MetricResult<()> {
    let environment = Environment::read(&(GIVEN, alloc))?;
    let sink = sink_to(rt, heap.clone()?, environment.destination())?;
    let client = environment.builder(heap, "p", sink).build()?;
    client.count("k", 1)?;
    if let EnvironmentSink::Unix(_) = client.sink() {
        return Err(MetricError::from((ErrorKind::InvalidInput, "a path")));
    }
    Ok(())
}

#[test]
fn each_request_of_a_client_may_be_refused(rt: HostRuntime) -> Result<(), Fail> {
    let granted = each_refused(rt.alloc(), |heap| is_made(send_line(&rt, rt.alloc(), heap)))?;
    assert!(rt; granted.is_some_and(|granted| granted > 10));
    Ok(())
}
