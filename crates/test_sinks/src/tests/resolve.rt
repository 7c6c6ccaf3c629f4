//! Resolvers: each request for memory of a first lookup refused, how often and after which time a host is looked up
//! again, and the address and the counts after that. The sleeper of the tests doesn't sleep.
use cadence_errors::{MetricError, SinkError};
use cadence_flow::{Handler, SinkErrorHandler};
use cadence_resolve::{
    Family, Lookup, NameLookup, PeriodicResolver, Resolver, Runtime, Sleeper, Target,
};
use std::alloc::Global;
use std::net::{Ipv4Addr, SocketAddr};
use std::sync::atomic::{AtomicU64, Ordering};
use std::sync::{Arc, Wait};
use std::test::Fail;
use std::time::Duration;
use test_tools::{RefusingAllocator, each_refused};

fn loopback(port: u16) -> SocketAddr {
    SocketAddr::from((Ipv4Addr::LOCALHOST, port))
}

fn lookup_of(alloc: Global, addresses: &[SocketAddr]) -> Lookup {
    Ok(Vec::from_slice(alloc, addresses)?)
}

// Returns whether the heap had all the memory for a resolver of a name. If it hadn't, its error has to be `OutOfMemory`.
fn has_all_memory<R: Runtime>(rt: &R, heap: RefusingAllocator<Global>) -> Result<bool, Fail> {
    let Ok(host) = String::from_str(heap.clone()?, "localhost") else {
        return Ok(false);
    };
    let (name, hour) = (Target::Name { host, port: 8125 }, Duration::from_secs(3600));
    match Resolver::new(rt, &heap, name, Family::V4, Some(hour), None) {
        Ok(resolver) => Ok(resolver.get_addr().port() == 8125),
        Err(MetricError::Sink(SinkError::OutOfMemory)) => Ok(false),
        Err(_) => Err(Fail::new("another error")),
    }
}

#[test]
fn each_request_of_a_first_lookup_is_refused_in_turn(rt: HostRuntime) -> Result<(), Fail> {
    let granted: Result<Option<u64>, Fail> = each_refused(
        rt.alloc(),
        |heap| has_all_memory(&rt, heap),
    );
    assert!(rt; granted? > Some(1));
    Ok(())
}

// A lookup that returns an address the second time, and an error every other time. It counts its calls.
#[derive(Drop)]
struct ChangingLookup {
    alloc: Global,
    asked: Arc<AtomicU64>,
}

impl NameLookup<Global> for ChangingLookup {
    fn look_up(&self) -> Lookup {
        match self.asked.fetch_add(1, Ordering::SeqCst) {
            1 => lookup_of(self.alloc, &[loopback(1)]),
            _ => Err(SinkError::PacketRefused),
        }
    }
}

// A sleeper that doesn't sleep. It notes how many nanoseconds it should, and stops its resolver in the call that finds
// `left` at 1.
#[derive(Drop)]
struct StoppingSleeper<R: Wait + Drop> {
    resolver: Arc<PeriodicResolver<R>>,
    left: AtomicU64,
    noted: AtomicU64,
}

impl<R: Wait + Drop> Sleeper for StoppingSleeper<R> {
    fn sleep(&self, time: Duration) {
        let nanos = u64::try_from(time.as_nanos()).unwrap_or(u64::MAX);
        self.noted.store(nanos, Ordering::SeqCst);
        if self.left.fetch_sub(1, Ordering::SeqCst) == 1 {
            self.resolver.stop();
        }
    }
}

// Makes a resolver with this period whose first lookup found one address, with port 8125.
fn new_resolver<R: Wait + Drop>(
    rt: R,
    alloc: Global,
    period: Duration,
) -> Result<Arc<PeriodicResolver<R>>, Fail> {
    let first = lookup_of(alloc, &[loopback(8125)]);
    let resolver = PeriodicResolver::new(rt, first, period)?;
    Ok(Arc::new(alloc, resolver)?)
}

// Runs the resolver until it is stopped, at the latest in the sleep with the number `sleeps`. Returns how often it
// looked up, and how many nanoseconds its last sleep should be, at most `u64::MAX`.
fn run<R: Wait + Drop>(
    resolver: &Arc<PeriodicResolver<R>>,
    alloc: Global,
    sleeps: u64,
    handler: &Option<Handler>,
) -> Result<(u64, u64), Fail> {
    let asked = Arc::new(alloc, AtomicU64::new(0))?;
    let sleeper = StoppingSleeper {
        resolver: resolver.clone()?,
        left: AtomicU64::new(sleeps),
        noted: AtomicU64::new(0),
    };
    let lookup = ChangingLookup {
        alloc,
        asked: asked.clone()?,
    };
    resolver.run(&lookup, &sleeper, handler);
    let noted = sleeper.noted.load(Ordering::SeqCst);
    Ok((asked.load(Ordering::SeqCst), noted))
}

// Runs a new resolver until it is stopped in the sleep with the number `sleeps`, or at once if that is 0. Returns its
// port, how often it looked up, how often its handler was called, and its counts of successes and failures.
fn run_and_count<R: Wait + Drop>(rt: R, alloc: Global, sleeps: u64) -> Result<[u64; 5], Fail> {
    let resolver = new_resolver(rt, alloc, Duration::from_secs(1))?;
    let handled = Arc::new(alloc, AtomicU64::new(0))?;
    let theirs = handled.clone()?;
    let handler: SinkErrorHandler = Box::new(alloc, move |_| {
        theirs.fetch_add(1, Ordering::SeqCst);
    })?;
    if sleeps == 0 {
        resolver.stop();
    }
    let (asked, _) = run(&resolver, alloc, sleeps, &Some(Handler::new(handler)))?;
    Ok([
        u64::from(resolver.get_addr().port()),
        asked,
        handled.load(Ordering::SeqCst),
        resolver.successes(),
        resolver.failures(),
    ])
}

#[test]
fn a_stop_in_the_nth_sleep_allows_n_lookups(rt: HostRuntime) -> Result<(), Fail> {
    for (sleeps, wanted) in [
        (0, [8125, 0, 0, 0, 0]),
        (1, [8125, 1, 1, 0, 1]),
        (3, [1, 3, 2, 1, 2]),
    ] {
        assert_eq!(rt; run_and_count(rt.clone()?, rt.alloc(), sleeps)?, wanted);
    }
    Ok(())
}

#[test]
fn a_dropped_resolver_ends_its_run(rt: HostRuntime) -> Result<(), Fail> {
    let resolver = new_resolver(rt.clone()?, rt.alloc(), Duration::from_secs(1))?;
    let held = Resolver::Periodic(resolver.clone()?);
    assert!(rt; held.get_addr() == loopback(8125));
    drop(held);
    assert!(rt; run(&resolver, rt.alloc(), 1, &None)?.0 == 0);
    Ok(())
}

#[test]
fn a_period_counts_as_a_millisecond_at_least(rt: HostRuntime) -> Result<(), Fail> {
    let periods = [
        (Duration::ZERO, 1_000_000),
        (Duration::from_nanos(999_999), 1_000_000),
        (Duration::from_nanos(1_000_001), 1_000_001),
        (Duration::MAX, u64::MAX),
    ];
    for (period, nanos) in periods {
        let resolver = new_resolver(rt.clone()?, rt.alloc(), period)?;
        assert_eq!(rt; run(&resolver, rt.alloc(), 1, &None)?.1, nanos);
    }
    Ok(())
}
