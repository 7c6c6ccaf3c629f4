//! A resolver that looks its name up again after each period, and after a refused packet.
use super::resolver_core::ResolverCore;
use super::{Lookup, NameLookup, PERIOD_AFTER_REFUSAL, Sleeper};
use cadence_errors::{MetricResult, SinkError};
use cadence_flow::Handler;
use std::alloc::Allocator;
use std::net::SocketAddr;
use std::sync::{Condvar, Mutex, Wait};
use std::thread;
use std::time::{Clock, Duration, Instant};

// The shortest sleep between two lookups, in milliseconds, so that the thread also sleeps if the period is 0.
const SHORTEST_SLEEP: u64 = 1;

// What the lock protects: the address, whether the resolver still runs, and whether a packet to the address was refused
// since the thread last woke up.
#[derive(Drop)]
struct State {
    core: ResolverCore,
    running: bool,
    is_refused: bool,
}

impl State {
    ghost use Rattle.std.specs.Prelude.{◌≡◌, false};

    fn stop(&mut self)
        ensures stopped { self.new.running ≡ false }
        ensures core { self.new.core ≡ self.old.core }
    {
        self.running = false;
    }
}

// Returns how long the thread sleeps between two lookups.
fn sleep_of(period: Duration) -> Duration {
    let shortest = Duration::from_millis(SHORTEST_SLEEP);
    if period < shortest { shortest } else { period }
}

/// A `ResolverCore` under a lock. One thread runs `run`, which looks the name up again after each period, or earlier after
/// a refused packet, while other threads read the address.
#[derive(Drop)]
pub struct PeriodicResolver<R: Wait + Drop> {
    rt: R,
    /// The time between two lookups.
    pub period: Duration,
    state: Mutex<State>,
    changed: Condvar,
}

impl<R: Wait + Drop> PeriodicResolver<R> {
    ghost use Rattle.std.specs.Prelude.{◌≡◌, ◌↔◌, ◌≢◌, [], IsOk, IfOk, IfErr};
    ghost use Rattle.cadence_resolve.specs.Address.{addresses_of};
    ghost use Rattle.cadence_resolve.specs.Lookups.{IsStartRefusal};

    /// Makes a resolver that starts with the first address of this lookup.
    ///
    /// If the lookup failed, its error is returned as `MetricError::Sink`. If it gave no address, the error has the
    /// kind `InvalidInput`.
    pub fn new<A: Allocator>(rt: R, first: Lookup<A>, period: Duration) -> MetricResult<Self>
        ensures made { IsOk result ↔ (addresses_of first ≢ []) }
        ensures refused { IfErr result (IsStartRefusal first) }
        ensures period { IfOk result (λ r. r.period ≡ period) }
    {
        let core = ResolverCore::new(first)?;
        Ok(PeriodicResolver {
            rt,
            period,
            state: Mutex::new(State {
                core,
                running: true,
                is_refused: false,
            }),
            changed: Condvar::new(),
        })
    }

    /// Runs until the resolver is stopped: it sleeps for a period, looks the name up, stores the result, passes an
    /// error to the handler, and begins again. A period below one millisecond counts as one millisecond. It checks for
    /// a stop before each sleep, so after a stop during a sleep it still does one lookup.
    pub fn run<A: Allocator, L: NameLookup<A>, S: Sleeper>(
        &self,
        lookup: &L,
        sleeper: &S,
        handler: &Option<Handler>,
    ) {
        let time = sleep_of(self.period);
        for _ in self.rt.forever() {
            if !self.is_running() {
                return;
            }
            sleeper.sleep(time);
            let found = lookup.look_up();
            let fault = self.note(found);
            if let (Some(fault), Some(handler)) = (fault, handler) {
                handler.handle(fault);
            }
        }
    }

    fn is_running(&self) -> bool {
        self.state.lock(&self.rt).running
    }

    fn note<A: Allocator>(&self, lookup: Lookup<A>) -> Option<SinkError> {
        self.state.lock(&self.rt).core.note(lookup)
    }

    /// Makes `run` end, after one more lookup at the latest, and wakes the resolver if it sleeps. This call doesn't wait
    /// for the end.
    pub fn stop(&self) {
        self.state.lock(&self.rt).stop();
        self.changed.notify_all();
    }

    /// Tells the resolver that the system refused a packet to the address. Its thread then looks the name up as soon as a
    /// second has passed since it last did, or a period if that is shorter.
    pub fn note_refusal(&self) {
        self.state.lock(&self.rt).is_refused = true;
        self.changed.notify_all();
    }

    /// Returns the first address of the last lookup that gave one.
    pub fn get_addr(&self) -> SocketAddr {
        self.state.lock(&self.rt).core.get_addr()
    }

    /// Returns the number of later lookups that gave an address, modulo 2 to the 64.
    pub fn successes(&self) -> u64 {
        self.state.lock(&self.rt).core.successes()
    }

    /// Returns the number of later lookups that failed or gave no address, modulo 2 to the 64.
    pub fn failures(&self) -> u64 {
        self.state.lock(&self.rt).core.failures()
    }
}

/// A stop of the resolver ends its sleep, and so does a refused packet, but only when a second has passed.
impl<R: Wait + Clock + Drop> Sleeper for PeriodicResolver<R> {
    fn sleep(&self, time: Duration) {
        // a wait for the stop is over at once if the clock can't be read
        if Instant::now(&self.rt).is_err() {
            return thread::sleep(&self.rt, time);
        }
        let least = time.min(Duration::from_secs(PERIOD_AFTER_REFUSAL));
        let state = self.state.lock(&self.rt);
        let (state, _) = self
            .changed
            .wait_timeout_while(&self.rt, state, least, |state| state.running);
        let left = time.saturating_sub(least);
        let (mut state, _) = self.changed.wait_timeout_while(
            &self.rt,
            state,
            left,
            |state| state.running && !state.is_refused,
        );
        state.is_refused = false;
    }
}
