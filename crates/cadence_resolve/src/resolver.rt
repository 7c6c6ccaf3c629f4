//! The resolver of a UDP sink: a static one, which looks its target up once, or a periodic one.
ghost use Rattle.std.specs.Prelude.{◌≡◌, IfErr, IfOk, None, is_some};
ghost use Rattle.cadence_resolve.specs.Refusals.{IsSocketRefusal, IsTargetRefusal};

use super::lookup::TargetLookup;
use super::{Family, PeriodicResolver, Runtime, Target, address_of};
use cadence_errors::MetricResult;
use cadence_flow::Handler;
use cadence_flow::thread::{Job, start};
use std::alloc::Allocator;
use std::marker::Model;
use std::net::{Net, SocketAddr};
use std::sync::{Arc, Wait};
use std::time::{Clock, Duration};

/// A resolver that looks its target up once. It stores the address that its target had when it was made.
#[derive(Drop)]
pub struct StaticResolver {
    address: SocketAddr,
}

impl Model for StaticResolver {
    ghost use Rattle.std.specs.declared.net.socket_addr.SocketAddr.{SocketAddr};

    ghost Value = { SocketAddr };

    ghost view = { λ r. r.address };
}

impl StaticResolver {
    ghost use Rattle.cadence_resolve.specs.Lookups.{IsAddressOf};

    /// Makes a resolver of this target for a socket of this family. A host's name is looked up now. The address is the
    /// one that `address_of` returns, with the same errors.
    pub fn new<A: Allocator>(
        net: &impl Net,
        target: &Target<A>,
        family: Family,
    ) -> MetricResult<Self>
        ensures { IsAddressOf target.now result }
    {
        let address = address_of(net, target, family)?;
        Ok(StaticResolver { address })
    }

    /// Returns the address that the target had when the resolver was made.
    pub fn get_addr(&self) -> SocketAddr
        ensures { result ≡ self.now }
    {
        self.address
    }
}

/// The resolver of a sink, which returns the address that the sink sends to. Its drop stops the lookups and wakes their
/// thread, which then ends after one more lookup at the latest. The drop doesn't wait for that.
pub enum Resolver<R: Wait + Drop, A: Allocator> {
    /// The target was looked up once, when the resolver was made.
    Static(StaticResolver),
    /// A thread looks the target up again after each period.
    Periodic(Arc<PeriodicResolver<R>, A>),
}

impl<R: Wait + Drop, A: Allocator> Resolver<R, A> {
    ghost use Rattle.cadence_resolve.specs.Lookups.{AnswersAddress};

    /// Returns the address.
    pub fn get_addr(&self) -> SocketAddr
        ensures { AnswersAddress self.now result }
    {
        match self {
            Resolver::Static(resolver) => resolver.get_addr(),
            Resolver::Periodic(resolver) => resolver.get_addr(),
        }
    }

    /// Tells the resolver that the system refused a packet to the address. A periodic resolver then looks the target up
    /// soon, as `PeriodicResolver::note_refusal` says.
    pub fn note_refusal(&self) {
        if let Resolver::Periodic(resolver) = self {
            resolver.note_refusal();
        }
    }
}

impl<R: Wait + Drop, A: Allocator> Drop for Resolver<R, A> {
    fn drop(self) {
        match self {
            Resolver::Static(resolver) => drop(resolver),
            Resolver::Periodic(resolver) => resolver.stop(),
        }
    }
}

impl<R: Runtime, A: Allocator + Clone + Send + Sync + 'static> Resolver<R, A> {
    ghost use Rattle.cadence_resolve.specs.Lookups.{KeepsAddress, is_periodic};

    /// Looks the target up and makes a resolver for a socket of this family. It is a static one if there is no period.
    /// Otherwise it is a periodic one, and this call starts its thread. A period below one millisecond counts as one
    /// millisecond.
    ///
    /// The errors are `SinkError::Io` if the lookup fails or the thread can't be started, `SinkError::OutOfMemory`, and
    /// the kind `InvalidInput` if the name has no address.
    pub fn new(
        rt: &R,
        alloc: &A,
        target: Target<A>,
        family: Family,
        period: Option<Duration>,
        handler: Option<Handler>,
    ) -> MetricResult<Self>
        ensures made { IfOk result (λ r. is_periodic r ≡ is_some period) }
        ensures address { IfOk result (λ r. KeepsAddress r target) }
        ensures refused { IfErr result (λ e. IsSocketRefusal e) }
        ensures once { period ≡ None → IfErr result (λ e. IsTargetRefusal target e) }
    {
        let Some(period) = period else {
            let resolver = StaticResolver::new(rt, &target, family)?;
            return Ok(Resolver::Static(resolver));
        };
        let lookup = TargetLookup {
            rt: rt.clone()?,
            alloc: alloc.clone()?,
            target,
            family,
        };
        let resolver = PeriodicResolver::new(rt.clone()?, lookup.addresses(), period)?;
        let resolver = Arc::new(alloc.clone()?, resolver)?;
        let lookups = Lookups {
            resolver: resolver.clone()?,
            lookup,
        };
        start(rt, lookups, handler)?;
        Ok(Resolver::Periodic(resolver))
    }
}

// What the thread of a periodic resolver needs besides the handler.
#[derive(Drop)]
struct Lookups<R: Net + Wait + Clock + Drop, A: Allocator + Clone> {
    resolver: Arc<PeriodicResolver<R>, A>,
    lookup: TargetLookup<R, A>,
}

impl<R: Net + Wait + Clock + Drop, A: Allocator + Clone> Job<Option<Handler>> for Lookups<R, A> {
    fn run(self, handler: Option<Handler>) {
        self.resolver.run(&self.lookup, &*self.resolver, &handler)
    }
}
