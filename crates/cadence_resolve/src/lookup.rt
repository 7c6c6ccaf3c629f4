//! Lookups of a name, and the sleep between two of them.
ghost use Rattle.std.specs.Prelude.{IfErr};
ghost use Rattle.cadence_resolve.specs.Refusals.{IsLookupFault};

use super::{Family, Target, find_address_of};
use cadence_errors::SinkError;
use std::alloc::{Allocator, Global};
use std::net::{Net, SocketAddr};
use std::time::Duration;

/// The result of a lookup: the addresses of the name, possibly none, or the error.
pub type Lookup<A = Global> = Result<Vec<SocketAddr, A>, SinkError>;

/// Looks a name up.
pub trait NameLookup<A: Allocator>: Drop {
    /// Looks the name up, and returns the addresses that it has now, possibly none, or the error of the lookup.
    fn look_up(&self) -> Lookup<A>;
}

/// Lets a thread sleep. A test may implement it without waiting.
pub trait Sleeper: Drop {
    /// Returns after this time, or earlier if something wakes the thread.
    fn sleep(&self, time: Duration);
}

// Asks the system for the address of a host to which a socket of this family sends. The lookup has no other address.
fn host_address<A: Allocator>(
    net: &impl Net,
    alloc: A,
    host: (&str, u16),
    family: Family,
) -> Lookup<A>
    ensures { IfErr result (λ e. IsLookupFault e) }
{
    match find_address_of(net, host, family) {
        Ok(Some(address)) => Ok(Vec::from_slice(alloc, &[address])?),
        Ok(None) => Ok(Vec::new(alloc)),
        Err(fault) => Err(SinkError::Io(fault)),
    }
}

/// Looks up a target for a socket of a family. The lookup of an address returns this address, and that of a name at most
/// one.
#[derive(Drop)]
pub struct TargetLookup<R: Net + Drop, A: Allocator + Clone> {
    pub rt: R,
    pub alloc: A,
    pub target: Target<A>,
    pub family: Family,
}

impl<R: Net + Drop, A: Allocator + Clone> TargetLookup<R, A> {
    ghost use Rattle.cadence_resolve.specs.Lookups.{IsLookedUp};

    /// Returns the address that the target has now, if it has any. The errors are `OutOfMemory`, and for a host's name
    /// also `Io` if the lookup fails.
    pub fn addresses(&self) -> Lookup<A>
        ensures { IsLookedUp self.now.target result }
    {
        let alloc = self.alloc.clone()?;
        match &self.target {
            Target::Addr(address) => Ok(Vec::from_slice(alloc, &[*address])?),
            Target::Name { host, port } => {
                host_address(&self.rt, alloc, (host.as_str(), *port), self.family)
            }
        }
    }
}

impl<R: Net + Drop, A: Allocator + Clone> NameLookup<A> for TargetLookup<R, A> {
    fn look_up(&self) -> Lookup<A> {
        self.addresses()
    }
}
