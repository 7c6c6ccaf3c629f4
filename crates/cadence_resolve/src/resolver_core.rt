//! The address of a name after each lookup.
ghost use Rattle.cadence_resolve.specs.Lookups.{HasNoAddress};

use super::Lookup;
use cadence_errors::{ErrorKind, MetricError, MetricResult, SinkError};
use std::alloc::Allocator;
use std::marker::Model;
use std::net::SocketAddr;

// Returns the error that a name has no address.
pub(super) fn no_address() -> MetricError
    ensures { HasNoAddress result }
{
    MetricError::from((ErrorKind::InvalidInput, "No socket addresses yielded"))
}

/// Stores the first address of the last lookup that gave an address, and counts the lookups after the first one.
#[derive(Drop)]
pub struct ResolverCore {
    address: SocketAddr,
    successes: u64,
    failures: u64,
}

impl Model for ResolverCore {
    ghost use Rattle.cadence_resolve.specs.Address.{Resolved};

    ghost Value = { Resolved };

    ghost view = { λ r. record {
      address = r.address;
      successes = r.successes;
      failures = r.failures;
    } };
}

impl ResolverCore {
    ghost use Rattle.std.specs.Prelude.{◌≡◌, [], IfOk};
    ghost use Rattle.cadence_resolve.specs.Address.{IsResolvedBy, IsNotedAfter, addresses_of};
    ghost use Rattle.cadence_resolve.specs.Lookups.{IsStart, IsNoted};

    /// Starts with the first address of this lookup, which is not counted.
    ///
    /// If the lookup failed, its error is returned as `MetricError::Sink`. If it gave no address, the error has the
    /// kind `InvalidInput` and the text `No socket addresses yielded`.
    pub fn new<A: Allocator>(first: Lookup<A>) -> MetricResult<Self>
        ensures start { IsStart first result }
        ensures after { IfOk result (IsResolvedBy (addresses_of first) []) }
    {
        let addresses = first?;
        let Some(address) = addresses.first() else {
            return Err(no_address());
        };
        Ok(ResolverCore {
            address: *address,
            successes: 0,
            failures: 0,
        })
    }

    /// Counts a later lookup, and stores its first address in place of the earlier one. If the lookup failed, this call
    /// returns its error, and the address stays. If the lookup gave no address, this call returns `NoAddresses`, and
    /// the address stays too. It requests no memory.
    pub fn note<A: Allocator>(&mut self, lookup: Lookup<A>) -> Option<SinkError>
        ensures noted { IsNoted self.old lookup result self.new }
        ensures after { IsNotedAfter self.old (addresses_of lookup) self.new }
    {
        let addresses = match lookup {
            Ok(addresses) => addresses,
            Err(fault) => {
                self.failures = self.failures.wrapping_add(1);
                return Some(fault);
            }
        };
        match addresses.first() {
            Some(address) => {
                self.address = *address;
                self.successes = self.successes.wrapping_add(1);
                None
            }
            None => {
                self.failures = self.failures.wrapping_add(1);
                Some(SinkError::NoAddresses)
            }
        }
    }

    /// Returns the first address of the last lookup that gave one.
    pub fn get_addr(&self) -> SocketAddr
        ensures { result ≡ self.now.address }
    {
        self.address
    }

    /// Returns the number of later lookups that gave an address, modulo 2 to the 64.
    pub fn successes(&self) -> u64
        ensures { result ≡ self.now.successes }
    {
        self.successes
    }

    /// Returns the number of later lookups that failed or gave no address, modulo 2 to the 64.
    pub fn failures(&self) -> u64
        ensures { result ≡ self.now.failures }
    {
        self.failures
    }
}
