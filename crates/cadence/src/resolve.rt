//! The address of a host, looked up once or again after each period.

pub use cadence_resolve::{
    Family, Lookup, NameLookup, PeriodicResolver, ResolverCore, Sleeper, StaticResolver,
};
