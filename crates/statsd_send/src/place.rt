//! The place to which packets are sent, and where it comes from.
use cadence_agent::{Destination, Environment, EnvironmentError, PathError, Variable, check_path};
use cadence_environment::read_port;
use cadence_flow::io::DEFAULT_CAPACITY;
use cadence_send::Destination as Asked;
use std::alloc::AllocError;
use std::{env, fmt};

/// The place to which packets are sent.
#[derive(Drop)]
pub struct Place {
    /// Where packets are sent.
    pub target: Destination,
    /// The target as a text: HOST:PORT or unix:PATH, or `nowhere`.
    pub text: String,
    /// The option or the variable that names the target.
    pub source: &'static str,
}

/// Why there is no place to send to.
#[derive(Drop)]
pub enum PlaceError<'a> {
    /// A variable of the environment can't be used, or memory ran out.
    Environment(EnvironmentError),
    /// The path of `--to` can't be used.
    Path(&'a str, PathError),
    /// Memory ran out.
    OutOfMemory,
}

impl From<AllocError> for PlaceError<'_> {
    fn from(_error: AllocError) -> Self {
        PlaceError::OutOfMemory
    }
}

impl From<EnvironmentError> for PlaceError<'_> {
    fn from(error: EnvironmentError) -> Self {
        PlaceError::Environment(error)
    }
}

impl fmt::Display for PlaceError<'_> {
    fn fmt<W: fmt::Write>(&self, f: &mut fmt::Formatter<W>) -> fmt::Result {
        match self {
            PlaceError::Environment(error) => write!(f, "{error}"),
            PlaceError::Path(path, fault) => write!(f, "--to unix:{path}: {fault}"),
            PlaceError::OutOfMemory => f.write_str("out of memory"),
        }
    }
}

impl PlaceError<'_> {
    /// Returns the exit status of a program that ends with this error: 3 if memory ran out, and 2 otherwise.
    pub fn status(&self) -> u8 {
        match self {
            PlaceError::OutOfMemory | PlaceError::Environment(EnvironmentError::OutOfMemory) => 3,
            _ => 2,
        }
    }
}

// Returns the host without the brackets round an address of IPv6.
fn without_brackets(host: &str) -> &str {
    match host.strip_prefix('[') {
        Some(inner) => inner.strip_suffix(']').unwrap_or(host),
        None => host,
    }
}

// Returns the first variable that is set and says where to send.
fn source_of(rt: &HostRuntime) -> &'static str {
    for variable in [
        Variable::Url,
        Variable::Socket,
        Variable::AgentHost,
        Variable::AgentPort,
        Variable::StatsdHost,
        Variable::StatsdPort,
    ] {
        if let Ok(text) = env::var(rt, variable.name()) {
            if !text.is_empty() {
                return variable.name();
            }
        }
    }
    "by default"
}

// Returns a host, a port and how many bytes a packet has as one place. The last word of the three is whether the host is
// looked up for addresses of IPv6 alone.
fn place_of_host(
    rt: &HostRuntime,
    host: &str,
    (port, capacity, only_ipv6): (u16, usize, bool),
    source: &'static str,
) -> Result<Place, AllocError> {
    let alloc = rt.alloc();
    let text = if host.contains(':') {
        format!(in alloc; "[{host}]:{port}")?
    } else {
        format!(in alloc; "{host}:{port}")?
    };
    Ok(Place {
        target: Destination::Udp {
            host: String::from_str(alloc, host)?,
            port,
            capacity,
            only_ipv6,
        },
        text,
        source,
    })
}

// Returns the path of a Unix socket as a place.
fn place_of_path(rt: &HostRuntime, path: &str, source: &'static str) -> Result<Place, AllocError> {
    let alloc = rt.alloc();
    Ok(Place {
        target: Destination::Unix {
            path: String::from_str(alloc, path)?,
        },
        text: format!(in alloc; "unix:{path}")?,
        source,
    })
}

// Returns the place at which nothing is sent.
fn no_place(rt: &HostRuntime) -> Result<Place, AllocError> {
    Ok(Place {
        target: Destination::Nowhere,
        text: String::from_str(rt.alloc(), "nowhere")?,
        source: "by the environment",
    })
}

/// Checks the path of `--to`, if the option has one.
///
/// # Errors
/// `Path`.
pub fn check_destination(to: Option<Asked<'_>>) -> Result<(), PlaceError<'_>> {
    let Some(Asked::Unix(path)) = to else {
        return Ok(());
    };
    match check_path(path) {
        Ok(()) => Ok(()),
        Err(fault) => Err(PlaceError::Path(path, fault)),
    }
}

/// Returns the place that the option `--to` says, or that of the environment if the option is not there.
///
/// # Errors
/// `Environment` if a variable can't be used, and `OutOfMemory`.
pub fn find_place<'a>(rt: &HostRuntime, to: Option<Asked<'a>>) -> Result<Place, PlaceError<'a>> {
    match to {
        Some(Asked::Unix(path)) => Ok(place_of_path(rt, path, "--to")?),
        Some(Asked::Host(target)) => {
            let (host, port) = target.rsplit_once(':').unwrap_or((target, ""));
            let port = read_port(port).unwrap_or(8125);
            let settings = (port, DEFAULT_CAPACITY, false);
            Ok(place_of_host(rt, without_brackets(host), settings, "--to")?)
        }
        None => match Environment::read_destination(rt)? {
            Destination::Udp {
                host,
                port,
                capacity,
                only_ipv6,
            } => {
                let settings = (port, capacity, only_ipv6);
                Ok(place_of_host(rt, &host, settings, source_of(rt))?)
            }
            Destination::Unix { path } => Ok(place_of_path(rt, &path, source_of(rt))?),
            Destination::Nowhere => Ok(no_place(rt)?),
        },
    }
}
