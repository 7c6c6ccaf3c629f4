//! The place to which packets go, as messages name it.
use std::fmt;

/// The place to which packets go, as messages name it.
#[derive(Clone, Copy, Debug, PartialEq, Eq)]
pub enum Outlet<'a> {
    /// The standard output, to which packets are printed.
    Output,
    /// A place to which packets are sent, as HOST:PORT or unix:PATH, and the option or the variable that names it.
    Target(&'a str, &'a str),
}

/// What is done with the packets: `print`, or for example `send to 127.0.0.1:8125 (--to)`.
impl fmt::Display for Outlet<'_> {
    fn fmt<W: fmt::Write>(&self, f: &mut fmt::Formatter<W>) -> fmt::Result {
        match self {
            Outlet::Output => f.write_str("print"),
            Outlet::Target(place, source) => write!(f, "send to {place} ({source})"),
        }
    }
}
