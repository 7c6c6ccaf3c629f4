//! Reads the variables of rows, as the tests of C, Rust and Python do with the same file.
use crate::enrichments;
use crate::rows::{add_unescaped, is_row, unescaped};
use cadence::MetricResult;
use cadence::line::lend_tag;
use cadence::types::MetricError;
use cadence_agent::{Destination, Environment};
use std::alloc::{AllocError, Global};
use test_tools::given::Given;

/// Which file has the rows.
#[derive(Clone, Copy)]
pub enum Kind {
    /// `environment.rows`: where to send, the prefix and the tags.
    Variables,
    /// `enrichments.rows`: the external data and the cardinality.
    Enrichments,
}

impl Kind {
    // Returns the name of what the rows have.
    fn name(self) -> &'static str {
        match self {
            Kind::Variables => "variables",
            Kind::Enrichments => "enrichments",
        }
    }

    // Returns what an environment says, as a row of the file has it.
    fn said(self, alloc: Global, environment: &Environment) -> Result<String, AllocError> {
        match self {
            Kind::Variables => said(alloc, environment),
            Kind::Enrichments => enrichments::said(alloc, environment),
        }
    }
}

// Returns the variables of a row, which have ` & ` between each two there, and a semicolon here.
fn variables_of(alloc: Global, text: &str) -> MetricResult<Vec<u8>> {
    let mut variables = Vec::new(alloc);
    for variable in text.split(" & ") {
        add_unescaped(&mut variables, variable)?;
        variables.push(b';')?;
    }
    Ok(variables)
}

// Adds tags as a row has them.
fn add_tags(text: &mut String, environment: &Environment) -> Result<(), AllocError> {
    for tag in environment.tags() {
        let tag = lend_tag(tag);
        text.push_str(" | ")?;
        if let Some(key) = tag.key {
            text.push_str(key)?;
            text.push('=')?;
        }
        text.push_str(tag.text)?;
    }
    Ok(())
}

// Returns what an environment says, as a row has it.
fn said(alloc: Global, environment: &Environment) -> Result<String, AllocError> {
    let mut text = match environment.destination() {
        Destination::Udp { host, port, .. } => format!(in alloc; "udp {host} {port}")?,
        Destination::Unix { path } => format!(in alloc; "unix {path}")?,
        Destination::Nowhere => String::from_str(alloc, "nowhere")?,
    };
    let (capacity, usual) = match environment.destination() {
        Destination::Udp { capacity, .. } => (*capacity, 1432),
        other => (other.capacity(), 8192),
    };
    if capacity != usual {
        write!(&mut text, " {capacity}")?;
    }
    if environment.destination().only_ipv6() {
        text.push_str(" over IPv6")?;
    }
    if !environment.prefix().is_empty() {
        write!(&mut text, " as {}", environment.prefix())?;
    }
    add_tags(&mut text, environment)?;
    Ok(text)
}

// Returns what is read from variables, as a row has it, and the message if a variable can't be used.
fn shown(alloc: Global, kind: Kind, variables: &[u8]) -> MetricResult<(String, String)> {
    match Environment::read(&(Given { variables }, alloc)) {
        Ok(environment) => Ok((kind.said(alloc, &environment)?, String::new(alloc))),
        Err(error) => {
            let message = format!(in alloc; "{}", MetricError::from(error))?;
            let name = message.split(' ').next().unwrap_or("");
            Ok((format!(in alloc; "refuses {name}")?, message))
        }
    }
}

/// Reads the variables of rows, and returns how many rows there are, each row that says something else, and the
/// messages of the variables that can't be used.
pub fn report(alloc: Global, kind: Kind, rows: &str) -> MetricResult<String> {
    let (mut text, mut count) = (String::new(alloc), 0u32);
    for row in rows.lines().filter(|line| is_row(line)) {
        let (wanted, variables) = row.split_once(" <- ").unwrap_or((row, ""));
        let (shown, message) = shown(alloc, kind, &variables_of(alloc, variables)?)?;
        count = count.wrapping_add(1);
        if shown.as_bytes() != unescaped(alloc, wanted)?.as_slice() {
            writeln!(&mut text, "  another outcome: {row}")?;
        }
        if !text.contains(message.as_str()) {
            writeln!(&mut text, "  {message}")?;
        }
    }
    let name = kind.name();
    format!(in alloc; "{count} rows of {name}\n{text}").map_err(MetricError::from)
}
