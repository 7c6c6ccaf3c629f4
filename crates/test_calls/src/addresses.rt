//! Reads the addresses of rows, as the tests of C, Rust and Python do with the same file.
use crate::rows::{is_row, number};
use cadence::MetricResult;
use cadence::types::MetricError;
use cadence_resolve::find_address;
use std::alloc::Global;
use std::net::{Net, SocketAddr};

// Returns an address of a row, with a port that doesn't matter.
fn address_of(text: &str) -> MetricResult<SocketAddr> {
    Ok(SocketAddr::new(number(text)?, 7))
}

// Returns which address is sent to of a name that has these, with a space between each two.
fn sent_to(net: &impl Net, alloc: Global, texts: &str) -> MetricResult<Option<SocketAddr>> {
    let mut addresses = Vec::new(alloc);
    for text in texts.split(' ') {
        addresses.push(address_of(text)?)?;
    }
    Ok(find_address(net, addresses.as_slice())?)
}

/// Chooses an address of each row, and returns how many rows there are, and each row that wants another one.
pub fn report(net: &impl Net, alloc: Global, rows: &str) -> MetricResult<String> {
    let (mut text, mut count) = (String::new(alloc), 0u32);
    for row in rows.lines().filter(|line| is_row(line)) {
        let (addresses, wanted) = row.split_once(" -> ").unwrap_or((row, ""));
        count = count.wrapping_add(1);
        if sent_to(net, alloc, addresses)? != Some(address_of(wanted)?) {
            writeln!(&mut text, "  another address: {row}")?;
        }
    }
    format!(in alloc; "{count} rows of addresses\n{text}").map_err(MetricError::from)
}
