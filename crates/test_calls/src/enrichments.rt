//! What an environment says to an agent that adds tags, as a row has it.
use cadence::line::Cardinality;
use cadence_agent::Environment;
use std::alloc::{AllocError, Global};

/// Returns the external data of a client, those that a caller may want without a switch, and the default cardinality.
pub fn said(alloc: Global, environment: &Environment) -> Result<String, AllocError> {
    let external = environment.external(None).unwrap_or("-");
    let wanted = environment.external_data().unwrap_or("-");
    let cardinality = environment.cardinality().map_or("-", Cardinality::text);
    format!(in alloc; "{external} | {wanted} | {cardinality}")
}
