//! A client for a host that is written in another language and sends the packets itself. The host gives texts as bytes and
//! kinds as numbers, in structs that both languages lay out in the same way; they are tested, and become lines, and the
//! client packs the lines into packets. `cadence_c` exports this to C.
//! - `ascii`: the test whether bytes are ASCII
//! - `call`: the arguments of a call, and their conversion to the types of the library
//! - `value`: the values of a call
//! - `settings`: the settings, as texts that the host keeps
//! - `line`: the line of a call
//! - `status`: the statuses that calls return, and the copy of a text into a buffer of the host
//! - `packet`: a finished packet
//! - `client`: a client, with its held text and its queue of packets
//! - `laws`: what holds after many calls
#![tactic(auto)]

mod ascii;
pub mod call;
pub mod client;
pub mod laws;
pub mod line;
pub mod packet;
pub mod settings;
pub mod status;
pub mod value;
