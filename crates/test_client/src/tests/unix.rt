//! Tests of clients over real Unix sockets: `sending` to a server that receives, restarts or is gone, and `refusals` of
//! paths, of packets and of memory. `server` has the server.

mod refusals;
pub mod sending;
pub mod server;
