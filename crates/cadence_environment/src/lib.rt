//! What the environment says of the agent and of the service: where to send, the tags of the service, its container, and
//! by what an agent adds tags.
//!
//! - `cardinality`: the cardinality that the variables say.
//! - `container`: the container that a process runs in.
//! - `destination`: where the variables say to send.
//! - `error`: why nothing is read from the environment.
//! - `external`: the external data of the process.
//! - `lookup`: the address of a host, of any family or of IPv6 alone.
//! - `numbers`: the numbers that the variables say: ports, and how many bytes a packet has.
//! - `path`: which texts can be the path of a Unix socket.
//! - `prefix`: the prefix that a variable says.
//! - `read`: what the environment says, read from a runtime or from texts.
//! - `switch`: the switches: whether nothing is sent, whether the default container is that of the process, and whether a
//!   host is looked up for addresses of IPv6 alone.
//! - `tags`: the tags that the variables say.
//! - `texts`: the texts of the variables, read from a runtime.
//! - `trim`: texts without the spaces round them.
//! - `variables`: the variables of the environment, and the texts that they have.
#![tactic(auto)]

mod cardinality;
mod container;
mod destination;
mod error;
mod external;
mod lookup;
mod numbers;
mod path;
mod prefix;
mod read;
mod switch;
mod tags;
mod texts;
mod trim;
mod variables;

pub use cardinality::read_cardinality;
pub use container::container_id;
pub use destination::Destination;
pub use error::EnvironmentError;
pub use external::read_external;
pub use lookup::look_up_host;
pub use numbers::read_port;
pub use path::{MAX_PATH, PathError, check_path};
pub use prefix::read_prefix;
pub use read::Environment;
pub use switch::{is_off, read_origin};
pub use variables::{Variable, Variables};
