//! Conversations of mail servers with their filter that are passed on and recorded, many at once, in one thread.
//!
//! [`record`] takes connections on a socket, and makes one to the filter for each. What either end sends is written to
//! the trace of the connection, a file of its own, before it is passed on.
#![tactic(auto)]

mod directory;
mod end;
mod fault;
mod piece;
mod record_error;
mod recorded_connection;
mod recorder;
mod sender;

pub use directory::{create_directory, has_traces};
pub use record_error::RecordError;
pub use recorder::record;
pub use sender::{Sender, trace_line};
