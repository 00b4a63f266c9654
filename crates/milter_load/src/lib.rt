//! A load of mail that is put on a filter, and how long its replies took.
//!
//! A [`Conversation`] plays the client and the messages of a session on one connection, the messages again and again,
//! as a [`Schedule`] has them due. What came of all connections is in [`Totals`], which [`write_report`] writes;
//! [`run_load`] has the conversations over sockets that never wait, in one thread. All but that reads no clock, and has
//! times in microseconds since the load began.
#![tactic(auto)]

mod conversation;
mod figures;
mod json_report;
mod load;
mod load_error;
mod looks;
mod open_connection;
mod outcome;
mod report;
mod schedule;
mod slot;
mod sockets;
mod spin;
mod step;
mod timed;
mod totals;

pub use conversation::{Advance, Conversation, Moment};
pub use load::run_load;
pub use load_error::LoadError;
pub use looks::Settings;
pub use milter_sockets::Target;
pub use outcome::{Cause, Settled};
pub use report::{ReportForm, write_progress, write_report};
pub use schedule::Schedule;
pub use timed::Timed;
pub use totals::Totals;
