//! The mail server's side of a recorded conversation, played to a filter again.
//!
//! [`read_trace`] reads a trace, in the form that `milter_trace` reads, into a [`Recording`]: each command with the
//! replies that were recorded to it. [`replay`] sends the commands to a filter, one after the other, and writes what is
//! replied beside what was recorded.
#![tactic(auto)]

mod conversation;
mod exchange_reader;
mod exchange_text;
mod filter_end;
mod packets;
mod recorded_answers;
mod recording_fault;
mod replay_run;
mod trace_reader;

pub use conversation::{Exchange, RecordedCommand, Recording, ReplyPacket};
pub use recording_fault::RecordingFault;
pub use replay_run::{Replayed, replay};
pub use trace_reader::read_trace;
