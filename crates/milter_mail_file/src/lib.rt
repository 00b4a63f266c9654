//! Session files: [`read_session`] reads the session that a file is parsed as, or the first line that is at fault, and
//! [`write_session`] writes a session as a session file.
#![tactic(auto)]

mod client_line;
mod line_group;
mod line_values;
mod message_groups;
mod session_fault;
mod session_file;
mod session_macros;
mod session_messages;
mod session_text;

pub use session_fault::SessionFault;
pub use session_file::read_session;
pub use session_text::write_session;
