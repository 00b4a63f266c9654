//! What the subcommands of `milter_tool` do: the answering to mail servers over sockets, the playing of sessions to
//! filters over sockets and in memory, and the sending of traces to filters again. What is asked for is read by
//! `milter_command_line`, the files are read by `milter_cli`, and rules that change are those of `milter_serve`.
#![tactic(auto)]

mod by_events;
mod expected_reports;
mod filter_command;
mod given_macros;
mod in_memory;
mod limited_link;
mod negotiation;
mod replay_command;
mod socket_dial;
mod waiting_dial;

pub use by_events::{load_events, schedule_run};
pub use expected_reports::{check_reports, load_reports};
pub use filter_command::{Connections, filter_run};
pub use given_macros::{parse_macros, with_macros};
pub use in_memory::play_run;
pub use limited_link::LimitedDial;
pub use negotiation::{Negotiation, SeenDial};
pub use replay_command::{load_recording, replay_run};
pub use socket_dial::{Connect, TcpDial, UnixDial};
pub use waiting_dial::WaitingDial;
