//! What `milter_tool` is asked to do: its command line as `clap` reads and explains it, with subcommands, their words
//! and their help; the addresses of sockets, what is offered to filters, and the lines of a wrong use.
#![tactic(auto)]

mod address;
mod command_line;
mod given_macro;
mod help_text;
mod limits;
mod load_help;
mod mta_help;
mod probe_help;
mod record_help;
mod replay_help;
mod request;
mod rows;
mod subcommands;
mod target;
mod trace_help;
mod usage_error;
mod word;

pub use address::Address;
pub use command_line::{command_line_limits, is_explained, parse};
pub use given_macro::GivenMacro;
pub use limits::{
    AT_ONCE_DEFAULT, AT_ONCE_MAX, BODIES_MAX, COUNT_DEFAULT, COUNT_MAX, IDLE_DEFAULT, IDLE_MAX,
    LOAD_AT_ONCE_DEFAULT, LOAD_SECONDS_MAX, MESSAGES_MAX, MODE_DEFAULT, MODE_MAX,
    PROBE_TIMEOUT_DEFAULT, RATE_MAX, SEED_DEFAULT, SEED_MAX, SENT_MAX, TIMEOUT_DEFAULT,
    TIMEOUT_MAX, WAIT_MAX,
};
pub use request::{
    AnswerRequest, FilterRequest, LoadRequest, MtaRequest, PlayRequest, ProbeRequest,
    RecordRequest, ReplayRequest, Request, ServeRequest, TraceRequest,
};
pub use subcommands::{VERSION, command};
pub use target::{Offer, Target, parse_mode};
pub use usage_error::UsageError;
