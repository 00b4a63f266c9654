//! What the subcommand `serve` of `milter_tool` adds to `milter_service`: rules that are read again where their
//! file or a list of it changed, and the log of the service and of its decisions.
#![tactic(auto)]

mod decision_log;
mod descriptors;
mod file_stamp;
mod known_file;
mod line_output;
mod log_line;
mod read_stamps;
mod rule_host;
mod rule_lines;
mod rule_source;
mod service_log;
mod standard_stream;

pub use decision_log::{LogDetail, LoggedPolicy};
pub use descriptors::{fill_standard, free_descriptors};
pub use file_stamp::{FileStamp, FileTime, clock_grain};
pub use known_file::{FileStamps, KnownFile, ReadFile, RuleBytes};
pub use line_output::{LineOutput, LostWords};
pub use rule_host::{RuleHost, SharedRules};
pub use rule_lines::{Deciding, RuleLines};
pub use rule_source::{RuleFile, RuleSource, RuleText, lines_in};
pub use service_log::{ServiceEvent, ServiceLog, ServiceStart};
pub use standard_stream::StandardStream;
