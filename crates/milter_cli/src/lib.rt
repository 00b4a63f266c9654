//! What the subcommands of `milter_tool` read and print: session files, rule files and their lists, the line of a
//! connection, the errors with which the program ends, and why it did not do what it was asked, in lines that a person
//! understands: what is wrong, where, and what is meant.
//!
//! docs/FAULTS.md has the text of each line.
#![tactic(auto)]

mod address_words;
mod answer_error;
mod answer_words;
mod capture_words;
mod connection_report;
mod event_words;
mod explanation;
mod failure;
mod faulty_line;
mod file_error;
mod file_forms;
mod file_input;
mod file_words;
mod known_names;
mod list_check;
mod list_input;
mod option_words;
mod request_paths;
mod rule_check;
mod rule_words;
mod rules_run;
mod session_forms;
mod session_run;
mod session_words;
mod socket_words;
mod tool_error;
mod trace_words;

pub use answer_error::{AnswerError, ended_as};
pub use connection_report::ConnectionReport;
pub use explanation::{explain, explain_file, explain_words};
pub use failure::{DifferingReports, Failure, SocketFault};
pub use file_error::{FileError, InputFile, fault_error, read_error, text_error};
pub use file_input::{FILE_MAX, file_limit, read_file};
pub use list_check::say_lists;
pub use list_input::{ListPath, list_file, list_paths, open_list, read_list, read_lists};
pub use rules_run::{RuleUse, check_rule_file, load_rules, print_rules, rules_of, used_rules};
pub use session_run::{load_session, print_session};
pub use tool_error::{
    ToolError, argument_error, end_usage, listen_error, output_error, report, service_error,
};
