//! The subcommand `answer`.

use crate::filter_command::order_of;
use crate::input_files::rules_at;
use milter_cli::{RuleUse, ToolError, ended_as};
use milter_command_line::AnswerRequest;
use milter_filter::serve_in_order;
use std::io;

/// Replies to the mail server on standard input, as a filter.
pub(crate) fn answer_mail_server(
    rt: &HostRuntime,
    asked: &AnswerRequest<'_>,
) -> Result<(), ToolError> {
    let usage = RuleUse {
        ignore_case: asked.ignore_case,
        least_stages: asked.least_stages,
        names_messages: false,
    };
    let rules = rules_at(rt, asked.rules, usage)?;
    let mut reader = rt.reader();
    let mut writer = io::writer(rt);
    let order = order_of(asked.lenient);
    let served = serve_in_order(rt.alloc(), &rules, order, &mut reader, &mut writer);
    ended_as(served).map_err(ToolError::Answer)
}
