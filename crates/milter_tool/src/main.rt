//! `milter_tool`: looks at conversations between mail servers and their filters, and plays either side, in the milter
//! protocol.
//!
//! Results go to standard output and fault lines to standard error. On a terminal, with `--explain` and of `serve`,
//! lines follow that explain the fault in words. The program ends with status 0 where it did what it was asked, 1 after
//! a fault, and 2 after a wrong use of the command line.
#![tactic(auto)]

mod answer_command;
mod capture_command;
mod filter_command;
mod input_files;
mod load_command;
mod mta_command;
mod play_command;
mod probe_command;
mod record_command;
mod replay_command;
mod serve_command;
mod session_reports;
mod trace_command;

use crate::answer_command::answer_mail_server;
use crate::filter_command::serve_in_turn;
use crate::input_files::{check_rules_at, print_rule_file, print_session_file};
use crate::load_command::put_load;
use crate::mta_command::play_session;
use crate::play_command::play_in_memory;
use crate::probe_command::probe_filter;
use crate::record_command::record_connections;
use crate::replay_command::replay_trace;
use crate::serve_command::serve_many;
use crate::trace_command::print_traces;
use milter_cli::{Failure, ToolError, argument_error, end_usage, explain, explain_words, report};
use milter_command_line::{Request, is_explained, parse};
use std::env;
use std::io::{self, IsTerminal, Stderr, Write};
use std::process::ExitCode;

/// The words of the command line, the program's name first.
fn words(rt: &HostRuntime) -> Result<Vec<String>, ToolError> {
    match env::args(rt) {
        Ok(words) => words.collect(rt.alloc()).map_err(|_| ToolError::NoMemory),
        Err(error) => Err(argument_error(error.kind())),
    }
}

/// Does what these words ask for, and ends the program. Faults are explained in words where standard error is a
/// terminal, where `--explain` is given, and always of a command for which that is so.
fn run(rt: &HostRuntime, words: &[String], is_terminal: bool, errors: &mut Stderr) -> ExitCode {
    match parse(rt.alloc(), words) {
        Ok(request) => {
            let is_in_words = is_terminal || is_explained(words) || is_always_explained(&request);
            run_parsed(rt, &request, is_terminal, is_in_words, errors)
        }
        Err(error) => report(end_usage(error, &mut io::writer(rt)), errors),
    }
}

/// Does what a request asks for, and ends the program, with the explanation of a fault where that is wanted.
fn run_parsed(
    rt: &HostRuntime,
    request: &Request<'_>,
    is_terminal: bool,
    is_in_words: bool,
    errors: &mut Stderr,
) -> ExitCode {
    match run_request(rt, request, is_terminal, errors) {
        Ok(()) => report(Ok(()), errors),
        Err(failure) if is_in_words => report_in_words(rt, request, failure, errors),
        Err(failure) => report(Err(failure.error), errors),
    }
}

/// Whether the faults of a request are explained wherever standard error goes.
fn is_always_explained(request: &Request<'_>) -> bool {
    matches!(request, Request::Serve(_))
}

/// Ends the program: writes the line of a failure, and then those that explain it; the line alone where memory is
/// refused for these.
fn report_in_words(
    rt: &HostRuntime,
    request: &Request<'_>,
    failure: Failure<'_>,
    errors: &mut Stderr,
) -> ExitCode {
    match explain(rt, rt.alloc(), request, &failure) {
        Ok(lines) => report_with(failure.error, lines.as_slice(), errors),
        Err(_) => report(Err(failure.error), errors),
    }
}

/// Ends the program where its words can't be read: writes the line of that, and on a terminal the one that explains it.
fn report_unread(
    rt: &HostRuntime,
    error: ToolError,
    is_terminal: bool,
    errors: &mut Stderr,
) -> ExitCode {
    match explain_words(rt.alloc(), &error) {
        Ok(lines) if is_terminal => report_with(error, lines.as_slice(), errors),
        _ => report(Err(error), errors),
    }
}

/// Ends the program: writes the line of an error, and then these.
fn report_with(error: ToolError, lines: &[u8], errors: &mut Stderr) -> ExitCode {
    let ended = report(Err(error), errors);
    let _ = errors.write_all(lines);
    ended
}

/// Does what a request asks for. What is written while it lasts goes to `errors`: how far a load is, where that is a
/// terminal, and what becomes of connections that aren't recorded to their end.
fn run_request<'x>(
    rt: &'x HostRuntime,
    request: &Request<'x>,
    is_terminal: bool,
    errors: &mut Stderr,
) -> Result<(), Failure<'x>> {
    match request {
        Request::Trace(asked) => print_traces(rt, asked),
        Request::Session { file } => Ok(print_session_file(rt, file)?),
        Request::Rules { file, check: false } => Ok(print_rule_file(rt, file)?),
        Request::Rules { file, check: true } => Ok(check_rules_at(rt, file)?),
        Request::Answer(asked) => Ok(answer_mail_server(rt, asked)?),
        Request::Filter(asked) => serve_in_turn(rt, asked),
        Request::Serve(asked) => serve_many(rt, asked),
        Request::Mta(asked) => play_session(rt, asked),
        Request::Play(asked) => play_in_memory(rt, asked),
        Request::Replay(asked) => replay_trace(rt, asked),
        Request::Load(asked) => put_load(rt, asked, is_terminal, errors),
        Request::Probe(asked) => probe_filter(rt, asked),
        Request::Record(asked) => record_connections(rt, asked, errors),
    }
}

fn main(rt: HostRuntime) -> ExitCode {
    let is_terminal = rt.stderr().is_terminal();
    match words(&rt) {
        Ok(words) => run(&rt, words.as_slice(), is_terminal, &mut rt.stderr()),
        Err(error) => report_unread(&rt, error, is_terminal, &mut rt.stderr()),
    }
}
