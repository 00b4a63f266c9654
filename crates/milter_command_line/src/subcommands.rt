//! The subcommands, as `clap` reads and explains them.

ghost use Rattle.std.specs.Prelude.{◌≡◌, IfOk, map};
ghost use Rattle.clap.specs.Words.{app_of, with_subcommand};
ghost use Rattle.milter_command_line.specs.Subcommands.{filtering_app, mta_app, play_app, playing_app, reading_app, tool_app};
ghost use Rattle.milter_command_line.specs.Subcommands.{top_app};
ghost use Rattle.milter_command_line.specs.Words.{app_in, with_apps};

use crate::rows::{
    ACTIONS, ADDRESS, ADDRESSES, ALL_STAGES, AT_LOSS, AT_ONCE, BODIES, CHECK, COUNT, DIRECTORY,
    EVENTS, EXPECT, EXPLAIN, FILTER_ADDRESS, IDLE, IGNORE_CASE, JSON, LEAST_STAGES, LENIENT,
    LISTEN, LOAD_AT_ONCE, LOAD_SECONDS, LOG, LOSS, MACRO, MESSAGES, MODE, NAMES, ONLY, PCAP,
    PROBE_TIMEOUT, PROTOCOL, RATE, RECORD_COUNT, REPLY_TIMEOUT, RULE_FILE, RULES, SEED, SESSION,
    SESSION_FILE, SHOW_NEGOTIATION, TIMEOUT, TRACE, TRACE_FILES, WAIT,
};
use crate::word::{Kind, Subcommand, Word, command_of};
use crate::{help_text, load_help, mta_help, probe_help, record_help, replay_help, trace_help};
use clap::Command;
use std::alloc::{AllocError, Global};

/// The version of the program.
pub const VERSION: &str = "0.1.0";

const TRACE_SUBCOMMAND: Subcommand<'static, 'static> = Subcommand {
    name: "trace",
    about: "Prints a line for each packet of recorded conversations",
    after: trace_help::TRACE,
    words: &[TRACE_FILES, NAMES, BODIES, PCAP, EXPLAIN],
};

const SESSION_SUBCOMMAND: Subcommand<'static, 'static> = Subcommand {
    name: "session",
    about: "Prints what a session file has, in canonical form",
    after: help_text::SESSION,
    words: &[SESSION_FILE, EXPLAIN],
};

const RULES_SUBCOMMAND: Subcommand<'static, 'static> = Subcommand {
    name: "rules",
    about: "Prints what a rule file has, in canonical form",
    after: help_text::RULES,
    words: &[RULE_FILE, CHECK, EXPLAIN],
};

const ANSWER_SUBCOMMAND: Subcommand<'static, 'static> = Subcommand {
    name: "answer",
    about: "Replies to a mail server, on standard input and output, as a filter",
    after: help_text::ANSWER,
    words: &[RULES, LENIENT, IGNORE_CASE, LEAST_STAGES, EXPLAIN],
};

const FILTER_SUBCOMMAND: Subcommand<'static, 'static> = Subcommand {
    name: "filter",
    about: "Serves connections of mail servers, one after another, as a filter",
    after: help_text::FILTER,
    words: &[
        ADDRESS,
        RULES,
        COUNT,
        LENIENT,
        IGNORE_CASE,
        LEAST_STAGES,
        EXPLAIN,
    ],
};

const SERVE_SUBCOMMAND: Subcommand<'static, 'static> = Subcommand {
    name: "serve",
    about: "Serves many connections at once, as a filter, until it is ended",
    after: help_text::SERVE,
    words: &[
        ADDRESSES,
        RULES,
        AT_ONCE,
        IDLE,
        MODE,
        LOG,
        IGNORE_CASE,
        ALL_STAGES,
        EXPLAIN,
    ],
};

const REPLAY_SUBCOMMAND: Subcommand<'static, 'static> = Subcommand {
    name: "replay",
    about: "Sends a trace's commands to a filter, and compares what it replies",
    after: replay_help::REPLAY,
    words: &[FILTER_ADDRESS, TRACE, TIMEOUT, WAIT, EXPLAIN],
};

const LOAD_SUBCOMMAND: Subcommand<'static, 'static> = Subcommand {
    name: "load",
    about: "Puts a load on a filter, and prints how fast it replies",
    after: load_help::LOAD,
    words: &[
        FILTER_ADDRESS,
        SESSION,
        LOAD_AT_ONCE,
        LOAD_SECONDS,
        MESSAGES,
        RATE,
        REPLY_TIMEOUT,
        JSON,
        EXPLAIN,
    ],
};

const PROBE_SUBCOMMAND: Subcommand<'static, 'static> = Subcommand {
    name: "probe",
    about: "Sends a filter what is unusual and wrong, and prints what breaks",
    after: probe_help::PROBE,
    words: &[FILTER_ADDRESS, SESSION, ONLY, SEED, PROBE_TIMEOUT, EXPLAIN],
};

const RECORD_SUBCOMMAND: Subcommand<'static, 'static> = Subcommand {
    name: "record",
    about: "Passes connections on to a filter, and records each in a trace",
    after: record_help::RECORD,
    words: &[LISTEN, FILTER_ADDRESS, DIRECTORY, RECORD_COUNT, EXPLAIN],
};

/// The whole command line, whose `--loss` takes these words.
#[tactic(auto, unfolding(crate::specs::Words::rule_of_kind, crate::specs::Words::with_apps))]
pub fn command<'a>(alloc: Global, losses: &'a [&'a str]) -> Result<Command<'a>, AllocError>
    ensures { IfOk result (λ c. app_of c ≡ tool_app losses.entry) }
{
    let command = playing(alloc, losses)?;
    with_each(
        alloc,
        command,
        &[LOAD_SUBCOMMAND, PROBE_SUBCOMMAND, RECORD_SUBCOMMAND],
    )
}

/// The command line with the subcommands that read files, those that are a filter's end, and those that play a mail
/// server's end.
#[tactic(auto, unfolding(crate::specs::Words::rule_of_kind, crate::specs::Words::with_apps))]
fn playing<'a>(alloc: Global, losses: &'a [&'a str]) -> Result<Command<'a>, AllocError>
    ensures { IfOk result (λ c. app_of c ≡ playing_app losses.entry) }
{
    let command = filtering(alloc)?;
    let command = with_mta(alloc, command, losses)?;
    let command = with_play(alloc, command, losses)?;
    with(alloc, command, REPLAY_SUBCOMMAND)
}

/// The command line with the subcommands that read files, and those that are a filter's end.
#[tactic(auto, unfolding(crate::specs::Words::rule_of_kind, crate::specs::Words::with_apps))]
fn filtering<'a>(alloc: Global) -> Result<Command<'a>, AllocError>
    ensures { IfOk result (λ c. app_of c ≡ filtering_app) }
{
    let command = reading(alloc)?;
    with_each(
        alloc,
        command,
        &[ANSWER_SUBCOMMAND, FILTER_SUBCOMMAND, SERVE_SUBCOMMAND],
    )
}

/// The command line with the subcommands that only read files.
#[tactic(auto, unfolding(crate::specs::Words::rule_of_kind, crate::specs::Words::with_apps))]
fn reading<'a>(alloc: Global) -> Result<Command<'a>, AllocError>
    ensures { IfOk result (λ c. app_of c ≡ reading_app) }
{
    let command = top(alloc)?;
    with_each(
        alloc,
        command,
        &[TRACE_SUBCOMMAND, SESSION_SUBCOMMAND, RULES_SUBCOMMAND],
    )
}

/// The command line with these subcommands after its own.
#[tactic(auto, unfolding(crate::specs::Words::with_apps))]
fn with_each<'a>(
    alloc: Global,
    command: Command<'a>,
    subcommands: &[Subcommand<'a, '_>],
) -> Result<Command<'a>, AllocError>
    ensures { IfOk result (λ c. app_of c ≡ with_apps (app_of command.entry) (map app_in subcommands.entry.now)) }
{
    let mut command = command;
    for subcommand in subcommands {
        command = with(alloc, command, *subcommand)?;
    }
    Ok(command)
}

/// The command line with this subcommand after its own.
#[tactic(auto, using(crate::proofs::RowLaws::with_subcommand_more))]
fn with<'a>(
    alloc: Global,
    command: Command<'a>,
    subcommand: Subcommand<'a, '_>,
) -> Result<Command<'a>, AllocError>
    ensures { IfOk result (λ c. app_of c ≡ with_subcommand (app_of command.entry) (app_in subcommand.entry).top) }
{
    match command_of(alloc, subcommand) {
        Ok(added) => command.subcommand(added),
        Err(error) => {
            drop(command);
            Err(error)
        }
    }
}

fn top<'a>(alloc: Global) -> Result<Command<'a>, AllocError>
    ensures { IfOk result (λ c. app_of c ≡ top_app) }
{
    let named = Command::new(alloc, "milter_tool").bin_name("milter_tool")?;
    Ok(
        named
            .about("Looks at mail servers' conversations with filters, and plays either side")
            .version(VERSION)
            .subcommand_required(true),
    )
}

/// The command line with the subcommand `mta` after its own.
#[tactic(auto, unfolding(crate::specs::Words::rule_of_kind))]
fn with_mta<'a>(
    alloc: Global,
    command: Command<'a>,
    losses: &'a [&'a str],
) -> Result<Command<'a>, AllocError>
    ensures { IfOk result (λ c. app_of c ≡ with_subcommand (app_of command.entry) (mta_app losses.entry).top) }
{
    let loss = Word {
        kind: Kind::Choice(losses),
        ..LOSS
    };
    with(
        alloc,
        command,
        Subcommand {
            name: "mta",
            about: "Plays a session to a filter, and prints what becomes of its messages",
            after: mta_help::MTA,
            words: &[
                FILTER_ADDRESS,
                SESSION,
                loss,
                TIMEOUT,
                ACTIONS,
                PROTOCOL,
                WAIT,
                EXPECT,
                SHOW_NEGOTIATION,
                MACRO,
                AT_LOSS,
                EXPLAIN,
            ],
        },
    )
}

/// The command line with the subcommand `play` after its own.
#[tactic(auto, unfolding(crate::specs::Words::rule_of_kind))]
fn with_play<'a>(
    alloc: Global,
    command: Command<'a>,
    losses: &'a [&'a str],
) -> Result<Command<'a>, AllocError>
    ensures { IfOk result (λ c. app_of c ≡ with_subcommand (app_of command.entry) (play_app losses.entry).top) }
{
    let loss = Word {
        kind: Kind::Choice(losses),
        ..LOSS
    };
    with(
        alloc,
        command,
        Subcommand {
            name: "play",
            about: "Plays a session to rules, and prints what becomes of its messages",
            after: help_text::PLAY,
            words: &[
                SESSION,
                RULES,
                IGNORE_CASE,
                LEAST_STAGES,
                ACTIONS,
                PROTOCOL,
                EVENTS,
                loss,
                EXPECT,
                EXPLAIN,
            ],
        },
    )
}
