//! The command line: what the program is asked to do.

ghost use Rattle.std.specs.Prelude.{◌≡◌, ◌-◌, ◌^◌, ◌↔◌, IfOk, IsTrue, Some, codes, map};
ghost use Rattle.std.specs.List.{list_any};
ghost use Rattle.std.specs.Str.{bytes_eq};
ghost use Rattle.clap.specs.Words.{found_of, rows_of, subcommand_rows_of};
ghost use Rattle.milter_command_line.specs.Words.{AreLossWords};
ghost use Rattle.milter_command_line.specs.declared.limits.TheConstants.{AT_ONCE_DEFAULT, AT_ONCE_MAX, BODIES_MAX};
ghost use Rattle.milter_command_line.specs.declared.limits.TheConstants.{COUNT_DEFAULT, COUNT_MAX, IDLE_DEFAULT, IDLE_MAX};
ghost use Rattle.milter_command_line.specs.declared.limits.TheConstants.{LOAD_AT_ONCE_DEFAULT, LOAD_SECONDS_MAX};
ghost use Rattle.milter_command_line.specs.declared.limits.TheConstants.{MESSAGES_MAX, MODE_DEFAULT, MODE_MAX};
ghost use Rattle.milter_command_line.specs.declared.limits.TheConstants.{PROBE_TIMEOUT_DEFAULT, RATE_MAX, SEED_DEFAULT};
ghost use Rattle.milter_command_line.specs.declared.limits.TheConstants.{SEED_MAX, SENT_MAX, TIMEOUT_DEFAULT, TIMEOUT_MAX};
ghost use Rattle.milter_command_line.specs.declared.limits.TheConstants.{WAIT_MAX};
ghost use Rattle.milter_command_line.specs.CommandLine.{IsLoss, IsNumber, IsNumberOr, IsRequestOf, IsRequestOfNamed};
ghost use Rattle.milter_command_line.specs.CommandLine.{MatchesAs, ParsesAs, text_of};

use crate::limits::{
    AT_ONCE_DEFAULT, COUNT_DEFAULT, IDLE_DEFAULT, LOAD_AT_ONCE_DEFAULT, MODE_DEFAULT,
    PROBE_TIMEOUT_DEFAULT, SEED_DEFAULT, TIMEOUT_DEFAULT,
};
use crate::request::{
    AnswerRequest, FilterRequest, LoadRequest, MtaRequest, PlayRequest, ProbeRequest,
    RecordRequest, ReplayRequest, Request, ServeRequest, TraceRequest,
};
use crate::subcommands::command;
use clap::{ArgMatches, Error};
use milter_mta_outcome::OnLoss;
use std::alloc::{AllocError, Global};
use std::convert::AsStr;

/// The numbers that the definitions name: how many connections are served, and how many seconds a read or a write may
/// take, where the command line has no such number and at most; for how many seconds connecting is tried again at most;
/// and the same two numbers of how many connections are open at once, of how many seconds they may be idle, and of the
/// digits of a mode. Of a body's bytes that are printed, and of a load's seconds, messages and messages a second, there
/// are these at most; a load has this many connections at once where the command line has no number, and trials have
/// this seed, and this many seconds for a reply. A connection is closed after so many bytes at most.
pub fn command_line_limits()
    ensures count_default { COUNT_DEFAULT ≡ 1 }
    ensures count_most { COUNT_MAX ≡ 1000000 }
    ensures timeout_default { TIMEOUT_DEFAULT ≡ 30 }
    ensures timeout_most { TIMEOUT_MAX ≡ 3600 }
    ensures wait_most { WAIT_MAX ≡ 3600 }
    ensures at_once_default { AT_ONCE_DEFAULT ≡ 200 }
    ensures at_once_most { AT_ONCE_MAX ≡ 10000 }
    ensures idle_default { IDLE_DEFAULT ≡ 7210 }
    ensures idle_most { IDLE_MAX ≡ 86400 }
    ensures mode_default { MODE_DEFAULT ≡ 660 }
    ensures mode_most { MODE_MAX ≡ 777 }
    ensures bodies_most { BODIES_MAX ≡ 65535 }
    ensures load_at_once_default { LOAD_AT_ONCE_DEFAULT ≡ 1 }
    ensures load_seconds_most { LOAD_SECONDS_MAX ≡ 86400 }
    ensures messages_most { MESSAGES_MAX ≡ 4000000000 }
    ensures rate_most { RATE_MAX ≡ 1000000 }
    ensures seed_default { SEED_DEFAULT ≡ 1 }
    ensures seed_most { SEED_MAX ≡ 2 ^ 32 - 1 }
    ensures sent_most { SENT_MAX ≡ 2 ^ 32 - 1 }
    ensures probe_timeout_default { PROBE_TIMEOUT_DEFAULT ≡ 5 }
{}

/// The word that asks for words that explain a fault.
const EXPLAIN: &str = "--explain";

/// The words of `--loss`.
const LOSS_WORDS: &[&str] = &["accept", "tempfail", "reject"];

/// What the words of a command line ask for, the program's name first. An error has a text and a kind: a wrong use,
/// what was asked for (help, the version), or memory that was refused.
pub fn parse<'a, S: AsStr>(alloc: Global, words: &'a [S]) -> Result<Request<'a>, Error>
    ensures { ParsesAs (map S.text words.entry.now) result }
{
    let matches = parse_matches(alloc, words)?;
    Ok(request_of(alloc, &matches)?.unwrap())
}

/// Whether the words of a command line ask for words that explain a fault: whether `--explain` is one of them. A wrong
/// use of the command line, which has no request, asks for them too.
pub fn is_explained<S: AsStr>(words: &[S]) -> bool
    ensures { result ≡ list_any (λ word. bytes_eq (S.text word) (codes "--explain")) words.now }
{
    words.iter().any(|word| word.as_str() == EXPLAIN)
}

fn parse_matches<'a, S: AsStr>(alloc: Global, words: &'a [S]) -> Result<ArgMatches<'a>, Error>
    ensures { MatchesAs (map S.text words.entry.now) result }
{
    command(alloc, loss_words())?.try_get_matches_from(words)
}

/// The words of `--loss`.
fn loss_words<'a>() -> &'a [&'a str]
    ensures { AreLossWords result }
{
    LOSS_WORDS
}

/// What parsed words ask for: nothing only where they name no subcommand, or one without a word that it has to have.
fn request_of<'a>(
    alloc: Global,
    matches: &ArgMatches<'a>,
) -> Result<Option<Request<'a>>, AllocError>
    ensures { IfOk result (IsRequestOf (subcommand_rows_of matches.now)) }
{
    match matches.subcommand() {
        Some(("trace", given)) => Ok(Some(trace_request(alloc, given)?)),
        Some(("session", given)) => Ok(session_request(given)),
        Some(("rules", given)) => Ok(rules_request(given)),
        Some(("answer", given)) => Ok(Some(answer_request(given))),
        Some(("filter", given)) => Ok(filter_request(given)),
        Some(("serve", given)) => serve_request(alloc, given),
        Some(("mta", given)) => mta_request(alloc, given),
        Some(("play", given)) => Ok(play_request(given)),
        Some(("replay", given)) => Ok(replay_request(given)),
        Some(("load", given)) => Ok(load_request(given)),
        Some(("probe", given)) => Ok(probe_request(given)),
        Some(("record", given)) => Ok(record_request(given)),
        _ => Ok(None),
    }
}

/// What the words after `trace` ask for.
fn trace_request<'a>(alloc: Global, given: &ArgMatches<'a>) -> Result<Request<'a>, AllocError>
    ensures { IfOk result (λ request. IsRequestOfNamed (codes "trace") (rows_of (found_of given.now)) (Some request)) }
{
    let paths = given.get_strs("file").unwrap_or(&[]);
    let files = Vec::from_slice(alloc, paths)?;
    Ok(Request::Trace(TraceRequest {
        files,
        names: is_set(given.get_str("names")),
        bodies: number(given.get_str("bodies")),
        pcap: is_set(given.get_str("pcap")),
    }))
}

/// What the words after `session` ask for.
fn session_request<'a>(given: &ArgMatches<'a>) -> Option<Request<'a>>
    ensures { IsRequestOfNamed (codes "session") (rows_of (found_of given.now)) result }
{
    match given.get_str("file") {
        Some(file) => Some(Request::Session { file }),
        None => None,
    }
}

/// What the words after `rules` ask for.
fn rules_request<'a>(given: &ArgMatches<'a>) -> Option<Request<'a>>
    ensures { IsRequestOfNamed (codes "rules") (rows_of (found_of given.now)) result }
{
    match given.get_str("file") {
        Some(file) => Some(Request::Rules {
            file,
            check: is_set(given.get_str("check")),
        }),
        None => None,
    }
}

/// What the words after `answer` ask for.
fn answer_request<'a>(given: &ArgMatches<'a>) -> Request<'a>
    ensures { IsRequestOfNamed (codes "answer") (rows_of (found_of given.now)) (Some result) }
{
    Request::Answer(AnswerRequest {
        rules: given.get_str("rules"),
        lenient: is_set(given.get_str("lenient")),
        ignore_case: is_set(given.get_str("ignore-case")),
        least_stages: is_set(given.get_str("least-stages")),
    })
}

/// What the words after `filter` ask for.
fn filter_request<'a>(given: &ArgMatches<'a>) -> Option<Request<'a>>
    ensures { IsRequestOfNamed (codes "filter") (rows_of (found_of given.now)) result }
{
    let address = given.get_str("address")?;
    Some(Request::Filter(FilterRequest {
        address,
        rules: given.get_str("rules"),
        count: number_or(COUNT_DEFAULT, given.get_str("count")),
        lenient: is_set(given.get_str("lenient")),
        ignore_case: is_set(given.get_str("ignore-case")),
        least_stages: is_set(given.get_str("least-stages")),
    }))
}

/// What the words after `serve` ask for.
fn serve_request<'a>(
    alloc: Global,
    given: &ArgMatches<'a>,
) -> Result<Option<Request<'a>>, AllocError>
    ensures { IfOk result (IsRequestOfNamed (codes "serve") (rows_of (found_of given.now))) }
{
    let Some(addresses) = given.get_strs("address") else {
        return Ok(None);
    };
    let addresses = Vec::from_slice(alloc, addresses)?;
    Ok(Some(Request::Serve(ServeRequest {
        addresses,
        rules: given.get_str("rules"),
        at_once: number_or(AT_ONCE_DEFAULT, given.get_str("at-once")),
        timeout: number_or(IDLE_DEFAULT, given.get_str("timeout")),
        mode: number_or(MODE_DEFAULT, given.get_str("mode")),
        log: is_set(given.get_str("log")),
        ignore_case: is_set(given.get_str("ignore-case")),
        all_stages: is_set(given.get_str("all-stages")),
    })))
}

/// What the words after `mta` ask for.
fn mta_request<'a>(alloc: Global, given: &ArgMatches<'a>) -> Result<Option<Request<'a>>, AllocError>
    ensures { IfOk result (IsRequestOfNamed (codes "mta") (rows_of (found_of given.now))) }
{
    let Some(address) = given.get_str("address") else {
        return Ok(None);
    };
    let Some(session) = given.get_str("session") else {
        return Ok(None);
    };
    let macros = Vec::from_slice(alloc, given.get_strs("macro").unwrap_or(&[]))?;
    Ok(Some(Request::Mta(MtaRequest {
        address,
        session,
        loss: loss_named(given.get_str("loss")),
        timeout: number_or(TIMEOUT_DEFAULT, given.get_str("timeout")),
        actions: given.get_str("actions"),
        protocol: given.get_str("protocol"),
        wait: number_or(0, given.get_str("wait")),
        expect: given.get_str("expect"),
        show_negotiation: is_set(given.get_str("show-negotiation")),
        macros,
        at_loss: number(given.get_str("at-loss")),
    })))
}

/// What the words after `play` ask for.
fn play_request<'a>(given: &ArgMatches<'a>) -> Option<Request<'a>>
    ensures { IsRequestOfNamed (codes "play") (rows_of (found_of given.now)) result }
{
    let session = given.get_str("session")?;
    Some(Request::Play(PlayRequest {
        session,
        rules: given.get_str("rules"),
        ignore_case: is_set(given.get_str("ignore-case")),
        least_stages: is_set(given.get_str("least-stages")),
        actions: given.get_str("actions"),
        protocol: given.get_str("protocol"),
        events: given.get_str("events"),
        loss: loss_named(given.get_str("loss")),
        expect: given.get_str("expect"),
    }))
}

/// What the words after `replay` ask for.
fn replay_request<'a>(given: &ArgMatches<'a>) -> Option<Request<'a>>
    ensures { IsRequestOfNamed (codes "replay") (rows_of (found_of given.now)) result }
{
    let address = given.get_str("address")?;
    let trace = given.get_str("trace")?;
    Some(Request::Replay(ReplayRequest {
        address,
        trace,
        timeout: number_or(TIMEOUT_DEFAULT, given.get_str("timeout")),
        wait: number_or(0, given.get_str("wait")),
    }))
}

/// What the words after `load` ask for.
fn load_request<'a>(given: &ArgMatches<'a>) -> Option<Request<'a>>
    ensures { IsRequestOfNamed (codes "load") (rows_of (found_of given.now)) result }
{
    let address = given.get_str("address")?;
    let session = given.get_str("session")?;
    Some(Request::Load(LoadRequest {
        address,
        session,
        at_once: number_or(LOAD_AT_ONCE_DEFAULT, given.get_str("at-once")),
        seconds: number_or(0, given.get_str("for")),
        messages: number_or(0, given.get_str("messages")),
        rate: number_or(0, given.get_str("rate")),
        timeout: number_or(TIMEOUT_DEFAULT, given.get_str("timeout")),
        json: is_set(given.get_str("json")),
    }))
}

/// What the words after `probe` ask for.
fn probe_request<'a>(given: &ArgMatches<'a>) -> Option<Request<'a>>
    ensures { IsRequestOfNamed (codes "probe") (rows_of (found_of given.now)) result }
{
    let address = given.get_str("address")?;
    let session = given.get_str("session")?;
    Some(Request::Probe(ProbeRequest {
        address,
        session,
        only: given.get_str("only"),
        seed: number_or(SEED_DEFAULT, given.get_str("seed")),
        timeout: number_or(PROBE_TIMEOUT_DEFAULT, given.get_str("timeout")),
    }))
}

/// What the words after `record` ask for.
fn record_request<'a>(given: &ArgMatches<'a>) -> Option<Request<'a>>
    ensures { IsRequestOfNamed (codes "record") (rows_of (found_of given.now)) result }
{
    let listen = given.get_str("listen")?;
    let address = given.get_str("address")?;
    let directory = given.get_str("directory")?;
    Some(Request::Record(RecordRequest {
        listen,
        address,
        directory,
        count: number_or(0, given.get_str("count")),
    }))
}

/// Whether a flag is set, by its text.
fn is_set(text: Option<&str>) -> bool
    ensures { IsTrue result ↔ (text_of text.entry ≡ Some (codes "true")) }
{
    matches!(text, Some("true"))
}

/// The number in the text of an option, which parsing has looked at, or the default where it isn't given.
fn number_or(default: u32, text: Option<&str>) -> u32
    ensures { IsNumberOr default 0 (2 ^ 32 - 1) (text_of text.entry) result }
{
    match text {
        Some(text) => text.parse().unwrap_or(default),
        None => default,
    }
}

/// The number in the text of an option, which parsing has looked at; nothing where it isn't given.
fn number(text: Option<&str>) -> Option<u32>
    ensures { IsNumber 0 (2 ^ 32 - 1) (text_of text.entry) result }
{
    match text {
        Some(text) => Some(text.parse().unwrap_or(0)),
        None => None,
    }
}

/// What the text of the option `loss` names, which parsing has looked at, or what becomes of messages without it.
fn loss_named(text: Option<&str>) -> OnLoss
    ensures { IsLoss (text_of text.entry) result }
{
    match text {
        Some("accept") => OnLoss::Accept,
        Some("reject") => OnLoss::Reject,
        _ => OnLoss::Tempfail,
    }
}
