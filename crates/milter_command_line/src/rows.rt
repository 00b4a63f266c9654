//! The words of the subcommands.

use crate::limits::{
    AT_ONCE_MAX, BODIES_MAX, COUNT_MAX, IDLE_MAX, LOAD_SECONDS_MAX, MESSAGES_MAX, MODE_MAX,
    RATE_MAX, SEED_MAX, SENT_MAX, TIMEOUT_MAX, WAIT_MAX,
};
use crate::word::{Kind, Word};

pub(crate) const ADDRESS: Word<'static> = Word {
    kind: Kind::Place,
    name: "address",
    value: "ADDRESS",
    help: "Where to listen: inet:PORT@HOST or unix:PATH",
};

pub(crate) const ADDRESSES: Word<'static> = Word {
    kind: Kind::Places,
    name: "address",
    value: "ADDRESS",
    help: "Where to listen: inet:PORT@HOST or unix:PATH",
};

pub(crate) const FILTER_ADDRESS: Word<'static> = Word {
    kind: Kind::Place,
    name: "address",
    value: "ADDRESS",
    help: "Where the filter listens: inet:PORT@HOST or unix:PATH",
};

pub(crate) const SESSION_FILE: Word<'static> = Word {
    kind: Kind::Place,
    name: "file",
    value: "FILE",
    help: "The path of the session file",
};

pub(crate) const RULE_FILE: Word<'static> = Word {
    kind: Kind::Place,
    name: "file",
    value: "FILE",
    help: "The path of the rule file",
};

pub(crate) const SESSION: Word<'static> = Word {
    kind: Kind::Place,
    name: "session",
    value: "SESSION",
    help: "The path of the session file",
};

pub(crate) const TRACE_FILES: Word<'static> = Word {
    kind: Kind::AnyPlaces,
    name: "file",
    value: "FILE",
    help: "The path of a trace; without one standard input is read",
};

pub(crate) const TRACE: Word<'static> = Word {
    kind: Kind::Place,
    name: "trace",
    value: "TRACE",
    help: "The path of the trace",
};

pub(crate) const NAMES: Word<'static> = Word {
    kind: Kind::Flag,
    name: "names",
    value: "",
    help: "Prints the bits of options by their names besides",
};

pub(crate) const BODIES: Word<'static> = Word {
    kind: Kind::UpTo(BODIES_MAX),
    name: "bodies",
    value: "N",
    help: "Prints the first N bytes of bodies, up to 65,535",
};

pub(crate) const PCAP: Word<'static> = Word {
    kind: Kind::Flag,
    name: "pcap",
    value: "",
    help: "Reads captures, as tcpdump writes them, and no traces",
};

pub(crate) const CHECK: Word<'static> = Word {
    kind: Kind::Flag,
    name: "check",
    value: "",
    help: "Prints what is wrong with the rules in place of them",
};

pub(crate) const RULES: Word<'static> = Word {
    kind: Kind::Value,
    name: "rules",
    value: "FILE",
    help: "The path of a rule file; without one all mail goes on",
};

pub(crate) const LENIENT: Word<'static> = Word {
    kind: Kind::Flag,
    name: "lenient",
    value: "",
    help: "Has a greeting or a sender end the message before it",
};

pub(crate) const IGNORE_CASE: Word<'static> = Word {
    kind: Kind::Flag,
    name: "ignore-case",
    value: "",
    help: "Compares texts in any case of ASCII letters",
};

pub(crate) const LEAST_STAGES: Word<'static> = Word {
    kind: Kind::Flag,
    name: "least-stages",
    value: "",
    help: "Asks only for the stages that the rules need",
};

pub(crate) const ALL_STAGES: Word<'static> = Word {
    kind: Kind::Flag,
    name: "all-stages",
    value: "",
    help: "Asks for all stages, also those that no rule needs",
};

pub(crate) const COUNT: Word<'static> = Word {
    kind: Kind::Number(COUNT_MAX),
    name: "count",
    value: "N",
    help: "How many connections, up to 1,000,000; without it one",
};

pub(crate) const AT_ONCE: Word<'static> = Word {
    kind: Kind::Number(AT_ONCE_MAX),
    name: "at-once",
    value: "N",
    help: "Connections at once, up to 10,000; without it 200",
};

pub(crate) const IDLE: Word<'static> = Word {
    kind: Kind::Number(IDLE_MAX),
    name: "timeout",
    value: "SECONDS",
    help: "How long one may be idle, up to 86,400; else 7,210",
};

pub(crate) const MODE: Word<'static> = Word {
    kind: Kind::Number(MODE_MAX),
    name: "mode",
    value: "OCTAL",
    help: "The mode of a Unix socket; without it 660",
};

pub(crate) const LOG: Word<'static> = Word {
    kind: Kind::Flag,
    name: "log",
    value: "",
    help: "Logs each decision; with the word all each message",
};

pub(crate) const TIMEOUT: Word<'static> = Word {
    kind: Kind::Number(TIMEOUT_MAX),
    name: "timeout",
    value: "SECONDS",
    help: "For one read or write, up to 3,600; without it 30",
};

pub(crate) const ACTIONS: Word<'static> = Word {
    kind: Kind::Value,
    name: "actions",
    value: "NAMES",
    help: "The actions to offer; without it all",
};

pub(crate) const PROTOCOL: Word<'static> = Word {
    kind: Kind::Value,
    name: "protocol",
    value: "NAMES",
    help: "The protocol bits to offer; without it all",
};

pub(crate) const WAIT: Word<'static> = Word {
    kind: Kind::Number(WAIT_MAX),
    name: "wait",
    value: "SECONDS",
    help: "How long to try to connect at first; without it once",
};

pub(crate) const EXPECT: Word<'static> = Word {
    kind: Kind::Value,
    name: "expect",
    value: "FILE",
    help: "A file of expected reports: others alone are printed",
};

pub(crate) const SHOW_NEGOTIATION: Word<'static> = Word {
    kind: Kind::Flag,
    name: "show-negotiation",
    value: "",
    help: "Prints the offer and the reply to it at first",
};

pub(crate) const MACRO: Word<'static> = Word {
    kind: Kind::Values,
    name: "macro",
    value: "MACRO",
    help: "STAGE:NAME=VALUE; may be given more than once",
};

pub(crate) const AT_LOSS: Word<'static> = Word {
    kind: Kind::UpTo(SENT_MAX),
    name: "at-loss",
    value: "N",
    help: "Closes once N bytes were sent, up to 4,294,967,295",
};

pub(crate) const LOAD_AT_ONCE: Word<'static> = Word {
    kind: Kind::Number(AT_ONCE_MAX),
    name: "at-once",
    value: "N",
    help: "Connections at once, up to 10,000; without it one",
};

pub(crate) const LOAD_SECONDS: Word<'static> = Word {
    kind: Kind::Number(LOAD_SECONDS_MAX),
    name: "for",
    value: "SECONDS",
    help: "How long it lasts, up to 86,400; see below",
};

pub(crate) const MESSAGES: Word<'static> = Word {
    kind: Kind::Number(MESSAGES_MAX),
    name: "messages",
    value: "N",
    help: "How many messages, up to 4,000,000,000",
};

pub(crate) const RATE: Word<'static> = Word {
    kind: Kind::Number(RATE_MAX),
    name: "rate",
    value: "R",
    help: "Messages a second, up to 1,000,000; else at once",
};

pub(crate) const REPLY_TIMEOUT: Word<'static> = Word {
    kind: Kind::Number(TIMEOUT_MAX),
    name: "timeout",
    value: "SECONDS",
    help: "For one reply, up to 3,600; without it 30",
};

pub(crate) const JSON: Word<'static> = Word {
    kind: Kind::Flag,
    name: "json",
    value: "",
    help: "Prints the figures as JSON",
};

pub(crate) const ONLY: Word<'static> = Word {
    kind: Kind::Value,
    name: "only",
    value: "NAME",
    help: "The trials of this kind alone; without it all",
};

pub(crate) const SEED: Word<'static> = Word {
    kind: Kind::UpTo(SEED_MAX),
    name: "seed",
    value: "N",
    help: "Of mutated packets, up to 4,294,967,295; else 1",
};

pub(crate) const PROBE_TIMEOUT: Word<'static> = Word {
    kind: Kind::Number(TIMEOUT_MAX),
    name: "timeout",
    value: "SECONDS",
    help: "For one reply, up to 3,600; without it 5",
};

pub(crate) const LISTEN: Word<'static> = Word {
    kind: Kind::Place,
    name: "listen",
    value: "LISTEN",
    help: "Where to listen: inet:PORT@HOST or unix:PATH",
};

pub(crate) const DIRECTORY: Word<'static> = Word {
    kind: Kind::Place,
    name: "directory",
    value: "DIR",
    help: "The directory of the traces, which is made if need be",
};

pub(crate) const RECORD_COUNT: Word<'static> = Word {
    kind: Kind::Number(COUNT_MAX),
    name: "count",
    value: "N",
    help: "Ends after N connections, up to 1,000,000",
};

pub(crate) const EVENTS: Word<'static> = Word {
    kind: Kind::Value,
    name: "events",
    value: "FILE",
    help: "An event file; without one everything arrives",
};

pub(crate) const EXPLAIN: Word<'static> = Word {
    kind: Kind::Flag,
    name: "explain",
    value: "",
    help: "Explains a fault in words, as on a terminal",
};

/// It is a choice where its words are given.
pub(crate) const LOSS: Word<'static> = Word {
    kind: Kind::Value,
    name: "loss",
    value: "WORD",
    help: "What becomes of a message whose filter is lost; without it tempfail",
};
