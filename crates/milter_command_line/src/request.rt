//! What the program is asked to do.

use milter_mta_outcome::OnLoss;

/// What the program is asked to do.
#[derive(Drop)]
pub enum Request<'a> {
    /// To print the packets of traces.
    Trace(TraceRequest<'a>),
    /// To print the session of a file in canonical form.
    Session {
        /// The path of the file.
        file: &'a str,
    },
    /// To print the rules of a file in canonical form, or what is to be said of them.
    Rules {
        /// The path of the file.
        file: &'a str,
        /// Whether what is to be said of the rules is printed in place of them.
        check: bool,
    },
    /// To reply to the mail server on standard input, as a filter.
    Answer(AnswerRequest<'a>),
    /// To serve connections of mail servers one after another, as a filter.
    Filter(FilterRequest<'a>),
    /// To serve connections of mail servers at once, as a filter, until it is ended.
    Serve(ServeRequest<'a>),
    /// To play the session of a file to a filter, as a mail server, and to print what becomes of its messages.
    Mta(MtaRequest<'a>),
    /// To play the session of a file to a filter in memory, and to print what becomes of its messages.
    Play(PlayRequest<'a>),
    /// To send the mail server's commands of a trace to a filter, and to print what it replies beside what is recorded.
    Replay(ReplayRequest<'a>),
    /// To put a load on a filter, as mail servers, and to print how fast it replies.
    Load(LoadRequest<'a>),
    /// To try how robust a filter is, and to print what breaks.
    Probe(ProbeRequest<'a>),
    /// To pass connections of mail servers on to a filter, and to record each in a trace.
    Record(RecordRequest<'a>),
}

/// Traces that are to be printed.
#[derive(Drop)]
pub struct TraceRequest<'a> {
    /// The paths of the files, which are read in this order; none where standard input is read.
    pub files: Vec<&'a str>,
    /// Whether the bits of offers and of replies to them are printed by their names besides.
    pub names: bool,
    /// How many of the first bytes of a packet's body are printed at most, up to 65,535. Without it none are.
    pub bodies: Option<u32>,
    /// Whether the files are captures, as tcpdump writes them, and no traces.
    pub pcap: bool,
}

/// A connection that is served by standard input and output.
#[derive(Clone, Copy)]
pub struct AnswerRequest<'a> {
    /// The path of a rule file. Without one all mail goes on.
    pub rules: Option<&'a str>,
    /// Whether a greeting or a sender within a message ends that message.
    pub lenient: bool,
    /// Whether the case of ASCII letters doesn't count in the texts of conditions.
    pub ignore_case: bool,
    /// Whether the stages alone are asked for that the rules look at.
    pub least_stages: bool,
}

/// Connections that are served one after another.
#[derive(Clone, Copy)]
pub struct FilterRequest<'a> {
    /// The text of the address of the socket.
    pub address: &'a str,
    /// The path of a rule file. Without one all mail goes on.
    pub rules: Option<&'a str>,
    /// How many connections, from 1 to 1,000,000.
    pub count: u32,
    /// Whether a greeting or a sender within a message ends that message.
    pub lenient: bool,
    /// Whether the case of ASCII letters doesn't count in the texts of conditions.
    pub ignore_case: bool,
    /// Whether the stages alone are asked for that the rules look at.
    pub least_stages: bool,
}

/// A service of many connections.
#[derive(Drop)]
pub struct ServeRequest<'a> {
    /// The texts of the addresses of the sockets, at least one.
    pub addresses: Vec<&'a str>,
    /// The path of a rule file. Without one all mail goes on.
    pub rules: Option<&'a str>,
    /// How many connections are open at once, from 1 to 10,000.
    pub at_once: u32,
    /// After how many seconds an idle connection is closed, from 1 to 86,400.
    pub timeout: u32,
    /// The digits of a Unix socket's mode, up to 777.
    pub mode: u32,
    /// Whether a line is written for each decision that isn't to go on.
    pub log: bool,
    /// Whether the case of ASCII letters doesn't count in the texts of conditions.
    pub ignore_case: bool,
    /// Whether all stages are asked for, also those that no rule looks at.
    pub all_stages: bool,
}

/// A session that is to be played to a filter.
#[derive(Drop)]
pub struct MtaRequest<'a> {
    /// The text of the address of the filter's socket.
    pub address: &'a str,
    /// The path of the session file.
    pub session: &'a str,
    /// What becomes of a message whose filter is lost.
    pub loss: OnLoss,
    /// How many seconds a read or a write may take, from 1 to 3,600.
    pub timeout: u32,
    /// The names of the actions that are offered. Without them all are.
    pub actions: Option<&'a str>,
    /// The names of the protocol bits that are offered. Without them all are.
    pub protocol: Option<&'a str>,
    /// For how many seconds connecting is tried again before the first message, up to 3,600; 0 where it is tried once.
    pub wait: u32,
    /// The path of a file with the reports that are expected.
    pub expect: Option<&'a str>,
    /// Whether the offer and the reply to it are printed at first.
    pub show_negotiation: bool,
    /// The macros that are sent besides those of the session, or in place of them: the text of each.
    pub macros: Vec<&'a str>,
    /// After how many bytes to the filter the first connection is closed, where it is.
    pub at_loss: Option<u32>,
}

/// A session that is to be played to a filter in memory.
#[derive(Clone, Copy)]
pub struct PlayRequest<'a> {
    /// The path of the session file.
    pub session: &'a str,
    /// The path of a rule file. Without one all mail goes on.
    pub rules: Option<&'a str>,
    /// Whether the case of ASCII letters doesn't count in the texts of conditions.
    pub ignore_case: bool,
    /// Whether the stages alone are asked for that the rules look at.
    pub least_stages: bool,
    /// The names of the actions that are offered. Without them all are.
    pub actions: Option<&'a str>,
    /// The names of the protocol bits that are offered. Without them all are.
    pub protocol: Option<&'a str>,
    /// The path of an event file. Without one everything arrives over one connection.
    pub events: Option<&'a str>,
    /// What becomes of a message whose filter is lost.
    pub loss: OnLoss,
    /// The path of a file with the reports that are expected.
    pub expect: Option<&'a str>,
}

/// A trace that is to be sent to a filter again.
#[derive(Clone, Copy)]
pub struct ReplayRequest<'a> {
    /// The text of the address of the filter's socket.
    pub address: &'a str,
    /// The path of the trace.
    pub trace: &'a str,
    /// How many seconds a read or a write may take, from 1 to 3,600.
    pub timeout: u32,
    /// For how many seconds connecting is tried again, up to 3,600; 0 where it is tried once.
    pub wait: u32,
}

/// A load that is to be put on a filter.
#[derive(Clone, Copy)]
pub struct LoadRequest<'a> {
    /// The text of the address of the filter's socket.
    pub address: &'a str,
    /// The path of the session file.
    pub session: &'a str,
    /// How many connections are open at once, from 1 to 10,000.
    pub at_once: u32,
    /// After how many seconds the load ends, up to 86,400; 0 where none are given.
    pub seconds: u32,
    /// After how many messages the load ends, up to 4,000,000,000; 0 where none are given.
    pub messages: u32,
    /// How many messages a second are sent, up to 1,000,000; 0 where none are given.
    pub rate: u32,
    /// How many seconds one reply may take, from 1 to 3,600.
    pub timeout: u32,
    /// Whether what is printed is JSON.
    pub json: bool,
}

/// A filter whose robustness is to be tried.
#[derive(Clone, Copy)]
pub struct ProbeRequest<'a> {
    /// The text of the address of the filter's socket.
    pub address: &'a str,
    /// The path of the session file.
    pub session: &'a str,
    /// The name of the trials that are made. Without it all are.
    pub only: Option<&'a str>,
    /// The seed of mutated packets.
    pub seed: u32,
    /// How many seconds one reply may take, from 1 to 3,600.
    pub timeout: u32,
}

/// Connections that are to be passed on and recorded.
#[derive(Clone, Copy)]
pub struct RecordRequest<'a> {
    /// The text of the address of the socket on which they come.
    pub listen: &'a str,
    /// The text of the address of the filter's socket.
    pub address: &'a str,
    /// The path of the directory of the traces.
    pub directory: &'a str,
    /// How many connections, up to 1,000,000; 0 where there is no such limit.
    pub count: u32,
}
