//! What links are, and what fails of the calls on them, by the lines of a script.

ghost use Rattle.std.specs.Prelude.{◌≡◌, IfOk};

use crate::script::{Line, line_of, next_texts};
use crate::texts::{number_in, str_of, value_in};
use anyhow::{Context, bail};
use milter_text::LineCursor;
use milter_wire::Text;
use std::alloc::Global;
use std::io;
use std::io::ErrorKind;

/// How a read or a write fails.
#[derive(Clone, Copy)]
pub enum Failure {
    /// With an error of this kind.
    Error(ErrorKind),
    /// It moves no byte.
    Nothing,
}

impl Failure {
    /// What the call that fails answers.
    pub fn answer(self) -> io::Result<usize>
        ensures { IfOk result (λ count. count ≡ 0) }
    {
        match self {
            Failure::Error(kind) => Err(io::Error::from(kind)),
            Failure::Nothing => Ok(0),
        }
    }
}

/// Calls that come one after the other, counted from 1 over all links.
#[derive(Clone, Copy)]
pub struct Span {
    first: usize,
    count: usize,
}

impl Span {
    /// Whether the call of this number is one of them.
    pub fn has(self, number: usize) -> bool {
        self.first <= number && number - self.first < self.count
    }
}

/// Reads or writes that fail in one way.
#[derive(Clone, Copy)]
pub struct Failed {
    /// Which these are.
    pub span: Span,
    /// How they fail.
    pub failure: Failure,
}

/// Over what links go.
#[derive(Clone, Copy)]
pub enum Way {
    /// From memory to memory.
    Memory,
    /// A connection over TCP.
    Tcp,
    /// A connection over a Unix socket.
    Unix,
}

/// What links are, and what fails of them.
#[derive(Drop)]
pub struct Script {
    /// Over what they go.
    pub way: Way,
    /// Whether a connection was made before the first dial.
    pub is_dialled: bool,
    /// Whether the far end of each link is closed at once.
    pub is_closed: bool,
    /// The most bytes that a read moves.
    pub read_max: usize,
    /// The most bytes that a write moves.
    pub write_max: usize,
    /// The dials that fail.
    pub dials: Vec<Span>,
    /// The reads that fail.
    pub reads: Vec<Failed>,
    /// The writes that fail.
    pub writes: Vec<Failed>,
}

/// What a line is about.
#[derive(Clone, Copy)]
enum Subject {
    Tcp,
    Unix,
    Dialled,
    Closed,
    Pieces,
    Dial,
    Read,
    Write,
}

/// The first words of lines.
const SUBJECTS: [(&str, Subject); 8] = [
    ("tcp", Subject::Tcp),
    ("unix", Subject::Unix),
    ("dialled", Subject::Dialled),
    ("closed", Subject::Closed),
    ("pieces", Subject::Pieces),
    ("dial", Subject::Dial),
    ("read", Subject::Read),
    ("write", Subject::Write),
];

/// How a call fails, by its word.
const FAILURES: [(&str, Failure); 5] = [
    ("timed-out", Failure::Error(ErrorKind::TimedOut)),
    ("would-block", Failure::Error(ErrorKind::WouldBlock)),
    ("reset", Failure::Error(ErrorKind::ConnectionReset)),
    ("interrupted", Failure::Error(ErrorKind::Interrupted)),
    ("nothing", Failure::Nothing),
];

/// The two numbers that some texts begin with.
fn numbers_in(texts: &[Text]) -> anyhow::Result<(usize, usize)> {
    let [first, second, ..] = texts else {
        bail!("two numbers are to follow");
    };
    let first = number_in(str_of(first)?)?;
    Ok((first, number_in(str_of(second)?)?))
}

/// The calls of the texts `FIRST COUNT`.
fn span_in(texts: &[Text]) -> anyhow::Result<Span> {
    let (first, count) = numbers_in(texts)?;
    Ok(Span { first, count })
}

/// The calls of the texts `FIRST COUNT HOW`.
fn failed_in(texts: &[Text]) -> anyhow::Result<Failed> {
    let span = span_in(texts)?;
    let [_, _, how] = texts else {
        bail!("FIRST COUNT HOW is to follow");
    };
    let failure = value_in(&FAILURES, str_of(how)?).context("no way to fail")?;
    Ok(Failed { span, failure })
}

/// Notes what a line has.
fn note(script: &mut Script, line: Line<'_>) -> anyhow::Result<()> {
    let texts = line.texts;
    match value_in(&SUBJECTS, line.word).context("unknown word")? {
        Subject::Tcp => script.way = Way::Tcp,
        Subject::Unix => script.way = Way::Unix,
        Subject::Dialled => script.is_dialled = true,
        Subject::Closed => script.is_closed = true,
        Subject::Pieces => (script.read_max, script.write_max) = numbers_in(texts)?,
        Subject::Dial => script.dials.push(span_in(texts)?)?,
        Subject::Read => script.reads.push(failed_in(texts)?)?,
        Subject::Write => script.writes.push(failed_in(texts)?)?,
    }
    Ok(())
}

/// Notes what each line has.
fn note_all(alloc: Global, script: &mut Script, file: &[u8]) -> anyhow::Result<()> {
    let mut lines = LineCursor::new(file);
    for _ in 0..u64::MAX {
        match next_texts(alloc, &mut lines)? {
            Some(texts) => note(script, line_of(&texts)?)?,
            None => break,
        }
    }
    Ok(())
}

/// The script of these lines.
pub fn script_in(alloc: Global, file: &[u8]) -> anyhow::Result<Script> {
    let mut script = Script {
        way: Way::Memory,
        is_dialled: false,
        is_closed: false,
        read_max: usize::MAX,
        write_max: usize::MAX,
        dials: Vec::new(alloc),
        reads: Vec::new(alloc),
        writes: Vec::new(alloc),
    };
    note_all(alloc, &mut script, file)?;
    Ok(script)
}
