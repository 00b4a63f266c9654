//! The log of a service: where its lines go, and those about the service itself.

use crate::decision_log::LogDetail;
use crate::line_output::LineOutput;
use crate::log_line::{LogKeys, LogLine, line_of};
use crate::rule_source::RuleText;
use milter_cli::{FileError, ToolError};
use milter_rules::Rules;
use milter_service::Shortage;
use milter_text::TextFault;
use milter_wire::Stage;
use sha2::{Digest, Sha256};
use std::alloc::Global;
use std::cell::{Cell, RefCell};
use std::io::Write;

/// The log of a service. It never fails: lines for which there is no memory or no room are counted as lost.
#[derive(Drop)]
pub struct ServiceLog<W: Write + Drop> {
    output: RefCell<LineOutput<W>>,
    detail: LogDetail,
    // The number of the connection that has its turn.
    number: Cell<u32>,
}

impl<W: Write + Drop> ServiceLog<W> {
    /// A log whose lines go to this output, with lines of decisions as the detail says.
    pub fn new(output: LineOutput<W>, detail: LogDetail) -> Self {
        ServiceLog {
            output: RefCell::new(output),
            detail,
            number: Cell::new(0),
        }
    }

    /// Which answers of rules have lines.
    pub(crate) fn detail(&self) -> LogDetail {
        self.detail
    }

    /// Has the lines of decisions that follow name the connection with this number.
    pub fn begin_turn(&self, number: u32) {
        self.number.set(number);
    }

    /// The number of the connection that has its turn.
    pub(crate) fn number(&self) -> u32 {
        self.number.get()
    }

    /// Writes the line of something that happened to the service.
    pub fn write_event(&self, alloc: Global, event: &ServiceEvent<'_>) {
        self.write(alloc, event)
    }

    /// Writes the line of these keys.
    pub(crate) fn write<K: LogKeys>(&self, alloc: Global, keys: &K) {
        if let Ok(mut output) = self.output.try_borrow_mut() {
            match line_of(alloc, keys) {
                Ok(line) => output.put(line.as_slice()),
                Err(_) => output.lose(),
            }
        }
    }
}

/// What a service begins with.
#[derive(Clone, Copy)]
pub struct ServiceStart<'a> {
    /// The version of the program.
    pub version: &'a str,
    /// The texts of the addresses of the sockets.
    pub addresses: &'a [&'a str],
    /// How many connections are open at once.
    pub at_once: u32,
    /// How many connections the descriptors of the process allow, where that is known.
    pub allowed: Option<u64>,
    /// The rule file, if there is one.
    pub file: Option<RuleText<'a>>,
    /// The rules.
    pub rules: &'a Rules,
}

/// Something that happened to a service.
#[derive(Clone, Copy)]
pub enum ServiceEvent<'a> {
    /// It begins.
    Start(ServiceStart<'a>),
    /// Its descriptors allow fewer connections than are to be open at once.
    Limit {
        /// How many are to be open at once.
        at_once: u32,
        /// How many the descriptors allow.
        allowed: u64,
    },
    /// It listens at an address.
    Listen(&'a str),
    /// Rules were read of a file that changed.
    Rules {
        /// The file.
        file: Option<RuleText<'a>>,
        /// The rules.
        rules: &'a Rules,
    },
    /// A file that changed gives no rules.
    NoRules {
        /// The file, where it was read.
        file: Option<RuleText<'a>>,
        /// Why it gives none.
        error: FileError,
        /// The lines that explain it.
        words: &'a [u8],
    },
    /// Connections are refused, or wait, for want of this.
    Full(Shortage),
    /// It ends by this error.
    End(&'a ToolError),
}

impl LogKeys for ServiceEvent<'_> {
    fn put_keys(&self, line: &mut LogLine<'_>) -> Result<(), TextFault> {
        line.put("event", self.name())?;
        match self {
            ServiceEvent::Start(start) => put_start(line, start),
            ServiceEvent::Limit { at_once, allowed } => {
                line.put_number("at-once", u64::from(*at_once))?;
                line.put_number("connections", *allowed)
            }
            ServiceEvent::Listen(address) => line.put("address", address.as_bytes()),
            ServiceEvent::Rules { file, rules } => put_rules(line, file, rules),
            ServiceEvent::NoRules { file, error, words } => {
                put_file(line, file)?;
                line.put_shown("error", error)?;
                put_words(line, words)
            }
            ServiceEvent::Full(shortage) => line.put("of", shortage.name()),
            ServiceEvent::End(error) => line.put_shown("error", *error),
        }
    }
}

impl ServiceEvent<'_> {
    /// The word of what happened.
    fn name(&self) -> &'static [u8] {
        match self {
            ServiceEvent::Start(_) => b"start",
            ServiceEvent::Limit { .. } => b"limit",
            ServiceEvent::Listen(_) => b"listen",
            ServiceEvent::Rules { .. } => b"rules",
            ServiceEvent::NoRules { .. } => b"no-rules",
            ServiceEvent::Full(_) => b"full",
            ServiceEvent::End(_) => b"end",
        }
    }
}

/// Puts what a service begins with.
fn put_start(line: &mut LogLine<'_>, start: &ServiceStart<'_>) -> Result<(), TextFault> {
    line.put("version", start.version.as_bytes())?;
    for address in start.addresses {
        line.put("address", address.as_bytes())?;
    }
    line.put_number("at-once", u64::from(start.at_once))?;
    if let Some(allowed) = start.allowed {
        line.put_number("connections", allowed)?;
    }
    put_rules(line, &start.file, start.rules)
}

/// Puts a rule file, and how many rules it has.
fn put_rules(
    line: &mut LogLine<'_>,
    file: &Option<RuleText<'_>>,
    rules: &Rules,
) -> Result<(), TextFault> {
    put_file(line, file)?;
    line.put_number("count", count_of(rules))
}

/// Puts the path of a rule file, and the checksum of its bytes; nothing where there is none.
fn put_file(line: &mut LogLine<'_>, file: &Option<RuleText<'_>>) -> Result<(), TextFault> {
    let Some(file) = file else {
        return Ok(());
    };
    line.put("rules", file.path.as_bytes())?;
    match file.bytes {
        Some(bytes) => put_checksum(line, bytes),
        None => Ok(()),
    }
}

/// Puts each of these lines.
fn put_words(line: &mut LogLine<'_>, words: &[u8]) -> Result<(), TextFault> {
    for text in words.split(|byte| *byte == b'\n') {
        if !text.is_empty() {
            line.put("why", text)?;
        }
    }
    Ok(())
}

/// Puts the SHA-256 checksum of these bytes, as `sha256sum` prints it.
fn put_checksum(line: &mut LogLine<'_>, bytes: &[u8]) -> Result<(), TextFault> {
    let mut digits = [0u8; 64];
    let digest = Sha256::digest(bytes);
    match hex::encode_to_slice(&digest, &mut digits) {
        Ok(()) => line.put("sha256", &digits),
        Err(_) => Ok(()),
    }
}

/// How many rules there are.
fn count_of(rules: &Rules) -> u64 {
    let mut count = 0u64;
    for stage in Stage::ALL {
        count = count.saturating_add(rules.at(stage).len() as u64);
    }
    count
}
