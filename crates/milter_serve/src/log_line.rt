//! A line of the log: keys with values in quotes.

use milter_text::{TextFault, TextWriter};
use std::alloc::Global;
use std::fmt::Display;

/// A line of the log, to which keys are put in their order.
#[derive(Drop)]
pub(crate) struct LogLine<'l> {
    alloc: Global,
    text: TextWriter<'l, Vec<u8>>,
    is_begun: bool,
}

impl<'l> LogLine<'l> {
    /// A line without keys.
    fn new(alloc: Global, line: &'l mut Vec<u8>, buffer: &'l mut Vec<u8>) -> Self {
        LogLine {
            alloc,
            text: TextWriter::new(line, buffer),
            is_begun: false,
        }
    }

    /// Puts a key, and its value in quotes, as texts are quoted; after a blank where it isn't the first.
    pub(crate) fn put(&mut self, key: &str, value: &[u8]) -> Result<(), TextFault> {
        if self.is_begun {
            self.text.put(b" ")?;
        }
        self.is_begun = true;
        self.text.put(key.as_bytes())?;
        self.text.put(b"=")?;
        self.text.put_quoted(value)
    }

    /// The same, where there is a value.
    pub(crate) fn put_if_known(
        &mut self,
        key: &str,
        value: Option<&[u8]>,
    ) -> Result<(), TextFault> {
        match value {
            Some(value) => self.put(key, value),
            None => Ok(()),
        }
    }

    /// The same with a number.
    pub(crate) fn put_number(&mut self, key: &str, number: u64) -> Result<(), TextFault> {
        let mut digits = itoa::Buffer::new();
        self.put(key, digits.format(number).as_bytes())
    }

    /// The same with what a value shows, without the LF at its end.
    pub(crate) fn put_shown<D: Display>(&mut self, key: &str, shown: &D) -> Result<(), TextFault> {
        let text = format!(in self.alloc; "{shown}")?;
        self.put(key, text.trim_end().as_bytes())
    }

    /// Ends the line.
    fn end(mut self) -> Result<(), TextFault> {
        self.text.put(b"\n")?;
        self.text.flush()
    }
}

/// What is put to lines of one kind.
pub(crate) trait LogKeys {
    /// Puts its keys.
    fn put_keys(&self, line: &mut LogLine<'_>) -> Result<(), TextFault>;
}

/// The whole line of these keys.
pub(crate) fn line_of<K: LogKeys>(alloc: Global, keys: &K) -> Result<Vec<u8>, TextFault> {
    let mut text = Vec::new(alloc);
    let mut buffer = Vec::new(alloc);
    let put = put_line(LogLine::new(alloc, &mut text, &mut buffer), keys);
    drop(buffer);
    match put {
        Ok(()) => Ok(text),
        Err(fault) => {
            drop(text);
            Err(fault)
        }
    }
}

/// Puts these keys to a line, and ends it.
fn put_line<K: LogKeys>(mut line: LogLine<'_>, keys: &K) -> Result<(), TextFault> {
    keys.put_keys(&mut line)?;
    line.end()
}
