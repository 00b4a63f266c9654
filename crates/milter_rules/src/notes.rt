//! The lines that are said of a rule file.

use crate::compared::Compared;
use itoa::Buffer;
use milter_filter_rules::{Check, Condition, Field};
use milter_text::{Word, quote};
use milter_wire::{Actions, NoMemory, Protocol, Text};
use std::alloc::Global;

/// The most bytes that are shown of a word of the file.
const SHOWN_MAX: usize = 80;

/// The most texts that are shown of a condition.
const TEXTS_SHOWN_MAX: usize = 4;

/// What a line that is said asks for.
#[derive(Clone, Copy, PartialEq, Eq)]
pub enum Severity {
    /// Nothing that must be done: what is meant works, and can be got round or be written better.
    Hint,
    /// A change: a rule can't be read, or can't be meant so.
    Warning,
}

/// A span of a line that is said.
#[derive(Clone, Copy)]
pub enum Span<'a> {
    /// These bytes as they are.
    Plain(&'a [u8]),
    /// These bytes as a text in quotes; of many bytes the first, and two dots.
    Quoted(&'a [u8]),
    /// A word as it stands in the file; of a long one its beginning, and two dots.
    Word(&'a Word),
    /// A condition as it is written; of many texts the first, and two dots.
    Condition(&'a Condition),
    /// A condition with one text, as it is written.
    Compared(Compared<'a>),
    /// The names in this text, which are joined by `|`, as a list.
    List(&'a str),
    /// The names of the actions.
    Actions(Actions),
    /// The names of the bits of the protocol.
    Protocol(Protocol),
    /// The number in decimal.
    Number(u64),
}

/// The lines that are said of a rule file, as far as it was looked at.
#[derive(Drop)]
pub struct Notes<'n> {
    /// What allocates the lines, and what is made for them.
    alloc: Global,
    /// The name of the file.
    name: &'n str,
    /// The line of the file that is looked at; none where that is the file as a whole.
    line: Option<u64>,
    /// The lines that were said.
    text: Vec<u8>,
    /// The highest severity of these lines; none where there are none.
    severity: Option<Severity>,
}

impl<'n> Notes<'n> {
    /// No lines, of a file of this name.
    pub fn new(alloc: Global, name: &'n str) -> Self {
        Notes {
            alloc,
            name,
            line: None,
            text: Vec::new(alloc),
            severity: None,
        }
    }

    /// What allocates the lines, and what is made for them.
    pub fn alloc(&self) -> Global {
        self.alloc
    }

    /// Goes to the line with this number, or to the file as a whole.
    pub fn go_to(&mut self, line: Option<u64>) {
        self.line = line;
    }

    /// The lines that were said.
    pub fn text(&self) -> &[u8] {
        self.text.as_slice()
    }

    /// The highest severity of the lines that were said; none where none was. Doesn't allocate.
    pub fn severity(&self) -> Option<Severity> {
        self.severity
    }

    /// Says a warning of these spans, as a line.
    pub fn say(&mut self, spans: &[Span<'_>]) -> Result<(), NoMemory> {
        self.severity = Some(Severity::Warning);
        self.put_line(spans)
    }

    /// Says a hint of these spans, as a line.
    pub fn say_hint(&mut self, spans: &[Span<'_>]) -> Result<(), NoMemory> {
        self.severity = Some(self.severity.unwrap_or(Severity::Hint));
        self.put_line(spans)
    }

    /// Puts a line of these spans.
    fn put_line(&mut self, spans: &[Span<'_>]) -> Result<(), NoMemory> {
        self.put_place()?;
        for span in spans {
            self.put(span)?;
        }
        self.text.push(b'\n')?;
        Ok(())
    }

    /// Puts the name of the file and the number of the line.
    fn put_place(&mut self) -> Result<(), NoMemory> {
        self.text.extend_from_slice(self.name.as_bytes())?;
        if let Some(line) = self.line {
            self.text.push(b':')?;
            self.put_number(line)?;
        }
        self.text.extend_from_slice(b": ")?;
        Ok(())
    }

    /// Puts a span.
    fn put(&mut self, span: &Span<'_>) -> Result<(), NoMemory> {
        match span {
            Span::Plain(bytes) => self.put_plain(bytes),
            Span::Quoted(bytes) => self.put_quoted(bytes),
            Span::Word(word) => self.put_word(word),
            Span::Condition(condition) => self.put_condition(condition),
            Span::Compared(compared) => self.put_compared(*compared),
            Span::List(names) => self.put_list(names),
            Span::Actions(actions) => actions.put_names(&mut self.text),
            Span::Protocol(protocol) => protocol.put_names(&mut self.text),
            Span::Number(number) => self.put_number(*number),
        }
    }

    /// Puts bytes as they are.
    fn put_plain(&mut self, bytes: &[u8]) -> Result<(), NoMemory> {
        self.text.extend_from_slice(bytes)?;
        Ok(())
    }

    /// Puts bytes as a text in quotes.
    fn put_quoted(&mut self, bytes: &[u8]) -> Result<(), NoMemory> {
        quote(self.alloc, shown(bytes), &mut self.text)?;
        self.put_dots(bytes)
    }

    /// Puts a word as it stands in the file.
    fn put_word(&mut self, word: &Word) -> Result<(), NoMemory> {
        let bytes = word.text.as_slice();
        if word.quoted {
            return self.put_quoted(bytes);
        }
        self.put_plain(shown(bytes))?;
        self.put_dots(bytes)
    }

    /// Puts dots after the beginning of bytes that aren't shown whole.
    fn put_dots(&mut self, bytes: &[u8]) -> Result<(), NoMemory> {
        if bytes.len() > SHOWN_MAX {
            self.put_plain(b"..")?;
        }
        Ok(())
    }

    /// Puts a condition as it is written.
    fn put_condition(&mut self, condition: &Condition) -> Result<(), NoMemory> {
        match &condition.check {
            Check::Text(check) => {
                self.put_subject(Compared::new(condition.negated, check, b""))?;
                self.put_texts(check.texts.as_slice())
            }
            Check::Within(networks) => {
                self.put_not(condition.negated)?;
                self.put_plain(b"address within")?;
                self.put_texts(networks.as_slice())
            }
            Check::Over(measure, limit) => {
                self.put_not(condition.negated)?;
                self.put_plain(measure.name())?;
                self.put_plain(b" over ")?;
                self.put_number(u64::from(*limit))
            }
            Check::In(field, list) => {
                self.put_not(condition.negated)?;
                self.put_field(field)?;
                self.put_plain(b" in ")?;
                self.put_plain(shown(list.as_slice()))?;
                self.put_dots(list.as_slice())
            }
        }
    }

    /// Puts the texts of a condition: of many the first, and two dots.
    fn put_texts(&mut self, texts: &[Text]) -> Result<(), NoMemory> {
        for text in &texts[..texts.len().min(TEXTS_SHOWN_MAX)] {
            self.put_plain(b" ")?;
            self.put_quoted(text.as_slice())?;
        }
        if texts.len() > TEXTS_SHOWN_MAX {
            self.put_plain(b" ..")?;
        }
        Ok(())
    }

    /// Puts what stands before a condition that is negated.
    fn put_not(&mut self, negated: bool) -> Result<(), NoMemory> {
        if negated {
            self.put_plain(b"not ")?;
        }
        Ok(())
    }

    /// Puts a condition with one text as it is written.
    fn put_compared(&mut self, compared: Compared<'_>) -> Result<(), NoMemory> {
        self.put_subject(compared)?;
        self.put_plain(b" ")?;
        self.put_quoted(compared.text)
    }

    /// Puts what stands before the texts of a condition.
    fn put_subject(&mut self, compared: Compared<'_>) -> Result<(), NoMemory> {
        self.put_not(compared.negated)?;
        self.put_field(compared.field)?;
        self.put_plain(b" ")?;
        self.put_plain(compared.test.name())?;
        if compared.any_case {
            self.put_plain(b" any-case")?;
        }
        Ok(())
    }

    /// Puts a field with its name, where it has one.
    fn put_field(&mut self, field: &Field) -> Result<(), NoMemory> {
        self.put_plain(field.name())?;
        if let Field::Header(name) | Field::Macro(name) = field {
            self.put_plain(b" ")?;
            self.put_quoted(name.as_slice())?;
        }
        Ok(())
    }

    /// Puts names as a list: a comma between two of them, but `and` before the last.
    fn put_list(&mut self, names: &str) -> Result<(), NoMemory> {
        match names.rsplit_once('|') {
            Some((before, last)) => {
                self.put_names(before)?;
                self.put_plain(b" and ")?;
                self.put_plain(last.as_bytes())
            }
            None => self.put_plain(names.as_bytes()),
        }
    }

    /// Puts names with a comma between two of them.
    fn put_names(&mut self, names: &str) -> Result<(), NoMemory> {
        let mut joint: &[u8] = b"";
        for name in names.split('|') {
            self.put_plain(joint)?;
            self.put_plain(name.as_bytes())?;
            joint = b", ";
        }
        Ok(())
    }

    /// Puts a number in decimal.
    fn put_number(&mut self, number: u64) -> Result<(), NoMemory> {
        let mut digits = Buffer::new();
        self.put_plain(digits.format(number).as_bytes())
    }
}

/// What is shown of these bytes: the first of them.
fn shown(bytes: &[u8]) -> &[u8] {
    &bytes[..bytes.len().min(SHOWN_MAX)]
}
