//! A cursor over the lines of a file: one line at a time becomes words.

ghost use Rattle.std.specs.Prelude.{◌≡◌, ◌≢◌, ◌==◌, ◌<◌, ◌≤◌, ◌+◌, ◌∷◌, [], IfErr, IfOk, IfSome, List, OnErr, false, true, ℕ};
ghost use Rattle.std.specs.Prelude.{length, position};
ghost use Rattle.std.specs.Option.{MatchOption};
ghost use Rattle.milter_text.specs.declared.line_fault.LineFault.TheVariants as faults;
ghost use Rattle.milter_text.specs.declared.word.Word.{Word};
ghost use Rattle.milter_text.specs.LineCursor.{HasNoNext, IsNextLine, NextHasWords, all_contents};
ghost use Rattle.milter_text.specs.LineFault.{IsAt, IsBefore};
ghost use Rattle.milter_text.specs.Lines.{contents, lines_of};
ghost use Rattle.milter_text.specs.WordValues.{begins, is_plain_word};
ghost use Rattle.milter_text.specs.Words.{HasWords};

use crate::line_fault::LineFault;
use crate::line_words::{after_blanks, is_after_word, words};
use crate::lines::{is_skipped, line_content};
use crate::word::{Word, WordFault};
use memchr::memchr;
use std::alloc::Global;
use std::marker::Model;

/// A line of a file that isn't skipped.
#[derive(Drop)]
pub struct FileLine {
    /// The number of the line. Lines are numbered from 1, the skipped ones too.
    pub number: u64,
    /// The words of the line, in order.
    pub words: Vec<Word>,
}

/// The lines of a file that aren't skipped, from the one at the cursor on. Skipped are blank lines, and lines that
/// begin with a `#` after any number of blanks. A line ends before its LF, and one CR before that doesn't count; the
/// last line may have no LF. The cursor borrows the bytes of the file, and takes memory only for the words of a line.
#[derive(Drop)]
pub struct LineCursor<'a> {
    /// The content of the line at the cursor; none at the end of the file.
    line: Option<&'a [u8]>,
    /// The number of lines before the one at the cursor, or before the end of the file.
    before: u64,
    /// The bytes after the line at the cursor.
    rest: &'a [u8],
}

impl<'a> Model for LineCursor<'a> {
    ghost use Rattle.std.specs.Prelude.{option_map};
    ghost use Rattle.milter_text.specs.LineCursor.{LinesAhead, lines_ahead};

    ghost Value = { LinesAhead };

    ghost view = { λ cursor. lines_ahead (option_map (λ line. line.now) cursor.line) cursor.before cursor.rest.now };
}

impl<'a> LineCursor<'a> {
    /// A cursor at the first line of these bytes.
    pub fn new(bytes: &'a [u8]) -> Self
        ensures lines { result.lines ≡ contents bytes.now }
        ensures end { result.end ≤ length (lines_of bytes.now) + 1 }
    {
        first_unskipped(bytes, 0)
    }

    /// The number of the line at the cursor; at the end of the file that of the line after the last one.
    pub fn number(&self) -> u64
        ensures from { 1 ≤ result }
        ensures line { self.now.lines ≢ [] → result < self.now.end }
        ensures to { result ≤ self.now.end }
    {
        self.before.saturating_add(1)
    }

    /// Whether no line is left.
    pub fn is_at_end(&self) -> bool
        ensures some { result ≡ false → self.now.lines ≢ [] }
        ensures none { result ≡ true → self.now.lines ≡ [] }
    {
        self.line.is_none()
    }

    /// The words of the line at the cursor, which moves behind it; none at the end of the file. The fault is
    /// `NotInWords` where the line is not in words. After either fault the cursor stays.
    pub fn next(&mut self, alloc: Global) -> Result<Option<FileLine>, LineFault>
        ensures found { IfOk result (λ found. MatchOption found ((self.old.lines ≡ []) × (self.new ≡ self.old))
            (λ line. IsNextLine self.old line.number line.words.items self.new)) }
        ensures only { NextHasWords self.old.lines → IfErr result (λ e. e ≡ faults.NoMemory) }
        ensures end { self.new.end ≤ self.old.end }
        ensures stays { OnErr result (self.new ≡ self.old) }
        ensures within { IfErr result (IsBefore self.old.end) }
    {
        let Some(line) = self.line else {
            return Ok(None);
        };
        let number = self.before.saturating_add(1);
        let words = words_in(alloc, line, number)?;
        *self = first_unskipped(self.rest, number);
        Ok(Some(FileLine { number, words }))
    }

    /// As [`next`](LineCursor::next), where the first word of the line is this keyword; none where it is another, and
    /// then the cursor stays.
    pub fn next_if(&mut self, alloc: Global, keyword: &[u8]) -> Result<Option<FileLine>, LineFault>
        requires { is_plain_word keyword.now ≡ true }
        ensures found { IfOk result (λ found. MatchOption found
            (HasNoNext keyword.now self.old.lines × (self.new ≡ self.old))
            (λ line. IsNextLine self.old line.number line.words.items self.new
            × (begins keyword.now line.words.items ≡ true))) }
        ensures only { NextHasWords self.old.lines → IfErr result (λ e. e ≡ faults.NoMemory) }
        ensures end { self.new.end ≤ self.old.end }
        ensures stays { OnErr result (self.new ≡ self.old) }
        ensures within { IfErr result (IsBefore self.old.end) }
    {
        match self.line {
            Some(line) if begins(keyword, line) => self.next(alloc),
            _ => Ok(None),
        }
    }
}

/// A cursor at the first line of these bytes that isn't skipped, where there are as many lines before the bytes.
fn first_unskipped(bytes: &[u8], before: u64) -> LineCursor<'_>
    ensures lines { result.lines ≡ contents bytes.now }
    ensures end { result.end ≤ before + length (lines_of bytes.now) + 1 }
{
    let mut rest = bytes;
    let mut skipped = before;
    while let Some((line, after)) = first_line(rest) {
        if !is_skipped(line) {
            return LineCursor {
                line: Some(line),
                before: skipped,
                rest: after,
            };
        }
        rest = after;
        skipped = skipped.saturating_add(1);
    }
    LineCursor {
        line: None,
        before: skipped,
        rest,
    }
}

/// The content of the first line, and the bytes after the line; none where there are no bytes.
fn first_line(bytes: &[u8]) -> Option<(&[u8], &[u8])>
    ensures line { MatchOption result (bytes.now ≡ [])
        (λ x. all_contents bytes.now ≡ x.0.now ∷ all_contents x.1.now) }
    ensures shorter { IfSome result (λ x. length x.1.now < length bytes.now) }
{
    if let Some(end) = first_end(bytes) {
        return Some((line_content(&bytes[..end], true), &bytes[end + 1..]));
    }
    if bytes.is_empty() {
        return None;
    }
    Some((bytes, &[]))
}

/// The index of the first LF.
fn first_end(bytes: &[u8]) -> Option<usize>
    ensures { result ≡ position (λ byte. byte == 10) bytes.now }
{
    memchr(b'\n', bytes)
}

/// The words of the line with this number.
fn words_in(alloc: Global, line: &[u8], number: u64) -> Result<Vec<Word>, LineFault>
    ensures found { IfOk result (λ words. HasWords line.now words.items) }
    ensures only { (words : List Word) → HasWords line.now words → IfErr result (λ e. e ≡ faults.NoMemory) }
    ensures at { IfErr result (λ e. IsAt number e) }
{
    match words(alloc, line) {
        Ok(words) => Ok(words),
        Err(WordFault::BadWord) => Err(LineFault::NotInWords(number)),
        Err(WordFault::NoMemory) => Err(LineFault::NoMemory),
    }
}

/// Whether the first word of the line is the keyword.
fn begins(keyword: &[u8], line: &[u8]) -> bool
    requires { is_plain_word keyword.now ≡ true }
    ensures { (words : List Word) → HasWords line.now words → result ≡ begins keyword.now words }
{
    match after_blanks(line).strip_prefix(keyword) {
        Some(rest) => is_after_word(rest),
        None => false,
    }
}
