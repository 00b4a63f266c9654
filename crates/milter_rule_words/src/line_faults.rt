//! What is said of the first fault of a rule file.

use crate::action_faults::{say_action_not_here, say_bad_action};
use crate::condition_faults::{say_bad_conditions, say_bad_stage};
use crate::file_head::{FileHead, lists_of_file};
use crate::form_faults::say_bad_form_line;
use crate::list_faults::say_bad_list_line;
use crate::option_faults::say_bad_option;
use crate::word_faults::{comment_start, say_no_words};
use memchr::memchr;
use milter_rules::{Notes, RULES_MAX, RuleFault, Span, form_of_file, read_rule_lines, rule_lines};
use milter_text::{Word, WordFault, line_content, words};
use milter_wire::NoMemory;
use std::alloc::Global;

/// A line that is at fault.
#[derive(Clone, Copy)]
struct FaultyLine<'a> {
    /// What the first lines of its file give.
    head: FileHead<'a>,
    /// The content of the line.
    bytes: &'a [u8],
    /// Its words.
    words: &'a [Word],
}

/// Says why the file has no rules: what is wrong with the line that is at fault.
pub fn say_fault(notes: &mut Notes<'_>, bytes: &[u8], fault: RuleFault) -> Result<(), NoMemory> {
    let alloc = notes.alloc();
    let Some(number) = fault.line() else {
        return Err(NoMemory);
    };
    notes.go_to(Some(number));
    let line = line_at(bytes, number);
    let form = form_of_file(alloc, bytes)?;
    let lists = lists_of_file(alloc, bytes)?;
    let head = FileHead {
        form,
        lists: lists.as_ref().map(|lists| lists.as_slice()),
    };
    say_fault_at(notes, head, bytes, line, fault)
}

/// Says what is wrong with this line, of a file of these bytes that begins so.
fn say_fault_at(
    notes: &mut Notes<'_>,
    head: FileHead<'_>,
    bytes: &[u8],
    line: &[u8],
    fault: RuleFault,
) -> Result<(), NoMemory> {
    let alloc = notes.alloc();
    if let Some(start) = comment_start(line)
        && is_right_alone(alloc, head, &line[..start.min(line.len())])?
    {
        return say_comment(notes, &line[start.min(line.len())..]);
    }
    match words(alloc, line) {
        Ok(words) => {
            let line = faulty_line(head, line, words.as_slice());
            say_line_fault(notes, bytes, line, fault)
        }
        Err(WordFault::BadWord) => say_no_words(notes, line),
        Err(WordFault::NoMemory) => Err(NoMemory),
    }
}

/// The line with these bytes and these words, of a file that begins so.
fn faulty_line<'x>(head: FileHead<'x>, bytes: &'x [u8], words: &'x [Word]) -> FaultyLine<'x> {
    FaultyLine { head, bytes, words }
}

/// Says that this comment comes after a line that is right without it.
fn say_comment(notes: &mut Notes<'_>, comment: &[u8]) -> Result<(), NoMemory> {
    let begin = Span::Plain(b"a comment is due in a line of its own: ");
    notes.say(&[begin, Span::Quoted(comment)])
}

/// Says what is wrong with the line of a file of these bytes.
fn say_line_fault(
    notes: &mut Notes<'_>,
    bytes: &[u8],
    line: FaultyLine<'_>,
    fault: RuleFault,
) -> Result<(), NoMemory> {
    let words = line.words;
    match fault {
        RuleFault::UnknownWord(_) => say_unknown_line(notes, line),
        RuleFault::BadStage(_) => say_bad_stage(notes, words),
        RuleFault::BadCondition(_) => say_bad_conditions(notes, line.head, words),
        RuleFault::BadAction(_) => say_bad_action(notes, line.head.form, after_do(words)),
        RuleFault::ActionNotHere(_) => say_action_not_here(notes, words, after_do(words)),
        RuleFault::TooLarge(number) => {
            let text = if is_right_alone(notes.alloc(), line.head, line.bytes)? {
                limit_of(words, rules_before(notes.alloc(), bytes, number)?)
            } else {
                b"a text is too large for a packet, which has room for 65,535 bytes"
            };
            notes.say(&[Span::Plain(text)])
        }
        RuleFault::BadList(_) => {
            let text =
                b"the list can't be read: its file is missing, too large, or has a bad entry";
            notes.say(&[Span::Plain(text)])
        }
        RuleFault::NoMemory => Err(NoMemory),
    }
}

/// Says what is wrong with a line that is no rule.
fn say_unknown_line(notes: &mut Notes<'_>, line: FaultyLine<'_>) -> Result<(), NoMemory> {
    match line.words {
        [first, ..] if first.is_keyword(b"rules") => {
            say_bad_form_line(notes, line.head.form, line.words)
        }
        [first, ..] if first.is_keyword(b"list") => {
            say_bad_list_line(notes, line.head, line.words)
        }
        words => {
            let is_repeated = is_right_alone(notes.alloc(), line.head, line.bytes)?;
            say_bad_option(notes, words, is_repeated)
        }
    }
}

/// The content of the line with this number; none where there is no such line.
fn line_at(bytes: &[u8], number: u64) -> &[u8] {
    let mut rest = bytes;
    for _ in 1..number {
        match after_line(rest) {
            Some(after) => rest = after,
            None => return b"",
        }
    }
    match memchr(b'\n', rest) {
        Some(end) => line_content(&rest[..end], true),
        None => rest,
    }
}

/// The bytes after the first line; none where it isn't ended.
fn after_line(bytes: &[u8]) -> Option<&[u8]> {
    let end = memchr(b'\n', bytes)?;
    match bytes.split_at(end) {
        (_, [_, after @ ..]) => Some(after),
        _ => None,
    }
}

/// Whether the line is right by itself in a file that begins so.
fn is_right_alone(alloc: Global, head: FileHead<'_>, line: &[u8]) -> Result<bool, NoMemory> {
    let file = head.with_line(alloc, line)?;
    match read_rule_lines(alloc, file.as_slice()) {
        Ok(_) => Ok(true),
        Err(RuleFault::NoMemory) => Err(NoMemory),
        Err(_) => Ok(false),
    }
}

/// The words after the first `do` that isn't a text.
fn after_do(words: &[Word]) -> &[Word] {
    match words.iter().position(|word| word.is_keyword(b"do")) {
        Some(place) => &words[place + 1..],
        None => &[],
    }
}

/// The number of rules before the line with this number.
fn rules_before(alloc: Global, bytes: &[u8], number: u64) -> Result<usize, NoMemory> {
    let lines = rule_lines(alloc, bytes)?;
    Ok(lines.iter().filter(|line| line.number < number).count())
}

/// What a line says that is too much for the lines before it, among which there are as many rules.
fn limit_of(words: &[Word], rules: usize) -> &'static [u8] {
    let is_rule = words.first().is_some_and(|word| word.is_keyword(b"at"));
    if words.first().is_some_and(|word| word.is_keyword(b"list")) {
        b"a file has at most 100 lists"
    } else if !is_rule {
        b"the names of macros of all stages are too large for a packet, which has room for 65,535 bytes"
    } else if rules >= RULES_MAX {
        b"a file has at most 10,000 rules"
    } else {
        b"the edits of a file have at most 16,777,216 bytes together"
    }
}
