//! What is said of replies, which are the texts of codes.

use milter_rules::{Notes, Span};
use milter_wire::NoMemory;

/// What becomes of a reply that Postfix doesn't take.
const MALFORMED: &[u8] = b"; Postfix takes it for malformed, and answers 451 4.3.5 in its place";

/// What is wrong with the lines of a reply.
#[derive(Clone, Copy)]
enum LineTrouble {
    /// A line doesn't begin with the reply code.
    NoCode,
    /// Neither a blank nor a hyphen comes after the reply code.
    NoJoint,
    /// A line before the last has no hyphen after the reply code.
    EarlyEnd,
    /// The last line has a hyphen after the reply code.
    NoEnd,
    /// A CR or a LF is alone.
    LoneByte,
}

/// Says what is to be said of a reply, which begins with three digits.
pub(crate) fn say_reply(notes: &mut Notes<'_>, text: &[u8]) -> Result<(), NoMemory> {
    let [class, _, _, rest @ ..] = text else {
        return Ok(());
    };
    if let [] | [b' ' | b'-', ..] = rest {
        say_status(notes, text, *class, after_joint(rest))?;
    }
    if let Some(trouble) = line_trouble(text) {
        say_line_trouble(notes, text, trouble)?;
    }
    if has_single_percent(text) {
        let end = b" has a single %, which Postfix leaves out; write %%";
        notes.say(&[Span::Plain(b"code "), Span::Quoted(text), Span::Plain(end)])?;
    }
    Ok(())
}

/// Says what is to be said of the enhanced status code of a reply of this class, and of the text after it, where these
/// bytes come after its reply code.
fn say_status(notes: &mut Notes<'_>, text: &[u8], class: u8, bytes: &[u8]) -> Result<(), NoMemory> {
    let begin = Span::Plain(b"code ");
    let code = Span::Quoted(text);
    let Some((status, rest)) = status_code(bytes) else {
        return say_no_status(notes, text, is_blank(bytes));
    };
    if status != class {
        let middle = Span::Plain(b" has an enhanced status code of another class than ");
        let reply_code = Span::Plain(first(text, 3));
        let end = Span::Plain(MALFORMED);
        notes.say(&[begin, code, middle, reply_code, end])?;
    }
    if is_blank(rest) {
        let end = Span::Plain(b" has no text after its status codes");
        notes.say(&[begin, code, end])?;
    }
    Ok(())
}

/// Says that a code has no enhanced status code.
fn say_no_status(notes: &mut Notes<'_>, text: &[u8], is_alone: bool) -> Result<(), NoMemory> {
    let begin = Span::Plain(b"code ");
    let code = Span::Quoted(text);
    let middle = Span::Plain(b" has no enhanced status code, such as ");
    let class = Span::Plain(first(text, 1));
    if is_alone {
        let end = Span::Plain(b".7.1, and no text");
        let outcome: &[u8] = if text.len() == 3 { MALFORMED } else { b"" };
        let outcome = Span::Plain(outcome);
        return notes.say(&[begin, code, middle, class, end, outcome]);
    }
    let end = Span::Plain(b".7.1, after ");
    let reply_code = Span::Plain(first(text, 3));
    notes.say_hint(&[begin, code, middle, class, end, reply_code])
}

/// What is wrong with the first line of a reply that isn't right.
fn line_trouble(text: &[u8]) -> Option<LineTrouble> {
    let code = first(text, 3);
    let mut last: &[u8] = b"";
    let mut is_first = true;
    for line in text.split(|byte| *byte == b'\n') {
        if !is_first && let Some(trouble) = trouble_before_last(code, last) {
            return Some(trouble);
        }
        last = line;
        is_first = false;
    }
    trouble_of_line(code, last, b' ', LineTrouble::NoEnd)
}

/// What is wrong with a line before the last, without its LF.
fn trouble_before_last(code: &[u8], line: &[u8]) -> Option<LineTrouble> {
    match line {
        [content @ .., b'\r'] => trouble_of_line(code, content, b'-', LineTrouble::EarlyEnd),
        _ => Some(LineTrouble::LoneByte),
    }
}

/// What is wrong with a line, without its end, in which this byte is due after the reply code.
fn trouble_of_line(
    code: &[u8],
    line: &[u8],
    due: u8,
    otherwise: LineTrouble,
) -> Option<LineTrouble> {
    if line.contains(&b'\r') {
        return Some(LineTrouble::LoneByte);
    }
    let Some(rest) = line.strip_prefix(code) else {
        return Some(LineTrouble::NoCode);
    };
    match rest {
        [] if due == b' ' => None,
        [joint, ..] if *joint == due => None,
        [] | [b' ' | b'-', ..] => Some(otherwise),
        _ => Some(LineTrouble::NoJoint),
    }
}

/// Says what is wrong with the lines of a reply.
fn say_line_trouble(
    notes: &mut Notes<'_>,
    text: &[u8],
    trouble: LineTrouble,
) -> Result<(), NoMemory> {
    let begin = Span::Plain(b"code ");
    let code = Span::Quoted(text);
    let reply_code = Span::Plain(first(text, 3));
    let (middle, end): (&[u8], &[u8]) = match trouble {
        LineTrouble::LoneByte => {
            let end = b" has a \\r or a \\n alone, which ends no line; write \\r\\n";
            return notes.say(&[begin, code, Span::Plain(end)]);
        }
        LineTrouble::NoCode => (
            b" has a line without ",
            b", which reaches the client as it is",
        ),
        LineTrouble::NoJoint => (b" is no reply: a blank is due after ", b""),
        LineTrouble::EarlyEnd => (
            b" has no - after ",
            b" in a line before the last, which a client takes for the last",
        ),
        LineTrouble::NoEnd => (
            b" has - after ",
            b" in its last line: a client waits for another",
        ),
    };
    let spans = [
        begin,
        code,
        Span::Plain(middle),
        reply_code,
        Span::Plain(end),
    ];
    notes.say(&spans)
}

/// The first bytes, so many.
fn first(bytes: &[u8], count: usize) -> &[u8] {
    &bytes[..count.min(bytes.len())]
}

/// The bytes after the blank, or after the hyphen of a reply of several lines, that comes after a reply code.
fn after_joint(bytes: &[u8]) -> &[u8] {
    match bytes {
        [b' ' | b'-', rest @ ..] => rest,
        _ => &[],
    }
}

/// The class of the enhanced status code that these bytes begin with, and the bytes after it.
fn status_code(bytes: &[u8]) -> Option<(u8, &[u8])> {
    let [class, b'.', rest @ ..] = bytes else {
        return None;
    };
    let [b'.', rest @ ..] = after_digits(rest)? else {
        return None;
    };
    let rest = after_digits(rest)?;
    if !class.is_ascii_digit() || !matches!(rest, [] | [b' ' | b'\r', ..]) {
        return None;
    }
    Some((*class, rest))
}

/// The bytes after one to three digits, which these begin with.
fn after_digits(bytes: &[u8]) -> Option<&[u8]> {
    let count = bytes
        .iter()
        .take_while(|byte| byte.is_ascii_digit())
        .count();
    if count == 0 || count > 3 {
        return None;
    }
    bytes.get(count..)
}

/// Whether there is nothing but blanks.
fn is_blank(bytes: &[u8]) -> bool {
    bytes.iter().all(|byte| *byte == b' ')
}

/// Whether there is a `%` that makes no pair with one beside it.
fn has_single_percent(text: &[u8]) -> bool {
    let mut is_open = false;
    for byte in text {
        if *byte == b'%' {
            is_open = !is_open;
        } else if is_open {
            return true;
        }
    }
    is_open
}
