//! What is said of a line that isn't in words.

use milter_rules::{Notes, Span};
use milter_wire::NoMemory;

/// What the next byte of a line belongs to.
#[derive(Clone, Copy, PartialEq, Eq)]
enum Place {
    /// Nothing yet: it may begin a word.
    Between,
    /// A plain word.
    Plain,
    /// A text.
    Text,
    /// An escape, after its backslash.
    Escape,
    /// An escape, as the first of its two digits.
    FirstDigit,
    /// An escape, as the second of its two digits.
    SecondDigit,
    /// What follows the closing quote of a text.
    Closed,
}

/// Why a byte can't be where it is.
#[derive(Clone, Copy)]
enum Trouble {
    /// It is a TAB outside of texts.
    Tab,
    /// It is another byte than a plain word may have.
    Byte,
    /// It is a double quote within a plain word.
    Quote,
    /// It is a control character in a text.
    Control,
    /// It is the character of no escape.
    Escape,
    /// It is no hexadecimal digit where one is due.
    Digit,
    /// It follows the closing quote of a text.
    Touching,
}

/// Says what is wrong with the letters of the line.
pub(crate) fn say_no_words(notes: &mut Notes<'_>, line: &[u8]) -> Result<(), NoMemory> {
    let mut place = Place::Between;
    let mut start = 0;
    for (index, byte) in line.iter().enumerate() {
        if place == Place::Between {
            start = index;
        }
        place = match place_after(place, *byte) {
            Ok(next) => next,
            Err(trouble) => return say_trouble(notes, line, start, index, trouble),
        };
    }
    say_unclosed(notes, after(line, start.saturating_add(1)))
}

/// Says that these bytes are a text that isn't closed.
fn say_unclosed(notes: &mut Notes<'_>, text: &[u8]) -> Result<(), NoMemory> {
    let begin = Span::Plain(b"a text isn't closed by a double quote; it begins with ");
    let end: &[u8] = if has_curly_quote(text) {
        b"; a curly quote closes none"
    } else {
        b""
    };
    notes.say(&[begin, Span::Quoted(text), Span::Plain(end)])
}

/// Whether a curly quote is among the bytes, in UTF-8.
fn has_curly_quote(bytes: &[u8]) -> bool {
    bytes
        .windows(3)
        .any(|part| matches!(part, [0xe2, 0x80, 0x98..=0x9f]))
}

/// The start of a comment that comes after words in the line; none where there is none.
pub(crate) fn comment_start(line: &[u8]) -> Option<usize> {
    let mut place = Place::Between;
    let mut has_word = false;
    for (index, byte) in line.iter().enumerate() {
        if place == Place::Between && has_word && *byte == b'#' {
            return Some(index);
        }
        place = place_after(place, *byte).ok()?;
        has_word = has_word || place != Place::Between;
    }
    None
}

/// What the byte after this one belongs to.
fn place_after(place: Place, byte: u8) -> Result<Place, Trouble> {
    match place {
        Place::Between => after_blank(byte),
        Place::Plain => after_plain(byte),
        Place::Text => after_text(byte),
        Place::Escape => after_backslash(byte),
        Place::FirstDigit if byte.is_ascii_hexdigit() => Ok(Place::SecondDigit),
        Place::SecondDigit if byte.is_ascii_hexdigit() => Ok(Place::Text),
        Place::FirstDigit | Place::SecondDigit => Err(Trouble::Digit),
        Place::Closed if byte == b' ' => Ok(Place::Between),
        Place::Closed => Err(Trouble::Touching),
    }
}

/// What the byte after this one, which comes after a blank, belongs to.
fn after_blank(byte: u8) -> Result<Place, Trouble> {
    if byte == b'"' {
        Ok(Place::Text)
    } else {
        after_plain(byte)
    }
}

/// What the byte after this one, which may be of a plain word, belongs to.
fn after_plain(byte: u8) -> Result<Place, Trouble> {
    match byte {
        b' ' => Ok(Place::Between),
        b'"' => Err(Trouble::Quote),
        b'\t' => Err(Trouble::Tab),
        b'!'..=b'~' => Ok(Place::Plain),
        _ => Err(Trouble::Byte),
    }
}

/// What the byte after this one of a text belongs to.
fn after_text(byte: u8) -> Result<Place, Trouble> {
    match byte {
        b'"' => Ok(Place::Closed),
        b'\\' => Ok(Place::Escape),
        0..=0x1f | 0x7f => Err(Trouble::Control),
        _ => Ok(Place::Text),
    }
}

/// What the byte after this one, which follows a backslash, belongs to.
fn after_backslash(byte: u8) -> Result<Place, Trouble> {
    match byte {
        b'"' | b'\\' | b'n' | b'r' | b't' => Ok(Place::Text),
        b'x' => Ok(Place::FirstDigit),
        _ => Err(Trouble::Escape),
    }
}

/// Says what is wrong with the byte at this index, which is in the word that begins at `start`.
fn say_trouble(
    notes: &mut Notes<'_>,
    line: &[u8],
    start: usize,
    index: usize,
    trouble: Trouble,
) -> Result<(), NoMemory> {
    let word = Span::Quoted(up_to_blank(after(line, start)));
    let from_here = Span::Quoted(up_to_blank(after(line, index)));
    match trouble {
        Trouble::Tab => {
            let text = b"a TAB stands outside of texts; words are separated by blanks";
            notes.say(&[Span::Plain(text)])
        }
        Trouble::Byte if has_curly_quote(up_to_blank(after(line, start))) => {
            let end = b" has curly quotes; a text is due in plain double quotes";
            notes.say(&[word, Span::Plain(end)])
        }
        Trouble::Byte => {
            let end =
                b" has other than visible ASCII characters; as a text it is due in double quotes";
            notes.say(&[word, Span::Plain(end)])
        }
        Trouble::Quote => {
            let begin = b"a blank is due before the double quote in ";
            notes.say(&[Span::Plain(begin), word])
        }
        Trouble::Touching => {
            let begin = Span::Plain(b"a blank is due between a text and ");
            let end = Span::Plain(b"; in a text a double quote is written \\\"");
            notes.say(&[begin, from_here, end])
        }
        Trouble::Control | Trouble::Escape | Trouble::Digit => {
            say_trouble_in_text(notes, after(line, index), trouble)
        }
    }
}

/// Says what is wrong with the first of these bytes, which are in a text.
fn say_trouble_in_text(
    notes: &mut Notes<'_>,
    bytes: &[u8],
    trouble: Trouble,
) -> Result<(), NoMemory> {
    let first = &bytes[..bytes.len().min(1)];
    match trouble {
        Trouble::Control => {
            let begin = b"a control character stands in a text; it is written as in ";
            notes.say(&[Span::Plain(begin), Span::Quoted(first)])
        }
        Trouble::Digit => {
            let text = b"\\x is due with two hexadecimal digits";
            notes.say(&[Span::Plain(text)])
        }
        _ => {
            let begin = Span::Plain(b"a backslash before ");
            let end = b" begins no escape; known are \\\" \\\\ \\n \\r \\t and \\xHH";
            notes.say(&[begin, Span::Quoted(first), Span::Plain(end)])
        }
    }
}

/// The bytes from this index on.
fn after(bytes: &[u8], index: usize) -> &[u8] {
    &bytes[index.min(bytes.len())..]
}

/// The bytes before the first blank.
fn up_to_blank(bytes: &[u8]) -> &[u8] {
    match bytes.iter().position(|byte| *byte == b' ') {
        Some(end) => &bytes[..end],
        None => bytes,
    }
}
