//! A line of a trace, before its digits are decoded.

ghost use Rattle.std.specs.Prelude.{◌≡◌, position, ◌==◌};
ghost use Rattle.milter_trace.specs.ParsedLine.{parsed_line};
ghost use Rattle.milter_trace.specs.UndecodedLine.{decoded_line};

use crate::direction::Direction;
use milter_text::{is_skipped, line_content};

/// The most bytes that a line has before its LF.
pub(crate) const LINE_MAX: usize = 262_144;

/// A line of a trace whose digits are not decoded yet.
#[derive(Clone, Copy)]
pub enum UndecodedLine<'a> {
    /// A blank line or a comment.
    Skipped,
    /// A line that is too long, or begins with no direction.
    Bad,
    /// A direction, and what should be hexadecimal digits.
    Digits(Direction, &'a [u8]),
}

/// What a line is that has these bytes before its LF, or before the end of the input. Doesn't allocate.
pub fn parse_line(bytes: &[u8], ended: bool) -> UndecodedLine<'_>
    ensures { decoded_line result ≡ parsed_line (record { bytes = bytes.now; ended = ended }) }
{
    if bytes.len() > LINE_MAX {
        return UndecodedLine::Bad;
    }
    let content = line_content(bytes, ended);
    if is_skipped(content) {
        return UndecodedLine::Skipped;
    }
    match content {
        [b'>', b' ', digits @ ..] => UndecodedLine::Digits(Direction::ToFilter, digits),
        [b'<', b' ', digits @ ..] => UndecodedLine::Digits(Direction::ToMta, digits),
        _ => UndecodedLine::Bad,
    }
}

/// The index of the first LF. Doesn't allocate.
pub fn line_end(bytes: &[u8]) -> Option<usize>
    ensures { result ≡ position (λ byte. byte == 10) bytes.now }
{
    bytes.iter().position(|byte| *byte == b'\n')
}
