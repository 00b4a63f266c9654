//! The entries of a list file, one after the other.

ghost use Rattle.std.specs.Prelude.{◌≡◌, ◌==◌, ◌<◌, ◌≤◌, ◌+◌, ◌^◌, ◌∷◌, [], IfSome, MatchOption, length, position};
ghost use Rattle.milter_text.specs.LineCursor.{all_contents};
ghost use Rattle.milter_lists.specs.ListFaults.{numbered_from};

use crate::trimmed::trimmed;
use memchr::memchr;
use milter_text::{is_skipped, line_content};

/// An entry of a list file, with what follows it.
#[derive(Clone, Copy)]
pub(crate) struct FileEntry<'a> {
    /// The bytes of the entry.
    pub(crate) entry: &'a [u8],
    /// The number of its line. Lines are numbered from 1, the skipped ones too.
    pub(crate) line: u64,
    /// The bytes after its line.
    pub(crate) rest: &'a [u8],
}

/// The first entry of these bytes, which have as many lines before them; none where no line has an entry. Doesn't
/// allocate.
pub(crate) fn next_entry(bytes: &[u8], before: u64) -> Option<FileEntry<'_>>
    requires { before + length bytes.now < 2 ^ 64 }
    ensures found { MatchOption result (numbered_from before (all_contents bytes.now) ≡ [])
        (λ x. numbered_from before (all_contents bytes.now)
        ≡ record { line = x.line; entry = x.entry.now } ∷ numbered_from x.line (all_contents x.rest.now)) }
    ensures shorter { IfSome result (λ x. length x.rest.now < length bytes.now) }
    ensures counted { IfSome result (λ x. x.line + length x.rest.now ≤ before + length bytes.now) }
{
    let mut rest = bytes;
    let mut line = before;
    while let Some((content, after)) = first_line(rest) {
        rest = after;
        line += 1;
        if !is_skipped(content) {
            return Some(FileEntry {
                entry: trimmed(content),
                line,
                rest,
            });
        }
    }
    None
}

/// The content of the first line, and the bytes after the line; none where there are no bytes.
fn first_line(bytes: &[u8]) -> Option<(&[u8], &[u8])>
    ensures line { MatchOption result (bytes.now ≡ [])
        (λ x. all_contents bytes.now ≡ x.0.now ∷ all_contents x.1.now) }
    ensures shorter { IfSome result (λ x. length x.1.now < length bytes.now) }
{
    if let Some(end) = first_end(bytes) {
        return Some((line_content(&bytes[..end], true), &bytes[end + 1..]));
    }
    if bytes.is_empty() {
        return None;
    }
    Some((bytes, &[]))
}

/// The index of the first LF.
fn first_end(bytes: &[u8]) -> Option<usize>
    ensures { result ≡ position (λ byte. byte == 10) bytes.now }
{
    memchr(b'\n', bytes)
}
