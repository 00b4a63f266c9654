//! What a line of expected reports stands for.

ghost use Rattle.std.specs.Prelude.{◌≡◌};
ghost use Rattle.milter_mta_client.specs.Patterns.{is_gap, stands_for};

use milter_text::{TextCase, is_like};

/// A line that stands for any lines, none too: without its LF, which it may have.
pub const GAP: &[u8] = b"...";

/// The same with its LF.
const GAP_LINE: &[u8] = b"...\n";

/// What a line begins with that has a pattern of one line.
pub const LIKE: &[u8] = b"like ";

/// Whether a line stands for any lines.
pub(crate) fn is_gap(pattern: &[u8]) -> bool
    ensures { result ≡ is_gap pattern.now }
{
    pattern == GAP_LINE || pattern == GAP
}

/// Whether a line that isn't [`GAP`] stands for this one.
pub(crate) fn stands_for(pattern: &[u8], line: &[u8]) -> bool
    ensures { result ≡ stands_for pattern.now line.now }
{
    match pattern.strip_prefix(LIKE) {
        Some(like) => is_like(TextCase::Exact, like, line),
        None => pattern == line,
    }
}

/// Whether a line stands for one line, and that is this one.
pub(crate) fn is_of(pattern: &[u8], line: &[u8]) -> bool {
    !is_gap(pattern) && stands_for(pattern, line)
}
