//! Whether a pattern stands for a value.

ghost use Rattle.std.specs.Prelude.{◌≡◌, ◌≤◌, IsTrue, MatchOption, length, option_map};
ghost use Rattle.milter_text.specs.Globs.{is_like, some_suffix, stands_for, is_same};
ghost use Rattle.milter_text.specs.Segments.{IsFirstRun, IsSegment, after_first, begins_with};

use memchr::memchr;

/// The byte of a pattern that stands for any bytes, none too.
pub const ANY_RUN: u8 = b'*';

/// The byte of a pattern that stands for any one byte.
pub const ANY_BYTE: u8 = b'?';

/// Whether the case of ASCII letters counts where a byte of a value is compared with a byte of a pattern.
#[derive(Clone, Copy, Debug, PartialEq, Eq)]
pub enum TextCase {
    /// It counts: each byte is itself alone.
    Exact,
    /// It doesn't: each letter from A to Z is taken as the same letter from a to z. No byte above 0x7F is a letter.
    Ignored,
}

/// Whether both bytes are the same.
#[inline]
pub(crate) fn is_same(case: TextCase, first: u8, second: u8) -> bool
    ensures { result ≡ is_same case first second }
{
    match case {
        TextCase::Exact => first == second,
        TextCase::Ignored => first.eq_ignore_ascii_case(&second),
    }
}

/// Whether the pattern stands for the whole value: [`ANY_RUN`] in it for any bytes, none too, [`ANY_BYTE`] for any one
/// byte, and each other byte for itself, or for the same letter where case doesn't count. There is no escape. Compares
/// each byte of the value at most once with each byte of the pattern. Doesn't allocate.
///
/// [`ANY_RUN`]: crate::ANY_RUN
/// [`ANY_BYTE`]: crate::ANY_BYTE
pub fn is_like(case: TextCase, pattern: &[u8], value: &[u8]) -> bool
    ensures { result ≡ is_like case pattern.now value.now }
{
    match first_run(pattern) {
        None => is_whole(case, pattern, value),
        Some(end) => {
            begins_with(case, &pattern[..end], value)
                && some_suffix_is_like(case, &pattern[end + 1..], &value[end..])
        }
    }
}

/// Whether the pattern stands for some suffix of the value. Each segment is looked for from the left, after the one
/// before it, and the last at the end of the value.
fn some_suffix_is_like(case: TextCase, pattern: &[u8], value: &[u8]) -> bool
    ensures { result ≡ some_suffix (is_like case pattern.now) value.now }
{
    let mut rest = pattern;
    let mut left = value;
    while let Some(end) = first_run(rest) {
        match after_segment(case, &rest[..end], left) {
            Some(after) => left = after,
            None => return false,
        }
        rest = &rest[end + 1..];
    }
    ends_with(case, rest, left)
}

/// Where the first `*` of the pattern is.
pub(crate) fn first_run(pattern: &[u8]) -> Option<usize>
    ensures { MatchOption result (IsSegment pattern.now) (IsFirstRun pattern.now) }
{
    memchr(ANY_RUN, pattern)
}

/// Whether the byte of a segment stands for this byte.
#[inline]
fn stands_for(case: TextCase, symbol: u8, byte: u8) -> bool
    ensures { result ≡ stands_for case symbol byte }
{
    symbol == ANY_BYTE || is_same(case, symbol, byte)
}

/// Whether the segment stands for the first bytes of the value.
pub(crate) fn begins_with(case: TextCase, segment: &[u8], value: &[u8]) -> bool
    ensures begins { result ≡ begins_with case segment.now value.now }
    ensures fits { IsTrue result → length segment.now ≤ length value.now }
{
    if value.len() < segment.len() {
        return false;
    }
    for (index, symbol) in segment.iter().enumerate() {
        if !stands_for(case, *symbol, value[index]) {
            return false;
        }
    }
    true
}

/// The bytes of the value after the leftmost that the segment stands for.
pub(crate) fn after_segment<'v>(case: TextCase, segment: &[u8], value: &'v [u8]) -> Option<&'v [u8]>
    ensures { option_map (λ after. after.now) result ≡ after_first case segment.now value.now }
{
    let mut rest = value;
    while !begins_with(case, segment, rest) {
        match rest {
            [_, later @ ..] => rest = later,
            [] => return None,
        }
    }
    Some(&rest[segment.len()..])
}

/// Whether the segment stands for the whole value.
pub(crate) fn is_whole(case: TextCase, segment: &[u8], value: &[u8]) -> bool
    requires { IsSegment segment.now }
    ensures { result ≡ is_like case segment.now value.now }
{
    value.len() == segment.len() && begins_with(case, segment, value)
}

/// Whether the segment stands for the last bytes of the value.
pub(crate) fn ends_with(case: TextCase, segment: &[u8], value: &[u8]) -> bool
    requires { IsSegment segment.now }
    ensures { result ≡ some_suffix (is_like case segment.now) value.now }
{
    let start = value.len().saturating_sub(segment.len());
    is_whole(case, segment, &value[start..])
}
