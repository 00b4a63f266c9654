//! Texts cut in two.

ghost use Rattle.std.specs.Prelude.{◌≡◌, ◌==◌, drop, MatchOption};
ghost use Rattle.std.specs.List.{before_first, position, position_or_len};
ghost use Rattle.milter_address.specs.Parts.{IsCut, IsOnePart};

use memchr::memchr;

/// The text before the first such byte, and the text from there on.
#[tactic(auto, using(crate::proofs::Positions::position_or_len_of))]
pub(crate) fn split_at_byte(text: &[u8], byte: u8) -> (&[u8], &[u8])
    ensures before { result.0.now ≡ before_first (λ b. b == byte) text.now }
    ensures rest { result.1.now ≡ drop (position_or_len (λ b. b == byte) text.now) text.now }
{
    text.split_at(len_before(text, byte))
}

/// How many bytes stand before the first such byte: all where there is none.
#[tactic(auto, using(crate::proofs::Positions::position_or_len_of))]
fn len_before(text: &[u8], byte: u8) -> usize
    ensures { result ≡ position_or_len (λ b. b == byte) text.now }
{
    position_of(text, byte).unwrap_or(text.len())
}

/// Where the first such byte stands.
fn position_of(text: &[u8], byte: u8) -> Option<usize>
    ensures { result ≡ position (λ b. b == byte) text.now }
{
    text.iter().position(|b| *b == byte)
}

/// The bytes before the first separator and those behind it, or none where there is no separator. Doesn't allocate.
pub(crate) fn cut(bytes: &[u8], separator: u8) -> Option<(&[u8], &[u8])>
    ensures { MatchOption result (IsOnePart separator bytes.now)
        (λ parts. IsCut separator bytes.now parts.0.now parts.1.now) }
{
    match memchr(separator, bytes) {
        Some(end) => Some((&bytes[..end], &bytes[end + 1..])),
        None => None,
    }
}
