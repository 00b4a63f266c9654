//! The words of a line, read from the left.

ghost use Rattle.std.specs.Prelude.{◌≡◌, ◌==◌, ◌⊎◌, ◌↔◌, ◌∷◌, ℕ, false, not, IfOk, IsErrOf, IsTrue, List, MatchResult, option_map, position};
ghost use Rattle.std.specs.List.{list_all};
ghost use Rattle.milter_text.specs.declared.word.Word.{Word};
ghost use Rattle.milter_text.specs.UnquotedBytes.{behind_quote, past_blanks};
ghost use Rattle.milter_text.specs.Words.{BeginsWith, HasWords, IsAfterWord, is_plain};

use crate::escapes::{bare_len, take_byte};
use crate::word::{Word, WordFault};
use milter_fields::Text;
use std::alloc::Global;

/// The words of a line, which has no LF. They are plain or quoted, with one or more blanks (0x20) between
/// them; blanks at both ends are ignored. A plain word is one or more of the bytes 0x21 to 0x7E but for `"`. A quoted
/// word is a `"`, a body and a `"`, and a blank or the end of the line follows. In its body the bytes 0x20 to 0x7E but
/// for `"` and `\`, and 0x80 to 0xFF, are written as themselves, and `\"`, `\\`, `\n`, `\r`, `\t` and `\xHH`, with
/// two hexadecimal digits of either case, encode a byte. The fault is `BadWord` where the line is of any other form,
/// and then a word before may have taken memory.
pub fn words(alloc: Global, line: &[u8]) -> Result<Vec<Word>, WordFault>
    // What is read are the words that the line has.
    ensures found { IfOk result (λ words. HasWords line.now words.items) }
    // Where the line has words they are read, unless memory is refused.
    ensures only { (words : List Word) → HasWords line.now words →
        MatchResult result (λ found. found.items ≡ words) (λ e. e ≡ WordFault.NoMemory) }
    // Where the line has none the fault is `BadWord`, unless memory is refused.
    ensures none { ((words : List Word) → ¬ HasWords line.now words) →
        IsErrOf result WordFault.BadWord ⊎ IsErrOf result WordFault.NoMemory }
{
    let mut words = Vec::new(alloc);
    let mut rest = after_blanks(line);
    while !rest.is_empty() {
        let (word, after) = take_word(alloc, rest)?;
        words.push(word)?;
        rest = after_blanks(after);
    }
    Ok(words)
}

/// The bytes after the blanks that these begin with.
pub(crate) fn after_blanks(bytes: &[u8]) -> &[u8]
    ensures { result.now ≡ past_blanks bytes.now }
{
    let start = first_non_blank(bytes).unwrap_or(bytes.len());
    &bytes[start..]
}

/// The index of the first byte that is no blank.
fn first_non_blank(bytes: &[u8]) -> Option<usize>
    ensures { result ≡ position (λ byte. not (byte == 32)) bytes.now }
{
    bytes.iter().position(|byte| *byte != b' ')
}

/// The word that the bytes begin with, and the bytes after it.
fn take_word(alloc: Global, bytes: &[u8]) -> Result<(Word, &[u8]), WordFault>
    ensures found { IfOk result (λ taken. BeginsWith taken.0 taken.1.now bytes.now) }
    ensures only { (word : Word) (rest : List ℕ) → BeginsWith word rest bytes.now
        → ¬ IsErrOf result WordFault.BadWord }
{
    match after_quote(bytes) {
        Some(body) => take_quoted(alloc, body),
        None => take_plain(alloc, bytes),
    }
}

/// The bytes after the quote that these begin with, or nothing where they begin with none.
fn after_quote(bytes: &[u8]) -> Option<&[u8]>
    ensures { option_map (λ rest. rest.now) result ≡ behind_quote bytes.now }
{
    match bytes {
        [b'"', rest @ ..] => Some(rest),
        _ => None,
    }
}

/// The plain word that the bytes begin with, and the bytes after it.
fn take_plain(alloc: Global, bytes: &[u8]) -> Result<(Word, &[u8]), WordFault>
    ensures found { IfOk result (λ taken. BeginsWith taken.0 taken.1.now bytes.now) }
    ensures only { (word : Word) (rest : List ℕ) → word.quoted ≡ false → BeginsWith word rest bytes.now
        → ¬ IsErrOf result WordFault.BadWord }
{
    let end = first_blank(bytes).unwrap_or(bytes.len());
    let (plain, rest) = bytes.split_at(end);
    if plain.is_empty() || !are_plain(plain) {
        return Err(WordFault::BadWord);
    }
    let text = Text::new(Vec::from_slice(alloc, plain)?);
    let word = Word {
        text,
        quoted: false,
    };
    Ok((word, rest))
}

/// The index of the first blank.
fn first_blank(bytes: &[u8]) -> Option<usize>
    ensures { result ≡ position (λ byte. byte == 32) bytes.now }
{
    bytes.iter().position(|byte| *byte == b' ')
}

/// Whether each of the bytes may be in a plain word.
fn are_plain(bytes: &[u8]) -> bool
    ensures { result ≡ list_all is_plain bytes.now }
{
    bytes.iter().all(|byte| is_plain(*byte))
}

/// The quoted word whose body these bytes begin with, and the bytes after it.
fn take_quoted(alloc: Global, body: &[u8]) -> Result<(Word, &[u8]), WordFault>
    ensures found { IfOk result (λ taken. BeginsWith taken.0 taken.1.now (34 ∷ body.now)) }
    ensures only { (word : Word) (rest : List ℕ) → BeginsWith word rest (34 ∷ body.now)
        → ¬ IsErrOf result WordFault.BadWord }
{
    let mut text = Vec::new(alloc);
    let mut rest = body;
    while let Some((byte, after)) = take_byte(rest) {
        text.push(byte)?;
        let count = bare_len(after);
        if count > 0 {
            text.extend_from_slice(&after[..count])?;
        }
        rest = &after[count..];
    }
    let Some(after) = after_quote(rest) else {
        return Err(WordFault::BadWord);
    };
    if !is_after_word(after) {
        return Err(WordFault::BadWord);
    }
    let text = Text::new(text);
    let word = Word { text, quoted: true };
    Ok((word, after))
}

/// Whether a word may end before these bytes.
pub(crate) fn is_after_word(bytes: &[u8]) -> bool
    ensures { IsTrue result ↔ IsAfterWord bytes.now }
{
    matches!(bytes, [] | [b' ', ..])
}

/// Whether the byte may be in a plain word.
fn is_plain(byte: u8) -> bool
    ensures { result ≡ is_plain byte }
{
    byte.is_ascii_graphic() && byte != b'"'
}
