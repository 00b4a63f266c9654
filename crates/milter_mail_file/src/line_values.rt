//! The values of the lines of a session file, each alone. A fault is the first of these that is so: the words don't
//! have the line's form, a text has a NUL, a header field has no name, or the packet would be too long.

ghost use Rattle.std.specs.Prelude.{◌≡◌, ◌↔◌, ◌==◌, ◌&&◌, nat_le, not, All, IfErr, IfOk, IsTrue, List, MatchResult};
ghost use Rattle.std.specs.Prelude.{None, Some, ℕ, map, option_map};
ghost use Rattle.std.specs.List.{list_all};
ghost use Rattle.milter_wire.specs.declared.command.Command.TheVariants as commands;
ghost use Rattle.milter_wire.specs.Command.{Fits};
ghost use Rattle.milter_fields.specs.Field.{HasNoNul};
ghost use Rattle.milter_message.specs.LeadingSpace.{WholeFieldFits};
ghost use Rattle.milter_mail_file.specs.LineValues.{header_of, helo_of, if_named, is_name, path_of, chunk_of};
ghost use Rattle.milter_mail_file.specs.declared.session_fault.SessionFault.TheVariants as SessionFault;
ghost use Rattle.milter_mail_file.specs.SessionFault.{IsAt, Reads};

use crate::session_fault::SessionFault;
use milter_text::{FileLine, Word};
use milter_wire::{
    Header, NoMemory, Params, Path, Text, header_packet_len, helo_packet_len, path_packet_len,
};
use std::alloc::Global;

/// The name of the client in the line of its greeting.
pub(crate) fn helo_in(alloc: Global, line: &FileLine) -> Result<Text, SessionFault>
    ensures reads { Reads (helo_of line.now.words.items) (λ name. Fits (commands.Helo name)) result }
    ensures at { IfErr result (λ e. IsAt line.now.number e) }
{
    let Some(name) = helo_text(line.words.as_slice()) else {
        return Err(SessionFault::UnknownLine(line.number));
    };
    if !name.has_no_nul() {
        return Err(SessionFault::Nul(line.number));
    }
    if helo_packet_len(name).is_none() {
        return Err(SessionFault::TooLarge(line.number));
    }
    Ok(Text::copy_of(alloc, name.as_slice())?)
}

/// The name in the words of a greeting's line.
fn helo_text(words: &[Word]) -> Option<&Text>
    ensures { option_map (λ name. name.now) result ≡ helo_of words.now }
{
    let [first, name] = words else {
        return None;
    };
    if !first.is_keyword(b"helo") {
        return None;
    }
    name.quoted_text()
}

/// The sender or the recipient in a line with this keyword.
#[tactic(auto, using(crate::proofs::Paths::texts_no_nul))]
pub(crate) fn path_in(alloc: Global, keyword: &[u8], line: &FileLine) -> Result<Path, SessionFault>
    ensures reads { Reads (path_of keyword.now line.now.words.items) (λ path. Fits (commands.Rcpt path)) result }
    ensures at { IfErr result (λ e. IsAt line.now.number e) }
{
    let Some((address, params)) = path_words(keyword, line.words.as_slice()) else {
        return Err(SessionFault::UnknownLine(line.number));
    };
    if !address.has_no_nul() || !have_no_nul(params) {
        return Err(SessionFault::Nul(line.number));
    }
    let address = Text::copy_of(alloc, address.as_slice())?;
    let params = copy_texts(alloc, params)?;
    sized_path(Path { address, params }, line.number)
}

/// The address, and the words of the parameters, in the words of a line with this keyword.
fn path_words<'a>(keyword: &[u8], words: &'a [Word]) -> Option<(&'a Text, &'a [Word])>
    ensures { option_map (λ x. record { address = x.0.now; params = map (λ word. word.text) x.1.now }) result
        ≡ path_of keyword.now words.now }
{
    let [first, address, params @ ..] = words else {
        return None;
    };
    if !first.is_keyword(keyword) || !address.quoted || !are_quoted(params) {
        return None;
    }
    Some((&address.text, params))
}

/// Whether each of the words is quoted.
fn are_quoted(words: &[Word]) -> bool
    ensures { result ≡ list_all (λ word. word.quoted) words.now }
{
    words.iter().all(|word| word.quoted)
}

/// Whether no text of the words has a NUL.
fn have_no_nul(words: &[Word]) -> bool
    ensures { IsTrue result ↔ All (λ word. HasNoNul word.text) words.now }
{
    words.iter().all(|word| word.text.has_no_nul())
}

/// The texts of the words, in order.
fn copy_texts(alloc: Global, words: &[Word]) -> Result<Params, NoMemory>
    ensures { IfOk result (λ copy. copy ≡ map (λ word. word.text) words.now) }
{
    let mut copies = Vec::with_capacity(alloc, words.len())?;
    for word in words {
        copies.push(Text::copy_of(alloc, word.text.as_slice())?)?;
    }
    Ok(Params::new(copies))
}

/// The path, unless its packet would be too long.
fn sized_path(path: Path, number: u64) -> Result<Path, SessionFault>
    ensures reads { Reads (Some path) (λ path. Fits (commands.Rcpt path)) result }
    ensures at { IfErr result (λ e. IsAt number e) }
{
    match path_packet_len(&path) {
        Some(_) => Ok(path),
        None => Err(SessionFault::TooLarge(number)),
    }
}

/// The header field in the line.
pub(crate) fn header_in(alloc: Global, line: &FileLine) -> Result<Header, SessionFault>
    ensures reads { Reads (header_of line.now.words.items) WholeFieldFits result }
    ensures at { IfErr result (λ e. IsAt line.now.number e) }
{
    let Some((name, value)) = header_texts(line.words.as_slice()) else {
        return Err(SessionFault::BadHeader(line.number));
    };
    if !name.has_no_nul() || !value.has_no_nul() {
        return Err(SessionFault::Nul(line.number));
    }
    if !is_name(name) {
        return Err(SessionFault::BadHeader(line.number));
    }
    let name = Text::copy_of(alloc, name.as_slice())?;
    let value = Text::copy_of(alloc, value.as_slice())?;
    sized_header(Header { name, value }, line.number)
}

/// The name and the value in the words of a header line; the name may be none.
fn header_texts(words: &[Word]) -> Option<(&Text, &Text)>
    ensures { if_named (option_map (λ x. record { name = x.0.now; value = x.1.now }) result) ≡ header_of words.now }
{
    let [first, name, value] = words else {
        return None;
    };
    if !first.is_keyword(b"header") {
        return None;
    }
    Some((name.quoted_text()?, value.quoted_text()?))
}

/// Whether it is the name of a header field: visible ASCII characters, at least one, and no colon.
fn is_name(name: &Text) -> bool
    ensures { result ≡ is_name name.now }
{
    match name.as_slice() {
        [] => false,
        bytes => are_name_bytes(bytes),
    }
}

/// Whether each of the bytes may be in the name of a header field.
fn are_name_bytes(bytes: &[u8]) -> bool
    ensures { result ≡ list_all (λ byte. nat_le 33 byte && (nat_le byte 126 && not (byte == 58))) bytes.now }
{
    bytes.iter().all(|byte| is_name_byte(*byte))
}

/// Whether it may be in the name of a header field.
fn is_name_byte(byte: u8) -> bool
    ensures { result ≡ (nat_le 33 byte && (nat_le byte 126 && not (byte == 58))) }
{
    byte.is_ascii_graphic() && byte != b':'
}

/// The header field, unless its packet would be too long.
fn sized_header(header: Header, number: u64) -> Result<Header, SessionFault>
    ensures reads { Reads (Some header) WholeFieldFits result }
    ensures at { IfErr result (λ e. IsAt number e) }
{
    match header_packet_len(&header) {
        Some(_) => Ok(header),
        None => Err(SessionFault::TooLarge(number)),
    }
}

/// The text of a body in the line.
pub(crate) fn chunk_in(line: &FileLine) -> Result<&[u8], SessionFault>
    ensures found { IfOk result (λ chunk. chunk_of line.now.words.items ≡ Some chunk.now) }
    ensures only { (chunk : List ℕ) → chunk_of line.now.words.items ≡ Some chunk →
        MatchResult result (λ found. found.now ≡ chunk) (λ e. e ≡ SessionFault.NoMemory) }
    ensures at { IfErr result (λ e. IsAt line.now.number e) }
{
    match chunk_text(line.words.as_slice()) {
        Some(text) => Ok(text.as_slice()),
        None => Err(SessionFault::UnknownLine(line.number)),
    }
}

/// The text in the words of a body's line.
fn chunk_text(words: &[Word]) -> Option<&Text>
    ensures { option_map (λ text. text.now) result ≡ chunk_of words.now }
{
    let [first, text] = words else {
        return None;
    };
    if !first.is_keyword(b"body") {
        return None;
    }
    text.quoted_text()
}
