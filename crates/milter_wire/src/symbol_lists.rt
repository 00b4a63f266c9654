//! Symbol lists: the macros that a filter asks for, by name.

ghost use Rattle.std.specs.Prelude.{◌≡◌, ◌-◌, ◌^◌, ◌↔◌, IfOk, IsTrue, is_some, length, min, option_map};
ghost use Rattle.std.specs.List.{flat_map};
ghost use Rattle.milter_fields.specs.AppendedBytes.{PutsBytes};
ghost use Rattle.milter_wire.specs.OptionsPayload.{options_with_lists, OptionsWithListsFit, sym_list, SymListFits, options_with_lists_in, sym_list_at, sym_lists_in};
ghost use Rattle.milter_fields.specs.Decoders.{DecodesOptional};

use crate::options::Options;
use crate::options_payload::{OPTIONS_LEN, options_fit, put_options, take_options_first};
use milter_fields::{
    List, NoMemory, Text, has_no_nul, put_number, put_string, string_len, take_number, take_string,
};
use std::alloc::Global;

/// The number of bytes that a stage has in a packet.
const STAGE_LEN: usize = 4;

/// The macros that a filter asks for before the commands of a stage. Source: mfapi.h (smfi_setsymlist).
#[derive(Clone, Debug, PartialEq, Eq, Drop)]
pub struct SymList {
    /// The stage: 0 for connect, 1 helo, 2 mail, 3 rcpt, 4 data, 5 end of message, 6 end of headers. A greater number
    /// is of no stage.
    pub stage: u32,
    /// The names of the macros, with blanks between them.
    pub names: Text,
}

/// The symbol lists of a filter, from none to as many as a packet has room for. Source: mfapi.h (smfi_setsymlist).
pub type SymLists = List<SymList>;

/// A copy of the symbol lists.
pub fn copy_sym_lists(alloc: Global, lists: &[SymList]) -> Result<SymLists, NoMemory>
    ensures { IfOk result (λ copy. copy ≡ lists.now) }
{
    let mut copies = Vec::with_capacity(alloc, lists.len())?;
    for list in lists {
        copies.push(SymList {
            stage: list.stage,
            names: Text::copy_of(alloc, list.names.as_slice())?,
        })?;
    }
    Ok(SymLists::new(copies))
}

/// Whether the stage is in its range, as it is by its type, and the names have no NUL.
fn sym_list_fits(list: &SymList) -> bool
    ensures { IsTrue result ↔ SymListFits list.now }
{
    let _stage = list.stage;
    has_no_nul(list.names.as_slice())
}

/// The number of bytes of the list in a packet, or the greatest `usize` where there are more. Doesn't allocate.
#[tactic(auto, unfolding(milter_fields::specs::Number::number))]
pub fn sym_list_len(list: &SymList) -> usize
    ensures { result ≡ min (length (sym_list list.now)) (2 ^ 64 - 1) }
{
    string_len(list.names.as_slice()).saturating_add(STAGE_LEN)
}

/// The number of bytes of the lists in a packet, or the greatest `usize` where there are more. Doesn't allocate.
pub fn sym_lists_len(lists: &[SymList]) -> usize
    ensures { result ≡ min (length (flat_map sym_list lists.now)) (2 ^ 64 - 1) }
{
    let mut total: usize = 0;
    for list in lists {
        total = total.saturating_add(sym_list_len(list));
    }
    total
}

/// Appends the stage and the names.
fn put_sym_list(out: &mut Vec<u8>, list: &SymList) -> Result<(), NoMemory>
    ensures { PutsBytes (sym_list list.now) out.old.items out.new.items result }
{
    put_number(out, list.stage)?;
    put_string(out, list.names.as_slice())
}

/// Appends each list.
fn put_sym_lists(out: &mut Vec<u8>, lists: &[SymList]) -> Result<(), NoMemory>
    ensures { PutsBytes (flat_map sym_list lists.now) out.old.items out.new.items result }
{
    for list in lists {
        put_sym_list(out, list)?;
    }
    Ok(())
}

/// The stage and the names of the list that the bytes begin with, and the bytes after it.
#[tactic(auto, unfolding(crate::specs::OptionsPayload::sym_list_at))]
fn take_sym_list(bytes: &[u8]) -> Option<(u32, &[u8], &[u8])>
    ensures { option_map (λ x. (record { stage = x.0; names = x.1.now }, x.2.now)) result ≡ sym_list_at bytes.now }
{
    let (stage, rest) = take_number(bytes)?;
    let (names, rest) = take_string(rest)?;
    Some((stage, names, rest))
}

/// Whether the bytes are symbol lists up to the end.
fn are_sym_lists(bytes: &[u8]) -> bool
    ensures { result ≡ is_some (sym_lists_in bytes.now) }
{
    let mut rest = bytes;
    while !rest.is_empty() {
        let Some((_, _, after)) = take_sym_list(rest) else {
            return false;
        };
        rest = after;
    }
    true
}

/// The symbol lists that the bytes are, up to the end.
fn take_sym_lists(alloc: Global, bytes: &[u8]) -> Result<Option<SymLists>, NoMemory>
    ensures { DecodesOptional (sym_lists_in bytes.now) result }
{
    if !are_sym_lists(bytes) {
        return Ok(None);
    }
    let mut lists = Vec::new(alloc);
    let mut rest = bytes;
    while !rest.is_empty() {
        let Some((stage, names, after)) = take_sym_list(rest) else {
            return Ok(None);
        };
        let names = Text::copy_of(alloc, names)?;
        lists.push(SymList { stage, names })?;
        rest = after;
    }
    Ok(Some(SymLists::new(lists)))
}

/// Whether the options and each list have an encoding: no list's names have a NUL. Doesn't allocate.
pub fn options_with_lists_fit(options: &Options, lists: &SymLists) -> bool
    ensures { IsTrue result ↔ OptionsWithListsFit options.now lists.now }
{
    options_fit(options) && lists.as_slice().iter().all(|list| sym_list_fits(list))
}

/// The number of bytes of the options and the lists in a packet, or the greatest `usize` where there are more. Doesn't
/// allocate.
#[tactic(auto, unfolding(milter_fields::specs::Number::number))]
pub fn options_with_lists_len(options: &Options, lists: &SymLists) -> usize
    ensures { result ≡ min (length (options_with_lists options.now lists.now)) (2 ^ 64 - 1) }
{
    let _options = options;
    sym_lists_len(lists.as_slice()).saturating_add(OPTIONS_LEN)
}

/// Appends the options and each list. After `NoMemory`, `out` has what it had and perhaps some of their bytes.
pub fn put_options_with_lists(
    out: &mut Vec<u8>,
    options: &Options,
    lists: &SymLists,
) -> Result<(), NoMemory>
    ensures { PutsBytes (options_with_lists options.now lists.now) out.old.items out.new.items result }
{
    put_options(out, options)?;
    put_sym_lists(out, lists.as_slice())
}

/// The options and the symbol lists that these bytes encode, all of the bytes; `NoMemory` only where they do.
#[tactic(auto, unfolding(crate::specs::OptionsPayload::options_with_lists_in))]
pub fn take_options_with_lists(
    alloc: Global,
    bytes: &[u8],
) -> Result<Option<(Options, SymLists)>, NoMemory>
    ensures { DecodesOptional (options_with_lists_in bytes.now) result }
{
    let Some((options, rest)) = take_options_first(bytes) else {
        return Ok(None);
    };
    let Some(lists) = take_sym_lists(alloc, rest)? else {
        return Ok(None);
    };
    Ok(Some((options, lists)))
}
