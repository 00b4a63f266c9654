//! The parts of replies.

ghost use Rattle.std.specs.Prelude.{◌≡◌, ◌++◌, map, option_map, slice_get};
ghost use Rattle.milter_c_objects.specs.Parts.{options_parts, reply_parts, symbols_part, value_of};

use crate::part::{Part, arguments_part, header_part, only_part, options_part, text_part};
use milter_wire::{Options, Reply, SymList};

/// How many parts options have before the symbol lists.
const OPTIONS_PARTS: usize = 3;

/// The part of a reply at a place.
pub(crate) fn reply_part(reply: &Reply, place: usize) -> Option<Part<'_>>
    ensures { option_map value_of result ≡ slice_get (reply_parts reply.now) place }
{
    match reply {
        Reply::Options { options, lists } => wanted_part(*options, lists.as_slice(), place),
        Reply::AddRcptPar { address, arguments } | Reply::ChangeFrom { address, arguments } => {
            only_part(arguments_part(address, arguments), place)
        }
        Reply::AddHeader(header) => only_part(header_part(0, header), place),
        Reply::InsertHeader { index, header } | Reply::ChangeHeader { index, header } => {
            only_part(header_part(*index, header), place)
        }
        Reply::AddRcpt(text)
        | Reply::DelRcpt(text)
        | Reply::ReplaceBody(text)
        | Reply::Quarantine(text)
        | Reply::Code(text) => only_part(text_part(text), place),
        Reply::Accept
        | Reply::Continue
        | Reply::Discard
        | Reply::Progress
        | Reply::Reject
        | Reply::Skip
        | Reply::Tempfail => None,
    }
}

/// The part at a place of what a filter wants: the options, and then each symbol list.
fn wanted_part(options: Options, lists: &[SymList], place: usize) -> Option<Part<'_>>
    ensures { option_map value_of result
        ≡ slice_get (options_parts options ++ map symbols_part lists.now) place }
{
    if place < OPTIONS_PARTS {
        return options_part(options, place);
    }
    symbols_part(lists, place - OPTIONS_PARTS)
}

/// The part that is the symbol list at a place.
fn symbols_part(lists: &[SymList], place: usize) -> Option<Part<'_>>
    ensures { option_map value_of result ≡ option_map symbols_part (slice_get lists.now place) }
{
    match lists.get(place) {
        Some(list) => Some(Part {
            first: list.names.as_slice(),
            second: &[],
            kind: 0,
            number: list.stage,
        }),
        None => None,
    }
}
