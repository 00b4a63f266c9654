//! The macros that a filter asks for.

ghost use Rattle.std.specs.Prelude.{◌≡◌, ◌≢◌, ◌++◌, ◌∷◌, [], IfOk, IfSome, IsSomeAnd, None, Some};
ghost use Rattle.milter_protocol.specs.declared.stage_order.CommandOrder.TheVariants.{Lenient};
ghost use Rattle.milter_filter_stream.specs.Conversations.{fresh_conversation};
ghost use Rattle.milter_c_objects.specs.Objects.{IsKept, filter_of};
ghost use Rattle.milter_c.specs.AskedMacros.{asking_for, list_stage};
ghost use Rattle.milter_c.specs.Filters.{BreaksWants};

use crate::view::let_object;
use milter_c_objects::status::{
    BAD_ARGUMENT, NO_MEMORY, OK, STAGE_CONNECT, STAGE_DATA, STAGE_EOB, STAGE_EOH, STAGE_HELO,
    STAGE_MAIL, STAGE_RCPT, WRONG_KIND,
};
use milter_c_objects::{Handle, Object, wants_fault_number};
use milter_filter_stream::Wants;
use milter_protocol::CommandOrder;
use milter_wire::{
    NoMemory, SMFIM_CONNECT, SMFIM_DATA, SMFIM_ENVFROM, SMFIM_ENVRCPT, SMFIM_EOH, SMFIM_EOM,
    SMFIM_HELO, SymList, SymLists, Text, copy_sym_lists,
};
use std::alloc::Global;

/// Asks for macros at a stage, by their names with blanks between them, beside those that were asked for before. The
/// connection begins again. Source: mfapi.h (smfi_setsymlist).
#[unsafe(no_mangle)]
pub extern "C" fn deiruska_filter_ask_macros(
    alloc: Global,
    filter: &mut Handle,
    stage: u32,
    names: &[u8],
) -> i32
    ensures done { result ≡ OK → IsSomeAnd (filter_of filter.old) (λ old. IsSomeAnd (list_stage stage) (λ at.
        filter_of filter.new ≡ Some (fresh_conversation Lenient (asking_for at names.now old.wanted)))) }
    ensures kept { result ≢ OK → IsKept filter.old filter.new }
    ensures stages { result ≢ WRONG_KIND → list_stage stage ≡ None → result ≡ BAD_ARGUMENT }
    ensures no_stage { result ≡ BAD_ARGUMENT → list_stage stage ≡ None }
    ensures cause { result ≢ OK → result ≢ NO_MEMORY → IfSome (filter_of filter.old) (λ old.
        IfSome (list_stage stage) (λ at. BreaksWants (asking_for at names.now old.wanted) result)) }
    ensures no_filter { filter_of filter.old ≡ None → result ≡ WRONG_KIND }
{
    let_object!(connection: Filter = filter);
    let Some(at) = list_stage(stage) else {
        return BAD_ARGUMENT;
    };
    let Ok(lists) = lists_with(alloc, connection.wants().lists(), at, names) else {
        return NO_MEMORY;
    };
    match Wants::new(connection.wants().options(), lists) {
        Ok(wants) => {
            connection.restart_with(wants, CommandOrder::Lenient);
            OK
        }
        Err(fault) => wants_fault_number(fault),
    }
}

/// The number that a stage has in a symbol list; none of header fields and chunks of a body, before which no macros are
/// sent.
fn list_stage(stage: u32) -> Option<u32>
    ensures { result ≡ list_stage stage }
{
    match stage {
        STAGE_CONNECT => Some(SMFIM_CONNECT),
        STAGE_HELO => Some(SMFIM_HELO),
        STAGE_MAIL => Some(SMFIM_ENVFROM),
        STAGE_RCPT => Some(SMFIM_ENVRCPT),
        STAGE_DATA => Some(SMFIM_DATA),
        STAGE_EOB => Some(SMFIM_EOM),
        STAGE_EOH => Some(SMFIM_EOH),
        _ => None,
    }
}

/// Copies of the symbol lists, and one more.
fn lists_with(
    alloc: Global,
    lists: &[SymList],
    stage: u32,
    names: &[u8],
) -> Result<SymLists, NoMemory>
    ensures { IfOk result (λ all. all ≡ lists.now ++ record { stage = stage; names = names.now } ∷ []) }
{
    let mut all = copy_sym_lists(alloc, lists)?;
    let names = Text::copy_of(alloc, names)?;
    all.push(SymList { stage, names })?;
    Ok(all)
}
