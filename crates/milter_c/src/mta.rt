//! A mail server's end of a connection to a filter.

ghost use Rattle.std.specs.Prelude.{◌≡◌, ◌≢◌, ◌<◌, ◌≤◌, ◌↔◌, ◌++◌, ◌∷◌, [], IfSome, IsSomeAnd, MatchOption, None, Some, if◌then◌else◌, length, slice_get};
ghost use Rattle.milter_mta_connection.specs.Connection.{is_under_way, lost, want};
ghost use Rattle.milter_c_objects.specs.MtaEnds.{sent_of};
ghost use Rattle.milter_c_objects.specs.MtaNumbers.{event_number, verdict_in, verdict_number, verdict_text, want_number};
ghost use Rattle.milter_c_objects.specs.Objects.{IsKept, mta_of};
ghost use Rattle.milter_c.specs.Mtas.{IsFed, ShowsEdit, fresh_mta, options_of};
ghost use Rattle.milter_c.specs.Statuses.{kind_status};

use crate::view::{EditView, View, let_object};
use milter_c_objects::status::{BAD_ARGUMENT, NO_MEMORY, NOTHING, OK, WRONG_KIND};
use milter_c_objects::{
    Handle, MtaEnd, Object, event_number, loss_status, memory_status, parts_of, verdict_number,
    verdict_text, want_number,
};
use milter_mta_connection::FilterEvent;
use milter_wire::{Actions, Options, Protocol};
use std::alloc::Global;

/// Puts a connection into the handle that was just made: its offer, of these, is pending.
#[unsafe(no_mangle)]
pub extern "C" fn deiruska_mta_new(
    alloc: Global,
    mta: &mut Handle,
    version: u32,
    actions: u32,
    protocol: u32,
) -> i32
    ensures done { result ≡ OK → mta_of mta.new ≡ Some (fresh_mta version actions protocol) }
    ensures kept { result ≢ OK → IsKept mta.old mta.new }
    ensures answers { result ≢ OK → result ≡ NO_MEMORY }
{
    let offer = Options {
        version,
        actions: Actions(actions),
        protocol: Protocol(protocol),
    };
    match MtaEnd::new(alloc, offer) {
        Ok(end) => memory_status(mta.put(alloc, Object::Mta(end))),
        Err(_) => NO_MEMORY,
    }
}

/// What is to be done next. Doesn't allocate.
#[unsafe(no_mangle)]
pub extern "C" fn deiruska_mta_want(mta: &mut Handle) -> i32
    ensures want { MatchOption (mta_of mta.old) (result ≡ WRONG_KIND) (λ old.
        result ≡ want_number (want old.connection)) }
    ensures kept { IsKept mta.old mta.new }
{
    let_object!(end: Mta = mta);
    want_number(end.connection.want())
}

/// The bytes that are to be sent. Doesn't allocate.
#[unsafe(no_mangle)]
pub extern "C" fn deiruska_mta_pending<'a>(mta: &'a mut Handle, out: &mut View<'a>) -> i32
    ensures pending { result ≡ OK → IsSomeAnd (mta_of mta.old) (λ old.
        out.new.bytes.now ≡ old.connection.channel.pending) }
    ensures unwritten { result ≢ OK → out.new ≡ out.old }
    ensures status { result ≡ kind_status (mta_of mta.old) }
{
    let_object!(end: Mta = mta);
    out.bytes = end.pending();
    OK
}

/// The first `count` bytes of what is pending were sent. Doesn't allocate.
#[unsafe(no_mangle)]
pub extern "C" fn deiruska_mta_sent(mta: &mut Handle, count: usize) -> i32
    ensures done { result ≡ OK → IsSomeAnd (mta_of mta.old) (λ old. mta_of mta.new
        ≡ Some (record old { connection = sent_of count old.connection })) }
    ensures kept { result ≢ OK → IsKept mta.old mta.new }
    ensures too_many { result ≡ BAD_ARGUMENT → IsSomeAnd (mta_of mta.old) (λ old.
        length old.connection.channel.pending < count) }
    ensures within { IfSome (mta_of mta.old) (λ old.
        count ≤ length old.connection.channel.pending → result ≡ OK) }
    ensures wrong_kind { (result ≡ WRONG_KIND) ↔ (mta_of mta.old ≡ None) }
{
    let_object!(end: Mta = mta);
    if end.pending().len() < count {
        return BAD_ARGUMENT;
    }
    end.sent(count);
    OK
}

/// Takes a piece of what the filter sent, all of it.
#[unsafe(no_mangle)]
pub extern "C" fn deiruska_mta_feed(mta: &mut Handle, piece: &[u8]) -> i32
    ensures fed { MatchOption (mta_of mta.old) (result ≡ WRONG_KIND) (λ old.
        IsSomeAnd (mta_of mta.new) (λ new. IsFed old piece.now new result)) }
    ensures kept { result ≡ WRONG_KIND → IsKept mta.old mta.new }
{
    let_object!(end: Mta = mta);
    end.feed(piece);
    loss_status(end.fed.loss)
}

/// The last event of the last piece. Doesn't allocate.
#[unsafe(no_mangle)]
pub extern "C" fn deiruska_mta_event(mta: &mut Handle) -> i32
    ensures event { MatchOption (mta_of mta.old) (result ≡ WRONG_KIND) (λ old. result ≡ event_number old.fed.event) }
    ensures kept { IsKept mta.old mta.new }
{
    let_object!(end: Mta = mta);
    event_number(&end.fed.event)
}

/// The verdict of that event, by its number, and the text of a code. Doesn't allocate.
#[unsafe(no_mangle)]
pub extern "C" fn deiruska_mta_verdict<'a>(
    mta: &'a mut Handle,
    verdict: &mut u32,
    text: &mut View<'a>,
) -> i32
    ensures verdict { MatchOption (mta_of mta.old) (result ≡ WRONG_KIND) (λ old.
        MatchOption (verdict_in old.fed.event) (result ≡ NOTHING) (λ given. (result ≡ OK)
        × (verdict.new ≡ verdict_number given) × (text.new.bytes.now ≡ verdict_text given))) }
    ensures unwritten { result ≢ OK → (verdict.new ≡ verdict.old) × (text.new ≡ text.old) }
{
    let_object!(end: Mta = mta);
    let FilterEvent::Verdict(given) = &end.fed.event else {
        return NOTHING;
    };
    *verdict = verdict_number(given);
    text.bytes = verdict_text(given);
    OK
}

/// What was negotiated. Doesn't allocate.
#[unsafe(no_mangle)]
pub extern "C" fn deiruska_mta_negotiated(
    mta: &mut Handle,
    version: &mut u32,
    actions: &mut u32,
    protocol: &mut u32,
) -> i32
    ensures negotiated { MatchOption (mta_of mta.old) (result ≡ WRONG_KIND) (λ old.
        MatchOption old.connection.channel.negotiated (result ≡ NOTHING) (λ both. (result ≡ OK)
        × (both.options ≡ options_of version.new actions.new protocol.new))) }
    ensures kept { IsKept mta.old mta.new }
    ensures unwritten { result ≢ OK →
        (version.new ≡ version.old) × (actions.new ≡ actions.old) × (protocol.new ≡ protocol.old) }
{
    let_object!(end: Mta = mta);
    let Some(both) = end.connection.negotiated() else {
        return NOTHING;
    };
    *version = both.options.version;
    *actions = both.options.actions.0;
    *protocol = both.options.protocol.0;
    OK
}

/// Whether a message is under way that no verdict ended. Doesn't allocate.
#[unsafe(no_mangle)]
pub extern "C" fn deiruska_mta_is_under_way(mta: &mut Handle) -> i32
    ensures under_way { MatchOption (mta_of mta.old) (result ≡ WRONG_KIND) (λ old.
        result ≡ (if is_under_way old.connection.phase then OK else NOTHING)) }
    ensures kept { IsKept mta.old mta.new }
{
    let_object!(end: Mta = mta);
    if end.connection.is_message_under_way() {
        OK
    } else {
        NOTHING
    }
}

/// The filter is lost: nothing is pending, and each call is refused. Doesn't allocate.
#[unsafe(no_mangle)]
pub extern "C" fn deiruska_mta_lost(mta: &mut Handle) -> i32
    ensures done { result ≡ OK → IsSomeAnd (mta_of mta.old) (λ old. mta_of mta.new
        ≡ Some (record old { connection = lost old.connection })) }
    ensures kept { result ≢ OK → IsKept mta.old mta.new }
    ensures status { result ≡ kind_status (mta_of mta.old) }
{
    let_object!(end: Mta = mta);
    end.lost();
    OK
}

/// Frees the memory for one packet where no packet has begun. Doesn't allocate.
#[unsafe(no_mangle)]
pub extern "C" fn deiruska_mta_release(mta: &mut Handle) -> i32
    ensures kept { IsKept mta.old mta.new }
    ensures status { result ≡ kind_status (mta_of mta.old) }
{
    let_object!(end: Mta = mta);
    end.release();
    OK
}

/// Gives a macro for the next call.
#[unsafe(no_mangle)]
pub extern "C" fn deiruska_mta_macro(
    alloc: Global,
    mta: &mut Handle,
    name: &[u8],
    value: &[u8],
) -> i32
    ensures done { result ≡ OK → IsSomeAnd (mta_of mta.old) (λ old. mta_of mta.new ≡ Some (record old {
      macros = old.macros ++ record { name = name.now; value = value.now } ∷ [];
    })) }
    ensures kept { result ≢ OK → IsKept mta.old mta.new }
    ensures wrong_kind { (result ≡ WRONG_KIND) ↔ (mta_of mta.old ≡ None) }
    ensures answers { result ≢ OK → result ≢ WRONG_KIND → result ≡ NO_MEMORY }
{
    let_object!(end: Mta = mta);
    memory_status(end.add_macro(alloc, name, value))
}

/// Gives an ESMTP parameter for the next sender or recipient.
#[unsafe(no_mangle)]
pub extern "C" fn deiruska_mta_parameter(alloc: Global, mta: &mut Handle, text: &[u8]) -> i32
    ensures done { result ≡ OK → IsSomeAnd (mta_of mta.old) (λ old. mta_of mta.new
        ≡ Some (record old { params = old.params ++ text.now ∷ [] })) }
    ensures kept { result ≢ OK → IsKept mta.old mta.new }
    ensures wrong_kind { (result ≡ WRONG_KIND) ↔ (mta_of mta.old ≡ None) }
    ensures answers { result ≢ OK → result ≢ WRONG_KIND → result ≡ NO_MEMORY }
{
    let_object!(end: Mta = mta);
    memory_status(end.add_param(alloc, text))
}

/// Drops the macros and the parameters that were given for the next call. Doesn't allocate.
#[unsafe(no_mangle)]
pub extern "C" fn deiruska_mta_clear(alloc: Global, mta: &mut Handle) -> i32
    ensures done { result ≡ OK → IsSomeAnd (mta_of mta.old) (λ old. mta_of mta.new
        ≡ Some (record old { macros = []; params = [] })) }
    ensures kept { result ≢ OK → IsKept mta.old mta.new }
    ensures status { result ≡ kind_status (mta_of mta.old) }
{
    let_object!(end: Mta = mta);
    end.clear_given(alloc);
    OK
}

/// How many edits the answer to the end of a message has, until the next call. Doesn't allocate.
#[unsafe(no_mangle)]
pub extern "C" fn deiruska_mta_edits(mta: &mut Handle, count: &mut usize) -> i32
    ensures edits { result ≡ OK → IsSomeAnd (mta_of mta.old) (λ old.
        count.new ≡ length old.connection.channel.edits) }
    ensures kept { IsKept mta.old mta.new }
    ensures unwritten { result ≢ OK → count.new ≡ count.old }
    ensures status { result ≡ kind_status (mta_of mta.old) }
{
    let_object!(end: Mta = mta);
    *count = end.connection.edits().len();
    OK
}

/// The edit at a place, from 0. Doesn't allocate.
#[unsafe(no_mangle)]
pub extern "C" fn deiruska_mta_edit<'a>(
    mta: &'a mut Handle,
    place: usize,
    out: &mut EditView<'a>,
) -> i32
    ensures edit { MatchOption (mta_of mta.old) (result ≡ WRONG_KIND) (λ old.
        MatchOption (slice_get old.connection.channel.edits place) (result ≡ NOTHING) (λ edit.
        (result ≡ OK) × ShowsEdit edit out.new)) }
    ensures unwritten { result ≢ OK → out.new ≡ out.old }
{
    let_object!(end: Mta = mta);
    let Some(edit) = end.connection.edits().get(place) else {
        return NOTHING;
    };
    let parts = parts_of(edit);
    out.first = parts.first;
    out.second = parts.second;
    out.kind = parts.number;
    out.index = parts.index;
    OK
}
