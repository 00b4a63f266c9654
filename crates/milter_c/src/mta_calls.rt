//! The calls of a mail server's end for what its client does.

ghost use Rattle.std.specs.Prelude.{◌≡◌, ◌≢◌, ◌↔◌, [], IfSome, None};
ghost use Rattle.milter_wire.specs.declared.command.Command.TheVariants as commands;
ghost use Rattle.milter_c_objects.specs.MtaEnds.{AbortCalled, BodyCalled, CalledAt, HeaderCalled, QuitCalled, UnknownCalled, path_with};
ghost use Rattle.milter_c_objects.specs.MtaNumbers.{call_result};
ghost use Rattle.milter_c_objects.specs.Origins.{origin_numbered};
ghost use Rattle.milter_c_objects.specs.Objects.{IsKept, mta_of};
ghost use Rattle.milter_c.specs.Mtas.{IsCall};

use crate::view::let_object;
use milter_c_objects::status::{BAD_ARGUMENT, OK, WRONG_KIND};
use milter_c_objects::{Handle, Object, call_status, origin_numbered};
use milter_wire::{ClientRef, HeaderRef, Stage};
use std::alloc::Global;

/// A client has connected: its host, the family of its address, the port and the address.
#[unsafe(no_mangle)]
pub extern "C" fn deiruska_mta_connect(
    alloc: Global,
    mta: &mut Handle,
    host: &[u8],
    family: u32,
    port: u16,
    address: &[u8],
    outcome: &mut u32,
) -> i32
    ensures call { result ≢ WRONG_KIND → IfSome (origin_numbered family port address.now) (λ origin.
        IsCall (CalledAt Stage.Connect (commands.Connect (record { host = host.now; origin = origin })))
        mta.old mta.new (call_result result outcome.new)) }
    ensures family { result ≢ WRONG_KIND → origin_numbered family port address.now ≡ None → result ≡ BAD_ARGUMENT }
    ensures kept { result ≢ OK → IsKept mta.old mta.new }
    ensures unwritten { result ≢ OK → outcome.new ≡ outcome.old }
    ensures wrong_kind { (result ≡ WRONG_KIND) ↔ (mta_of mta.old ≡ None) }
{
    let_object!(end: Mta = mta);
    let Some(origin) = origin_numbered(family, port, address) else {
        return BAD_ARGUMENT;
    };
    call_status(end.connect(alloc, ClientRef { host, origin }), outcome)
}

/// The client has sent HELO or EHLO, with this name.
#[unsafe(no_mangle)]
pub extern "C" fn deiruska_mta_helo(
    alloc: Global,
    mta: &mut Handle,
    name: &[u8],
    outcome: &mut u32,
) -> i32
    ensures call { result ≢ WRONG_KIND → IsCall (CalledAt Stage.Helo (commands.Helo name.now))
        mta.old mta.new (call_result result outcome.new) }
    ensures kept { result ≢ OK → IsKept mta.old mta.new }
    ensures unwritten { result ≢ OK → outcome.new ≡ outcome.old }
    ensures wrong_kind { (result ≡ WRONG_KIND) ↔ (mta_of mta.old ≡ None) }
{
    let_object!(end: Mta = mta);
    call_status(end.helo(alloc, name), outcome)
}

/// The sender of a message, with the parameters that were given.
#[unsafe(no_mangle)]
pub extern "C" fn deiruska_mta_mail(
    alloc: Global,
    mta: &mut Handle,
    address: &[u8],
    outcome: &mut u32,
) -> i32
    ensures call { result ≢ WRONG_KIND → IsCall
        (λ old. CalledAt Stage.Mail (commands.Mail (path_with address.now old)) old)
        mta.old mta.new (call_result result outcome.new) }
    ensures kept { result ≢ OK → IsKept mta.old mta.new }
    ensures unwritten { result ≢ OK → outcome.new ≡ outcome.old }
    ensures wrong_kind { (result ≡ WRONG_KIND) ↔ (mta_of mta.old ≡ None) }
{
    let_object!(end: Mta = mta);
    call_status(end.mail(alloc, address), outcome)
}

/// A recipient of the message, with the parameters that were given.
#[unsafe(no_mangle)]
pub extern "C" fn deiruska_mta_rcpt(
    alloc: Global,
    mta: &mut Handle,
    address: &[u8],
    outcome: &mut u32,
) -> i32
    ensures call { result ≢ WRONG_KIND → IsCall
        (λ old. CalledAt Stage.Rcpt (commands.Rcpt (path_with address.now old)) old)
        mta.old mta.new (call_result result outcome.new) }
    ensures kept { result ≢ OK → IsKept mta.old mta.new }
    ensures unwritten { result ≢ OK → outcome.new ≡ outcome.old }
    ensures wrong_kind { (result ≡ WRONG_KIND) ↔ (mta_of mta.old ≡ None) }
{
    let_object!(end: Mta = mta);
    call_status(end.rcpt(alloc, address), outcome)
}

/// The client has sent DATA.
#[unsafe(no_mangle)]
pub extern "C" fn deiruska_mta_data(alloc: Global, mta: &mut Handle, outcome: &mut u32) -> i32
    ensures call { result ≢ WRONG_KIND → IsCall (CalledAt Stage.DataCmd commands.DataCmd)
        mta.old mta.new (call_result result outcome.new) }
    ensures kept { result ≢ OK → IsKept mta.old mta.new }
    ensures unwritten { result ≢ OK → outcome.new ≡ outcome.old }
    ensures wrong_kind { (result ≡ WRONG_KIND) ↔ (mta_of mta.old ≡ None) }
{
    let_object!(end: Mta = mta);
    call_status(end.data(alloc), outcome)
}

/// A header field of the message, with the blank that its value begins with.
#[unsafe(no_mangle)]
pub extern "C" fn deiruska_mta_header(
    alloc: Global,
    mta: &mut Handle,
    name: &[u8],
    value: &[u8],
    outcome: &mut u32,
) -> i32
    ensures call { result ≢ WRONG_KIND → IsCall (HeaderCalled (record { name = name.now; value = value.now }))
        mta.old mta.new (call_result result outcome.new) }
    ensures kept { result ≢ OK → IsKept mta.old mta.new }
    ensures unwritten { result ≢ OK → outcome.new ≡ outcome.old }
    ensures wrong_kind { (result ≡ WRONG_KIND) ↔ (mta_of mta.old ≡ None) }
{
    let_object!(end: Mta = mta);
    call_status(end.header(alloc, HeaderRef { name, value }), outcome)
}

/// The header has ended.
#[unsafe(no_mangle)]
pub extern "C" fn deiruska_mta_eoh(alloc: Global, mta: &mut Handle, outcome: &mut u32) -> i32
    ensures call { result ≢ WRONG_KIND → IsCall (CalledAt Stage.Eoh commands.Eoh)
        mta.old mta.new (call_result result outcome.new) }
    ensures kept { result ≢ OK → IsKept mta.old mta.new }
    ensures unwritten { result ≢ OK → outcome.new ≡ outcome.old }
    ensures wrong_kind { (result ≡ WRONG_KIND) ↔ (mta_of mta.old ≡ None) }
{
    let_object!(end: Mta = mta);
    call_status(end.eoh(alloc), outcome)
}

/// A chunk of the body, of at most 65,535 bytes.
#[unsafe(no_mangle)]
pub extern "C" fn deiruska_mta_body(
    alloc: Global,
    mta: &mut Handle,
    chunk: &[u8],
    outcome: &mut u32,
) -> i32
    ensures call { result ≢ WRONG_KIND → IsCall (BodyCalled chunk.now)
        mta.old mta.new (call_result result outcome.new) }
    ensures kept { result ≢ OK → IsKept mta.old mta.new }
    ensures unwritten { result ≢ OK → outcome.new ≡ outcome.old }
    ensures wrong_kind { (result ≡ WRONG_KIND) ↔ (mta_of mta.old ≡ None) }
{
    let_object!(end: Mta = mta);
    call_status(end.body(alloc, chunk), outcome)
}

/// The message has ended.
#[unsafe(no_mangle)]
pub extern "C" fn deiruska_mta_end(alloc: Global, mta: &mut Handle, outcome: &mut u32) -> i32
    ensures call { result ≢ WRONG_KIND → IsCall (CalledAt Stage.Eob (commands.Eob []))
        mta.old mta.new (call_result result outcome.new) }
    ensures kept { result ≢ OK → IsKept mta.old mta.new }
    ensures unwritten { result ≢ OK → outcome.new ≡ outcome.old }
    ensures wrong_kind { (result ≡ WRONG_KIND) ↔ (mta_of mta.old ≡ None) }
{
    let_object!(end: Mta = mta);
    call_status(end.end(alloc), outcome)
}

/// A command of the client that the mail server doesn't know.
#[unsafe(no_mangle)]
pub extern "C" fn deiruska_mta_unknown(
    alloc: Global,
    mta: &mut Handle,
    command: &[u8],
    outcome: &mut u32,
) -> i32
    ensures call { result ≢ WRONG_KIND → IsCall (UnknownCalled command.now)
        mta.old mta.new (call_result result outcome.new) }
    ensures kept { result ≢ OK → IsKept mta.old mta.new }
    ensures unwritten { result ≢ OK → outcome.new ≡ outcome.old }
    ensures wrong_kind { (result ≡ WRONG_KIND) ↔ (mta_of mta.old ≡ None) }
{
    let_object!(end: Mta = mta);
    call_status(end.unknown(alloc, command), outcome)
}

/// The message is given up, and the connection goes on.
#[unsafe(no_mangle)]
pub extern "C" fn deiruska_mta_abort(alloc: Global, mta: &mut Handle, outcome: &mut u32) -> i32
    ensures call { result ≢ WRONG_KIND → IsCall AbortCalled
        mta.old mta.new (call_result result outcome.new) }
    ensures kept { result ≢ OK → IsKept mta.old mta.new }
    ensures unwritten { result ≢ OK → outcome.new ≡ outcome.old }
    ensures wrong_kind { (result ≡ WRONG_KIND) ↔ (mta_of mta.old ≡ None) }
{
    let_object!(end: Mta = mta);
    call_status(end.abort(alloc), outcome)
}

/// The client has ended the connection.
#[unsafe(no_mangle)]
pub extern "C" fn deiruska_mta_quit(alloc: Global, mta: &mut Handle, outcome: &mut u32) -> i32
    ensures call { result ≢ WRONG_KIND → IsCall QuitCalled
        mta.old mta.new (call_result result outcome.new) }
    ensures kept { result ≢ OK → IsKept mta.old mta.new }
    ensures unwritten { result ≢ OK → outcome.new ≡ outcome.old }
    ensures wrong_kind { (result ≡ WRONG_KIND) ↔ (mta_of mta.old ≡ None) }
{
    let_object!(end: Mta = mta);
    call_status(end.quit(alloc), outcome)
}
