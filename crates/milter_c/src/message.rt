//! Messages, and what a filter's edits make of them.

ghost use Rattle.std.specs.Prelude.{◌≡◌, ◌≢◌, ◌↔◌, IsSomeAnd, MatchOption, None, Some, length};
ghost use Rattle.milter_wire.specs.declared.command.Command.TheVariants as commands;
ghost use Rattle.milter_wire.specs.Command.{Fits};
ghost use Rattle.milter_message.specs.LeadingSpace.{FieldFits};
ghost use Rattle.milter_c_objects.specs.Objects.{IsKept, message_of, mta_of};
ghost use Rattle.milter_c_objects.specs.Messages.{bare_path, header_name_at, header_value_at, message_from, recipient_at, with_body, with_header, with_recipient};
ghost use Rattle.milter_c.specs.Messages.{edited_by, part_status_of};
ghost use Rattle.milter_c.specs.Statuses.{kind_status};
ghost use Rattle.milter_c.specs.Views.{IsBorrowed};

use crate::view::{View, borrow, let_object};
use milter_c_objects::status::{MESSAGE_DOES_NOT_FIT, NO_MEMORY, NOTHING, OK, WRONG_KIND};
use milter_c_objects::{
    Handle, Object, PartFault, add_body, edit_message, memory_status,
    message_add_header as add_header, message_add_recipient as add_recipient,
    message_header_name as header_name, message_header_value as header_value,
    message_quarantine as quarantine, new_message, recipient, sender,
};
use std::alloc::Global;

/// Puts a message of this sender into the handle, with nothing else.
#[unsafe(no_mangle)]
pub extern "C" fn deiruska_message_new(alloc: Global, message: &mut Handle, address: &[u8]) -> i32
    ensures done { result ≡ OK → message_of message.new ≡ Some (message_from address.now) }
    ensures fits { result ≡ MESSAGE_DOES_NOT_FIT → ¬ Fits (commands.Mail (bare_path address.now)) }
    ensures kept { result ≢ OK → IsKept message.old message.new }
    ensures answers { result ≢ OK → result ≢ MESSAGE_DOES_NOT_FIT → result ≡ NO_MEMORY }
{
    match new_message(alloc, address) {
        Ok(held) => memory_status(message.put(alloc, Object::Message(held))),
        Err(fault) => part_status(Err(fault)),
    }
}

/// Adds a recipient after the others.
#[unsafe(no_mangle)]
pub extern "C" fn deiruska_message_add_recipient(
    alloc: Global,
    message: &mut Handle,
    address: &[u8],
) -> i32
    ensures done { result ≡ OK → IsSomeAnd (message_of message.old) (λ old.
        message_of message.new ≡ Some (with_recipient address.now old)) }
    ensures fits { result ≡ MESSAGE_DOES_NOT_FIT → ¬ Fits (commands.Rcpt (bare_path address.now)) }
    ensures kept { result ≢ OK → IsKept message.old message.new }
    ensures wrong_kind { (result ≡ WRONG_KIND) ↔ (message_of message.old ≡ None) }
{
    let_object!(held: Message = message);
    part_status(add_recipient(alloc, held, address))
}

/// Adds a header field after the others.
#[unsafe(no_mangle)]
pub extern "C" fn deiruska_message_add_header(
    alloc: Global,
    message: &mut Handle,
    name: &[u8],
    value: &[u8],
) -> i32
    ensures done { result ≡ OK → IsSomeAnd (message_of message.old) (λ old.
        message_of message.new ≡ Some (with_header (record { name = name.now; value = value.now }) old)) }
    ensures fits { result ≡ MESSAGE_DOES_NOT_FIT → ¬ FieldFits (record { name = name.now; value = value.now }) }
    ensures kept { result ≢ OK → IsKept message.old message.new }
    ensures wrong_kind { (result ≡ WRONG_KIND) ↔ (message_of message.old ≡ None) }
{
    let_object!(held: Message = message);
    part_status(add_header(alloc, held, name, value))
}

/// Adds bytes to the body.
#[unsafe(no_mangle)]
pub extern "C" fn deiruska_message_add_body(
    alloc: Global,
    message: &mut Handle,
    bytes: &[u8],
) -> i32
    ensures done { result ≡ OK → IsSomeAnd (message_of message.old) (λ old.
        message_of message.new ≡ Some (with_body bytes.now old)) }
    ensures kept { result ≢ OK → IsKept message.old message.new }
    ensures wrong_kind { (result ≡ WRONG_KIND) ↔ (message_of message.old ≡ None) }
    ensures answers { result ≢ OK → result ≢ WRONG_KIND → result ≡ NO_MEMORY }
{
    let_object!(held: Message = message);
    memory_status(add_body(alloc, held, bytes))
}

/// Makes the edits of the filter's answer to the end of the message.
#[unsafe(no_mangle)]
pub extern "C" fn deiruska_message_edit(message: &mut Handle, mta: &mut Handle) -> i32
    ensures done { result ≡ OK → IsSomeAnd (message_of message.old) (λ old. IsSomeAnd (mta_of mta.old) (λ end.
        message_of message.new ≡ Some (edited_by end.connection old))) }
    ensures kept { result ≢ OK → IsKept message.old message.new }
    ensures kept_mta { IsKept mta.old mta.new }
    ensures answers { result ≢ OK → result ≢ WRONG_KIND → result ≡ NO_MEMORY }
{
    let_object!(held: Message = message);
    let_object!(end: Mta = mta);
    memory_status(edit_message(held, &end.connection))
}

/// The address of the sender. Doesn't allocate.
#[unsafe(no_mangle)]
pub extern "C" fn deiruska_message_sender<'a>(message: &'a mut Handle, out: &mut View<'a>) -> i32
    ensures sender { MatchOption (message_of message.old) (result ≡ WRONG_KIND) (λ old.
        (result ≡ OK) × (out.new.bytes.now ≡ old.message.sender.address)) }
    ensures unwritten { result ≢ OK → out.new ≡ out.old }
{
    let_object!(held: Message = message);
    out.bytes = sender(held);
    OK
}

/// How many recipients there are. Doesn't allocate.
#[unsafe(no_mangle)]
pub extern "C" fn deiruska_message_recipients(message: &mut Handle, count: &mut usize) -> i32
    ensures count { result ≡ OK → IsSomeAnd (message_of message.old) (λ old.
        count.new ≡ length old.message.recipients) }
    ensures kept { IsKept message.old message.new }
    ensures unwritten { result ≢ OK → count.new ≡ count.old }
    ensures status { result ≡ kind_status (message_of message.old) }
{
    let_object!(held: Message = message);
    *count = held.message.recipients().len();
    OK
}

/// The address of the recipient at a place, from 0. Doesn't allocate.
#[unsafe(no_mangle)]
pub extern "C" fn deiruska_message_recipient<'a>(
    message: &'a mut Handle,
    place: usize,
    out: &mut View<'a>,
) -> i32
    ensures recipient { MatchOption (message_of message.old) (result ≡ WRONG_KIND) (λ old.
        IsBorrowed (recipient_at old place) result out.old out.new) }
    ensures unwritten { result ≢ OK → out.new ≡ out.old }
{
    let_object!(held: Message = message);
    borrow(recipient(held, place), out)
}

/// How many header fields there are. Doesn't allocate.
#[unsafe(no_mangle)]
pub extern "C" fn deiruska_message_headers(message: &mut Handle, count: &mut usize) -> i32
    ensures count { result ≡ OK → IsSomeAnd (message_of message.old) (λ old.
        count.new ≡ length old.message.headers) }
    ensures kept { IsKept message.old message.new }
    ensures unwritten { result ≢ OK → count.new ≡ count.old }
    ensures status { result ≡ kind_status (message_of message.old) }
{
    let_object!(held: Message = message);
    *count = held.message.headers().len();
    OK
}

/// The name of the header field at a place, from 0. Doesn't allocate.
#[unsafe(no_mangle)]
pub extern "C" fn deiruska_message_header_name<'a>(
    message: &'a mut Handle,
    place: usize,
    out: &mut View<'a>,
) -> i32
    ensures name { MatchOption (message_of message.old) (result ≡ WRONG_KIND) (λ old.
        IsBorrowed (header_name_at old place) result out.old out.new) }
    ensures unwritten { result ≢ OK → out.new ≡ out.old }
{
    let_object!(held: Message = message);
    borrow(header_name(held, place), out)
}

/// The value of the header field at a place, from 0. Doesn't allocate.
#[unsafe(no_mangle)]
pub extern "C" fn deiruska_message_header_value<'a>(
    message: &'a mut Handle,
    place: usize,
    out: &mut View<'a>,
) -> i32
    ensures value { MatchOption (message_of message.old) (result ≡ WRONG_KIND) (λ old.
        IsBorrowed (header_value_at old place) result out.old out.new) }
    ensures unwritten { result ≢ OK → out.new ≡ out.old }
{
    let_object!(held: Message = message);
    borrow(header_value(held, place), out)
}

/// The bytes of the body. Doesn't allocate.
#[unsafe(no_mangle)]
pub extern "C" fn deiruska_message_body<'a>(message: &'a mut Handle, out: &mut View<'a>) -> i32
    ensures body { MatchOption (message_of message.old) (result ≡ WRONG_KIND) (λ old.
        (result ≡ OK) × (out.new.bytes.now ≡ old.message.body)) }
    ensures unwritten { result ≢ OK → out.new ≡ out.old }
{
    let_object!(held: Message = message);
    out.bytes = held.message.body();
    OK
}

/// The reason for which the message goes into quarantine. Doesn't allocate.
#[unsafe(no_mangle)]
pub extern "C" fn deiruska_message_quarantine<'a>(
    message: &'a mut Handle,
    out: &mut View<'a>,
) -> i32
    ensures reason { MatchOption (message_of message.old) (result ≡ WRONG_KIND) (λ old.
        IsBorrowed old.quarantine result out.old out.new) }
    ensures unwritten { result ≢ OK → out.new ≡ out.old }
{
    let_object!(held: Message = message);
    borrow(quarantine(held), out)
}

/// What is answered where a part was added, or why it wasn't.
fn part_status(added: Result<(), PartFault>) -> i32
    ensures { result ≡ part_status_of added }
{
    match added {
        Ok(()) => OK,
        Err(PartFault::DoesNotFit) => MESSAGE_DOES_NOT_FIT,
        Err(PartFault::NoMemory) => NO_MEMORY,
    }
}
