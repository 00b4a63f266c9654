//! Answers, which are built call by call.

ghost use Rattle.std.specs.Prelude.{◌≡◌, ◌≢◌, ◌↔◌, IsSomeAnd, MatchOption, None, Some};
ghost use Rattle.milter_message.specs.declared.edit.Edit.TheVariants as edits;
ghost use Rattle.milter_wire.specs.declared.verdict.Verdict.TheVariants as verdicts;
ghost use Rattle.milter_c_objects.specs.Edits.{parameters_of, with_verdict};
ghost use Rattle.milter_c_objects.specs.Numbers.{verdict_numbered};
ghost use Rattle.milter_c_objects.specs.Objects.{IsKept, answer_of};
ghost use Rattle.milter_c.specs.Answers.{IsEdited, plain_answer};

use crate::view::let_object;
use milter_c_objects::status::{BAD_ARGUMENT, NO_MEMORY, OK, WRONG_KIND};
use milter_c_objects::{
    Handle, Object, add_header, add_recipient, change_header, change_sender, delete_recipient,
    insert_header, memory_status, quarantine, replace_body, set_code, verdict_numbered,
};
use milter_protocol::Answer;
use milter_wire::Verdict;
use std::alloc::Global;

/// Puts an answer into the handle: Continue, without edits.
#[unsafe(no_mangle)]
pub extern "C" fn deiruska_answer_new(alloc: Global, answer: &mut Handle) -> i32
    ensures done { result ≡ OK → answer_of answer.new ≡ Some plain_answer }
    ensures kept { result ≢ OK → IsKept answer.old answer.new }
    ensures answers { result ≢ OK → result ≡ NO_MEMORY }
{
    let empty = Answer::of_verdict(alloc, Verdict::Continue);
    memory_status(answer.put(alloc, Object::Answer(empty)))
}

/// Sets the verdict, by its number. Doesn't allocate.
#[unsafe(no_mangle)]
pub extern "C" fn deiruska_answer_verdict(answer: &mut Handle, verdict: u32) -> i32
    ensures verdict { MatchOption (answer_of answer.old) (result ≡ WRONG_KIND) (λ old.
        MatchOption (verdict_numbered verdict) (result ≡ BAD_ARGUMENT) (λ given.
        (result ≡ OK) × (answer_of answer.new ≡ Some (with_verdict old given)))) }
    ensures kept { result ≢ OK → IsKept answer.old answer.new }
{
    let_object!(built: Answer = answer);
    let Some(verdict) = verdict_numbered(verdict) else {
        return BAD_ARGUMENT;
    };
    built.verdict = verdict;
    OK
}

/// Sets the verdict to a refusal with this text.
#[unsafe(no_mangle)]
pub extern "C" fn deiruska_answer_code(alloc: Global, answer: &mut Handle, text: &[u8]) -> i32
    ensures done { result ≡ OK → IsSomeAnd (answer_of answer.old) (λ old.
        answer_of answer.new ≡ Some (with_verdict old (verdicts.Code text.now))) }
    ensures kept { result ≢ OK → IsKept answer.old answer.new }
    ensures wrong_kind { (result ≡ WRONG_KIND) ↔ (answer_of answer.old ≡ None) }
    ensures answers { result ≢ OK → result ≢ WRONG_KIND → result ≡ NO_MEMORY }
{
    let_object!(built: Answer = answer);
    memory_status(set_code(alloc, built, text))
}

/// Asks for a header field more, after all others.
#[unsafe(no_mangle)]
pub extern "C" fn deiruska_answer_add_header(
    alloc: Global,
    answer: &mut Handle,
    name: &[u8],
    value: &[u8],
) -> i32
    ensures done { result ≡ OK → IsEdited answer.old answer.new
        (edits.AddHeader (record { name = name.now; value = value.now })) }
    ensures kept { result ≢ OK → IsKept answer.old answer.new }
    ensures wrong_kind { (result ≡ WRONG_KIND) ↔ (answer_of answer.old ≡ None) }
    ensures answers { result ≢ OK → result ≢ WRONG_KIND → result ≡ NO_MEMORY }
{
    let_object!(built: Answer = answer);
    memory_status(add_header(alloc, built, name, value))
}

/// Asks for a header field more, with so many before it.
#[unsafe(no_mangle)]
pub extern "C" fn deiruska_answer_insert_header(
    alloc: Global,
    answer: &mut Handle,
    index: u32,
    name: &[u8],
    value: &[u8],
) -> i32
    ensures done { result ≡ OK → IsEdited answer.old answer.new
        (edits.InsertHeader index (record { name = name.now; value = value.now })) }
    ensures kept { result ≢ OK → IsKept answer.old answer.new }
    ensures wrong_kind { (result ≡ WRONG_KIND) ↔ (answer_of answer.old ≡ None) }
    ensures answers { result ≢ OK → result ≢ WRONG_KIND → result ≡ NO_MEMORY }
{
    let_object!(built: Answer = answer);
    memory_status(insert_header(alloc, built, index, name, value))
}

/// Asks for another value of a header field, or for none of it.
#[unsafe(no_mangle)]
pub extern "C" fn deiruska_answer_change_header(
    alloc: Global,
    answer: &mut Handle,
    index: u32,
    name: &[u8],
    value: &[u8],
) -> i32
    ensures done { result ≡ OK → IsEdited answer.old answer.new
        (edits.ChangeHeader index (record { name = name.now; value = value.now })) }
    ensures kept { result ≢ OK → IsKept answer.old answer.new }
    ensures wrong_kind { (result ≡ WRONG_KIND) ↔ (answer_of answer.old ≡ None) }
    ensures answers { result ≢ OK → result ≢ WRONG_KIND → result ≡ NO_MEMORY }
{
    let_object!(built: Answer = answer);
    memory_status(change_header(alloc, built, index, name, value))
}

/// Asks for another sender, with these ESMTP parameters where there are any.
#[unsafe(no_mangle)]
pub extern "C" fn deiruska_answer_change_sender(
    alloc: Global,
    answer: &mut Handle,
    address: &[u8],
    parameters: &[u8],
) -> i32
    ensures done { result ≡ OK → IsEdited answer.old answer.new
        (edits.ChangeFrom address.now (parameters_of parameters.now)) }
    ensures kept { result ≢ OK → IsKept answer.old answer.new }
    ensures wrong_kind { (result ≡ WRONG_KIND) ↔ (answer_of answer.old ≡ None) }
    ensures answers { result ≢ OK → result ≢ WRONG_KIND → result ≡ NO_MEMORY }
{
    let_object!(built: Answer = answer);
    memory_status(change_sender(alloc, built, address, parameters))
}

/// Asks for a recipient more.
#[unsafe(no_mangle)]
pub extern "C" fn deiruska_answer_add_recipient(
    alloc: Global,
    answer: &mut Handle,
    address: &[u8],
) -> i32
    ensures done { result ≡ OK → IsEdited answer.old answer.new (edits.AddRcpt address.now) }
    ensures kept { result ≢ OK → IsKept answer.old answer.new }
    ensures wrong_kind { (result ≡ WRONG_KIND) ↔ (answer_of answer.old ≡ None) }
    ensures answers { result ≢ OK → result ≢ WRONG_KIND → result ≡ NO_MEMORY }
{
    let_object!(built: Answer = answer);
    memory_status(add_recipient(alloc, built, address))
}

/// Asks for no recipient with this address.
#[unsafe(no_mangle)]
pub extern "C" fn deiruska_answer_delete_recipient(
    alloc: Global,
    answer: &mut Handle,
    address: &[u8],
) -> i32
    ensures done { result ≡ OK → IsEdited answer.old answer.new (edits.DelRcpt address.now) }
    ensures kept { result ≢ OK → IsKept answer.old answer.new }
    ensures wrong_kind { (result ≡ WRONG_KIND) ↔ (answer_of answer.old ≡ None) }
    ensures answers { result ≢ OK → result ≢ WRONG_KIND → result ≡ NO_MEMORY }
{
    let_object!(built: Answer = answer);
    memory_status(delete_recipient(alloc, built, address))
}

/// Asks for a chunk of another body: the first one replaces the body, each later one is appended.
#[unsafe(no_mangle)]
pub extern "C" fn deiruska_answer_replace_body(
    alloc: Global,
    answer: &mut Handle,
    chunk: &[u8],
) -> i32
    ensures done { result ≡ OK → IsEdited answer.old answer.new (edits.ReplaceBody chunk.now) }
    ensures kept { result ≢ OK → IsKept answer.old answer.new }
    ensures wrong_kind { (result ≡ WRONG_KIND) ↔ (answer_of answer.old ≡ None) }
    ensures answers { result ≢ OK → result ≢ WRONG_KIND → result ≡ NO_MEMORY }
{
    let_object!(built: Answer = answer);
    memory_status(replace_body(alloc, built, chunk))
}

/// Asks for the message to go into quarantine, for this reason.
#[unsafe(no_mangle)]
pub extern "C" fn deiruska_answer_quarantine(
    alloc: Global,
    answer: &mut Handle,
    reason: &[u8],
) -> i32
    ensures done { result ≡ OK → IsEdited answer.old answer.new (edits.Quarantine reason.now) }
    ensures kept { result ≢ OK → IsKept answer.old answer.new }
    ensures wrong_kind { (result ≡ WRONG_KIND) ↔ (answer_of answer.old ≡ None) }
    ensures answers { result ≢ OK → result ≢ WRONG_KIND → result ≡ NO_MEMORY }
{
    let_object!(built: Answer = answer);
    memory_status(quarantine(alloc, built, reason))
}
