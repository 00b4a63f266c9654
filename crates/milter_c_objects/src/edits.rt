//! The edits of an answer, and its verdict with a text. After `NoMemory` the answer is as it was.

ghost use Rattle.std.specs.Prelude.{◌≡◌, IfOk, OnErr, OnOk, Ok};
ghost use Rattle.milter_message.specs.declared.edit.Edit.TheVariants as edits;
ghost use Rattle.milter_wire.specs.declared.verdict.Verdict.TheVariants as verdicts;
ghost use Rattle.milter_c_objects.specs.Edits.{AddsEdit, parameters_of, with_verdict};

use milter_fields::NoMemory;
use milter_message::Edit;
use milter_protocol::Answer;
use milter_wire::{Header, Text, Verdict};
use std::alloc::Global;

/// Sets the verdict to a refusal with this text.
pub fn set_code(alloc: Global, answer: &mut Answer, text: &[u8]) -> Result<(), NoMemory>
    ensures ok { OnOk result (answer.new ≡ with_verdict answer.old (verdicts.Code text.now)) }
    ensures err { OnErr result (answer.new ≡ answer.old) }
{
    answer.verdict = Verdict::Code(Text::copy_of(alloc, text)?);
    Ok(())
}

/// A header field more, after all others.
pub fn add_header(
    alloc: Global,
    answer: &mut Answer,
    name: &[u8],
    value: &[u8],
) -> Result<(), NoMemory>
    ensures { AddsEdit answer.old (edits.AddHeader (record { name = name.now; value = value.now })) answer.new result }
{
    let header = header_of(alloc, name, value)?;
    add(answer, Edit::AddHeader(header))
}

/// A header field more, at an index.
pub fn insert_header(
    alloc: Global,
    answer: &mut Answer,
    index: u32,
    name: &[u8],
    value: &[u8],
) -> Result<(), NoMemory>
    ensures { AddsEdit answer.old (edits.InsertHeader index (record { name = name.now; value = value.now }))
        answer.new result }
{
    let header = header_of(alloc, name, value)?;
    add(answer, Edit::InsertHeader { index, header })
}

/// Another value for a header field, or none of it.
pub fn change_header(
    alloc: Global,
    answer: &mut Answer,
    index: u32,
    name: &[u8],
    value: &[u8],
) -> Result<(), NoMemory>
    ensures { AddsEdit answer.old (edits.ChangeHeader index (record { name = name.now; value = value.now }))
        answer.new result }
{
    let header = header_of(alloc, name, value)?;
    add(answer, Edit::ChangeHeader { index, header })
}

/// Another sender, with these ESMTP parameters where there are any.
pub fn change_sender(
    alloc: Global,
    answer: &mut Answer,
    address: &[u8],
    parameters: &[u8],
) -> Result<(), NoMemory>
    ensures { AddsEdit answer.old (edits.ChangeFrom address.now (parameters_of parameters.now)) answer.new result }
{
    let address = Text::copy_of(alloc, address)?;
    let arguments = optional_text(alloc, parameters)?;
    add(answer, Edit::ChangeFrom { address, arguments })
}

/// A recipient more.
pub fn add_recipient(alloc: Global, answer: &mut Answer, address: &[u8]) -> Result<(), NoMemory>
    ensures { AddsEdit answer.old (edits.AddRcpt address.now) answer.new result }
{
    let address = Text::copy_of(alloc, address)?;
    add(answer, Edit::AddRcpt(address))
}

/// No recipient with this address.
pub fn delete_recipient(alloc: Global, answer: &mut Answer, address: &[u8]) -> Result<(), NoMemory>
    ensures { AddsEdit answer.old (edits.DelRcpt address.now) answer.new result }
{
    let address = Text::copy_of(alloc, address)?;
    add(answer, Edit::DelRcpt(address))
}

/// A chunk of another body.
pub fn replace_body(alloc: Global, answer: &mut Answer, chunk: &[u8]) -> Result<(), NoMemory>
    ensures { AddsEdit answer.old (edits.ReplaceBody chunk.now) answer.new result }
{
    let chunk = Text::copy_of(alloc, chunk)?;
    add(answer, Edit::ReplaceBody(chunk))
}

/// The message goes into quarantine, for this reason.
pub fn quarantine(alloc: Global, answer: &mut Answer, reason: &[u8]) -> Result<(), NoMemory>
    ensures { AddsEdit answer.old (edits.Quarantine reason.now) answer.new result }
{
    let reason = Text::copy_of(alloc, reason)?;
    add(answer, Edit::Quarantine(reason))
}

/// One edit more, after those before.
fn add(answer: &mut Answer, edit: Edit) -> Result<(), NoMemory>
    ensures { AddsEdit answer.old edit answer.new result }
{
    answer.edits.push(edit)?;
    Ok(())
}

/// The header field of copies of these texts.
fn header_of(alloc: Global, name: &[u8], value: &[u8]) -> Result<Header, NoMemory>
    ensures { IfOk result (λ header. header ≡ record { name = name.now; value = value.now }) }
{
    Ok(Header {
        name: Text::copy_of(alloc, name)?,
        value: Text::copy_of(alloc, value)?,
    })
}

/// A copy of a text, or none where it has no bytes.
fn optional_text(alloc: Global, bytes: &[u8]) -> Result<Option<Text>, NoMemory>
    ensures { IfOk result (λ text. text ≡ parameters_of bytes.now) }
{
    if bytes.is_empty() {
        return Ok(None);
    }
    Ok(Some(Text::copy_of(alloc, bytes)?))
}
