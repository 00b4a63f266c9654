//! What is said of the action of a rule.

use crate::condition_findings::{is_header_name, say_header_name};
use crate::file_findings::bit_among;
use crate::reply_findings::say_reply;
use milter_filter_rules::{Action, RuleAction};
use milter_message::Edit;
use milter_rules::{Notes, Span};
use milter_wire::{Actions, Header, NoMemory, Options, Protocol, Stage, Text, Verdict};

/// Says what is to be said of the action of a rule, where a filter asks for these options.
pub(crate) fn say_action(
    notes: &mut Notes<'_>,
    options: Options,
    action: &RuleAction,
) -> Result<(), NoMemory> {
    match action {
        RuleAction::Fixed(Action::Edit(edit)) => say_edit(notes, options, edit),
        RuleAction::Fixed(Action::Verdict(verdict)) => say_verdict(notes, options, verdict),
        RuleAction::DeleteHeader(name) => {
            say_unseen(notes, options)?;
            say_name(notes, name)
        }
        RuleAction::PrefixHeader(header) => {
            say_unseen(notes, options)?;
            say_header(notes, header)
        }
    }
}

/// Says what is to be said of a verdict.
fn say_verdict(notes: &mut Notes<'_>, options: Options, verdict: &Verdict) -> Result<(), NoMemory> {
    match verdict {
        Verdict::Code(text) => say_reply(notes, text.as_slice()),
        Verdict::Skip if options.protocol.0 & Protocol::SKIP.0 == 0 => {
            let text = b"skip is answered as continue: SKIP isn't in the protocol line";
            notes.say(&[Span::Plain(text)])
        }
        _ => Ok(()),
    }
}

/// Says what is to be said of an edit.
fn say_edit(notes: &mut Notes<'_>, options: Options, edit: &Edit) -> Result<(), NoMemory> {
    say_needed(notes, options, edit.needs())?;
    match edit {
        Edit::AddHeader(header)
        | Edit::InsertHeader { header, .. }
        | Edit::ChangeHeader { header, .. } => say_header(notes, header),
        _ => Ok(()),
    }
}

/// Says of an edit that needs this action that it is never done, where the action isn't asked for.
fn say_needed(notes: &mut Notes<'_>, options: Options, needed: Actions) -> Result<(), NoMemory> {
    if options.actions.0 & needed.0 == needed.0 {
        return Ok(());
    }
    let begin = Span::Plain(b"this edit is never done: ");
    let end = Span::Plain(b" isn't in the actions line");
    notes.say(&[begin, Span::Actions(needed), end])
}

/// Says of an edit of the header fields that are seen why it is never done, where that is so.
fn say_unseen(notes: &mut Notes<'_>, options: Options) -> Result<(), NoMemory> {
    say_needed(notes, options, Actions::CHGHDRS)?;
    let Some(bit) = bit_among(options, Stage::Header.not_sent()) else {
        return Ok(());
    };
    let begin = Span::Plain(b"this edit is never done: header isn't sent, by ");
    let end = Span::Plain(b" in the protocol line");
    notes.say(&[begin, Span::Protocol(bit), end])
}

/// Says of the name of a header field that is added, changed or deleted that it is none, where that is so.
fn say_name(notes: &mut Notes<'_>, name: &Text) -> Result<(), NoMemory> {
    if is_header_name(name) {
        return Ok(());
    }
    say_header_name(notes, name)
}

/// Says what is to be said of a header field that is added or changed.
fn say_header(notes: &mut Notes<'_>, header: &Header) -> Result<(), NoMemory> {
    say_name(notes, &header.name)?;
    let begin = Span::Plain(b"the value of header field ");
    let name = Span::Quoted(header.name.as_slice());
    let value = header.value.as_slice();
    if value.contains(&b'\r') {
        let end = Span::Plain(b" has a CR; its lines end with \\n alone");
        return notes.say(&[begin, name, end]);
    }
    if has_open_line(value) {
        let end = Span::Plain(b" has a \\n without a blank or \\t after it");
        return notes.say(&[begin, name, end]);
    }
    Ok(())
}

/// Whether the value has a LF that neither a blank nor a TAB follows.
fn has_open_line(value: &[u8]) -> bool {
    let mut is_open = false;
    for byte in value {
        if is_open && *byte != b' ' && *byte != b'\t' {
            return true;
        }
        is_open = *byte == b'\n';
    }
    is_open
}
