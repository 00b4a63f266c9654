//! The lines of reports, as a text writer is given them.

ghost use Rattle.std.specs.Option.{option_copied};
ghost use Rattle.std.specs.Prelude.{[]};
ghost use Rattle.std.specs.List.{flat_map};
ghost use Rattle.milter_mail.specs.HeldText.{line_of};
ghost use Rattle.milter_text.specs.TextWriter.{Puts};
ghost use Rattle.milter_mta_client.specs.ReportsText.{acted_line, by_words, connection_line, message_line, numbered, outcome_line, report_lines, verdict_line};

use itoa::Buffer;
use milter_mail::put_line;
use milter_mta_outcome::{Acted, By, Loss, Outcome, Report};
use milter_text::{TextFault, TextWriter};
use milter_wire::Verdict;
use std::io::Write;

/// Puts the line of the verdict on the connection, where there is one.
pub(crate) fn put_connection<W: Write>(
    output: &mut TextWriter<'_, W>,
    connection: Option<&Verdict>,
) -> Result<(), TextFault>
    ensures { Puts W.contents (connection_line (option_copied connection.entry)) output.old output.new result }
{
    let Some(verdict) = connection else {
        return Ok(());
    };
    output.put(b"connection ")?;
    put_verdict(output, verdict)
}

/// Puts the line of a message with this number, and one for each verdict that was acted on.
pub(crate) fn put_report<W: Write>(
    output: &mut TextWriter<'_, W>,
    number: usize,
    report: &Report,
) -> Result<(), TextFault>
    ensures { Puts W.contents (report_lines number report.now) output.old output.new result }
{
    put_message_line(output, number, report)?;
    put_acted_lines(output, report.acted.as_slice())
}

/// Puts the line of a message with this number: what settled it, and what became of it.
fn put_message_line<W: Write>(
    output: &mut TextWriter<'_, W>,
    number: usize,
    report: &Report,
) -> Result<(), TextFault>
    ensures { Puts W.contents (message_line number report.now) output.old output.new result }
{
    put_numbered(output, b"message", number)?;
    put_by(output, report.settled_by)?;
    put_outcome(output, &report.outcome)
}

/// Puts a line for each verdict.
fn put_acted_lines<W: Write>(
    output: &mut TextWriter<'_, W>,
    verdicts: &[Acted],
) -> Result<(), TextFault>
    ensures { Puts W.contents (flat_map acted_line verdicts.now) output.old output.new result }
{
    for acted in verdicts {
        put_acted(output, acted)?;
    }
    Ok(())
}

/// Puts the line of a verdict that was acted on.
fn put_acted<W: Write>(output: &mut TextWriter<'_, W>, acted: &Acted) -> Result<(), TextFault>
    ensures { Puts W.contents (acted_line acted.now) output.old output.new result }
{
    output.put(b"acted ")?;
    put_numbered(output, acted.stage.name(), acted.nth)?;
    put_verdict(output, &acted.verdict)
}

/// Puts a word and a number in decimal, and a blank after each.
fn put_numbered<W: Write>(
    output: &mut TextWriter<'_, W>,
    word: &[u8],
    number: usize,
) -> Result<(), TextFault>
    ensures { Puts W.contents (numbered word.now number) output.old output.new result }
{
    output.put(word)?;
    output.put(b" ")?;
    let mut digits = Buffer::new();
    output.put(digits.format(number).as_bytes())?;
    output.put(b" ")
}

/// Puts what settled a message, and a blank after each word.
fn put_by<W: Write>(output: &mut TextWriter<'_, W>, settled_by: By) -> Result<(), TextFault>
    ensures { Puts W.contents (by_words settled_by) output.old output.new result }
{
    match settled_by {
        By::Filter => output.put(b"filter "),
        By::Connection => output.put(b"connection "),
        By::Default(Loss::Reset) => output.put(b"default reset "),
        By::Default(Loss::Timeout) => output.put(b"default timeout "),
        By::Default(Loss::Memory) => output.put(b"default memory "),
        By::Default(Loss::Fault(fault)) => {
            put_numbered(output, b"default fault", usize::from(fault.number()))
        }
    }
}

/// Puts the end of a line: what became of a message, and the reply to a client whose message is refused.
fn put_outcome<W: Write>(output: &mut TextWriter<'_, W>, outcome: &Outcome) -> Result<(), TextFault>
    ensures { Puts W.contents (outcome_line outcome.now) output.old output.new result }
{
    match outcome {
        Outcome::Released(_) => put_last_word(output, b"released"),
        Outcome::Discarded => put_last_word(output, b"discarded"),
        Outcome::Refused(refusal) => put_line(output, b"refused", refusal.text(), &[]),
        Outcome::NoRecipients => put_last_word(output, b"no-recipients"),
        Outcome::RefusedAtConnection => put_last_word(output, b"refused-at-connection"),
    }
}

/// Puts the end of a line: a verdict, and the text of a code.
fn put_verdict<W: Write>(output: &mut TextWriter<'_, W>, verdict: &Verdict) -> Result<(), TextFault>
    ensures { Puts W.contents (verdict_line verdict.now) output.old output.new result }
{
    match verdict {
        Verdict::Code(text) => put_line(output, b"code", text.as_slice(), &[]),
        _ => put_last_word(output, verdict.name()),
    }
}

/// Puts a word, and ends the line.
fn put_last_word<W: Write>(output: &mut TextWriter<'_, W>, word: &[u8]) -> Result<(), TextFault>
    ensures { Puts W.contents (line_of word.now []) output.old output.new result }
{
    output.put(word)?;
    output.put(b"\n")
}
