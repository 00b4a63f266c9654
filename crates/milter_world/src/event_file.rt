//! Event files.

ghost use Rattle.std.specs.Prelude.{◌≡◌, ◌≤◌, ◌<◌, ◌^◌, All, IfErr, IfOk, List, MatchResult, OnOk, length};
ghost use Rattle.milter_world.specs.declared.event_line.Event.{Event};
ghost use Rattle.milter_text.specs.Lines.{contents, lines_of};
ghost use Rattle.milter_world.specs.declared.event_fault.EventFault.TheVariants as EventFault;
ghost use Rattle.milter_world.specs.EventFault.{IsAt, IsBefore, IsFaultOf, IsWithin};
ghost use Rattle.milter_world.specs.EventFile.{HaveEvents, IsEventFile, bytes_moved};
ghost use Rattle.milter_world.specs.EventLines.{AddsEvents, IsWrongAfter};

use crate::event_fault::EventFault;
use crate::event_line::{Event, line_in};
use milter_text::{FileLine, LineCursor};
use std::alloc::Global;

/// The most events of a file.
pub const EVENTS_MAX: usize = 10_000_000;

/// The events of a file, in order.
///
/// Its lines are words, all of them plain: `dial`, `send N`, `to-filter N`, `answer N`, `to-mta N`, `die`, `lose` and
/// `timeout`, each of which is an event; `round N` for the four events `send N`, `to-filter N`, `answer N` and
/// `to-mta N`, in this order; and `rounds COUNT N` for so many rounds. N, a number of bytes, and COUNT are numbers of
/// one to ten decimal digits, of at most 4,294,967,295. There are at most [`EVENTS_MAX`] events in all.
///
/// The fault is at the first line that isn't of this form, or with which there are too many events: out of memory
/// aside, there is one exactly where the file is no event file. Its line is one of the file. Memory is allocated for
/// the events, for those of many rounds at once, and for the words of one line at a time; a line with too many events
/// takes none for them.
pub fn read_events(alloc: Global, bytes: &[u8]) -> Result<Vec<Event>, EventFault>
    // What is read are the events of the file,
    ensures found { IfOk result (λ events. IsEventFile bytes.now events.items) }
    // none of which moves more than 4,294,967,295 bytes.
    ensures small { IfOk result (λ events. All (λ event. bytes_moved event < 2 ^ 32) events.items) }
    // The events of the file are read, unless memory is refused.
    ensures only { (events : List Event) → IsEventFile bytes.now events →
        MatchResult result (λ found. found.items ≡ events) (λ e. e ≡ EventFault.NoMemory) }
    // The fault is the first of the file: a line has no events, or too many. Its line is one of the file.
    ensures fault { IfErr result (IsFaultOf (contents bytes.now)) }
    ensures line { IfErr result (IsWithin (length (lines_of bytes.now))) }
{
    let mut lines = LineCursor::new(bytes);
    read_lines(alloc, &mut lines)
}

/// The events of the lines.
fn read_lines(alloc: Global, lines: &mut LineCursor<'_>) -> Result<Vec<Event>, EventFault>
    ensures found { IfOk result (λ events. HaveEvents lines.old.lines events.items) }
    ensures fault { IfErr result (IsFaultOf lines.old.lines) }
    ensures within { IfErr result (IsBefore lines.old.end) }
{
    let mut events = Vec::new(alloc);
    while let Some(line) = lines.next(alloc)? {
        add_line(&mut events, &line)?;
    }
    Ok(events)
}

/// Adds the events of a line.
fn add_line(events: &mut Vec<Event>, line: &FileLine) -> Result<(), EventFault>
    requires { length events.old.items ≤ EVENTS_MAX }
    ensures done { OnOk result (AddsEvents line.now.words.items events.old.items events.new.items) }
    ensures fault { IfErr result (IsWrongAfter (length events.old.items) line.now.words.items) }
    ensures at { IfErr result (IsAt line.now.number) }
{
    let Some(added) = line_in(line.words.as_slice()) else {
        return Err(EventFault::UnknownLine(line.number));
    };
    if added.event_count() > EVENTS_MAX - events.len() {
        return Err(EventFault::TooMany(line.number));
    }
    added.append_to(events)
}
