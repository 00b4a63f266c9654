//! The lines of an event file, each alone.

ghost use Rattle.std.specs.Prelude.{◌≡◌, ◌++◌, IfErr, OnOk, length, option_map};
ghost use Rattle.milter_world.specs.Rounds.{round, rounds};
ghost use Rattle.milter_world.specs.declared.event_fault.EventFault.TheVariants as faults;
ghost use Rattle.milter_world.specs.EventFile.{count_of, events_of, events_with, lone_event, rounds_of};
ghost use Rattle.milter_world.specs.EventLines.{line_events};

use crate::event_fault::EventFault;
use milter_text::Word;

/// What happens next. A number is how many bytes are moved at most. An event that can't apply changes nothing.
#[derive(Clone, Copy, Debug, PartialEq, Eq)]
pub enum Event {
    /// A connection is made, where one is wanted.
    Dial,
    /// The mail server's end sends so many bytes.
    Send(usize),
    /// So many of the bytes that were sent reach the filter's end, while it lives.
    ToFilter(usize),
    /// The filter's end answers so many bytes, while it lives.
    Answer(usize),
    /// So many of the bytes that were answered reach the mail server's end.
    ToMta(usize),
    /// The filter dies. What it answered before still reaches the mail server's end.
    Die,
    /// The connection is lost, or can't be made.
    Lose,
    /// The filter took too long.
    Timeout,
}

/// How many events a round has.
const ROUND_LEN: usize = 4;

/// What a line of an event file has.
#[derive(Clone, Copy)]
pub(crate) enum EventLine {
    /// One event.
    One(Event),
    /// So many rounds, each of whose events moves so many bytes at most.
    Rounds { count: u32, bytes: u32 },
}

impl EventLine {
    /// How many events the line has.
    #[tactic(auto, using(crate::proofs::Rounds::rounds_length))]
    pub(crate) fn event_count(&self) -> usize
        ensures { result ≡ length (line_events self.now) }
    {
        match self {
            EventLine::One(_) => 1,
            EventLine::Rounds { count, .. } => ROUND_LEN * *count as usize,
        }
    }

    /// Appends the events of the line. After `NoMemory` some of them may have been appended.
    pub(crate) fn append_to(&self, events: &mut Vec<Event>) -> Result<(), EventFault>
        ensures done { OnOk result (events.new.items ≡ events.old.items ++ line_events self.now) }
        ensures err { IfErr result (λ e. e ≡ faults.NoMemory) }
    {
        match self {
            EventLine::One(event) => events.push(*event)?,
            EventLine::Rounds { count, bytes } => append_rounds(events, *count, *bytes)?,
        }
        Ok(())
    }
}

/// Appends so many rounds, for whose events memory is asked for at once.
#[tactic(auto, using(crate::proofs::Rounds::rounds_more))]
fn append_rounds(events: &mut Vec<Event>, count: u32, bytes: u32) -> Result<(), EventFault>
    ensures done { OnOk result (events.new.items ≡ events.old.items ++ rounds count bytes) }
    ensures err { IfErr result (λ e. e ≡ faults.NoMemory) }
{
    events.reserve(ROUND_LEN * count as usize)?;
    for _ in 0..count {
        append_round(events, bytes as usize)?;
    }
    Ok(())
}

/// Appends one round.
fn append_round(events: &mut Vec<Event>, bytes: usize) -> Result<(), EventFault>
    ensures done { OnOk result (events.new.items ≡ events.old.items ++ round bytes) }
    ensures err { IfErr result (λ e. e ≡ faults.NoMemory) }
{
    let round = [
        Event::Send(bytes),
        Event::ToFilter(bytes),
        Event::Answer(bytes),
        Event::ToMta(bytes),
    ];
    events.extend_from_slice(&round)?;
    Ok(())
}

/// What the words of a line have; none where they are not of an event, of a round or of rounds.
pub(crate) fn line_in(words: &[Word]) -> Option<EventLine>
    ensures { option_map line_events result ≡ events_of words.now }
{
    match words {
        [word] => lone_event(word).map(EventLine::One),
        [word, bytes] => line_with(word, count_in(bytes)?),
        [word, count, bytes] if word.is_keyword(b"rounds") => rounds_in(count, bytes),
        _ => None,
    }
}

/// The event of this word alone.
fn lone_event(word: &Word) -> Option<Event>
    ensures { result ≡ lone_event word.now }
{
    if word.is_keyword(b"dial") {
        Some(Event::Dial)
    } else if word.is_keyword(b"die") {
        Some(Event::Die)
    } else if word.is_keyword(b"lose") {
        Some(Event::Lose)
    } else if word.is_keyword(b"timeout") {
        Some(Event::Timeout)
    } else {
        None
    }
}

/// What this word has with so many bytes.
fn line_with(word: &Word, bytes: u32) -> Option<EventLine>
    ensures { option_map line_events result ≡ events_with word.now bytes }
{
    let most = bytes as usize;
    if word.is_keyword(b"send") {
        Some(EventLine::One(Event::Send(most)))
    } else if word.is_keyword(b"to-filter") {
        Some(EventLine::One(Event::ToFilter(most)))
    } else if word.is_keyword(b"answer") {
        Some(EventLine::One(Event::Answer(most)))
    } else if word.is_keyword(b"to-mta") {
        Some(EventLine::One(Event::ToMta(most)))
    } else if word.is_keyword(b"round") {
        Some(EventLine::Rounds { count: 1, bytes })
    } else {
        None
    }
}

/// So many rounds with so many bytes, by the words of both numbers.
fn rounds_in(count: &Word, bytes: &Word) -> Option<EventLine>
    ensures { option_map line_events result ≡ rounds_of count.now bytes.now }
{
    let count = count_in(count)?;
    let bytes = count_in(bytes)?;
    Some(EventLine::Rounds { count, bytes })
}

/// The number that the word is, of at most 4,294,967,295.
fn count_in(word: &Word) -> Option<u32>
    ensures { result ≡ count_of word.now }
{
    u32::try_from(word.number()?).ok()
}
