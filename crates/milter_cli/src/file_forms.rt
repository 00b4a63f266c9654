//! What the faults of files mean by their numbers, where the file can't be read again.

use crate::file_error::InputFile;

/// What is said of a trace that ends within a packet.
pub(crate) const TRUNCATED: &str = "the trace ends within a packet: bytes are missing at its end";

/// What is said of a trace that doesn't begin with the mail server's offer.
pub(crate) const NO_OFFER: &str =
    "a conversation begins with the mail server's offer, a packet O to the filter: the beginning is missing";

/// What is said of a second offer.
pub(crate) const SECOND_OFFER: &str =
    "a second offer begins another connection: a trace that is sent again has one, so divide it before this line";

/// What is wrong with a line of a file of this kind that has the fault of this number.
pub(crate) fn fault_meaning(file: InputFile, number: u8) -> &'static str {
    match file {
        InputFile::Session => session_fault(number),
        InputFile::Rules => rule_fault(number),
        InputFile::Events => event_fault(number),
        InputFile::Reports => "the line isn't one of reports",
        InputFile::Trace => trace_fault(number),
        InputFile::Capture => "the file isn't a capture",
    }
}

fn session_fault(number: u8) -> &'static str {
    match number {
        1 => "the line is unknown, or has another form; milter_tool help session has the forms",
        2 => "a client line is due here: client U TEXT, or client 4 TEXT NUMBER TEXT",
        3 => "the message that ends here has no recipient line",
        4 => "a header line is header TEXT TEXT, with a name and a value",
        5 => "the file ends within a message: a line end is due",
        6 => "a text is too large for a packet, or the message has more than 16,777,216 bytes",
        _ => "a text other than a body's has a NUL",
    }
}

fn rule_fault(number: u8) -> &'static str {
    match number {
        1 => "the line is unknown, or has another form; milter_tool help rules has the forms",
        2 => "a stage is due after at; milter_tool help rules has them",
        3 => "a condition is FIELD TEST TEXT, and do stands before the action",
        4 => "the action is unknown, or has another form; milter_tool help rules has the actions",
        5 => "the action can't be at this stage",
        6 => "a text is too large, or the file has more rules, lists or edits than it may have",
        _ => "the list can't be read: its file is missing, too large, or has a bad entry",
    }
}

fn event_fault(number: u8) -> &'static str {
    match number {
        1 => "the line is unknown, or has another form; milter_tool help play has the forms",
        _ => "a file has at most 10,000,000 events",
    }
}

fn trace_fault(number: u8) -> &'static str {
    match number {
        1 =>
            "a line is > DIGITS or < DIGITS, with one blank and an even number of hexadecimal digits",
        2 => "a packet that becomes whole in this line is at fault; milter_tool trace says how",
        3 => TRUNCATED,
        4 => NO_OFFER,
        _ => SECOND_OFFER,
    }
}
