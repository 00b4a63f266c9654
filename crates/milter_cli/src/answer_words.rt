//! What is said of a mail server that was not answered to its end.

use crate::answer_error::AnswerError;

/// What an error means, and what is due.
pub(crate) fn answer_meaning(error: AnswerError) -> &'static str {
    match error {
        AnswerError::Fault { number } => fault_meaning(number),
        AnswerError::Truncated { .. } => {
            "it ends within a packet: the mail server's end was lost, or bytes are missing"
        }
        AnswerError::Read => "it couldn't be read: it is closed, or a folder",
        AnswerError::Write => "standard output couldn't be written",
        AnswerError::TurnLimit => "it goes on after 1,073,741,824 reads",
        AnswerError::NoMemory => "memory was refused",
    }
}

/// What the filter's fault of this number means, and what is due.
fn fault_meaning(number: u8) -> &'static str {
    match number {
        1 => "a command came before the offer of options: a mail server begins with O",
        2 => "the mail server offers a version below 2, and versions 2 to 6 are known",
        3 => {
            "a command came out of order, which is connect, helo, mail, rcpt, data, header, eoh, body and end; \
             with --lenient a greeting or a sender ends the message before it"
        }
        4 => "a connection and a message have more than 16,777,216 bytes of packets together",
        5 => {
            "a packet has length 0 or above 65536, an unknown code, or a payload that isn't in its layout; \
             milter_tool trace shows which"
        }
        6 => "the offer of options came a second time on one connection",
        _ => "memory was refused",
    }
}
