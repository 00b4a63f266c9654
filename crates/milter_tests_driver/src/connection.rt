//! One end of a connection, played by a script, which is the input: a mail server's, for the tables
//! `connection_*.table` and `tests/test_captures.py`, or that of a filter whose caller answers, for the tables
//! `questions_*.table`. The first word says which.
//!
//! A line is words, plain or in quotes, as the lines of session files are; an empty line, and one that begins with `#`,
//! is skipped. HEX are hexadecimal digits, two a byte. In brackets is what a line prints.
//!
//! A mail server's end:
//!
//! - `offer VERSION ACTIONS PROTOCOL`, the first: what the filter is offered, in hexadecimal digits.
//! - `macro NAME VALUE`: a macro of the next call that takes macros.
//! - `connect HOST FAMILY PORT ADDRESS`, where FAMILY is `4`, `6` or `L`, or `connect HOST`; `helo NAME`;
//!   `mail SENDER PARAMETER ..`, `rcpt RECIPIENT PARAMETER ..`, `data`, `header NAME VALUE`, `eoh`, `body CHUNK`,
//!   `end`, `unknown COMMAND`, `abort`, `quit`: the calls of these names [what is answered: `left out`, `no reply` or
//!   `verdict due`, or why it is refused]. A call for which memory is refused is made again, once: nothing may have
//!   changed before that.
//! - `send`: all that is pending is sent [each packet as HEX]. `sent NUMBER`: so many bytes are sent, or all that are
//!   pending where these are fewer.
//! - `feed HEX`: a piece [the event: `nothing`, `in progress`, `negotiated VERSION ACTIONS PROTOCOL`, `verdict WORD`
//!   with the text of a code; and after it the loss, if there is one]. `feed_bytes HEX`: a piece for each byte [events
//!   other than `nothing`, and losses]. Where memory is refused, the connection has to be closed then, and the program
//!   is out of memory.
//! - `lost`: the filter is lost.
//! - `want`, `phase`, `pending`, `under_way`: [what is wanted, where the connection is, the bytes that wait to be sent
//!   as HEX, and `yes` or `no`].
//! - `edits`: [how many edits came, and each of them as the packet that asks for it, in HEX]. `take_edits`: the same of
//!   the edits that are taken.
//! - `edited SENDER RECIPIENT NAME VALUE BODY`: [the message of these parts after the edits].
//!
//! A filter's end:
//!
//! - `wants VERSION ACTIONS PROTOCOL ORDER STAGE NAMES ..`, the first: what the filter wants, in hexadecimal digits,
//!   the order in which commands are taken, `strict` or `lenient`, and symbol lists, the numbers of whose stages are in
//!   hexadecimal digits too [why it can't be wanted; the script ends then].
//! - `feed HEX`: a piece [`taken NUMBER of NUMBER` where it isn't taken whole, or why the connection is given up].
//!   `feed_bytes HEX`: a piece for each byte. Where memory is refused the program is out of memory.
//! - `edit HEX`: an edit of the next answer, by the packet that asks for it. `answer VERDICT`, with the text of a code:
//!   an answer to the question that is open [why it isn't taken]. An answer for which memory is refused is given again,
//!   once: nothing may have changed before that.
//! - `progress`: a report of progress [why that isn't made].
//! - `send`, `sent NUMBER`: as above.
//! - `next`: [what the caller does next: `feed`, `send`, `answer STAGE` or `done`].
//! - `shown`, `macro NAME`, `pending`, `unread`: [the sender, and how much is shown of the rest; the value of a macro;
//!   the bytes that are pending as HEX; and how many bytes are unread].
//! - `release`; `restart ORDER`: for another connection.

mod answers;
mod calls;
mod edits;
mod filter_player;
mod mta_player;

use crate::script::{first_texts, line_of};
use milter_text::LineCursor;

/// Plays the script of the input, and prints what its lines ask for.
pub fn print_played(rt: &HostRuntime, input: &[u8]) -> anyhow::Result<()> {
    let mut lines = LineCursor::new(input);
    let first = first_texts(rt.alloc(), &mut lines)?;
    match line_of(&first)?.word {
        "wants" => filter_player::play(rt, &first, &mut lines),
        _ => mta_player::play(rt, &first, &mut lines),
    }
}
