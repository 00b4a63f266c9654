//! The line of a trace that records what was read.

ghost use Rattle.std.specs.Prelude.{◌≡◌, IfOk};
ghost use Rattle.milter_record.specs.TraceLine.{mark_of, recorded_line};

use std::alloc::{AllocError, Global};

/// Who sent what is recorded.
#[derive(Clone, Copy)]
pub enum Sender {
    /// The mail server.
    MailServer,
    /// The filter.
    Filter,
}

impl Sender {
    /// The first character of a line: `>` of a mail server, `<` of a filter.
    fn mark(self) -> u8
        ensures { result ≡ mark_of self }
    {
        match self {
            Sender::MailServer => b'>',
            Sender::Filter => b'<',
        }
    }
}

/// The line that records bytes of this sender: its mark, a blank, the bytes in hexadecimal digits, and LF.
pub fn trace_line(alloc: Global, sender: Sender, bytes: &[u8]) -> Result<Vec<u8>, AllocError>
    ensures { IfOk result (λ line. line.items ≡ recorded_line sender bytes.now) }
{
    let digits = hex::encode(alloc, bytes)?;
    let mut line = Vec::from_slice(alloc, &[sender.mark(), b' '])?;
    line.extend_from_slice(digits.as_bytes())?;
    line.push(b'\n')?;
    Ok(line)
}
