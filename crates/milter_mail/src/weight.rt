//! How many bytes the packets of a message are.

ghost use Rattle.std.specs.Prelude.{◌≡◌, ◌≢◌, ◌≤◌, ◌+◌, ◌-◌, ◌^◌, ◌↔◌, [], All, IfSome, IsSome, IsTrue, ℕ, length, min};
ghost use Rattle.std.specs.List.{sum_by};
ghost use Rattle.milter_wire.specs.declared.command.Command.TheVariants as commands;
ghost use Rattle.milter_wire.specs.Command.{Fits, PacketLen, encoding};
ghost use Rattle.milter_message.specs.MailObject.{IsMessage};
ghost use Rattle.milter_mail.specs.MailSession.{IsSession};
ghost use Rattle.milter_mail.specs.WeightParts.{body_weight, CommonWeighs, FieldsWeigh, IsOverhead, IsSendableWith, MacrosWeigh, OpeningAndMacrosFit, OpeningWeighs, PartsWeigh};

use crate::by_macro_stage::Macros;
use milter_message::{CHUNK_LEN, Message, WEIGHT_MAX};
use milter_wire::codes::{
    SMFIC_BODYEOB, SMFIC_CONNECT, SMFIC_DATA, SMFIC_EOH, SMFIC_HELO, SMFIC_MAIL, SMFIC_RCPT,
};
use milter_wire::{
    Client, HEAD_LEN, Header, Pairs, Path, Text, connect_packet_len, header_packet_len,
    helo_packet_len, macro_packet_len, path_packet_len,
};

/// What each message of a session weighs beside the packets of its own parts, in bytes.
#[derive(Clone, Copy, Debug)]
pub struct Overhead {
    /// The packets of the opening, of the macros of a message, and those without a payload; or the greatest `usize`,
    /// where there are more.
    pub message: usize,
    /// The packet of macros before each recipient.
    pub recipient: usize,
}

impl Overhead {
    /// What each message of a session weighs beside its own parts; or none, where the client, its greeting or the
    /// macros of a stage fit no packet. Doesn't allocate.
    pub fn new(client: &Client, helo: &Text, macros: &Macros) -> Option<Self>
        ensures fits { IfSome result (λ _. OpeningAndMacrosFit client.now helo.now macros.now) }
        ensures none { OpeningAndMacrosFit client.now helo.now macros.now → IsSome result }
        ensures overhead { IfSome result (IsOverhead client.now helo.now macros.now) }
    {
        let opening = opening_len(client, helo, macros)?;
        let common = common_len(macros)?;
        let recipient = macros_len(SMFIC_RCPT, &macros.rcpt)?;
        Some(Overhead {
            message: opening.saturating_add(common),
            recipient,
        })
    }

    /// Whether the message has a recipient, each of its header fields fits a packet with its whole value, and it weighs
    /// at most 16,777,216 bytes in a session with this overhead. Doesn't allocate.
    pub fn allows(&self, message: &Message) -> bool
        ensures { IsTrue result ↔ IsSendableWith self.now message.now }
    {
        if message.recipients().is_empty() {
            return false;
        }
        match parts_len(self.recipient, message) {
            Some(len) => self.message.saturating_add(len) <= WEIGHT_MAX,
            None => false,
        }
    }
}

fn opening_len(client: &Client, helo: &Text, macros: &Macros) -> Option<usize>
    ensures { OpeningWeighs client.now helo.now macros.now result }
{
    let client = connect_packet_len(client)?;
    let connect = macros_len(SMFIC_CONNECT, &macros.connect)?.saturating_add(client);
    let helo = macros_len(SMFIC_HELO, &macros.helo)?.saturating_add(helo_packet_len(helo)?);
    Some(connect.saturating_add(helo))
}

fn common_len(macros: &Macros) -> Option<usize>
    ensures { CommonWeighs macros.now result }
{
    let mail = macros_len(SMFIC_MAIL, &macros.mail)?;
    let data_cmd = macros_len(SMFIC_DATA, &macros.data_cmd)?.saturating_add(HEAD_LEN);
    let eoh = macros_len(SMFIC_EOH, &macros.eoh)?.saturating_add(HEAD_LEN);
    let eom = macros_len(SMFIC_BODYEOB, &macros.eom)?.saturating_add(HEAD_LEN);
    Some(
        mail.saturating_add(data_cmd)
            .saturating_add(eoh)
            .saturating_add(eom),
    )
}

/// The number of bytes of the packet with these macros of the command with this code: 0 where there are none, since
/// there is no packet then.
fn macros_len(command: u8, pairs: &Pairs) -> Option<usize>
    ensures { MacrosWeigh command pairs.now result }
{
    let len = macro_packet_len(pairs)?;
    if pairs.as_slice().is_empty() {
        return Some(0);
    }
    Some(len)
}

/// Whether the client, its greeting and the macros of each stage fit a packet, and each message has a recipient and
/// weighs at most 16,777,216 bytes.
pub(crate) fn is_session(
    client: &Client,
    helo: &Text,
    macros: &Macros,
    messages: &[Message],
) -> bool
    ensures { IsTrue result ↔ IsSession (record {
      client = client.now;
      helo = helo.now;
      macros = macros.now;
      messages = messages.now;
    }) }
{
    let Some(overhead) = Overhead::new(client, helo, macros) else {
        return false;
    };
    are_sendable(&overhead, messages)
}

/// Whether each message goes to someone, and weighs at most 16,777,216 bytes.
fn are_sendable(overhead: &Overhead, messages: &[Message]) -> bool
    ensures { IsTrue result ↔ All (IsSendableWith overhead.now) messages.now }
{
    messages.iter().all(|message| overhead.allows(message))
}

/// The number of bytes of the packets of the parts of a message, with so many more for each recipient; or none, where
/// a header field doesn't fit a packet with its whole value.
fn parts_len(more: usize, message: &Message) -> Option<usize>
    ensures weight { PartsWeigh more message.now result }
    ensures whole { IsMessage message.now }
{
    let sender = sender_len(message.sender());
    let envelope = sender.saturating_add(recipients_len(more, message.recipients()));
    let headers = headers_len(message.headers())?;
    Some(
        envelope
            .saturating_add(headers)
            .saturating_add(body_len(message.body())),
    )
}

/// The number of bytes of the packet of the sender.
fn sender_len(path: &Path) -> usize
    requires { Fits (commands.Mail path.now) }
    ensures { result ≡ length (encoding (commands.Mail path.now)) }
{
    path_packet_len(path).unwrap_or(0)
}

/// The number of bytes of the packets of recipients, with so many more for each.
fn recipients_len(more: usize, paths: &[Path]) -> usize
    requires { All (λ path. Fits (commands.Rcpt path)) paths.now }
    ensures { result ≡ min (sum_by (λ path. more + length (encoding (commands.Rcpt path))) paths.now) (2 ^ 64 - 1) }
{
    let mut total: usize = 0;
    for path in paths {
        total = total.saturating_add(more.saturating_add(recipient_len(path)));
    }
    total
}

/// The number of bytes of the packet of a recipient.
fn recipient_len(path: &Path) -> usize
    requires { Fits (commands.Rcpt path.now) }
    ensures { result ≡ length (encoding (commands.Rcpt path.now)) }
{
    path_packet_len(path).unwrap_or(0)
}

/// The number of bytes of the packets of header fields with their whole values; or none, where one doesn't fit.
fn headers_len(headers: &[Header]) -> Option<usize>
    ensures { FieldsWeigh headers.now result }
{
    let mut total: usize = 0;
    for header in headers {
        let Some(len) = header_packet_len(header) else {
            return None;
        };
        total = total.saturating_add(len);
    }
    Some(total)
}

/// The number of bytes of the packets of the body.
fn body_len(body: &[u8]) -> usize
    ensures { result ≡ min (body_weight (length body.now)) (2 ^ 64 - 1) }
{
    let chunks = body.len().div_ceil(CHUNK_LEN);
    body.len().saturating_add(chunks * HEAD_LEN)
}
