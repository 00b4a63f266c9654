//! A session that is sent plainly, and what passes over its connection.

ghost use Rattle.std.specs.Prelude.{◌≤◌, IfOk, length};

use crate::breakage::Broken;
use crate::exchange::{Exchange, Place};
use crate::given::Given;
use milter_mail::{Macros, Message, Session};
use milter_mta_connection::{CallFault, CallOutcome, FilterEvent, MtaConnection, Phase, Want};
use milter_mta_outcome::Loss;
use milter_text::write_text;
use milter_wire::{HEAD_LEN, NoMemory, Options, Packet, Stage, read_buffer};
use std::alloc::Global;
use std::io::{ErrorKind, Read, Write};

/// The most reads for one reply.
pub(crate) const READS_MAX: u32 = 1_073_741_824;

/// Reads some bytes into the room, none where the read was interrupted. The end of the input is a loss.
pub(crate) fn read_some<R: Read>(link: &mut R, room: &mut [u8]) -> Result<usize, Loss>
    ensures { IfOk result (λ count. count ≤ length room.new) }
{
    match link.read(room) {
        Ok(0) => Err(Loss::Reset),
        Ok(count) => Ok(count),
        Err(error) => match error.kind() {
            ErrorKind::Interrupted => Ok(0),
            ErrorKind::WouldBlock | ErrorKind::TimedOut => Err(Loss::Timeout),
            _ => Err(Loss::Reset),
        },
    }
}

/// A session that was sent.
#[derive(Drop)]
pub(crate) struct SentSession {
    /// What passed, in order.
    pub(crate) exchanges: Vec<Exchange>,
    /// Why it was not sent to its end, where that is so.
    pub(crate) broken: Option<Broken>,
}

/// A reply.
#[derive(Clone, Copy)]
struct Reply {
    // How many bytes it has.
    len: usize,
    // Its verdict, where it is one.
    given: Option<Given>,
}

/// A mail server's end of a connection over which a session is sent.
#[derive(Drop)]
struct SessionEnd<L> {
    alloc: Global,
    connection: MtaConnection,
    link: L,
    // Room for what is read at once.
    room: Vec<u8>,
    exchanges: Vec<Exchange>,
    // The message that is sent.
    message: Option<usize>,
    // What is sent.
    place: Place,
}

/// Sends a session over a connection with this offer, each command once the one before is answered, up to where the
/// filter is lost. The connection is closed then.
pub(crate) fn send_session<L: Read + Write + Drop>(
    alloc: Global,
    link: L,
    offer: Options,
    session: &Session,
) -> Result<SentSession, NoMemory> {
    let mut end = SessionEnd {
        alloc,
        connection: MtaConnection::new(alloc, offer)?,
        link,
        room: read_buffer(alloc)?,
        exchanges: Vec::new(alloc),
        message: None,
        place: Place::Offer,
    };
    let broken = match end.send_all(session) {
        Ok(()) => None,
        Err(Loss::Memory) => return Err(NoMemory),
        Err(loss) => Some(Broken::Lost(loss, end.place)),
    };
    let SessionEnd { exchanges, .. } = end;
    Ok(SentSession { exchanges, broken })
}

impl<L: Read + Write> SessionEnd<L> {
    /// Sends the session.
    fn send_all(&mut self, session: &Session) -> Result<(), Loss> {
        self.pass()?;
        self.send_client(session)?;
        let messages = session.messages();
        for number in 0..messages.len() {
            self.message = Some(number);
            self.send_message(&messages[number], session.macros())?;
        }
        self.message = None;
        let outcome = self.connection.quit();
        self.exchange(Place::Quit, outcome)
    }

    /// Sends the client and its greeting.
    fn send_client(&mut self, session: &Session) -> Result<(), Loss> {
        let macros = session.macros();
        let client = session.client().as_ref();
        let outcome = self
            .connection
            .connect(client, macros.before(Stage::Connect));
        self.exchange(Place::At(Stage::Connect), outcome)?;
        let name = session.helo().as_slice();
        let outcome = self.connection.helo(name, macros.before(Stage::Helo));
        self.exchange(Place::At(Stage::Helo), outcome)
    }

    /// Sends a message; where a verdict ended it early, also its abort.
    fn send_message(&mut self, message: &Message, macros: &Macros) -> Result<(), Loss> {
        self.send_envelope(message, macros)?;
        self.send_header(message, macros)?;
        self.send_body(message)?;
        let outcome = self.connection.end(macros.before(Stage::Eob));
        self.exchange(Place::At(Stage::Eob), outcome)?;
        if self.connection.phase() != Phase::MessageOver {
            return Ok(());
        }
        let outcome = self.connection.abort();
        self.exchange(Place::Abort, outcome)
    }

    /// Sends the sender and the recipients.
    fn send_envelope(&mut self, message: &Message, macros: &Macros) -> Result<(), Loss> {
        let sender = message.sender().as_ref();
        let outcome = self.connection.mail(sender, macros.before(Stage::Mail));
        self.exchange(Place::At(Stage::Mail), outcome)?;
        for recipient in message.recipients() {
            let macros = macros.before(Stage::Rcpt);
            let outcome = self.connection.rcpt(recipient.as_ref(), macros);
            self.exchange(Place::At(Stage::Rcpt), outcome)?;
        }
        let outcome = self.connection.data(macros.before(Stage::DataCmd));
        self.exchange(Place::At(Stage::DataCmd), outcome)
    }

    /// Sends the header fields.
    fn send_header(&mut self, message: &Message, macros: &Macros) -> Result<(), Loss> {
        for header in message.headers() {
            let outcome = self.connection.header(header.as_ref());
            self.exchange(Place::At(Stage::Header), outcome)?;
        }
        let outcome = self.connection.eoh(macros.before(Stage::Eoh));
        self.exchange(Place::At(Stage::Eoh), outcome)
    }

    /// Sends the chunks of the body.
    fn send_body(&mut self, message: &Message) -> Result<(), Loss> {
        for number in 0..message.body().len() {
            let Some(chunk) = message.chunk(number) else {
                return Ok(());
            };
            let outcome = self.connection.body(chunk);
            self.exchange(Place::At(Stage::Body), outcome)?;
        }
        Ok(())
    }

    /// Sends what a call queued, and receives the reply to it. The calls come in order and fit, so that one is refused
    /// only where memory is refused.
    fn exchange(
        &mut self,
        place: Place,
        outcome: Result<CallOutcome, CallFault>,
    ) -> Result<(), Loss> {
        self.place = place;
        match outcome {
            Ok(CallOutcome::LeftOut) => Ok(()),
            Ok(_) => self.pass(),
            Err(_) => Err(Loss::Memory),
        }
    }

    /// Sends what is pending, and receives the reply to it.
    fn pass(&mut self) -> Result<(), Loss> {
        let Ok(packets) = packets_of(self.alloc, self.connection.pending()) else {
            return Err(Loss::Memory);
        };
        self.send()?;
        let reply = self.receive()?;
        let exchange = Exchange {
            place: self.place,
            message: self.message,
            packets,
            came: reply.len,
            given: reply.given,
        };
        match self.exchanges.push(exchange) {
            Ok(()) => Ok(()),
            Err(_) => Err(Loss::Memory),
        }
    }

    /// Sends what is pending.
    fn send(&mut self) -> Result<(), Loss> {
        let written = write_text(&mut self.link, self.connection.pending());
        let count = self.connection.pending().len();
        self.connection.sent(count);
        match written {
            Ok(()) => Ok(()),
            Err(_) => Err(Loss::Reset),
        }
    }

    /// Receives the reply, where one is due.
    fn receive(&mut self) -> Result<Reply, Loss> {
        let mut reply = Reply {
            len: 0,
            given: None,
        };
        for _ in 0..READS_MAX {
            if self.connection.want() != Want::Receive {
                return Ok(reply);
            }
            self.receive_piece(&mut reply)?;
        }
        Err(Loss::Timeout)
    }

    /// Receives a piece of a reply.
    fn receive_piece(&mut self, reply: &mut Reply) -> Result<(), Loss> {
        let count = read_some(&mut self.link, self.room.as_mut_slice())?;
        let fed = self.connection.feed(&self.room[..count]);
        reply.len = reply.len.saturating_add(count);
        if let FilterEvent::Verdict(verdict) = &fed.event {
            reply.given = Some(Given::of(verdict));
        }
        match fed.loss {
            Some(loss) => Err(loss),
            None => Ok(()),
        }
    }
}

/// The packets that these bytes are.
fn packets_of(alloc: Global, bytes: &[u8]) -> Result<Vec<Vec<u8>>, NoMemory> {
    let mut packets = Vec::new(alloc);
    let mut rest = bytes;
    for _ in 0..bytes.len() {
        let Some(packet) = Packet::first_of(rest) else {
            return Ok(packets);
        };
        let len = packet.payload.len() + HEAD_LEN;
        packets.push(Vec::from_slice(alloc, &rest[..len])?)?;
        rest = &rest[len..];
    }
    Ok(packets)
}
