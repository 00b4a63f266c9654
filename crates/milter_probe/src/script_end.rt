//! A script that is played over a connection.

use crate::breakage::Broken;
use crate::exchange::{Exchange, Place};
use crate::given::{Difference, Given};
use crate::script::{Cut, Script, Step};
use crate::session_end::read_some;
use milter_mta_connection::{ExpectedReply, FilterEvent, MtaChannel};
use milter_mta_outcome::{Loss, MtaFault};
use milter_text::write_text;
use milter_wire::{CommandRef, NoMemory, Options, read_buffer};
use std::alloc::Global;
use std::io::{Read, Write};

/// How often in a row an interrupted read is made again.
const RETRIES_MAX: u32 = 100;

/// The most bytes of one reply.
const REPLY_MAX: u64 = 1_099_511_627_776;

/// Why a script is not played on.
#[derive(Clone, Copy)]
enum Stop {
    /// The connection is to be closed here.
    Cut,
    /// Memory was refused.
    NoMemory,
    /// Something broke.
    Broken(Broken),
}

/// A mail server's end of a connection over which a script is played.
#[derive(Drop)]
struct ScriptEnd<L> {
    link: L,
    // What was negotiated, and the reply that is due. Nothing is sent on it.
    channel: MtaChannel,
    // What was read at once, of which the bytes from one index up to before another are unread.
    room: Vec<u8>,
    at: usize,
    end: usize,
    // How many bytes were sent, and how many came.
    sent: usize,
    came: usize,
    cut: Cut,
    is_bytewise: bool,
    is_compared: bool,
    // What was sent last.
    place: Place,
}

/// Plays a script of these exchanges, whose first one makes this offer, over a connection, which is closed then. The
/// result is what broke, where the script is one whose replies are compared.
pub(crate) fn play_script<L: Read + Write + Drop>(
    alloc: Global,
    link: L,
    offer: Options,
    exchanges: &[Exchange],
    script: &Script,
) -> Result<Option<Broken>, NoMemory> {
    let mut end = ScriptEnd {
        link,
        channel: MtaChannel::new(alloc, offer),
        room: read_buffer(alloc)?,
        at: 0,
        end: 0,
        sent: 0,
        came: 0,
        cut: script.cut,
        is_bytewise: script.is_bytewise,
        is_compared: script.is_compared,
        place: Place::Offer,
    };
    match end.play_all(exchanges, script.steps.as_slice()) {
        Ok(()) | Err(Stop::Cut) => Ok(None),
        Err(Stop::NoMemory) => Err(NoMemory),
        Err(Stop::Broken(broken)) if script.is_compared => Ok(Some(broken)),
        Err(Stop::Broken(_)) => Ok(None),
    }
}

impl<L: Read + Write> ScriptEnd<L> {
    /// Plays the steps.
    fn play_all(&mut self, exchanges: &[Exchange], steps: &[Step]) -> Result<(), Stop> {
        for step in steps {
            self.play(exchanges, step)?;
        }
        Ok(())
    }

    /// Plays a step.
    fn play(&mut self, exchanges: &[Exchange], step: &Step) -> Result<(), Stop> {
        match step {
            Step::Send(place) => match exchanges.get(*place) {
                Some(exchange) => self.send_exchange(exchange),
                None => Ok(()),
            },
            Step::Receive(place) => match exchanges.get(*place) {
                Some(exchange) => self.receive(exchange),
                None => Ok(()),
            },
            Step::Insert(bytes) => self.send(bytes.as_slice()),
        }
    }

    /// The stop by the loss of the filter.
    fn lost(&self, loss: Loss) -> Stop {
        match loss {
            Loss::Memory => Stop::NoMemory,
            loss => Stop::Broken(Broken::Lost(loss, self.place)),
        }
    }

    // ---- what is sent

    /// Sends the packets of an exchange.
    fn send_exchange(&mut self, exchange: &Exchange) -> Result<(), Stop> {
        self.place = exchange.place;
        for packet in &exchange.packets {
            self.send(packet.as_slice())?;
        }
        Ok(())
    }

    /// Sends bytes, up to where the connection is closed.
    fn send(&mut self, bytes: &[u8]) -> Result<(), Stop> {
        let left = match self.cut {
            Cut::Sent(count) => count.saturating_sub(self.sent),
            _ => usize::MAX,
        };
        let count = bytes.len().min(left);
        self.write(&bytes[..count])?;
        self.sent = self.sent.saturating_add(count);
        if self.cut == Cut::Sent(self.sent) {
            return Err(Stop::Cut);
        }
        Ok(())
    }

    /// Writes bytes, at once or one by one.
    fn write(&mut self, bytes: &[u8]) -> Result<(), Stop> {
        if self.is_bytewise {
            return self.write_bytes(bytes);
        }
        match write_text(&mut self.link, bytes) {
            Ok(()) => Ok(()),
            Err(_) => Err(self.lost(Loss::Reset)),
        }
    }

    /// Writes bytes one by one.
    fn write_bytes(&mut self, bytes: &[u8]) -> Result<(), Stop> {
        for byte in bytes {
            if write_text(&mut self.link, &[*byte]).is_err() {
                return Err(self.lost(Loss::Reset));
            }
        }
        Ok(())
    }

    // ---- what comes

    /// Receives the reply to an exchange, where one is due, and compares it.
    fn receive(&mut self, exchange: &Exchange) -> Result<(), Stop> {
        if !exchange.is_answered() {
            return Ok(());
        }
        self.place = exchange.place;
        self.expect(exchange.place)?;
        let given = self.receive_reply()?;
        if !self.is_compared {
            return Ok(());
        }
        self.compare(given, exchange.given)
    }

    /// Has the reply to what is sent there be due. The packet that is queued for it stands for the one that was sent.
    fn expect(&mut self, place: Place) -> Result<(), Stop> {
        self.channel.clear();
        let queued = match place {
            Place::Offer => self.channel.queue_offer(),
            Place::At(stage) => {
                let expected = ExpectedReply::Verdict(stage);
                self.channel.queue_expecting(&CommandRef::Abort, expected)
            }
            Place::Abort | Place::Quit => Ok(()),
        };
        let count = self.channel.pending().len();
        self.channel.sent(count);
        match queued {
            Ok(()) => Ok(()),
            Err(_) => Err(Stop::NoMemory),
        }
    }

    /// Receives the reply that is due, and answers with its verdict, where it is one.
    fn receive_reply(&mut self) -> Result<Option<Given>, Stop> {
        for _ in 0..REPLY_MAX {
            let byte = self.next_byte()?;
            let fed = self.channel.feed(&[byte]);
            if let Some(loss) = fed.loss {
                return Err(self.lost(loss));
            }
            match &fed.event {
                FilterEvent::Verdict(verdict) => return Ok(Some(Given::of(verdict))),
                FilterEvent::Negotiated => return Ok(None),
                FilterEvent::Nothing | FilterEvent::InProgress => {}
            }
        }
        Err(self.lost(Loss::Timeout))
    }

    /// The next byte that comes, up to the one at which the connection is closed.
    fn next_byte(&mut self) -> Result<u8, Stop> {
        if self.at >= self.end {
            self.fill()?;
        }
        let Some(byte) = self.room.get(self.at) else {
            return Err(self.lost(Loss::Reset));
        };
        let byte = *byte;
        self.at = self.at.saturating_add(1);
        self.came = self.came.saturating_add(1);
        if self.cut == Cut::Came(self.came) {
            return Err(Stop::Cut);
        }
        Ok(byte)
    }

    /// Reads some bytes. A read that was interrupted is made again.
    fn fill(&mut self) -> Result<(), Stop> {
        for _ in 0..RETRIES_MAX {
            match self.read_once() {
                Ok(0) => {}
                Ok(count) => {
                    self.at = 0;
                    self.end = count;
                    return Ok(());
                }
                Err(loss) => return Err(self.lost(loss)),
            }
        }
        Err(self.lost(Loss::Reset))
    }

    /// Reads some bytes, none after the one at which the connection is closed.
    fn read_once(&mut self) -> Result<usize, Loss> {
        let left = match self.cut {
            Cut::Came(count) => count.saturating_sub(self.came),
            _ => usize::MAX,
        };
        let room = self.room.as_mut_slice();
        let most = room.len().min(left);
        read_some(&mut self.link, &mut room[..most])
    }

    /// Compares a reply with the one of the conversation.
    fn compare(&self, came: Option<Given>, before: Option<Given>) -> Result<(), Stop> {
        if came != before {
            let place = self.place;
            return Err(Stop::Broken(Broken::Other(Difference {
                place,
                came,
                before,
            })));
        }
        if self.at < self.end {
            return Err(self.lost(Loss::Fault(MtaFault::Early)));
        }
        Ok(())
    }
}
