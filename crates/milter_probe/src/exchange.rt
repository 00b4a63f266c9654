//! What was sent of a session, and what came.

use crate::given::Given;
use milter_wire::Stage;

/// What is sent in an exchange.
#[derive(Clone, Copy, Debug, PartialEq, Eq)]
pub enum Place {
    /// The offer.
    Offer,
    /// The command of a stage, with its macros.
    At(Stage),
    /// The abort of a message that a verdict ended early.
    Abort,
    /// The end of the connection.
    Quit,
}

impl Place {
    /// Its word. Doesn't allocate.
    pub fn name(self) -> &'static [u8] {
        match self {
            Place::Offer => b"offer",
            Place::At(stage) => stage.name(),
            Place::Abort => b"abort",
            Place::Quit => b"quit",
        }
    }
}

/// Packets that are sent at once, and the reply to them.
#[derive(Debug, Drop)]
pub struct Exchange {
    /// What is sent.
    pub place: Place,
    /// The number of the message that it belongs to, from 0; none of the offer, the client and the end.
    pub message: Option<usize>,
    /// The packets that are sent, in order.
    pub packets: Vec<Vec<u8>>,
    /// How many bytes came in reply.
    pub came: usize,
    /// The verdict that came; none where none was due.
    pub given: Option<Given>,
}

impl Exchange {
    /// Whether a reply is due.
    pub fn is_answered(&self) -> bool {
        self.given.is_some() || self.place == Place::Offer
    }
}

/// How many bytes the packets have.
fn packets_len(packets: &[Vec<u8>]) -> usize {
    let mut len = 0usize;
    for packet in packets {
        len = len.saturating_add(packet.len());
    }
    len
}

/// How many bytes are sent.
pub(crate) fn sent_len(exchanges: &[Exchange]) -> usize {
    let mut len = 0usize;
    for exchange in exchanges {
        len = len.saturating_add(packets_len(exchange.packets.as_slice()));
    }
    len
}

/// How many bytes come.
pub(crate) fn came_len(exchanges: &[Exchange]) -> usize {
    let mut len = 0usize;
    for exchange in exchanges {
        len = len.saturating_add(exchange.came);
    }
    len
}

/// How many packets are sent.
pub(crate) fn packet_count(exchanges: &[Exchange]) -> usize {
    let mut count = 0usize;
    for exchange in exchanges {
        count = count.saturating_add(exchange.packets.len());
    }
    count
}

/// How many messages are sent.
pub(crate) fn message_count(exchanges: &[Exchange]) -> usize {
    let mut count = 0usize;
    for exchange in exchanges {
        if let Some(message) = exchange.message {
            count = count.max(message.saturating_add(1));
        }
    }
    count
}

/// The index of the first exchange of a message; the number of all exchanges where it has none.
pub(crate) fn message_start(exchanges: &[Exchange], message: usize) -> usize {
    let mut start = 0usize;
    for exchange in exchanges {
        if exchange.message == Some(message) {
            return start;
        }
        start = start.saturating_add(1);
    }
    start
}

/// The index after the last exchange of a message; that of the first where it has none.
pub(crate) fn message_end(exchanges: &[Exchange], message: usize) -> usize {
    let mut end = message_start(exchanges, message);
    for exchange in exchanges {
        if exchange.message == Some(message) {
            end = end.saturating_add(1);
        }
    }
    end
}

/// Where the packet with this number, from 0, is: the index of its exchange, and its index there.
pub(crate) fn packet_place(exchanges: &[Exchange], number: usize) -> Option<(usize, usize)> {
    let mut left = number;
    for place in 0..exchanges.len() {
        let count = exchanges[place].packets.len();
        if left < count {
            return Some((place, left));
        }
        left -= count;
    }
    None
}
