//! What a handle has.

use crate::decoded::Decoded;
use crate::mta_end::MtaEnd;
use milter_fields::Splitter;
use milter_filter::FilterConnection;
use milter_message::Held;
use milter_protocol::Answer;
use milter_rules::Rules;
use milter_trace::PacketTrace;

/// What a handle has.
#[derive(Drop)]
pub enum Object {
    /// A stream of packets.
    Stream(Splitter),
    /// What a packet is decoded to.
    Decoded(Decoded),
    /// The lines of packets.
    Trace(PacketTrace),
    /// A filter's end of a connection.
    Filter(FilterConnection),
    /// An answer.
    Answer(Answer),
    /// Rules.
    Rules(Rules),
    /// A message, and why it is in quarantine, if it is.
    Message(Held),
    /// A mail server's end of a connection to a filter.
    Mta(MtaEnd),
}
