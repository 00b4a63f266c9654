//! Packets of the Sendmail milter protocol, version 6, on a stream, and the fields of their payloads.
//!
//! A packet is a length of four bytes, the highest first, a code of one byte and a payload of at most 65,535 bytes: a
//! [`Splitter`] takes a stream in any pieces and hands out its packets. Texts, clients, addresses, header fields,
//! macros and reply codes are encoded and decoded, owned and borrowed. A [`ByteQueue`] has bytes that wait.
//!
//! Nothing here reads, writes or waits. Only what takes an allocator or appends to an output takes memory; after
//! `NoMemory` an output has what it had, and perhaps some of the bytes after it.
#![tactic(auto)]

mod arguments;
mod borrowed_lists;
mod byte_queue;
mod client;
mod code_name;
mod fault;
mod first_packet;
mod header;
mod laws;
mod lists;
mod nuls;
mod number;
mod pair;
mod path;
mod port;
mod reply_code;
mod sequences;
mod splitter;
mod strings;
mod text;

pub use arguments::{arguments_fit, arguments_len, put_addressed, take_addressed};
pub use borrowed_lists::{PairsRef, ParamsRef};
pub use byte_queue::ByteQueue;
pub use client::{
    Client, ClientRef, Origin, OriginRef, SMFIA_INET, SMFIA_INET6, SMFIA_UNIX, SMFIA_UNKNOWN,
    family_codes,
};
pub use code_name::{CodeName, hex_digit};
pub use fault::{NoMemory, RefusedMemory, WireFault};
pub use header::{
    Header, HeaderRef, header_fits, header_len, put_header, put_indexed, take_header, take_indexed,
};
pub use laws::{
    fed_stream, four_byte_numbers, one_division, packet_limits, packets_apart, stream_divides,
    stream_goes_on,
};
pub use lists::{List, Pairs, Params};
pub use number::{HEAD_LEN, PAYLOAD_MAX, put_head, put_number, take_number};
pub use pair::{Pair, PairRef, pair_len, pairs_fit, pairs_len};
pub use path::{Path, PathRef};
pub use reply_code::{is_reply_code, take_reply_code};
pub use splitter::{Packet, Splitter};
pub use strings::{
    has_no_nul, one_string, put_bytes, put_string, string_len, take_string, take_text,
};
pub use text::Text;
