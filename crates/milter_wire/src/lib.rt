//! The commands and replies of the Sendmail milter protocol, version 6, and what its two ends negotiate.
//!
//! A mail server (MTA) sends [`Command`]s to a filter, which answers with [`Reply`]s; `decode` reads one of a packet.
//! Before the first stage [`Options`] of both ends are negotiated: the version, the changes that the filter may ask
//! for, the steps that are left out or left unanswered, and by [`SymLists`] the macros that are sent. Nothing here
//! reads, writes or waits.
#![tactic(auto)]

pub mod codes;
mod command;
mod command_ref;
mod laws;
mod lengths;
mod macro_stage;
mod negotiation;
mod options;
mod options_laws;
mod options_payload;
mod payload;
mod reply;
mod stage;
mod symbol_lists;
mod verdict;

pub use command::Command;
pub use command_ref::CommandRef;
pub use laws::{
    code_characters, command_codes, command_encodings, command_frames, commands_apart,
    replies_apart, reply_codes, reply_encodings, reply_frames,
};
pub use lengths::{
    READ_LEN_MAX, connect_packet_len, header_packet_len, helo_packet_len, macro_packet_len,
    path_packet_len, read_buffer,
};
pub use macro_stage::{
    MacroStage, SMFIM_CONNECT, SMFIM_DATA, SMFIM_ENVFROM, SMFIM_ENVRCPT, SMFIM_EOH, SMFIM_EOM,
    SMFIM_HELO,
};
pub use milter_fields::{
    Client, ClientRef, CodeName, HEAD_LEN, Header, HeaderRef, List, NoMemory, Origin, OriginRef,
    PAYLOAD_MAX, Packet, Pair, PairRef, Pairs, PairsRef, Params, ParamsRef, Path, PathRef,
    RefusedMemory, Splitter, Text, WireFault, has_no_nul, pair_len, string_len,
};
pub use negotiation::{Negotiated, negotiate};
pub use options::{Actions, Options, Protocol, common_options};
pub use options_laws::{names_of_bits, texts_of_known_bits};
pub use options_payload::{
    OPTIONS_LEN, options_fit, put_options, take_options, take_options_first,
};
pub use payload::PayloadRef;
pub use reply::Reply;
pub use stage::Stage;
pub use symbol_lists::{
    SymList, SymLists, copy_sym_lists, options_with_lists_fit, options_with_lists_len,
    put_options_with_lists, sym_list_len, sym_lists_len, take_options_with_lists,
};
pub use verdict::Verdict;
