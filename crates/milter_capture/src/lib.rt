//! Captures of packets, as tcpdump writes them, and the conversations between mail servers and filters in them.
//!
//! A [`CaptureReader`] reads the records of pcap and pcapng, in either order of bytes. [`read_capture`] takes their
//! frames apart, of Ethernet, of raw IP, of loopback and of Linux's cooked captures, with IPv4 or IPv6, and puts each
//! direction of a [`Connection`] in order by its sequence numbers; what the capture doesn't have is counted.
//! Conversations are printed as traces are, each packet with its time.
#![tactic(auto)]

mod byte_order;
mod capture;
mod capture_reader;
mod capture_text;
mod connection;
mod connection_table;
mod connection_text;
mod fault;
mod frame;
mod internet;
mod internet6;
mod link_type;
mod offer;
mod pcap;
mod pcapng;
mod pcapng_block;
mod print_fault;
mod record;
mod segment;
mod side_text;
mod stream;
mod time_unit;

pub use byte_order::at_most;
pub use capture::{Capture, read_capture};
pub use capture_reader::CaptureReader;
pub use capture_text::print_capture;
pub use connection::{Connection, Piece, Sender};
pub use fault::CaptureFault;
pub use link_type::LinkType;
pub use print_fault::PrintFault;
pub use record::{Frame, Record};
