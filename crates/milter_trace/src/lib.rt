//! Traces: conversations between a mail server and a filter as lines of hexadecimal digits.
//!
//! [`trace_run`] reads a trace and writes a line for each packet of either direction, with its fields. Where the trace
//! ends before its input, a [`TraceFault`] says why. A [`PacketTrace`] prints the packets of a connection as their
//! bytes come. What both are made of, a line and the line of a packet, is for those who read traces otherwise.
#![tactic(auto)]

mod direction;
mod fault;
mod fields;
mod form;
mod line_assembler;
mod packet_line;
mod packet_stream;
mod packet_trace;
mod trace;
mod trace_line;
mod trace_printer;

pub use direction::Direction;
pub use fault::TraceFault;
pub use form::TraceForm;
pub use packet_line::{put_packet, put_packet_as};
pub use packet_stream::packet_fault;
pub use packet_trace::PacketTrace;
pub use trace::{trace_limits, trace_run, trace_run_as};
pub use trace_line::{UndecodedLine, line_end, parse_line};
pub use trace_printer::decode_digits;
