//! The numbers of faults.

ghost use Rattle.std.specs.Prelude.{◌≡◌, ◌≢◌, IsErr, ◌↔◌};
ghost use Rattle.milter_c_objects.specs.Faults.{answer_status_of, answer_fault_number, filter_fault_number, memory_status_of, wants_fault_number, wire_fault_number};

use crate::status::{
    ANSWER_BAD_TEXT, ANSWER_EDITS_BEFORE_END, ANSWER_NO_MEMORY, ANSWER_NOT_ASKED,
    ANSWER_NOT_AT_END, ANSWER_NOT_GIVEN_THERE, ANSWER_TOO_LONG, ANSWER_TOO_MUCH,
    FILTER_NEGOTIATED_TWICE, FILTER_NO_MEMORY, FILTER_NOT_NEGOTIATED, FILTER_OUT_OF_ORDER,
    FILTER_TOO_MUCH, FILTER_VERSION, FILTER_WIRE, NO_MEMORY, OK, WANTS_ACTION, WANTS_BAD_TEXT,
    WANTS_LISTS, WANTS_PROTOCOL, WANTS_TOO_LONG, WANTS_VERSION, WIRE_MALFORMED, WIRE_NO_MEMORY,
    WIRE_TOO_LONG, WIRE_TRUNCATED, WIRE_UNKNOWN_CODE, WIRE_ZERO_LENGTH,
};
use milter_fields::{NoMemory, WireFault};
use milter_filter_stream::{AnswerFault, WantsFault};
use milter_protocol::FilterFault;

/// The number of a fault of a packet. Doesn't allocate.
pub fn wire_fault_number(fault: WireFault) -> i32
    ensures number { result ≡ wire_fault_number fault }
    ensures fault { result ≢ OK }
{
    match fault {
        WireFault::ZeroLength => WIRE_ZERO_LENGTH,
        WireFault::TooLong(_) => WIRE_TOO_LONG,
        WireFault::UnknownCode(_) => WIRE_UNKNOWN_CODE,
        WireFault::Malformed(_) => WIRE_MALFORMED,
        WireFault::Truncated(_) => WIRE_TRUNCATED,
        WireFault::NoMemory => WIRE_NO_MEMORY,
    }
}

/// The number of a fault for which a filter's end gives a connection up. Doesn't allocate.
pub fn filter_fault_number(fault: FilterFault) -> i32
    ensures { result ≡ filter_fault_number fault }
{
    match fault {
        FilterFault::NotNegotiated => FILTER_NOT_NEGOTIATED,
        FilterFault::Version => FILTER_VERSION,
        FilterFault::OutOfOrder => FILTER_OUT_OF_ORDER,
        FilterFault::TooMuch => FILTER_TOO_MUCH,
        FilterFault::Wire(_) => FILTER_WIRE,
        FilterFault::NegotiatedTwice => FILTER_NEGOTIATED_TWICE,
        FilterFault::NoMemory => FILTER_NO_MEMORY,
    }
}

/// The number of a fault of an answer. Doesn't allocate.
pub fn answer_fault_number(fault: AnswerFault) -> i32
    ensures { result ≡ answer_fault_number fault }
{
    match fault {
        AnswerFault::NotAsked => ANSWER_NOT_ASKED,
        AnswerFault::EditsBeforeEnd => ANSWER_EDITS_BEFORE_END,
        AnswerFault::NotGivenThere => ANSWER_NOT_GIVEN_THERE,
        AnswerFault::BadText => ANSWER_BAD_TEXT,
        AnswerFault::TooLong => ANSWER_TOO_LONG,
        AnswerFault::TooMuch => ANSWER_TOO_MUCH,
        AnswerFault::NotAtEnd => ANSWER_NOT_AT_END,
        AnswerFault::NoMemory => ANSWER_NO_MEMORY,
    }
}

/// The number of a fault of what a filter wants. Doesn't allocate.
pub fn wants_fault_number(fault: WantsFault) -> i32
    ensures { result ≡ wants_fault_number fault }
{
    match fault {
        WantsFault::Version => WANTS_VERSION,
        WantsFault::Action => WANTS_ACTION,
        WantsFault::Protocol => WANTS_PROTOCOL,
        WantsFault::Lists => WANTS_LISTS,
        WantsFault::BadText => WANTS_BAD_TEXT,
        WantsFault::TooLong => WANTS_TOO_LONG,
    }
}

/// What a function answers that may run out of memory and has no other fault. Doesn't allocate.
pub fn memory_status(done: Result<(), NoMemory>) -> i32
    ensures { result ≡ memory_status_of done }
{
    match done {
        Ok(()) => OK,
        Err(NoMemory) => NO_MEMORY,
    }
}

/// What a function answers that gives an answer, or reports progress. Doesn't allocate.
pub fn answer_status(done: Result<(), AnswerFault>) -> i32
    ensures { result ≡ answer_status_of done }
{
    match done {
        Ok(()) => OK,
        Err(fault) => answer_fault_number(fault),
    }
}
