//! The numbers of stages, steps, states and verdicts.

ghost use Rattle.std.specs.Prelude.{◌≡◌, option_map};
ghost use Rattle.milter_c_objects.specs.Numbers.{stage_number, state_status_of, step_number, verdict_numbered};
ghost use Rattle.milter_fields.specs.Borrowed.{origin_of};
ghost use Rattle.milter_c_objects.specs.Origins.{origin_numbered};

use crate::faults::filter_fault_number;
use crate::status::{
    ACCEPT, CONTINUE, DISCARD, FAMILY_INET, FAMILY_INET6, FAMILY_UNIX, FAMILY_UNKNOWN, NOTHING, OK,
    REJECT, SKIP, STAGE_BODY, STAGE_CONNECT, STAGE_DATA, STAGE_EOB, STAGE_EOH, STAGE_HEADER,
    STAGE_HELO, STAGE_MAIL, STAGE_RCPT, STEP_ANSWER, STEP_DONE, STEP_FEED, STEP_SEND, TEMPFAIL,
};
use milter_fields::OriginRef;
use milter_filter_stream::NextStep;
use milter_protocol::FilterState;
use milter_wire::{Stage, Verdict};

/// The number of a stage. Doesn't allocate.
pub fn stage_number(stage: Stage) -> u32
    ensures { result ≡ stage_number stage }
{
    match stage {
        Stage::Connect => STAGE_CONNECT,
        Stage::Helo => STAGE_HELO,
        Stage::Mail => STAGE_MAIL,
        Stage::Rcpt => STAGE_RCPT,
        Stage::DataCmd => STAGE_DATA,
        Stage::Header => STAGE_HEADER,
        Stage::Eoh => STAGE_EOH,
        Stage::Body => STAGE_BODY,
        Stage::Eob => STAGE_EOB,
    }
}

/// The number of a step. Doesn't allocate.
pub fn step_number(step: NextStep) -> i32
    ensures { result ≡ step_number step }
{
    match step {
        NextStep::Feed => STEP_FEED,
        NextStep::Send => STEP_SEND,
        NextStep::Answer(_) => STEP_ANSWER,
        NextStep::Done => STEP_DONE,
    }
}

/// Whether a connection goes on, as a number. Doesn't allocate.
pub fn state_status(state: FilterState) -> i32
    ensures { result ≡ state_status_of state }
{
    match state {
        FilterState::Serving => OK,
        FilterState::Quit => NOTHING,
        FilterState::Failed(fault) => filter_fault_number(fault),
    }
}

/// The verdict of a number, which is none with a text. Doesn't allocate.
pub fn verdict_numbered(number: u32) -> Option<Verdict>
    ensures { result ≡ verdict_numbered number }
{
    match number {
        CONTINUE => Some(Verdict::Continue),
        ACCEPT => Some(Verdict::Accept),
        REJECT => Some(Verdict::Reject),
        TEMPFAIL => Some(Verdict::Tempfail),
        DISCARD => Some(Verdict::Discard),
        SKIP => Some(Verdict::Skip),
        _ => None,
    }
}

/// Where a client connects from, by the number of the family of its address. Doesn't allocate.
pub fn origin_numbered(family: u32, port: u16, address: &[u8]) -> Option<OriginRef<'_>>
    ensures { option_map origin_of result ≡ origin_numbered family port address.now }
{
    match family {
        FAMILY_UNKNOWN => Some(OriginRef::Unknown),
        FAMILY_UNIX => Some(OriginRef::Unix { port, address }),
        FAMILY_INET => Some(OriginRef::Inet { port, address }),
        FAMILY_INET6 => Some(OriginRef::Inet6 { port, address }),
        _ => None,
    }
}
