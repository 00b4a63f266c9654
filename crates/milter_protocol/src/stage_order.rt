//! The order in which the stages of a connection and of its messages come.

ghost use Rattle.std.specs.Prelude.{◌≡◌, ◌≤◌};
ghost use Rattle.milter_protocol.specs.StageOrder.{may_follow, may_repeat, rank_of};

use milter_wire::Stage;

/// The order in which a filter's end takes commands, where a mail server departs from that of the stages: its client
/// greets again within a message, is cut off, or says DATA again.
#[derive(Clone, Copy, Debug, PartialEq, Eq)]
pub enum CommandOrder {
    /// A greeting or a sender within a message is out of order, and the connection is given up for that. A message ends
    /// with the refusal of its DATA command.
    Strict,
    /// A greeting or a sender within a message, or the macros of one, ends the message as an abort before it would, and
    /// is taken then; libmilter does so too. A DATA command that is refused within a message is undone: what was shown
    /// before it stays, since the client may name more recipients and say DATA again.
    Lenient,
}

/// The place of a stage among the nine, from 1 for connect to 9 for the end of a message. Doesn't allocate. Source:
/// the libmilter callback documentation (order of callbacks).
pub fn rank_of(stage: Stage) -> u8
    ensures rank { result ≡ rank_of stage }
    ensures bound { result ≤ 9 }
{
    match stage {
        Stage::Connect => 1,
        Stage::Helo => 2,
        Stage::Mail => 3,
        Stage::Rcpt => 4,
        Stage::DataCmd => 5,
        Stage::Header => 6,
        Stage::Eoh => 7,
        Stage::Body => 8,
        Stage::Eob => 9,
    }
}

/// Whether a stage may come after the stage of this rank, where 0 stands for none: a stage of a higher rank may, and
/// greetings, recipients, header fields and chunks of a body may follow their own kind. Doesn't allocate. Source: the
/// libmilter callback documentation (order of callbacks).
pub fn may_follow(last: u8, stage: Stage) -> bool
    ensures { result ≡ may_follow last stage }
{
    if may_repeat(stage) {
        last <= rank_of(stage)
    } else {
        last < rank_of(stage)
    }
}

/// Whether a stage may follow its own kind.
fn may_repeat(stage: Stage) -> bool
    ensures { result ≡ may_repeat stage }
{
    match stage {
        Stage::Helo | Stage::Rcpt | Stage::Header | Stage::Body => true,
        _ => false,
    }
}
