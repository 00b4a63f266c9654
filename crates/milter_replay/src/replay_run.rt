//! A recorded conversation, played to a filter.

ghost use Rattle.std.specs.Prelude.{◌≡◌, ◌∷◌, IfOk, OnErr, OnOk};
ghost use Rattle.milter_wire.specs.Command.{Fits};
ghost use Rattle.milter_replay.specs.Noted.{IsLossNoted};
ghost use Rattle.milter_replay.specs.Recordings.{AllFit};
ghost use Rattle.milter_replay.specs.Sending.{Plays, PlaysPrefix, Sends, SendsSome, bytes_after, bytes_to_send, first_loss, sent_bytes};

use crate::conversation::{Exchange, Recording};
use crate::exchange_text::{is_as_recorded, put_exchange};
use crate::filter_end::{Answer, FilterEnd, is_due};
use milter_mta_outcome::Loss;
use milter_text::{TextFault, write_text};
use milter_wire::Negotiated;
use std::alloc::Global;
use std::io::{Read, Write};

/// How a conversation went that was played again.
#[derive(Debug, Drop)]
pub struct Replayed {
    /// What was negotiated, once the filter replied to the offer.
    pub negotiated: Option<Negotiated>,
    /// The number of the line of the first command that was not answered as it was recorded: with other packets, or
    /// with the loss of the filter. None where there is none.
    pub difference: Option<u64>,
    /// Why the filter was lost, if it was: no command was sent then that comes after.
    pub loss: Option<Loss>,
}

/// Plays the mail server's side of a recorded conversation to a filter, over a connection from which the filter's
/// packets are read, and on which what is sent is written; and writes the lines of the conversation.
///
/// The offer is the recorded one, and the commands follow in order, each once the one before is answered, where a reply
/// to it is due by what is negotiated now. A command that the filter doesn't want to be sent is left out. All else is
/// sent as it was recorded: macros, aborts, unknown commands, and what follows the end of a client's connection.
///
/// A line is that of `milter_trace` after a mark: two blanks before what is sent, and before a reply that is as it was
/// recorded; `- ` before what was recorded, and is not sent or did not come; and `+ ` before a reply that came and was
/// not recorded. Progress is left out. After a command at which the filter was lost a line says why, after `! `.
///
/// The filter is lost with the cause [`Loss::Reset`] where it closed the connection, and where a read or a write fails;
/// with [`Loss::Timeout`] where a read fails with the kind `WouldBlock` or `TimedOut`; with [`Loss::Memory`] where
/// memory is refused for a packet; and with [`Loss::Fault`] where it sends what is no reply to the command.
///
/// The error is that of the lines: they were not all written, or memory was refused for them. Nothing more is sent
/// then.
pub fn replay<R: Read, L: Write, W: Write>(
    alloc: Global,
    recording: &Recording,
    reader: &mut R,
    link: &mut L,
    output: &mut W,
) -> Result<Replayed, TextFault>
    requires { AllFit recording.now.exchanges.items }
    // What is sent are the commands of the trace, in order, but for those that the filter doesn't want now; or a prefix
    // of that, where the filter was lost,
    ensures sent { IfOk result (λ r. Sends (bytes_to_send r.negotiated recording.now.exchanges.items)
        (L.contents link.old) (L.contents link.new) r.loss) }
    // or where the lines were not written.
    ensures cut_off { OnErr result (SendsSome recording.now.exchanges.items
        (L.contents link.old) (L.contents link.new)) }
    // The loss of the filter is a difference.
    ensures lost { IfOk result IsLossNoted }
{
    match recording.exchanges.as_slice() {
        [offer, others @ ..] => {
            let mut filter = FilterEnd::new(alloc, recording.offer)?;
            play_all(alloc, &mut filter, offer, others, reader, link, output)
        }
        [] => Ok(Replayed {
            negotiated: None,
            difference: None,
            loss: None,
        }),
    }
}

/// Plays the offer, and then the other exchanges.
fn play_all<R: Read, L: Write, W: Write>(
    alloc: Global,
    filter: &mut FilterEnd,
    offer: &Exchange,
    others: &[Exchange],
    reader: &mut R,
    link: &mut L,
    output: &mut W,
) -> Result<Replayed, TextFault>
    requires { AllFit (offer.now ∷ others.now) }
    ensures sent { IfOk result (λ r. Sends (bytes_to_send r.negotiated (offer.now ∷ others.now))
        (L.contents link.old) (L.contents link.new) r.loss) }
    ensures cut_off { OnErr result (SendsSome (offer.now ∷ others.now) (L.contents link.old) (L.contents link.new)) }
    ensures lost { IfOk result IsLossNoted }
{
    let mut replayed = Replayed {
        negotiated: None,
        difference: None,
        loss: None,
    };
    let answer = filter.ask(&offer.recorded.command, reader, link);
    replayed.note(offer, &answer);
    write_exchange(alloc, offer, &answer, output)?;
    replayed.negotiated = filter.negotiated()?;
    play_others(alloc, filter, &mut replayed, others, reader, link, output)?;
    Ok(replayed)
}

/// Plays the exchanges after the offer; no more than their lines are written once the filter is lost.
fn play_others<R: Read, L: Write, W: Write>(
    alloc: Global,
    filter: &mut FilterEnd,
    replayed: &mut Replayed,
    exchanges: &[Exchange],
    reader: &mut R,
    link: &mut L,
    output: &mut W,
) -> Result<(), TextFault>
    requires fit { AllFit exchanges.now }
    requires noted { IsLossNoted replayed.old }
    ensures terms { OnOk result (replayed.new.negotiated ≡ replayed.old.negotiated) }
    ensures played { OnOk result (Plays replayed.old.loss (bytes_after replayed.old.negotiated exchanges.now)
        (L.contents link.old) (L.contents link.new) replayed.new.loss) }
    ensures lost { OnOk result (IsLossNoted replayed.new) }
    ensures cut_off { OnErr result (PlaysPrefix replayed.old.loss (bytes_after replayed.old.negotiated exchanges.now)
        (L.contents link.old) (L.contents link.new)) }
{
    for exchange in exchanges {
        let answer = play(filter, replayed, exchange, reader, link);
        replayed.note(exchange, &answer);
        write_exchange(alloc, exchange, &answer, output)?;
    }
    Ok(())
}

/// Plays an exchange after the offer: nothing is sent where the filter was lost before, or doesn't want the command.
fn play<R: Read, L: Write>(
    filter: &mut FilterEnd,
    replayed: &Replayed,
    exchange: &Exchange,
    reader: &mut R,
    link: &mut L,
) -> Answer
    requires { Fits exchange.now.recorded.command }
    ensures { Plays replayed.now.loss (sent_bytes replayed.now.negotiated exchange.now.recorded.command)
        (L.contents link.old) (L.contents link.new) (first_loss replayed.now.loss result.loss) }
{
    let command = &exchange.recorded.command;
    if replayed.loss.is_some() || !is_due(&replayed.negotiated, command) {
        return filter.unasked();
    }
    filter.ask(command, reader, link)
}

impl Replayed {
    ghost use Rattle.milter_replay.specs.Noted.{IsLossNoted};

    /// Notes what came of an exchange.
    fn note(&mut self, exchange: &Exchange, answer: &Answer)
        ensures terms { self.new.negotiated ≡ self.old.negotiated }
        ensures noted { IsLossNoted self.old → IsLossNoted self.new }
        ensures loss { self.new.loss ≡ first_loss self.old.loss answer.now.loss }
    {
        if self.difference.is_none() && !is_as_recorded(exchange, answer) {
            self.difference = Some(exchange.recorded.line);
        }
        if self.loss.is_none() {
            self.loss = answer.loss;
        }
    }
}

/// Writes the lines of an exchange.
fn write_exchange<W: Write>(
    alloc: Global,
    exchange: &Exchange,
    answer: &Answer,
    output: &mut W,
) -> Result<(), TextFault> {
    let mut text = Vec::new(alloc);
    put_exchange(alloc, &mut text, exchange, answer)?;
    write_text(output, text.as_slice())
}
