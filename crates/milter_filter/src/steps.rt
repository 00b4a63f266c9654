//! The steps of a turn.

ghost use Rattle.std.specs.Prelude.{◌≡◌, ◌≢◌, ◌≤◌, ◌<◌, List, Option, ℕ, [], IfErr, IfOk, OnErr, OnOk, Some, drop, length};
ghost use Rattle.std.specs.Io.KnownBytes.{Consumes};
ghost use Rattle.milter_wire.specs.declared.stage.Stage.{Stage as At};
ghost use Rattle.milter_protocol.specs.Questions.{IsTaking};
ghost use Rattle.milter_filter.specs.declared.turn.Served.TheVariants.{Quit, WriteFault};
ghost use Rattle.milter_filter.specs.declared.turn.Turn.TheVariants as turns;
ghost use Rattle.milter_filter.specs.ServedPieces.{Writes};
ghost use Rattle.milter_filter.specs.Connections.{EndsBy, GoesBy, IsDone, IsOver, IsServing, ReadsWhereDone, StandsAt, Stops, TurnsBy, connected};

use crate::filter_connection::FilterConnection;
use crate::output::write_now;
use crate::turn::{Served, Turn};
use milter_fields::ByteQueue;
use milter_filter_stream::NextStep;
use milter_protocol::FilterFault;
use std::io::{ErrorKind, Read, Write};

/// Writes what is pending, as much as is written now.
fn write_pending<W: Write>(filter: &mut FilterConnection, writer: &mut W) -> Result<(), Served>
    ensures writes { Writes filter.old.pending filter.new.pending (W.contents writer.old) (W.contents writer.new) }
    ensures rest { filter.new ≡ record filter.old { pending = filter.new.pending } }
    ensures fault { IfErr result (λ end. end ≡ WriteFault) }
{
    let written = write_now(filter.pending(), writer);
    filter.sent(written.count);
    if written.failed {
        return Err(Served::WriteFault);
    }
    Ok(())
}

/// Takes bytes of a piece and writes the replies to them, until the piece is at its end, a reply stays pending or a
/// question is open; answers how many bytes it took, or how the connection ended in it.
fn feed_piece<W: Write>(
    filter: &mut FilterConnection,
    piece: &[u8],
    writer: &mut W,
) -> Result<usize, Served>
    requires serving { IsServing filter.old }
    requires taking { IsTaking filter.old.state }
    requires nothing_pending { filter.old.pending ≡ [] }
    ensures within { IfOk result (λ n. n ≤ length piece.now) }
    ensures goes { IfOk result (λ n. (rest : Option (List ℕ)) → GoesBy (connected filter.old piece.now) rest rest
        (W.contents writer.old) (W.contents writer.new) (connected filter.new (drop n piece.now))) }
    ensures stops { IfOk result (λ n. Stops filter.new (drop n piece.now)) }
    ensures ends { IfErr result (λ end. (rest : Option (List ℕ)) → EndsBy (connected filter.old piece.now) rest rest
        (W.contents writer.old) (W.contents writer.new) end) }
{
    let mut taken = 0;
    while taken < piece.len() {
        match filter.feed(&piece[taken..]) {
            Ok(count) => taken += count,
            Err(fault) => return Err(Served::Failed(fault)),
        }
        if let Err(end) = write_pending(filter, writer) {
            return Err(end);
        }
        match filter.next_step() {
            NextStep::Feed => {}
            _ => return Ok(taken),
        }
    }
    Ok(taken)
}

/// How a turn goes on or ends after what could be taken was taken, or that the mail server has quit.
fn turn_after(filter: &FilterConnection) -> Result<Turn, Served>
    ensures stands { IfOk result (λ turn. StandsAt filter.now turn) }
    ensures over { IfErr result (λ end. (end ≡ Quit) × IsOver filter.now) }
{
    match filter.next_step() {
        NextStep::Send => Ok(Turn::AwaitsOutput),
        NextStep::Answer(stage) => Ok(Turn::AwaitsAnswer(stage)),
        NextStep::Feed => Ok(Turn::Again),
        NextStep::Done => Err(Served::Quit),
    }
}

/// Takes what was read before.
fn feed_backlog<W: Write>(
    filter: &mut FilterConnection,
    backlog: &mut ByteQueue,
    writer: &mut W,
) -> Result<Turn, Served>
    requires serving { IsServing filter.old }
    requires taking { IsTaking filter.old.state }
    requires nothing_pending { filter.old.pending ≡ [] }
    ensures turns { IfOk result (λ turn. (rest : Option (List ℕ)) → TurnsBy (connected filter.old backlog.old) rest rest
        (W.contents writer.old) (W.contents writer.new) (connected filter.new backlog.new) turn) }
    ensures ends { IfErr result (λ end. (rest : Option (List ℕ)) → EndsBy (connected filter.old backlog.old) rest rest
        (W.contents writer.old) (W.contents writer.new) end) }
{
    let taken = match feed_piece(filter, backlog.as_slice(), writer) {
        Ok(taken) => taken,
        Err(end) => return Err(end),
    };
    backlog.advance(taken);
    turn_after(filter)
}

/// Writes the replies that are pending and takes what was read before. Where a question is open it takes nothing.
fn catch_up<W: Write>(
    filter: &mut FilterConnection,
    backlog: &mut ByteQueue,
    writer: &mut W,
) -> Result<Turn, Served>
    requires { IsServing filter.old }
    ensures turns { IfOk result (λ turn. (rest : Option (List ℕ)) → TurnsBy (connected filter.old backlog.old) rest rest
        (W.contents writer.old) (W.contents writer.new) (connected filter.new backlog.new) turn) }
    ensures ends { IfErr result (λ end. (rest : Option (List ℕ)) → EndsBy (connected filter.old backlog.old) rest rest
        (W.contents writer.old) (W.contents writer.new) end) }
    ensures asked { (stage : At) → filter.old.state.asked ≡ Some stage → IfOk result (λ turn. turn ≢ turns.Again) }
{
    if let Err(end) = write_pending(filter, writer) {
        return Err(end);
    }
    match filter.next_step() {
        NextStep::Feed => feed_backlog(filter, backlog, writer),
        _ => turn_after(filter),
    }
}

/// Takes a piece that was read, and keeps what it can't take while replies are pending or a question is open.
fn feed_read<W: Write>(
    filter: &mut FilterConnection,
    backlog: &mut ByteQueue,
    piece: &[u8],
    writer: &mut W,
) -> Result<Turn, Served>
    requires serving { IsServing filter.old }
    requires done { IsDone (connected filter.old backlog.old) }
    ensures turns { IfOk result (λ turn. (unread left : Option (List ℕ)) → Consumes unread left piece.now →
        TurnsBy (connected filter.old backlog.old) unread left
        (W.contents writer.old) (W.contents writer.new) (connected filter.new backlog.new) turn) }
    ensures ends { IfErr result (λ end. (unread left : Option (List ℕ)) → Consumes unread left piece.now →
        EndsBy (connected filter.old backlog.old) unread left
        (W.contents writer.old) (W.contents writer.new) end) }
{
    let taken = match feed_piece(filter, piece, writer) {
        Ok(taken) => taken,
        Err(end) => return Err(end),
    };
    if let Err(_) = backlog.append(&piece[taken..]) {
        return Err(Served::Failed(FilterFault::NoMemory));
    }
    turn_after(filter)
}

/// Reads once, where all is done, and takes what was read.
fn read_once<R: Read, W: Write>(
    filter: &mut FilterConnection,
    backlog: &mut ByteQueue,
    buffer: &mut [u8],
    reader: &mut R,
    writer: &mut W,
) -> Result<Turn, Served>
    requires room { 0 < length buffer.old }
    requires serving { IsServing filter.old }
    requires done { IsDone (connected filter.old backlog.old) }
    ensures turns { IfOk result (λ turn. TurnsBy (connected filter.old backlog.old)
        (R.remaining reader.old) (R.remaining reader.new) (W.contents writer.old) (W.contents writer.new)
        (connected filter.new backlog.new) turn) }
    ensures ends { IfErr result (λ end. EndsBy (connected filter.old backlog.old)
        (R.remaining reader.old) (R.remaining reader.new) (W.contents writer.old) (W.contents writer.new) end) }
{
    match reader.read(buffer) {
        Ok(0) => Err(Served::Ended(filter.unread())),
        Ok(count) => feed_read(filter, backlog, &buffer[..count], writer),
        Err(error) => match error.kind() {
            ErrorKind::WouldBlock => Ok(Turn::AwaitsInput),
            _ => Err(Served::ReadFault),
        },
    }
}

/// Runs a turn: catches up, and then reads where all is done.
pub(crate) fn run_turn<R: Read, W: Write>(
    filter: &mut FilterConnection,
    backlog: &mut ByteQueue,
    buffer: &mut [u8],
    reader: &mut R,
    writer: &mut W,
) -> Result<Turn, Served>
    requires room { 0 < length buffer.old }
    requires serving { IsServing filter.old }
    ensures turns { IfOk result (λ turn. TurnsBy (connected filter.old backlog.old)
        (R.remaining reader.old) (R.remaining reader.new) (W.contents writer.old) (W.contents writer.new)
        (connected filter.new backlog.new) turn) }
    ensures ends { IfErr result (λ end. EndsBy (connected filter.old backlog.old)
        (R.remaining reader.old) (R.remaining reader.new) (W.contents writer.old) (W.contents writer.new) end) }
    ensures reads { ReadsWhereDone (connected filter.old backlog.old)
        (R.remaining reader.old) (R.remaining reader.new) (W.contents writer.old) }
    ensures asked { (stage : At) → filter.old.state.asked ≡ Some stage →
        R.remaining reader.new ≡ R.remaining reader.old }
{
    match catch_up(filter, backlog, writer) {
        Ok(Turn::Again) => read_once(filter, backlog, buffer, reader, writer),
        Ok(turn) => Ok(turn),
        Err(end) => Err(end),
    }
}
