//! What a filter's end does with a piece of a stream.

ghost use Rattle.std.specs.Prelude.{◌≡◌, ◌≢◌, ◌≤◌, ◌<◌, ◌++◌, [], IfErr, IfOk, OnErr, length, take};
ghost use Rattle.milter_fields.specs.FirstPacket.{fed_len};
ghost use Rattle.milter_fields.specs.Stream.{IsUnfinished};
ghost use Rattle.milter_filter_stream.specs.Asking.{FailsIn, IsReady, StopsAt, TakesBytes, TakesPacket};

use crate::asker::Asker;
use crate::wants::WantsRef;
use milter_protocol::FilterFault;
use milter_wire::{HEAD_LEN, NoMemory, Packet, Splitter};

/// Takes bytes of a piece up to the end of one packet, asks about the packet or replies to it if it is whole, and
/// answers how many bytes were taken. A packet that is whole in the piece is read where it lies.
fn feed_packet(
    wants: &WantsRef<'_>,
    splitter: &mut Splitter,
    asker: &mut Asker,
    piece: &[u8],
) -> Result<usize, FilterFault>
    requires { IsReady asker.old splitter.old }
    ensures { TakesPacket wants.now asker.old splitter.old piece.now result asker.new
        splitter.new }
{
    if splitter.unread() == 0 {
        if let Some(packet) = Packet::first_of(piece) {
            if let Err(fault) = asker.on_packet(wants, &packet) {
                return Err(fault);
            }
            return Ok(packet.payload.len() + HEAD_LEN);
        }
    }
    feed_through_splitter(wants, splitter, asker, piece)
}

/// The same by way of the splitter's buffer.
fn feed_through_splitter(
    wants: &WantsRef<'_>,
    splitter: &mut Splitter,
    asker: &mut Asker,
    piece: &[u8],
) -> Result<usize, FilterFault>
    requires { IsReady asker.old splitter.old }
    ensures { TakesPacket wants.now asker.old splitter.old piece.now result asker.new
        splitter.new }
{
    let taken = feed_or_clear(splitter, piece)?;
    match splitter.next() {
        Ok(None) => {}
        Ok(Some(packet)) => {
            if let Err(fault) = asker.on_packet(wants, &packet) {
                return Err(fault);
            }
        }
        Err(fault) => return Err(FilterFault::Wire(fault)),
    }
    Ok(taken)
}

/// Feeds the splitter; where memory is refused nothing stays unread.
fn feed_or_clear(splitter: &mut Splitter, piece: &[u8]) -> Result<usize, NoMemory>
    ensures count { IfOk result (λ n. n ≡ fed_len splitter.old piece.now) }
    ensures taken { IfOk result (λ n. splitter.new ≡ splitter.old ++ take n piece.now) }
    ensures within { IfOk result (λ n. n ≤ length piece.now) }
    ensures progress { IsUnfinished splitter.old → piece.now ≢ [] → IfOk result (λ n. 0 < n) }
    ensures err { OnErr result (splitter.new ≡ []) }
{
    match splitter.feed(piece) {
        Ok(count) => Ok(count),
        Err(refused) => {
            splitter.clear();
            Err(refused)
        }
    }
}

/// Takes bytes of a piece up to the end of the first packet that has replies or a question, or of one with which the
/// mail server quits, or else all of them, and answers how many.
pub(crate) fn feed_piece(
    wants: &WantsRef<'_>,
    splitter: &mut Splitter,
    asker: &mut Asker,
    piece: &[u8],
) -> Result<usize, FilterFault>
    requires ready { IsReady asker.old splitter.old }
    requires nothing_pending { asker.old.pending ≡ [] }
    ensures takes { IfOk result (λ n. TakesBytes wants.now asker.old splitter.old piece.now n
        asker.new splitter.new) }
    ensures stops { IfOk result (λ n. StopsAt wants.now asker.old splitter.old piece.now n
        asker.new) }
    ensures fails { IfErr result (λ fault. FailsIn wants.now asker.old.state splitter.old
        piece.now fault splitter.new) }
{
    let mut taken = 0;
    while taken < piece.len() {
        let more = match feed_packet(wants, splitter, asker, &piece[taken..]) {
            Ok(more) => more,
            Err(fault) => return Err(fault),
        };
        taken += more;
        if !asker.takes_more() {
            return Ok(taken);
        }
    }
    Ok(taken)
}
