//! A filter's end of a connection over a reader and a writer.

ghost use Rattle.std.specs.Prelude.{◌≡◌, ◌<◌, ◌↔◌, [], IfErr, IfOk, IsTrue, OnOk, length, true};
ghost use Rattle.milter_fields.specs.Stream.{IsUnfinished};
ghost use Rattle.milter_protocol.specs.declared.filter_fault.FilterState.TheVariants.{Quit, Serving};
ghost use Rattle.milter_protocol.specs.declared.stage_order.CommandOrder.TheVariants.{Strict};
ghost use Rattle.milter_filter.specs.Cores.{fresh_core_in};
ghost use Rattle.milter_filter.specs.ServedConnections.{Serves};
ghost use Rattle.milter_filter.specs.ServedPieces.{CutOff, PieceServed, Writes};

use crate::filter_core::FilterCore;
use crate::output::write_now;
use crate::turn::Served;
use milter_filter_stream::Policy;
use milter_protocol::{CommandOrder, FilterFault, FilterState};
use milter_wire::{NoMemory, READ_LEN_MAX, read_buffer};
use std::alloc::Global;
use std::io::{Read, Write};
use std::marker::Model;

/// The most reads of one connection.
const READS_MAX: u64 = 1_073_741_824;

/// The numbers of serving: the most bytes that are read at once, and the most reads of one connection.
pub fn serving_limits()
    ensures piece { READ_LEN_MAX ≡ 65536 }
    ensures reads { READS_MAX ≡ 1073741824 }
{}

/// Serves one connection: reads what the mail server sends, at most 65,536 bytes at once, and writes what the policy
/// replies, until the mail server quits, the input ends, or one of the faults of [`Served`]. All replies to what was
/// read are written before more is read, each write is given all that waits, and no call that failed is made again. It
/// neither flushes the writer nor closes either end. `Served::Failed` with `FilterFault::NoMemory` comes also where the
/// memory for the bytes that are read was refused.
pub fn serve<P: Policy, R: Read, W: Write>(
    alloc: Global,
    policy: &P,
    reader: &mut R,
    writer: &mut W,
) -> Served
    ensures { Serves Strict (P.behavior policy.now) (R.remaining reader.old) (R.remaining reader.new)
        (W.contents writer.old) (W.contents writer.new) result }
{
    serve_in_order(alloc, policy, CommandOrder::Strict, reader, writer)
}

/// Serves one connection as [`serve`] does, and takes commands in this order.
pub fn serve_in_order<P: Policy, R: Read, W: Write>(
    alloc: Global,
    policy: &P,
    order: CommandOrder,
    reader: &mut R,
    writer: &mut W,
) -> Served
    ensures { Serves order (P.behavior policy.now) (R.remaining reader.old) (R.remaining reader.new)
        (W.contents writer.old) (W.contents writer.new) result }
{
    let mut server = Server::new(alloc, policy, order);
    server.serve(reader, writer)
}

/// Serves connections one after another by a policy, and takes commands in one order. It takes memory for the first:
/// room for one packet, 65,540 bytes, and for what is read at once, 65,536. What serves the next is as one of which
/// nothing has come, in the same memory.
#[derive(Drop)]
pub struct Server<'p, P: Policy> {
    alloc: Global,
    policy: &'p P,
    order: CommandOrder,
    kept: Option<BufferedCore<'p, P>>,
}

impl<'p, P: Policy> Model for Server<'p, P> {
    ghost use Rattle.milter_filter.specs.ServedConnections.{ServedBy};

    ghost Value = { ServedBy P };

    ghost view = { λ s. record { policy = s.policy.now; order = s.order } };
}

impl<'p, P: Policy> Server<'p, P> {
    /// It has served no connection yet. Doesn't allocate.
    pub fn new(alloc: Global, policy: &'p P, order: CommandOrder) -> Self
        ensures { result ≡ record { policy = policy.now; order = order } }
    {
        Server {
            alloc,
            policy,
            order,
            kept: None,
        }
    }

    /// Serves one connection as [`serve_in_order`] does. Where memory was refused for one, the next takes it.
    pub fn serve<R: Read, W: Write>(&mut self, reader: &mut R, writer: &mut W) -> Served
        ensures same { self.new ≡ self.old }
        ensures serves { Serves self.old.order (P.behavior self.old.policy) (R.remaining reader.old)
            (R.remaining reader.new) (W.contents writer.old) (W.contents writer.new) result }
    {
        let Ok(mut core) = self.take_core() else {
            return Served::Failed(FilterFault::NoMemory);
        };
        let served = core.serve(self.policy, self.order, reader, writer);
        self.kept = Some(core);
        served
    }

    /// The core that served the connection before, or a new one.
    fn take_core(&mut self) -> Result<BufferedCore<'p, P>, NoMemory>
        ensures { self.new ≡ self.old }
    {
        match self.kept.take() {
            Some(core) => Ok(core),
            None => BufferedCore::new(self.alloc, self.policy, self.order),
        }
    }
}

/// A core, and the buffer that its input is read into.
#[derive(Drop)]
struct BufferedCore<'p, P: Policy> {
    core: FilterCore<'p, P>,
    buffer: Vec<u8>,
}

impl<'p, P: Policy> Model for BufferedCore<'p, P> {
    ghost use Rattle.std.specs.Prelude.{◌<◌, length};
    ghost use Rattle.milter_filter.specs.Cores.{Core};

    ghost Value = { Core P };

    ghost view = { λ b. b.core };

    ghost invariant = { λ b. 0 < length b.buffer.items };
}

impl<'p, P: Policy> BufferedCore<'p, P> {
    /// For a first connection.
    fn new(alloc: Global, policy: &'p P, order: CommandOrder) -> Result<Self, NoMemory>
        ensures { IfOk result (λ core. core ≡ fresh_core_in order policy.now) }
    {
        let buffer = read_buffer(alloc)?;
        let core = FilterCore::with_order(alloc, policy, order)?;
        Ok(BufferedCore { core, buffer })
    }

    /// Serves a connection of which nothing has come.
    fn serve<R: Read, W: Write>(
        &mut self,
        policy: &'p P,
        order: CommandOrder,
        reader: &mut R,
        writer: &mut W,
    ) -> Served
        ensures { Serves order (P.behavior policy.now) (R.remaining reader.old) (R.remaining reader.new)
            (W.contents writer.old) (W.contents writer.new) result }
    {
        let BufferedCore { core, buffer } = self;
        core.restart(policy, order);
        serve_reads(core, buffer.as_mut_slice(), reader, writer)
    }
}

/// Serves a connection of which nothing has come.
fn serve_reads<P: Policy, R: Read, W: Write>(
    core: &mut FilterCore<'_, P>,
    buffer: &mut [u8],
    reader: &mut R,
    writer: &mut W,
) -> Served
    requires fresh { core.old ≡ fresh_core_in core.old.order_state.order core.old.policy }
    requires room { 0 < length buffer.old }
    ensures { Serves core.old.order_state.order (P.behavior core.old.policy) (R.remaining reader.old)
        (R.remaining reader.new) (W.contents writer.old) (W.contents writer.new) result }
{
    for _ in 0..READS_MAX {
        let Ok(count) = reader.read(buffer) else {
            return Served::ReadFault;
        };
        if count == 0 {
            return Served::Ended(core.unread());
        }
        if let Err(end) = serve_piece(core, &buffer[..count], writer) {
            return end;
        }
        if has_quit(core) {
            return Served::Quit;
        }
    }
    Served::TurnLimit
}

/// Whether the mail server has quit.
fn has_quit<P: Policy>(core: &FilterCore<'_, P>) -> bool
    ensures { IsTrue result ↔ (core.now.order_state.state ≡ Quit) }
{
    matches!(core.state(), FilterState::Quit)
}

/// Takes a piece of the input and writes all replies to it, or answers how serving ended in it.
fn serve_piece<P: Policy, W: Write>(
    core: &mut FilterCore<'_, P>,
    piece: &[u8],
    writer: &mut W,
) -> Result<(), Served>
    requires serving { core.old.order_state.state ≡ Serving }
    requires nothing_pending { core.old.pending ≡ [] }
    requires unfinished { IsUnfinished core.old.unread }
    ensures served { OnOk result (PieceServed (P.behavior core.old.policy) core.old piece.now core.new
        (W.contents writer.old) (W.contents writer.new)) }
    ensures cut_off { IfErr result (λ end. CutOff (P.behavior core.old.policy) core.old piece.now
        (W.contents writer.old) (W.contents writer.new) end) }
{
    let mut taken = 0;
    while taken < piece.len() {
        match core.feed(&piece[taken..]) {
            Ok(count) => taken += count,
            Err(fault) => return Err(Served::Failed(fault)),
        }
        if !write_pending(core, writer) {
            return Err(Served::WriteFault);
        }
    }
    Ok(())
}

/// Writes what waits to be sent, and answers whether all of it was written.
fn write_pending<P: Policy, W: Write>(core: &mut FilterCore<'_, P>, writer: &mut W) -> bool
    ensures writes { Writes core.old.pending core.new.pending (W.contents writer.old) (W.contents writer.new) }
    ensures rest { core.new ≡ record core.old { pending = core.new.pending } }
    ensures whole { result ≡ true → core.new.pending ≡ [] }
{
    let count = core.pending().len();
    let written = write_now(core.pending(), writer);
    core.sent(written.count);
    written.count == count
}
