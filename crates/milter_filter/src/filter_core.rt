//! A filter's end of a connection, over any policy.

ghost use Rattle.std.specs.Prelude.{◌≡◌, ◌≢◌, ◌≤◌, ◌++◌, [], Err, IfErr, IfOk, None, Ok, OnErr, OnOk, Some, drop, length};
ghost use Rattle.milter_protocol.specs.declared.filter_fault.FilterFault.{FilterFault as Fault};
ghost use Rattle.milter_protocol.specs.declared.filter_fault.FilterFault.TheVariants as faults;
ghost use Rattle.milter_protocol.specs.declared.filter_fault.FilterState.TheVariants.{Failed, Quit, Serving};
ghost use Rattle.milter_protocol.specs.Questions.{answer_step, wanted_of};
ghost use Rattle.milter_filter_stream.specs.Conversations.{failed_stream, stream_by};
ghost use Rattle.milter_filter_stream.specs.Streams.{received_in};

use crate::policy::answer_at_once;
use milter_filter_stream::{FilterStream, Policy, WantsRef};
use milter_protocol::{CommandOrder, FilterFault, FilterState};
use milter_wire::{NoMemory, Stage};
use std::alloc::Global;
use std::marker::Model;

/// A filter's end of one connection. It takes the bytes of a mail server in any pieces, and has the bytes of the
/// replies that its policy calls for, by what was negotiated. It neither reads nor writes.
#[derive(Drop)]
pub struct FilterCore<'p, P: Policy> {
    alloc: Global,
    policy: &'p P,
    wants: WantsRef<'p>,
    stream: FilterStream,
}

impl<'p, P: Policy> Model for FilterCore<'p, P> {
    ghost use Rattle.std.specs.Prelude.{◌≡◌, None};
    ghost use Rattle.milter_filter.specs.Cores.{Core};
    ghost use Rattle.milter_protocol.specs.Questions.{wanted_of};

    ghost Value = { Core P };

    ghost view = { λ c. record {
      policy = c.policy.now;
      order_state = c.stream.state.order_state;
      unread = c.stream.unread;
      pending = c.stream.pending;
    } };

    ghost invariant = { λ c. (c.wants ≡ wanted_of (P.behavior c.policy.now))
        × (c.stream.state.asked ≡ None) };
}

impl<'p, P: Policy> FilterCore<'p, P> {
    ghost use Rattle.milter_filter.specs.Cores.{GivesUp, Takes, fresh_core, fresh_core_in, given_up};

    /// A connection of which nothing has come, and which takes commands in the strict order. It always answers `Ok`,
    /// and doesn't allocate.
    pub fn new(alloc: Global, policy: &'p P) -> Result<Self, NoMemory>
        ensures { result ≡ Ok (fresh_core policy.now) }
    {
        FilterCore::with_order(alloc, policy, CommandOrder::Strict)
    }

    /// A connection of which nothing has come, and which takes commands in this order. It always answers `Ok`, and
    /// doesn't allocate. Source: libmilter (the states that may follow one another).
    pub fn with_order(alloc: Global, policy: &'p P, order: CommandOrder) -> Result<Self, NoMemory>
        ensures { result ≡ Ok (fresh_core_in order policy.now) }
    {
        Ok(FilterCore {
            alloc,
            policy,
            wants: wants_of(policy),
            stream: FilterStream::new(alloc, order),
        })
    }

    /// Begins again for another connection, of which nothing has come. Nothing of the former one is left in it but
    /// memory: room for one packet, and what was taken for up to 65,536 bytes that were shown at once and for as many
    /// of replies; where it was more it is given up. Doesn't allocate.
    pub fn restart(&mut self, policy: &'p P, order: CommandOrder)
        ensures { self.new ≡ fresh_core_in order policy.now }
    {
        self.policy = policy;
        self.wants = wants_of(policy);
        self.stream.restart(order);
    }

    /// The policy that it has. Doesn't allocate.
    pub fn policy(&self) -> &'p P
        ensures { result.now ≡ self.now.policy }
    {
        self.policy
    }

    /// The bytes of replies that wait to be sent. Doesn't allocate.
    pub fn pending(&self) -> &[u8]
        ensures { result.now ≡ self.now.pending }
    {
        self.stream.pending()
    }

    /// Notes that the first `count` bytes of what waits were sent. Doesn't allocate.
    pub fn sent(&mut self, count: usize)
        requires { count ≤ length self.old.pending }
        ensures { self.new ≡ record self.old { pending = drop count self.old.pending } }
    {
        self.stream.sent(count);
    }

    /// How many bytes were taken and not handed out: those of a packet that isn't whole yet, or after a length at fault
    /// its four bytes; none after the mail server has quit, and none after any other fault. Doesn't allocate.
    pub fn unread(&self) -> usize
        ensures { result ≡ length self.now.unread }
    {
        self.stream.unread()
    }

    /// Whether it goes on. Doesn't allocate.
    pub fn state(&self) -> FilterState
        ensures { result ≡ self.now.order_state.state }
    {
        self.stream.state()
    }

    /// Takes bytes from the start of a piece of what the mail server sends, and answers how many. While replies wait
    /// to be sent it takes none. Else it takes bytes up to the end of the first packet that has replies, or all where
    /// none has; after the mail server has quit it takes all and does nothing with them. After a fault nothing is kept
    /// but that and the four bytes of a length at fault, and every later call answers it again and takes nothing.
    /// Source: mfdef.h, and the libmilter callback documentation.
    pub fn feed(&mut self, piece: &[u8]) -> Result<usize, FilterFault>
        ensures failed { (fault : Fault) → self.old.order_state.state ≡ Failed fault →
            (result ≡ Err fault) × (self.new ≡ self.old) }
        ensures quit { self.old.order_state.state ≡ Quit → (result ≡ Ok (length piece.now)) × (self.new ≡ self.old) }
        ensures waits { self.old.order_state.state ≡ Serving → self.old.pending ≢ [] →
            (result ≡ Ok 0) × (self.new ≡ self.old) }
        ensures takes { self.old.order_state.state ≡ Serving → self.old.pending ≡ [] →
            IfOk result (λ n. Takes (P.behavior self.old.policy) self.old piece.now n self.new) }
        ensures gives_up { self.old.order_state.state ≡ Serving →
            IfErr result (λ fault. self.new ≡ given_up self.old fault) }
        ensures cause { self.old.order_state.state ≡ Serving → self.old.pending ≡ [] →
            IfErr result (λ fault. fault ≢ faults.NoMemory →
            GivesUp (P.behavior self.old.policy) self.old.order_state (received_in (self.old.unread ++ piece.now))
            fault) }
    {
        match self.stream.state() {
            FilterState::Failed(fault) => Err(fault),
            FilterState::Quit => Ok(piece.len()),
            FilterState::Serving => {
                if !self.stream.pending().is_empty() {
                    return Ok(0);
                }
                self.feed_serving(piece)
            }
        }
    }

    /// Takes bytes of a piece where it serves and nothing waits to be sent.
    #[inline(always)]
    fn feed_serving(&mut self, piece: &[u8]) -> Result<usize, FilterFault>
        requires serving { self.old.order_state.state ≡ Serving }
        requires nothing_pending { self.old.pending ≡ [] }
        ensures takes { IfOk result (λ n. Takes (P.behavior self.old.policy) self.old piece.now n self.new) }
        ensures gives_up { IfErr result (λ fault. self.new ≡ given_up self.old fault) }
        ensures cause { IfErr result (λ fault. fault ≢ faults.NoMemory →
            GivesUp (P.behavior self.old.policy) self.old.order_state (received_in (self.old.unread ++ piece.now))
            fault) }
    {
        let FilterCore {
            alloc,
            policy,
            wants,
            stream,
        } = self;
        let taken = match stream.feed(wants, piece) {
            Ok(taken) => taken,
            Err(fault) => return Err(fault),
        };
        let Some(stage) = stream.asked() else {
            return Ok(taken);
        };
        if let Err(_) = answer_at_once(*alloc, *policy, stream, stage) {
            stream.give_up();
            return Err(FilterFault::NoMemory);
        }
        Ok(taken)
    }
}

/// What the policy wants.
fn wants_of<P: Policy>(policy: &P) -> WantsRef<'_>
    ensures { result ≡ wanted_of (P.behavior policy.now) }
{
    WantsRef::new(policy.wants(), policy.lists())
}
