//! Bytes that move between an end and a pipe.

ghost use Rattle.std.specs.Prelude.{◌≡◌, ◌≢◌, ◌++◌, [], IfOk, None, OnOk, drop, length, take, if◌then◌else◌};
ghost use Rattle.milter_protocol.specs.declared.filter_fault.FilterState.TheVariants.{Serving};
ghost use Rattle.milter_filter.specs.Cores.{Takes};
ghost use Rattle.milter_mta.specs.Replies.{received};
ghost use Rattle.milter_mta.specs.Output.{advanced, pending};
ghost use Rattle.milter_world.specs.Ends.{mta_sent, sent_count};
ghost use Rattle.milter_world.specs.Reached.{CanTake};

use milter_fields::ByteQueue;
use milter_filter::{FilterCore, FilterFault, Policy};
use milter_mta::{Loss, MtaCore};
use milter_wire::NoMemory;

/// Sends at most `count` bytes of the packet that is pending, or of the next one, and answers how many. Where nobody
/// takes them they are dropped.
pub(crate) fn send_bytes(
    mta: &mut MtaCore,
    pipe: &mut ByteQueue,
    is_taken: bool,
    count: usize,
) -> Result<usize, NoMemory>
    ensures sent { IfOk result (λ n. n ≡ sent_count count mta.old) }
    ensures mta { OnOk result (mta.new ≡ mta_sent count mta.old) }
    ensures pipe { OnOk result (pipe.new ≡ (if is_taken
        then pipe.old ++ take (sent_count count mta.old) (pending (advanced mta.old)) else pipe.old)) }
{
    mta.advance()?;
    let count = count.min(mta.pending().len());
    if is_taken {
        pipe.append(&mta.pending()[..count])?;
    }
    mta.sent(count);
    Ok(count)
}

/// Hands at most `count` bytes to the filter, and answers how many it took.
pub(crate) fn feed_filter<P: Policy>(
    filter: &mut FilterCore<'_, P>,
    pipe: &mut ByteQueue,
    count: usize,
) -> Result<usize, NoMemory>
    requires serves { filter.old.order_state.state ≡ Serving }
    requires takes { CanTake (P.behavior filter.old.policy) filter.old (take count pipe.old) }
    ensures count { IfOk result (λ n. n ≡ length (take count pipe.old)) }
    ensures pipe { OnOk result (pipe.new ≡ drop count pipe.old) }
    ensures waits { OnOk result (filter.old.pending ≢ [] → filter.new ≡ filter.old) }
    ensures taken { IfOk result (λ n. filter.old.pending ≡ [] →
        Takes (P.behavior filter.old.policy) filter.old (take count pipe.old) n filter.new) }
{
    let count = count.min(pipe.as_slice().len());
    match filter.feed(&pipe.as_slice()[..count]) {
        Ok(taken) => {
            pipe.advance(taken);
            Ok(taken)
        }
        Err(fault) => match fault {
            FilterFault::NoMemory => Err(NoMemory),
            _ => unreachable!(),
        },
    }
}

/// Takes at most `count` bytes that the filter has to answer, and answers how many.
pub(crate) fn take_replies<P: Policy>(
    filter: &mut FilterCore<'_, P>,
    pipe: &mut ByteQueue,
    count: usize,
) -> Result<usize, NoMemory>
    ensures count { IfOk result (λ n. n ≡ length (take count filter.old.pending)) }
    ensures filter { OnOk result (filter.new ≡ record filter.old { pending = drop count filter.old.pending }) }
    ensures pipe { OnOk result (pipe.new ≡ pipe.old ++ take count filter.old.pending) }
{
    let count = count.min(filter.pending().len());
    pipe.append(&filter.pending()[..count])?;
    filter.sent(count);
    Ok(count)
}

/// Hands at most `count` bytes to the mail server's end, and answers how many.
pub(crate) fn feed_mta(
    mta: &mut MtaCore,
    pipe: &mut ByteQueue,
    count: usize,
) -> Result<usize, NoMemory>
    requires { (received mta.old (take count pipe.old)).loss ≡ None }
    ensures count { IfOk result (λ n. n ≡ length (take count pipe.old)) }
    ensures mta { OnOk result (mta.new ≡ (received mta.old (take count pipe.old)).mta) }
    ensures pipe { OnOk result (pipe.new ≡ drop count pipe.old) }
{
    let count = count.min(pipe.as_slice().len());
    match mta.feed(&pipe.as_slice()[..count]) {
        Ok(()) => {
            pipe.advance(count);
            Ok(count)
        }
        Err(Loss::Memory) => Err(NoMemory),
        Err(_) => unreachable!(),
    }
}
