//! How a mail server's end is driven over one connection.

ghost use Rattle.std.specs.Prelude.{◌≡◌, ◌≢◌, ◌<◌, [], length};
ghost use Rattle.milter_mta.specs.declared.mta_core.Want.TheVariants as wants;
ghost use Rattle.milter_mta.specs.Output.{want};
ghost use Rattle.milter_mta.specs.Dispositions.{lost};
ghost use Rattle.milter_mta_client.specs.ConnectionRuns.{IsBetween, IsConnected, Receives, Steps, Transmits, Turns, dials_left};
ghost use Rattle.milter_mta_client.specs.Observations.{Notes, NotesAdded};

use crate::laws::events_keep_to_dialogues;
use crate::link_calls::{Stop, read_once, write_once};
use crate::observer::{Observer, show};
use milter_mta::{MtaCore, Want};
use milter_mta_outcome::Loss;
use std::io::{Read, Write};
use thiserror::Error;

/// A connection to a filter could not be made.
#[derive(Clone, Copy, Debug, PartialEq, Eq, Error)]
#[error("no connection to the filter")]
pub struct DialFault;

/// Makes connections to a filter, one after another.
pub trait Dial {
    /// A connection: what the filter sends is read from it, and what is sent to the filter is written to it. It is
    /// closed by being dropped. A read or a write that takes too long ends with the kind `WouldBlock` or `TimedOut`.
    type Link: Read + Write + Drop;

    /// Makes a connection to the filter.
    fn dial(&mut self) -> Result<Self::Link, DialFault>;
}

/// The most reads and writes of one connection.
const CALLS_MAX: u64 = 1_099_511_627_776;
/// How often in a row an interrupted read or write is made again.
const RETRIES_MAX: u32 = 100;

/// Drives a mail server's end over a connection that was just made, until nothing is left to do on it, or it is given
/// up. The connection is closed then.
pub(crate) fn drive<L: Read + Write + Drop, O: Observer>(
    core: &mut MtaCore,
    link: L,
    buffer: &mut [u8],
    observer: &mut O,
)
    requires connected { IsConnected core.old }
    requires some_left { core.old.session.messages ≢ [] }
    ensures steps { Steps core.old core.new }
    ensures between { IsBetween core.new }
    ensures fewer { dials_left core.new < length core.old.session.messages }
    ensures notes { Notes O.notes core.old core.new observer.old observer.new }
{
    events_keep_to_dialogues();
    let mut link = link;
    let mut retries = 0;
    for _ in 0..CALLS_MAX {
        match observed_turn(core, &mut link, buffer, observer) {
            Ok(()) => retries = 0,
            Err(Stop::Interrupted) if retries < RETRIES_MAX => retries += 1,
            Err(Stop::Interrupted) => break,
            Err(Stop::Lost(loss)) => {
                lose(core, loss, observer);
                return;
            }
            Err(Stop::Over) => return,
        }
    }
    lose(core, Loss::Reset, observer);
}

/// Gives up the connection, or the dial, and shows the observer what that settles.
pub(crate) fn lose<O: Observer>(core: &mut MtaCore, loss: Loss, observer: &mut O)
    ensures lost { core.new ≡ lost loss core.old }
    ensures notes { NotesAdded O.notes core.old core.new observer.old observer.new }
{
    let shown = core.settled();
    core.lost(loss);
    show(core, shown, observer);
}

/// Makes the one read or write that is wanted next, and shows the observer what that settles.
fn observed_turn<L: Read + Write, O: Observer>(
    core: &mut MtaCore,
    link: &mut L,
    buffer: &mut [u8],
    observer: &mut O,
) -> Result<(), Stop>
    requires { IsConnected core.old }
    ensures turns { Turns core.old core.new result }
    ensures notes { NotesAdded O.notes core.old core.new observer.old observer.new }
{
    let shown = core.settled();
    let turned = turn(core, link, buffer);
    show(core, shown, observer);
    turned
}

/// Makes the one read or write that is wanted next.
fn turn<L: Read + Write>(core: &mut MtaCore, link: &mut L, buffer: &mut [u8]) -> Result<(), Stop>
    requires { IsConnected core.old }
    ensures { Turns core.old core.new result }
{
    match core.want() {
        Want::Send => transmit(core, link),
        Want::Receive => receive(core, link, buffer),
        Want::Dial | Want::Done => Err(Stop::Over),
    }
}

/// Writes some of the packet that is pending, or of the next one.
fn transmit<W: Write>(core: &mut MtaCore, link: &mut W) -> Result<(), Stop>
    requires { want core.old ≡ wants.Send }
    ensures { Transmits (W.contents link.old) (W.contents link.new) core.old core.new result }
{
    let Ok(()) = core.advance() else {
        return Err(Stop::Lost(Loss::Memory));
    };
    let count = write_once(link, core.pending())?;
    core.sent(count);
    Ok(())
}

/// Reads some of what the filter sends, and takes it.
fn receive<R: Read>(core: &mut MtaCore, link: &mut R, buffer: &mut [u8]) -> Result<(), Stop>
    requires { want core.old ≡ wants.Receive }
    ensures { Receives (R.remaining link.old) (R.remaining link.new) core.old core.new result }
{
    let count = read_once(link, buffer)?;
    match core.feed(&buffer[..count]) {
        Ok(()) => Ok(()),
        Err(_) => Err(Stop::Over),
    }
}
