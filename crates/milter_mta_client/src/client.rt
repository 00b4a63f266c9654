//! How a mail server's end is driven over connections to filters, until every message is settled.

ghost use Rattle.std.specs.Prelude.{◌≡◌, ◌+◌, ◌↔◌, IsTrue, drop, length};
ghost use Rattle.milter_mta.specs.declared.mta_core.Want.TheVariants as wants;
ghost use Rattle.milter_mta.specs.Output.{want};
ghost use Rattle.milter_mta_client.specs.ClientRuns.{Converses, first_events};
ghost use Rattle.milter_mta_client.specs.ConnectionRuns.{IsBetween, Steps};
ghost use Rattle.milter_mta.specs.AnyFilter.{IsOnDialogue};
ghost use Rattle.milter_mta_client.specs.Events.{Runs};
ghost use Rattle.milter_mta_client.specs.Observations.{Notes, NotesAdded, NotesEach};

use crate::connection::{Dial, drive, lose};
use crate::laws::{events_keep_to_dialogues, events_report_connections};
use crate::observer::{NoObserver, Observer};
use milter_mta::{MtaCore, Reports, Want, messages_are_settled_by_dialogues};
use milter_mta_outcome::Loss;
use milter_wire::read_buffer;
use std::alloc::Global;

/// Plays a session to filters over the connections that `dial` makes, until every message is settled, and answers what
/// became of each. All memory but what the core takes itself is a buffer of 65,536 bytes; where that is refused nothing
/// is dialled, and every message is settled by default, with the cause [`Loss::Memory`].
///
/// A filter is lost with the cause [`Loss::Reset`] where no connection is made, where the filter closed it, and where a
/// read or a write fails; with [`Loss::Timeout`] where it fails with the kind `WouldBlock` or `TimedOut`. A call that
/// fails with the kind `Interrupted` is made again, up to 100 times in a row, and the connection is lost then. So it is
/// after 1,099,511,627,776 reads and writes. Where memory is refused for a packet, or for what was read, the cause is
/// [`Loss::Memory`]. Each loss settles the first message that is left by default, and closes the connection; the next
/// message is played over a new one. A core that has a connection when it is passed is given `Loss::Reset` first,
/// unless it is [`Want::Done`].
pub fn converse<D: Dial>(alloc: Global, core: MtaCore, dial: &mut D) -> Reports
    ensures { Converses core result }
{
    converse_observed(alloc, core, dial, &mut NoObserver)
}

/// Plays a session as [`converse`] does, and shows the observer the report of each message once it is settled.
pub fn converse_observed<D: Dial, O: Observer>(
    alloc: Global,
    core: MtaCore,
    dial: &mut D,
    observer: &mut O,
) -> Reports
    ensures converses { Converses core result }
    // The reports that are added were shown, each once, in order. It holds of a core that was new or came from its
    // calls.
    ensures notes { IsOnDialogue core → NotesEach O.notes (length core.reports + 1)
        (drop (length core.reports) result.messages) observer.old observer.new }
{
    events_keep_to_dialogues();
    events_report_connections();
    messages_are_settled_by_dialogues();
    let mut core = core;
    give_up_connection(&mut core, observer);
    match read_buffer(alloc) {
        Ok(mut buffer) => drive_all(&mut core, dial, buffer.as_mut_slice(), observer),
        Err(_) => give_up_messages(&mut core, observer),
    }
    core.into_reports()
}

/// Gives up a connection that was made before.
fn give_up_connection<O: Observer>(core: &mut MtaCore, observer: &mut O)
    ensures events { Runs core.old (first_events (want core.old)) core.new }
    ensures between { IsBetween core.new }
    ensures notes { NotesAdded O.notes core.old core.new observer.old observer.new }
{
    if matches!(core.want(), Want::Send | Want::Receive) {
        lose(core, Loss::Reset, observer);
    }
}

/// Whether a connection is wanted.
fn wants_dial(core: &MtaCore) -> bool
    ensures { IsTrue result ↔ (want core.now ≡ wants.Dial) }
{
    matches!(core.want(), Want::Dial)
}

/// Drives a mail server's end over one connection after another, until every message is settled.
fn drive_all<D: Dial, O: Observer>(
    core: &mut MtaCore,
    dial: &mut D,
    buffer: &mut [u8],
    observer: &mut O,
)
    requires { IsBetween core.old }
    ensures steps { Steps core.old core.new }
    ensures done { want core.new ≡ wants.Done }
    ensures notes { Notes O.notes core.old core.new observer.old observer.new }
{
    events_keep_to_dialogues();
    while wants_dial(core) {
        match dial.dial() {
            Ok(link) => {
                core.dialled();
                drive(core, link, buffer, observer);
            }
            Err(_) => lose(core, Loss::Reset, observer),
        }
    }
}

/// Gives up all messages that are left, for memory that was refused.
fn give_up_messages<O: Observer>(core: &mut MtaCore, observer: &mut O)
    requires { IsBetween core.old }
    ensures steps { Steps core.old core.new }
    ensures done { want core.new ≡ wants.Done }
    ensures notes { Notes O.notes core.old core.new observer.old observer.new }
{
    events_keep_to_dialogues();
    while wants_dial(core) {
        lose(core, Loss::Memory, observer);
    }
}
