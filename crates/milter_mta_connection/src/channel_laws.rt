//! Laws of a channel, each the contract of a function that does nothing.

ghost use Rattle.std.specs.Prelude.{◌≡◌, ◌≢◌, ◌++◌, List, None, Some, [], false, true, ℕ};
ghost use Rattle.std.specs.List.{fold};
ghost use Rattle.milter_wire.specs.declared.command.Command.{Command};
ghost use Rattle.milter_wire.specs.declared.verdict.Verdict.{Verdict};
ghost use Rattle.milter_wire.specs.declared.options.Options.{Options};
ghost use Rattle.milter_mta_outcome.specs.declared.loss.Loss.{Loss};
ghost use Rattle.milter_mta_outcome.specs.declared.loss.MtaFault.TheVariants.{Early};
ghost use Rattle.milter_mta_connection.specs.declared.filter_event.FilterEvent.TheVariants as events;
ghost use Rattle.milter_mta_connection.specs.Channel.{Channel, cleared, fresh, is_owed, queue, sent, without_edits, without_pending};
ghost use Rattle.milter_mta_connection.specs.Received.{ended, fails, received, received_byte};
ghost use Rattle.milter_mta_connection.specs.ReplyRules.{ArePermitted, IsAnswered, IsLeftBy, IsWaiting};

use milter_mta_outcome::received_replies;

/// What is received of a piece and then of another is what is received of both in one.
pub fn pieces_go_on()
    ensures { (c : Channel) (first second : List ℕ) →
        received c (first ++ second) ≡ fold received_byte (received c first) second }
{}

/// A verdict comes only where the command that is answered was sent whole, and only one that its stage allows by what
/// was negotiated; and while no reply is owed, what comes is a fault, and no event.
pub fn verdicts_follow_commands()
    ensures answered { (c : Channel) (bytes : List ℕ) (verdict : Verdict) →
        (received c bytes).event ≡ events.Verdict verdict → IsAnswered c verdict }
    ensures early { (c : Channel) (bytes : List ℕ) → is_owed c ≡ false → bytes ≢ [] →
        received c bytes ≡ fails Early events.Nothing c }
    // After a verdict no reply is owed, until the next command is queued.
    ensures once { (c : Channel) (bytes : List ℕ) → is_owed (received c bytes).channel ≡ true →
        IsWaiting (received c bytes).event }
{
    received_replies();
}

/// What is left of a channel by a piece: while no verdict and no options came the same reply is expected, and the
/// first of these ends what is expected. After a loss it is what was left before, without what the connection had.
pub fn events_leave_channels()
    ensures left { (c : Channel) (bytes : List ℕ) → (received c bytes).loss ≡ None →
        IsLeftBy (received c bytes).event c (received c bytes).channel }
    ensures lost { (c : Channel) (bytes : List ℕ) (loss : Loss) → (received c bytes).loss ≡ Some loss →
        (before : Channel) × IsLeftBy (received c bytes).event c before
        × ((received c bytes).channel ≡ ended (received c bytes).event before) }
{}

/// Whatever a filter sends, the actions that its edits need were negotiated.
pub fn edits_were_negotiated()
    ensures fresh { (offer : Options) → ArePermitted (fresh offer) }
    ensures queue { (c : Channel) (command : Command) → ArePermitted c → ArePermitted (queue command c) }
    ensures sent { (c : Channel) (count : ℕ) → ArePermitted c → ArePermitted (sent count c) }
    ensures without_edits { (c : Channel) → ArePermitted c → ArePermitted (without_edits c) }
    ensures without_pending { (c : Channel) → ArePermitted c → ArePermitted (without_pending c) }
    ensures cleared { (c : Channel) → ArePermitted c → ArePermitted (cleared c) }
    ensures received { (c : Channel) (bytes : List ℕ) → ArePermitted c → ArePermitted (received c bytes).channel }
{
    received_replies();
}
