//! The law of the scenarios that are possible, as the contract of a function that does nothing.

ghost use Rattle.std.specs.Prelude.{◌≤◌, ◌<◌, ◌^◌, length};
ghost use Rattle.milter_wire.specs.declared.command.Command.TheVariants as commands;
ghost use Rattle.milter_wire.specs.Command.{Fits};
ghost use Rattle.milter_mail.specs.MailSession.{IsSession};
ghost use Rattle.milter_protocol.specs.declared.permitted.TheConstants.{VERSION_MAX, VERSION_MIN};
ghost use Rattle.milter_protocol.specs.Lawful.{IsLawful};
ghost use Rattle.milter_world.specs.Schedule.{Scenario};
ghost use Rattle.milter_world.specs.Ends.{IsPossible};

use crate::entries::entries_of_sessions;
use crate::filter_laws::sessions_are_answered;
use crate::mta_laws::entries_are_followed;
use milter_mta::lawful_filters_negotiate;

/// A lawful filter, a session and an offer of a known version that fits a packet are all that is asked of a scenario,
/// where the session has fewer than 2^64 messages.
pub fn scenarios_are_possible()
    ensures { (p : Scenario) → IsLawful p.filter → IsSession p.session → VERSION_MIN ≤ p.config.offer.version →
        p.config.offer.version ≤ VERSION_MAX → Fits (commands.Options p.config.offer) →
        length p.session.messages < 2 ^ 64 → IsPossible p }
{
    entries_are_followed();
    entries_of_sessions();
    sessions_are_answered();
    lawful_filters_negotiate();
}
