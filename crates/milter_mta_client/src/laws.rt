//! Laws of a mail server's end that is driven over connections, each the contract of a function that does nothing.

ghost use Rattle.std.specs.Prelude.{◌≡◌, ◌^◌, List};
ghost use Rattle.milter_mta.specs.Mta.{Mta};
ghost use Rattle.milter_mta.specs.AnyFilter.{ConnectionIsReported, GoesOnDialogues, IsOnDialogue};
ghost use Rattle.milter_mta_client.specs.Events.{Event, Runs};
ghost use Rattle.milter_mta_client.specs.declared.connection.TheConstants.{CALLS_MAX, RETRIES_MAX};

use milter_mta::{connections_are_reported, messages_are_settled_by_dialogues};

/// Whatever happens to it, the verdicts that a mail server's end acts on are those of a dialogue through the plan of
/// the message that is sent, and each report is by a dialogue through its message's plan.
pub fn events_keep_to_dialogues()
    ensures { (old new : Mta) (events : List Event) → IsOnDialogue old → Runs old events new → GoesOnDialogues old new }
{
    messages_are_settled_by_dialogues();
}

/// Whatever happens to it, there is a verdict on the connection exactly where it settled messages.
pub fn events_report_connections()
    ensures { (old new : Mta) (events : List Event) → IsOnDialogue old → ConnectionIsReported old →
        Runs old events new →
        ConnectionIsReported new }
{
    messages_are_settled_by_dialogues();
    connections_are_reported();
}

/// The most reads and writes of one connection, and how often in a row an interrupted one is made again.
pub fn connection_limits()
    ensures calls { CALLS_MAX ≡ 2 ^ 40 }
    ensures retries { RETRIES_MAX ≡ 100 }
{}
