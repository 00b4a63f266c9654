//! Laws of a mail server's end against any filter, whatever it sends, each the contract of a function that does
//! nothing.

ghost use Rattle.std.specs.Prelude.{◌≡◌, [], List, ℕ};
ghost use Rattle.milter_mail.specs.MailSession.{MailSession};
ghost use Rattle.milter_mta_outcome.specs.declared.loss.Loss.{Loss};
ghost use Rattle.milter_mta.specs.declared.mta_core.Want.TheVariants as wants;
ghost use Rattle.milter_mta.specs.Mta.{Configuration, Mta, fresh};
ghost use Rattle.milter_mta.specs.Replies.{received};
ghost use Rattle.milter_mta.specs.Output.{advanced, dialled, sent, want};
ghost use Rattle.milter_mta.specs.Dispositions.{lost};
ghost use Rattle.milter_mta.specs.AnyFilter.{ConnectionIsReported, GoesOnDialogues, IsOnDialogue};

use milter_mta_outcome::{received_options, received_replies};

/// From the start on, and whatever a filter sends, the verdicts that are acted on are those of a dialogue through the
/// plan of the message that is sent, and each report is by a dialogue through its message's plan: as the dialogue
/// rules, or by default after a dialogue. What a call settles are the first messages that were left, each once; so do
/// calls one after the other. Nothing is left to be done only where every message is settled.
pub fn messages_are_settled_by_dialogues()
    ensures fresh { (config : Configuration) (session : MailSession) → IsOnDialogue (fresh config session) }
    ensures dialled { (m : Mta) → IsOnDialogue m → GoesOnDialogues m (dialled m) }
    ensures advanced { (m : Mta) → IsOnDialogue m → GoesOnDialogues m (advanced m) }
    ensures sent { (m : Mta) (count : ℕ) → IsOnDialogue m → GoesOnDialogues m (sent count m) }
    ensures received { (m : Mta) (bytes : List ℕ) → IsOnDialogue m → GoesOnDialogues m (received m bytes).mta }
    ensures lost { (m : Mta) (loss : Loss) → IsOnDialogue m → GoesOnDialogues m (lost loss m) }
    ensures stays { (m : Mta) → IsOnDialogue m → GoesOnDialogues m m }
    ensures goes_on { (old between new : Mta) → GoesOnDialogues old between → GoesOnDialogues between new →
        GoesOnDialogues old new }
    ensures done { (m : Mta) → IsOnDialogue m → want m ≡ wants.Done → m.session.messages ≡ [] }
{
    received_replies();
    received_options();
}

/// There is a verdict on the connection exactly where it settled messages: it is the last verdict of each of these, and
/// no message is left then.
pub fn connections_are_reported()
    ensures fresh { (config : Configuration) (session : MailSession) → ConnectionIsReported (fresh config session) }
    ensures dialled { (m : Mta) → ConnectionIsReported m → ConnectionIsReported (dialled m) }
    ensures advanced { (m : Mta) → ConnectionIsReported m → ConnectionIsReported (advanced m) }
    ensures sent { (m : Mta) (count : ℕ) → ConnectionIsReported m → ConnectionIsReported (sent count m) }
    ensures received { (m : Mta) (bytes : List ℕ) → IsOnDialogue m → ConnectionIsReported m →
        ConnectionIsReported (received m bytes).mta }
    ensures lost { (m : Mta) (loss : Loss) → ConnectionIsReported m → ConnectionIsReported (lost loss m) }
{
    received_replies();
    received_options();
}
