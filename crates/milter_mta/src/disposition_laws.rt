//! Laws of how a dialogue settles messages, each the contract of a function that does nothing.

ghost use Rattle.std.specs.Prelude.{◌≡◌, ◌≤◌, ◌++◌, ◌∷◌, [], List, None, Some, false, true};
ghost use Rattle.milter_wire.specs.declared.negotiation.Negotiated.{Negotiated};
ghost use Rattle.milter_wire.specs.declared.command.Command.{Command};
ghost use Rattle.milter_wire.specs.Negotiation.{negotiate, has_leading_space};
ghost use Rattle.milter_message.specs.MailObject.{MailObject};
ghost use Rattle.milter_protocol.specs.Behavior.{Behavior};
ghost use Rattle.milter_protocol.specs.Exchanges.{Exchange};
ghost use Rattle.milter_protocol.specs.declared.permitted.TheConstants.{VERSION_MAX, VERSION_MIN};
ghost use Rattle.milter_protocol.specs.Lawful.{IsLawful};
ghost use Rattle.milter_mta_outcome.specs.declared.loss.By.TheVariants.{Default, Filter};
ghost use Rattle.milter_mta_outcome.specs.declared.loss.Loss.{Loss};
ghost use Rattle.milter_mta_outcome.specs.declared.outcome.Outcome.{Outcome};
ghost use Rattle.milter_mta_outcome.specs.Dialogues.{acted, given_up, ruled};
ghost use Rattle.milter_mta.specs.Mta.{Mta, at_packet};
ghost use Rattle.milter_mta.specs.Mta.Position.{Offering};
ghost use Rattle.milter_mta.specs.Replies.{at};
ghost use Rattle.milter_mta.specs.Dispositions.{lost, report};
ghost use Rattle.milter_mta.specs.Order.{AreProper, IsDialogueSoFar};
ghost use Rattle.milter_mta.specs.Sessions.{SettlesEach, session_lines};
ghost use Rattle.milter_mta.specs.Settled.{AreAllSettled, ends_with_client, next_connection};
ghost use Rattle.milter_mta.specs.Dialogues.{at_dialogue, settled_by};

use crate::laws::replies_are_received;

/// A dialogue that ends with a message settles that message alone, as it is ruled by the dialogue, and its verdicts are
/// reported; the next message goes on from the exchanges about the client.
pub fn dialogues_settle_one()
    ensures { (negotiated : Negotiated) (dialogue : List Exchange) (m : Mta) (message : MailObject)
        (messages : List MailObject)
        (outcome : Outcome) → AreProper negotiated dialogue → ends_with_client dialogue ≡ false →
        m.session.messages ≡ message ∷ messages → ruled (has_leading_space negotiated) message dialogue ≡ Some outcome →
        settled_by negotiated dialogue m ≡ record m {
          session = record m.session { messages = messages };
          reports = m.reports ++ report (acted dialogue) outcome Filter ∷ [];
          filter_connection = Some (next_connection negotiated dialogue m.session messages);
        } }
{}

/// A dialogue that ends with the client settles every message that is left, each as it is ruled by the dialogue; its
/// last verdict is the verdict on the connection.
pub fn dialogues_settle_all()
    ensures { (negotiated : Negotiated) (dialogue : List Exchange) (m : Mta) (message : MailObject)
        (messages : List MailObject)
        (outcome_of : MailObject → Outcome) → IsDialogueSoFar negotiated dialogue → ends_with_client dialogue ≡ true →
        m.session.messages ≡ message ∷ messages →
        ((each : MailObject) → ruled (has_leading_space negotiated) each dialogue ≡ Some (outcome_of each)) →
        AreAllSettled dialogue outcome_of m (settled_by negotiated dialogue m) }
{}

/// A filter that is lost after a dialogue leaves what the dialogue gives up to: the default, without the recipients
/// that were refused.
pub fn lost_dialogues_give_up()
    ensures { (negotiated : Negotiated) (dialogue : List Exchange) (left : List Command) (m : Mta)
        (message : MailObject)
        (messages : List MailObject) (loss : Loss) → m.session.messages ≡ message ∷ messages →
        lost loss (at_dialogue negotiated dialogue left m) ≡ record m {
          session = record m.session { messages = messages };
          reports = m.reports
              ++ report (acted dialogue) (given_up m.config.on_loss message dialogue) (Default loss) ∷ [];
          filter_connection = None;
        } }
{}

/// Against a lawful filter that is never lost each message of a session is settled by its own dialogue with the filter,
/// as if the filter were asked about that message alone; the session's lines are the offer and those of these
/// dialogues.
pub fn sessions_are_settled()
    ensures { (b : Behavior) (m : Mta) (message : MailObject) (messages : List MailObject) → IsLawful b →
        VERSION_MIN ≤ m.config.offer.version → m.config.offer.version ≤ VERSION_MAX →
        m.session.messages ≡ message ∷ messages →
        SettlesEach b (negotiate m.config.offer b.wants b.lists) (at (at_packet Offering) m)
        (session_lines b m.config.offer m.session (message ∷ messages)) }
{
    replies_are_received();
}
