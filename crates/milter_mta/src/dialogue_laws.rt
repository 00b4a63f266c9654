//! Laws of a message's dialogue, each the contract of a function that does nothing.

ghost use Rattle.std.specs.Prelude.{◌≡◌, ◌≢◌, ◌≤◌, ◌∷◌, [], List, None, Ok, map, true};
ghost use Rattle.milter_wire.specs.declared.negotiation.Negotiated.{Negotiated};
ghost use Rattle.milter_wire.specs.declared.command.Command.{Command};
ghost use Rattle.milter_wire.specs.Negotiation.{negotiate};
ghost use Rattle.milter_wire.specs.Reply.{Fits};
ghost use Rattle.milter_wire.specs.declared.options.Options.{Options};
ghost use Rattle.milter_message.specs.MailObject.{MailObject};
ghost use Rattle.milter_mail.specs.MailSession.{MailSession};
ghost use Rattle.milter_mail.specs.Plan.{macros_of, plan};
ghost use Rattle.milter_mail.specs.Steps.{message_steps};
ghost use Rattle.milter_protocol.specs.Behavior.{Behavior};
ghost use Rattle.milter_protocol.specs.Exchanges.{Exchange, onto};
ghost use Rattle.milter_protocol.specs.declared.permitted.TheConstants.{VERSION_MAX, VERSION_MIN};
ghost use Rattle.milter_protocol.specs.Lawful.{IsLawful};
ghost use Rattle.milter_protocol.specs.Replies.{options_reply};
ghost use Rattle.milter_protocol.specs.Dialogue.{dialogue_with};
ghost use Rattle.milter_mta_outcome.specs.ReceivedReplies.{options_received};
ghost use Rattle.milter_mta.specs.declared.mta_core.Want.{Want};
ghost use Rattle.milter_mta.specs.Mta.{Mta, Position, at_packet, connection_at};
ghost use Rattle.milter_mta.specs.Mta.Position.{Ended, Offering, Quitting};
ghost use Rattle.milter_mta.specs.Replies.{at};
ghost use Rattle.milter_mta.specs.Output.{dialled, want};
ghost use Rattle.milter_mta.specs.Beginnings.{IsBeginning};
ghost use Rattle.milter_mta.specs.Lines.{Plays, abort_line, line_of, offer_line, quit_line};
ghost use Rattle.milter_mta.specs.Order.{IsDialogue, IsDialogueSoFar};
ghost use Rattle.milter_mta.specs.Dialogues.{at_dialogue, opening_of, settled_by};

use crate::laws::replies_are_received;

/// Where a filter is lawful, a mail server's end sends the commands of its dialogue with the filter, each after the
/// answer to the one before, until the message is settled by the last answer of the whole dialogue.
pub fn dialogues_are_played()
    ensures plays { (b : Behavior) (negotiated : Negotiated) (m : Mta) (dialogue : List Exchange) (left : List Command)
        →
        IsLawful b → m.session.messages ≢ [] → IsDialogue negotiated dialogue left →
        Plays (at_dialogue negotiated dialogue left m) (map line_of (dialogue_with b negotiated dialogue left))
        (settled_by negotiated (onto (dialogue_with b negotiated dialogue left) dialogue) m) }
    ensures dialogue { (b : Behavior) (negotiated : Negotiated) (m : Mta) (dialogue : List Exchange)
        (left : List Command) →
        IsLawful b → m.session.messages ≢ [] → IsDialogue negotiated dialogue left →
        IsDialogueSoFar negotiated (onto (dialogue_with b negotiated dialogue left) dialogue) }
{
    replies_are_received();
}

/// What a dialogue sends is a beginning of the plan, without the chunks of the body after a Skip.
pub fn dialogues_begin_plans()
    ensures { (b : Behavior) (negotiated : Negotiated) (plan : List Command) →
        IsBeginning plan (dialogue_with b negotiated [] plan) }
{}

/// A message's plan is sent from its start, and the commands of the next message after the exchanges about the
/// client.
pub fn plans_are_sent()
    ensures plan { (negotiated : Negotiated) (session : MailSession) (message : MailObject) →
        IsDialogue negotiated [] (plan negotiated session message) }
    ensures next { (negotiated : Negotiated) (dialogue : List Exchange) (session : MailSession) (message : MailObject) →
        IsDialogueSoFar negotiated dialogue →
        IsDialogue negotiated (opening_of dialogue) (message_steps negotiated (macros_of negotiated session) message) }
{}

/// What a lawful filter answers to an offer of a known version is received as what both ends have.
pub fn lawful_filters_negotiate()
    ensures received { (offer : Options) (b : Behavior) → IsLawful b →
        VERSION_MIN ≤ offer.version → offer.version ≤ VERSION_MAX →
        options_received offer (options_reply (negotiate offer b.wants b.lists))
        ≡ Ok (negotiate offer b.wants b.lists) }
    ensures fits { (offer : Options) (b : Behavior) → IsLawful b →
        VERSION_MIN ≤ offer.version → offer.version ≤ VERSION_MAX →
        Fits (options_reply (negotiate offer b.wants b.lists)) }
{}

/// A connection begins with the offer; by the reply to it the first message is at the start of its plan.
pub fn offers_open_sessions()
    ensures dialled { (m : Mta) (message : MailObject) (messages : List MailObject) →
        m.filter_connection ≡ None → m.session.messages ≡ message ∷ messages → dialled m ≡ at (at_packet Offering) m }
    ensures opened { (m : Mta) (negotiated : Negotiated) (message : MailObject) (messages : List MailObject) →
        m.session.messages ≡ message ∷ messages → Fits (options_reply negotiated) →
        options_received m.config.offer (options_reply negotiated) ≡ Ok negotiated →
        Plays (at (at_packet Offering) m) (offer_line m.config.offer negotiated ∷ [])
        (at_dialogue negotiated [] (plan negotiated m.session message) m) }
{
    replies_are_received();
}

/// Where the last message ended before its end, an abort comes before the next command; at the end of the connection
/// the filter is asked to quit, and nothing is wanted then.
pub fn lines_without_answers()
    ensures abort { (m : Mta) (position : Position) →
        Plays (at (connection_at true position) m) (abort_line ∷ []) (at (at_packet position) m) }
    ensures quit { (m : Mta) → Plays (at (at_packet Quitting) m) (quit_line ∷ []) (at (at_packet Ended) m) }
    ensures done { (m : Mta) → want (at (at_packet Ended) m) ≡ Want.Done }
{}
