//! Laws of one exchange after another, and of the dialogues that these make, each the contract of a function that does
//! nothing.

ghost use Rattle.std.specs.Prelude.{◌≡◌, ◌≢◌, ◌∷◌, [], Bool, List, false, is_some, true};
ghost use Rattle.milter_wire.specs.declared.negotiation.Negotiated.{Negotiated};
ghost use Rattle.milter_wire.specs.declared.command.Command.{Command};
ghost use Rattle.milter_message.specs.MailObject.{MailObject};
ghost use Rattle.milter_mail.specs.MailSession.{MailSession};
ghost use Rattle.milter_mail.specs.Plan.{macros_of};
ghost use Rattle.milter_mail.specs.Steps.{message_steps};
ghost use Rattle.milter_protocol.specs.Behavior.{Behavior, exchange_of};
ghost use Rattle.milter_protocol.specs.Exchanges.{Exchange, commands_of, onto};
ghost use Rattle.milter_protocol.specs.Lawful.{IsLawful};
ghost use Rattle.milter_protocol.specs.Dialogue.{has_end, is_closed, is_left_out, dialogue_with};
ghost use Rattle.milter_mta_outcome.specs.Dialogues.{ruled};
ghost use Rattle.milter_mta.specs.Mta.{Mta};
ghost use Rattle.milter_mta.specs.Replies.{goes_on};
ghost use Rattle.milter_mta.specs.Lines.{after_line, line_of, next_packet};
ghost use Rattle.milter_mta.specs.Order.{IsDialogue, IsDialogueSoFar};
ghost use Rattle.milter_mta.specs.Sessions.{dialogue_of};
ghost use Rattle.milter_mta.specs.Settled.{ends_with_client};
ghost use Rattle.milter_mta.specs.Dialogues.{after_dialogue, at_dialogue, opening_of};

use crate::laws::replies_are_received;

/// Between two packets of a dialogue: a command that isn't left out is sent, and the whole answer to it makes its
/// exchange the last one of the dialogue, which settles the message where that closes the dialogue.
pub fn exchanges_are_played()
    ensures packet { (b : Behavior) (negotiated : Negotiated) (m : Mta) (dialogue : List Exchange) (command : Command)
        (left : List Command) → is_left_out dialogue command ≡ false →
        next_packet (at_dialogue negotiated dialogue (command ∷ left) m)
        ≡ (line_of (exchange_of b negotiated (commands_of dialogue) command)).out }
    ensures answer { (b : Behavior) (negotiated : Negotiated) (m : Mta) (dialogue : List Exchange) (command : Command)
        (left : List Command) → IsLawful b → m.session.messages ≢ [] → IsDialogue negotiated dialogue (command ∷ left) →
        is_left_out dialogue command ≡ false →
        after_line (line_of (exchange_of b negotiated (commands_of dialogue) command)).back
        (at_dialogue negotiated dialogue (command ∷ left) m)
        ≡ goes_on (after_dialogue negotiated (exchange_of b negotiated (commands_of dialogue) command ∷ dialogue)
        left m) }
    ensures left_out { (negotiated : Negotiated) (m : Mta) (dialogue : List Exchange) (command : Command)
        (left : List Command) →
        is_left_out dialogue command ≡ true → at_dialogue negotiated dialogue (command ∷ left) m
        ≡ at_dialogue negotiated dialogue left m }
{
    replies_are_received();
}

/// With one exchange more, or without a command that is left out, a dialogue is one still.
pub fn dialogues_go_on()
    ensures dialogue_so_far { (b : Behavior) (negotiated : Negotiated) (dialogue : List Exchange) (command : Command)
        (left : List Command) → IsLawful b → IsDialogue negotiated dialogue (command ∷ left) →
        IsDialogueSoFar negotiated (exchange_of b negotiated (commands_of dialogue) command ∷ dialogue) }
    ensures open_dialogue { (b : Behavior) (negotiated : Negotiated) (dialogue : List Exchange) (command : Command)
        (left : List Command) → IsLawful b → IsDialogue negotiated dialogue (command ∷ left) →
        is_closed (exchange_of b negotiated (commands_of dialogue) command ∷ dialogue) left ≡ false →
        IsDialogue negotiated (exchange_of b negotiated (commands_of dialogue) command ∷ dialogue) left }
    ensures left_out { (negotiated : Negotiated) (dialogue : List Exchange) (command : Command) (left : List Command) →
        IsDialogue negotiated dialogue (command ∷ left) → is_left_out dialogue command ≡ true →
        IsDialogue negotiated dialogue left }
{}

/// A dialogue that its last exchange closes rules what becomes of each message; so does a dialogue that goes on to the
/// end.
pub fn closed_dialogues_rule()
    ensures dialogue { (dialogue : List Exchange) (left : List Command) (leading_space : Bool) (message : MailObject) →
        is_closed dialogue left ≡ true → is_some (ruled leading_space message dialogue) ≡ true }
    ensures whole_dialogue { (b : Behavior) (negotiated : Negotiated) (before : List Exchange) (commands : List Command)
        (leading_space : Bool) (message : MailObject) → has_end commands ≡ true →
        is_some (ruled leading_space message (onto (dialogue_with b negotiated before commands) before)) ≡ true }
{}

/// The dialogue of another message of the session: what is sent of it after the exchanges about the client, or the same
/// dialogue where that ended with the client.
pub fn dialogues_of_messages()
    ensures next { (b : Behavior) (negotiated : Negotiated) (session : MailSession) (message other : MailObject) →
        ends_with_client (dialogue_of b negotiated session message) ≡ false →
        onto (dialogue_with b negotiated (opening_of (dialogue_of b negotiated session message))
        (message_steps negotiated (macros_of negotiated session) other))
        (opening_of (dialogue_of b negotiated session message))
        ≡ dialogue_of b negotiated session other }
    ensures same { (b : Behavior) (negotiated : Negotiated) (session : MailSession) (message other : MailObject) →
        ends_with_client (dialogue_of b negotiated session message) ≡ true →
        dialogue_of b negotiated session other ≡ dialogue_of b negotiated session message }
{}
