//! Laws of what is sent in pieces, and of losses in the midst of it, each the contract of a function that does nothing.

ghost use Rattle.std.specs.Prelude.{◌≡◌, ◌≢◌, ◌+◌, ◌++◌, ◌∷◌, [], List, None, Some, false, true, ℕ};
ghost use Rattle.milter_wire.specs.declared.negotiation.Negotiated.{Negotiated};
ghost use Rattle.milter_wire.specs.declared.command.Command.{Command};
ghost use Rattle.milter_wire.specs.Reply.{Fits, encoding};
ghost use Rattle.milter_message.specs.declared.edit.Edit.{Edit};
ghost use Rattle.milter_protocol.specs.declared.answer.Answer.{Answer};
ghost use Rattle.milter_protocol.specs.Behavior.{Behavior, exchange_of};
ghost use Rattle.milter_protocol.specs.Exchanges.{Exchange, commands_of};
ghost use Rattle.milter_protocol.specs.Lawful.{IsLawful};
ghost use Rattle.milter_protocol.specs.Replies.{options_reply};
ghost use Rattle.milter_protocol.specs.Dialogue.{is_left_out, sendable};
ghost use Rattle.milter_mta_outcome.specs.declared.loss.Loss.{Loss};
ghost use Rattle.milter_mta_outcome.specs.Dialogues.{acted};
ghost use Rattle.milter_mta.specs.declared.mta_core.Want.TheVariants as wants;
ghost use Rattle.milter_mta.specs.Mta.{FilterConnection, Mta, at_packet};
ghost use Rattle.milter_mta.specs.Mta.Position.{Offering};
ghost use Rattle.milter_mta.specs.Replies.{After, at, goes_on};
ghost use Rattle.milter_mta.specs.Output.{advanced, sent, want};
ghost use Rattle.milter_mta.specs.Dispositions.{acted_at, lost};
ghost use Rattle.milter_mta.specs.Lines.{after_line, answer_bytes};
ghost use Rattle.milter_mta.specs.PartAnswers.{IsPartReceived};
ghost use Rattle.milter_mta.specs.Dialogues.{at_dialogue};

use crate::laws::{replies_are_received, reply_prefixes_are_kept};

/// What is sent in two pieces is sent as in one.
pub fn sent_bytes_add_up()
    ensures { (m : Mta) (count more : ℕ) → sent more (sent count m) ≡ sent (count + more) m }
{}

/// Making a packet and sending any part of it, or all, changes nothing of what a loss settles.
pub fn sending_settles_nothing()
    ensures { (m : Mta) (count : ℕ) (loss : Loss) → lost loss (sent count (advanced m)) ≡ lost loss m }
{}

/// What a loss settles depends on the verdicts that were acted on alone.
pub fn losses_depend_on_verdicts()
    ensures { (m : Mta) (filter_connection other : FilterConnection) (loss : Loss) →
        acted_at filter_connection.position ≡ acted_at other.position →
        lost loss (at filter_connection m) ≡ lost loss (at other m) }
{}

/// Fewer bytes than all of a lawful filter's answer are received as some of its edits and a beginning of the next
/// reply.
pub fn part_answers_are_received()
    ensures answer { (b : Behavior) (negotiated : Negotiated) (m : Mta) (dialogue : List Exchange) (command : Command)
        (left : List Command) (answer : Answer) (bytes more : List ℕ) → IsLawful b → m.session.messages ≢ [] →
        is_left_out dialogue command ≡ false → more ≢ [] →
        (exchange_of b negotiated (commands_of dialogue) command).answer ≡ Some answer →
        bytes ++ more ≡ answer_bytes (Some answer) →
        IsPartReceived negotiated (acted dialogue) (sendable dialogue (command ∷ left)) m [] answer.edits bytes
        (after_line bytes (at_dialogue negotiated dialogue (command ∷ left) m)) }
    ensures offer { (m : Mta) (negotiated : Negotiated) (bytes more : List ℕ) → Fits (options_reply negotiated) →
        more ≢ [] →
        bytes ++ more ≡ encoding (options_reply negotiated) →
        after_line bytes (at (at_packet Offering) m)
        ≡ goes_on (at (record (at_packet Offering) { owed = true; unread = bytes }) m) }
{
    replies_are_received();
    reply_prefixes_are_kept();
}

/// After a part of an answer the rest is awaited, and the reports, and what a loss settles, are as before the command.
pub fn part_answers_settle_nothing()
    ensures waits { (negotiated : Negotiated) (dialogue : List Exchange) (left : List Command) (m : Mta)
        (edits : List Edit)
        (bytes : List ℕ) (after : After) →
        IsPartReceived negotiated (acted dialogue) (sendable dialogue left) m [] edits bytes after →
        want after.mta ≡ wants.Receive }
    ensures goes_on { (negotiated : Negotiated) (dialogue : List Exchange) (left : List Command) (m : Mta)
        (edits : List Edit)
        (bytes : List ℕ) (after : After) →
        IsPartReceived negotiated (acted dialogue) (sendable dialogue left) m [] edits bytes after → after.loss ≡ None }
    ensures reports { (negotiated : Negotiated) (dialogue : List Exchange) (left : List Command) (m : Mta)
        (edits : List Edit)
        (bytes : List ℕ) (after : After) →
        IsPartReceived negotiated (acted dialogue) (sendable dialogue left) m [] edits bytes after →
        after.mta.reports ≡ m.reports }
    ensures losses { (negotiated : Negotiated) (dialogue : List Exchange) (left : List Command) (m : Mta)
        (edits : List Edit)
        (bytes : List ℕ) (after : After) (loss : Loss) →
        IsPartReceived negotiated (acted dialogue) (sendable dialogue left) m [] edits bytes after →
        lost loss after.mta ≡ lost loss (at_dialogue negotiated dialogue left m) }
{}
