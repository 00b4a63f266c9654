//! Laws of a lawful filter's answers, each the contract of a function that does nothing.

ghost use Rattle.std.specs.Prelude.{◌≡◌, [], Some, true};
ghost use Rattle.std.specs.List.{fold};
ghost use Rattle.milter_wire.specs.declared.negotiation.Negotiated.{Negotiated};
ghost use Rattle.milter_wire.specs.declared.reply.Reply.{Reply};
ghost use Rattle.milter_wire.specs.declared.stage.Stage.{Stage};
ghost use Rattle.milter_wire.specs.Reply.{Fits, encoding};
ghost use Rattle.milter_protocol.specs.declared.answer.Answer.{Answer};
ghost use Rattle.milter_protocol.specs.Lawful.{AnswerFits};
ghost use Rattle.milter_protocol.specs.Permitted.{permitted};
ghost use Rattle.milter_mta_connection.specs.declared.channel_state.ExpectedReply.TheVariants as expects;
ghost use Rattle.milter_mta_connection.specs.declared.filter_event.FilterEvent.{FilterEvent};
ghost use Rattle.milter_mta_connection.specs.declared.filter_event.FilterEvent.TheVariants as events;
ghost use Rattle.milter_mta_connection.specs.Channel.{Channel, is_owed};
ghost use Rattle.milter_mta_connection.specs.Received.{goes_on, received, received_byte, replied};
ghost use Rattle.milter_mta_connection.specs.Conversations.{answer_bytes};

use milter_wire::reply_frames;

/// The bytes of a reply that is owed are received as that reply, whatever event came before.
pub fn replies_are_received()
    ensures { (c : Channel) (event : FilterEvent) (reply : Reply) → is_owed c ≡ true → c.unread ≡ [] → Fits reply →
        fold received_byte (goes_on event c) (encoding reply) ≡ replied c.expected reply event c }
{
    reply_frames();
}

/// The bytes of an answer that keeps to the rules of policies, as it is permitted, are received as its verdict, without
/// a loss; its edits are kept, and no reply is expected then.
pub fn answers_are_received()
    ensures { (c : Channel) (negotiated : Negotiated) (stage : Stage) (answer : Answer) →
        c.negotiated ≡ Some negotiated → c.expected ≡ expects.Verdict stage → c.edits ≡ [] → c.pending ≡ [] →
        c.unread ≡ [] → AnswerFits stage answer →
        received c (answer_bytes (Some (permitted negotiated answer)))
        ≡ goes_on (events.Verdict (permitted negotiated answer).verdict)
        (record c { expected = expects.Nothing; edits = (permitted negotiated answer).edits }) }
{
    reply_frames();
}
