//! Laws of ends whose callers answer, each the contract of a function that does nothing.

ghost use Rattle.std.specs.Prelude.{◌≡◌, ◌≢◌, ◌++◌, ◌∷◌, [], List, ℕ, Some, None, drop, map, take};
ghost use Rattle.std.specs.List.{flat_map};
ghost use Rattle.milter_fields.specs.Stream.{IsUnfinished};
ghost use Rattle.milter_wire.specs.Reply.{encoding};
ghost use Rattle.milter_wire.specs.declared.stage.Stage.{Stage as At};
ghost use Rattle.milter_wire.specs.declared.stage.Stage.TheVariants.{Eob};
ghost use Rattle.milter_protocol.specs.FilterEnds.{Received};
ghost use Rattle.milter_protocol.specs.OrderStates.{fresh_in};
ghost use Rattle.milter_protocol.specs.declared.answer.Answer.{Answer as Given};
ghost use Rattle.milter_protocol.specs.declared.stage_order.CommandOrder.{CommandOrder as Order};
ghost use Rattle.milter_protocol.specs.declared.filter_fault.FilterFault.{FilterFault as Fault};
ghost use Rattle.milter_filter_stream.specs.Conversations.{Conversation, GivesUpIn, GoesOnIn, TakesIn, answered, conversation_by, fresh_conversation, given_up_in};
ghost use Rattle.milter_protocol.specs.GivenAnswers.{IsInTurn, given_steps};
ghost use Rattle.milter_protocol.specs.declared.filter_fault.FilterState.TheVariants.{Serving};
ghost use Rattle.milter_protocol.specs.Questions.{Answered, Came, Event, IsTaking, ProgressReported, Wanted, answers_in, commands_in, event_step, events_replies, fresh_ask_state};
ghost use Rattle.milter_filter_stream.specs.Streams.{received_in};

use milter_protocol::answers_in_turn;

/// Whatever the pieces in which the bytes of a connection came and those in which the replies were sent, an end is what
/// the commands that came and the answers that were given make of it: each call goes on from what was before, and what
/// goes on twice goes on by both in a row.
pub fn conversations_go_on()
    ensures begins { (order : Order) (wanted : Wanted) →
        GoesOnIn (fresh_conversation order wanted) [] [] [] (fresh_conversation order wanted) }
    ensures stays { (c : Conversation) → c.state.order_state.state ≡ Serving → IsUnfinished c.unread →
        GoesOnIn c [] [] [] c }
    ensures joins { (old c new : Conversation) (events these : List Event) (input sent more sent_then : List ℕ) →
        GoesOnIn old events input sent c → c.state.order_state.state ≡ Serving → GoesOnIn c these more sent_then new →
        GoesOnIn old (events ++ these) (input ++ more) (sent ++ sent_then) new }
    ensures takes { (old c new : Conversation) (events : List Event) (input sent piece : List ℕ) (n : ℕ) →
        GoesOnIn old events input sent c → IsTaking c.state → c.pending ≡ [] → TakesIn c piece n new →
        GoesOnIn old (events ++ map Came (received_in (c.unread ++ take n piece))) (input ++ take n piece) sent new }
    ensures answers { (old c : Conversation) (events : List Event) (input sent : List ℕ) (stage : At) (answer : Given) →
        GoesOnIn old events input sent c → c.state.asked ≡ Some stage →
        GoesOnIn old (events ++ Answered answer ∷ []) input sent (answered c answer) }
    ensures reports { (old c : Conversation) (events : List Event) (input sent : List ℕ) →
        GoesOnIn old events input sent c → c.state.asked ≡ Some Eob →
        GoesOnIn old (events ++ ProgressReported ∷ []) input sent
        (conversation_by c (event_step old.wanted c.state ProgressReported)) }
    ensures sends { (old c : Conversation) (events : List Event) (input sent : List ℕ) (n : ℕ) →
        GoesOnIn old events input sent c →
        GoesOnIn old events input (sent ++ take n c.pending) (record c { pending = drop n c.pending }) }
    // After the end nothing more is done.
    ensures ended { (old c : Conversation) (events : List Event) (input sent more : List ℕ) →
        GoesOnIn old events input sent c → c.state.order_state.state ≢ Serving → c.state.asked ≡ None →
        (rest : List Received) × GoesOnIn old (events ++ map Came rest) (input ++ more) sent c }
    ensures gives_up { (old c : Conversation) (events : List Event) (input sent piece : List ℕ) (fault : Fault) →
        GoesOnIn old events input sent c → IsTaking c.state → c.pending ≡ [] →
        GivesUpIn c.wanted c.state (received_in (c.unread ++ piece)) fault →
        GoesOnIn old (events ++ map Came (received_in (c.unread ++ piece))) (input ++ piece) sent
        (given_up_in c fault) }
{}

/// What an end comes to from its beginning: what was sent and what is pending are the replies to the events, whose
/// commands are those of the bytes that came, and which happened in turn. So the commands and the answers determine all
/// but where progress was reported (`answers_in_turn`), and the answers of a policy make it the end over that policy
/// (`policies_answer`).
pub fn conversations_reply()
    ensures replies { (order : Order) (wanted : Wanted) (c : Conversation) (events : List Event)
        (input sent : List ℕ) → GoesOnIn (fresh_conversation order wanted) events input sent c →
        sent ++ c.pending ≡ flat_map encoding (events_replies wanted (fresh_ask_state order) events) }
    ensures commands { (order : Order) (wanted : Wanted) (c : Conversation) (events : List Event)
        (input sent : List ℕ) → GoesOnIn (fresh_conversation order wanted) events input sent c →
        commands_in events ≡ received_in input }
    ensures in_turn { (order : Order) (wanted : Wanted) (c : Conversation) (events : List Event)
        (input sent : List ℕ) → GoesOnIn (fresh_conversation order wanted) events input sent c →
        IsInTurn wanted (fresh_ask_state order) events }
    ensures given { (order : Order) (wanted : Wanted) (c : Conversation) (events : List Event)
        (input sent : List ℕ) → GoesOnIn (fresh_conversation order wanted) events input sent c →
        c.state ≡ (given_steps wanted (fresh_in order) (received_in input) (answers_in events)).after }
{
    answers_in_turn();
}
