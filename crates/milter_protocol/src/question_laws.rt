//! Laws of a filter's end whose caller answers, each the contract of a function that does nothing.

ghost use Rattle.std.specs.Prelude.{◌≡◌, List};
ghost use Rattle.milter_protocol.specs.Behavior.{Behavior};
ghost use Rattle.milter_protocol.specs.FilterEnds.{Received};
ghost use Rattle.milter_protocol.specs.GivenAnswers.{IsInTurn, given_steps, without_reports};
ghost use Rattle.milter_protocol.specs.OrderStates.{fresh_in, order_state_after, order_state_replies};
ghost use Rattle.milter_protocol.specs.Questions.{Event, Wanted, answers_in, commands_in, event_step, events_after, events_replies, events_with, fresh_ask_state, unquestioned, wanted_of};
ghost use Rattle.milter_protocol.specs.Steps.{steps};
ghost use Rattle.milter_protocol.specs.declared.stage_order.CommandOrder.{CommandOrder as Order};

/// With the answers of a policy, each given to the question that its command asks, an end whose caller answers is the
/// end over that policy, in either order: the same replies, the same is kept, and no question is left open.
pub fn policies_answer()
    ensures commands { (b : Behavior) (order : Order) (received : List Received) →
        commands_in (events_with b (fresh_in order) received) ≡ received }
    ensures in_turn { (b : Behavior) (order : Order) (received : List Received) →
        IsInTurn (wanted_of b) (fresh_ask_state order) (events_with b (fresh_in order) received) }
    ensures replies { (b : Behavior) (order : Order) (received : List Received) →
        events_replies (wanted_of b) (fresh_ask_state order) (events_with b (fresh_in order) received)
        ≡ order_state_replies b (fresh_in order) received }
    ensures kept { (b : Behavior) (order : Order) (received : List Received) →
        events_after (wanted_of b) (fresh_ask_state order) (events_with b (fresh_in order) received)
        ≡ unquestioned (order_state_after b (fresh_in order) received) }
{}

/// Where each command comes while no question is open, and each answer while one is, the commands and the answers
/// determine what is kept, and the replies but for reports of progress: each question takes the next answer.
pub fn answers_in_turn()
    ensures steps { (order : Order) (wanted : Wanted) (events : List Event) →
        IsInTurn wanted (fresh_ask_state order) events →
        steps (event_step wanted) (fresh_ask_state order) (without_reports events)
        ≡ given_steps wanted (fresh_in order) (commands_in events) (answers_in events) }
    ensures kept { (order : Order) (wanted : Wanted) (events : List Event) →
        IsInTurn wanted (fresh_ask_state order) events →
        events_after wanted (fresh_ask_state order) events
        ≡ (given_steps wanted (fresh_in order) (commands_in events) (answers_in events)).after }
{}
