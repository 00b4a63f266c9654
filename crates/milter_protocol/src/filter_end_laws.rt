//! Laws of a filter's end of a connection, each the contract of a function that does nothing.

ghost use Rattle.std.specs.Prelude.{◌≡◌, ◌++◌, ◌∷◌, [], List, Ok, Some, true, if◌then◌else◌};
ghost use Rattle.std.specs.Option.{option_or};
ghost use Rattle.milter_wire.specs.declared.command.Command.{Command};
ghost use Rattle.milter_wire.specs.declared.stage.Stage.{Stage as At};
ghost use Rattle.milter_wire.specs.Stages.{stage_of};
ghost use Rattle.milter_protocol.specs.Behavior.{Behavior};
ghost use Rattle.milter_protocol.specs.Exchanges.{Exchange};
ghost use Rattle.milter_protocol.specs.Commands.{is_of_connection, is_shown};
ghost use Rattle.milter_protocol.specs.FilterEnds.{FilterEnd, Received, after, fault_at, replies, start};
ghost use Rattle.milter_protocol.specs.Transcripts.{negotiated_by, negotiated_in, begins_anew, ends_message, last_rank, of_connection, rank_from, shown};
ghost use Rattle.milter_protocol.specs.declared.stage_order.CommandOrder.{CommandOrder as Order};
ghost use Rattle.milter_protocol.specs.declared.filter_fault.FilterFault.TheVariants.{OutOfOrder};
ghost use Rattle.milter_protocol.specs.Aborts.{AreTakenAlike, is_within_message, replies_by, taken_by};
ghost use Rattle.milter_protocol.specs.OrderStates.{OrderState, fresh, fresh_in, rank_by, order_state_after, order_state_of, order_state_replies};

/// Going on by some commands and then by others is going on by all of them in a row.
pub fn filter_ends_go_on()
    ensures filter_end { (b : Behavior) (c : FilterEnd) (first second : List Received) →
        after b c (first ++ second) ≡ after b (after b c first) second }
    ensures replies { (b : Behavior) (c : FilterEnd) (first second : List Received) →
        replies b c (first ++ second) ≡ replies b c first ++ replies b (after b c first) second }
{}

/// One exchange more: what was negotiated, what is shown, and the rank of the last stage.
pub fn parts_of_transcripts()
    ensures negotiated { (b : Behavior) (exchange : Exchange) (before : List Exchange) →
        negotiated_in b (exchange ∷ before) ≡ option_or (negotiated_by b exchange.command) (negotiated_in b before) }
    ensures connection { (exchange : Exchange) (before : List Exchange) →
        of_connection (exchange ∷ before)
        ≡ (if begins_anew exchange then []
        else if is_of_connection exchange.command then exchange.command ∷ of_connection before
        else of_connection before) }
    ensures shown { (exchange : Exchange) (before : List Exchange) →
        shown (exchange ∷ before)
        ≡ (if ends_message exchange then of_connection (exchange ∷ before)
        else if is_shown exchange.command then exchange.command ∷ shown before
        else shown before) }
    ensures rank { (exchange : Exchange) (before : List Exchange) →
        last_rank (exchange ∷ before)
        ≡ (if begins_anew exchange then 0
        else rank_from (ends_message exchange) (rank_by (last_rank before) (stage_of exchange.command))) }
{}

/// What is kept of a connection goes on as the connection does, with the same replies.
pub fn order_states_of_filter_ends()
    ensures fresh { (b : Behavior) → order_state_of b start ≡ fresh }
    ensures order_state { (b : Behavior) (c : FilterEnd) (received : List Received) →
        order_state_of b (after b c received) ≡ order_state_after b (order_state_of b c) received }
    ensures replies { (b : Behavior) (c : FilterEnd) (received : List Received) →
        replies b c received ≡ order_state_replies b (order_state_of b c) received }
{}

/// Going on by some commands and then by others is going on by all of them in a row, from whatever is kept.
pub fn order_states_go_on()
    ensures order_state { (b : Behavior) (s : OrderState) (first second : List Received) →
        order_state_after b s (first ++ second) ≡ order_state_after b (order_state_after b s first) second }
    ensures replies { (b : Behavior) (s : OrderState) (first second : List Received) →
        order_state_replies b s (first ++ second)
        ≡ order_state_replies b s first ++ order_state_replies b (order_state_after b s first) second }
{}

/// What an end that takes commands in either order comes to is what the commands come to that it takes them for: in the
/// lenient order an abort comes before each greeting and each sender within a message, and a DATA command that is
/// refused within a message is left out. Each command is replied to at its place, that DATA command too.
pub fn lenient_orders()
    ensures state { (b : Behavior) (order : Order) (received : List Received) →
        (order_state_after b (fresh_in order) received).state ≡ (after b start (taken_by order b received)).state }
    ensures replies { (b : Behavior) (order : Order) (received : List Received) →
        order_state_replies b (fresh_in order) received ≡ replies_by order b received }
{}

/// Where no greeting and no sender comes within a message, and the message is left after a DATA command that was
/// refused, an end comes to the same state in either order, with the same replies. A greeting or a sender within a
/// message is out of order for an end that takes commands in the strict order; their macros, which are of no stage,
/// never are.
pub fn orders_reply_the_same()
    ensures state { (b : Behavior) (order : Order) (received : List Received) → AreTakenAlike b start received →
        (order_state_after b (fresh_in order) received).state ≡ (order_state_after b fresh received).state }
    ensures replies { (b : Behavior) (order : Order) (received : List Received) → AreTakenAlike b start received →
        order_state_replies b (fresh_in order) received ≡ order_state_replies b fresh received }
    ensures beginning { (b : Behavior) (c : FilterEnd) (first second : List Received) →
        AreTakenAlike b c (first ++ second) → AreTakenAlike b c first }
    ensures out_of_order { (b : Behavior) (transcript : List Exchange) (command : Command) (stage : At) →
        stage_of command ≡ Some stage →
        is_within_message (negotiated_in b transcript) (last_rank transcript) (Ok command) ≡ true →
        fault_at b transcript (Ok command) ≡ Some OutOfOrder }
{}
