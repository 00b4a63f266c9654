//! What the turns of a connection come to, each the contract of a function that does nothing.

ghost use Rattle.std.specs.Prelude.{◌≡◌, ◌∷◌, ◌++◌, [], List, Option, Some, ℕ};
ghost use Rattle.milter_wire.specs.declared.stage.Stage.{Stage as At};
ghost use Rattle.milter_wire.specs.declared.stage.Stage.TheVariants.{Eob};
ghost use Rattle.milter_protocol.specs.Questions.{Answered, Event, ProgressReported, Wanted};
ghost use Rattle.milter_protocol.specs.declared.answer.Answer.{Answer as Given};
ghost use Rattle.milter_protocol.specs.declared.stage_order.CommandOrder.{CommandOrder as Order};
ghost use Rattle.milter_filter.specs.declared.turn.Served.{Served as End};
ghost use Rattle.milter_filter.specs.declared.turn.Turn.{Turn as Pause};
ghost use Rattle.milter_filter.specs.Connections.{Connected, ConversesAs, EndsAs, GoesFrom, IsOpen, RepliesTo, Turns, connected_answered, connected_reporting, fresh_connected};

/// Turns, answers and reports of progress in any order: each goes on from what was before, by all that happened.
pub fn connections_go_on()
    ensures begins { (order : Order) (wanted : Wanted) (unread written : Option (List ℕ)) →
        GoesFrom (fresh_connected order wanted) [] unread unread written written (fresh_connected order wanted) }
    ensures opens { (order : Order) (wanted : Wanted) → IsOpen (fresh_connected order wanted) }
    ensures turns { (old between new : Connected) (events more : List Event)
        (unread rest left written then all : Option (List ℕ)) (turn : Pause) →
        GoesFrom old events unread rest written then between → IsOpen between →
        Turns between more rest left then all new turn → Turns old (events ++ more) unread left written all new turn }
    ensures answers { (old c : Connected) (events : List Event) (unread left written all : Option (List ℕ))
        (stage : At) (answer : Given) →
        GoesFrom old events unread left written all c → c.conversation.state.asked ≡ Some stage →
        GoesFrom old (events ++ Answered answer ∷ []) unread left written all (connected_answered c answer) }
    ensures reports { (old c : Connected) (events : List Event) (unread left written all : Option (List ℕ)) →
        GoesFrom old events unread left written all c → c.conversation.state.asked ≡ Some Eob →
        GoesFrom old (events ++ ProgressReported ∷ []) unread left written all (connected_reporting c) }
    ensures stays_open { (c : Connected) (answer : Given) → IsOpen c →
        IsOpen (connected_answered c answer) × IsOpen (connected_reporting c) }
{}

/// What a connection comes to from its beginning. What was written and what is pending are the replies to all that
/// happened: the commands that came in the bytes that were read, but for those that wait, and the answers that were
/// given. So all replies are written where nothing is pending. And how it ends: unless memory was refused or a write
/// failed, all that was read is taken and replied to.
pub fn connections_reply()
    ensures replies { (order : Order) (wanted : Wanted) (c : Connected) (events : List Event)
        (unread left written all : Option (List ℕ)) →
        GoesFrom (fresh_connected order wanted) events unread left written all c →
        RepliesTo order wanted events unread left written all c.waiting c.conversation.pending }
    ensures ends { (order : Order) (wanted : Wanted) (events : List Event)
        (unread left written all : Option (List ℕ)) (end : End) →
        EndsAs (fresh_connected order wanted) events unread left written all end →
        ConversesAs order wanted events unread left written all end }
{}
