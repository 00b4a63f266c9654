//! Laws of what an event does to both ends and the bytes between them, each the contract of a function that does
//! nothing.

ghost use Rattle.std.specs.Prelude.{◌≡◌, ◌≢◌, ◌<◌, ◌+◌, ◌^◌, ◌++◌, [], List, None, Some, drop, false, length, take, true, ℕ};
ghost use Rattle.milter_protocol.specs.declared.stage_order.CommandOrder.{CommandOrder as Order};
ghost use Rattle.milter_protocol.specs.declared.filter_fault.FilterFault.{FilterFault as Fault};
ghost use Rattle.milter_protocol.specs.declared.filter_fault.FilterState.TheVariants.{Serving};
ghost use Rattle.milter_filter.specs.Cores.{Core, GivesUp, Takes, fresh_core_in};
ghost use Rattle.milter_filter_stream.specs.Streams.{received_in};
ghost use Rattle.milter_mta_outcome.specs.declared.loss.Loss.{Loss};
ghost use Rattle.milter_mta.specs.declared.mta_core.Want.TheVariants as wants;
ghost use Rattle.milter_mta.specs.Mta.{fresh as fresh_mta};
ghost use Rattle.milter_mta.specs.Replies.{received};
ghost use Rattle.milter_mta.specs.Output.{advanced, dialled, pending, want};
ghost use Rattle.milter_mta.specs.Dispositions.{lost};
ghost use Rattle.milter_world.specs.declared.event_line.Event.{Event};
ghost use Rattle.milter_world.specs.declared.event_line.Event.TheVariants.{Answer, Dial, Die, Send, ToFilter, ToMta};
ghost use Rattle.milter_world.specs.declared.state.Counts.{Counts};
ghost use Rattle.milter_world.specs.declared.state.State.TheVariants.{Done, Idle, Linked};
ghost use Rattle.milter_world.specs.Schedule.{Scenario, first, fresh, happens};
ghost use Rattle.milter_world.specs.Ends.{AreEndsOf, Ends, IsLossBy, IsOfConnection, IsOfFilter, IsPossible, Steps, fresh_ends, lost_ends, mta_sent, sent_count};

use milter_filter::{Policy, cores_go_on};
use milter_mta::{
    connections_are_reported, losses_settle_one, messages_are_settled_by_dialogues,
    sending_settles_nothing, sent_bytes_add_up,
};

/// Before their first connection both ends of a scenario that is possible are where the schedule begins; a connection
/// is wanted exactly where the schedule has one made first.
pub fn fresh_ends_begin<P: Policy>()
    ensures begins { (p : Scenario) (order : Order) (policy : P) → IsPossible p →
        AreEndsOf p (fresh_ends p order policy) }
    ensures dials { (p : Scenario) → want (fresh_mta p.config p.session) ≡ wants.Dial → first p ≡ Idle 0 }
    ensures over { (p : Scenario) → want (fresh_mta p.config p.session) ≢ wants.Dial → first p ≡ Done }
{
    connections_are_reported();
    messages_are_settled_by_dialogues();
}

/// An event that can't apply changes nothing: a dial where there is a connection or all is over, a move where there is
/// no connection or the filter that it needs is dead, and a call to send where no packet is due.
pub fn events_without_effect<P: Policy>()
    ensures no_dial { (p : Scenario) (ends : Ends P) → AreEndsOf p ends →
        ((settled : ℕ) → ends.state ≢ Idle settled) → Steps p ends Dial ends }
    ensures unconnected { (p : Scenario) (ends : Ends P) (event : Event) → AreEndsOf p ends →
        ((settled : ℕ) (c : Counts) → ends.state ≢ Linked settled c) → IsOfConnection event →
        Steps p ends event ends }
    ensures over { (p : Scenario) (ends : Ends P) (event : Event) → AreEndsOf p ends → ends.state ≡ Done →
        Steps p ends event ends }
    ensures dead { (p : Scenario) (ends : Ends P) (event : Event) → AreEndsOf p ends → ends.filter ≡ None →
        IsOfFilter event → Steps p ends event ends }
    ensures sends_not { (p : Scenario) (ends : Ends P) (settled : ℕ) (c : Counts) (n : ℕ) → AreEndsOf p ends →
        ends.state ≡ Linked settled c → want ends.mta ≢ wants.Send → Steps p ends (Send n) ends }
{}

/// A connection that is made has a fresh filter's end, in the order in which all take commands, and nothing on its way.
pub fn dialled_ends_step<P: Policy>()
    ensures { (p : Scenario) (ends : Ends P) (settled : ℕ) → AreEndsOf p ends → ends.state ≡ Idle settled →
        Steps p ends Dial (record {
          policy = ends.policy;
          order = ends.order;
          mta = dialled ends.mta;
          filter = Some (fresh_core_in ends.order ends.policy);
          to_filter = [];
          to_mta = [];
          state = Linked settled fresh;
        }) }
{
    connections_are_reported();
    cores_go_on::<P>();
    messages_are_settled_by_dialogues();
}

/// Where a packet is due its bytes are sent, and are on their way while the filter lives; after the last byte of the
/// connection all is over. The count stays within its type.
pub fn sent_bytes_step<P: Policy>()
    ensures sends { (p : Scenario) (ends : Ends P) (settled : ℕ) (c : Counts) (n : ℕ) (pipe : List ℕ) →
        AreEndsOf p ends → ends.state ≡ Linked settled c → want ends.mta ≡ wants.Send →
        want (mta_sent n ends.mta) ≢ wants.Done →
        (c.lives ≡ true → pipe ≡ ends.to_filter ++ take (sent_count n ends.mta) (pending (advanced ends.mta))) →
        Steps p ends (Send n) (record ends {
          mta = mta_sent n ends.mta;
          to_filter = pipe;
          state = Linked settled (record c { sent = c.sent + sent_count n ends.mta });
        }) }
    ensures sends_last { (p : Scenario) (ends : Ends P) (settled : ℕ) (c : Counts) (n : ℕ) (pipe : List ℕ) →
        AreEndsOf p ends → ends.state ≡ Linked settled c → want ends.mta ≡ wants.Send →
        want (mta_sent n ends.mta) ≡ wants.Done →
        Steps p ends (Send n) (record ends { mta = mta_sent n ends.mta; to_filter = pipe; state = Done }) }
    ensures short { (p : Scenario) (ends : Ends P) (settled : ℕ) (c : Counts) (n : ℕ) → AreEndsOf p ends →
        ends.state ≡ Linked settled c → want ends.mta ≡ wants.Send → c.sent + sent_count n ends.mta < 2 ^ 128 }
{
    connections_are_reported();
    messages_are_settled_by_dialogues();
    sent_bytes_add_up();
}

/// Bytes that reach the filter's end are taken whole: it serves, has its policy and fails at none of them. While it has
/// bytes to answer none are on their way to it. The count stays within its type.
pub fn taken_bytes_step<P: Policy>()
    ensures takes { (p : Scenario) (ends : Ends P) (settled : ℕ) (c : Counts) (core new : Core P) (n count : ℕ) →
        AreEndsOf p ends → ends.state ≡ Linked settled c → ends.filter ≡ Some core → core.pending ≡ [] →
        Takes p.filter core (take n ends.to_filter) count new →
        (count ≡ length (take n ends.to_filter))
        × Steps p ends (ToFilter n) (record ends {
          filter = Some new;
          to_filter = drop n ends.to_filter;
          state = Linked settled (record c { taken = c.taken + length (take n ends.to_filter) });
        }) }
    ensures waits { (p : Scenario) (ends : Ends P) (settled : ℕ) (c : Counts) (core : Core P) (n : ℕ) →
        AreEndsOf p ends → ends.state ≡ Linked settled c → ends.filter ≡ Some core → core.pending ≢ [] →
        (length (take n ends.to_filter) ≡ 0)
        × Steps p ends (ToFilter n) (record ends {
          state = Linked settled (record c { taken = c.taken + length (take n ends.to_filter) });
        }) }
    ensures serves { (p : Scenario) (ends : Ends P) (settled : ℕ) (c : Counts) (core : Core P) → AreEndsOf p ends →
        ends.state ≡ Linked settled c → ends.filter ≡ Some core → core.order_state.state ≡ Serving }
    ensures same_policy { (p : Scenario) (ends : Ends P) (settled : ℕ) (c : Counts) (core : Core P) →
        AreEndsOf p ends → ends.state ≡ Linked settled c → ends.filter ≡ Some core → core.policy ≡ ends.policy }
    ensures fails_not { (p : Scenario) (ends : Ends P) (settled : ℕ) (c : Counts) (core : Core P) (n : ℕ)
        (fault : Fault) → AreEndsOf p ends → ends.state ≡ Linked settled c → ends.filter ≡ Some core →
        core.pending ≡ [] →
        ¬ GivesUp p.filter core.order_state (received_in (core.unread ++ take n ends.to_filter)) fault }
    ensures short { (p : Scenario) (ends : Ends P) (settled : ℕ) (c : Counts) (core : Core P) (n : ℕ) →
        AreEndsOf p ends → ends.state ≡ Linked settled c → ends.filter ≡ Some core →
        c.taken + length (take n ends.to_filter) < 2 ^ 128 }
{
    cores_go_on::<P>();
}

/// Bytes that the filter's end answers are on their way to the mail server's end, and stay so where it dies; what was
/// on its way to it is gone then. The count stays within its type.
pub fn answered_bytes_step<P: Policy>()
    ensures answers { (p : Scenario) (ends : Ends P) (settled : ℕ) (c : Counts) (core : Core P) (n : ℕ) →
        AreEndsOf p ends → ends.state ≡ Linked settled c → ends.filter ≡ Some core →
        Steps p ends (Answer n) (record ends {
          filter = Some (record core { pending = drop n core.pending });
          to_mta = ends.to_mta ++ take n core.pending;
          state = Linked settled (record c { answered = c.answered + length (take n core.pending) });
        }) }
    ensures dies { (p : Scenario) (ends : Ends P) (settled : ℕ) (c : Counts) → AreEndsOf p ends →
        ends.state ≡ Linked settled c →
        Steps p ends Die (record ends {
          filter = None;
          to_filter = [];
          state = Linked settled (record c { lives = false });
        }) }
    ensures short { (p : Scenario) (ends : Ends P) (settled : ℕ) (c : Counts) (core : Core P) (n : ℕ) →
        AreEndsOf p ends → ends.state ≡ Linked settled c → ends.filter ≡ Some core →
        c.answered + length (take n core.pending) < 2 ^ 128 }
{
    cores_go_on::<P>();
}

/// Bytes that reach the mail server's end are no loss. The count stays within its type.
pub fn received_bytes_step<P: Policy>()
    ensures receives_bytes { (p : Scenario) (ends : Ends P) (settled : ℕ) (c : Counts) (n : ℕ) → AreEndsOf p ends →
        ends.state ≡ Linked settled c →
        Steps p ends (ToMta n) (record ends {
          mta = (received ends.mta (take n ends.to_mta)).mta;
          to_mta = drop n ends.to_mta;
          state = Linked settled (record c { received = c.received + length (take n ends.to_mta) });
        }) }
    ensures not_lost { (p : Scenario) (ends : Ends P) (settled : ℕ) (c : Counts) (n : ℕ) → AreEndsOf p ends →
        ends.state ≡ Linked settled c → (received ends.mta (take n ends.to_mta)).loss ≡ None }
    ensures short { (p : Scenario) (ends : Ends P) (settled : ℕ) (c : Counts) (n : ℕ) → AreEndsOf p ends →
        ends.state ≡ Linked settled c → c.received + length (take n ends.to_mta) < 2 ^ 128 }
{
    connections_are_reported();
    messages_are_settled_by_dialogues();
}

/// A connection that is lost, or can't be made, leaves what a loss leaves of the mail server's end; it wants another
/// connection exactly where the schedule has one made.
pub fn lost_ends_step<P: Policy>()
    ensures loses { (p : Scenario) (ends : Ends P) (event : Event) (loss : Loss) → AreEndsOf p ends →
        ends.state ≢ Done → IsLossBy loss event →
        Steps p ends event (lost_ends loss ends (happens p ends.state event).state) }
    ensures dials_again { (p : Scenario) (ends : Ends P) (event : Event) (loss : Loss) → AreEndsOf p ends →
        ends.state ≢ Done → IsLossBy loss event → want (lost loss ends.mta) ≡ wants.Dial →
        (happens p ends.state event).state ≡ Idle (length (lost loss ends.mta).reports) }
    ensures ends_then { (p : Scenario) (ends : Ends P) (event : Event) (loss : Loss) → AreEndsOf p ends →
        ends.state ≢ Done → IsLossBy loss event → want (lost loss ends.mta) ≢ wants.Dial →
        (happens p ends.state event).state ≡ Done }
{
    connections_are_reported();
    losses_settle_one();
    messages_are_settled_by_dialogues();
    sending_settles_nothing();
}
