//! The law of pieces that move between both ends, as the contract of a function that does nothing.

ghost use Rattle.std.specs.Prelude.{◌≡◌, ◌≢◌, ◌≤◌, ◌<◌, ◌+◌, ◌++◌, [], List, None, drop, length, take, ℕ};
ghost use Rattle.milter_protocol.specs.Behavior.{Behavior};
ghost use Rattle.milter_protocol.specs.declared.stage_order.CommandOrder.{CommandOrder as Order};
ghost use Rattle.milter_protocol.specs.declared.filter_fault.FilterFault.{FilterFault as Fault};
ghost use Rattle.milter_filter.specs.Cores.{Core, GivesUp, Takes};
ghost use Rattle.milter_filter_stream.specs.Streams.{received_in};
ghost use Rattle.milter_mta.specs.Mta.{Mta};
ghost use Rattle.milter_mta.specs.Replies.{received};
ghost use Rattle.milter_mta.specs.Output.{advanced, pending, sent};
ghost use Rattle.milter_mta.specs.Lines.{Line};
ghost use Rattle.milter_world.specs.Answered.{AnswersLines};
ghost use Rattle.milter_world.specs.ByteCounts.{due, to_mta};
ghost use Rattle.milter_world.specs.declared.state.Counts.{Counts};
ghost use Rattle.milter_world.specs.Rounds.{AreCounts};
ghost use Rattle.milter_world.specs.FollowedLines.{IsMtaAt, SendsLines};
ghost use Rattle.milter_world.specs.Ends.{IsFilterAt};

use milter_filter::{Policy, cores_go_on};
use milter_mta::sent_bytes_add_up;

/// A piece of the bytes that are on their way to the filter's end is taken whole and without a fault, and nothing is on
/// its way there while it has bytes to answer. A piece that it answers, one that reaches the mail server's end, and one
/// that this sends leave both ends where the counts say.
pub fn pieces_move<P: Policy>()
    ensures takes { (b : Behavior) (order : Order) (policy : P) (lines : List Line) (c : Counts) (core new : Core P)
        (pipe piece rest : List ℕ) (n : ℕ) → AnswersLines order b lines → AreCounts lines c →
        IsFilterAt b order policy lines c core pipe → piece ++ rest ≡ pipe → core.pending ≡ [] →
        Takes b core piece n new →
        (n ≡ length piece)
        × IsFilterAt b order policy lines (record c { taken = c.taken + length piece }) new rest
        × AreCounts lines (record c { taken = c.taken + length piece }) }
    ensures fails_not { (b : Behavior) (order : Order) (policy : P) (lines : List Line) (c : Counts) (core : Core P)
        (pipe piece rest : List ℕ) (fault : Fault) → AnswersLines order b lines → AreCounts lines c →
        IsFilterAt b order policy lines c core pipe → piece ++ rest ≡ pipe → core.pending ≡ [] →
        ¬ GivesUp b core.order_state (received_in (core.unread ++ piece)) fault }
    ensures none_on_way { (b : Behavior) (order : Order) (policy : P) (lines : List Line) (c : Counts) (core : Core P)
        (pipe : List ℕ) → AnswersLines order b lines → AreCounts lines c → IsFilterAt b order policy lines c core pipe →
        core.pending ≢ [] → pipe ≡ [] }
    ensures answers { (b : Behavior) (order : Order) (policy : P) (lines : List Line) (c : Counts) (core : Core P)
        (pipe : List ℕ) (n : ℕ) → AnswersLines order b lines → AreCounts lines c →
        IsFilterAt b order policy lines c core pipe →
        IsFilterAt b order policy lines (record c { answered = c.answered + length (take n core.pending) })
        (record core { pending = drop n core.pending }) pipe }
    ensures receives_bytes { (opened m : Mta) (lines : List Line) (c : Counts) (back piece rest : List ℕ) →
        SendsLines opened lines → AreCounts lines c → IsMtaAt opened lines c m →
        take c.received (to_mta lines) ++ back ≡ take c.answered (to_mta lines) → piece ++ rest ≡ back →
        ((received m piece).loss ≡ None)
        × IsMtaAt opened lines (record c { received = c.received + length piece }) (received m piece).mta }
    ensures sends { (opened m : Mta) (lines : List Line) (c : Counts) (k : ℕ) → SendsLines opened lines →
        AreCounts lines c → IsMtaAt opened lines c m → c.sent < due lines c.received →
        k ≤ length (pending (advanced m)) →
        IsMtaAt opened lines (record c { sent = c.sent + k }) (sent k (advanced m)) }
{
    cores_go_on::<P>();
    sent_bytes_add_up();
}
