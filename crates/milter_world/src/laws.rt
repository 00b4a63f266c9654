//! Laws of what becomes of a session over connections that fail, each the contract of a function that does nothing.

ghost use Rattle.std.specs.Prelude.{◌≡◌, ◌⊎◌, ◌≤◌, ◌<◌, ◌+◌, All, List, length, min, true, ℕ, ◌≢◌};
ghost use Rattle.std.specs.List.{AllZip};
ghost use Rattle.milter_message.specs.MailObject.{MailObject};
ghost use Rattle.milter_mta_outcome.specs.declared.outcome.Report.{Report};
ghost use Rattle.milter_mta_outcome.specs.Dialogues.{acted};
ghost use Rattle.milter_mta.specs.Lines.{Line};
ghost use Rattle.milter_world.specs.ByteCounts.{due, packet_end, to_filter, to_mta};
ghost use Rattle.milter_world.specs.ConnectionEntries.{reports_within};
ghost use Rattle.milter_world.specs.declared.event_line.Event.{Event};
ghost use Rattle.milter_world.specs.declared.state.Counts.{Counts};
ghost use Rattle.milter_world.specs.declared.state.State.TheVariants.{Done, Linked};
ghost use Rattle.milter_world.specs.Rounds.{AreCounts, MovesOn, after_round, round, to_move};
ghost use Rattle.milter_world.specs.Schedule.{Scenario, after_all, entries_at, first, lines_at, run_reports, stays};
ghost use Rattle.milter_world.specs.DialogueReports.{AreNegotiated, AreReported, HasAllVerdicts, IsDefaultAfter, IsReportOf, IsRuledBy, IsUndisturbed, StartsWith, WasGiven, negotiated_of, by_reset, by_timeout, count_events, count_reports, is_by_verdict, is_known, is_lose, is_timeout, dialogue_about};
ghost use Rattle.milter_text.specs.Lines.{contents};
ghost use Rattle.milter_world.specs.declared.event_fault.EventFault.{EventFault};
ghost use Rattle.milter_world.specs.declared.event_fault.EventFault.TheVariants as faults;
ghost use Rattle.milter_world.specs.declared.event_file.TheConstants.{EVENTS_MAX};
ghost use Rattle.milter_world.specs.EventFault.{IsFaultOf};
ghost use Rattle.milter_world.specs.EventFile.{IsEventFile};

use milter_mta::{closed_dialogues_rule, dialogues_of_messages, plans_are_sent};
use milter_protocol::{dialogues, permitted_answers};

/// Whatever happens, the first messages of the session are reported, in order, each as its own dialogue with the filter
/// rules, or by default after a beginning of that dialogue.
pub fn schedules_report_dialogues()
    ensures { (p : Scenario) (events : List Event) → AreReported p p.session.messages (run_reports p events) }
{
    closed_dialogues_rule();
    plans_are_sent();
    dialogues_of_messages();
}

/// At most one report is by default for each loss, and for each timeout; and no report is by another cause than the
/// filter's verdicts, on the message or on the connection, and these.
pub fn defaults_are_counted()
    ensures reset { (p : Scenario) (events : List Event) →
        count_reports by_reset (run_reports p events) ≤ count_events is_lose events }
    ensures timeout { (p : Scenario) (events : List Event) →
        count_reports by_timeout (run_reports p events) ≤ count_events is_timeout events }
    ensures causes { (p : Scenario) (events : List Event) →
        All (λ r. is_known r.settled_by ≡ true) (run_reports p events) }
{
    closed_dialogues_rule();
    plans_are_sent();
    dialogues_of_messages();
}

/// At least as many messages are reported as there are losses and timeouts, or all; and all are where the session is
/// over.
pub fn losses_settle_messages()
    ensures losses { (p : Scenario) (events : List Event) →
        min (count_events is_lose events + count_events is_timeout events) (length p.session.messages)
        ≤ length (run_reports p events) }
    ensures done { (p : Scenario) (events : List Event) → (after_all p (stays (first p)) events).state ≡ Done →
        length (run_reports p events) ≡ length p.session.messages }
{
    closed_dialogues_rule();
    plans_are_sent();
    dialogues_of_messages();
}

/// Without a loss or a timeout, a session that is over has a report for each message, in order, as its own dialogue
/// with the filter rules: by a verdict of the filter on the message or on its client, with all verdicts of the
/// dialogue.
pub fn undisturbed_schedules_are_ruled()
    ensures ruled { (p : Scenario) (events : List Event) → IsUndisturbed p events →
        AllZip (IsRuledBy p) p.session.messages (run_reports p events) }
    ensures verdicts { (p : Scenario) (events : List Event) → IsUndisturbed p events →
        AllZip (HasAllVerdicts p) p.session.messages (run_reports p events) }
    ensures causes { (p : Scenario) (events : List Event) → IsUndisturbed p events →
        All (λ r. is_by_verdict r.settled_by ≡ true) (run_reports p events) }
{
    defaults_are_counted();
    losses_settle_messages();
    schedules_report_dialogues();
}

/// The verdicts that a default reports are the first ones of the dialogue about the message.
pub fn beginnings_are_acted_on()
    ensures { (p : Scenario) (message : MailObject) (r : Report) → IsDefaultAfter p message r →
        StartsWith r.acted (acted (dialogue_about p message)) }
{}

/// Each verdict that a report says was acted on is what the filter gives at a command of the dialogue about the
/// message, of which it is the nth of its stage; and each edit of the dialogue was negotiated.
pub fn verdicts_were_given()
    ensures verdicts { (p : Scenario) (message : MailObject) (r : Report) → IsReportOf p message r →
        All (WasGiven p message) r.acted }
    ensures edits { (p : Scenario) (message : MailObject) →
        All (AreNegotiated (negotiated_of p)) (dialogue_about p message) }
{
    permitted_answers();
    dialogues();
}

/// A round in which each of the four moves comes brings a living connection nearer to its end, or ends it; and where
/// all bytes of a connection were received, each message is reported as its dialogue rules.
pub fn rounds_move_on()
    ensures waits { (lines : List Line) (c : Counts) (n : ℕ) → AreCounts lines c → 0 < n →
        c.sent ≡ due lines c.received → to_move lines (after_round lines c n) < to_move lines c }
    ensures sends { (lines : List Line) (c : Counts) (n : ℕ) → AreCounts lines c → 0 < n →
        c.sent < due lines c.received →
        min (c.sent + n) (packet_end lines c.sent) < length (to_filter lines) →
        to_move lines (after_round lines (record c { sent = min (c.sent + n) (packet_end lines c.sent) }) n)
        < to_move lines c }
    ensures goes_on { (p : Scenario) (settled n : ℕ) (c : Counts) (reports : List Report) → 0 < n →
        AreCounts (lines_at p settled) c → c.lives ≡ true →
        let after = after_all p (record { state = Linked settled c; reports = reports }) (round n) in
        (after.state ≡ Done) ⊎ MovesOn (lines_at p settled) settled c after.state }
    ensures all_received { (p : Scenario) (received : ℕ) → length (to_mta (lines_at p 0)) ≤ received →
        AllZip (IsRuledBy p) p.session.messages (reports_within (entries_at p 0) received) }
{
    closed_dialogues_rule();
    plans_are_sent();
    dialogues_of_messages();
}

/// The number that the definitions name: the most events of a file.
pub fn event_limit()
    ensures { EVENTS_MAX ≡ 10000000 }
{}

/// A file has its events in one way only, and it has none where a line is at fault.
pub fn events_of_files()
    ensures only { (bytes : List ℕ) (events others : List Event) → IsEventFile bytes events →
        IsEventFile bytes others → events ≡ others }
    ensures none { (bytes : List ℕ) (fault : EventFault) (events : List Event) → IsFaultOf (contents bytes) fault →
        fault ≢ faults.NoMemory → ¬ IsEventFile bytes events }
{}
