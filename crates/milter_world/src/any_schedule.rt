//! A session that is played while any events happen.

ghost use Rattle.std.specs.Prelude.{◌≡◌, ◌≤◌, ◌+◌, All, IfOk, length, min, true};
ghost use Rattle.milter_world.specs.Schedule.{run_reports};
ghost use Rattle.milter_world.specs.DialogueReports.{AreNegotiated, AreReported, negotiated_of, by_reset, by_timeout, count_events, count_reports, is_known, is_lose, is_timeout, dialogue_about};
ghost use Rattle.milter_world.specs.Outcomes.{ConnectionIsGiven, WereGiven};
ghost use Rattle.milter_world.specs.Reached.{scenario_of};

use crate::event_line::Event;
use crate::laws::{
    defaults_are_counted, losses_settle_messages, schedules_report_dialogues, verdicts_were_given,
};
use crate::world::World;
use milter_filter::{CommandOrder, Policy};
use milter_mail::Session;
use milter_mta::{Config, Reports};
use milter_wire::NoMemory;
use std::alloc::Global;

/// Plays a session to the filter with this policy while the events happen, one after the other, and answers with a
/// report for each message that they settle.
///
/// Whatever the events, the outcome of each of these messages is what asking the policy directly, stage by stage, and
/// applying its permitted edits in order to the original gives; or, at most once for each loss or timeout, the
/// configured default after a beginning of that same dialogue. After `NoMemory` nothing is left of the session.
///
/// The filter's end takes commands in the strict order; [`run_in_order`] is the same in either order.
pub fn run<P: Policy>(
    alloc: Global,
    config: Config,
    session: Session,
    policy: &P,
    events: &[Event],
) -> Result<Reports, NoMemory>
    // The reports are exactly those of the schedule that the events make.
    ensures reports { IfOk result (λ s.
        s.messages ≡ run_reports (scenario_of (P.behavior policy.now) config session) events.now) }
    // The first messages are reported, in order, each as its own dialogue rules, or by default after a beginning of it.
    ensures dialogues { IfOk result (λ s.
        AreReported (scenario_of (P.behavior policy.now) config session) session.messages s.messages) }
    // At most one report is by default for each loss,
    ensures resets { IfOk result (λ s. count_reports by_reset s.messages ≤ count_events is_lose events.now) }
    // and at most one for each timeout;
    ensures timeouts { IfOk result (λ s. count_reports by_timeout s.messages ≤ count_events is_timeout events.now) }
    // and no report has another cause than these, and the filter's verdicts on the message or on its client.
    ensures causes { IfOk result (λ s. All (λ r. is_known r.settled_by ≡ true) s.messages) }
    // At least as many messages are settled as there are losses and timeouts, or all.
    ensures settles { IfOk result (λ s.
        min (count_events is_lose events.now + count_events is_timeout events.now) (length session.messages)
        ≤ length s.messages) }
    // Each verdict that was acted on was given by the filter at this step of this message,
    ensures given { IfOk result (λ s.
        WereGiven (scenario_of (P.behavior policy.now) config session) session.messages s.messages) }
    // and each edit of a dialogue was negotiated.
    ensures edits { All (λ message. All
        (AreNegotiated (negotiated_of (scenario_of (P.behavior policy.now) config session)))
        (dialogue_about (scenario_of (P.behavior policy.now) config session) message)) session.messages }
    // The verdict on the connection is there exactly where it settled messages.
    ensures connection { IfOk result ConnectionIsGiven }
{
    run_in_order(alloc, config, session, policy, CommandOrder::Strict, events)
}

/// Plays a session as [`run`] does, to a filter's end that takes commands in this order: all that is said of `run` is
/// so in either order, since a mail server's end sends no greeting and no sender within a message. After `NoMemory`
/// nothing is left of the session.
pub fn run_in_order<P: Policy>(
    alloc: Global,
    config: Config,
    session: Session,
    policy: &P,
    order: CommandOrder,
    events: &[Event],
) -> Result<Reports, NoMemory>
    // The reports are exactly those of the schedule that the events make.
    ensures reports { IfOk result (λ s.
        s.messages ≡ run_reports (scenario_of (P.behavior policy.now) config session) events.now) }
    // The first messages are reported, in order, each as its own dialogue rules, or by default after a beginning of it.
    ensures dialogues { IfOk result (λ s.
        AreReported (scenario_of (P.behavior policy.now) config session) session.messages s.messages) }
    // At most one report is by default for each loss,
    ensures resets { IfOk result (λ s. count_reports by_reset s.messages ≤ count_events is_lose events.now) }
    // and at most one for each timeout;
    ensures timeouts { IfOk result (λ s. count_reports by_timeout s.messages ≤ count_events is_timeout events.now) }
    // and no report has another cause than these, and the filter's verdicts on the message or on its client.
    ensures causes { IfOk result (λ s. All (λ r. is_known r.settled_by ≡ true) s.messages) }
    // At least as many messages are settled as there are losses and timeouts, or all.
    ensures settles { IfOk result (λ s.
        min (count_events is_lose events.now + count_events is_timeout events.now) (length session.messages)
        ≤ length s.messages) }
    // Each verdict that was acted on was given by the filter at this step of this message,
    ensures given { IfOk result (λ s.
        WereGiven (scenario_of (P.behavior policy.now) config session) session.messages s.messages) }
    // and each edit of a dialogue was negotiated.
    ensures edits { All (λ message. All
        (AreNegotiated (negotiated_of (scenario_of (P.behavior policy.now) config session)))
        (dialogue_about (scenario_of (P.behavior policy.now) config session) message)) session.messages }
    // The verdict on the connection is there exactly where it settled messages.
    ensures connection { IfOk result ConnectionIsGiven }
{
    defaults_are_counted();
    losses_settle_messages();
    schedules_report_dialogues();
    verdicts_were_given();
    let mut world = World::with_order(alloc, config, session, policy, order)?;
    for event in events {
        world = world.step(*event)?;
    }
    Ok(world.into_reports())
}
