//! A session that is played over one connection on which everything arrives.

ghost use Rattle.std.specs.Prelude.{◌≡◌, All, IfOk, OnOk, true};
ghost use Rattle.std.specs.List.{AllZip};
ghost use Rattle.milter_world.specs.Rounds.{round};
ghost use Rattle.milter_world.specs.Schedule.{Scenario};
ghost use Rattle.milter_world.specs.DialogueReports.{HasAllVerdicts, IsRuledBy, is_by_verdict};
ghost use Rattle.milter_world.specs.Ends.{AreEndsOf};
ghost use Rattle.milter_world.specs.Outcomes.{ConnectionIsGiven};
ghost use Rattle.milter_world.specs.Reached.{AreReached, Leads, scenario_of};

use crate::event_line::Event;
use crate::laws::{rounds_move_on, undisturbed_schedules_are_ruled};
use crate::state::State;
use crate::world::World;
use milter_filter::Policy;
use milter_mail::Session;
use milter_mta::{Config, Reports};
use milter_wire::NoMemory;
use std::alloc::Global;

/// All bytes that are there.
const ALL: usize = usize::MAX;

/// Plays a session to the filter with this policy, over one connection that is not lost and on which all bytes arrive,
/// until every message is settled. After `NoMemory` nothing is left of the session.
pub fn play<P: Policy>(
    alloc: Global,
    config: Config,
    session: Session,
    policy: &P,
) -> Result<Reports, NoMemory>
    // There is a report for each message, in order, each with the outcome that its own dialogue with the filter rules,
    ensures dialogues { IfOk result (λ s. AllZip
        (IsRuledBy (scenario_of (P.behavior policy.now) config session)) session.messages s.messages) }
    // with all verdicts of the dialogue,
    ensures verdicts { IfOk result (λ s. AllZip
        (HasAllVerdicts (scenario_of (P.behavior policy.now) config session)) session.messages s.messages) }
    // and by the filter's verdict on the message or on its client.
    ensures causes { IfOk result (λ s. All (λ r. is_by_verdict r.settled_by ≡ true) s.messages) }
    // The verdict on the connection is there exactly where it settled messages.
    ensures connection { IfOk result ConnectionIsGiven }
{
    rounds_move_on();
    undisturbed_schedules_are_ruled();
    let world = World::new(alloc, config, session, policy)?;
    let mut world = world.step(Event::Dial)?;
    while let State::Linked(..) = world.state() {
        world = play_round(world)?;
    }
    Ok(world.into_reports())
}

/// Sends the packet that is due, if one is, and passes on all that is on its way, each way.
fn play_round<P: Policy>(world: World<'_, P>) -> Result<World<'_, P>, NoMemory>
    requires { AreReached (P.behavior world.policy) world }
    ensures { IfOk result (λ next. (p : Scenario) → p.filter ≡ P.behavior world.entry.policy →
        AreEndsOf p world.entry → Leads p world.entry (round ALL) next) }
{
    let mut world = world;
    match move_all(&mut world) {
        Ok(()) => Ok(world),
        Err(error) => {
            drop(world);
            Err(error)
        }
    }
}

/// Makes the four moves of a round, each of all bytes that are there.
fn move_all<P: Policy>(world: &mut World<'_, P>) -> Result<(), NoMemory>
    requires { AreReached (P.behavior world.old.policy) world.old }
    ensures { OnOk result ((p : Scenario) → p.filter ≡ P.behavior world.old.policy → AreEndsOf p world.old →
        Leads p world.old (round ALL) world.new) }
{
    world.apply(Event::Send(ALL))?;
    world.apply(Event::ToFilter(ALL))?;
    world.apply(Event::Answer(ALL))?;
    world.apply(Event::ToMta(ALL))
}
