//! Both ends and what is on its way between them.

ghost use Rattle.std.specs.Prelude.{◌≡◌, IfOk, OnOk, []};
ghost use Rattle.milter_protocol.specs.declared.stage_order.CommandOrder.TheVariants.{Strict};
ghost use Rattle.milter_world.specs.declared.event_line.Event.TheVariants as events;
ghost use Rattle.milter_world.specs.declared.event_line.Event.{Event};
ghost use Rattle.milter_world.specs.Schedule.{Scenario};
ghost use Rattle.milter_world.specs.Ends.{AreEndsOf, IsLossBy, Steps, fresh_ends};
ghost use Rattle.milter_world.specs.Reached.{AreReached, StepsTo};

use crate::event_line::Event;
use crate::events::{
    answered_bytes_step, dialled_ends_step, events_without_effect, fresh_ends_begin,
    lost_ends_step, received_bytes_step, sent_bytes_step, taken_bytes_step,
};
use crate::moves::{feed_filter, feed_mta, send_bytes, take_replies};
use crate::scenario::possible_session;
use crate::state::{Counts, State};
use milter_fields::ByteQueue;
use milter_filter::{CommandOrder, FilterCore, Policy};
use milter_mail::Session;
use milter_mta::{Config, Loss, MtaCore, Reports, Want};
use milter_wire::NoMemory;
use std::alloc::Global;
use std::marker::Model;

/// A mail server's end with a session, a filter's end with a policy while one lives, and the bytes on their way between
/// them.
///
/// Both ends are those that serve over sockets, and are driven by their public calls. The value is both ends, the order
/// in which the filter's takes commands, the bytes on their way each way, and the state, which counts the bytes of the
/// connection.
#[derive(Drop)]
pub struct World<'p, P: Policy> {
    alloc: Global,
    policy: &'p P,
    order: CommandOrder,
    mta: MtaCore,
    filter: Option<FilterCore<'p, P>>,
    to_filter: ByteQueue,
    to_mta: ByteQueue,
    state: State,
}

impl<'p, P: Policy> Model for World<'p, P> {
    ghost use Rattle.milter_world.specs.Ends.{Ends};

    ghost Value = { Ends P };

    ghost view = { λ w. record {
      policy = w.policy.now;
      order = w.order;
      mta = w.mta;
      filter = w.filter;
      to_filter = w.to_filter;
      to_mta = w.to_mta;
      state = w.state;
    } };
}

/// Nothing has passed over a connection.
const NOTHING: Counts = Counts {
    sent: 0,
    taken: 0,
    answered: 0,
    received: 0,
    lives: true,
};

impl<'p, P: Policy> World<'p, P> {
    /// Both ends before their first connection, on each of which the filter's end takes commands in the strict order.
    /// Memory for all reports is reserved here. After `NoMemory` the session is given up.
    pub fn new(
        alloc: Global,
        config: Config,
        session: Session,
        policy: &'p P,
    ) -> Result<Self, NoMemory>
        ensures begins { IfOk result (λ world. world ≡ fresh_ends (record {
          filter = P.behavior policy.now;
          config = config;
          session = session;
        }) Strict policy.now) }
        ensures are { IfOk result (AreEndsOf (record {
          filter = P.behavior policy.now;
          config = config;
          session = session;
        })) }
    {
        World::with_order(alloc, config, session, policy, CommandOrder::Strict)
    }

    /// Both ends before their first connection, on each of which the filter's end takes commands in this order. Memory
    /// for all reports is reserved here. After `NoMemory` the session is given up.
    pub fn with_order(
        alloc: Global,
        config: Config,
        session: Session,
        policy: &'p P,
        order: CommandOrder,
    ) -> Result<Self, NoMemory>
        ensures begins { IfOk result (λ world. world ≡ fresh_ends (record {
          filter = P.behavior policy.now;
          config = config;
          session = session;
        }) order policy.now) }
        ensures are { IfOk result (AreEndsOf (record {
          filter = P.behavior policy.now;
          config = config;
          session = session;
        })) }
    {
        fresh_ends_begin::<P>();
        let session = possible_session(&config, session, policy);
        let Ok(mta) = MtaCore::new(alloc, config, session) else {
            return Err(NoMemory);
        };
        let state = match mta.want() {
            Want::Dial => State::Idle(0),
            _ => State::Done,
        };
        Ok(World {
            alloc,
            policy,
            order,
            mta,
            filter: None,
            to_filter: ByteQueue::new(alloc),
            to_mta: ByteQueue::new(alloc),
            state,
        })
    }

    /// Lets the event happen: the state is the schedule's next one, and the mail server's end has the reports that the
    /// schedule adds. An event that can't apply changes nothing. After `NoMemory` the world is given up.
    ///
    /// What is required is met by [`World::new`] and [`World::with_order`], and kept by each step.
    pub fn step(self, event: Event) -> Result<Self, NoMemory>
        requires { AreReached (P.behavior self.policy) self }
        ensures { IfOk result (λ world. StepsTo (P.behavior self.entry.policy) self.entry event world) }
    {
        let mut world = self;
        match world.apply(event) {
            Ok(()) => Ok(world),
            Err(error) => {
                drop(world);
                Err(error)
            }
        }
    }

    /// How far the session has come. It doesn't allocate.
    pub fn state(&self) -> State
        ensures { result ≡ self.now.state }
    {
        self.state
    }

    /// The reports of the mail server's end: one for each message that is settled, in order. It doesn't allocate.
    pub fn into_reports(self) -> Reports
        ensures connection { result.connection ≡ self.entry.mta.connection }
        ensures messages { result.messages ≡ self.entry.mta.reports }
    {
        let World { mta, .. } = self;
        mta.into_reports()
    }

    /// What the event does.
    pub(crate) fn apply(&mut self, event: Event) -> Result<(), NoMemory>
        requires { AreReached (P.behavior self.old.policy) self.old }
        ensures { OnOk result (StepsTo (P.behavior self.old.policy) self.old event self.new) }
    {
        match event {
            Event::Dial => self.dial(),
            Event::Send(count) => self.send(count),
            Event::ToFilter(count) => self.pass_to_filter(count),
            Event::Answer(count) => self.answer(count),
            Event::ToMta(count) => self.pass_to_mta(count),
            Event::Die => {
                self.die();
                Ok(())
            }
            Event::Lose => {
                self.lose(Loss::Reset);
                Ok(())
            }
            Event::Timeout => {
                self.lose(Loss::Timeout);
                Ok(())
            }
        }
    }

    /// Makes the connection, where one is wanted.
    fn dial(&mut self) -> Result<(), NoMemory>
        requires { AreReached (P.behavior self.old.policy) self.old }
        ensures { OnOk result (StepsTo (P.behavior self.old.policy) self.old events.Dial self.new) }
    {
        dialled_ends_step::<P>();
        events_without_effect::<P>();
        match self.state {
            State::Idle(settled) => {
                let filter = FilterCore::with_order(self.alloc, self.policy, self.order)?;
                self.mta.dialled();
                self.filter = Some(filter);
                self.clear_pipes();
                self.state = State::Linked(settled, NOTHING);
                Ok(())
            }
            State::Linked(..) => Ok(()),
            State::Done => Ok(()),
        }
    }

    /// Sends at most so many bytes of the packet that is due.
    fn send(&mut self, count: usize) -> Result<(), NoMemory>
        requires { AreReached (P.behavior self.old.policy) self.old }
        ensures { OnOk result (StepsTo (P.behavior self.old.policy) self.old (events.Send count) self.new) }
    {
        events_without_effect::<P>();
        sent_bytes_step::<P>();
        match self.state {
            State::Linked(settled, counts) => {
                let Want::Send = self.mta.want() else {
                    return Ok(());
                };
                let lives = counts.lives;
                let sent = send_bytes(&mut self.mta, &mut self.to_filter, lives, count)?;
                self.state = match self.mta.want() {
                    Want::Done => State::Done,
                    _ => State::Linked(
                        settled,
                        Counts {
                            sent: counts.sent + sent as u128,
                            ..counts
                        },
                    ),
                };
                Ok(())
            }
            State::Idle(_) => Ok(()),
            State::Done => Ok(()),
        }
    }

    /// Passes at most so many bytes on to the filter's end.
    fn pass_to_filter(&mut self, count: usize) -> Result<(), NoMemory>
        requires { AreReached (P.behavior self.old.policy) self.old }
        ensures { OnOk result (StepsTo (P.behavior self.old.policy) self.old (events.ToFilter count) self.new) }
    {
        events_without_effect::<P>();
        taken_bytes_step::<P>();
        match self.state {
            State::Linked(settled, counts) => {
                if let Some(filter) = &mut self.filter {
                    let taken = feed_filter(filter, &mut self.to_filter, count)?;
                    let taken = counts.taken + taken as u128;
                    self.state = State::Linked(settled, Counts { taken, ..counts });
                }
                Ok(())
            }
            State::Idle(_) => Ok(()),
            State::Done => Ok(()),
        }
    }

    /// Takes at most so many bytes of the filter's replies.
    fn answer(&mut self, count: usize) -> Result<(), NoMemory>
        requires { AreReached (P.behavior self.old.policy) self.old }
        ensures { OnOk result (StepsTo (P.behavior self.old.policy) self.old (events.Answer count) self.new) }
    {
        answered_bytes_step::<P>();
        events_without_effect::<P>();
        match self.state {
            State::Linked(settled, counts) => {
                if let Some(filter) = &mut self.filter {
                    let answered = take_replies(filter, &mut self.to_mta, count)?;
                    let answered = counts.answered + answered as u128;
                    self.state = State::Linked(settled, Counts { answered, ..counts });
                }
                Ok(())
            }
            State::Idle(_) => Ok(()),
            State::Done => Ok(()),
        }
    }

    /// Passes at most so many bytes on to the mail server's end.
    fn pass_to_mta(&mut self, count: usize) -> Result<(), NoMemory>
        requires { AreReached (P.behavior self.old.policy) self.old }
        ensures { OnOk result (StepsTo (P.behavior self.old.policy) self.old (events.ToMta count) self.new) }
    {
        events_without_effect::<P>();
        received_bytes_step::<P>();
        match self.state {
            State::Linked(settled, counts) => {
                let received = feed_mta(&mut self.mta, &mut self.to_mta, count)?;
                let received = counts.received + received as u128;
                self.state = State::Linked(settled, Counts { received, ..counts });
                Ok(())
            }
            State::Idle(_) => Ok(()),
            State::Done => Ok(()),
        }
    }

    /// Drops the filter's end, with what is on its way to it.
    fn die(&mut self)
        requires { AreReached (P.behavior self.old.policy) self.old }
        ensures { StepsTo (P.behavior self.old.policy) self.old events.Die self.new }
    {
        answered_bytes_step::<P>();
        events_without_effect::<P>();
        match self.state {
            State::Linked(settled, counts) => {
                self.filter = None;
                self.to_filter.clear();
                let dead = Counts {
                    lives: false,
                    ..counts
                };
                self.state = State::Linked(settled, dead);
            }
            State::Idle(_) => {}
            State::Done => {}
        }
    }

    /// Drops what is on its way.
    fn clear_pipes(&mut self)
        ensures { self.new ≡ record self.old { to_filter = []; to_mta = [] } }
    {
        self.to_filter.clear();
        self.to_mta.clear();
    }

    /// Loses the connection, or the dial where there is none.
    fn lose(&mut self, loss: Loss)
        requires { AreReached (P.behavior self.old.policy) self.old }
        ensures { (p : Scenario) (event : Event) → p.filter ≡ P.behavior self.old.policy → AreEndsOf p self.old →
            IsLossBy loss event → Steps p self.old event self.new }
    {
        events_without_effect::<P>();
        lost_ends_step::<P>();
        match self.state {
            State::Done => {}
            _ => {
                self.mta.lost(loss);
                self.filter = None;
                self.clear_pipes();
                self.state = match self.mta.want() {
                    Want::Dial => State::Idle(self.mta.settled()),
                    _ => State::Done,
                };
            }
        }
    }
}
