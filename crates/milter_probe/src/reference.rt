//! What the trials are made of, and the connections on which they are made.

use crate::breakage::Broken;
use crate::exchange::{Exchange, Place};
use crate::given::first_difference;
use crate::script::{Play, Script, plain, play_of};
use crate::script_end::play_script;
use crate::session_end::{SentSession, send_session};
use crate::trial::Trial;
use milter_mail::Session;
use milter_mta_client::Dial;
use milter_mta_outcome::{Loss, MtaFault};
use milter_protocol::{ACTIONS_MAX, PROTOCOL_MAX, VERSION_MAX};
use milter_wire::{Actions, NoMemory, Options, Protocol};
use std::alloc::Global;
use std::rt::Clock;
use std::thread;
use std::time::{Duration, Instant};

/// What is offered, but for the trials of other offers: all that the protocol has.
pub(crate) const OFFER: Options = Options {
    version: VERSION_MAX,
    actions: Actions(ACTIONS_MAX),
    protocol: Protocol(PROTOCOL_MAX),
};

/// How many milliseconds pass before a filter that was lost is tried again.
const PAUSE: u64 = 50;

/// How often a filter that was lost is tried again at most.
const TRIES_MAX: u32 = 100_000;

/// A session, and what passed where it was sent first.
#[derive(Clone, Copy)]
pub(crate) struct Reference<'a> {
    pub(crate) alloc: Global,
    pub(crate) session: &'a Session,
    pub(crate) exchanges: &'a [Exchange],
}

impl<'a> Reference<'a> {
    /// Makes a trial, and answers with what broke in it.
    pub(crate) fn play<D: Dial>(
        self,
        dial: &mut D,
        trial: Trial,
        seed: u32,
    ) -> Result<Option<Broken>, NoMemory> {
        match play_of(self.alloc, self.exchanges, trial, seed)? {
            Play::Script(script) => self.play_script(dial, &script),
            Play::Offer(offer) => self.play_offer(dial, offer),
        }
    }

    /// Sends the session plainly, and answers with what broke.
    pub(crate) fn play_plainly<D: Dial>(self, dial: &mut D) -> Result<Option<Broken>, NoMemory> {
        let script = plain(self.alloc, self.exchanges)?;
        self.play_script(dial, &script)
    }

    /// Plays a script over a connection that is made for it.
    fn play_script<D: Dial>(
        self,
        dial: &mut D,
        script: &Script,
    ) -> Result<Option<Broken>, NoMemory> {
        match dial.dial() {
            Ok(link) => play_script(self.alloc, link, OFFER, self.exchanges, script),
            Err(_) => Ok(Some(Broken::NoConnection)),
        }
    }

    /// Sends the session with another offer over a connection that is made for it.
    fn play_offer<D: Dial>(self, dial: &mut D, offer: Options) -> Result<Option<Broken>, NoMemory> {
        let Ok(link) = dial.dial() else {
            return Ok(Some(Broken::NoConnection));
        };
        let sent = send_session(self.alloc, link, offer, self.session)?;
        Ok(broken_by_offer(self.exchanges, offer, &sent))
    }

    /// Waits until the session is answered to its end again, at most so long. The result says whether it is.
    pub(crate) fn wait<R: Clock, D: Dial>(
        self,
        clock: &R,
        dial: &mut D,
        limit: Duration,
    ) -> Result<bool, NoMemory> {
        let Ok(start) = Instant::now(clock) else {
            return Ok(false);
        };
        for _ in 0..TRIES_MAX {
            thread::sleep(clock, Duration::from_millis(PAUSE));
            if !is_lost(self.play_plainly(dial)?) {
                return Ok(true);
            }
            match start.elapsed(clock) {
                Ok(elapsed) if elapsed < limit => {}
                _ => return Ok(false),
            }
        }
        Ok(false)
    }
}

/// Whether the session was not answered to its end.
pub(crate) fn is_lost(broken: Option<Broken>) -> bool {
    match broken {
        Some(Broken::NoConnection | Broken::Lost(_, _)) => true,
        Some(Broken::Other(_)) | None => false,
    }
}

/// What broke where another offer was made: the filter may refuse it by closing the connection, or take it for one of
/// version 1.
fn broken_by_offer(before: &[Exchange], offer: Options, sent: &SentSession) -> Option<Broken> {
    match sent.broken {
        Some(Broken::Lost(Loss::Reset, Place::Offer)) => None,
        Some(Broken::Lost(Loss::Fault(fault), Place::Offer)) if is_version_1(offer, fault) => None,
        Some(broken) => Some(broken),
        None => first_difference(before, sent.exchanges.as_slice()).map(Broken::Other),
    }
}

/// Whether a filter that asks for bits that were not offered may have taken the offer for one of version 1: libmilter
/// takes an offer of no bits so. Source: mfdef.h (SMFI_V1_ACTS, SMFI_V1_PROT).
fn is_version_1(offer: Options, fault: MtaFault) -> bool {
    let is_empty = offer.actions.0 == 0 && offer.protocol.0 == 0;
    let is_more = matches!(
        fault,
        MtaFault::ActionsNotOffered | MtaFault::ProtocolNotOffered
    );
    is_empty && is_more
}
