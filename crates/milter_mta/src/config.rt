//! What a mail server offers its filters.

ghost use Rattle.std.specs.Prelude.{◌≡◌, ◌↔◌, IfSome, IsSome, true};
ghost use Rattle.milter_protocol.specs.declared.permitted.TheConstants.{ACTIONS_MAX, PROTOCOL_MAX, VERSION_MAX};
ghost use Rattle.milter_mta_outcome.specs.ReceivedReplies.{is_offered};

use milter_mta_outcome::OnLoss;
use milter_protocol::{ACTIONS_MAX, PROTOCOL_MAX, VERSION_MAX};
use milter_wire::{Actions, Options, Protocol};
use std::marker::Model;

/// What a mail server offers each filter, and what a lost one leaves.
#[derive(Clone, Debug, Drop)]
pub struct Config {
    offer: Options,
    on_loss: OnLoss,
}

impl Model for Config {
    ghost use Rattle.std.specs.Prelude.{◌≡◌};
    ghost use Rattle.milter_protocol.specs.declared.permitted.TheConstants.{VERSION_MAX};
    ghost use Rattle.milter_mta.specs.Mta.{Configuration};

    ghost Value = { Configuration };

    ghost view = { λ c. record { offer = c.offer; on_loss = c.on_loss } };

    ghost invariant = { λ c. c.offer.version ≡ VERSION_MAX };
}

impl Config {
    /// Version 6 with these bits is offered; none where one of them is outside of the greatest offer: actions 0x1FF
    /// and protocol 0x1FF7FF. Doesn't allocate.
    pub fn new(actions: Actions, protocol: Protocol, on_loss: OnLoss) -> Option<Self>
        ensures parts { IfSome result (λ config. config ≡ record {
          offer = record { version = VERSION_MAX; actions = actions; protocol = protocol };
          on_loss = on_loss;
        }) }
        ensures exact { IsSome result
            ↔ ((is_offered ACTIONS_MAX actions.0 ≡ true) × (is_offered PROTOCOL_MAX protocol.0 ≡ true)) }
    {
        if ACTIONS_MAX & actions.0 != actions.0 || PROTOCOL_MAX & protocol.0 != protocol.0 {
            return None;
        }
        let offer = Options {
            version: VERSION_MAX,
            actions,
            protocol,
        };
        Some(Config { offer, on_loss })
    }

    /// What is offered: version 6, and the bits. Doesn't allocate.
    pub fn offer(&self) -> Options
        ensures offer { result ≡ self.now.offer }
        ensures version { result.version ≡ VERSION_MAX }
    {
        self.offer
    }

    /// What a lost filter leaves. Doesn't allocate.
    pub fn on_loss(&self) -> OnLoss
        ensures { result ≡ self.now.on_loss }
    {
        self.on_loss
    }
}
