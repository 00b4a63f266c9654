//! What becomes of a message whose filter is lost.

ghost use Rattle.std.specs.Prelude.{◌≡◌};
ghost use Rattle.milter_mta_outcome.specs.ActedVerdicts.{kept};
ghost use Rattle.milter_mta_outcome.specs.Outcomes.{fallback};
ghost use Rattle.milter_mta_outcome.specs.Refusals.{default_refusal};

use crate::acted_verdicts::Acted;
use crate::disposition::{kept_message, released};
use crate::outcome::{Outcome, Refusal};
use milter_message::Message;

/// What becomes of a message whose filter is lost. Source: Sendmail's flags of an `INPUT_MAIL_FILTER`, and Postfix's
/// `milter_default_action`.
#[derive(Clone, Copy, Debug, PartialEq, Eq)]
pub enum OnLoss {
    /// It is released without edits, to the recipients that were not refused.
    Accept,
    /// It is refused for now.
    Tempfail,
    /// It is refused for good.
    Reject,
}

impl OnLoss {
    /// How a message is refused by this default; `None` where it is released. Doesn't allocate.
    pub fn refusal(self) -> Option<Refusal>
        ensures { result ≡ default_refusal self }
    {
        match self {
            OnLoss::Accept => None,
            OnLoss::Tempfail => Some(Refusal::Tempfail),
            OnLoss::Reject => Some(Refusal::Reject),
        }
    }
}

/// What becomes of the message by default, after these verdicts. Doesn't allocate.
pub fn fall_back(on_loss: OnLoss, message: Message, acted: &[Acted]) -> Outcome
    ensures { result ≡ fallback on_loss (kept message acted.now) }
{
    match on_loss {
        OnLoss::Accept => released(kept_message(message, acted)),
        OnLoss::Tempfail => Outcome::Refused(Refusal::Tempfail),
        OnLoss::Reject => Outcome::Refused(Refusal::Reject),
    }
}
