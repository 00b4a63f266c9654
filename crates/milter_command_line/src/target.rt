//! Filters that a session is played to: where they are, and what is offered to them.

ghost use Rattle.std.specs.Prelude.{◌≡◌, IfOk, option_map, true};
ghost use Rattle.milter_protocol.specs.declared.permitted.TheConstants.{ACTIONS_MAX, PROTOCOL_MAX};
ghost use Rattle.milter_mta_outcome.specs.ReceivedReplies.{is_offered};
ghost use Rattle.milter_command_line.specs.CommandLine.{text_of};
ghost use Rattle.milter_command_line.specs.Target.{IsOffer, IsTarget, actions_given, protocol_given};
ghost use Rattle.milter_command_line.specs.Mode.{IsModeOf};

use crate::address::Address;
use crate::usage_error::UsageError;
use milter_protocol::{ACTIONS_MAX, PROTOCOL_MAX};
use milter_wire::{Actions, Protocol};

/// The bits that are offered to a filter.
#[derive(Clone, Copy)]
pub struct Offer {
    /// The changes to a message that it may ask for.
    pub actions: Actions,
    /// The steps that it may leave out or leave unanswered.
    pub protocol: Protocol,
}

impl Offer {
    /// The bits that the values of `--actions` and `--protocol` name, the greatest offer where one isn't given. The
    /// actions are looked at first; a text that names no set is [`UsageError::BadActions`] or
    /// [`UsageError::BadProtocol`].
    pub fn parse(actions: Option<&str>, protocol: Option<&str>) -> Result<Offer, UsageError>
        ensures offer { IsOffer (text_of actions.entry) (text_of protocol.entry) result }
        // No bit is outside of the greatest offer.
        ensures known { IfOk result (λ offer. (is_offered ACTIONS_MAX offer.actions.0 ≡ true)
            × (is_offered PROTOCOL_MAX offer.protocol.0 ≡ true)) }
    {
        let actions = actions_given(actions).ok_or(UsageError::BadActions)?;
        let protocol = protocol_given(protocol).ok_or(UsageError::BadProtocol)?;
        Ok(Offer { actions, protocol })
    }
}

/// The actions that a text names, if it names a set of them, or all where there is no text.
fn actions_given(names: Option<&str>) -> Option<Actions>
    ensures { option_map (λ actions. actions.0) result ≡ actions_given (text_of names.entry) }
{
    match names {
        Some(names) => Actions::from_names(names),
        None => Some(Actions(ACTIONS_MAX)),
    }
}

/// The protocol bits that a text names, if it names a set of them, or all where there is no text.
fn protocol_given(names: Option<&str>) -> Option<Protocol>
    ensures { option_map (λ protocol. protocol.0) result ≡ protocol_given (text_of names.entry) }
{
    match names {
        Some(names) => Protocol::from_names(names),
        None => Some(Protocol(PROTOCOL_MAX)),
    }
}

/// A filter that a session is played to.
#[derive(Clone, Copy)]
pub struct Target<'a> {
    /// What it is offered.
    pub offer: Offer,
    /// Where it listens.
    pub address: Address<'a>,
}

impl<'a> Target<'a> {
    /// The filter at the address that a text names, with the offer of [`Offer::parse`], which is looked at first. A
    /// text that names no address is [`UsageError::BadAddress`].
    pub fn parse(
        address: &'a str,
        actions: Option<&str>,
        protocol: Option<&str>,
    ) -> Result<Target<'a>, UsageError>
        ensures target { IsTarget address.entry.now (text_of actions.entry) (text_of protocol.entry) result }
        // No bit is outside of the greatest offer.
        ensures known { IfOk result (λ target. (is_offered ACTIONS_MAX target.offer.actions.0 ≡ true)
            × (is_offered PROTOCOL_MAX target.offer.protocol.0 ≡ true)) }
    {
        let offer = Offer::parse(actions, protocol)?;
        match Address::parse(address) {
            Some(address) => Ok(Target { offer, address }),
            None => Err(UsageError::BadAddress),
        }
    }
}

/// The mode that up to three octal digits name, which are given as a decimal number; one with a digit above 7 is
/// [`UsageError::BadMode`].
pub fn parse_mode(digits: u32) -> Result<u32, UsageError>
    ensures { IsModeOf digits result }
{
    let (owner, group, others) = (digits / 100, digits / 10 % 10, digits % 10);
    if owner > 7 || group > 7 || others > 7 {
        return Err(UsageError::BadMode);
    }
    Ok(owner * 64 + group * 8 + others)
}
