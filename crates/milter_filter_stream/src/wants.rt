//! What a filter wants of a connection.

ghost use Rattle.std.specs.Prelude.{◌≡◌, IfErr, IfOk, OnOk};
ghost use Rattle.milter_protocol.specs.Lawful.{WantsWithin};
ghost use Rattle.milter_protocol.specs.Questions.{unasked};
ghost use Rattle.milter_filter_stream.specs.WantsFaults.{WantsBreak};

use crate::wants_fault::WantsFault;
use milter_protocol::{ACTIONS_MAX, PROTOCOL_MAX, VERSION_MAX, VERSION_MIN};
use milter_wire::{
    Actions, Options, PAYLOAD_MAX, SymList, SymLists, options_with_lists_fit,
    options_with_lists_len,
};
use std::marker::Model;

/// What a filter wants of a connection: a version from 2 to 6, actions and protocol bits that the library knows, and
/// symbol lists only with [`Actions::SETSYMLIST`]; the reply that states all of it fits a packet. Source: the libmilter
/// callback documentation (xxfi_negotiate) and mfapi.h (smfi_setsymlist).
///
/// [`Actions::SETSYMLIST`]: milter_wire::Actions::SETSYMLIST
#[derive(Debug, Drop)]
pub struct Wants {
    options: Options,
    lists: SymLists,
}

impl Model for Wants {
    ghost use Rattle.milter_protocol.specs.Lawful.{WantsWithin};
    ghost use Rattle.milter_protocol.specs.Questions.{Wanted, unasked};

    ghost Value = { Wanted };

    ghost view = { λ w. record { options = w.options; lists = w.lists } };

    ghost invariant = { λ w. WantsWithin (unasked (record { options = w.options; lists = w.lists })) };
}

impl Wants {
    /// Wants this. A rule that is broken is answered, and the lists are dropped. Doesn't allocate.
    pub fn new(options: Options, lists: SymLists) -> Result<Self, WantsFault>
        ensures ok { IfOk result (λ wants. wants ≡ record { options = options; lists = lists }) }
        ensures breaks { IfErr result (λ fault. WantsBreak (record { options = options; lists = lists }) fault) }
    {
        check_wants(&options, &lists)?;
        Ok(Wants { options, lists })
    }

    /// The version, the actions and the protocol bits. Doesn't allocate.
    pub fn options(&self) -> Options
        ensures { result ≡ self.now.options }
    {
        self.options
    }

    /// The symbol lists. Doesn't allocate.
    pub fn lists(&self) -> &[SymList]
        ensures { result.now ≡ self.now.lists }
    {
        self.lists.as_slice()
    }

    /// The same, borrowed. Doesn't allocate.
    pub fn as_ref(&self) -> WantsRef<'_>
        ensures { result ≡ self.now }
    {
        WantsRef {
            options: self.options,
            lists: self.lists.as_slice(),
        }
    }
}

/// What a filter wants of a connection, as [`Wants`] has it, with symbol lists that are borrowed.
#[derive(Debug, Drop)]
pub struct WantsRef<'a> {
    options: Options,
    lists: &'a [SymList],
}

impl<'a> Model for WantsRef<'a> {
    ghost use Rattle.milter_protocol.specs.Lawful.{WantsWithin};
    ghost use Rattle.milter_protocol.specs.Questions.{Wanted, unasked};

    ghost Value = { Wanted };

    ghost view = { λ w. record { options = w.options; lists = w.lists.now } };

    ghost invariant = { λ w. WantsWithin (unasked (record { options = w.options; lists = w.lists.now })) };
}

impl<'a> WantsRef<'a> {
    /// Wants this, which is known to keep the rules. Doesn't allocate.
    pub fn new(options: Options, lists: &'a [SymList]) -> Self
        requires { WantsWithin (unasked (record { options = options; lists = lists.now })) }
        ensures { result ≡ record { options = options; lists = lists.now } }
    {
        WantsRef { options, lists }
    }

    /// The version, the actions and the protocol bits. Doesn't allocate.
    pub fn options(&self) -> Options
        ensures options { result ≡ self.now.options }
        ensures within { WantsWithin (unasked self.now) }
    {
        self.options
    }

    /// The symbol lists. Doesn't allocate.
    pub fn lists(&self) -> &[SymList]
        ensures { result.now ≡ self.now.lists }
    {
        self.lists
    }
}

/// Whether this keeps the rules, and else a rule that it breaks.
fn check_wants(options: &Options, lists: &SymLists) -> Result<(), WantsFault>
    ensures within { OnOk result (WantsWithin (unasked (record { options = options.now; lists = lists.now }))) }
    ensures breaks { IfErr result (λ fault. WantsBreak (record { options = options.now; lists = lists.now }) fault) }
{
    if options.version < VERSION_MIN || options.version > VERSION_MAX {
        return Err(WantsFault::Version);
    }
    if options.actions.0 & ACTIONS_MAX != options.actions.0 {
        return Err(WantsFault::Action);
    }
    if options.protocol.0 & PROTOCOL_MAX != options.protocol.0 {
        return Err(WantsFault::Protocol);
    }
    if !lists.as_slice().is_empty() && options.actions.0 & Actions::SETSYMLIST.0 == 0 {
        return Err(WantsFault::Lists);
    }
    if !options_with_lists_fit(options, lists) {
        return Err(WantsFault::BadText);
    }
    if options_with_lists_len(options, lists) > PAYLOAD_MAX {
        return Err(WantsFault::TooLong);
    }
    Ok(())
}
