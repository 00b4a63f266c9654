//! Which answers are permitted by what was negotiated.

ghost use Rattle.std.specs.Prelude.{◌≡◌};
ghost use Rattle.milter_protocol.specs.Permitted.{is_permitted, permitted_verdict};
ghost use Rattle.milter_protocol.specs.declared.permitted.TheConstants as limits;

use milter_message::Edit;
use milter_wire::{Negotiated, Protocol, Verdict};

/// The lowest version that either end takes. Source: mfdef.h (SMFI_VERSION 2 and later).
pub const VERSION_MIN: u32 = 2;
/// The highest version. Source: mfdef.h (SMFI_PROT_VERSION).
pub const VERSION_MAX: u32 = 6;
/// All actions that a filter may want and a mail server may offer. Source: mfapi.h (SMFIF_ADDHDRS to SMFIF_SETSYMLIST).
pub const ACTIONS_MAX: u32 = 0x1ff;
/// All protocol bits that a filter may want and a mail server may offer. Source: mfdef.h (SMFIP_NOCONNECT to
/// SMFIP_HDR_LEADSPC).
pub const PROTOCOL_MAX: u32 = 0x1f_f7ff;

/// The numbers of these limits. A law: the function does nothing.
pub fn protocol_limits()
    ensures version_min { limits.VERSION_MIN ≡ 2 }
    ensures version_max { limits.VERSION_MAX ≡ 6 }
    ensures actions { limits.ACTIONS_MAX ≡ 511 }
    ensures protocol { limits.PROTOCOL_MAX ≡ 2095103 }
{}

/// Whether the action that the edit needs was negotiated; progress needs none. Doesn't allocate. Source: mfapi.h
/// (SMFIF_).
pub fn permits(negotiated: &Negotiated, edit: &Edit) -> bool
    ensures { result ≡ is_permitted negotiated.now edit.now }
{
    let needed = edit.needs();
    negotiated.options.actions.0 & needed.0 == needed.0
}

/// The verdict as it may be sent: `Continue` for `Skip` where skipping was not negotiated. Doesn't allocate. Source:
/// mfdef.h (SMFIP_SKIP).
pub fn permitted_verdict(negotiated: &Negotiated, verdict: Verdict) -> Verdict
    ensures { result ≡ permitted_verdict negotiated.now verdict }
{
    match verdict {
        Verdict::Skip if negotiated.options.protocol.0 & Protocol::SKIP.0 == 0 => Verdict::Continue,
        other => other,
    }
}
