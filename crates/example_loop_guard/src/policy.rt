//! The policy: what is refused, and what is let through with a mark.

ghost use Rattle.std.specs.Prelude.{◌≡◌, IfOk, length};
ghost use Rattle.std.specs.List.{filter};
ghost use Rattle.example_loop_guard.specs.Loops.{is_received, loop_guard, passed, refused};
ghost use Rattle.example_loop_guard.specs.LoopsLaw.{loop_guard_is_lawful};

use milter_filter::{Answer, Edits, Policy, Seen, VERSION_MAX};
use milter_message::Edit;
use milter_wire::{Actions, Header, NoMemory, Options, Protocol, Stage, SymList, Text, Verdict};
use std::alloc::Global;

/// The most mail servers that a message may have come through.
const HOPS_MAX: usize = 50;

/// What isn't needed to see header fields: the other stages aren't sent, and header fields aren't answered.
const NOT_NEEDED: Protocol = Protocol(
    Protocol::NOCONNECT.0
        | Protocol::NOHELO.0
        | Protocol::NOMAIL.0
        | Protocol::NORCPT.0
        | Protocol::NODATA.0
        | Protocol::NOUNKNOWN.0
        | Protocol::NR_HDR.0
        | Protocol::NOEOH.0
        | Protocol::NOBODY.0,
);

/// Refuses each message that came through more than [`HOPS_MAX`] mail servers, each of which adds a header field
/// `Received`, and adds a header field to each of the others.
#[derive(Clone, Copy, Debug, PartialEq, Eq)]
pub struct LoopGuard;

impl Policy for LoopGuard {
    ghost behavior = { λ _. loop_guard };

    ghost lawful = { λ _. loop_guard_is_lawful };

    fn wants(&self) -> Options {
        Options {
            version: VERSION_MAX,
            actions: Actions::ADDHDRS,
            protocol: NOT_NEEDED,
        }
    }

    fn lists(&self) -> &[SymList] {
        &[]
    }

    fn decide(&self, alloc: Global, at: Stage, seen: &Seen) -> Result<Answer, NoMemory> {
        if at != Stage::Eob {
            return Ok(Answer::of_verdict(alloc, Verdict::Continue));
        }
        if hops(seen.headers()) > HOPS_MAX {
            refuse(alloc)
        } else {
            let_through(alloc)
        }
    }
}

/// How many of the header fields are named `Received`, without regard to ASCII case.
fn hops(headers: &[Header]) -> usize
    ensures { result ≡ length (filter is_received headers.now) }
{
    headers
        .iter()
        .filter(|header| header.name.as_slice().eq_ignore_ascii_case(b"Received"))
        .count()
}

/// The answer to a message that loops.
fn refuse(alloc: Global) -> Result<Answer, NoMemory>
    ensures { IfOk result (λ answer. answer ≡ refused) }
{
    let text = Text::copy_of(alloc, b"554 5.4.6 Too many hops")?;
    Ok(Answer::of_verdict(alloc, Verdict::Code(text)))
}

/// The answer to every other message.
fn let_through(alloc: Global) -> Result<Answer, NoMemory>
    ensures { IfOk result (λ answer. answer ≡ passed) }
{
    let name = Text::copy_of(alloc, b"X-Loop-Guard")?;
    let value = Text::copy_of(alloc, b"passed")?;
    let mut edits = Vec::new(alloc);
    edits.push(Edit::AddHeader(Header { name, value }))?;
    Ok(Answer {
        edits: Edits::new(edits),
        verdict: Verdict::Continue,
    })
}
