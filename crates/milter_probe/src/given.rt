//! Verdicts beside each other.

use crate::exchange::{Exchange, Place};
use milter_wire::{NoMemory, Verdict};

/// A verdict as trials compare it: of a reply code no more than its three digits.
#[derive(Clone, Copy, Debug, PartialEq, Eq)]
pub enum Given {
    /// The mail server goes on.
    Continue,
    /// The message is taken without asking further.
    Accept,
    /// What was asked about is refused for good.
    Reject,
    /// What was asked about is refused for now.
    Tempfail,
    /// The message is taken and thrown away.
    Discard,
    /// The mail server sends no further chunk of the body.
    Skip,
    /// What was asked about is refused with a text that begins with these digits.
    Code(u8, u8, u8),
}

impl Given {
    /// The verdict as trials compare it. Doesn't allocate.
    pub fn of(verdict: &Verdict) -> Given {
        match verdict {
            Verdict::Continue => Given::Continue,
            Verdict::Accept => Given::Accept,
            Verdict::Reject => Given::Reject,
            Verdict::Tempfail => Given::Tempfail,
            Verdict::Discard => Given::Discard,
            Verdict::Skip => Given::Skip,
            Verdict::Code(text) => given_code(text.as_slice()),
        }
    }

    /// Appends its word; of a reply code its digits. After `NoMemory` a prefix of that may have been appended.
    pub fn put(self, text: &mut Vec<u8>) -> Result<(), NoMemory> {
        let word: &[u8] = match self {
            Given::Continue => b"continue",
            Given::Accept => b"accept",
            Given::Reject => b"reject",
            Given::Tempfail => b"tempfail",
            Given::Discard => b"discard",
            Given::Skip => b"skip",
            Given::Code(first, second, third) => {
                text.extend_from_slice(&[first, second, third])?;
                return Ok(());
            }
        };
        text.extend_from_slice(word)?;
        Ok(())
    }

    /// Whether it is more than that the mail server goes on.
    fn is_decision(self) -> bool {
        !matches!(self, Given::Continue | Given::Skip)
    }
}

/// The reply code with this text, which begins with three digits.
fn given_code(text: &[u8]) -> Given {
    match text {
        [first, second, third, ..] => Given::Code(*first, *second, *third),
        _ => Given::Reject,
    }
}

/// A verdict that isn't the one of before.
#[derive(Clone, Copy, Debug, PartialEq, Eq)]
pub struct Difference {
    /// Where it is.
    pub place: Place,
    /// The verdict that came now; none where none did.
    pub came: Option<Given>,
    /// The verdict that came before; none where none did.
    pub before: Option<Given>,
}

/// The first verdict by which two conversations about the same session differ that negotiated otherwise: those by which
/// the mail server goes on aren't looked at. Doesn't allocate.
pub fn first_difference(before: &[Exchange], came: &[Exchange]) -> Option<Difference> {
    let (mut before_from, mut came_from) = (0, 0);
    for _ in 0..=before.len() {
        match (
            next_decision(before, before_from),
            next_decision(came, came_from),
        ) {
            (None, None) => return None,
            (Some(one), Some(other)) if one.given == other.given => {
                (before_from, came_from) = (one.next, other.next);
            }
            (one, other) => return Some(difference_of(one, other)),
        }
    }
    None
}

/// A verdict by which the mail server doesn't just go on.
#[derive(Clone, Copy)]
struct Decision {
    place: Place,
    given: Given,
    // The index of the exchange after it.
    next: usize,
}

/// The first decision of the exchanges from this index on.
fn next_decision(exchanges: &[Exchange], from: usize) -> Option<Decision> {
    for place in from..exchanges.len() {
        let exchange = &exchanges[place];
        if let Some(given) = exchange.given {
            if given.is_decision() {
                let (place, next) = (exchange.place, place + 1);
                return Some(Decision { place, given, next });
            }
        }
    }
    None
}

/// The difference of two decisions, of which one is there.
fn difference_of(before: Option<Decision>, came: Option<Decision>) -> Difference {
    Difference {
        place: match came.or(before) {
            Some(decision) => decision.place,
            None => Place::Quit,
        },
        came: came.map(|decision| decision.given),
        before: before.map(|decision| decision.given),
    }
}
