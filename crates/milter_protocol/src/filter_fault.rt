//! Why a filter gives a connection up.

ghost use Rattle.std.specs.Prelude.{◌≡◌};
ghost use Rattle.milter_protocol.specs.FilterFault.{filter_fault_number};

use milter_wire::{RefusedMemory, WireFault};
use thiserror::Error;

/// Why a filter gives a connection up.
#[derive(Clone, Copy, Debug, PartialEq, Eq, Error)]
pub enum FilterFault {
    /// A command came before the options.
    #[error("command before the options")]
    NotNegotiated,
    /// The mail server offers a version below 2.
    #[error("version not supported")]
    Version,
    /// A command came after one of a later stage.
    #[error("command out of order")]
    OutOfOrder,
    /// The packets of a connection and of a message together have more than 16,777,216 bytes.
    #[error("too much for one message")]
    TooMuch,
    /// A packet can't be read.
    #[error("{0}")]
    Wire(WireFault),
    /// The options came a second time.
    #[error("options a second time")]
    NegotiatedTwice,
    /// The memory that was asked for was refused.
    #[error("out of memory")]
    NoMemory,
}

impl FilterFault {
    /// The fault's number, from 1 to 7 in the order of the variants.
    pub fn number(&self) -> u8
        ensures { result ≡ filter_fault_number self.now }
    {
        match self {
            FilterFault::NotNegotiated => 1,
            FilterFault::Version => 2,
            FilterFault::OutOfOrder => 3,
            FilterFault::TooMuch => 4,
            FilterFault::Wire(_) => 5,
            FilterFault::NegotiatedTwice => 6,
            FilterFault::NoMemory => 7,
        }
    }
}

impl<E: RefusedMemory> From<E> for FilterFault {
    ghost use Rattle.milter_protocol.specs.declared.filter_fault.FilterFault.TheVariants as faults;

    ghost from_gives = { λ _ fault. fault ≡ faults.NoMemory };

    fn from(_error: E) -> FilterFault {
        FilterFault::NoMemory
    }
}

/// Whether a filter's end of a connection goes on.
#[derive(Clone, Copy, Debug, PartialEq, Eq)]
pub enum FilterState {
    /// It takes commands and replies to them.
    Serving,
    /// The mail server has quit.
    Quit,
    /// It was given up for this fault.
    Failed(FilterFault),
}
