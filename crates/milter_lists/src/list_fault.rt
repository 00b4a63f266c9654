//! What can be wrong with the file of a list.

ghost use Rattle.std.specs.Prelude.{◌≡◌};
ghost use Rattle.milter_lists.specs.declared.list_fault.ListFault.TheVariants as faults;

use milter_fields::RefusedMemory;
use thiserror::Error;

/// Why a file has no list. Lines are numbered from 1, the skipped ones too.
#[derive(Clone, Copy, Debug, PartialEq, Eq, Error)]
pub enum ListFault {
    /// The line is no entry of a list of this kind.
    #[error("line {0}: bad entry")]
    BadEntry(u64),
    /// With this line there are more than 1,000,000 entries, or more than 209,715,200 bytes of them, networks aside.
    #[error("line {0}: too large")]
    TooLarge(u64),
    /// The memory that was asked for was refused.
    #[error("out of memory")]
    NoMemory,
}

impl<E: RefusedMemory> From<E> for ListFault {
    ghost from_gives = { λ _ e. e ≡ faults.NoMemory };

    fn from(_error: E) -> ListFault {
        ListFault::NoMemory
    }
}
