//! Why a set of texts can't take an entry.

ghost use Rattle.std.specs.Prelude.{◌≡◌};
ghost use Rattle.milter_lists.specs.declared.entry_fault.EntryFault.TheVariants as faults;

use milter_fields::RefusedMemory;
use thiserror::Error;

/// Why an entry was not added. The entries are then as they were before.
#[derive(Clone, Copy, Debug, PartialEq, Eq, Error)]
pub enum EntryFault {
    /// There are 1,000,000 entries.
    #[error("more than 1000000 entries")]
    TooManyEntries,
    /// With this entry, the entries have more than 209,715,200 bytes.
    #[error("more than 209715200 bytes")]
    TooManyBytes,
    /// The memory that was asked for was refused.
    #[error("out of memory")]
    NoMemory,
}

impl<E: RefusedMemory> From<E> for EntryFault {
    ghost from_gives = { λ _ e. e ≡ faults.NoMemory };

    fn from(_error: E) -> EntryFault {
        EntryFault::NoMemory
    }
}
