//! What is looked for in recipients.

ghost use Rattle.std.specs.Prelude.{◌≡◌, IfOk, IsTrue};
ghost use Rattle.milter_fields.specs.declared.path.Path.{Path};
ghost use Rattle.milter_filter_search.specs.Needles.{matches, part_of, path_found};

use crate::needle::{KeptNeedle, Needle};
use crate::search::Lookup;
use milter_address::{canonical_address, domain_of};
use milter_fields::{NoMemory, Path};
use std::alloc::Global;

/// What of a sender or a recipient a condition looks at.
#[derive(Clone, Copy, Debug, PartialEq, Eq)]
pub enum PathPart {
    /// All of it as it was sent, with `<` and `>`.
    Sent,
    /// The address in the form in which mail servers compare addresses:
    /// [`canonical_address`](milter_address::canonical_address). The null sender's is empty.
    Address,
    /// The domain of that address; empty where it has none.
    Domain,
}

/// A needle that is looked for in a part of paths.
#[derive(Debug, Drop)]
pub(crate) struct PathKey {
    part: PathPart,
    needle: KeptNeedle,
}

impl PathKey {
    /// A key with a copy of the needle.
    pub(crate) fn new(
        alloc: Global,
        part: PathPart,
        needle: &Needle<'_>,
    ) -> Result<Self, NoMemory> {
        Ok(PathKey {
            part,
            needle: KeptNeedle::of(alloc, needle)?,
        })
    }

    /// Whether it has this part and probably a copy of the needle. It takes little time, also where that is a large
    /// list.
    pub(crate) fn resembles(&self, part: PathPart, needle: &Needle<'_>) -> bool {
        self.part == part && self.needle.resembles(needle)
    }

    /// Whether it has this part and a copy of the needle.
    pub(crate) fn is_for(&self, part: PathPart, needle: &Needle<'_>) -> bool
        ensures { IsTrue result → (path : Path) → path_found self.now path ≡ matches needle.now (part_of part path) }
    {
        self.part == part && self.needle.is_for(needle)
    }
}

impl Lookup<Path> for PathKey {
    ghost finds = { path_found };

    fn finds(&self, alloc: Global, path: &Path) -> Result<bool, NoMemory> {
        finds_in_path(alloc, self.part, &self.needle.as_needle(), path)
    }
}

/// Whether the needle is found in this part of the path. Allocates as [`Needle::matches`] does, and a canonical
/// address; `NoMemory` where memory is refused.
pub fn finds_in_path(
    alloc: Global,
    part: PathPart,
    needle: &Needle<'_>,
    path: &Path,
) -> Result<bool, NoMemory>
    ensures { IfOk result (λ found. found ≡ matches needle.now (part_of part path.now)) }
{
    let sent = path.address.as_slice();
    match part {
        PathPart::Sent => needle.matches(alloc, sent),
        PathPart::Address => needle.matches(alloc, &canonical_address(alloc, sent)?),
        PathPart::Domain => {
            let address = canonical_address(alloc, sent)?;
            needle.matches(alloc, domain_of(&address))
        }
    }
}
