//! By what it is seen that a file need not be read again.

ghost use Rattle.std.specs.Prelude.{◌≡◌, IfSome, IsNone};

use std::fs::Metadata;
use std::os::unix::fs::MetadataExt;
use std::time::{SystemTime, UNIX_EPOCH};

/// How many seconds pass before a file that changes again surely gets another time: the coarsest clock of a file
/// system has two. Source: Linux, Documentation/filesystems/vfat.rst (FAT keeps times to two seconds).
const CLOCK_GRAIN: u64 = 2;

/// The number that the clauses name: the seconds that a stamp has to be older than the reading of its file.
pub fn clock_grain()
    ensures { CLOCK_GRAIN ≡ 2 }
{}

/// A time that a file system keeps.
#[derive(Clone, Copy, PartialEq, Eq)]
pub struct FileTime {
    /// The seconds since 1970; 0 for a time before.
    pub seconds: u64,
    /// The nanoseconds after these.
    pub nanoseconds: i64,
}

/// What the system says of a file. Another file has another device or another number there, also one that took its
/// place by a rename or that a link names now; and a file that is written gets other times, unless its clock stands.
#[derive(Clone, Copy, PartialEq, Eq)]
pub struct FileStamp {
    /// The number of the device that has the file.
    pub device: u64,
    /// The number of the file on its device (inode).
    pub number: u64,
    /// The bytes that it has.
    pub size: u64,
    /// When its bytes were last written, or what was put in place of that time.
    pub written: FileTime,
    /// When its bytes, its owner, its mode, its name or its other time were last changed (ctime).
    pub changed: FileTime,
}

impl FileStamp {
    ghost use Rattle.milter_serve.specs.FileStamp.{IsOld};

    /// The stamp of a file of which the system says this. Doesn't allocate.
    pub(crate) fn of(found: &Metadata) -> Self {
        FileStamp {
            device: found.dev(),
            number: found.ino(),
            size: found.size(),
            written: FileTime {
                seconds: u64::try_from(found.mtime()).unwrap_or(0),
                nanoseconds: found.mtime_nsec(),
            },
            changed: FileTime {
                seconds: u64::try_from(found.ctime()).unwrap_or(0),
                nanoseconds: found.ctime_nsec(),
            },
        }
    }

    /// This stamp, where a change of its file at this second or later gives it another one; `None` where one of its
    /// times is younger than that, or to come. Doesn't allocate.
    pub fn trusted_at(self, second: u64) -> Option<Self>
        ensures trusted { IfSome result (λ stamp. (stamp ≡ self) × IsOld second self) }
        ensures young { IsNone result → ¬ IsOld second self }
    {
        let Some(settled) = second.checked_sub(CLOCK_GRAIN) else {
            return None;
        };
        if self.written.seconds <= settled && self.changed.seconds <= settled {
            Some(self)
        } else {
            None
        }
    }
}

/// The second that it is since 1970; `None` where the system doesn't say it.
pub(crate) fn current_second(clock: &HostRuntime) -> Option<u64> {
    let now = SystemTime::now(clock).ok()?;
    let since = now.duration_since(UNIX_EPOCH).ok()?;
    Some(since.as_secs())
}
