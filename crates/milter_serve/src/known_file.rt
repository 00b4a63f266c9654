//! What is known of a rule file and its lists between two looks at them.

ghost use Rattle.std.specs.Prelude.{◌≡◌, ◌↔◌, IsTrue, None, Some};
ghost use Rattle.milter_serve.specs.KnownFiles.{TakesFile, TakesOther, known, nothing_known};

use crate::file_stamp::FileStamp;
use milter_cli::{FileError, RuleUse, rules_of, used_rules};
use milter_rules::{ListFile, Rules};
use milter_wire::{List, Text};
use std::alloc::Global;
use std::marker::Model;

/// What a rule file and its lists have.
#[derive(Drop)]
pub struct RuleBytes {
    /// The bytes of the rule file.
    pub file: Text,
    /// The files of its lists, but those that can't be read.
    pub lists: List<ListFile>,
}

/// The stamps of a rule file and of the files of its lists, in this order; none of a file that isn't there.
pub type FileStamps = List<Option<FileStamp>>;

/// A rule file that was read, and its lists.
#[derive(Drop)]
pub struct ReadFile {
    /// What they have.
    pub bytes: RuleBytes,
    /// Their stamps, where these are trusted.
    pub stamps: Option<FileStamps>,
}

/// What is known of a rule file and its lists: what they had when they were last taken, and the stamps by which they
/// still have it. What was read of them and couldn't be taken is not known, so that it is read again.
#[derive(Drop)]
pub struct KnownFile {
    bytes: Option<RuleBytes>,
    // None where the files are to be read again.
    stamps: Option<FileStamps>,
}

impl Model for KnownFile {
    ghost use Rattle.milter_serve.specs.KnownFiles.{Known};

    ghost Value = { Known };

    ghost view = { λ k. record {
      bytes = k.bytes;
      stamps = k.stamps;
    } };
}

impl KnownFile {
    /// A file of which nothing is known yet. Doesn't allocate.
    pub fn new() -> Self
        ensures { result ≡ nothing_known }
    {
        KnownFile {
            bytes: None,
            stamps: None,
        }
    }

    /// Whether files that have these stamps need not be read again. Doesn't allocate.
    pub fn is_current(&self, stamps: &FileStamps) -> bool
        ensures { IsTrue result ↔ (self.now.stamps ≡ Some stamps.now) }
    {
        match &self.stamps {
            Some(known) => have_same_stamps(known.as_slice(), stamps.as_slice()),
            None => false,
        }
    }

    /// The bytes that the rule file had when it was last taken; `None` where nothing is known. Doesn't allocate.
    pub fn file_bytes(&self) -> Option<&[u8]> {
        match &self.bytes {
            Some(known) => Some(known.file.as_slice()),
            None => None,
        }
    }

    /// Forgets the file: its rules are given again at the next look, also where it and its lists have the same bytes.
    pub fn forget(&mut self)
        ensures { self.new ≡ nothing_known }
    {
        *self = KnownFile::new();
    }

    /// Notes what was read of the file and its lists, or why it wasn't read: `None` where it is what is known, else the
    /// rules as they are used, or why they can't be given.
    pub fn note(
        &mut self,
        alloc: Global,
        read: Result<ReadFile, FileError>,
        usage: RuleUse,
    ) -> Option<Result<Rules, FileError>>
        ensures { TakesFile usage read self.old result self.new }
    {
        self.stamps = None;
        let file = match read {
            Ok(file) => file,
            Err(error) => return Some(Err(error)),
        };
        if self.has(&file.bytes) {
            self.stamps = file.stamps;
            return None;
        }
        Some(self.note_other(alloc, file, usage))
    }

    /// Notes a file that has other bytes than those that are known, or whose lists do.
    #[tactic(auto, using(crate::proofs::KnownFileLaws::memory_refused))]
    fn note_other(
        &mut self,
        alloc: Global,
        file: ReadFile,
        usage: RuleUse,
    ) -> Result<Rules, FileError>
        requires { self.old.stamps ≡ None }
        ensures { TakesOther usage file self.old result self.new }
    {
        match rules_of(
            alloc,
            file.bytes.file.as_slice(),
            file.bytes.lists.as_slice(),
        ) {
            Ok(rules) => {
                self.learn(file);
                Ok(used_rules(rules, usage))
            }
            Err(error) if error.is_file_fault() => {
                self.learn(file);
                Err(error)
            }
            Err(error) => Err(error),
        }
    }

    /// Takes what was read, and its stamps, as what is known.
    fn learn(&mut self, file: ReadFile)
        ensures { self.new ≡ known file }
    {
        self.bytes = Some(file.bytes);
        self.stamps = file.stamps;
    }

    /// Whether these are the bytes that are known.
    fn has(&self, bytes: &RuleBytes) -> bool
        ensures { IsTrue result ↔ (self.now.bytes ≡ Some bytes.now) }
    {
        match &self.bytes {
            Some(known) => are_same_bytes(known, bytes),
            None => false,
        }
    }
}

/// Whether a rule file and its lists that have the first bytes have the second.
fn are_same_bytes(first: &RuleBytes, second: &RuleBytes) -> bool
    ensures { IsTrue result ↔ (first.now ≡ second.now) }
{
    first.file.as_slice() == second.file.as_slice()
        && are_same_lists(first.lists.as_slice(), second.lists.as_slice())
}

/// Whether the first files are the second ones.
fn are_same_lists(first: &[ListFile], second: &[ListFile]) -> bool
    ensures { IsTrue result ↔ (first.now ≡ second.now) }
{
    first == second
}

/// Whether the first stamps are the second ones.
fn have_same_stamps(first: &[Option<FileStamp>], second: &[Option<FileStamp>]) -> bool
    ensures { IsTrue result ↔ (first.now ≡ second.now) }
{
    first == second
}
