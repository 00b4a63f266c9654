//! Lines of a service that never wait for who reads them.

use std::alloc::{AllocError, Global};
use std::io::Write;

/// What stands before and after the number in the line that says how many lines were lost.
#[derive(Clone, Copy)]
pub struct LostWords {
    /// What stands before it.
    pub before: &'static str,
    /// What stands after it, without the LF.
    pub after: &'static str,
}

/// Where lines go that nobody has to read. A line is lost where a write of it fails, and the lines that were lost are
/// counted: before the next one that goes out, a line says how many there were. A line of which only the beginning was
/// written counts as lost, and is ended by an LF before anything else is written. With a writer that doesn't wait,
/// nothing here does.
#[derive(Drop)]
pub struct LineOutput<W: Write + Drop> {
    alloc: Global,
    writer: W,
    words: LostWords,
    // How many lines were lost since the last that went out.
    lost: u64,
    // Whether what was written ends within a line.
    is_cut: bool,
}

impl<W: Write + Drop> LineOutput<W> {
    /// An output to this writer, which has lost nothing. Doesn't allocate.
    pub fn new(alloc: Global, writer: W, words: LostWords) -> Self {
        LineOutput {
            alloc,
            writer,
            words,
            lost: 0,
            is_cut: false,
        }
    }

    /// Writes a line, which ends in LF, or counts it as lost. Allocates only where lines were lost before it.
    pub fn put(&mut self, line: &[u8]) {
        if !self.put_lost() || !self.put_whole(line) {
            self.lose();
        }
    }

    /// Counts a line as lost.
    pub fn lose(&mut self) {
        self.lost = self.lost.saturating_add(1);
    }

    /// Ends a line that was cut, and says how many lines were lost. Whether a line may follow.
    fn put_lost(&mut self) -> bool {
        if self.is_cut && !self.put_whole(b"\n") {
            return false;
        }
        if self.lost == 0 {
            return true;
        }
        let Ok(line) = self.lost_line() else {
            return false;
        };
        if !self.put_whole(line.as_bytes()) {
            return false;
        }
        self.lost = 0;
        true
    }

    /// The line that says how many lines were lost.
    fn lost_line(&self) -> Result<String, AllocError> {
        let LostWords { before, after } = self.words;
        let lost = self.lost;
        format!(in self.alloc; "{before}{lost}{after}\n")
    }

    /// Writes these bytes, as far as that goes. Whether all of them were written.
    fn put_whole(&mut self, bytes: &[u8]) -> bool {
        let mut rest = bytes;
        while !rest.is_empty() {
            match self.writer.write(rest) {
                Ok(0) | Err(_) => return self.cut(bytes.len(), rest.len()),
                Ok(count) => rest = &rest[count..],
            }
        }
        self.is_cut = false;
        true
    }

    /// Notes that of so many bytes so many are not written.
    fn cut(&mut self, all: usize, left: usize) -> bool {
        if left < all {
            self.is_cut = true;
        }
        false
    }
}
