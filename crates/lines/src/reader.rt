// Collects the bytes of a line.
ghost use Rattle.std.specs.Prelude.{◌≡◌, ℕ, ◌<◌, false, List, [], length, is_ok, if◌then◌else◌, MatchResult, OnErr, ◌==◌};
ghost use Rattle.lines.specs.Reader.{fed, FirstBytes};

use std::alloc::{AllocError, Global};
use std::marker::Model;

// One more than the longest line, so that a line that is too long is seen to be.
const MOST: usize = 16_385;

#[derive(Drop)]
pub struct LineReader {
    bytes: Vec<u8>,
}

// In a contract a reader is the bytes of the line so far.
impl Model for LineReader {
    ghost Value = { List ℕ };

    ghost view = { λ r. r.bytes.items };
}

impl LineReader {
    // An empty reader. It will hold the first 16,385 bytes of a line, however long that is.
    pub fn new(heap: Global) -> LineReader
        ensures empty { result ≡ [] }
        ensures first { FirstBytes }
    {
        LineReader {
            bytes: Vec::new(heap),
        }
    }

    // Takes a byte, and says whether it ended the line. Where memory fails, nothing changes.
    pub fn feed(&mut self, byte: u8) -> Result<bool, AllocError>
        ensures ends { MatchResult result (λ ended. ended ≡ (byte == 10)) (λ _. (byte == 10) ≡ false) }
        ensures keeps { self.new ≡ (if is_ok result then fed self.old byte else self.old) }
        ensures room { OnErr result (length self.old < 16385) }
    {
        if byte == b'\n' {
            return Ok(true);
        }
        if self.bytes.len() < MOST {
            self.bytes.push(byte)?;
        }
        Ok(false)
    }

    // The bytes held.
    pub fn line(&self) -> &[u8]
        ensures { result.now ≡ self.now }
    {
        self.bytes.as_slice()
    }

    pub fn is_empty(&self) -> bool
        ensures { result ≡ (length self.now == 0) }
    {
        self.bytes.is_empty()
    }

    // Makes the reader ready for the next line.
    pub fn clear(&mut self)
        ensures { self.new ≡ [] }
    {
        self.bytes.clear();
    }
}
