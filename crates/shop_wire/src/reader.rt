//! Lines of a source, read through a buffer.

ghost use Rattle.std.specs.Prelude.{◌≡◌, ◌+◌, ◌-◌, ◌*◌, ◌≤◌, ◌<◌, ◌⊎◌, ◌++◌, ◌∷◌, [], ℕ, List, OnOk, IfErr, Ok, Err, true, false, length, take, if◌then◌else◌};
ghost use Rattle.std.specs.Io.KnownBytes.{Consumes, IsAtEnd, prepend_known};
ghost use Rattle.shop_wire.specs.Lines.{HasNoFeed, GivesLine, kept_of, longest_line, pending};
ghost use Rattle.shop_streams.specs.Streams.{HasFailed};
ghost use Rattle.shop_wire.specs.Streams.{CountTogether, TookBytes, IsLong, most_reads, work};
ghost use Rattle.shop_wire.specs.declared.limits.TheConstants.{BUFFER_SIZE};
ghost use Rattle.shop_wire.specs.declared.faults.ReplayFault.TheVariants.{Read, NoMemory};

use crate::faults::ReplayFault;
use crate::limits::{BUFFER_SIZE, MAX_LINE_LEN, MAX_READS};
use memchr::memchr;
use shop_text::Source;
use std::alloc::AllocError;

/// A buffer that is filled again once all of it was taken, and how far the source was read.
#[derive(Drop)]
pub(crate) struct LineReader {
    buffer: [u8; BUFFER_SIZE],
    start: usize,
    end: usize,
    reads: u32,
    ended: bool,
    ghost within: { start ≤ end },
    ghost most: { end ≤ BUFFER_SIZE },
}

// Appends what belongs to a line, up to one byte over the longest.
fn append_kept(line: &mut Vec<u8>, part: &[u8]) -> Result<(), AllocError>
    requires { length line.old.items ≤ longest_line + 1 }
    ensures { OnOk result (line.new.items ≡ line.old.items
        ++ take (longest_line + 1 - length line.old.items) part.now) }
{
    let free = MAX_LINE_LEN + 1 - line.len();
    if part.len() <= free {
        line.extend_from_slice(part)
    } else {
        line.extend_from_slice(&part[..free])
    }
}

impl LineReader {
    pub(crate) fn new() -> LineReader
        ensures none { pending result.buffer result.start result.end ≡ [] }
        ensures reads { result.reads ≡ 0 }
        ensures goes_on { result.ended ≡ false }
    {
        LineReader {
            buffer: [0; BUFFER_SIZE],
            start: 0,
            end: 0,
            reads: 0,
            ended: false,
        }
    }

    /// Whether the source isn't read for the next line.
    pub(crate) fn has_line(&self) -> bool
        ensures whole { result ≡ true
            → HasNoFeed (pending self.now.buffer self.now.start self.now.end) → ⊥ }
        ensures part { result ≡ false
            → HasNoFeed (pending self.now.buffer self.now.start self.now.end) }
    {
        match memchr(b'\n', &self.buffer[self.start..self.end]) {
            Some(_) => true,
            None => false,
        }
    }

    // Takes what is pending, up to a line feed, and reports whether there is one.
    fn take_part(&mut self, line: &mut Vec<u8>) -> Result<bool, AllocError>
        requires { length line.old.items ≤ longest_line + 1 }
        ensures fed { result ≡ Ok true → (part : List ℕ) × HasNoFeed part
            × (pending self.old.buffer self.old.start self.old.end ≡ part
            ++ 10 ∷ pending self.new.buffer self.new.start self.new.end)
            × (line.new.items ≡ line.old.items
            ++ take (longest_line + 1 - length line.old.items) part) }
        ensures open { result ≡ Ok false
            → HasNoFeed (pending self.old.buffer self.old.start self.old.end)
            × (pending self.new.buffer self.new.start self.new.end ≡ [])
            × (line.new.items ≡ line.old.items ++ take (longest_line + 1 - length line.old.items)
            (pending self.old.buffer self.old.start self.old.end)) }
        ensures reads { self.new.reads ≡ self.old.reads }
        ensures ended { self.new.ended ≡ self.old.ended }
    {
        let rest = &self.buffer[self.start..self.end];
        match memchr(b'\n', rest) {
            Some(at) => {
                append_kept(line, &rest[..at])?;
                self.start += at + 1;
                Ok(true)
            }
            None => {
                append_kept(line, rest)?;
                self.start = self.end;
                Ok(false)
            }
        }
    }

    // Fills the buffer by one read, and reports whether there was something left.
    fn refill<S: Source>(&mut self, source: &mut S) -> Result<bool, ReplayFault>
        requires most { self.old.reads ≤ most_reads }
        requires ended { self.old.ended ≡ true → IsAtEnd (S.left source.old) }
        ensures more { result ≡ Ok true
            → Consumes (S.left source.old) (S.left source.new)
            (pending self.new.buffer self.new.start self.new.end)
            × (self.new.ended ≡ false) × (self.new.reads ≡ self.old.reads + 1)
            × (length (pending self.new.buffer self.new.start self.new.end) ≤ BUFFER_SIZE)
            × (self.old.ended ≡ false)
            × TookBytes self.old.reads (S.left source.old) self.new.reads (S.left source.new) }
        ensures none { result ≡ Ok false → IsAtEnd (S.left source.new)
            × Consumes (S.left source.old) (S.left source.new) []
            × (self.new.ended ≡ true) × (pending self.new.buffer self.new.start self.new.end ≡ []) }
        ensures together { CountTogether self.old.reads (S.reads source.old) self.new.reads
            (S.reads source.new) }
        ensures failures { OnOk result (S.failed source.new ≡ S.failed source.old) }
        ensures fault { IfErr result
            (λ fault. (fault ≡ Read) × (HasFailed (S.failed source.old) (S.failed source.new)
            ⊎ ((self.new.reads ≡ most_reads) × (self.old.ended ≡ false)
            × IsLong self.old.reads (S.left source.old)))) }
        ensures most { self.new.reads ≤ most_reads }
    {
        self.start = self.end;
        if self.ended {
            return Ok(false);
        }
        if self.reads == MAX_READS {
            return Err(ReplayFault::Read);
        }
        self.reads += 1;
        let Ok(count) = source.read(&mut self.buffer) else {
            return Err(ReplayFault::Read);
        };
        self.start = 0;
        self.end = count;
        if count == 0 {
            self.ended = true;
            return Ok(false);
        }
        Ok(true)
    }

    /// Reads the next line, and reports whether there was one. Of a line that is too long, one byte more than the longest
    /// is kept.
    pub(crate) fn next_line<S: Source>(
        &mut self,
        source: &mut S,
        line: &mut Vec<u8>,
    ) -> Result<bool, ReplayFault>
        requires most { self.old.reads ≤ most_reads }
        requires ended { self.old.ended ≡ true → IsAtEnd (S.left source.old) }
        ensures line { result ≡ Ok true → (whole : List ℕ) × (line.new.items ≡ kept_of whole)
            × GivesLine (prepend_known (pending self.old.buffer self.old.start self.old.end)
            (S.left source.old)) (prepend_known
            (pending self.new.buffer self.new.start self.new.end) (S.left source.new)) whole }
        ensures none { result ≡ Ok false
            → IsAtEnd (prepend_known (pending self.old.buffer self.old.start self.old.end)
            (S.left source.old)) }
        ensures shorter { result ≡ Ok true
            → work self.new.reads (pending self.new.buffer self.new.start self.new.end)
            < work self.old.reads (pending self.old.buffer self.old.start self.old.end) }
        ensures most { self.new.reads ≤ most_reads }
        ensures ended { OnOk result (self.new.ended ≡ true → IsAtEnd (S.left source.new)) }
        ensures took { OnOk result
            (self.new.ended ≡ false → (self.old.ended ≡ false)
            × TookBytes self.old.reads (S.left source.old) self.new.reads (S.left source.new)) }
        ensures together { CountTogether self.old.reads (S.reads source.old) self.new.reads
            (S.reads source.new) }
        ensures failures { OnOk result (S.failed source.new ≡ S.failed source.old) }
        ensures fault { IfErr result
            (λ fault. fault ≡ NoMemory ⊎ (fault ≡ Read)
            × (HasFailed (S.failed source.old) (S.failed source.new)
            ⊎ ((self.new.reads ≡ most_reads) × (self.old.ended ≡ false)
            × IsLong self.old.reads (S.left source.old)))) }
    {
        line.clear();
        loop {
            let Ok(fed) = self.take_part(line) else {
                return Err(ReplayFault::NoMemory);
            };
            if fed {
                return Ok(true);
            }
            if !self.refill(source)? {
                return Ok(!line.is_empty());
            }
        }
    }
}
