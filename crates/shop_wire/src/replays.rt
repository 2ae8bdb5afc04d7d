//! A replay: each line of a source is answered by a line of a sink.

ghost use Rattle.std.specs.Prelude.{◌≡◌, ◌+◌, ◌<◌, ◌≤◌, ◌++◌, ◌∷◌, [], ◌⊎◌, ℕ, List, Some, IfOk, IfErr, OnOk, OnErr, Err, length};
ghost use Rattle.std.specs.Io.KnownBytes.{Appends};
ghost use Rattle.shop_desk.specs.Faults.{CountsUp};
ghost use Rattle.shop_wire.specs.Lines.{AreLines, HasNoFeed, pending};
ghost use Rattle.shop_wire.specs.Replays.{IsReplayed};
ghost use Rattle.shop_streams.specs.Streams.{HasFailed};
ghost use Rattle.shop_wire.specs.Streams.{AreReads, IsLong, most_reads};
ghost use Rattle.shop_wire.specs.declared.limits.TheConstants.{MAX_HELD};
ghost use Rattle.shop_wire.specs.declared.faults.ReplayFault.TheVariants.{Read, Write, NoMemory};

use crate::answers::{answer, hold_reported};
use crate::faults::ReplayFault;
use crate::limits::{MAX_HELD, MAX_LINE_LEN};
use crate::reader::LineReader;
use shop_book::Book;
use shop_text::{Sink, Source, write_all};
use std::alloc::Global;

// Answers a line, and holds what it is reported.
fn hold_answer<B: Book>(
    alloc: Global,
    line: &[u8],
    book: &mut B,
    held: &mut Vec<u8>,
) -> Result<(), ReplayFault>
    ensures ok { OnOk result (IsReplayed B.Book book.old book.new (Some held.old.items)
        (Some held.new.items) (line.now ∷ []) []) }
    ensures err { OnErr result
        ((lines more : List (List ℕ)) × (lines ++ more ≡ line.now ∷ []) × (unwritten : List ℕ)
        × IsReplayed B.Book book.old book.new (Some held.old.items)
        (Some held.new.items) lines unwritten) }
    ensures clean_disk { B.has_clean_disk book.new → B.has_clean_disk book.old }
    ensures failures { CountsUp (B.failed book.old) (B.failed book.new) }
    ensures fault { IfErr result (λ fault. fault ≡ NoMemory) }
{
    let reported = answer(alloc, book, line);
    match hold_reported(alloc, reported, held) {
        Ok(()) => Ok(()),
        Err(_) => Err(ReplayFault::NoMemory),
    }
}

// Writes what is held, and holds nothing then.
fn pass_on<W: Sink>(sink: &mut W, held: &mut Vec<u8>) -> Result<(), ReplayFault>
    ensures none { held.new.items ≡ [] }
    ensures ok { OnOk result (Appends (W.held sink.old) (W.held sink.new) held.old.items) }
    ensures err { OnErr result
        ((done : List ℕ) × (rest : List ℕ) × (done ++ rest ≡ held.old.items)
        × Appends (W.held sink.old) (W.held sink.new) done) }
    ensures fault { IfErr result
        (λ fault. (fault ≡ Write) × (0 < length held.old.items)
        × HasFailed (W.failed sink.old) (W.failed sink.new)) }
    ensures worked { OnOk result (W.failed sink.new ≡ W.failed sink.old) }
{
    if held.is_empty() {
        return Ok(());
    }
    let written = write_all(sink, held);
    held.clear();
    match written {
        Ok(()) => Ok(()),
        Err(_) => Err(ReplayFault::Write),
    }
}

// Writes what is held where the source would be read for the next line, and where much is held.
fn flush_if_due<W: Sink>(
    reader: &LineReader,
    sink: &mut W,
    held: &mut Vec<u8>,
) -> Result<(), ReplayFault>
    ensures ok { OnOk result ((done : List ℕ) × (done ++ held.new.items ≡ held.old.items)
        × Appends (W.held sink.old) (W.held sink.new) done) }
    ensures waiting { OnOk result
        (HasNoFeed (pending reader.now.buffer reader.now.start reader.now.end)
        → held.new.items ≡ []) }
    ensures few { OnOk result (length held.new.items < MAX_HELD) }
    ensures none { OnErr result (held.new.items ≡ []) }
    ensures err { OnErr result
        ((done : List ℕ) × (rest : List ℕ) × (done ++ rest ≡ held.old.items)
        × Appends (W.held sink.old) (W.held sink.new) done) }
    ensures fault { IfErr result
        (λ fault. (fault ≡ Write) × HasFailed (W.failed sink.old) (W.failed sink.new)) }
    ensures worked { OnOk result (W.failed sink.new ≡ W.failed sink.old) }
{
    if held.len() < MAX_HELD && reader.has_line() {
        return Ok(());
    }
    pass_on(sink, held)?;
    Ok(())
}

// Answers each line of a source, and reports how many there were. What of the replies wasn't written is held, but for some
// last bytes after an Err.
fn answer_lines<S: Source, W: Sink, B: Book>(
    alloc: Global,
    source: &mut S,
    sink: &mut W,
    book: &mut B,
    held: &mut Vec<u8>,
) -> Result<u64, ReplayFault>
    requires { held.old.items ≡ [] }
    ensures ok { IfOk result (λ count. (lines : List (List ℕ)) × AreLines (S.left source.old) lines
        × (count ≡ length lines)
        × IsReplayed B.Book book.old book.new (W.held sink.old)
        (W.held sink.new) lines held.new.items) }
    ensures err { IfErr result
        (λ fault. (lines more : List (List ℕ)) × AreLines (S.left source.old) (lines ++ more)
        × (lost : List ℕ) × (fault ≡ Read → lost ≡ [])
        × IsReplayed B.Book book.old book.new (W.held sink.old) (W.held sink.new) lines
        (held.new.items ++ lost)) }
    ensures clean_disk { B.has_clean_disk book.new → B.has_clean_disk book.old }
    ensures failures { CountsUp (B.failed book.old) (B.failed book.new) }
    ensures reads { S.reads source.new ≤ S.reads source.old + most_reads }
    ensures read { result ≡ Err Read → HasFailed (S.failed source.old) (S.failed source.new)
        ⊎ (AreReads (S.reads source.old) most_reads (S.reads source.new)
        × IsLong 0 (S.left source.old)) }
    ensures write { result ≡ Err Write → HasFailed (W.failed sink.old) (W.failed sink.new) }
    ensures worked { (W.failed sink.new ≡ W.failed sink.old) ⊎ (held.new.items ≡ []) }
{
    let mut reader = LineReader::new();
    let Ok(mut line) = Vec::with_capacity(alloc, MAX_LINE_LEN + 1) else {
        return Err(ReplayFault::NoMemory);
    };
    let mut count = 0u64;
    while reader.next_line(source, &mut line)? {
        hold_answer(alloc, &line, book, held)?;
        count += 1;
        flush_if_due(&reader, sink, held)?;
    }
    Ok(count)
}

/// Answers each line of a source by a line of a sink, and reports how many there were. Each line that ends in a line feed
/// is one, and a last one without it that isn't empty. An empty line and one of over 131072 bytes are no messages.
/// Replies go out before the source is read for the next line, and where 65536 bytes are held. A line for which memory runs
/// out while it is read or done is refused 98.
///
/// `Read` where the source failed, or 1000000000 reads didn't come to its end; `Write` where the sink failed; `NoMemory`
/// where there is no memory for a line or for its reply. Then some first lines were answered, and their replies were written but for some last
/// bytes; after `Read` all of them.
pub fn replay<S: Source, W: Sink, B: Book>(
    alloc: Global,
    source: &mut S,
    sink: &mut W,
    book: &mut B,
) -> Result<u64, ReplayFault>
    ensures ok { IfOk result (λ count. (lines : List (List ℕ)) × AreLines (S.left source.old) lines
        × (count ≡ length lines)
        × IsReplayed B.Book book.old book.new (W.held sink.old) (W.held sink.new) lines []) }
    ensures err { IfErr result
        (λ fault. (lines more : List (List ℕ)) × AreLines (S.left source.old) (lines ++ more)
        × (unwritten : List ℕ) × (fault ≡ Read → unwritten ≡ [])
        × IsReplayed B.Book book.old book.new (W.held sink.old) (W.held sink.new) lines unwritten) }
    ensures clean_disk { B.has_clean_disk book.new → B.has_clean_disk book.old }
    ensures failures { CountsUp (B.failed book.old) (B.failed book.new) }
    ensures reads { S.reads source.new ≤ S.reads source.old + most_reads }
    ensures read { result ≡ Err Read → HasFailed (S.failed source.old) (S.failed source.new)
        ⊎ (AreReads (S.reads source.old) most_reads (S.reads source.new)
        × IsLong 0 (S.left source.old)) }
    ensures write { result ≡ Err Write → HasFailed (W.failed sink.old) (W.failed sink.new) }
{
    let Ok(mut held) = Vec::with_capacity(alloc, MAX_HELD + MAX_LINE_LEN) else {
        return Err(ReplayFault::NoMemory);
    };
    let outcome = answer_lines(alloc, source, sink, book, &mut held);
    pass_on(sink, &mut held)?;
    outcome
}
