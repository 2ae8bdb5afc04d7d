//! The entries of a book as lines.

ghost use Rattle.std.specs.Prelude.{◌≡◌, ◌+◌, ◌<◌, ◌^◌, Err, IfOk, OnErr, OnOk, string_bytes};
ghost use Rattle.std.specs.Io.KnownBytes.{Appends};
ghost use Rattle.shop_streams.specs.Streams.{HasFailed};
ghost use Rattle.shop_book.specs.Failures.{CountsFailure};
ghost use Rattle.shop_book.specs.Kept.{OnContent, Unchanged};
ghost use Rattle.shop_audit.specs.Compared.{IsLookedAt};
ghost use Rattle.shop_audit.specs.Lines.{AppendsPart, history_text, line_at, line_of, lines, reported_at};
ghost use Rattle.shop_audit.specs.declared.lines.LinesFault.TheVariants.{Write};

use crate::progress::Progress;
use shop_book::{Book, BookFault};
use shop_records::{Kept, ReportedEntry};
use shop_replies::entry_text;
use shop_streams::{Sink, write_all};
use std::alloc::{AllocError, Global};

/// Why not all entries were written. A first part of their lines was.
#[derive(Clone, Copy, Debug, PartialEq, Eq)]
pub enum LinesFault {
    NoMemory,
    /// The store failed.
    Store,
    /// The sink failed.
    Write,
}

impl From<AllocError> for LinesFault {
    ghost use Rattle.std.specs.Prelude.{◌≡◌};
    ghost use Rattle.shop_audit.specs.declared.lines.LinesFault.TheVariants.{NoMemory};

    ghost from_gives = { λ _ fault. fault ≡ NoMemory };

    fn from(_error: AllocError) -> LinesFault {
        LinesFault::NoMemory
    }
}

impl From<BookFault> for LinesFault {
    ghost use Rattle.std.specs.Prelude.{◌≡◌};
    ghost use Rattle.shop_audit.specs.Lines.{lines_fault};

    ghost from_gives = { λ fault result. result ≡ lines_fault fault };

    fn from(fault: BookFault) -> LinesFault {
        match fault {
            BookFault::NoMemory => LinesFault::NoMemory,
            BookFault::Store => LinesFault::Store,
            BookFault::WrongVersion => LinesFault::Store,
        }
    }
}

// The entry of a number as a reply has it, if the book has that entry and keeps its message.
fn reported_at<B: Book>(
    alloc: Global,
    book: &mut B,
    number: u64,
) -> Result<Option<ReportedEntry>, BookFault>
    ensures reported { OnContent B.Book book.old book.new
        (λ m. IfOk result (λ reported. reported ≡ reported_at m number)) }
    ensures keeps { Unchanged B.Book (CountsFailure result) book.old book.new }
{
    let Some(entry) = book.entry(number)? else {
        return Ok(None);
    };
    match book.kept(alloc, entry.message_id.terminal, entry.message_id.number)? {
        Some(Kept { command, reply }) => Ok(Some(ReportedEntry {
            at: entry.at,
            entry: entry.number,
            message: command,
            reply,
        })),
        None => Ok(None),
    }
}

// Writes bytes to the last.
fn write_bytes<W: Sink>(bytes: &[u8], sink: &mut W) -> Result<(), LinesFault>
    ensures ok { OnOk result (Appends (W.held sink.old) (W.held sink.new) bytes.now) }
    ensures part { OnErr result (AppendsPart (W.held sink.old) (W.held sink.new) bytes.now) }
    ensures failed { result ≡ Err Write → HasFailed (W.failed sink.old) (W.failed sink.new) }
    ensures worked { OnOk result (W.failed sink.new ≡ W.failed sink.old) }
{
    match write_all(sink, bytes) {
        Ok(()) => Ok(()),
        Err(_) => Err(LinesFault::Write),
    }
}

/// An entry as a line: the object that a reply has for it.
pub fn entry_line(alloc: Global, reported: Option<ReportedEntry>) -> Result<String, AllocError>
    ensures { IfOk result (λ line. string_bytes line ≡ line_of reported) }
{
    let mut line = String::new(alloc);
    if let Some(reported) = reported {
        let text = entry_text(alloc, &reported)?;
        line.push_str(text.as_str())?;
        line.push_str("\n")?;
    }
    Ok(line)
}

// Writes the line of the entry of a number.
fn write_entry<B: Book, W: Sink>(
    alloc: Global,
    book: &mut B,
    number: u64,
    sink: &mut W,
) -> Result<(), LinesFault>
    ensures ok { OnContent B.Book book.old book.new (λ m. OnOk result
        (Appends (W.held sink.old) (W.held sink.new) (line_at m number))) }
    ensures part { OnContent B.Book book.old book.new (λ m. OnErr result
        (AppendsPart (W.held sink.old) (W.held sink.new) (line_at m number))) }
    ensures failed { result ≡ Err Write → HasFailed (W.failed sink.old) (W.failed sink.new) }
    ensures worked { OnOk result (W.failed sink.new ≡ W.failed sink.old) }
    ensures keeps { IsLookedAt B.Book book.old book.new }
{
    let reported = reported_at(alloc, book, number)?;
    let line = entry_line(alloc, reported)?;
    write_bytes(line.as_bytes(), sink)
}

// Writes the lines of so many entries behind a number, and notes how far it is.
fn write_lines<B: Book, W: Sink, P: Progress>(
    alloc: Global,
    book: &mut B,
    after: u64,
    count: u64,
    sink: &mut W,
    progress: &mut P,
) -> Result<(), LinesFault>
    requires { after + count < 2 ^ 64 }
    ensures ok { OnContent B.Book book.old book.new (λ m. OnOk result
        (Appends (W.held sink.old) (W.held sink.new) (lines m after count))) }
    ensures part { OnContent B.Book book.old book.new (λ m. OnErr result
        (AppendsPart (W.held sink.old) (W.held sink.new) (lines m after count))) }
    ensures failed { result ≡ Err Write → HasFailed (W.failed sink.old) (W.failed sink.new) }
    ensures worked { OnOk result (W.failed sink.new ≡ W.failed sink.old) }
    ensures keeps { IsLookedAt B.Book book.old book.new }
{
    for done in 0..count {
        write_entry(alloc, book, after + done + 1, sink)?;
        progress.note(done + 1, count);
    }
    Ok(())
}

/// Writes all entries with greater numbers, one a line, rising. It notes how many of them are done.
pub fn write_history<B: Book, W: Sink, P: Progress>(
    alloc: Global,
    book: &mut B,
    after: u64,
    sink: &mut W,
    progress: &mut P,
) -> Result<(), LinesFault>
    ensures ok { OnContent B.Book book.old book.new (λ m. OnOk result
        (Appends (W.held sink.old) (W.held sink.new) (history_text m after))) }
    ensures part { OnContent B.Book book.old book.new (λ m. OnErr result
        (AppendsPart (W.held sink.old) (W.held sink.new) (history_text m after))) }
    ensures failed { result ≡ Err Write → HasFailed (W.failed sink.old) (W.failed sink.new) }
    ensures worked { OnOk result (W.failed sink.new ≡ W.failed sink.old) }
    ensures keeps { IsLookedAt B.Book book.old book.new }
{
    let (last, _) = book.last_entry()?;
    let count = last.saturating_sub(after);
    write_lines(alloc, book, after, count, sink, progress)
}
