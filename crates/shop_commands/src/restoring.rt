//! `cutshop restore`: replaces a store by a backup.

ghost use Rattle.std.specs.Prelude.{◌≡◌, IfErr, IfOk, OnOk, string_bytes};
ghost use Rattle.shop_commands.specs.Restoring as spec;
ghost use Rattle.shop_commands.specs.Restoring.{IsRestoreDone, IsRestoredText, IsRestoreStopped, IsUnrestored, IsUntilLine};
ghost use Rattle.shop_commands.specs.Sinks.{change_of};

use crate::faults::Fault;
use crate::files::write_text;
use shop_backup::{BookEntries, Judges, put_back};
use shop_opening::{Made, OpenAs, OpenFault, Opens};
use shop_store::{Book, BookFault};
use shop_text::Sink;
use shop_times::time_text;
use std::alloc::{AllocError, Global};
use std::fs::Files;
use std::marker::PhantomData;

// What opens the book of one backup, whose files it only reads.
#[derive(Drop)]
struct BookJudge<B, O> {
    opener: Option<O>,
    book: PhantomData<B>,
}

// What a book reports about its entries, or none where its store fails.
fn entries_of<B: Book>(book: &mut B) -> Result<Option<BookEntries>, AllocError> {
    match book.last_entry() {
        Ok((count, last_time)) => Ok(Some(BookEntries { count, last_time })),
        Err(BookFault::NoMemory) => Err(AllocError),
        Err(_) => Ok(None),
    }
}

impl<B: Book + Drop, O: Opens<B>> Judges for BookJudge<B, O> {
    fn book_entries(
        &mut self,
        alloc: Global,
        store: &str,
    ) -> Result<Option<BookEntries>, AllocError> {
        let Some(opener) = self.opener.take() else {
            return Ok(None);
        };
        let how = OpenAs {
            existing: true,
            merged: false,
        };
        let mut made = Made::nothing();
        match opener.open(alloc, store, how, &mut made) {
            Ok(mut book) => {
                let entries = entries_of(&mut book);
                O::close(book);
                entries
            }
            Err(OpenFault::NoMemory) => Err(AllocError),
            Err(_) => Ok(None),
        }
    }
}

// Puts a backup in the place of a store, and gives what its book reports about its entries.
fn put<R: Files, B: Book + Drop, O: Opens<B>>(
    rt: &R,
    opener: O,
    alloc: Global,
    store: &str,
    from: &str,
) -> Result<BookEntries, Fault>
    ensures { IfErr result IsUnrestored }
{
    let judge = BookJudge {
        opener: Some(opener),
        book: PhantomData,
    };
    match put_back(rt, alloc, judge, store, from) {
        Ok(entries) => Ok(entries),
        Err(fault) => Err(Fault::from(fault)),
    }
}

// The line of the last entry's time, or nothing where there is none.
fn until_line(alloc: Global, last_time: u64) -> Result<String, AllocError>
    ensures { IfOk result (λ line. IsUntilLine last_time (string_bytes line)) }
{
    if last_time == 0 {
        return Ok(String::new(alloc));
    }
    match time_text(alloc, last_time)? {
        Some(text) => format!(in alloc; "until {text}\n"),
        None => Ok(String::new(alloc)),
    }
}

// What is printed of a store that was restored, with so many entries, and this line of the last one's time.
fn restored_lines(
    alloc: Global,
    store: &str,
    from: &str,
    entries: u64,
    until: &str,
) -> Result<String, AllocError>
    ensures { IfOk result (λ text. string_bytes text
        ≡ spec.restored_lines store.now from.now entries until.now) }
{
    format!(in alloc; "restored {store} from {from}\nentries {entries}\n{until}")
}

// The same, from what the book reports about its entries.
fn reported_lines(
    alloc: Global,
    store: &str,
    from: &str,
    entries: BookEntries,
) -> Result<String, AllocError>
    ensures { IfOk result (λ text. IsRestoredText store.now from.now (string_bytes text)) }
{
    let until = until_line(alloc, entries.last_time)?;
    restored_lines(alloc, store, from, entries.count, until.as_str())
}

/// Replaces a store by a backup, and prints that, with its number of entries and the time of the last. `opener` only
/// reads the backup's files.
pub(crate) fn restore<R: Files, B: Book + Drop, O: Opens<B>, W: Sink>(
    rt: &R,
    opener: O,
    alloc: Global,
    store: &str,
    from: &str,
    sink: &mut W,
) -> Result<(), Fault>
    ensures ok { OnOk result
        (IsRestoreDone store.now from.now (change_of W.Sink sink.old sink.new)) }
    ensures err { IfErr result (λ f.
        IsRestoreStopped store.now from.now f (change_of W.Sink sink.old sink.new)) }
{
    let entries = put(rt, opener, alloc, store, from)?;
    let lines = reported_lines(alloc, store, from, entries)?;
    write_text(sink, lines.as_str())
}
