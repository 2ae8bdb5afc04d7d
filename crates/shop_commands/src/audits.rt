//! `cutshop history` and `cutshop audit`: prints and checks the entries of a store.

ghost use Rattle.std.specs.Prelude.{◌≡◌, IfErr, IfOk, IsErr, Ok, OnOk, string_bytes};
ghost use Rattle.shop_book.specs.Ledgers.{content_in};
ghost use Rattle.shop_book.specs.MemStorages.{HoldsTexts};
ghost use Rattle.shop_commands.specs.Audits as spec;
ghost use Rattle.shop_commands.specs.Audits.{IsAuditDone, IsAuditOf, IsAuditStopped, IsFailure, IsHistoryDone, IsHistoryStopped, IsJudged, IsUnfound, IsUnjudged};
ghost use Rattle.shop_commands.specs.Sinks.{Adds, change_of};
ghost use Rattle.shop_records.specs.Content.{fresh};

use crate::faults::{Fault, Torn};
use crate::files::write_text;
use crate::progress::Meter;
use shop_advice::StoreCause;
use shop_audit::{Audit, Progress, Row, Verdict, audit_book, first_row, write_history};
use shop_opening::{Made, OpenAs, OpenFault, Opens};
use shop_store::{Book, MemBook};
use shop_text::Sink;
use std::alloc::{AllocError, Global};
use std::io::Eprint;
use std::time::Clock;

// What it is that a store can't be opened: one that isn't there is a file that isn't, unless its files are only read.
fn unfound(fault: OpenFault, read_only: bool) -> Fault
    ensures { spec.IsFaultOf result fault }
{
    match fault {
        OpenFault::Store(StoreCause::Missing) => {
            if read_only {
                Fault::from(fault)
            } else {
                Fault::File
            }
        }
        other => Fault::from(other),
    }
}

// Opens the book of a store that is there.
fn open_known<B: Book + Drop, O: Opens<B>>(
    stores: O,
    alloc: Global,
    store: &str,
    read_only: bool,
) -> Result<B, Fault>
    ensures ok { IfOk result (λ book. O.gives stores store.now (Ok book)) }
    ensures err { IfErr result (IsUnfound (O.gives stores store.now)) }
{
    let how = OpenAs {
        existing: true,
        merged: false,
    };
    let mut made = Made::nothing();
    match stores.open(alloc, store, how, &mut made) {
        Ok(book) => Ok(book),
        Err(fault) => Err(unfound(fault, read_only)),
    }
}

// The number after which the output begins, 0 if the words give none.
fn number_of(after: Option<u32>) -> u64
    ensures { result ≡ spec.number_of after }
{
    match after {
        Some(after) => u64::from(after),
        None => 0,
    }
}

/// Prints the entries of a store after a number, or all.
pub(crate) fn print_history<R: Eprint + Clock, B: Book + Drop, O: Opens<B>, W: Sink>(
    rt: &R,
    stores: O,
    alloc: Global,
    store: &str,
    after: Option<u32>,
    read_only: bool,
    sink: &mut W,
) -> Result<(), Fault>
    ensures ok { OnOk result (IsHistoryDone B.Book (O.gives stores store.now) (spec.number_of after)
        (change_of W.Sink sink.old sink.new)) }
    ensures err { IfErr result (λ f. IsHistoryStopped B.Book (O.gives stores store.now)
        (spec.number_of after) f (change_of W.Sink sink.old sink.new)) }
{
    let mut book = open_known(stores, alloc, store, read_only)?;
    let mut progress = Meter::new(rt, alloc);
    let written = write_history(alloc, &mut book, number_of(after), sink, &mut progress);
    O::close(book);
    match written {
        Ok(()) => Ok(()),
        Err(fault) => Err(Fault::from(fault)),
    }
}

// What is printed of a store that is whole.
fn whole_lines(alloc: Global, entries: u64) -> Result<String, AllocError>
    ensures { IfOk result (λ text. string_bytes text ≡ spec.whole_lines entries) }
{
    format!(in alloc; "entries {entries}\nwhole\n")
}

// What is printed of one that isn't.
fn entries_line(alloc: Global, entries: u64) -> Result<String, AllocError>
    ensures { IfOk result (λ text. string_bytes text ≡ spec.entries_line entries) }
{
    format!(in alloc; "entries {entries}\n")
}

// Prints how many entries a store has that is whole, and that it is.
fn report_whole<W: Sink>(alloc: Global, entries: u64, sink: &mut W) -> Result<(), Fault>
    ensures ok { OnOk result
        (Adds (change_of W.Sink sink.old sink.new) (spec.whole_lines entries)) }
    ensures err { IfErr result (IsUnjudged (change_of W.Sink sink.old sink.new)) }
{
    let lines = whole_lines(alloc, entries)?;
    write_text(sink, lines.as_str())
}

// Prints how many entries a store has that isn't whole, and gives the fault that says why.
fn report_torn<W: Sink>(alloc: Global, entries: u64, torn: Torn, sink: &mut W) -> Result<(), Fault>
    ensures never { IsErr result }
    ensures err { IfErr result (IsUnjudged (change_of W.Sink sink.old sink.new)) }
{
    let line = entries_line(alloc, entries)?;
    write_text(sink, line.as_str())?;
    Err(Fault::Audit(torn))
}

// Does a book's entries anew over a fresh one in memory.
fn audit<B: Book, P: Progress>(
    alloc: Global,
    book: &mut B,
    anew: &mut MemBook,
    progress: &mut P,
) -> Result<Audit, Fault>
    requires texts { HoldsTexts anew.old.storage fresh }
    requires rows { content_in anew.old.ledger ≡ fresh }
    ensures ok { IfOk result (IsAuditOf B.Book book.old book.new) }
    ensures err { IfErr result IsFailure }
{
    match audit_book(alloc, book, anew, progress) {
        Ok(audit) => Ok(audit),
        Err(fault) => Err(Fault::from(fault)),
    }
}

// The first row by which a book differs from what its entries give anew.
fn differing_row<B: Book>(
    alloc: Global,
    book: &mut B,
    anew: &mut MemBook,
    entries: u64,
) -> Result<Row, Fault>
    ensures { IfErr result IsFailure }
{
    match first_row(alloc, book, anew, entries) {
        Ok(row) => Ok(row),
        Err(fault) => Err(Fault::from(fault)),
    }
}

// Prints how many entries a store has of which a row differs, and gives the fault that names the first such row.
fn report_row<B: Book, W: Sink>(
    alloc: Global,
    book: &mut B,
    anew: &mut MemBook,
    entries: u64,
    sink: &mut W,
) -> Result<(), Fault>
    ensures never { IsErr result }
    ensures err { IfErr result (IsUnjudged (change_of W.Sink sink.old sink.new)) }
{
    let row = differing_row(alloc, book, anew, entries)?;
    report_torn(alloc, entries, Torn::Row(row), sink)
}

// Audits a book over one in memory, and prints how many entries it has and that it is whole, where it is.
fn judge<B: Book, W: Sink, P: Progress>(
    alloc: Global,
    book: &mut B,
    sink: &mut W,
    progress: &mut P,
) -> Result<(), Fault>
    ensures ok { OnOk result (IsJudged B.Book book.old book.new
        (change_of W.Sink sink.old sink.new)) }
    ensures err { IfErr result (IsUnjudged (change_of W.Sink sink.old sink.new)) }
{
    let mut anew = MemBook::new(alloc);
    let audit = audit(alloc, book, &mut anew, progress)?;
    match audit.verdict {
        Verdict::Whole => report_whole(alloc, audit.entries, sink),
        Verdict::KeptBefore(count) => report_torn(alloc, audit.entries, Torn::Before(count), sink),
        Verdict::Reply(number) => report_torn(alloc, audit.entries, Torn::Reply(number), sink),
        Verdict::Row => report_row(alloc, book, &mut anew, audit.entries, sink),
    }
}

/// Checks whether a store is whole. Its files are read into memory, and don't change.
pub(crate) fn audit_store<R: Eprint + Clock, B: Book + Drop, O: Opens<B>, W: Sink>(
    rt: &R,
    apart: O,
    alloc: Global,
    store: &str,
    read_only: bool,
    sink: &mut W,
) -> Result<(), Fault>
    ensures ok { OnOk result (IsAuditDone B.Book (O.gives apart store.now)
        (change_of W.Sink sink.old sink.new)) }
    ensures err { IfErr result (λ f. IsAuditStopped (O.gives apart store.now) f
        (change_of W.Sink sink.old sink.new)) }
{
    let mut book = open_known(apart, alloc, store, read_only)?;
    let mut progress = Meter::new(rt, alloc);
    let judged = judge(alloc, &mut book, sink, &mut progress);
    O::close(book);
    judged
}
