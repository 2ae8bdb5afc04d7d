//! Answers to the queries about entries: how many there are, those behind a number, and those about a subject.

ghost use Rattle.std.specs.Prelude.{◌≡◌, ◌≢◌, IfOk, IfSome, None, Some, take};
ghost use Rattle.shop_answers.specs.Listing.{reported_history, reported_story};
ghost use Rattle.shop_answers.specs.Queries.{Answers};
ghost use Rattle.shop_records.specs.Content.{entry_count, last_time};
ghost use Rattle.shop_records.specs.Lists.{entries_about, first_time, reported_entries, reported_entry};
ghost use Rattle.shop_records.specs.declared.messages.Query.TheVariants as query;
ghost use Rattle.shop_records.specs.declared.messages.Reply.TheVariants.{Refused};
ghost use Rattle.shop_records.specs.declared.journal.Subject.TheVariants as subject;
ghost use Rattle.shop_records.specs.declared.refusals.Refusal.TheVariants.{NoMemory, StoreFault};
ghost use Rattle.shop_book.specs.Failures.{CountsFailure};
ghost use Rattle.shop_book.specs.Kept.{Unchanged, OnContent};
ghost use Rattle.shop_desk.specs.Faults.{CountsReply};
ghost use Rattle.shop_desk.specs.ReportedEntries.{ShowsOrHides, Reports, ReportsFirst, entries_for};

use cut_measure::{Code, PartName};
use shop_book::{Book, BookFault};
use shop_rules::{
    Entry, EntryList, EntryRows, Kept, MAX_LISTED, MessageId, Refusal, Reply, ReportedEntry,
    Subject, bytes_with, is_full,
};
use std::alloc::{AllocError, Global};

/// More entries than memory holds, and no more than a store can be asked for at once.
const MAX_READ: usize = 4294967295;

// The time of the first entry, 0 if there is none.
fn first_time<B: Book>(book: &mut B) -> Result<u64, BookFault>
    ensures time { OnContent B.Book book.old book.new (λ m. IfOk result (λ at. at ≡ first_time m)) }
    ensures keeps { Unchanged B.Book (CountsFailure result) book.old book.new }
{
    match book.entry(1)? {
        Some(entry) => Ok(entry.at),
        None => Ok(0),
    }
}

// The time of the first entry, how many there are, and the time of the last one.
struct EntrySpan {
    began: u64,
    entries: u64,
    last: u64,
}

fn span<B: Book>(book: &mut B) -> Result<EntrySpan, BookFault>
    ensures span { OnContent B.Book book.old book.new (λ m. IfOk result (λ span.
        (span.began ≡ first_time m) × (span.entries ≡ entry_count m)
        × (span.last ≡ last_time m))) }
    ensures keeps { Unchanged B.Book (CountsFailure result) book.old book.new }
{
    let began = first_time(book)?;
    let (entries, last) = book.last_entry()?;
    Ok(EntrySpan {
        began,
        entries,
        last,
    })
}

/// How many entries there are, and the times of the first and the last one.
pub fn shop<B: Book>(book: &mut B) -> Reply
    ensures answer { OnContent B.Book book.old book.new (λ m. Answers m query.Shop result) }
    ensures keeps { Unchanged B.Book (CountsReply result) book.old book.new }
{
    match span(book) {
        Err(fault) => Reply::Refused(Refusal::from(fault)),
        Ok(
            EntrySpan {
                began,
                entries,
                last,
            },
        ) => Reply::Shop {
            began,
            entries,
            last,
        },
    }
}

// An entry as a reply has it, if the book keeps its message.
fn reported_entry<B: Book>(
    alloc: Global,
    book: &mut B,
    entry: &Entry,
) -> Result<Option<ReportedEntry>, BookFault>
    ensures reported { OnContent B.Book book.old book.new
        (λ m. IfOk result (λ reported. reported ≡ reported_entry m entry.now)) }
    ensures keeps { Unchanged B.Book (CountsFailure result) book.old book.new }
{
    let Entry {
        number,
        message_id,
        at,
        ..
    } = entry;
    let MessageId {
        terminal,
        number: sent,
    } = message_id;
    match book.kept(alloc, *terminal, *sent)? {
        Some(Kept { command, reply }) => Ok(Some(ReportedEntry {
            at: *at,
            entry: *number,
            message: command,
            reply,
        })),
        None => Ok(None),
    }
}

// Entries as they are reported, and the bytes of their messages and replies.
#[derive(Drop)]
struct Shown {
    entries: EntryList,
    bytes: u64,
}

impl Shown {
    // Reports an entry after others, if there is one. The answer is true where it isn't reported, since the others are all that
    // is reported at once.
    fn hides(&mut self, found: Option<ReportedEntry>) -> Result<bool, AllocError>
        ensures { IfOk result (λ hidden. ShowsOrHides self.old found hidden self.new) }
    {
        let Some(entry) = found else {
            return Ok(false);
        };
        if is_full(self.entries.as_slice().len(), self.bytes) {
            return Ok(true);
        }
        self.bytes = bytes_with(self.bytes, &entry);
        self.entries.push(entry)?;
        Ok(false)
    }
}

// What is reported about entries, and whether others of them follow.
fn reported_rows<B: Book>(
    alloc: Global,
    book: &mut B,
    rows: &[Entry],
) -> Result<(EntryList, bool), BookFault>
    ensures reported { OnContent B.Book book.old book.new
        (λ m. IfOk result (λ reported. ReportsFirst m rows.now reported.0 reported.1)) }
    ensures keeps { Unchanged B.Book (CountsFailure result) book.old book.new }
{
    let mut shown = Shown {
        entries: EntryList::new(alloc),
        bytes: 0,
    };
    for row in rows {
        let found = reported_entry(alloc, book, row)?;
        let hidden = shown.hides(found)?;
        if hidden {
            return Ok((shown.entries, true));
        }
    }
    Ok((shown.entries, false))
}

// The first entries with greater numbers, of all or of those about a subject.
fn first_rows<B: Book>(
    alloc: Global,
    book: &mut B,
    about: &Option<Subject>,
    after: u64,
    most: usize,
) -> Result<EntryRows, BookFault>
    ensures rows { OnContent B.Book book.old book.new
        (λ m. IfOk result (λ rows. rows ≡ take most (entries_for m about.now after))) }
    ensures keeps { Unchanged B.Book (CountsFailure result) book.old book.new }
{
    match about {
        None => book.entries_after(alloc, after, most),
        Some(about) => book.entries_about(alloc, *about, after, most),
    }
}

// What is reported about the entries with greater numbers, and whether others follow; None where so many entries don't say it.
fn reported_first<B: Book>(
    alloc: Global,
    book: &mut B,
    about: &Option<Subject>,
    after: u64,
    most: usize,
) -> Result<Option<(EntryList, bool)>, BookFault>
    ensures reported { OnContent B.Book book.old book.new (λ m. IfOk result (λ found. IfSome found
        (λ reported. Reports m (entries_for m about.now after) reported.0 reported.1))) }
    ensures keeps { Unchanged B.Book (CountsFailure result) book.old book.new }
{
    let found = first_rows(alloc, book, about, after, most)?;
    let rows = found.as_slice();
    let (entries, more) = reported_rows(alloc, book, rows)?;
    if more {
        return Ok(Some((entries, more)));
    }
    if rows.len() < most {
        Ok(Some((entries, more)))
    } else {
        Ok(None)
    }
}

// The same of all entries with greater numbers.
fn reported_last<B: Book>(
    alloc: Global,
    book: &mut B,
    about: &Option<Subject>,
    after: u64,
) -> Result<(EntryList, bool), BookFault>
    ensures reported { OnContent B.Book book.old book.new (λ m. IfOk result
        (λ reported. Reports m (entries_for m about.now after) reported.0 reported.1)) }
    ensures keeps { Unchanged B.Book (CountsFailure result) book.old book.new }
{
    match reported_first(alloc, book, about, after, MAX_READ)? {
        Some(reported) => Ok(reported),
        None => Err(BookFault::NoMemory),
    }
}

// What is reported about the entries with greater numbers, and whether others follow. One entry more than can be reported says it,
// unless there are entries whose messages aren't kept: then all entries are looked at.
fn reported<B: Book>(
    alloc: Global,
    book: &mut B,
    about: &Option<Subject>,
    after: u64,
) -> Result<(EntryList, bool), BookFault>
    ensures reported { OnContent B.Book book.old book.new (λ m. IfOk result
        (λ reported. Reports m (entries_for m about.now after) reported.0 reported.1)) }
    ensures keeps { Unchanged B.Book (CountsFailure result) book.old book.new }
{
    match reported_first(alloc, book, about, after, MAX_LISTED + 1)? {
        Some(reported) => Ok(reported),
        None => reported_last(alloc, book, about, after),
    }
}

/// The first entries with greater numbers.
pub fn history<B: Book>(alloc: Global, book: &mut B, after: u32) -> Reply
    ensures answer { OnContent B.Book book.old book.new
        (λ m. Answers m (query.History after) result) }
    ensures keeps { Unchanged B.Book (CountsReply result) book.old book.new }
{
    match reported(alloc, book, &None, u64::from(after)) {
        Err(fault) => Reply::Refused(Refusal::from(fault)),
        Ok((entries, more)) => Reply::History { entries, more },
    }
}

// The first entries about a subject that is there.
fn known_story<B: Book>(alloc: Global, book: &mut B, about: Subject, after: u32) -> Reply
    ensures answer { OnContent B.Book book.old book.new
        (λ m. result ≢ Refused NoMemory → result ≢ Refused StoreFault
        → result ≡ reported_story None (reported_entries m (entries_about m about after))) }
    ensures keeps { Unchanged B.Book (CountsReply result) book.old book.new }
{
    match reported(alloc, book, &Some(about), u64::from(after)) {
        Err(fault) => Reply::Refused(Refusal::from(fault)),
        Ok((entries, more)) => Reply::Story { entries, more },
    }
}

// The entries about an order.
fn order_story<B: Book>(alloc: Global, book: &mut B, order: Code, after: u32) -> Reply
    ensures answer { OnContent B.Book book.old book.new
        (λ m. Answers m (query.Story (subject.Order order) after) result) }
    ensures keeps { Unchanged B.Book (CountsReply result) book.old book.new }
{
    match book.order(order) {
        Err(fault) => Reply::Refused(Refusal::from(fault)),
        Ok(true) => known_story(alloc, book, Subject::Order(order), after),
        Ok(false) => Reply::Refused(Refusal::NoOrder),
    }
}

// The entries about a job.
fn job_story<B: Book>(alloc: Global, book: &mut B, job: u32, after: u32) -> Reply
    ensures answer { OnContent B.Book book.old book.new
        (λ m. Answers m (query.Story (subject.Job job) after) result) }
    ensures keeps { Unchanged B.Book (CountsReply result) book.old book.new }
{
    match book.job_head(alloc, job) {
        Err(fault) => Reply::Refused(Refusal::from(fault)),
        Ok(Some(_)) => known_story(alloc, book, Subject::Job(job), after),
        Ok(None) => Reply::Refused(Refusal::NoJob),
    }
}

// The entries about a part.
fn part_story<B: Book>(alloc: Global, book: &mut B, part: PartName, after: u32) -> Reply
    ensures answer { OnContent B.Book book.old book.new
        (λ m. Answers m (query.Story (subject.Part part) after) result) }
    ensures keeps { Unchanged B.Book (CountsReply result) book.old book.new }
{
    match book.part(part) {
        Err(fault) => Reply::Refused(Refusal::from(fault)),
        Ok(Some(_)) => known_story(alloc, book, Subject::Part(part), after),
        Ok(None) => Reply::Refused(Refusal::NoPart),
    }
}

/// The first entries about a subject with greater numbers.
pub fn story<B: Book>(alloc: Global, book: &mut B, about: Subject, after: u32) -> Reply
    ensures answer { OnContent B.Book book.old book.new
        (λ m. Answers m (query.Story about after) result) }
    ensures keeps { Unchanged B.Book (CountsReply result) book.old book.new }
{
    match about {
        Subject::Order(order) => order_story(alloc, book, order, after),
        Subject::Job(job) => job_story(alloc, book, job, after),
        Subject::Part(part) => part_story(alloc, book, part, after),
    }
}
