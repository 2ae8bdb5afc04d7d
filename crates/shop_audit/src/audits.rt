//! Whether a store is whole.

ghost use Rattle.std.specs.Prelude.{◌≡◌, IfOk, true};
ghost use Rattle.shop_records.specs.Content.{Content, entry_count, fresh};
ghost use Rattle.shop_forms.specs.Forms.{json_texts};
ghost use Rattle.shop_book.specs.Kept.{OnContent};
ghost use Rattle.shop_audit.specs.Compared.{IsLookedAt, OnBoth};
ghost use Rattle.shop_audit.specs.Whole.{HoldsPart, IsGiven, IsWhole, IsWithin};
ghost use Rattle.shop_audit.specs.declared.audits.Verdict.TheVariants.{Whole};

use crate::again::{Again, all_again};
use crate::compared::have_same_texts;
use crate::progress::Progress;
use shop_book::{Book, BookFault};
use std::alloc::Global;

/// What an audit found.
#[derive(Clone, Copy, Debug, PartialEq, Eq)]
pub enum Verdict {
    /// The messages of the entries are a history that gives the content.
    Whole,
    /// So many messages were kept before entries began.
    KeptBefore(u64),
    /// The message of this entry gets another reply.
    Reply(u64),
    /// A row differs, or is there on one side alone.
    Row,
}

/// What an audit found, and how many entries there are.
#[derive(Clone, Copy, Debug, PartialEq, Eq)]
pub struct Audit {
    pub entries: u64,
    pub verdict: Verdict,
}

// Whether both books have the same content. The new one's is given by a history of which no entry was forgotten, and its
// entries and what it keeps of them are in the other one's.
fn is_same<B: Book, F: Book>(
    alloc: Global,
    book: &mut B,
    anew: &mut F,
    entries: u64,
) -> Result<bool, BookFault>
    ensures same { OnBoth B.Book F.Book book.old book.new anew.old anew.new
        (λ m c. IsGiven json_texts c → IsWithin c m → IfOk result (λ same. same ≡ true → m ≡ c)) }
    ensures keeps { IsLookedAt B.Book book.old book.new }
    ensures keeps_anew { IsLookedAt F.Book anew.old anew.new }
{
    let texts = have_same_texts(alloc, book, anew, entries)?;
    if !texts {
        return Ok(false);
    }
    let one = book.rows();
    let other = anew.rows();
    Ok(one.has_rows_of(other))
}

// What is found of the other rows of a book that has so many entries, which with what is kept of them are the same anew, and at
// last of the orders of jobs that it lists.
fn rows_verdict<B: Book, F: Book>(
    alloc: Global,
    book: &mut B,
    anew: &mut F,
    entries: u64,
) -> Result<Verdict, BookFault>
    ensures whole { OnContent B.Book book.old book.new (λ m. F.has_clean_disk anew.new
        → HoldsPart json_texts F.Book m anew.old entries
        → IfOk result (λ verdict. verdict ≡ Whole → IsWhole json_texts m)) }
    ensures keeps { IsLookedAt B.Book book.old book.new }
    ensures clean_disk { F.has_clean_disk anew.new → F.has_clean_disk anew.old }
{
    let same = is_same(alloc, book, anew, entries)?;
    if !same {
        return Ok(Verdict::Row);
    }
    let stray = book.stray_use(alloc)?;
    match stray {
        Some(_) => Ok(Verdict::Row),
        None => Ok(Verdict::Whole),
    }
}

// What is found of a book that has so many entries, and keeps no message from before.
fn judged<B: Book, F: Book, P: Progress>(
    alloc: Global,
    book: &mut B,
    anew: &mut F,
    entries: u64,
    progress: &mut P,
) -> Result<Verdict, BookFault>
    requires { F.holds anew.old fresh }
    ensures whole { OnContent B.Book book.old book.new (λ m. F.has_clean_disk anew.new
        → IfOk result (λ verdict. verdict ≡ Whole → IsWhole json_texts m)) }
    ensures keeps { IsLookedAt B.Book book.old book.new }
{
    match all_again(alloc, book, anew, entries, progress)? {
        Again::Other(number) => Ok(Verdict::Reply(number)),
        Again::Differ => Ok(Verdict::Row),
        Again::Same => rows_verdict(alloc, book, anew, entries),
    }
}

/// Does the messages of a book's entries anew on a fresh book, and compares what comes of them with what the book has. It notes
/// how many entries are done.
pub fn audit_book<B: Book, F: Book, P: Progress>(
    alloc: Global,
    book: &mut B,
    anew: &mut F,
    progress: &mut P,
) -> Result<Audit, BookFault>
    requires { F.holds anew.old fresh }
    ensures whole { OnContent B.Book book.old book.new (λ m. F.has_clean_disk anew.new
        → IfOk result (λ audit. audit.verdict ≡ Whole → IsWhole json_texts m)) }
    ensures entries { OnContent B.Book book.old book.new (λ m.
        IfOk result (λ audit. audit.entries ≡ entry_count m)) }
    ensures keeps { IsLookedAt B.Book book.old book.new }
{
    let (entries, _) = book.last_entry()?;
    let (messages, _, _) = book.text_counts()?;
    if messages > entries {
        return Ok(Audit {
            entries,
            verdict: Verdict::KeptBefore(messages - entries),
        });
    }
    let verdict = judged(alloc, book, anew, entries, progress)?;
    Ok(Audit { entries, verdict })
}
