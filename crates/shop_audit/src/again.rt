//! The messages of the entries are done anew, and what comes of each is compared with what is kept.

ghost use Rattle.std.specs.Prelude.{◌≡◌, ℕ, ◌+◌, ◌<◌, ◌≤◌, IfOk, None, Some, length, take, true};
ghost use Rattle.std.specs.FinMap.{values};
ghost use Rattle.std.specs.Option.{IsSomeAnd};
ghost use Rattle.shop_records.specs.Content.{Content, entry_at, fresh, kept_at};
ghost use Rattle.shop_records.specs.Messages.{message_id_of, refusal_in};
ghost use Rattle.shop_forms.specs.Forms.{json_texts};
ghost use Rattle.shop_book.specs.Equal.{same_entry};
ghost use Rattle.shop_book.specs.Kept.{OnContent};
ghost use Rattle.shop_audit.specs.Compared.{IsLookedAt};
ghost use Rattle.shop_audit.specs.Pages.{AreByNumber, GoesOn, HasEnds, IsByNumber, IsOwn, NumberedBehind};
ghost use Rattle.shop_audit.specs.Whole.{HoldsPart};
ghost use Rattle.shop_audit.specs.declared.again.Again.TheVariants.{Same as AllSame};
ghost use Rattle.shop_audit.specs.declared.again.Found.TheVariants.{Same};

use crate::progress::Progress;
use shop_book::{Book, BookFault};
use shop_desk::handle_with_text_at;
use shop_messages::kept_message;
use shop_records::{Entry, Kept, Message, Refusal, Reply, Text};
use shop_replies::reply_text;
use std::alloc::{AllocError, Global};

/// How many entries are read at a time.
const ENTRIES_AT_ONCE: usize = 100;

/// What came of one message that was done anew.
#[derive(Clone, Copy)]
enum Found {
    /// It isn't accepted, as no repeat, with the reply that is kept.
    Other,
    /// It is; the entry or what is kept of it differs.
    Differs,
    /// The entry and what is kept of it are the same, too.
    Same,
}

/// What came of all messages that were done anew.
#[derive(Clone, Copy)]
pub(crate) enum Again {
    /// The message of this entry is the first that isn't accepted with the reply that is kept.
    Other(u64),
    /// All are; an entry or what is kept of one differs.
    Differ,
    /// The entries and what is kept of them are the same, too.
    Same,
}

// Why a message was refused, if it was.
fn refusal_of(reply: &Reply) -> Option<Refusal>
    ensures { result ≡ refusal_in reply.now }
{
    match reply {
        Reply::Refused(refusal) => Some(*refusal),
        _ => None,
    }
}

// Whether this is the text of a reply, which may have been written.
fn is_text_of(
    alloc: Global,
    reply: &Reply,
    written: Option<Text>,
    text: &Text,
) -> Result<bool, AllocError> {
    let reported = match written {
        Some(reported) => reported,
        None => reply_text(alloc, reply)?,
    };
    Ok(reported.as_str() == text.as_str())
}

// Whether a message was accepted with a reply of this text. The reply's own text may have been written.
fn is_reported(
    alloc: Global,
    reply: &Reply,
    written: Option<Text>,
    text: &Text,
) -> Result<bool, BookFault>
    ensures { IfOk result (λ same. same ≡ true → refusal_in reply.now ≡ None) }
{
    match refusal_of(reply) {
        Some(Refusal::NoMemory) => Err(BookFault::NoMemory),
        Some(_) => Ok(false),
        None => {
            let same = is_text_of(alloc, reply, written, text)?;
            Ok(same)
        }
    }
}

// Whether nothing is kept of a message yet.
fn is_new<F: Book>(alloc: Global, anew: &mut F, message: &Message) -> Result<bool, BookFault>
    ensures given { F.has_clean_disk anew.new → (c : Content) → F.holds anew.old c
        → F.holds anew.new c × IfOk result (λ new. new ≡ true → kept_at c (message_id_of message.now) ≡ None) }
    ensures clean_disk { F.has_clean_disk anew.new → F.has_clean_disk anew.old }
{
    let kept = anew.kept(alloc, message.terminal, message.number)?;
    Ok(kept.is_none())
}

fn is_same_entry(a: &Entry, b: &Entry) -> bool
    ensures { result ≡ same_entry a.now b.now }
{
    a.number == b.number
        && a.message_id == b.message_id
        && a.at == b.at
        && a.word.name() == b.word.name()
        && a.act == b.act
        && a.job == b.job
        && a.order == b.order
        && a.part == b.part
}

// Whether this entry was found.
fn is_entry(found: &Option<Entry>, entry: &Entry) -> bool
    ensures { result ≡ true → found.now ≡ Some entry.now }
{
    match found {
        Some(one) => is_same_entry(one, entry),
        None => false,
    }
}

// Whether this was found of a message.
fn is_kept(found: &Option<Kept>, kept: &Kept) -> bool
    ensures { result ≡ true → found.now ≡ Some kept.now }
{
    match found {
        Some(one) => one == kept,
        None => false,
    }
}

// Whether a book has this entry under its number.
fn has_entry<F: Book>(anew: &mut F, number: u64, entry: &Entry) -> Result<bool, BookFault>
    ensures same { OnContent F.Book anew.old anew.new
        (λ c. IfOk result (λ same. same ≡ true → entry_at c number ≡ Some entry.now)) }
    ensures keeps { IsLookedAt F.Book anew.old anew.new }
{
    let found = anew.entry(number)?;
    Ok(is_entry(&found, entry))
}

// Whether a book keeps this of the message of an entry.
fn has_kept<F: Book>(
    alloc: Global,
    anew: &mut F,
    entry: &Entry,
    kept: &Kept,
) -> Result<bool, BookFault>
    ensures same { OnContent F.Book anew.old anew.new
        (λ c. IfOk result (λ same. same ≡ true → kept_at c entry.now.message_id ≡ Some kept.now)) }
    ensures keeps { IsLookedAt F.Book anew.old anew.new }
{
    let found = anew.kept(alloc, entry.message_id.terminal, entry.message_id.number)?;
    Ok(is_kept(&found, kept))
}

// What came of a message that was accepted anew with the reply that is kept.
fn written<F: Book>(
    alloc: Global,
    anew: &mut F,
    number: u64,
    entry: &Entry,
    kept: &Kept,
) -> Result<Found, BookFault>
    ensures same { OnContent F.Book anew.old anew.new (λ c. IfOk result (λ found. found ≡ Same
        → (entry_at c number ≡ Some entry.now) × (kept_at c entry.now.message_id ≡ Some kept.now))) }
    ensures keeps { IsLookedAt F.Book anew.old anew.new }
{
    let entered = has_entry(anew, number, entry)?;
    if !entered {
        return Ok(Found::Differs);
    }
    let reported = has_kept(alloc, anew, entry, kept)?;
    if reported {
        Ok(Found::Same)
    } else {
        Ok(Found::Differs)
    }
}

// Does the message of an entry anew, of which this is kept.
fn does_again<F: Book>(
    alloc: Global,
    anew: &mut F,
    message: &Message,
    number: u64,
    entry: &Entry,
    kept: &Kept,
) -> Result<Found, BookFault>
    ensures given { F.has_clean_disk anew.new → (m : Content) (count : ℕ) → number ≡ count + 1
        → entry_at m number ≡ Some entry.now → kept_at m entry.now.message_id ≡ Some kept.now
        → HoldsPart json_texts F.Book m anew.old count
        → IfOk result (λ found. found ≡ Same → HoldsPart json_texts F.Book m anew.new number) }
    ensures clean_disk { F.has_clean_disk anew.new → F.has_clean_disk anew.old }
{
    let new = is_new(alloc, anew, message)?;
    if !new {
        return Ok(Found::Other);
    }
    let (reply, text) = handle_with_text_at(alloc, anew, message, entry.at);
    let reported = is_reported(alloc, &reply, text, &kept.reply)?;
    if !reported {
        return Ok(Found::Other);
    }
    written(alloc, anew, number, entry, kept)
}

// Does the message of an entry anew, over the messages of those before. The entry must have this number.
fn is_again<B: Book, F: Book>(
    alloc: Global,
    book: &mut B,
    anew: &mut F,
    number: u64,
    entry: &Entry,
) -> Result<Found, BookFault>
    ensures given { OnContent B.Book book.old book.new (λ m. F.has_clean_disk anew.new → (w : Content) (count : ℕ)
        → w.kept ≡ m.kept → entry_at w entry.now.number ≡ Some entry.now → number ≡ count + 1
        → HoldsPart json_texts F.Book w anew.old count
        → IfOk result (λ found. found ≡ Same → HoldsPart json_texts F.Book w anew.new number)) }
    ensures number { IfOk result (λ found. found ≡ Same → entry.now.number ≡ number) }
    ensures clean_disk { F.has_clean_disk anew.new → F.has_clean_disk anew.old }
    ensures keeps { IsLookedAt B.Book book.old book.new }
{
    if entry.number != number {
        return Ok(Found::Other);
    }
    let Some(kept) = book.kept(alloc, entry.message_id.terminal, entry.message_id.number)? else {
        return Ok(Found::Other);
    };
    let Some(message) = kept_message(alloc, kept.command.as_str())? else {
        return Ok(Found::Other);
    };
    does_again(alloc, anew, &message, number, entry, &kept)
}

// What is known after one more message that was accepted with the reply that is kept.
fn with_found(same: bool, found: Found) -> bool
    ensures kept { result ≡ true → same ≡ true }
    ensures found { result ≡ true → found ≡ Same }
{
    match found {
        Found::Other => false,
        Found::Differs => false,
        Found::Same => same,
    }
}

// Whether a message isn't accepted with the reply that is kept.
fn is_other(found: Found) -> bool {
    match found {
        Found::Other => true,
        Found::Differs => false,
        Found::Same => false,
    }
}

// What came of messages that are all accepted with the replies that are kept.
fn found_of(same: bool) -> Found
    ensures { result ≡ Same → same ≡ true }
{
    if same { Found::Same } else { Found::Differs }
}

// Does the messages of a page of entries anew, over the messages of those up to a number, and reports the number of the last,
// or of the first whose message isn't accepted with the reply that is kept.
fn page_again<B: Book, F: Book, P: Progress>(
    alloc: Global,
    book: &mut B,
    anew: &mut F,
    page: &[Entry],
    before: u64,
    entries: u64,
    progress: &mut P,
) -> Result<(Found, u64), BookFault>
    requires some { before < entries }
    requires most { before + length page.now ≤ entries }
    ensures given { OnContent B.Book book.old book.new (λ m. F.has_clean_disk anew.new → (w : Content)
        → w.kept ≡ m.kept → AreByNumber w page.now → HoldsPart json_texts F.Book w anew.old before
        → IfOk result (λ done. done.0 ≡ Same → HoldsPart json_texts F.Book w anew.new done.1)) }
    ensures numbers { IfOk result (λ done. done.0 ≡ Same
        → NumberedBehind before page.now × (done.1 ≡ before + length page.now)) }
    ensures on { IfOk result (λ done. (before < done.1) × (done.1 ≤ entries)) }
    ensures clean_disk { F.has_clean_disk anew.new → F.has_clean_disk anew.old }
    ensures keeps { IsLookedAt B.Book book.old book.new }
{
    if page.is_empty() {
        return Ok((Found::Other, before + 1));
    }
    let mut same = true;
    let mut number = before;
    for entry in page {
        number += 1;
        let found = is_again(alloc, book, anew, number, entry)?;
        if is_other(found) {
            return Ok((Found::Other, number));
        }
        same = with_found(same, found);
        progress.note(number, entries);
    }
    Ok((found_of(same), number))
}

// How many entries a page has at most where so many are left.
fn page_size(left: u64) -> usize
    ensures { result ≤ left }
{
    if left < ENTRIES_AT_ONCE as u64 {
        left as usize
    } else {
        ENTRIES_AT_ONCE
    }
}

// The first of these entries, at most so many.
fn first_of(rows: &[Entry], most: usize) -> &[Entry]
    ensures { result.now ≡ take most rows.now }
{
    if most < rows.len() {
        &rows[..most]
    } else {
        rows
    }
}

// Does the messages of the next page of entries anew.
fn next_again<B: Book, F: Book, P: Progress>(
    alloc: Global,
    book: &mut B,
    anew: &mut F,
    before: u64,
    entries: u64,
    progress: &mut P,
) -> Result<(Found, u64), BookFault>
    requires { before < entries }
    ensures given { OnContent B.Book book.old book.new (λ m. F.has_clean_disk anew.new → (w : Content)
        → IsByNumber m w → HoldsPart json_texts F.Book w anew.old before
        → IfOk result (λ done. done.0 ≡ Same → HoldsPart json_texts F.Book w anew.new done.1)) }
    ensures numbers { OnContent B.Book book.old book.new (λ m. IfOk result (λ done. done.0 ≡ Same
        → GoesOn before done.1 (values m.entries))) }
    ensures on { IfOk result (λ done. (before < done.1) × (done.1 ≤ entries)) }
    ensures clean_disk { F.has_clean_disk anew.new → F.has_clean_disk anew.old }
    ensures keeps { IsLookedAt B.Book book.old book.new }
{
    let most = page_size(entries - before);
    let rows = book.entries_after(alloc, before, most)?;
    let page = first_of(rows.as_slice(), most);
    page_again(alloc, book, anew, page, before, entries, progress)
}

fn is_numbered(found: &Option<Entry>, number: u64) -> bool
    ensures { result ≡ true → IsSomeAnd found.now (λ entry. entry.number ≡ number) }
{
    match found {
        Some(entry) => entry.number == number,
        None => false,
    }
}

// Whether the entry that stands under a number has it.
fn has_own<B: Book>(book: &mut B, number: u64) -> Result<bool, BookFault>
    ensures own { OnContent B.Book book.old book.new
        (λ m. IfOk result (λ own. own ≡ true → IsOwn m number)) }
    ensures keeps { IsLookedAt B.Book book.old book.new }
{
    let found = book.entry(number)?;
    Ok(is_numbered(&found, number))
}

// Whether a book has so many entries, and the first and the last stand under their own numbers. A page has entries in the order of
// the numbers that they stand under, but not these numbers. If the entries' own numbers are those from 1 to how many there are,
// each stands under its own if the first and the last do.
fn has_ends<B: Book>(book: &mut B, entries: u64) -> Result<bool, BookFault>
    ensures ends { OnContent B.Book book.old book.new
        (λ m. IfOk result (λ ends. ends ≡ true → HasEnds m entries)) }
    ensures keeps { IsLookedAt B.Book book.old book.new }
{
    let (count, _) = book.last_entry()?;
    let first = has_own(book, 1)?;
    let last = has_own(book, entries)?;
    Ok(count == entries && first && last)
}

// What is found of a book's entries, so many, that are the same anew as pages have them.
fn all_same<B: Book>(book: &mut B, entries: u64) -> Result<Again, BookFault>
    ensures ends { OnContent B.Book book.old book.new
        (λ m. IfOk result (λ all. all ≡ AllSame → HasEnds m entries)) }
    ensures keeps { IsLookedAt B.Book book.old book.new }
{
    let ends = has_ends(book, entries)?;
    if ends {
        Ok(Again::Same)
    } else {
        Ok(Again::Differ)
    }
}

/// Does the messages of all entries anew on a fresh book, in their order, each entry with its time, and notes how far it is.
pub(crate) fn all_again<B: Book, F: Book, P: Progress>(
    alloc: Global,
    book: &mut B,
    anew: &mut F,
    entries: u64,
    progress: &mut P,
) -> Result<Again, BookFault>
    requires { F.holds anew.old fresh }
    ensures given { OnContent B.Book book.old book.new (λ m. F.has_clean_disk anew.new
        → IfOk result (λ all. all ≡ AllSame → HoldsPart json_texts F.Book m anew.new entries)) }
    ensures clean_disk { F.has_clean_disk anew.new → F.has_clean_disk anew.old }
    ensures keeps { IsLookedAt B.Book book.old book.new }
{
    if entries == 0 {
        return Ok(Again::Same);
    }
    let mut same = true;
    let mut before = 0;
    while before < entries {
        let (done, number) = next_again(alloc, book, anew, before, entries, progress)?;
        if is_other(done) {
            return Ok(Again::Other(number));
        }
        same = with_found(same, done);
        before = number;
    }
    if same {
        all_same(book, entries)
    } else {
        Ok(Again::Differ)
    }
}
