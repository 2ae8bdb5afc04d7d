//! What two books keep, counted, and the texts of imports and where the work on jobs halted, compared.

ghost use Rattle.std.specs.Prelude.{◌≡◌, All, IfOk, Some, true};
ghost use Rattle.shop_records.specs.Content.{import_at};
ghost use Rattle.shop_audit.specs.Compared.{AreAsMany, HaltAlikeBelow, HaveSameHalts, HaveSameImports, HaveSameTexts, IsHaltAlike, IsImportAlike, IsLookedAt, OnBoth};

use cut_measure::Code;
use shop_book::{Book, BookFault, is_same_halt};
use shop_records::{ImportRow, JobHalt};
use std::alloc::Global;

fn same_import(one: &Option<ImportRow>, other: &Option<ImportRow>) -> bool
    ensures { result ≡ true → one.now ≡ other.now }
{
    match (one, other) {
        (None, None) => true,
        (Some(a), Some(b)) => a == b,
        _ => false,
    }
}

/// What reading a row failed of: the store, if the row is none of a book's, as an audited store is held in memory. Any other
/// fault is handed on.
pub(crate) fn unread(fault: BookFault) -> Result<(), BookFault> {
    match fault {
        BookFault::Store => Ok(()),
        other => Err(other),
    }
}

// Whether both books keep the same of an order's import.
fn has_same_import<B: Book, F: Book>(
    alloc: Global,
    book: &mut B,
    anew: &mut F,
    code: Code,
) -> Result<bool, BookFault>
    ensures same { OnBoth B.Book F.Book book.old book.new anew.old anew.new
        (λ m c. IfOk result (λ same. same ≡ true → import_at m code ≡ import_at c code)) }
    ensures keeps { IsLookedAt B.Book book.old book.new }
    ensures keeps_anew { IsLookedAt F.Book anew.old anew.new }
{
    match book.import(alloc, code) {
        Ok(one) => {
            let other = anew.import(alloc, code)?;
            Ok(same_import(&one, &other))
        }
        Err(fault) => {
            unread(fault)?;
            Ok(false)
        }
    }
}

// Whether both books keep the same of the imports of these orders.
fn have_same_import_of<B: Book, F: Book>(
    alloc: Global,
    book: &mut B,
    anew: &mut F,
    codes: &[Code],
) -> Result<bool, BookFault>
    ensures same { OnBoth B.Book F.Book book.old book.new anew.old anew.new
        (λ m c. IfOk result (λ same. same ≡ true → All (IsImportAlike m c) codes.now)) }
    ensures keeps { IsLookedAt B.Book book.old book.new }
    ensures keeps_anew { IsLookedAt F.Book anew.old anew.new }
{
    for code in codes {
        let same = has_same_import(alloc, book, anew, *code)?;
        if !same {
            return Ok(false);
        }
    }
    Ok(true)
}

// Whether both books keep the same of the imports of the new one's orders.
fn have_same_imports<B: Book, F: Book>(
    alloc: Global,
    book: &mut B,
    anew: &mut F,
) -> Result<bool, BookFault>
    ensures same { OnBoth B.Book F.Book book.old book.new anew.old anew.new
        (λ m c. IfOk result (λ same. same ≡ true → HaveSameImports m c)) }
    ensures keeps { IsLookedAt B.Book book.old book.new }
    ensures keeps_anew { IsLookedAt F.Book anew.old anew.new }
{
    let codes = anew.first_orders(alloc, None, usize::MAX)?;
    let rows = codes.as_slice();
    if rows.len() >= usize::MAX {
        return Err(BookFault::NoMemory);
    }
    have_same_import_of(alloc, book, anew, rows)
}

// Whether this was found of where the work on a job halted.
fn is_halt(found: &Option<JobHalt>, row: &JobHalt) -> bool
    ensures { result ≡ true → found.now ≡ Some row.now }
{
    match found {
        Some(one) => is_same_halt(one, row),
        None => false,
    }
}

// Whether a book keeps the same of where the work on a job halted as the new one, if that keeps it.
fn has_same_halt<B: Book, F: Book>(
    alloc: Global,
    book: &mut B,
    anew: &mut F,
    number: u32,
) -> Result<bool, BookFault>
    ensures same { OnBoth B.Book F.Book book.old book.new anew.old anew.new
        (λ m c. IfOk result (λ same. same ≡ true → IsHaltAlike m c number)) }
    ensures keeps { IsLookedAt B.Book book.old book.new }
    ensures keeps_anew { IsLookedAt F.Book anew.old anew.new }
{
    let Some(row) = anew.halt(alloc, number)? else {
        return Ok(true);
    };
    match book.halt(alloc, number) {
        Ok(found) => Ok(is_halt(&found, &row)),
        Err(fault) => {
            unread(fault)?;
            Ok(false)
        }
    }
}

// Whether a book keeps the same as the new one of where the work on the new one's jobs below a number halted.
fn have_same_halts_below<B: Book, F: Book>(
    alloc: Global,
    book: &mut B,
    anew: &mut F,
    behind: u32,
) -> Result<bool, BookFault>
    ensures same { OnBoth B.Book F.Book book.old book.new anew.old anew.new
        (λ m c. IfOk result (λ same. same ≡ true → HaltAlikeBelow m c behind)) }
    ensures keeps { IsLookedAt B.Book book.old book.new }
    ensures keeps_anew { IsLookedAt F.Book anew.old anew.new }
{
    for number in 1..behind {
        let same = has_same_halt(alloc, book, anew, number)?;
        if !same {
            return Ok(false);
        }
    }
    Ok(true)
}

// Whether a book keeps the same as the new one of where the work on the new one's jobs halted.
fn have_same_halts<B: Book, F: Book>(
    alloc: Global,
    book: &mut B,
    anew: &mut F,
) -> Result<bool, BookFault>
    ensures same { OnBoth B.Book F.Book book.old book.new anew.old anew.new
        (λ m c. IfOk result (λ same. same ≡ true → HaveSameHalts m c)) }
    ensures keeps { IsLookedAt B.Book book.old book.new }
    ensures keeps_anew { IsLookedAt F.Book anew.old anew.new }
{
    let behind = anew.next_act()?;
    have_same_halts_below(alloc, book, anew, behind)
}

// Whether both books have so many entries, and keep as many messages, imports and halts.
fn are_as_many<B: Book, F: Book>(
    book: &mut B,
    anew: &mut F,
    entries: u64,
) -> Result<bool, BookFault>
    ensures same { OnBoth B.Book F.Book book.old book.new anew.old anew.new
        (λ m c. IfOk result (λ same. same ≡ true → AreAsMany m c entries)) }
    ensures keeps { IsLookedAt B.Book book.old book.new }
    ensures keeps_anew { IsLookedAt F.Book anew.old anew.new }
{
    let (one, _) = book.last_entry()?;
    let (other, _) = anew.last_entry()?;
    let (kept, imports, halts) = book.text_counts()?;
    let (kept_anew, imports_anew, halts_anew) = anew.text_counts()?;
    Ok(
        one == entries
            && other == entries
            && kept == kept_anew
            && imports == imports_anew
            && halts == halts_anew,
    )
}

/// Whether both books have so many entries, keep as many messages, imports and halts, and of imports and halts the same.
pub(crate) fn have_same_texts<B: Book, F: Book>(
    alloc: Global,
    book: &mut B,
    anew: &mut F,
    entries: u64,
) -> Result<bool, BookFault>
    ensures same { OnBoth B.Book F.Book book.old book.new anew.old anew.new
        (λ m c. IfOk result (λ same. same ≡ true → HaveSameTexts m c entries)) }
    ensures keeps { IsLookedAt B.Book book.old book.new }
    ensures keeps_anew { IsLookedAt F.Book anew.old anew.new }
{
    let many = are_as_many(book, anew, entries)?;
    if !many {
        return Ok(false);
    }
    let imports = have_same_imports(alloc, book, anew)?;
    if !imports {
        return Ok(false);
    }
    have_same_halts(alloc, book, anew)
}
