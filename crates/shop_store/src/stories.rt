//! The entries about a subject, one after another, as the index of the entries names them.

ghost use Rattle.std.specs.Prelude.{◌≡◌, ◌++◌, ◌≤◌, IfErr, IfOk, IsTrue, OnOk, false, filter, length, take};
ghost use Rattle.shop_records.specs.Content.{Content};
ghost use Rattle.shop_records.specs.Lists.{entries_about, is_about};
ghost use Rattle.shop_records.specs.declared.journal.Entry.{Entry as EntryOf};
ghost use Rattle.shop_book.specs.FiledEntries.{HasKey};
ghost use Rattle.shop_book.specs.Ledgers.{bare, content_in};
ghost use Rattle.shop_book.specs.Storages.{IsRead};
ghost use Rattle.shop_book.specs.Stories.{numbers_about};
ghost use Rattle.shop_book.specs.declared.storage.StorageFault.TheVariants.{NoMemory};
ghost use Rattle.shop_store.specs.Stories.{IsStep};

use shop_book::{Ledger, Storage, StorageFault};
use shop_records::{Entry, EntryRows, Subject};
use shop_rows::push_copy;
use std::alloc::{AllocError, Global};

/// More times than there are entries.
pub(crate) const MAX_STEPS: u64 = 18446744073709551615;

// Appends the entries about a subject, up to so many in all.
fn push_about(
    rows: &mut EntryRows,
    ledger: &Ledger,
    about: &Subject,
    numbers: &[u32],
    entries: &[Entry],
    most: usize,
) -> Result<(), AllocError>
    requires numbers { numbers.now ≡ numbers_about (content_in ledger.now) about.now }
    requires few { length rows.old ≤ most }
    ensures rows { OnOk result (rows.new ≡ take most
        (rows.old ++ filter (is_about (content_in ledger.now) about.now) entries.now)) }
{
    for entry in entries {
        if most <= rows.as_slice().len() {
            return Ok(());
        }
        if ledger.is_about(about, numbers, entry) {
            push_copy(rows, entry)?;
        }
    }
    Ok(())
}

// Looks for more at the next entry that the index names behind a number, and reports behind which number to go on, if there are
// others.
fn step<S: Storage>(
    alloc: Global,
    ledger: &Ledger,
    storage: &mut S,
    about: &Subject,
    numbers: &[u32],
    acts: &[u32],
    at: u64,
    rows: &mut EntryRows,
    most: usize,
) -> Result<Option<u64>, StorageFault>
    requires numbers { numbers.now ≡ numbers_about (content_in ledger.now) about.now }
    requires acts { (entry : EntryOf) → IsTrue (is_about (content_in ledger.now) about.now entry)
        → HasKey about.now acts.now entry }
    requires few { length rows.old ≤ most }
    ensures few { OnOk result (length rows.new ≤ most) }
    ensures rows { S.has_clean_disk storage.new → (m : Content) → S.holds storage.old m
        → content_in ledger.now ≡ bare m
        → IfOk result (λ next. IsStep m about.now most rows.old at next rows.new) }
    ensures memory { S.MAY_FAIL ≡ false → IfErr result (λ fault. fault ≡ NoMemory) }
    ensures leaves { IsRead S.has_clean_disk S.holds S.may_leave storage.old storage.new }
{
    if most <= rows.as_slice().len() {
        return Ok(None);
    }
    let Some(next) = storage.next_about(about, acts, at) else {
        return Ok(None);
    };
    let chunk = storage.entries_after(alloc, next, 1)?;
    let entries = chunk.as_slice();
    let Some(last) = entries.last() else {
        return Ok(None);
    };
    push_about(rows, ledger, about, numbers, entries, most)?;
    Ok(Some(last.number))
}

/// The first entries about a subject with greater numbers, rising: at most so many.
pub(crate) fn scan<S: Storage>(
    alloc: Global,
    ledger: &Ledger,
    storage: &mut S,
    about: &Subject,
    after: u64,
    most: usize,
) -> Result<EntryRows, StorageFault>
    ensures rows { S.has_clean_disk storage.new → (m : Content) → S.holds storage.old m
        → content_in ledger.now ≡ bare m
        → IfOk result (λ rows. rows ≡ take most (entries_about m about.now after)) }
    ensures memory { S.MAY_FAIL ≡ false → IfErr result (λ fault. fault ≡ NoMemory) }
    ensures leaves { IsRead S.has_clean_disk S.holds S.may_leave storage.old storage.new }
{
    let numbers = ledger.numbers_about(alloc, about)?;
    let acts = ledger.acts_about(alloc, about, numbers.as_slice())?;
    let mut rows = EntryRows::new(alloc);
    let mut at = after;
    'steps: for _ in 0..MAX_STEPS {
        match step(
            alloc,
            ledger,
            storage,
            about,
            numbers.as_slice(),
            acts.as_slice(),
            at,
            &mut rows,
            most,
        )? {
            Some(next) => at = next,
            None => return Ok(rows),
        }
    }
    Err(StorageFault::NoMemory)
}
