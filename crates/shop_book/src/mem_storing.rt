//! How a storage in memory keeps texts, entries and halts, and answers them.

ghost use Rattle.std.specs.Prelude.{IfOk, IsTrue, OnOk, OnErr, ◌≡◌, length};
ghost use Rattle.std.specs.Ordering.{nat_cmp};
ghost use Rattle.shop_rows.specs.Keys.{entry_key};
ghost use Rattle.shop_rows.specs.Rows.{rise, row_at};
ghost use Rattle.shop_book.specs.Memory.{put_kept};
ghost use Rattle.shop_records.specs.Content.{of_found};
ghost use Rattle.shop_records.specs.declared.journal.Entry.{Entry as EntryOf};

use crate::job_ends::time_of_end;
use crate::keeping::{KeptText, copy_kept, count_kept, find_kept, last_kept};
use crate::ledger::Ledger;
use crate::mem_storage::MemStorage;
use crate::memory_lists::{copy_halts, copy_imports, find_halt, find_import};
use crate::number_index::NumberIndex;
use crate::same_entries::are_same;
use crate::same_halts::are_same_halts;
use crate::storage::{Storage, StorageFault};
use crate::uses::StrayUse;
use cut_measure::Code;
use shop_records::{
    Change, Entry, EntryRows, ImportRow, JobHalt, Kept, KeptMessage, MessageId, Subject,
};
use shop_rows::{copy_rows, entries_after, find, first_rows, put_copy, put_some, reserve_rows};
use std::alloc::{AllocError, Global};
use std::collections::BTreeMap;

impl MemStorage {
    ghost use Rattle.std.specs.Prelude.{◌≡◌, ◌↔◌, IfOk, IsTrue};
    ghost use Rattle.shop_book.specs.MemStorages.{HoldsTexts, entries_in, halts_in, imports_in, kept_in};
    ghost use Rattle.shop_records.specs.Content.{fresh};

    /// The storage of a new shop.
    pub fn new(alloc: Global) -> MemStorage
        ensures { HoldsTexts result fresh }
    {
        MemStorage {
            alloc,
            kept: BTreeMap::new(alloc),
            imports: Vec::new(alloc),
            halts: Vec::new(alloc),
            entries: Vec::new(alloc),
            index: NumberIndex::new(alloc),
        }
    }

    /// A storage with the same texts, entries and halts.
    pub fn copy(&self, alloc: Global) -> Result<MemStorage, AllocError>
        ensures kept { IfOk result (λ copy. kept_in copy ≡ kept_in self.now) }
        ensures imports { IfOk result (λ copy. imports_in copy ≡ imports_in self.now) }
        ensures halts { IfOk result (λ copy. halts_in copy ≡ halts_in self.now) }
        ensures entries { IfOk result (λ copy. entries_in copy ≡ entries_in self.now) }
    {
        let kept = copy_kept(&self.kept)?;
        let imports = copy_imports(&self.imports)?;
        let halts = copy_halts(alloc, &self.halts)?;
        let entries = Vec::from_slice(alloc, &self.entries)?;
        let index = self.index.copy()?;
        Ok(MemStorage {
            alloc,
            kept,
            imports,
            halts,
            entries,
            index,
        })
    }

    fn has_kept_of(&self, other: &MemStorage) -> bool
        ensures { IsTrue result ↔ (kept_in self.now ≡ kept_in other.now) }
    {
        self.kept == other.kept
    }

    fn has_imports_of(&self, other: &MemStorage) -> bool
        ensures { IsTrue result ↔ (imports_in self.now ≡ imports_in other.now) }
    {
        self.imports == other.imports
    }

    fn has_entries_of(&self, other: &MemStorage) -> bool
        ensures { IsTrue result ↔ (entries_in self.now ≡ entries_in other.now) }
    {
        are_same(&self.entries, &other.entries)
    }

    fn has_halts_of(&self, other: &MemStorage) -> bool
        ensures { IsTrue result ↔ (halts_in self.now ≡ halts_in other.now) }
    {
        are_same_halts(&self.halts, &other.halts)
    }

    /// Whether another storage has the same texts, entries and halts.
    pub fn has_texts_of(&self, other: &MemStorage) -> bool
        ensures { IsTrue result
            ↔ ((kept_in self.now ≡ kept_in other.now) × (imports_in self.now ≡ imports_in other.now)
            × (halts_in self.now ≡ halts_in other.now)
            × (entries_in self.now ≡ entries_in other.now)) }
    {
        self.has_kept_of(other)
            && self.has_imports_of(other)
            && self.has_halts_of(other)
            && self.has_entries_of(other)
    }
}

// A copy of a row of an import, if there is one.
fn copy_import(alloc: Global, row: &Option<ImportRow>) -> Result<Option<ImportRow>, AllocError>
    ensures { IfOk result (λ copy. copy ≡ row.now) }
{
    match row {
        None => Ok(None),
        Some(row) => {
            let copy = row.copy(alloc)?;
            Ok(Some(copy))
        }
    }
}

// A copy of where the work on a job halted, if it did.
fn copy_halt(alloc: Global, row: &Option<JobHalt>) -> Result<Option<JobHalt>, AllocError>
    ensures { IfOk result (λ copy. copy ≡ row.now) }
{
    match row {
        None => Ok(None),
        Some(row) => {
            let copy = row.copy(alloc)?;
            Ok(Some(copy))
        }
    }
}

// Keeps a message, if there is one, in one text. An `Err` keeps nothing.
fn keep_text(
    alloc: Global,
    kept: &mut BTreeMap<MessageId, KeptText>,
    message: &Option<KeptMessage>,
) -> Result<(), AllocError>
    ensures ok { OnOk result (kept.new.entries ≡ put_kept message.now kept.old.entries) }
    ensures err { OnErr result (kept.new.entries ≡ kept.old.entries) }
{
    if let Some(message) = message {
        let exact = KeptText::of(alloc, &message.kept)?;
        kept.insert(message.message_id, exact)?;
    }
    Ok(())
}

// How many imports there are.
fn count_imports(rows: &[ImportRow]) -> u64
    ensures { result ≡ length rows.now }
{
    rows.len() as u64
}

// How many halts there are.
fn count_halts(rows: &[JobHalt]) -> u64
    ensures { result ≡ length rows.now }
{
    rows.len() as u64
}

// The time of an entry that was found, 0 if there is none.
fn time_of(entry: Option<Entry>) -> u64
    ensures { result ≡ of_found (λ (entry : EntryOf). entry.at) entry }
{
    match entry {
        Some(entry) => entry.at,
        None => 0,
    }
}

// How many entries there are, and the time of the one with that number, 0 if there is none.
fn last_of(entries: &[Entry]) -> (u64, u64)
    requires { IsTrue (rise entry_key nat_cmp entries.now) }
    ensures count { result.0 ≡ length entries.now }
    ensures time { result.1 ≡ of_found (λ (entry : EntryOf). entry.at)
        (row_at entry_key nat_cmp (length entries.now) entries.now) }
{
    let count = entries.len() as u64;
    (count, time_of(find(entries, count)))
}

impl Storage for MemStorage {
    ghost use Rattle.std.specs.Prelude.{◌≡◌, ⊤, false};
    ghost use Rattle.shop_records.specs.Content.{Content};
    ghost use Rattle.shop_book.specs.MemStorages.{HoldsTexts};

    const MAY_FAIL: bool = false;

    ghost MAY_FAIL = { false };

    ghost Left = { Content };

    ghost stands = { λ left m. left ≡ m };

    ghost may_leave = { λ storage left. ⊥ };

    ghost holds = { HoldsTexts };

    ghost has_clean_disk = { λ storage. ⊤ };

    fn kept(
        &mut self,
        alloc: Global,
        terminal: u32,
        number: u32,
    ) -> Result<Option<Kept>, StorageFault> {
        let row = find_kept(alloc, &self.kept, MessageId { terminal, number })?;
        Ok(row)
    }

    fn import(&mut self, alloc: Global, order: Code) -> Result<Option<ImportRow>, StorageFault> {
        let row = find_import(alloc, &self.imports, order)?;
        Ok(row)
    }

    fn halt(&mut self, alloc: Global, number: u32) -> Result<Option<JobHalt>, StorageFault> {
        let row = find_halt(alloc, &self.halts, number)?;
        Ok(row)
    }

    fn last_number(&mut self, terminal: u32) -> Result<u32, StorageFault> {
        Ok(last_kept(&self.kept, terminal))
    }

    fn kept_count(&mut self) -> Result<u32, StorageFault> {
        Ok(u32::try_from(self.kept.len()).unwrap_or(u32::MAX))
    }

    fn last_entry(&mut self) -> Result<(u64, u64), StorageFault> {
        Ok(last_of(&self.entries))
    }

    fn entry(&mut self, number: u64) -> Result<Option<Entry>, StorageFault> {
        Ok(find(&self.entries, number))
    }

    fn entries_after(
        &mut self,
        alloc: Global,
        after: u64,
        most: usize,
    ) -> Result<EntryRows, StorageFault> {
        let rows = entries_after(&self.entries, after);
        let list = copy_rows(alloc, first_rows(rows, most))?;
        Ok(list)
    }

    fn next_about(&self, about: &Subject, acts: &[u32], after: u64) -> Option<u64> {
        self.index.next_about(about, acts, after)
    }

    fn ended(&self, job: u32) -> u64 {
        time_of_end(job, entries_after(&self.entries, 0))
    }

    fn text_counts(&mut self) -> Result<(u64, u64, u64), StorageFault> {
        Ok((
            count_kept(&self.kept),
            count_imports(&self.imports),
            count_halts(&self.halts),
        ))
    }

    fn stray_use(
        &mut self,
        _alloc: Global,
        _ledger: &Ledger,
    ) -> Result<Option<StrayUse>, StorageFault> {
        Ok(None)
    }

    fn commit(&mut self, change: &Change) -> Result<(), StorageFault> {
        let import = copy_import(self.alloc, &change.import)?;
        let halt = copy_halt(self.alloc, &change.halt)?;
        reserve_rows(&mut self.halts, 1)?;
        reserve_rows(&mut self.imports, 1)?;
        reserve_rows(&mut self.entries, 1)?;
        self.index.file_new_entry(&change.entry)?;
        keep_text(self.alloc, &mut self.kept, &change.kept)?;
        put_some(&mut self.imports, import);
        put_some(&mut self.halts, halt);
        put_copy(&mut self.entries, &change.entry);
        Ok(())
    }
}
