//! How a storage in SQL tables reads long texts and entries, and makes a change last in one transaction.

ghost use Rattle.std.specs.Prelude.{◌≡◌};
ghost use Rattle.shop_store.specs.Storing.{read_by_tables};

use crate::sql_storage::SqlStorage;
use crate::uses::find_stray_use;
use cut_measure::Code;
use shop_book::{Ledger, Storage, StorageFault, StrayUse};
use shop_records::{Change, Entry, EntryRows, ImportRow, JobHalt, Kept, MessageId, Subject};
use shop_tables::{
    TableFault, commit_change, count_kept, count_texts, entries_after, find_entry, find_halt,
    find_import, find_kept, find_last_number,
};
use sqlite::Alter;
use std::alloc::Global;

// What the tables' answer is to a storage.
fn from_tables<T: Drop>(answer: Result<T, TableFault>) -> Result<T, StorageFault>
    ensures { result ≡ read_by_tables answer }
{
    match answer {
        Ok(row) => Ok(row),
        Err(TableFault::NoMemory) => Err(StorageFault::NoMemory),
        Err(TableFault::Store) => Err(StorageFault::Store),
    }
}

impl<S: Alter> SqlStorage<S> {
    ghost use Rattle.std.specs.Prelude.{◌≡◌, option_map, unwrap_or};
    ghost use Rattle.std.specs.Option.{option_to_list};
    ghost use Rattle.shop_records.specs.declared.journal.Entry.{Entry as EntryOf};
    ghost use Rattle.shop_book.specs.Ends.{AddEnds, HasSpareEnd};

    // Remembers a new entry, if there is one, as the last one, and the end of which it reports.
    fn remember(&mut self, entry: &Option<Entry>)
        requires { HasSpareEnd self.old.remembered.ends }
        ensures conn { self.new.conn ≡ self.old.conn }
        ensures number { self.new.remembered.number
            ≡ unwrap_or (option_map (λ (entry : EntryOf). entry.number) entry.now)
            self.old.remembered.number }
        ensures at { self.new.remembered.at
            ≡ unwrap_or (option_map (λ (entry : EntryOf). entry.at) entry.now)
            self.old.remembered.at }
        ensures ends { AddEnds (option_to_list entry.now)
            self.old.remembered.ends self.new.remembered.ends }
        ensures index { self.new.remembered.index ≡ self.old.remembered.index }
    {
        if let Some(entry) = entry {
            self.remembered.number = entry.number;
            self.remembered.at = entry.at;
            self.remembered.ends.put(entry);
        }
    }
}

impl<S: Alter> Storage for SqlStorage<S> {
    ghost use Rattle.std.specs.Prelude.{true};
    ghost use Rattle.sqlite_trees.specs.Tree.{Trees};
    ghost use Rattle.sqlite.specs.State.{HasCleanDisk};
    ghost use Rattle.sqlite.specs.Held.{state};
    ghost use Rattle.shop_tables.specs.Held.{StandsFor};
    ghost use Rattle.shop_store.specs.Storing.{HoldsTables};

    const MAY_FAIL: bool = true;

    ghost MAY_FAIL = { true };

    ghost Left = { Trees };

    ghost stands = { StandsFor };

    ghost may_leave = { λ storage db. (state S.Store storage.conn).may_leave db };

    ghost holds = { λ storage m. HoldsTables (state S.Store storage.conn)
        storage.remembered m };

    ghost has_clean_disk = { λ storage. HasCleanDisk (state S.Store storage.conn) };

    fn kept(
        &mut self,
        _alloc: Global,
        terminal: u32,
        number: u32,
    ) -> Result<Option<Kept>, StorageFault> {
        from_tables(find_kept(&mut self.conn, MessageId { terminal, number }))
    }

    fn import(&mut self, _alloc: Global, order: Code) -> Result<Option<ImportRow>, StorageFault> {
        from_tables(find_import(&mut self.conn, order))
    }

    fn halt(&mut self, alloc: Global, number: u32) -> Result<Option<JobHalt>, StorageFault> {
        from_tables(find_halt(alloc, &mut self.conn, number))
    }

    fn last_number(&mut self, terminal: u32) -> Result<u32, StorageFault> {
        from_tables(find_last_number(&mut self.conn, terminal))
    }

    fn kept_count(&mut self) -> Result<u32, StorageFault> {
        from_tables(count_kept(&mut self.conn))
    }

    fn last_entry(&mut self) -> Result<(u64, u64), StorageFault> {
        Ok((self.remembered.number, self.remembered.at))
    }

    fn entry(&mut self, number: u64) -> Result<Option<Entry>, StorageFault> {
        from_tables(find_entry(&mut self.conn, number))
    }

    fn entries_after(
        &mut self,
        alloc: Global,
        after: u64,
        most: usize,
    ) -> Result<EntryRows, StorageFault> {
        from_tables(entries_after(alloc, &mut self.conn, after, most))
    }

    fn next_about(&self, about: &Subject, acts: &[u32], after: u64) -> Option<u64> {
        self.remembered.index.next_about(about, acts, after)
    }

    fn ended(&self, job: u32) -> u64 {
        self.remembered.ends.at(job)
    }

    fn text_counts(&mut self) -> Result<(u64, u64, u64), StorageFault> {
        from_tables(count_texts(&mut self.conn))
    }

    fn stray_use(
        &mut self,
        alloc: Global,
        ledger: &Ledger,
    ) -> Result<Option<StrayUse>, StorageFault> {
        from_tables(find_stray_use(alloc, &mut self.conn, ledger))
    }

    fn commit(&mut self, change: &Change) -> Result<(), StorageFault> {
        self.remembered.ends.reserve()?;
        self.remembered.index.file_new_entry(&change.entry)?;
        match from_tables(commit_change(self.alloc, &mut self.conn, change)) {
            Ok(()) => {
                self.remember(&change.entry);
                Ok(())
            }
            Err(fault) => Err(fault),
        }
    }
}
