//! What lasts of a shop: its long texts, and each change, as a whole or not at all.

ghost use Rattle.std.specs.Prelude.{◌≡◌, ◌++◌, ◌∷◌, [], ◌⊎◌, Bool, IfErr, IfOk, IsOk, List, OnOk, OnErr, drop, false, length, take};
ghost use Rattle.shop_records.specs.Content.{Content, kept_at, import_at, halt_at, entry_at, entry_count, last_time, changed, of_found};
ghost use Rattle.shop_records.specs.Lists.{IsLastNumber, end_entry, entries_behind};
ghost use Rattle.shop_records.specs.WellFormed.{Fits};
ghost use Rattle.shop_records.specs.declared.journal.Entry.{Entry as EntryOf};
ghost use Rattle.shop_book.specs.FiledEntries.{SkipsNone};
ghost use Rattle.shop_book.specs.Storages.{IsRead};
ghost use Rattle.std.specs.FinMap.{len};
ghost use Rattle.shop_book.specs.declared.storage.StorageFault.TheVariants.{NoMemory};

use crate::ledger::Ledger;
use crate::uses::StrayUse;
use cut_measure::Code;
use shop_records::{Change, Entry, EntryRows, ImportRow, JobHalt, Kept, Subject};
use std::alloc::{AllocError, Global};

/// Why a storage has no answer.
#[derive(Clone, Copy, Debug, PartialEq, Eq)]
pub enum StorageFault {
    /// Memory ran out.
    NoMemory,
    /// The store failed.
    Store,
}

impl From<AllocError> for StorageFault {
    ghost use Rattle.std.specs.Prelude.{◌≡◌};
    ghost use Rattle.shop_book.specs.declared.storage.StorageFault.TheVariants.{NoMemory};

    ghost from_gives = { λ _ fault. fault ≡ NoMemory };

    fn from(_error: AllocError) -> StorageFault {
        StorageFault::NoMemory
    }
}

/// Where a shop's changes last. A storage answers for the long texts, the entries and where the work on jobs halted alone; a
/// ledger answers for all other rows.
pub trait Storage {
    /// Whether there is a store that can fail. Where there is none, only memory can run out.
    const MAY_FAIL: bool;

    ghost MAY_FAIL: { Bool };

    /// What a crash may leave, as a later open finds it.
    ghost Left: { Type 0 };

    /// What a crash left stands for this content.
    ghost stands: { Left → Content → Type 0 };

    /// A crash at this moment may leave this.
    ghost may_leave: { Self → Left → Type 0 };

    /// The storage holds this content.
    ghost holds: { Self → Content → Type 0 };

    /// So far the disk returned what the storage wrote.
    ghost has_clean_disk: { Self → Type 0 };

    /// What is kept of the accepted message with this ID.
    fn kept(
        &mut self,
        alloc: Global,
        terminal: u32,
        number: u32,
    ) -> Result<Option<Kept>, StorageFault>
        ensures row { has_clean_disk self.new → (m : Content) → holds self.old m
            → IfOk result (λ row. row
            ≡ kept_at m (record { terminal = terminal; number = number })) }
        ensures memory { MAY_FAIL ≡ false → IfErr result (λ fault. fault ≡ NoMemory) }
        ensures leaves { IsRead has_clean_disk holds may_leave self.old self.new };

    /// What is kept of the import that the order of this code came by.
    fn import(&mut self, alloc: Global, order: Code) -> Result<Option<ImportRow>, StorageFault>
        ensures row { has_clean_disk self.new → (m : Content) → holds self.old m
            → IfOk result (λ row. row ≡ import_at m order) }
        ensures memory { MAY_FAIL ≡ false → IfErr result (λ fault. fault ≡ NoMemory) }
        ensures leaves { IsRead has_clean_disk holds may_leave self.old self.new };

    /// Where the work on the plan of the job of a number halted, if that is kept.
    fn halt(&mut self, alloc: Global, number: u32) -> Result<Option<JobHalt>, StorageFault>
        ensures row { has_clean_disk self.new → (m : Content) → holds self.old m
            → IfOk result (λ row. row ≡ halt_at m number) }
        ensures memory { MAY_FAIL ≡ false → IfErr result (λ fault. fault ≡ NoMemory) }
        ensures leaves { IsRead has_clean_disk holds may_leave self.old self.new };

    /// The greatest number of a terminal's kept messages, 0 if it has none.
    fn last_number(&mut self, terminal: u32) -> Result<u32, StorageFault>
        ensures number { has_clean_disk self.new → (m : Content) → holds self.old m
            → IfOk result (λ last. IsLastNumber m terminal last) }
        ensures sure { MAY_FAIL ≡ false → IsOk result }
        ensures leaves { IsRead has_clean_disk holds may_leave self.old self.new };

    /// The number and the time of the last entry, 0 and 0 if there is none.
    fn last_entry(&mut self) -> Result<(u64, u64), StorageFault>
        ensures last { has_clean_disk self.new → (m : Content) → holds self.old m
            → IfOk result (λ last. (last.0 ≡ entry_count m) × (last.1 ≡ last_time m)) }
        ensures sure { MAY_FAIL ≡ false → IsOk result }
        ensures leaves { IsRead has_clean_disk holds may_leave self.old self.new };

    /// The entry of a number.
    fn entry(&mut self, number: u64) -> Result<Option<Entry>, StorageFault>
        ensures row { has_clean_disk self.new → (m : Content) → holds self.old m
            → IfOk result (λ row. row ≡ entry_at m number) }
        ensures sure { MAY_FAIL ≡ false → IsOk result }
        ensures leaves { IsRead has_clean_disk holds may_leave self.old self.new };

    /// The first entries with greater numbers, rising: at most so many. Behind the last one's number are those behind them.
    fn entries_after(
        &mut self,
        alloc: Global,
        after: u64,
        most: usize,
    ) -> Result<EntryRows, StorageFault>
        ensures rows { has_clean_disk self.new → (m : Content) → holds self.old m
            → IfOk result (λ rows. rows ≡ take most (entries_behind m after)) }
        ensures next { has_clean_disk self.new → (m : Content) → holds self.old m
            → IfOk result (λ rows. (before : List EntryOf) (last : EntryOf)
            → rows ≡ before ++ last ∷ []
            → entries_behind m last.number ≡ drop (length rows) (entries_behind m after)) }
        ensures memory { MAY_FAIL ≡ false → IfErr result (λ fault. fault ≡ NoMemory) }
        ensures leaves { IsRead has_clean_disk holds may_leave self.old self.new };

    /// Behind which number the entries go on that have the code of an order, the name of a part, or one of these jobs or acts; it
    /// may be one too low. None where no entry does.
    fn next_about(&self, about: &Subject, acts: &[u32], after: u64) -> Option<u64>
        ensures next { has_clean_disk self.now → (m : Content) → holds self.now m
            → SkipsNone (entries_behind m 0) about.now acts.now after result };

    /// When the job of a number was done or broken, by its entry; 0 where that has none.
    fn ended(&self, job: u32) -> u64
        ensures time { has_clean_disk self.now → (m : Content) → holds self.now m
            → result ≡ of_found (λ (entry : EntryOf). entry.at) (end_entry m job) };

    /// The number of kept messages, for the log alone: no clause says which number it is.
    fn kept_count(&mut self) -> Result<u32, StorageFault>
        ensures sure { MAY_FAIL ≡ false → IsOk result }
        ensures leaves { IsRead has_clean_disk holds may_leave self.old self.new };

    /// How many messages, how many imports and how many halts are kept.
    fn text_counts(&mut self) -> Result<(u64, u64, u64), StorageFault>
        ensures counts { has_clean_disk self.new → (m : Content) → holds self.old m
            → IfOk result (λ counts. (counts.0 ≡ len m.kept) × (counts.1 ≡ len m.imports)
            × (counts.2 ≡ len m.halts)) }
        ensures sure { MAY_FAIL ≡ false → IsOk result }
        ensures leaves { IsRead has_clean_disk holds may_leave self.old self.new };

    /// Where the orders of jobs that a store lists differ from the plans of the jobs in a ledger, if it lists any. No book is read
    /// from them, and no clause says which row it is.
    fn stray_use(
        &mut self,
        alloc: Global,
        ledger: &Ledger,
    ) -> Result<Option<StrayUse>, StorageFault>
        ensures memory { MAY_FAIL ≡ false → IfErr result (λ fault. fault ≡ NoMemory) }
        ensures leaves { IsRead has_clean_disk holds may_leave self.old self.new };

    /// Makes a change that fits the content last as a whole, or not at all. An `Err` leaves the content as it was, whatever the
    /// change. A storage that can't fail makes any change.
    fn commit(&mut self, change: &Change) -> Result<(), StorageFault>
        ensures ok { has_clean_disk self.new → (m : Content) → holds self.old m → Fits m change.now
            → OnOk result (holds self.new (changed m change.now)) }
        ensures any { MAY_FAIL ≡ false → (m : Content) → holds self.old m
            → OnOk result (holds self.new (changed m change.now)) }
        ensures err { has_clean_disk self.new → (m : Content) → holds self.old m
            → OnErr result (holds self.new m) }
        ensures memory { MAY_FAIL ≡ false → IfErr result (λ fault. fault ≡ NoMemory) }
        ensures crash { has_clean_disk self.new → (m : Content) → holds self.old m
            → Fits m change.now
            → (left : Left) → may_leave self.new left → may_leave self.old left
            ⊎ stands left (changed m change.now) }
        ensures lasts { has_clean_disk self.new → (m : Content) → holds self.old m
            → Fits m change.now
            → OnOk result ((left : Left) → may_leave self.new left
            → stands left (changed m change.now)) }
        ensures clean_disk { has_clean_disk self.new → has_clean_disk self.old };
}
