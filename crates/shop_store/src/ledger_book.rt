//! A book of both: a ledger answers for rows, and a storage behind it writes what lasts.

ghost use Rattle.std.specs.Prelude.{◌≡◌, ◌⊎◌, ◌+◌, ◌<◌, ◌≤◌, ◌-◌, ◌^◌, IfErr, IfOk, IfSome, IsOk, Ok, OnErr, OnOk, false, map, option_map, take};
ghost use Rattle.shop_records.specs.Content.{Content, begun_at, changed, demand_at, entry_at, entry_count, halt_at, has_order, import_at, job_at, kept_at, last_time, material_at, note_at, part_at, parts_named, parts_of as listed_parts, totals_of};
ghost use Rattle.shop_records.specs.Lists.{AreLines, IsLastNumber, due_of, entries_about, entries_behind, materials_of, open_demands, orders_after, parts_after, waiting_jobs};
ghost use Rattle.shop_records.specs.WellFormed.{AreDifferent, Fits, IsInRange};
ghost use Rattle.std.specs.FinMap.{len};
ghost use Rattle.shop_records.specs.Visits.{IsVisit};
ghost use Rattle.shop_records.specs.declared.records.Job.{Job as JobOf};
ghost use Rattle.shop_book.specs.FoundJobs.{IsFoundJob, head_of};
ghost use Rattle.shop_book.specs.Ledgers.{bare, content_in};
ghost use Rattle.shop_store.specs.LedgerBooks.{CountsFault, failed_of, fault_by, result_by};

use crate::posted::LedgerBook;
use crate::stories::scan;
use cut_measure::{Code, PartName};
use shop_book::{Book, BookFault, FoundJob, JobHead, Ledger, Storage, StorageFault, StrayUse};
use shop_records::{
    Change, CodeList, Demand, DemandList, Entry, EntryRows, ImportRow, Job, JobBegin, JobHalt,
    Kept, Material, MaterialList, NumberList, OrderNote, Part, PartList, PartVisitor, Subject,
    Totals,
};
use std::alloc::Global;

impl<S: Storage> LedgerBook<S> {
    ghost use Rattle.std.specs.Prelude.{◌≡◌, IfErr, false, true};
    ghost use Rattle.shop_book.specs.Failures.{one_more_failure, CountsFailure};
    ghost use Rattle.shop_book.specs.declared.books.BookFault.TheVariants.{NoMemory, Store};
    ghost use Rattle.shop_book.specs.declared.storage.StorageFault.TheVariants as storage;

    // Counts a failure of the store.
    fn fault(&mut self) -> BookFault
        ensures fault { result ≡ Store }
        ensures ledger { self.new.ledger ≡ self.old.ledger }
        ensures storage { self.new.storage ≡ self.old.storage }
        ensures failures { self.new.failures ≡ one_more_failure self.old.failures }
    {
        self.failures = self.failures.saturating_add(1);
        BookFault::Store
    }

    // The fault for rows that no history leads to: the store failed or, if no store can fail, memory ran out.
    fn out_of_range(&mut self) -> BookFault
        ensures memory { S.MAY_FAIL ≡ false → result ≡ NoMemory }
        ensures ledger { self.new.ledger ≡ self.old.ledger }
        ensures storage { self.new.storage ≡ self.old.storage }
        ensures failures { CountsFault result (failed_of S.Storage self.old)
            (failed_of S.Storage self.new) }
    {
        if S::MAY_FAIL {
            self.fault()
        } else {
            BookFault::NoMemory
        }
    }

    // The storage's fault as the book's. Counts it if the store failed.
    fn count_fault(&mut self, fault: StorageFault) -> BookFault
        requires { S.MAY_FAIL ≡ false → fault ≡ storage.NoMemory }
        ensures fault { result ≡ fault_by fault }
        ensures ledger { self.new.ledger ≡ self.old.ledger }
        ensures storage { self.new.storage ≡ self.old.storage }
        ensures failures { CountsFault result (failed_of S.Storage self.old)
            (failed_of S.Storage self.new) }
    {
        match fault {
            StorageFault::NoMemory => BookFault::NoMemory,
            StorageFault::Store => self.fault(),
        }
    }

    // The storage's answer as the book's. Counts a failure of the store.
    fn count<T: Drop>(&mut self, answer: Result<T, StorageFault>) -> Result<T, BookFault>
        requires { S.MAY_FAIL ≡ false → IfErr answer (λ fault. fault ≡ storage.NoMemory) }
        ensures ledger { self.new.ledger ≡ self.old.ledger }
        ensures storage { self.new.storage ≡ self.old.storage }
        ensures answer { result ≡ result_by answer }
        ensures failures { CountsFailure result (failed_of S.Storage self.old)
            (failed_of S.Storage self.new) }
    {
        match answer {
            Ok(row) => Ok(row),
            Err(fault) => Err(self.count_fault(fault)),
        }
    }
}

/// Readings of rows answer exactly the ledger's, whatever the storage did. No call answers `Store` where no store can fail.
impl<S: Storage> Book for LedgerBook<S> {
    ghost use Rattle.shop_book.specs.Failures.{CountsFailure};
    ghost use Rattle.shop_book.specs.declared.books.BookFault.TheVariants.{NoMemory};
    ghost use Rattle.shop_store.specs.LedgerBooks.{HoldsBoth, KeepsBoth, OnBoth};

    ghost Left = { S.Left };

    ghost stands = { S.stands };

    ghost may_leave = { λ book left. S.may_leave book.storage left };

    ghost holds = { λ book m. HoldsBoth S.Storage book m };

    ghost has_clean_disk = { λ book. S.has_clean_disk book.storage };

    ghost failed = { λ book. failed_of S.Storage book };

    fn material(&mut self, code: Code) -> Result<Option<Material>, BookFault>
        ensures exact { result ≡ Ok (material_at (content_in self.old.ledger) code) }
        ensures same { self.new ≡ self.old }
        ensures row { OnBoth S.Storage self.old self.new
            (λ m. IfOk result (λ row. row ≡ material_at m code)) }
        ensures keeps { KeepsBoth S.Storage (CountsFailure result) self.old self.new }
    {
        Ok(self.ledger.material(code))
    }

    fn part(&mut self, name: PartName) -> Result<Option<Part>, BookFault>
        ensures exact { result ≡ Ok (part_at (content_in self.old.ledger) name) }
        ensures same { self.new ≡ self.old }
        ensures row { OnBoth S.Storage self.old self.new
            (λ m. IfOk result (λ row. row ≡ part_at m name)) }
        ensures keeps { KeepsBoth S.Storage (CountsFailure result) self.old self.new }
    {
        Ok(self.ledger.part(name))
    }

    fn job(&mut self, alloc: Global, number: u32) -> Result<Option<Job>, BookFault>
        ensures exact { IfOk result (λ row. row ≡ job_at (content_in self.old.ledger) number) }
        ensures memory { IfErr result (λ fault. fault ≡ NoMemory) }
        ensures same { self.new ≡ self.old }
        ensures row { OnBoth S.Storage self.old self.new
            (λ m. IfOk result (λ row. row ≡ job_at m number)) }
        ensures keeps { KeepsBoth S.Storage (CountsFailure result) self.old self.new }
    {
        let row = self.ledger.job(alloc, number)?;
        Ok(row)
    }

    fn found_job(&mut self, alloc: Global, number: u32) -> Result<FoundJob, BookFault>
        ensures exact { IfOk result (IsFoundJob (content_in self.old.ledger) number) }
        ensures memory { IfErr result (λ fault. fault ≡ NoMemory) }
        ensures same { self.new ≡ self.old }
        ensures rows { OnBoth S.Storage self.old self.new
            (λ m. IfOk result (IsFoundJob m number)) }
        ensures keeps { KeepsBoth S.Storage (CountsFailure result) self.old self.new }
    {
        let found = self.ledger.found_job(alloc, number)?;
        Ok(found)
    }

    fn job_head(&mut self, alloc: Global, number: u32) -> Result<Option<JobHead>, BookFault>
        ensures exact { IfOk result (λ head. head
            ≡ option_map (head_of (content_in self.old.ledger))
            (job_at (content_in self.old.ledger) number)) }
        ensures memory { IfErr result (λ fault. fault ≡ NoMemory) }
        ensures same { self.new ≡ self.old }
        ensures row { OnBoth S.Storage self.old self.new
            (λ m. IfOk result (λ head. head ≡ option_map (head_of m) (job_at m number))) }
        ensures keeps { KeepsBoth S.Storage (CountsFailure result) self.old self.new }
    {
        let head = self.ledger.job_head(alloc, number)?;
        Ok(head)
    }

    fn halt(&mut self, alloc: Global, number: u32) -> Result<Option<JobHalt>, BookFault>
        ensures ledger { self.new.ledger ≡ self.old.ledger }
        ensures memory { S.MAY_FAIL ≡ false → IfErr result (λ fault. fault ≡ NoMemory) }
        ensures row { OnBoth S.Storage self.old self.new
            (λ m. IfOk result (λ row. row ≡ halt_at m number)) }
        ensures keeps { KeepsBoth S.Storage (CountsFailure result) self.old self.new }
    {
        let answer = self.storage.halt(alloc, number);
        self.count(answer)
    }

    fn begun(&mut self, number: u32) -> Result<Option<JobBegin>, BookFault>
        ensures exact { result ≡ Ok (begun_at (content_in self.old.ledger) number) }
        ensures same { self.new ≡ self.old }
        ensures row { OnBoth S.Storage self.old self.new
            (λ m. IfOk result (λ row. row ≡ begun_at m number)) }
        ensures keeps { KeepsBoth S.Storage (CountsFailure result) self.old self.new }
    {
        Ok(self.ledger.begun(number))
    }

    fn parts_named(&mut self, alloc: Global, act: u32) -> Result<PartList, BookFault>
        ensures exact { IfOk result
            (λ rows. rows ≡ parts_named (content_in self.old.ledger) act) }
        ensures memory { IfErr result (λ fault. fault ≡ NoMemory) }
        ensures same { self.new ≡ self.old }
        ensures rows { OnBoth S.Storage self.old self.new
            (λ m. IfOk result (λ rows. rows ≡ parts_named m act)) }
        ensures keeps { KeepsBoth S.Storage (CountsFailure result) self.old self.new }
    {
        let rows = self.ledger.parts_named(alloc, act)?;
        Ok(rows)
    }

    fn note(&mut self, alloc: Global, code: Code) -> Result<Option<OrderNote>, BookFault>
        ensures exact { IfOk result (λ row. row ≡ note_at (content_in self.old.ledger) code) }
        ensures memory { IfErr result (λ fault. fault ≡ NoMemory) }
        ensures same { self.new ≡ self.old }
        ensures row { OnBoth S.Storage self.old self.new
            (λ m. IfOk result (λ row. row ≡ note_at m code)) }
        ensures keeps { KeepsBoth S.Storage (CountsFailure result) self.old self.new }
    {
        let row = self.ledger.note(alloc, code)?;
        Ok(row)
    }

    fn due(&mut self, code: Code) -> Result<u32, BookFault>
        ensures exact { result ≡ Ok (due_of (content_in self.old.ledger) code) }
        ensures same { self.new ≡ self.old }
        ensures day { OnBoth S.Storage self.old self.new
            (λ m. IfOk result (λ day. day ≡ due_of m code)) }
        ensures keeps { KeepsBoth S.Storage (CountsFailure result) self.old self.new }
    {
        Ok(self.ledger.due(code))
    }

    fn order(&mut self, code: Code) -> Result<bool, BookFault>
        ensures exact { result ≡ Ok (has_order (content_in self.old.ledger) code) }
        ensures same { self.new ≡ self.old }
        ensures row { OnBoth S.Storage self.old self.new
            (λ m. IfOk result (λ there. there ≡ has_order m code)) }
        ensures keeps { KeepsBoth S.Storage (CountsFailure result) self.old self.new }
    {
        Ok(self.ledger.order(code))
    }

    fn demand(&mut self, number: u32) -> Result<Option<Demand>, BookFault>
        ensures exact { result ≡ Ok (demand_at (content_in self.old.ledger) number) }
        ensures same { self.new ≡ self.old }
        ensures row { OnBoth S.Storage self.old self.new
            (λ m. IfOk result (λ row. row ≡ demand_at m number)) }
        ensures key { IfOk result (λ row. IfSome row (λ demand. demand.number ≡ number)) }
        ensures keeps { KeepsBoth S.Storage (CountsFailure result) self.old self.new }
    {
        Ok(self.ledger.demand(number))
    }

    fn kept(&mut self, alloc: Global, terminal: u32, number: u32) -> Result<Option<Kept>, BookFault>
        ensures ledger { self.new.ledger ≡ self.old.ledger }
        ensures memory { S.MAY_FAIL ≡ false → IfErr result (λ fault. fault ≡ NoMemory) }
        ensures row { OnBoth S.Storage self.old self.new
            (λ m. IfOk result
            (λ row. row ≡ kept_at m (record { terminal = terminal; number = number }))) }
        ensures keeps { KeepsBoth S.Storage (CountsFailure result) self.old self.new }
    {
        let answer = self.storage.kept(alloc, terminal, number);
        self.count(answer)
    }

    fn import(&mut self, alloc: Global, order: Code) -> Result<Option<ImportRow>, BookFault>
        ensures ledger { self.new.ledger ≡ self.old.ledger }
        ensures memory { S.MAY_FAIL ≡ false → IfErr result (λ fault. fault ≡ NoMemory) }
        ensures row { OnBoth S.Storage self.old self.new
            (λ m. IfOk result (λ row. row ≡ import_at m order)) }
        ensures keeps { KeepsBoth S.Storage (CountsFailure result) self.old self.new }
    {
        let answer = self.storage.import(alloc, order);
        self.count(answer)
    }

    fn next_act(&mut self) -> Result<u32, BookFault>
        ensures exact { IfOk result (λ act. act ≡ (content_in self.old.ledger).last_act + 1) }
        ensures sure { (content_in self.old.ledger).last_act < 2 ^ 32 - 1 → IsOk result }
        ensures memory { S.MAY_FAIL ≡ false → IfErr result (λ fault. fault ≡ NoMemory) }
        ensures ledger { self.new.ledger ≡ self.old.ledger }
        ensures storage { self.new.storage ≡ self.old.storage }
        ensures number { OnBoth S.Storage self.old self.new
            (λ m. IfOk result (λ act. act ≡ m.last_act + 1)) }
        ensures least { IfOk result (λ act. 1 ≤ act) }
        ensures keeps { KeepsBoth S.Storage (CountsFailure result) self.old self.new }
    {
        match self.ledger.next_act() {
            Some(act) => Ok(act),
            None => Err(self.out_of_range()),
        }
    }

    fn next_demand(&mut self) -> Result<u32, BookFault>
        ensures exact { IfOk result
            (λ demand. demand ≡ (content_in self.old.ledger).last_demand + 1) }
        ensures sure { (content_in self.old.ledger).last_demand < 2 ^ 32 - 1 → IsOk result }
        ensures memory { S.MAY_FAIL ≡ false → IfErr result (λ fault. fault ≡ NoMemory) }
        ensures ledger { self.new.ledger ≡ self.old.ledger }
        ensures storage { self.new.storage ≡ self.old.storage }
        ensures number { OnBoth S.Storage self.old self.new
            (λ m. IfOk result (λ demand. demand ≡ m.last_demand + 1)) }
        ensures least { IfOk result (λ demand. 1 ≤ demand) }
        ensures keeps { KeepsBoth S.Storage (CountsFailure result) self.old self.new }
    {
        match self.ledger.next_demand() {
            Some(demand) => Ok(demand),
            None => Err(self.out_of_range()),
        }
    }

    fn totals(&mut self, material: Code) -> Result<Totals, BookFault>
        ensures exact { IfOk result
            (λ totals. totals ≡ totals_of (content_in self.old.ledger) material) }
        ensures sure { IsInRange (content_in self.old.ledger) → IsOk result }
        ensures memory { S.MAY_FAIL ≡ false → IfErr result (λ fault. fault ≡ NoMemory) }
        ensures ledger { self.new.ledger ≡ self.old.ledger }
        ensures storage { self.new.storage ≡ self.old.storage }
        ensures sums { OnBoth S.Storage self.old self.new
            (λ m. IfOk result (λ totals. totals ≡ totals_of m material)) }
        ensures keeps { KeepsBoth S.Storage (CountsFailure result) self.old self.new }
    {
        match self.ledger.totals(material) {
            Some(totals) => Ok(totals),
            None => Err(self.out_of_range()),
        }
    }

    fn parts_of(&mut self, alloc: Global, material: Code) -> Result<PartList, BookFault>
        ensures exact { IfOk result
            (λ rows. rows ≡ listed_parts (content_in self.old.ledger) material) }
        ensures memory { IfErr result (λ fault. fault ≡ NoMemory) }
        ensures same { self.new ≡ self.old }
        ensures rows { OnBoth S.Storage self.old self.new
            (λ m. IfOk result (λ rows. rows ≡ listed_parts m material)) }
        ensures keeps { KeepsBoth S.Storage (CountsFailure result) self.old self.new }
    {
        let rows = self.ledger.parts_of(alloc, material)?;
        Ok(rows)
    }

    fn visit_parts<V: PartVisitor>(
        &mut self,
        material: Code,
        visitor: &mut V,
    ) -> Result<bool, BookFault>
        ensures exact { IsVisit V.looks
            (λ what. what (listed_parts (content_in self.old.ledger) material))
            visitor.old result visitor.new }
        ensures sure { IsOk result }
        ensures same { self.new ≡ self.old }
        ensures visit { IsVisit V.looks
            (λ what. OnBoth S.Storage self.old self.new (λ m. what (listed_parts m material)))
            visitor.old result visitor.new }
        ensures keeps { KeepsBoth S.Storage (CountsFailure result) self.old self.new }
    {
        Ok(self.ledger.visit_parts(material, visitor))
    }

    fn materials(&mut self, alloc: Global) -> Result<MaterialList, BookFault>
        ensures exact { IfOk result (λ rows. rows ≡ materials_of (content_in self.old.ledger)) }
        ensures memory { IfErr result (λ fault. fault ≡ NoMemory) }
        ensures same { self.new ≡ self.old }
        ensures rows { OnBoth S.Storage self.old self.new
            (λ m. IfOk result (λ rows. rows ≡ materials_of m)) }
        ensures keeps { KeepsBoth S.Storage (CountsFailure result) self.old self.new }
    {
        let rows = self.ledger.materials(alloc)?;
        Ok(rows)
    }

    fn first_parts(
        &mut self,
        alloc: Global,
        material: Code,
        after: Option<PartName>,
        most: usize,
    ) -> Result<PartList, BookFault>
        ensures exact { IfOk result
            (λ rows. rows ≡ take most (parts_after (content_in self.old.ledger) material after)) }
        ensures memory { IfErr result (λ fault. fault ≡ NoMemory) }
        ensures same { self.new ≡ self.old }
        ensures rows { OnBoth S.Storage self.old self.new
            (λ m. IfOk result (λ rows. rows ≡ take most (parts_after m material after))) }
        ensures keeps { KeepsBoth S.Storage (CountsFailure result) self.old self.new }
    {
        let rows = self.ledger.first_parts(alloc, material, after, most)?;
        Ok(rows)
    }

    fn first_demands(
        &mut self,
        alloc: Global,
        after: u32,
        material: Option<Code>,
        most: usize,
    ) -> Result<DemandList, BookFault>
        ensures exact { IfOk result
            (λ rows. rows ≡ take most (open_demands (content_in self.old.ledger) after material)) }
        ensures memory { IfErr result (λ fault. fault ≡ NoMemory) }
        ensures same { self.new ≡ self.old }
        ensures rows { OnBoth S.Storage self.old self.new
            (λ m. IfOk result (λ rows. rows ≡ take most (open_demands m after material))) }
        ensures keeps { KeepsBoth S.Storage (CountsFailure result) self.old self.new }
    {
        let rows = self.ledger.first_demands(alloc, after, material, most)?;
        Ok(rows)
    }

    fn lines_of(&mut self, alloc: Global, order: Code) -> Result<DemandList, BookFault>
        ensures exact { IfOk result (λ rows. AreLines (content_in self.old.ledger) order rows) }
        ensures different { AreDifferent (content_in self.old.ledger)
            → IfErr result (λ fault. fault ≡ NoMemory) }
        ensures memory { S.MAY_FAIL ≡ false → IfErr result (λ fault. fault ≡ NoMemory) }
        ensures ledger { self.new.ledger ≡ self.old.ledger }
        ensures storage { self.new.storage ≡ self.old.storage }
        ensures rows { OnBoth S.Storage self.old self.new
            (λ m. IfOk result (λ rows. AreLines m order rows)) }
        ensures keeps { KeepsBoth S.Storage (CountsFailure result) self.old self.new }
    {
        let found = self.ledger.lines_of(alloc, order)?;
        match found {
            Some(lines) => Ok(lines),
            None => Err(self.out_of_range()),
        }
    }

    fn first_orders(
        &mut self,
        alloc: Global,
        after: Option<Code>,
        most: usize,
    ) -> Result<CodeList, BookFault>
        ensures exact { IfOk result
            (λ codes. codes ≡ take most (orders_after (content_in self.old.ledger) after)) }
        ensures memory { IfErr result (λ fault. fault ≡ NoMemory) }
        ensures same { self.new ≡ self.old }
        ensures rows { OnBoth S.Storage self.old self.new
            (λ m. IfOk result (λ codes. codes ≡ take most (orders_after m after))) }
        ensures keeps { KeepsBoth S.Storage (CountsFailure result) self.old self.new }
    {
        let codes = self.ledger.first_orders(alloc, after, most)?;
        Ok(codes)
    }

    fn first_jobs(
        &mut self,
        alloc: Global,
        after: u32,
        most: usize,
    ) -> Result<NumberList, BookFault>
        ensures exact { IfOk result
            (λ numbers. numbers ≡ take most
            (map (λ (job : JobOf). job.act) (waiting_jobs (content_in self.old.ledger) after))) }
        ensures memory { IfErr result (λ fault. fault ≡ NoMemory) }
        ensures same { self.new ≡ self.old }
        ensures rows { OnBoth S.Storage self.old self.new
            (λ m. IfOk result
            (λ numbers. numbers ≡ take most
            (map (λ (job : JobOf). job.act) (waiting_jobs m after)))) }
        ensures keeps { KeepsBoth S.Storage (CountsFailure result) self.old self.new }
    {
        let numbers = self.ledger.first_jobs(alloc, after, most)?;
        Ok(numbers)
    }

    fn last_number(&mut self, terminal: u32) -> Result<u32, BookFault>
        ensures ledger { self.new.ledger ≡ self.old.ledger }
        ensures sure { S.MAY_FAIL ≡ false → IsOk result }
        ensures number { OnBoth S.Storage self.old self.new
            (λ m. IfOk result (λ last. IsLastNumber m terminal last)) }
        ensures keeps { KeepsBoth S.Storage (CountsFailure result) self.old self.new }
    {
        let answer = self.storage.last_number(terminal);
        self.count(answer)
    }

    fn last_entry(&mut self) -> Result<(u64, u64), BookFault>
        ensures ledger { self.new.ledger ≡ self.old.ledger }
        ensures sure { S.MAY_FAIL ≡ false → IsOk result }
        ensures last { OnBoth S.Storage self.old self.new
            (λ m. IfOk result (λ last. (last.0 ≡ entry_count m) × (last.1 ≡ last_time m))) }
        ensures keeps { KeepsBoth S.Storage (CountsFailure result) self.old self.new }
    {
        let answer = self.storage.last_entry();
        self.count(answer)
    }

    fn entry(&mut self, number: u64) -> Result<Option<Entry>, BookFault>
        ensures ledger { self.new.ledger ≡ self.old.ledger }
        ensures sure { S.MAY_FAIL ≡ false → IsOk result }
        ensures row { OnBoth S.Storage self.old self.new
            (λ m. IfOk result (λ row. row ≡ entry_at m number)) }
        ensures keeps { KeepsBoth S.Storage (CountsFailure result) self.old self.new }
    {
        let answer = self.storage.entry(number);
        self.count(answer)
    }

    fn entries_after(
        &mut self,
        alloc: Global,
        after: u64,
        most: usize,
    ) -> Result<EntryRows, BookFault>
        ensures ledger { self.new.ledger ≡ self.old.ledger }
        ensures memory { S.MAY_FAIL ≡ false → IfErr result (λ fault. fault ≡ NoMemory) }
        ensures rows { OnBoth S.Storage self.old self.new
            (λ m. IfOk result (λ rows. rows ≡ take most (entries_behind m after))) }
        ensures keeps { KeepsBoth S.Storage (CountsFailure result) self.old self.new }
    {
        let answer = self.storage.entries_after(alloc, after, most);
        self.count(answer)
    }

    fn entries_about(
        &mut self,
        alloc: Global,
        about: Subject,
        after: u64,
        most: usize,
    ) -> Result<EntryRows, BookFault>
        ensures ledger { self.new.ledger ≡ self.old.ledger }
        ensures memory { S.MAY_FAIL ≡ false → IfErr result (λ fault. fault ≡ NoMemory) }
        ensures rows { OnBoth S.Storage self.old self.new
            (λ m. IfOk result (λ rows. rows ≡ take most (entries_about m about after))) }
        ensures keeps { KeepsBoth S.Storage (CountsFailure result) self.old self.new }
    {
        let answer = scan(alloc, &self.ledger, &mut self.storage, &about, after, most);
        self.count(answer)
    }

    fn ended(&self, job: u32) -> u64 {
        self.storage.ended(job)
    }

    fn kept_count(&mut self) -> Result<u32, BookFault>
        ensures ledger { self.new.ledger ≡ self.old.ledger }
        ensures sure { S.MAY_FAIL ≡ false → IsOk result }
        ensures keeps { KeepsBoth S.Storage (CountsFailure result) self.old self.new }
    {
        let answer = self.storage.kept_count();
        self.count(answer)
    }

    fn text_counts(&mut self) -> Result<(u64, u64, u64), BookFault>
        ensures ledger { self.new.ledger ≡ self.old.ledger }
        ensures sure { S.MAY_FAIL ≡ false → IsOk result }
        ensures counts { OnBoth S.Storage self.old self.new (λ m. IfOk result
            (λ counts. (counts.0 ≡ len m.kept) × (counts.1 ≡ len m.imports)
            × (counts.2 ≡ len m.halts))) }
        ensures keeps { KeepsBoth S.Storage (CountsFailure result) self.old self.new }
    {
        let answer = self.storage.text_counts();
        self.count(answer)
    }

    fn stray_use(&mut self, alloc: Global) -> Result<Option<StrayUse>, BookFault>
        ensures ledger { self.new.ledger ≡ self.old.ledger }
        ensures memory { S.MAY_FAIL ≡ false → IfErr result (λ fault. fault ≡ NoMemory) }
        ensures keeps { KeepsBoth S.Storage (CountsFailure result) self.old self.new }
    {
        let answer = self.storage.stray_use(alloc, &self.ledger);
        self.count(answer)
    }

    fn rows(&self) -> &Ledger {
        &self.ledger
    }

    /// Reserves capacity in the ledger, makes the change last, and then puts its rows, which can't fail.
    fn commit(&mut self, change: Change) -> Result<(), BookFault>
        ensures rows { OnOk result
            (content_in self.new.ledger ≡ bare (changed (content_in self.old.ledger) change)) }
        ensures same_rows { OnErr result
            (content_in self.new.ledger ≡ content_in self.old.ledger) }
        ensures any { S.MAY_FAIL ≡ false → (m : Content) → HoldsBoth S.Storage self.old m
            → OnOk result (HoldsBoth S.Storage self.new (changed m change)) }
        ensures memory { S.MAY_FAIL ≡ false → IfErr result (λ fault. fault ≡ NoMemory) }
        ensures ok { OnBoth S.Storage self.old self.new (λ m. Fits m change
            → OnOk result (HoldsBoth S.Storage self.new (changed m change))) }
        ensures err { OnBoth S.Storage self.old self.new
            (λ m. OnErr result (HoldsBoth S.Storage self.new m)) }
        ensures crash { OnBoth S.Storage self.old self.new (λ m. Fits m change
            → (left : S.Left) → S.may_leave self.new.storage left
            → S.may_leave self.old.storage left ⊎ S.stands left (changed m change)) }
        ensures lasts { OnBoth S.Storage self.old self.new (λ m. Fits m change
            → OnOk result ((left : S.Left) → S.may_leave self.new.storage left
            → S.stands left (changed m change))) }
        ensures clean_disk { S.has_clean_disk self.new.storage
            → S.has_clean_disk self.old.storage }
        ensures failures { CountsFailure result (failed_of S.Storage self.old)
            (failed_of S.Storage self.new) }
    {
        self.ledger.reserve_change(&change)?;
        match self.storage.commit(&change) {
            Ok(()) => {
                self.ledger.post(change);
                Ok(())
            }
            Err(fault) => Err(self.count_fault(fault)),
        }
    }

    fn failures(&self) -> u64 {
        if S::MAY_FAIL { self.failures } else { 0 }
    }
}
