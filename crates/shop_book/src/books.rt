//! What is promised of a book, which keeps the shop's content: what its calls answer, and what a crash may leave.

ghost use Rattle.std.specs.Prelude.{◌≡◌, ◌+◌, ◌≤◌, ◌⊎◌, ℕ, IfOk, IfSome, OnOk, OnErr, map, option_map, take};
ghost use Rattle.shop_records.specs.Content.{Content, material_at, part_at, job_at, has_order, demand_at, kept_at, import_at, halt_at, begun_at, note_at, entry_at, entry_count, last_time, of_found, totals_of, parts_of as listed_parts, parts_named, changed};
ghost use Rattle.shop_records.specs.Lists.{AreLines, IsLastNumber, due_of, end_entry, entries_about, entries_behind, materials_of, orders_after, parts_after, open_demands, waiting_jobs};
ghost use Rattle.shop_records.specs.WellFormed.{Fits};
ghost use Rattle.shop_records.specs.declared.journal.Entry.{Entry as EntryOf};
ghost use Rattle.shop_records.specs.declared.records.Job.{Job as JobOf};
ghost use Rattle.shop_book.specs.Failures.{CountsFailure};
ghost use Rattle.shop_book.specs.Books.{Keeps};
ghost use Rattle.shop_book.specs.FoundJobs.{IsFoundJob, head_of};
ghost use Rattle.shop_records.specs.Visits.{IsVisit};
ghost use Rattle.shop_book.specs.Ledgers.{bare, content_in};
ghost use Rattle.std.specs.FinMap.{len};

use crate::ledger::Ledger;
use crate::uses::StrayUse;
use cut_measure::{Code, PartName};
use shop_records::{
    Change, CodeList, Demand, DemandList, Entry, EntryRows, ImportRow, Job, JobBegin, JobHalt,
    Kept, Material, MaterialList, NumberList, OrderNote, Part, PartList, PartVisitor, Refusal,
    Subject, Totals,
};
use std::alloc::{AllocError, Global};
use std::error::Error;
use std::fmt;

/// The greatest number of failures that is counted.
pub const MAX_FAILURES: u64 = 18446744073709551615;

/// Why a book has no answer.
#[derive(Clone, Copy, Debug, PartialEq, Eq)]
pub enum BookFault {
    /// Memory ran out.
    NoMemory,
    /// The store failed; the book counts it.
    Store,
    /// The database is no book's, or of another version. No call of a book answers it.
    WrongVersion,
}

impl fmt::Display for BookFault {
    ghost use Rattle.std.specs.Prelude.{Some};
    ghost use Rattle.shop_book.specs.Failures.{book_fault_text};

    ghost output = { λ fault. Some (book_fault_text fault) };

    fn fmt<W: fmt::Write>(&self, f: &mut fmt::Formatter<W>) -> fmt::Result {
        f.write_str(match self {
            BookFault::NoMemory => "fault memory",
            BookFault::Store => "fault store",
            BookFault::WrongVersion => "fault version",
        })
    }
}

impl Error for BookFault {}

impl From<BookFault> for Refusal {
    ghost use Rattle.std.specs.Prelude.{◌≡◌};
    ghost use Rattle.shop_book.specs.Failures.{refusal_for};

    ghost from_gives = { λ fault refusal. refusal ≡ refusal_for fault };

    fn from(fault: BookFault) -> Refusal {
        match fault {
            BookFault::NoMemory => Refusal::NoMemory,
            BookFault::Store => Refusal::StoreFault,
            BookFault::WrongVersion => Refusal::StoreFault,
        }
    }
}

impl From<AllocError> for BookFault {
    ghost use Rattle.std.specs.Prelude.{◌≡◌};
    ghost use Rattle.shop_book.specs.declared.books.BookFault.TheVariants.{NoMemory};

    ghost from_gives = { λ _ fault. fault ≡ NoMemory };

    fn from(_error: AllocError) -> BookFault {
        BookFault::NoMemory
    }
}

/// A job with its part and that one's material, as far as they are there.
#[derive(Drop)]
pub struct FoundJob {
    pub job: Option<Job>,
    pub part: Option<Part>,
    pub material: Option<Material>,
}

/// A job as lists show it: its number, its part, how many cuts its plan has, the terminal that has begun it, or 0, and the least
/// day on which an order is due that has a piece in the plan, or 0.
#[derive(Clone, Copy, Debug)]
pub struct JobHead {
    pub act: u32,
    pub part: PartName,
    pub cuts: u32,
    pub begun: u32,
    pub due: u32,
}

/// What the shop contains, wherever it is kept.
///
/// A reading answers the content's row and changes nothing. `commit` makes a change as a whole, or not at all. What is
/// promised of the content stands under the premise that the store gave back what was put into it; that failures are
/// counted, and the ranges that a decision rests on, stand without it.
pub trait Book {
    /// What a crash may leave, as a later open finds it.
    ghost Left: { Type 0 };

    /// What was left stands for this content.
    ghost stands: { Left → Content → Type 0 };

    /// A crash at this moment may leave this.
    ghost may_leave: { Self → Left → Type 0 };

    /// The book holds this content.
    ghost holds: { Self → Content → Type 0 };

    /// So far the store gave back what was put into it.
    ghost has_clean_disk: { Self → Type 0 };

    /// How often the store failed, up to the greatest number that is counted.
    ghost failed: { Self → ℕ };

    /// The material of a code.
    fn material(&mut self, code: Code) -> Result<Option<Material>, BookFault>
        ensures row { has_clean_disk self.new → (m : Content) → holds self.old m
            → IfOk result (λ row. row ≡ material_at m code) }
        ensures keeps { Keeps has_clean_disk holds may_leave failed
            (CountsFailure result) self.old self.new };

    /// The part of a name.
    fn part(&mut self, name: PartName) -> Result<Option<Part>, BookFault>
        ensures row { has_clean_disk self.new → (m : Content) → holds self.old m
            → IfOk result (λ row. row ≡ part_at m name) }
        ensures keeps { Keeps has_clean_disk holds may_leave failed
            (CountsFailure result) self.old self.new };

    /// The job under the number of the reservation's act.
    fn job(&mut self, alloc: Global, number: u32) -> Result<Option<Job>, BookFault>
        ensures row { has_clean_disk self.new → (m : Content) → holds self.old m
            → IfOk result (λ row. row ≡ job_at m number) }
        ensures keeps { Keeps has_clean_disk holds may_leave failed
            (CountsFailure result) self.old self.new };

    /// The job under the number of the reservation's act, with its part and that one's material.
    fn found_job(&mut self, alloc: Global, number: u32) -> Result<FoundJob, BookFault>
        ensures rows { has_clean_disk self.new → (m : Content) → holds self.old m
            → IfOk result (IsFoundJob m number) }
        ensures keeps { Keeps has_clean_disk holds may_leave failed
            (CountsFailure result) self.old self.new };

    /// The job under the number of the reservation's act, as lists show it.
    fn job_head(&mut self, alloc: Global, number: u32) -> Result<Option<JobHead>, BookFault>
        ensures row { has_clean_disk self.new → (m : Content) → holds self.old m
            → IfOk result (λ head. head ≡ option_map (head_of m) (job_at m number)) }
        ensures keeps { Keeps has_clean_disk holds may_leave failed
            (CountsFailure result) self.old self.new };

    /// Where the work on the plan of the job of a number halted, if that is kept.
    fn halt(&mut self, alloc: Global, number: u32) -> Result<Option<JobHalt>, BookFault>
        ensures row { has_clean_disk self.new → (m : Content) → holds self.old m
            → IfOk result (λ row. row ≡ halt_at m number) }
        ensures keeps { Keeps has_clean_disk holds may_leave failed
            (CountsFailure result) self.old self.new };

    /// Which terminal has begun the job of a number.
    fn begun(&mut self, number: u32) -> Result<Option<JobBegin>, BookFault>
        ensures row { has_clean_disk self.new → (m : Content) → holds self.old m
            → IfOk result (λ row. row ≡ begun_at m number) }
        ensures keeps { Keeps has_clean_disk holds may_leave failed
            (CountsFailure result) self.old self.new };

    /// The parts that are named after an act, by rising node.
    fn parts_named(&mut self, alloc: Global, act: u32) -> Result<PartList, BookFault>
        ensures rows { has_clean_disk self.new → (m : Content) → holds self.old m
            → IfOk result (λ rows. rows ≡ parts_named m act) }
        ensures keeps { Keeps has_clean_disk holds may_leave failed
            (CountsFailure result) self.old self.new };

    /// What is said of an order.
    fn note(&mut self, alloc: Global, code: Code) -> Result<Option<OrderNote>, BookFault>
        ensures row { has_clean_disk self.new → (m : Content) → holds self.old m
            → IfOk result (λ row. row ≡ note_at m code) }
        ensures keeps { Keeps has_clean_disk holds may_leave failed
            (CountsFailure result) self.old self.new };

    /// The day on which an order is due, 0 where none is said.
    fn due(&mut self, code: Code) -> Result<u32, BookFault>
        ensures day { has_clean_disk self.new → (m : Content) → holds self.old m
            → IfOk result (λ day. day ≡ due_of m code) }
        ensures keeps { Keeps has_clean_disk holds may_leave failed
            (CountsFailure result) self.old self.new };

    /// Whether there is an order of this code.
    fn order(&mut self, code: Code) -> Result<bool, BookFault>
        ensures row { has_clean_disk self.new → (m : Content) → holds self.old m
            → IfOk result (λ there. there ≡ has_order m code) }
        ensures keeps { Keeps has_clean_disk holds may_leave failed
            (CountsFailure result) self.old self.new };

    /// The demand of a number.
    fn demand(&mut self, number: u32) -> Result<Option<Demand>, BookFault>
        ensures row { has_clean_disk self.new → (m : Content) → holds self.old m
            → IfOk result (λ row. row ≡ demand_at m number) }
        ensures key { IfOk result (λ row. IfSome row (λ demand. demand.number ≡ number)) }
        ensures keeps { Keeps has_clean_disk holds may_leave failed
            (CountsFailure result) self.old self.new };

    /// What is kept of the accepted message with this ID.
    fn kept(&mut self, alloc: Global, terminal: u32, number: u32) -> Result<Option<Kept>, BookFault>
        ensures row { has_clean_disk self.new → (m : Content) → holds self.old m
            → IfOk result (λ row. row
            ≡ kept_at m (record { terminal = terminal; number = number })) }
        ensures keeps { Keeps has_clean_disk holds may_leave failed
            (CountsFailure result) self.old self.new };

    /// What is kept of the import that the order of this code came by.
    fn import(&mut self, alloc: Global, order: Code) -> Result<Option<ImportRow>, BookFault>
        ensures row { has_clean_disk self.new → (m : Content) → holds self.old m
            → IfOk result (λ row. row ≡ import_at m order) }
        ensures keeps { Keeps has_clean_disk holds may_leave failed
            (CountsFailure result) self.old self.new };

    /// The number of the next act, 1 on a fresh book.
    fn next_act(&mut self) -> Result<u32, BookFault>
        ensures number { has_clean_disk self.new → (m : Content) → holds self.old m
            → IfOk result (λ act. act ≡ m.last_act + 1) }
        ensures least { IfOk result (λ act. 1 ≤ act) }
        ensures keeps { Keeps has_clean_disk holds may_leave failed
            (CountsFailure result) self.old self.new };

    /// The number of the next demand, 1 on a fresh book.
    fn next_demand(&mut self) -> Result<u32, BookFault>
        ensures number { has_clean_disk self.new → (m : Content) → holds self.old m
            → IfOk result (λ demand. demand ≡ m.last_demand + 1) }
        ensures least { IfOk result (λ demand. 1 ≤ demand) }
        ensures keeps { Keeps has_clean_disk holds may_leave failed
            (CountsFailure result) self.old self.new };

    /// The cells of a material, received and by what became of them.
    fn totals(&mut self, material: Code) -> Result<Totals, BookFault>
        ensures sums { has_clean_disk self.new → (m : Content) → holds self.old m
            → IfOk result (λ totals. totals ≡ totals_of m material) }
        ensures keeps { Keeps has_clean_disk holds may_leave failed
            (CountsFailure result) self.old self.new };

    /// The standing and the reserved parts of a material, by rising act and then node.
    fn parts_of(&mut self, alloc: Global, material: Code) -> Result<PartList, BookFault>
        ensures rows { has_clean_disk self.new → (m : Content) → holds self.old m
            → IfOk result (λ rows. rows ≡ listed_parts m material) }
        ensures keeps { Keeps has_clean_disk holds may_leave failed
            (CountsFailure result) self.old self.new };

    /// Hands out the list of `parts_of` in order, one part at a time, for as long as the visitor answers true. The answer is
    /// true where that was all of the list and false where the visitor stopped; after an `Err` too the parts that were
    /// handed out begin the list, and the visitor is what they in turn made of it.
    fn visit_parts<V: PartVisitor>(
        &mut self,
        material: Code,
        visitor: &mut V,
    ) -> Result<bool, BookFault>
        ensures visit { IsVisit V.looks
            (λ what. has_clean_disk self.new → (m : Content) → holds self.old m
            → what (listed_parts m material)) visitor.old result visitor.new }
        ensures keeps { Keeps has_clean_disk holds may_leave failed
            (CountsFailure result) self.old self.new };

    /// All materials, by rising code.
    fn materials(&mut self, alloc: Global) -> Result<MaterialList, BookFault>
        ensures rows { has_clean_disk self.new → (m : Content) → holds self.old m
            → IfOk result (λ rows. rows ≡ materials_of m) }
        ensures keeps { Keeps has_clean_disk holds may_leave failed
            (CountsFailure result) self.old self.new };

    /// The first standing and reserved parts of a material after a name, or from the first on, by rising act and then
    /// node: at most so many.
    fn first_parts(
        &mut self,
        alloc: Global,
        material: Code,
        after: Option<PartName>,
        most: usize,
    ) -> Result<PartList, BookFault>
        ensures rows { has_clean_disk self.new → (m : Content) → holds self.old m
            → IfOk result (λ rows. rows ≡ take most (parts_after m material after)) }
        ensures keeps { Keeps has_clean_disk holds may_leave failed
            (CountsFailure result) self.old self.new };

    /// The first open demands with greater numbers, of one material or of all, by rising number: at most so many.
    fn first_demands(
        &mut self,
        alloc: Global,
        after: u32,
        material: Option<Code>,
        most: usize,
    ) -> Result<DemandList, BookFault>
        ensures rows { has_clean_disk self.new → (m : Content) → holds self.old m
            → IfOk result (λ rows. rows ≡ take most (open_demands m after material)) }
        ensures keeps { Keeps has_clean_disk holds may_leave failed
            (CountsFailure result) self.old self.new };

    /// The lines of an order, by rising line: all of them, whatever became of them.
    fn lines_of(&mut self, alloc: Global, order: Code) -> Result<DemandList, BookFault>
        ensures rows { has_clean_disk self.new → (m : Content) → holds self.old m
            → IfOk result (λ rows. AreLines m order rows) }
        ensures keeps { Keeps has_clean_disk holds may_leave failed
            (CountsFailure result) self.old self.new };

    /// The codes of the first orders after a code, or from the first on, rising: at most so many.
    fn first_orders(
        &mut self,
        alloc: Global,
        after: Option<Code>,
        most: usize,
    ) -> Result<CodeList, BookFault>
        ensures rows { has_clean_disk self.new → (m : Content) → holds self.old m
            → IfOk result (λ codes. codes ≡ take most (orders_after m after)) }
        ensures keeps { Keeps has_clean_disk holds may_leave failed
            (CountsFailure result) self.old self.new };

    /// The numbers of the first waiting jobs with greater numbers, rising: at most so many.
    fn first_jobs(
        &mut self,
        alloc: Global,
        after: u32,
        most: usize,
    ) -> Result<NumberList, BookFault>
        ensures rows { has_clean_disk self.new → (m : Content) → holds self.old m
            → IfOk result (λ numbers. numbers
            ≡ take most (map (λ (job : JobOf). job.act) (waiting_jobs m after))) }
        ensures keeps { Keeps has_clean_disk holds may_leave failed
            (CountsFailure result) self.old self.new };

    /// The greatest number under which a message of a terminal is kept, 0 where none is.
    fn last_number(&mut self, terminal: u32) -> Result<u32, BookFault>
        ensures number { has_clean_disk self.new → (m : Content) → holds self.old m
            → IfOk result (λ last. IsLastNumber m terminal last) }
        ensures keeps { Keeps has_clean_disk holds may_leave failed
            (CountsFailure result) self.old self.new };

    /// The number and the time of the last entry, 0 and 0 if there is none. It costs no more as the shop grows.
    fn last_entry(&mut self) -> Result<(u64, u64), BookFault>
        ensures last { has_clean_disk self.new → (m : Content) → holds self.old m
            → IfOk result (λ last. (last.0 ≡ entry_count m) × (last.1 ≡ last_time m)) }
        ensures keeps { Keeps has_clean_disk holds may_leave failed
            (CountsFailure result) self.old self.new };

    /// The entry of a number.
    fn entry(&mut self, number: u64) -> Result<Option<Entry>, BookFault>
        ensures row { has_clean_disk self.new → (m : Content) → holds self.old m
            → IfOk result (λ row. row ≡ entry_at m number) }
        ensures keeps { Keeps has_clean_disk holds may_leave failed
            (CountsFailure result) self.old self.new };

    /// The first entries with greater numbers, rising: at most so many.
    fn entries_after(
        &mut self,
        alloc: Global,
        after: u64,
        most: usize,
    ) -> Result<EntryRows, BookFault>
        ensures rows { has_clean_disk self.new → (m : Content) → holds self.old m
            → IfOk result (λ rows. rows ≡ take most (entries_behind m after)) }
        ensures keeps { Keeps has_clean_disk holds may_leave failed
            (CountsFailure result) self.old self.new };

    /// The first entries about a subject with greater numbers, rising: at most so many.
    fn entries_about(
        &mut self,
        alloc: Global,
        about: Subject,
        after: u64,
        most: usize,
    ) -> Result<EntryRows, BookFault>
        ensures rows { has_clean_disk self.new → (m : Content) → holds self.old m
            → IfOk result (λ rows. rows ≡ take most (entries_about m about after)) }
        ensures keeps { Keeps has_clean_disk holds may_leave failed
            (CountsFailure result) self.old self.new };

    /// When the job of a number was done or broken, by its entry; 0 where that has none.
    fn ended(&self, job: u32) -> u64
        ensures time { has_clean_disk self.now → (m : Content) → holds self.now m
            → result ≡ of_found (λ (entry : EntryOf). entry.at) (end_entry m job) };

    /// How many messages are kept. It is reported in a log, and no clause says it.
    fn kept_count(&mut self) -> Result<u32, BookFault>
        ensures keeps { Keeps has_clean_disk holds may_leave failed
            (CountsFailure result) self.old self.new };

    /// How many messages, how many imports and how many halts are kept.
    fn text_counts(&mut self) -> Result<(u64, u64, u64), BookFault>
        ensures counts { has_clean_disk self.new → (m : Content) → holds self.old m
            → IfOk result (λ counts. (counts.0 ≡ len m.kept) × (counts.1 ≡ len m.imports)
            × (counts.2 ≡ len m.halts)) }
        ensures keeps { Keeps has_clean_disk holds may_leave failed
            (CountsFailure result) self.old self.new };

    /// Where the orders of jobs that a store lists differ from the plans of its jobs, if it lists any. No book is read from them,
    /// and no clause says which row it is.
    fn stray_use(&mut self, alloc: Global) -> Result<Option<StrayUse>, BookFault>
        ensures keeps { Keeps has_clean_disk holds may_leave failed
            (CountsFailure result) self.old self.new };

    /// All rows but the long texts, the entries and where the work on jobs halted, as they are in memory.
    fn rows(&self) -> &Ledger
        ensures { has_clean_disk self.now → (m : Content) → holds self.now m
            → content_in result.now ≡ bare m };

    /// Makes a change that fits the content as a whole, or not at all. After an `Err` the content is what it was, whatever
    /// the change.
    fn commit(&mut self, change: Change) -> Result<(), BookFault>
        ensures ok { has_clean_disk self.new → (m : Content) → holds self.old m → Fits m change
            → OnOk result (holds self.new (changed m change)) }
        ensures err { has_clean_disk self.new → (m : Content) → holds self.old m
            → OnErr result (holds self.new m) }
        ensures crash { has_clean_disk self.new → (m : Content) → holds self.old m → Fits m change
            → (left : Left) → may_leave self.new left → may_leave self.old left
            ⊎ stands left (changed m change) }
        ensures lasts { has_clean_disk self.new → (m : Content) → holds self.old m → Fits m change
            → OnOk result ((left : Left) → may_leave self.new left
            → stands left (changed m change)) }
        ensures clean_disk { has_clean_disk self.new → has_clean_disk self.old }
        ensures failures { CountsFailure result (failed self.old) (failed self.new) };

    /// How often the store failed, up to `MAX_FAILURES`.
    fn failures(&self) -> u64
        ensures { result ≡ failed self.now };
}
