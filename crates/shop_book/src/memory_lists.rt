//! The jobs, demands and imports of a book in memory, and the numbers of what is open.

ghost use Rattle.std.specs.Prelude.{◌≡◌, ◌+◌, ◌++◌, ◌<◌, ◌≤◌, IfOk, IsTrue, OnOk, filter, length, take, vec_len, vec_capacity};
ghost use Rattle.std.specs.Option.{option_to_list};
ghost use Rattle.std.specs.Ordering.{nat_cmp};
ghost use Rattle.cut_measure.specs.Codes.{code_cmp};
ghost use Rattle.shop_records.specs.Lists.{is_asked_for, is_open};
ghost use Rattle.shop_records.specs.Content.{of_found};
ghost use Rattle.shop_records.specs.declared.notes.OrderNote.{OrderNote as NoteOf};
ghost use Rattle.shop_records.specs.declared.records.JobBegin.{JobBegin as BeginOf};
ghost use Rattle.shop_rows.specs.Keys.{job_key, begin_key, demand_key, halt_key, import_key, note_key};
ghost use Rattle.shop_rows.specs.Open.{own_key, demands_named, waits, ListsNumbers};
ghost use Rattle.shop_rows.specs.Rows.{rise, row_at, ArePut};

use cut_measure::Code;
use shop_records::{Demand, DemandList, ImportRow, Job, JobBegin, JobHalt, OrderNote, RowList};
use shop_rows::{at, find, list_demands, list_job, put, put_all, reserve_rows};
use std::alloc::{AllocError, Global};
use std::cmp::Ordering;

/// The same jobs.
pub(crate) fn copy_jobs(jobs: &Vec<Job>) -> Result<Vec<Job>, AllocError>
    ensures { IfOk result (λ copy. copy.items ≡ jobs.now.items) }
{
    let copy = jobs.clone()?;
    Ok(copy)
}

/// The same notes of orders.
pub(crate) fn copy_notes(alloc: Global, notes: &[OrderNote]) -> Result<Vec<OrderNote>, AllocError>
    ensures { IfOk result (λ copy. copy.items ≡ notes.now) }
{
    let mut copy = Vec::new(alloc);
    for row in notes {
        copy.push(row.copy(alloc)?)?;
    }
    Ok(copy)
}

/// The same halts of jobs.
pub(crate) fn copy_halts(alloc: Global, halts: &[JobHalt]) -> Result<Vec<JobHalt>, AllocError>
    ensures { IfOk result (λ copy. copy.items ≡ halts.now) }
{
    let mut copy = Vec::new(alloc);
    for row in halts {
        copy.push(row.copy(alloc)?)?;
    }
    Ok(copy)
}

/// A copy of what is said of an order.
pub(crate) fn find_note(
    alloc: Global,
    notes: &[OrderNote],
    order: Code,
) -> Result<Option<OrderNote>, AllocError>
    requires { IsTrue (rise note_key code_cmp notes.now) }
    ensures { IfOk result (λ row. row ≡ row_at note_key code_cmp order notes.now) }
{
    match at(notes, order) {
        None => Ok(None),
        Some(row) => {
            let copy = row.copy(alloc)?;
            Ok(Some(copy))
        }
    }
}

/// The day on which an order is due, 0 where none is said.
pub(crate) fn due_in(notes: &[OrderNote], order: Code) -> u32
    requires { IsTrue (rise note_key code_cmp notes.now) }
    ensures { result ≡ of_found (λ (row : NoteOf). row.due) (row_at note_key code_cmp order notes.now) }
{
    match at(notes, order) {
        None => 0,
        Some(row) => row.due,
    }
}

/// A copy of where the work on a job's plan halted.
pub(crate) fn find_halt(
    alloc: Global,
    halts: &[JobHalt],
    number: u32,
) -> Result<Option<JobHalt>, AllocError>
    requires { IsTrue (rise halt_key nat_cmp halts.now) }
    ensures { IfOk result (λ row. row ≡ row_at halt_key nat_cmp number halts.now) }
{
    match at(halts, number) {
        None => Ok(None),
        Some(row) => {
            let copy = row.copy(alloc)?;
            Ok(Some(copy))
        }
    }
}

/// The same rows of imports.
pub(crate) fn copy_imports(imports: &Vec<ImportRow>) -> Result<Vec<ImportRow>, AllocError>
    ensures { IfOk result (λ copy. copy.items ≡ imports.now.items) }
{
    let copy = imports.clone()?;
    Ok(copy)
}

/// Makes room in both for so many more.
pub(crate) fn reserve_both<A, B>(
    rows: &mut Vec<A>,
    others: &mut Vec<B>,
    count: usize,
) -> Result<(), AllocError>
    ensures rows { rows.new.items ≡ rows.old.items }
    ensures others { others.new.items ≡ others.old.items }
    ensures spare { OnOk result
        ((vec_len rows.new + count ≤ vec_capacity rows.new)
        × (vec_len others.new + count ≤ vec_capacity others.new)) }
{
    reserve_rows(rows, count)?;
    reserve_rows(others, count)
}

// Whether a material is asked for.
fn is_asked_for(asked: &Option<Code>, code: Code) -> bool
    ensures { result ≡ is_asked_for asked.now code }
{
    match asked {
        Some(asked) => matches!(code.order(asked), Ordering::Equal),
        None => true,
    }
}

// Appends a demand that was found, where its material is asked for.
fn push_asked(
    rows: &mut DemandList,
    found: Option<Demand>,
    asked: &Option<Code>,
) -> Result<(), AllocError>
    ensures { OnOk result (rows.new ≡ rows.old
        ++ filter (λ demand. is_asked_for asked.now demand.material) (option_to_list found)) }
{
    let Some(demand) = found else {
        return Ok(());
    };
    if !is_asked_for(asked, demand.material) {
        return Ok(());
    }
    rows.push(demand)
}

/// The first demands of these numbers whose material is asked for.
pub(crate) fn first_asked(
    alloc: Global,
    demands: &[Demand],
    keys: &[u32],
    asked: &Option<Code>,
    most: usize,
) -> Result<DemandList, AllocError>
    requires { IsTrue (rise demand_key nat_cmp demands.now) }
    ensures { IfOk result (λ rows. rows
        ≡ take most (filter (λ demand. is_asked_for asked.now demand.material)
        (demands_named keys.now demands.now))) }
{
    let mut rows = DemandList::new(alloc);
    for key in keys {
        if most <= rows.as_slice().len() {
            return Ok(rows);
        }
        push_asked(&mut rows, find(demands, *key), asked)?;
    }
    Ok(rows)
}

/// A copy of the job of a number.
pub(crate) fn find_job(alloc: Global, jobs: &[Job], number: u32) -> Result<Option<Job>, AllocError>
    requires { IsTrue (rise job_key nat_cmp jobs.now) }
    ensures { IfOk result (λ row. row ≡ row_at job_key nat_cmp number jobs.now) }
{
    match at(jobs, number) {
        None => Ok(None),
        Some(job) => {
            let copy = job.copy(alloc)?;
            Ok(Some(copy))
        }
    }
}

/// The terminal that has begun the job of a number, 0 where none has.
pub(crate) fn begun_in(begun: &[JobBegin], number: u32) -> u32
    requires { IsTrue (rise begin_key nat_cmp begun.now) }
    ensures { result
        ≡ of_found (λ (row : BeginOf). row.terminal) (row_at begin_key nat_cmp number begun.now) }
{
    match find(begun, number) {
        None => 0,
        Some(row) => row.terminal,
    }
}

/// A copy of what is kept of the import of an order.
pub(crate) fn find_import(
    alloc: Global,
    imports: &[ImportRow],
    order: Code,
) -> Result<Option<ImportRow>, AllocError>
    requires { IsTrue (rise import_key code_cmp imports.now) }
    ensures { IfOk result (λ row. row ≡ row_at import_key code_cmp order imports.now) }
{
    match at(imports, order) {
        None => Ok(None),
        Some(row) => {
            let copy = row.copy(alloc)?;
            Ok(Some(copy))
        }
    }
}

/// Puts a job, if there is one, and keeps the list of waiting jobs.
pub(crate) fn put_job(jobs: &mut Vec<Job>, keys: &mut Vec<u32>, job: Option<Job>)
    requires jobs { IsTrue (rise job_key nat_cmp jobs.old.items) }
    requires spare { vec_len jobs.old < vec_capacity jobs.old }
    requires keys { IsTrue (rise own_key nat_cmp keys.old.items) }
    requires keys_spare { vec_len keys.old < vec_capacity keys.old }
    requires listed { ListsNumbers waits
        (λ number. row_at job_key nat_cmp number jobs.old.items) keys.old.items }
    ensures put { ArePut job_key nat_cmp (option_to_list job) jobs.old.items jobs.new.items }
    ensures rising { IsTrue (rise job_key nat_cmp jobs.new.items) }
    ensures keys { IsTrue (rise own_key nat_cmp keys.new.items) }
    ensures listed { ListsNumbers waits
        (λ number. row_at job_key nat_cmp number jobs.new.items) keys.new.items }
{
    if let Some(job) = job {
        list_job(keys, &job);
        let _ = put(jobs, job);
    }
}

/// Puts demands, as one after another, and keeps the list of open demands.
pub(crate) fn put_demands(demands: &mut Vec<Demand>, keys: &mut Vec<u32>, rows: &[Demand])
    requires demands { IsTrue (rise demand_key nat_cmp demands.old.items) }
    requires spare { vec_len demands.old + length rows.now ≤ vec_capacity demands.old }
    requires keys { IsTrue (rise own_key nat_cmp keys.old.items) }
    requires keys_spare { vec_len keys.old + length rows.now ≤ vec_capacity keys.old }
    requires listed { ListsNumbers is_open
        (λ number. row_at demand_key nat_cmp number demands.old.items) keys.old.items }
    ensures put { ArePut demand_key nat_cmp rows.now demands.old.items demands.new.items }
    ensures rising { IsTrue (rise demand_key nat_cmp demands.new.items) }
    ensures keys { IsTrue (rise own_key nat_cmp keys.new.items) }
    ensures listed { ListsNumbers is_open
        (λ number. row_at demand_key nat_cmp number demands.new.items) keys.new.items }
{
    list_demands(keys, rows);
    put_all(demands, rows);
}
