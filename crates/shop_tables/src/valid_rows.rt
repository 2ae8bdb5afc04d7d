//! Rows of a table that is read whole: the values that they stand for, or that one stands for none.

ghost use Rattle.std.specs.Prelude.{◌≡◌, ◌≤◌, Some, IfOk};
ghost use Rattle.sqlite_value.specs.declared.value.Value.TheVariants.{Text as Word};
ghost use Rattle.sqlite_value.specs.Order.{column};
ghost use Rattle.cut_measure.specs.declared.ranges.TheConstants.{MAX_KERF};
ghost use Rattle.cut_tree.specs.declared.token.Cause.TheVariants.{NoMemory};
ghost use Rattle.cut_tree.specs.Patterns.{IsPlan, Pattern};
ghost use Rattle.cut_tree.specs.Spelling.{text_of};
ghost use Rattle.shop_records.specs.declared.records.Demand.{Demand as DemandRecord};
ghost use Rattle.shop_records.specs.declared.records.Job.{Job as JobRecord};
ghost use Rattle.shop_records.specs.declared.records.JobBegin.{JobBegin as BeginRecord};
ghost use Rattle.shop_records.specs.declared.records.JobState.{JobState as JobStateOf};
ghost use Rattle.shop_records.specs.declared.notes.OrderNote.{OrderNote as NoteRecord};
ghost use Rattle.shop_records.specs.declared.records.Material.{Material as MaterialRecord};
ghost use Rattle.shop_statements.specs.Rows.{job_state_number};
ghost use Rattle.shop_tables.specs.Invalid.{HasValue};
ghost use Rattle.shop_tables.specs.ListedRows.{listed_begun, listed_demand, listed_job, listed_material, listed_note};
ghost use Rattle.shop_tables.specs.RowsFrom.{stored_job};

use crate::invalid::{
    int_in, may_be_begun, may_be_demand, may_be_job, may_be_material, may_be_note,
};
use crate::listed_rows::Listed;
use cut_measure::{Code, MAX_KERF, PartName, Size};
use cut_tree::{Cause, Plan};
use shop_records::{Demand, JobBegin, JobState, Material, OrderNote};
use shop_statements::{TableFault, code_in, name_in, number_in, read_begun, read_note};
use sqlite::Row;
use sqlite::types::ValueRef;
use std::alloc::Global;

/// A row that stands for no value: its table, and its key where that is one.
#[derive(Clone, Copy, Debug, PartialEq)]
pub enum NoRow {
    /// A material, by its code.
    Material(Option<Code>),
    /// A part, by its act and its node.
    Part(Option<i64>, Option<i64>),
    /// A job, by its number.
    Job(Option<i64>),
    /// An order, by its code.
    Order(Option<Code>),
    /// A demand, by its number.
    Demand(Option<i64>),
    /// An entry, by its number.
    Entry(Option<i64>),
    /// What is said of an order, by its code.
    Note(Option<Code>),
    /// The terminal that has begun a job, by its number.
    Begun(Option<i64>),
}

/// The material of a row, its code after it; None if the row is no material's.
pub fn material_of_row(row: &Row) -> Result<Option<Material>, TableFault>
    ensures { (material : MaterialRecord) → row.now ≡ listed_material material
        → IfOk result (λ read. read ≡ Some material) }
{
    if !may_be_material(row) {
        return Ok(None);
    }
    let material = Material::read(row)?;
    Ok(Some(material))
}

/// The demand of a row, its number after it; None if the row is no demand's.
pub fn demand_of_row(row: &Row) -> Result<Option<Demand>, TableFault>
    ensures { (demand : DemandRecord) → row.now ≡ listed_demand demand
        → IfOk result (λ read. read ≡ Some demand) }
{
    if !may_be_demand(row) {
        return Ok(None);
    }
    let demand = Demand::read(row)?;
    Ok(Some(demand))
}

// What is said of an order, its code after its columns.
fn read_listed_note(row: &Row) -> Result<OrderNote, TableFault>
    ensures { (note : NoteRecord) → row.now ≡ listed_note note
        → IfOk result (λ read. read ≡ note) }
{
    let order = code_in(row, 2)?;
    read_note(order, row)
}

/// What is said of an order, out of its row, its code after it; None if the row is none of those.
pub fn note_of_row(row: &Row) -> Result<Option<OrderNote>, TableFault>
    ensures { (note : NoteRecord) → row.now ≡ listed_note note
        → IfOk result (λ read. read ≡ Some note) }
{
    if !may_be_note(row) {
        return Ok(None);
    }
    let note = read_listed_note(row)?;
    Ok(Some(note))
}

// The terminal that has begun a job, the job's number after its columns.
fn read_listed_begun(row: &Row) -> Result<JobBegin, TableFault>
    ensures { (begun : BeginRecord) → row.now ≡ listed_begun begun
        → IfOk result (λ read. read ≡ begun) }
{
    let job = number_in(row, 1)?;
    read_begun(job, row)
}

/// The terminal that has begun a job, out of its row, its number after it; None if the row is none of those.
pub fn begun_of_row(row: &Row) -> Result<Option<JobBegin>, TableFault>
    ensures { (begun : BeginRecord) → row.now ≡ listed_begun begun
        → IfOk result (λ read. read ≡ Some begun) }
{
    if !may_be_begun(row) {
        return Ok(None);
    }
    let begun = read_listed_begun(row)?;
    Ok(Some(begun))
}

/// A job as its row has it, without its plan.
#[derive(Clone, Copy, Debug, PartialEq, Eq)]
pub struct StoredJob {
    pub number: u32,
    pub part: PartName,
    pub state: JobState,
}

fn job_state_of(number: u32) -> Option<JobState>
    ensures { (state : JobStateOf) → number ≡ job_state_number state → result ≡ Some state }
{
    match number {
        0 => Some(JobState::Waiting),
        1 => Some(JobState::Done),
        2 => Some(JobState::Broken),
        3 => Some(JobState::Released),
        4 => Some(JobState::Undone),
        _ => None,
    }
}

/// The job of a row, its number after it, without its plan; None if the row is no job's.
pub fn job_of_row(row: &Row) -> Result<Option<StoredJob>, TableFault>
    ensures { (job : JobRecord) → row.now ≡ listed_job job
        → IfOk result (λ read. read ≡ Some (stored_job job)) }
{
    if !may_be_job(row) {
        return Ok(None);
    }
    let part = name_in(row, 0)?;
    let state = number_in(row, 3)?;
    let number = number_in(row, 4)?;
    match job_state_of(state) {
        Some(state) => Ok(Some(StoredJob {
            number,
            part,
            state,
        })),
        None => Ok(None),
    }
}

// No plan, unless memory ran out.
fn no_plan(cause: Cause) -> Result<Option<Plan>, TableFault>
    ensures { cause ≡ NoMemory → IfOk result (λ _. ⊥) }
{
    if cause == Cause::NoMemory {
        Err(TableFault::NoMemory)
    } else {
        Ok(None)
    }
}

// The plan that a text spells on a unit; None if it spells none.
fn plan_of_text(
    alloc: Global,
    text: &str,
    size: Size,
    kerf: u32,
) -> Result<Option<Plan>, TableFault>
    requires { kerf ≤ MAX_KERF }
    ensures { (plan : Pattern) → IsPlan plan → text.now ≡ text_of plan.tree → plan.w ≡ size.w
        → plan.h ≡ size.h → plan.kerf ≡ kerf → IfOk result (λ read. read ≡ Some plan) }
{
    match Plan::read(alloc, text, size, kerf) {
        Ok(plan) => Ok(Some(plan)),
        Err(fault) => no_plan(fault.cause),
    }
}

/// The plan of a job's row, on a unit of this size and under this kerf; None if the row has none.
pub fn plan_of_row(
    alloc: Global,
    row: &Row,
    size: Size,
    kerf: u32,
) -> Result<Option<Plan>, TableFault>
    requires { kerf ≤ MAX_KERF }
    ensures { (plan : Pattern) → IsPlan plan → HasValue row.now 2 (Word (text_of plan.tree))
        → plan.w ≡ size.w → plan.h ≡ size.h → plan.kerf ≡ kerf
        → IfOk result (λ read. read ≡ Some plan) }
{
    match row.get_ref(2) {
        Ok(ValueRef::Text(bytes)) => match str::from_utf8(bytes) {
            Ok(text) => plan_of_text(alloc, text, size, kerf),
            Err(_) => Err(TableFault::Store),
        },
        Ok(ValueRef::Null) => Ok(None),
        Ok(ValueRef::Int(_)) => Ok(None),
        Ok(ValueRef::Real(_)) => Ok(None),
        Ok(ValueRef::Blob(_)) => Ok(None),
        Err(_) => Ok(None),
    }
}

// ---- the keys of rows that stand for no value

/// The key of a material's row.
pub fn material_key_of(row: &Row) -> NoRow {
    NoRow::Material(code_in(row, 4).ok())
}

/// The key of a job's row.
pub fn job_key_of(row: &Row) -> NoRow {
    NoRow::Job(int_in(row, 4))
}

/// The key of the row of what is said of an order.
pub fn note_key_of(row: &Row) -> NoRow {
    NoRow::Note(code_in(row, 2).ok())
}

/// The key of the row of a terminal that has begun a job.
pub fn begun_key_of(row: &Row) -> NoRow {
    NoRow::Begun(int_in(row, 1))
}

/// The key of a demand's row.
pub fn demand_key_of(row: &Row) -> NoRow {
    NoRow::Demand(int_in(row, 10))
}
