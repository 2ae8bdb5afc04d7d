//! Lists of what stands, is open, waits, was ordered or was made: the first rows, and whether others follow; and the answers on a job
//! and its plan.

ghost use Rattle.std.specs.Prelude.{◌≡◌, ◌≢◌, ◌+◌, ◌<◌, ℕ, List, [], true, None, Some, IfOk, AllPairs, take, map, filter_map, option_map, unwrap_or};
ghost use Rattle.shop_answers.specs.declared.listing.TheConstants.{MAX_LISTED};
ghost use Rattle.shop_records.specs.declared.records.Demand.{Demand as DemandOf};
ghost use Rattle.shop_records.specs.declared.records.Part.{Part as PartOf};
ghost use Rattle.shop_records.specs.declared.refusals.Refusal.TheVariants.{NoMemory, StoreFault};
ghost use Rattle.shop_records.specs.declared.messages.Reply.TheVariants.{Refused, Parts};
ghost use Rattle.shop_records.specs.declared.notes.OrderNote.{OrderNote as NoteOf};
ghost use Rattle.cut_tree.specs.declared.steps.Step.{Step as StepOf};
ghost use Rattle.cut_tree.specs.Stepping.{AreSteps};
ghost use Rattle.shop_records.specs.Content.{Content, of_found, note_at, part_at};
ghost use Rattle.shop_answers.specs.Listing as listing;
ghost use Rattle.shop_records.specs.Lists as lists;

use crate::planning::tree_text;
use cut_measure::{Code, PartName, RowList};
use cut_tree::Step;
use shop_machine::wide;
use shop_records::{
    Demand, DemandRow, DemandRows, Job, JobRow, OrderList, OrderNote, OrderRow, Part, PieceList,
    PieceRow, Refusal, Reply, StepList, StepRow, Text,
};
use std::alloc::{AllocError, Global};

/// The most rows that a list reports of parts, demands or jobs.
pub const MAX_LISTED: usize = 100;

/// A list of entries ends with the one with which so many bytes of messages and replies, as they are kept, are reached.
pub const MAX_LISTED_BYTES: u64 = 1_000_000;

/// Whether others follow the last row of a list that is reported.
pub fn are_more<T>(rows: &[T]) -> bool
    ensures { result ≡ listing.are_more rows.now }
{
    rows.len() > MAX_LISTED
}

/// The first rows of a list, as many as are reported.
pub fn first_reported<T>(rows: &[T]) -> &[T]
    ensures { result.now ≡ listing.first_reported rows.now }
{
    rows.get(..MAX_LISTED).unwrap_or(rows)
}

// The same in a list of its own.
fn reported_rows<T: Copy + Drop>(alloc: Global, rows: &[T]) -> Result<RowList<T>, AllocError>
    ensures { IfOk result (λ reported. reported ≡ listing.first_reported rows.now) }
{
    let mut reported = RowList::new(alloc);
    for row in first_reported(rows) {
        reported.push(*row)?;
    }
    Ok(reported)
}

/// The answer to a query for the parts of a material that is there, from the first that are listed: all, or one more than
/// are reported. Refused `NoMemory` alone.
pub fn answer_parts(alloc: Global, material: Code, rows: &[Part]) -> Reply
    ensures answer { (parts : List PartOf) → rows.now ≡ take (MAX_LISTED + 1) parts
        → result ≢ Refused NoMemory
        → result ≡ Parts material (listing.are_more parts) (listing.first_reported parts) }
    ensures store { result ≢ Refused StoreFault }
{
    match reported_rows(alloc, rows) {
        Ok(parts) => Reply::Parts {
            material,
            more: are_more(rows),
            parts,
        },
        Err(_) => Reply::Refused(Refusal::NoMemory),
    }
}

/// How a demand is reported, with the day on which its order is due.
pub fn demand_row(demand: &Demand, due: u32) -> DemandRow
    ensures { (m : Content) → lists.due_of m demand.now.order ≡ due
        → result ≡ lists.demand_row m demand.now }
{
    DemandRow {
        demand: *demand,
        due,
    }
}

/// The answer to a query for open demands, from the first that are listed: all, or one more than are reported; and from the rows
/// of those that are reported.
pub fn answer_demands(rows: &[Demand], demands: DemandRows) -> Reply
    ensures answer { (m : Content) (all : List DemandOf) → rows.now ≡ take (MAX_LISTED + 1) all
        → demands ≡ map (lists.demand_row m) (listing.first_reported rows.now)
        → result ≡ listing.reported_demands m true all }
    ensures store { result ≢ Refused StoreFault }
{
    Reply::Demands {
        demands,
        more: are_more(rows),
    }
}

/// How a waiting job is reported in a list: the terminal that has begun it, the day on which it is due, its number, the name of its
/// part, how many cuts its plan has, and the part's row.
pub fn job_row(begun: u32, due: u32, job: u32, name: PartName, cuts: u32, part: &Part) -> JobRow
    ensures { result ≡ listing.row_of begun due job name cuts part.now }
{
    JobRow {
        begun,
        cuts,
        due,
        h: part.size.h(),
        job,
        material: part.material,
        part: name,
        w: part.size.w(),
    }
}

// A sum with one number more, or the greatest number of 64 bits where it is greater.
fn added(sum: u64, more: u32) -> u64
    ensures { listing.IsAdded sum more result }
{
    sum.saturating_add(wide(more))
}

// The pieces of all lines of an order that are made, reserved and wanted.
#[derive(Clone, Copy)]
struct LineSums {
    made: u64,
    reserved: u64,
    wanted: u64,
}

// The sums with one line more.
fn with_line(sums: LineSums, line: &Demand) -> LineSums
    ensures { listing.IsWithLine sums line.now result }
{
    let _place = wide(line.line);
    LineSums {
        made: added(sums.made, line.made),
        reserved: added(sums.reserved, line.reserved),
        wanted: added(sums.wanted, line.wanted),
    }
}

// The sums over an order's lines. Where they rise, 64 bits hold each sum.
fn line_sums(lines: &[Demand]) -> LineSums
    ensures { AllPairs (λ (a b : DemandOf). a.line < b.line) lines.now
        → listing.AreSums lines.now result }
{
    let mut sums = LineSums {
        made: 0,
        reserved: 0,
        wanted: 0,
    };
    for line in lines {
        sums = with_line(sums, line);
    }
    sums
}

// The day and the text of what is said of an order: none, and an empty text, where nothing is.
fn said(alloc: Global, note: Option<OrderNote>) -> (u32, Text)
    ensures due { result.0 ≡ of_found (λ (row : NoteOf). row.due) note }
    ensures text { result.1 ≡ unwrap_or (option_map (λ (row : NoteOf). row.text) note) [] }
{
    match note {
        Some(row) => {
            let OrderNote { due, text, .. } = row;
            (due, text)
        }
        None => (0, Text::of(String::new(alloc))),
    }
}

/// How an order is reported, from what is said of it and from all its lines. Where they rise, 64 bits hold each sum.
pub fn order_row(alloc: Global, order: Code, note: Option<OrderNote>, lines: &[Demand]) -> OrderRow
    ensures { (m : Content) → note_at m order ≡ note
        → AllPairs (λ (a b : DemandOf). a.line < b.line) lines.now
        → result ≡ lists.order_row m order lines.now }
{
    let (due, text) = said(alloc, note);
    let LineSums {
        made,
        reserved,
        wanted,
    } = line_sums(lines);
    OrderRow {
        due,
        lines: lines.len() as u64,
        made,
        order,
        reserved,
        text,
        wanted,
    }
}

/// The answer to a query for orders, from the codes of the first that are listed: all, or one more than are reported; and from
/// the rows of those that are reported.
pub fn answer_orders(codes: &[Code], orders: OrderList) -> Reply
    ensures answer { (m : Content) (all : List (List ℕ)) → codes.now ≡ take (MAX_LISTED + 1) all
        → listing.AreOrderRows m (listing.first_reported codes.now) orders
        → listing.IsOrdersAnswer m all result }
    ensures store { result ≢ Refused StoreFault }
{
    Reply::Orders {
        more: are_more(codes),
        orders,
    }
}

/// The answer to a query for a job, from its row and its part's, and the terminal that has begun it. Refused `NoMemory` alone.
pub fn answer_job(alloc: Global, job: &Job, part: &Part, begun: u32) -> Reply
    ensures answer { (m : Content) → lists.begun_by m job.now.act ≡ begun
        → result ≢ Refused NoMemory
        → result ≡ listing.reported_job m (Some (job.now, part.now)) }
    ensures store { result ≢ Refused StoreFault }
{
    match tree_text(alloc, &job.plan) {
        Ok(tree) => Reply::Job {
            begun,
            cuts: job.plan.cuts(),
            h: part.size.h(),
            job: job.act,
            kerf: job.kerf,
            material: part.material,
            part: job.part,
            state: job.state,
            tree,
            w: part.size.w(),
        },
        Err(_) => Reply::Refused(Refusal::NoMemory),
    }
}

/// How a piece of a demand is reported that was made at this time.
pub fn piece_row(part: &Part, demand: &Demand, at: u64) -> PieceRow
    ensures { result ≡ listing.reported_piece part.now demand.now at }
{
    PieceRow {
        at,
        batch: part.batch,
        demand: demand.number,
        h: part.size.h(),
        line: demand.line,
        material: part.material,
        order: demand.order,
        part: part.name,
        root: part.root,
        w: part.size.w(),
    }
}

/// The answer to a query for pieces, from the first that are listed: all, or one more than are reported; and from the rows of those
/// that are reported.
pub fn answer_pieces(rows: &[Part], pieces: PieceList) -> Reply
    ensures answer { (m : Content) (all : List PartOf) → rows.now ≡ take (MAX_LISTED + 1) all
        → pieces ≡ filter_map (lists.piece_row m) (listing.first_reported rows.now)
        → result ≡ listing.reported_pieces m None all }
    ensures store { result ≢ Refused StoreFault }
{
    Reply::Pieces {
        more: are_more(rows),
        pieces,
    }
}

/// How a node of a job's plan is reported: with its demand, where it is a piece whose demand is there, and with the part that has
/// the job's and the node's number, where there is one.
pub fn step_row(step: Step, demand: Option<Demand>, part: Option<Part>) -> StepRow
    ensures { (m : Content) (job : ℕ) → lists.demand_at_node m step.what ≡ demand
        → part_at m (record { act = job; node = step.node }) ≡ part
        → result ≡ lists.step_row m job step }
{
    let (line, order) = match demand {
        Some(demand) => (demand.line, Some(demand.order)),
        None => (0, None),
    };
    let (part, state) = match part {
        Some(part) => (Some(part.name), Some(part.state.word())),
        None => (None, None),
    };
    StepRow {
        step,
        line,
        order,
        part,
        state,
    }
}

/// The answer to a query for the nodes of a job's plan, from the job and its part, and from the rows of all nodes.
pub fn answer_steps(job: &Job, part: &Part, steps: StepList) -> Reply
    ensures answer { (m : Content) (nodes : List StepOf)
        → AreSteps job.now.plan.tree job.now.plan.w job.now.plan.h job.now.plan.kerf nodes
        → steps ≡ map (lists.step_row m job.now.act) nodes
        → listing.IsStepsAnswer m (Some (job.now, part.now)) result }
    ensures store { result ≢ Refused StoreFault }
{
    Reply::Steps {
        job: job.act,
        kerf: job.kerf,
        material: part.material,
        part: job.part,
        state: job.state,
        steps,
    }
}
