//! Answers to the query for the nodes of a job's plan, from a book's rows.

ghost use Rattle.std.specs.Prelude.{◌≡◌, ◌≢◌, List, IfOk, IfSome, Some, map};
ghost use Rattle.cut_measure.specs.Names.{Name};
ghost use Rattle.cut_tree.specs.declared.steps.Step.{Step as StepOf};
ghost use Rattle.cut_tree.specs.Stepping.{AreSteps};
ghost use Rattle.shop_answers.specs.Queries.{Answers};
ghost use Rattle.shop_answers.specs.Listing.{IsStepsAnswer};
ghost use Rattle.shop_records.specs.declared.messages.Query.TheVariants as query;
ghost use Rattle.shop_records.specs.declared.messages.Reply.TheVariants.{Refused};
ghost use Rattle.shop_records.specs.declared.refusals.Refusal.TheVariants.{NoMemory, StoreFault};
ghost use Rattle.shop_records.specs.Lists.{demand_at_node, step_row};
ghost use Rattle.shop_book.specs.Failures.{CountsFailure};
ghost use Rattle.shop_book.specs.Kept.{Unchanged, OnContent};
ghost use Rattle.shop_desk.specs.Faults.{CountsReply};

use crate::listing::job_with_part;
use cut_measure::{MAX_NUMBERS, PartName};
use cut_tree::{Step, Token};
use shop_book::{Book, BookFault};
use shop_rules::{Demand, Job, Part, Refusal, Reply, StepList, StepRow, answer_steps, step_row};
use std::alloc::Global;

// The row of the demand of a node that is a piece.
fn demand_at_node<B: Book>(book: &mut B, what: Token) -> Result<Option<Demand>, BookFault>
    ensures row { OnContent B.Book book.old book.new
        (λ m. IfOk result (λ row. row ≡ demand_at_node m what)) }
    ensures keeps { Unchanged B.Book (CountsFailure result) book.old book.new }
{
    match what {
        Token::Cut(..) | Token::Rest => Ok(None),
        Token::Piece(demand, _) => book.demand(demand),
    }
}

// The name of a node of a job, where the job's number is one.
fn name_at(job: u32, node: u32) -> Option<PartName>
    ensures { IfSome result (λ (name : Name). name ≡ record { act = job; node = node }) }
{
    if job < 1 || job > MAX_NUMBERS {
        return None;
    }
    Some(PartName::new(job, node))
}

// How a node of a job's plan is reported. Where the job's number is none, which no history gives, it is refused as if memory ran
// out.
fn row_of_step<B: Book>(book: &mut B, job: u32, step: Step) -> Result<StepRow, BookFault>
    ensures row { OnContent B.Book book.old book.new
        (λ m. IfOk result (λ row. row ≡ step_row m job step)) }
    ensures keeps { Unchanged B.Book (CountsFailure result) book.old book.new }
{
    let Some(name) = name_at(job, step.node) else {
        return Err(BookFault::NoMemory);
    };
    let demand = demand_at_node(book, step.what)?;
    let part = book.part(name)?;
    Ok(step_row(step, demand, part))
}

// The nodes of a job's plan as they are reported.
fn step_rows<B: Book>(
    alloc: Global,
    book: &mut B,
    job: u32,
    steps: &[Step],
) -> Result<StepList, BookFault>
    ensures rows { OnContent B.Book book.old book.new
        (λ m. IfOk result (λ rows. rows ≡ map (step_row m job) steps.now)) }
    ensures keeps { Unchanged B.Book (CountsFailure result) book.old book.new }
{
    let mut rows = StepList::new(alloc);
    for step in steps {
        let row = row_of_step(book, job, *step)?;
        rows.push(row)?;
    }
    Ok(rows)
}

// All nodes of the plan of a job as they are reported.
fn plan_rows<B: Book>(alloc: Global, book: &mut B, job: &Job) -> Result<StepList, BookFault>
    ensures rows { OnContent B.Book book.old book.new (λ m. IfOk result
        (λ rows. (steps : List StepOf)
        × AreSteps job.now.plan.tree job.now.plan.w job.now.plan.h job.now.plan.kerf steps
        × (rows ≡ map (step_row m job.now.act) steps))) }
    ensures keeps { Unchanged B.Book (CountsFailure result) book.old book.new }
{
    let steps = job.plan.steps(alloc)?;
    let rows = step_rows(alloc, book, job.act, &steps)?;
    Ok(rows)
}

// The nodes of the plan of a job that is there with its part.
fn known_steps<B: Book>(alloc: Global, book: &mut B, job: &Job, part: &Part) -> Reply
    ensures answer { OnContent B.Book book.old book.new
        (λ m. result ≢ Refused NoMemory → result ≢ Refused StoreFault
        → IsStepsAnswer m (Some (job.now, part.now)) result) }
    ensures keeps { Unchanged B.Book (CountsReply result) book.old book.new }
{
    match plan_rows(alloc, book, job) {
        Err(fault) => Reply::Refused(Refusal::from(fault)),
        Ok(rows) => answer_steps(job, part, rows),
    }
}

/// The nodes of a job's plan, and what became of each.
pub fn steps<B: Book>(alloc: Global, book: &mut B, number: u32) -> Reply
    ensures answer { OnContent B.Book book.old book.new
        (λ m. Answers m (query.Steps number) result) }
    ensures keeps { Unchanged B.Book (CountsReply result) book.old book.new }
{
    match job_with_part(alloc, book, number) {
        Err(fault) => Reply::Refused(Refusal::from(fault)),
        Ok(None) => Reply::Refused(Refusal::NoJob),
        Ok(Some((job, part))) => known_steps(alloc, book, &job, &part),
    }
}
