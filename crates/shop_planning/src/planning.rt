//! The answer to a `plans` query, in one call.

ghost use Rattle.std.specs.Prelude.{◌≡◌, IfOk};
ghost use Rattle.shop_book.specs.Kept.{Unchanged, OnContent};
ghost use Rattle.shop_planning.specs.Answers.{IsPlansText};
ghost use Rattle.shop_planning.specs.Faults.{CountsRefusal};
ghost use Rattle.shop_planning.specs.Queries.{AnswersPlans};
ghost use Rattle.shop_planning.specs.PlanTasks.{instance_in};

use crate::posing::build_instance;
use crate::task::PlanTask;
use cut_bound::MAX_CALLS;
use shop_book::Book;
use shop_plans::PlansQuery;
use shop_records::{Refusal, Text};
use std::alloc::{AllocError, Global};

// Searches until it is done.
fn step_search(alloc: Global, task: &mut PlanTask) -> Result<(), AllocError>
    ensures { instance_in task.new ≡ instance_in task.old }
{
    for _ in 0..MAX_CALLS {
        let more = task.advance(alloc)?;
        if !more {
            return Ok(());
        }
    }
    Ok(())
}

// The answer to a query, searched to its end.
fn finish_task(alloc: Global, task: PlanTask) -> Result<Text, AllocError>
    ensures { IfOk result (IsPlansText (instance_in task)) }
{
    let mut task = task;
    step_search(alloc, &mut task)?;
    let text = task.report(alloc)?;
    Ok(text)
}

/// The answer to a `plans` query, for whoever waits for it; refused as by `build_instance`.
pub fn plan_all<B: Book>(alloc: Global, book: &mut B, query: &PlansQuery) -> Result<Text, Refusal>
    ensures answer { OnContent B.Book book.old book.new (λ m. AnswersPlans m query.now result) }
    ensures keeps { Unchanged B.Book (CountsRefusal result) book.old book.new }
{
    match build_instance(alloc, book, query) {
        Err(refusal) => Err(refusal),
        Ok(task) => match finish_task(alloc, task) {
            Ok(text) => Ok(text),
            Err(_) => Err(Refusal::NoMemory),
        },
    }
}
