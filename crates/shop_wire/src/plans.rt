//! `plans` queries of a whole order: answered at once, or built for whoever searches them.

ghost use Rattle.std.specs.Prelude.{◌≡◌, ℕ, List, Option, IfErr, IfOk, IfSome};
ghost use Rattle.shop_records.specs.declared.messages.Reply.TheVariants.{Refused};
ghost use Rattle.shop_records.specs.declared.refusals.Refusal.TheVariants.{StoreFault};
ghost use Rattle.shop_records.specs.WellFormed.{IsWellFormed};
ghost use Rattle.shop_forms.specs.Forms.{json_texts};
ghost use Rattle.shop_book.specs.Kept.{OnContent, Unchanged};
ghost use Rattle.shop_desk.specs.Faults.{CountsUp, StoreFailed};
ghost use Rattle.shop_plans.specs.declared.queries.PlansQuery.{PlansQuery as PlansQueryOf};
ghost use Rattle.shop_planning.specs.Faults.{CountsRefusal};
ghost use Rattle.shop_planning.specs.PlanTasks.{instance_in};
ghost use Rattle.shop_request.specs.Requests.{ParsesTo, asking};
ghost use Rattle.shop_request.specs.declared.routes.Route.TheVariants.{Plans as AtPlans};
ghost use Rattle.shop_wire.specs.AnswerBytes.{replied};
ghost use Rattle.shop_wire.specs.Replays.{PlansStep, ReportsPlans};
ghost use Rattle.shop_wire.specs.Serves.{HasServedInput, IsBegun, body_plans};
ghost use Rattle.shop_wire.specs.Responses.{HasPrintedText, IsRead, response_of};

use crate::answers::value_in;
use crate::reported::{Reported, refused};
use shop_book::Book;
use shop_planning::{PlanTask, build_instance, plan_all};
use shop_plans::{PlansQuery, read_plans};
use shop_rules::Refusal;
use std::alloc::Global;

// The answer to a `plans` query.
fn plans_query_reported<B: Book>(alloc: Global, book: &mut B, query: &PlansQuery) -> Reported
    ensures answer { OnContent B.Book book.old book.new
        (λ m. ReportsPlans m query.now (response_of result)) }
    ensures printed { HasPrintedText result }
    ensures keeps { Unchanged B.Book CountsUp book.old book.new }
    ensures store_fault { response_of result ≡ replied (Refused StoreFault)
        → StoreFailed (B.failed book.old) (B.failed book.new) }
{
    match plan_all(alloc, book, query) {
        Ok(text) => Reported::Text(text),
        Err(refusal) => refused(refusal),
    }
}

/// The answer to what was read as a `plans` query.
pub(crate) fn plans_reported<B: Book>(
    alloc: Global,
    book: &mut B,
    asked: Result<PlansQuery, Refusal>,
) -> Reported
    ensures answer { (meant : Option PlansQueryOf) → IsRead (λ query. query) asked meant
        → OnContent B.Book book.old book.new (λ m. PlansStep m meant (response_of result) m) }
    ensures printed { HasPrintedText result }
    ensures keeps { Unchanged B.Book CountsUp book.old book.new }
    ensures store_fault { (meant : Option PlansQueryOf) → IsRead (λ query. query) asked meant
        → response_of result ≡ replied (Refused StoreFault)
        → StoreFailed (B.failed book.old) (B.failed book.new) }
{
    match asked {
        Ok(query) => plans_query_reported(alloc, book, &query),
        Err(refusal) => refused(refusal),
    }
}

// The `plans` query that a body is.
fn plans_in(alloc: Global, body: &[u8]) -> Result<PlansQuery, Refusal>
    ensures { IsRead (λ query. query) result (body_plans body.now) }
{
    let value = value_in(alloc, body)?;
    let query = read_plans(alloc, &value)?;
    Ok(query)
}

/// The response to a body as a `plans` query.
pub(crate) fn body_reported<B: Book>(alloc: Global, book: &mut B, body: &[u8]) -> Reported
    ensures served { OnContent B.Book book.old book.new
        (λ m. IsWellFormed json_texts m
        → HasServedInput B.Book book.old book.new m (asking AtPlans body.now) (response_of result)) }
    ensures stays { OnContent B.Book book.old book.new (λ m. B.holds book.new m) }
    ensures printed { HasPrintedText result }
    ensures clean_disk { B.has_clean_disk book.new → B.has_clean_disk book.old }
    ensures failures { CountsUp (B.failed book.old) (B.failed book.new) }
{
    plans_reported(alloc, book, plans_in(alloc, body))
}

/// What a body asks of a book's content as a `plans` query, or why it is refused.
pub(crate) fn build_body<B: Book>(
    alloc: Global,
    book: &mut B,
    body: &[u8],
) -> Result<PlanTask, Refusal>
    ensures instance { (left : Option (List ℕ))
        → IfSome left (λ input. ParsesTo input (asking AtPlans body.now))
        → IfOk result (λ task. IsBegun B.Book book.old book.new left (instance_in task)) }
    ensures refused { IfErr result
        (λ refusal. OnContent B.Book book.old book.new
        (λ m. IsWellFormed json_texts m
        → HasServedInput B.Book book.old book.new m (asking AtPlans body.now)
        (replied (Refused refusal)))) }
    ensures keeps { Unchanged B.Book (CountsRefusal result) book.old book.new }
{
    match plans_in(alloc, body) {
        Ok(query) => build_instance(alloc, book, &query),
        Err(refusal) => Err(refusal),
    }
}
