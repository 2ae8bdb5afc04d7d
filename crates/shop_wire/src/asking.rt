//! The response to a request: its route's message, query, plans, ticket or report, done over a book.

ghost use Rattle.std.specs.Prelude.{◌≡◌, ◌⊎◌, ◌∷◌, [], Some, None, IfSome};
ghost use Rattle.shop_records.specs.declared.messages.Reply.TheVariants.{Refused};
ghost use Rattle.shop_records.specs.declared.refusals.Refusal.TheVariants.{StoreFault};
ghost use Rattle.shop_records.specs.WellFormed.{IsWellFormed};
ghost use Rattle.shop_forms.specs.Forms.{json_texts};
ghost use Rattle.shop_book.specs.Kept.{Unchanged, OnContent};
ghost use Rattle.shop_desk.specs.Faults.{CountsReply, CountsUp, StoreFailed};
ghost use Rattle.shop_request.specs.Requests.{asking};
ghost use Rattle.shop_request.specs.declared.routes.Route.TheVariants.{Message as AtMessage, Ticket as AtTicket, Yield as AtYield};
ghost use Rattle.shop_wire.specs.AnswerBytes.{replied};
ghost use Rattle.shop_wire.specs.Replays.{line_message};
ghost use Rattle.shop_wire.specs.Serves.{AskStep, HandlesInputAt, HasServedInput, KeepsElse, asked_at, body_query, code_at, is_of, name_at, path_query, text_at};
ghost use Rattle.shop_wire.specs.Responses.{HasPrintedText, IsRead, PrintsCounted, response_of};

use crate::answers::value_in;
use crate::paths::{
    batch_pieces_at, demands_at, job_story_at, number_before, number_in, order_pieces_at,
    order_story_at, part_story_at, parts_at, terminal_in, unit_pieces_at,
};
use crate::plans::body_reported;
use crate::reported::{Reported, refused, reported_of};
use shop_book::Book;
use shop_desk::{ask, handle_with_text_at};
use shop_request::Route;
use shop_rules::{
    Code, Message, PartName, PieceSource, Query, Refusal, Reply, Text, read_message, read_query,
};
use shop_text::{report_text, ticket_text};
use std::alloc::Global;
use std::str;

// The message that a body is.
fn message_in(alloc: Global, body: &[u8]) -> Result<Message, Refusal>
    ensures { IsRead (λ message. message) result (line_message body.now) }
{
    let value = value_in(alloc, body)?;
    match read_message(alloc, &value) {
        Ok(message) => Ok(message),
        Err(refusal) => match refusal {
            Refusal::NoMemory => Err(Refusal::NoMemory),
            _ => Err(Refusal::BadMessage),
        },
    }
}

// The reply to a body as a message that is given this time, and its text, where it was written to be kept.
fn message_reply<B: Book>(
    alloc: Global,
    book: &mut B,
    body: &[u8],
    at: u64,
) -> (Reply, Option<Text>)
    ensures served { OnContent B.Book book.old book.new
        (λ m. IsWellFormed json_texts m
        → HasServedInput B.Book book.old book.new m (asking AtMessage body.now) (replied result.0)) }
    ensures stays { KeepsElse B.Book book.old book.new (asking AtMessage body.now) (replied result.0) }
    ensures timed { HandlesInputAt B.Book book.old book.new at (asking AtMessage body.now) }
    ensures reported { IfSome result.1 (λ text. text ≡ json_texts.of_reply result.0) }
    ensures clean_disk { B.has_clean_disk book.new → B.has_clean_disk book.old }
    ensures failures { CountsUp (B.failed book.old) (B.failed book.new) }
{
    match message_in(alloc, body) {
        Ok(message) => handle_with_text_at(alloc, book, &message, at),
        Err(refusal) => (Reply::Refused(refusal), None),
    }
}

// The response to a body as a message that is given this time.
fn message_reported<B: Book>(alloc: Global, book: &mut B, body: &[u8], at: u64) -> Reported
    ensures served { OnContent B.Book book.old book.new
        (λ m. IsWellFormed json_texts m
        → HasServedInput B.Book book.old book.new m (asking AtMessage body.now) (response_of result)) }
    ensures stays { KeepsElse B.Book book.old book.new (asking AtMessage body.now) (response_of result) }
    ensures timed { HandlesInputAt B.Book book.old book.new at (asking AtMessage body.now) }
    ensures printed { HasPrintedText result }
    ensures clean_disk { B.has_clean_disk book.new → B.has_clean_disk book.old }
    ensures failures { CountsUp (B.failed book.old) (B.failed book.new) }
{
    let (reply, text) = message_reply(alloc, book, body, at);
    Reported::Reply(reply, text)
}

// Whether a query is the one of a route.
fn is_of(route: Route, query: &Query) -> bool
    ensures { result ≡ is_of route query.now }
{
    match query {
        Query::Plan { .. } => matches!(route, Route::Plan),
        Query::Bound { .. } => matches!(route, Route::Bound),
        _ => false,
    }
}

// The query of a body, where it is the route's.
fn query_in(alloc: Global, route: Route, body: &[u8]) -> Result<Query, Refusal>
    ensures { IsRead (λ query. query) result (body_query route body.now) }
{
    let value = value_in(alloc, body)?;
    let query = read_query(alloc, &value)?;
    if !is_of(route, &query) {
        return Err(Refusal::BadMessage);
    }
    Ok(query)
}

// The code that a path says.
fn code_in(part: &[u8]) -> Option<Code>
    ensures { result ≡ code_at part.now }
{
    match str::from_utf8(part) {
        Ok(text) => Code::read(text),
        Err(_) => None,
    }
}

// The part that a path names.
fn name_in(part: &[u8]) -> Option<PartName>
    ensures { result ≡ name_at part.now }
{
    match str::from_utf8(part) {
        Ok(text) => PartName::read(text),
        Err(_) => None,
    }
}

// The query that a path says.
fn query_at(route: Route, part: &[u8]) -> Option<Query>
    ensures { result ≡ path_query route part.now }
{
    match route {
        Route::Totals => code_in(part).map(|material| Query::Totals { material }),
        Route::Rack => code_in(part).map(|material| Query::Rack { material }),
        Route::Trace => name_in(part).map(|part| Query::Trace { part }),
        Route::Demand => number_in(part).map(|demand| Query::Demand { demand }),
        Route::Materials => Some(Query::Materials),
        Route::Parts => code_in(part).map(|material| Query::Parts {
            material,
            after: None,
        }),
        Route::PartsAfter => parts_at(part),
        Route::Demands => number_before(part).map(|after| Query::Demands {
            after,
            material: None,
        }),
        Route::DemandsOf => demands_at(part),
        Route::Orders => Some(Query::Orders { after: None }),
        Route::OrdersAfter => code_in(part).map(|order| Query::Orders { after: Some(order) }),
        Route::OrderLines => code_in(part).map(|order| Query::Lines { order }),
        Route::Jobs => number_before(part).map(|after| Query::Jobs { after }),
        Route::Job => number_in(part).map(|job| Query::Job { job }),
        Route::Terminal => terminal_in(part).map(|terminal| Query::Terminal { terminal }),
        Route::Shop => Some(Query::Shop),
        Route::History => number_before(part).map(|after| Query::History { after }),
        Route::OrderStory => order_story_at(part),
        Route::JobStory => job_story_at(part),
        Route::PartStory => part_story_at(part),
        Route::OrderPieces => code_in(part).map(|order| Query::Pieces {
            of: PieceSource::Order(order),
            after: None,
        }),
        Route::OrderPiecesAfter => order_pieces_at(part),
        Route::BatchPieces => code_in(part).map(|batch| Query::Pieces {
            of: PieceSource::Batch(batch),
            after: None,
        }),
        Route::BatchPiecesAfter => batch_pieces_at(part),
        Route::UnitPieces => name_in(part).map(|unit| Query::Pieces {
            of: PieceSource::Unit(unit),
            after: None,
        }),
        Route::UnitPiecesAfter => unit_pieces_at(part),
        Route::Steps => number_in(part).map(|job| Query::Steps { job }),
        _ => None,
    }
}

// What a request asks.
fn asked(alloc: Global, route: Route, text: &[u8]) -> Result<Query, Refusal>
    ensures { IsRead (λ query. query) result (asked_at route text.now) }
{
    if route.takes_body() {
        return query_in(alloc, route, text);
    }
    match query_at(route, text) {
        Some(query) => Ok(query),
        None => Err(Refusal::BadMessage),
    }
}

// The reply to what a request asks for.
fn ask_reply<B: Book>(alloc: Global, book: &mut B, route: Route, text: &[u8]) -> Reply
    ensures answer { OnContent B.Book book.old book.new
        (λ m. AskStep m (asked_at route text.now) result m) }
    ensures keeps { Unchanged B.Book (CountsReply result) book.old book.new }
    ensures store_fault { result ≡ Refused StoreFault
        → StoreFailed (B.failed book.old) (B.failed book.new) }
{
    match asked(alloc, route, text) {
        Ok(query) => ask(alloc, book, &query),
        Err(refusal) => Reply::Refused(refusal),
    }
}

// The ticket that a path asks for.
fn ticket_reported<B: Book>(alloc: Global, book: &mut B, part: &[u8]) -> Reported
    ensures answer { OnContent B.Book book.old book.new
        (λ m. PrintsCounted (text_at m AtTicket part.now) (response_of result) (B.failed book.old)
        (B.failed book.new)) }
    ensures printed { HasPrintedText result }
    ensures keeps { Unchanged B.Book CountsUp book.old book.new }
{
    match number_in(part) {
        Some(job) => reported_of(ticket_text(alloc, book, job)),
        None => refused(Refusal::BadMessage),
    }
}

// The yield report that a path asks for.
fn yield_reported<B: Book>(alloc: Global, book: &mut B, part: &[u8]) -> Reported
    ensures answer { OnContent B.Book book.old book.new
        (λ m. PrintsCounted (text_at m AtYield part.now) (response_of result) (B.failed book.old)
        (B.failed book.new)) }
    ensures printed { HasPrintedText result }
    ensures keeps { Unchanged B.Book CountsUp book.old book.new }
{
    match code_in(part) {
        Some(material) => reported_of(report_text(alloc, book, material)),
        None => refused(Refusal::BadMessage),
    }
}

/// The response to a request. A message is given this time.
pub(crate) fn respond<B: Book>(
    alloc: Global,
    book: &mut B,
    route: Route,
    text: &[u8],
    at: u64,
) -> Reported
    ensures served { OnContent B.Book book.old book.new
        (λ m. IsWellFormed json_texts m
        → HasServedInput B.Book book.old book.new m (asking route text.now) (response_of result)) }
    ensures stays { KeepsElse B.Book book.old book.new (asking route text.now) (response_of result) }
    ensures timed { HandlesInputAt B.Book book.old book.new at (asking route text.now) }
    ensures printed { HasPrintedText result }
    ensures clean_disk { B.has_clean_disk book.new → B.has_clean_disk book.old }
    ensures failures { CountsUp (B.failed book.old) (B.failed book.new) }
{
    match route {
        Route::Message => message_reported(alloc, book, text, at),
        Route::Plans => body_reported(alloc, book, text),
        Route::Ticket => ticket_reported(alloc, book, text),
        Route::Yield => yield_reported(alloc, book, text),
        _ => Reported::Reply(ask_reply(alloc, book, route, text), None),
    }
}
