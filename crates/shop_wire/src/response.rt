//! The bytes of an answer to a request: its status, its fields and its body.

ghost use Rattle.std.specs.Prelude.{◌≡◌, ◌≤◌, ◌<◌, IfOk, IfSome, Ok, decimal, string_bytes};
ghost use Rattle.shop_wire.specs.AnswerBytes.{answer_bytes, backup_answer, backup_text, fault_answer, fault_fields, fault_status, phrase, printed, refusal_status, replied, reply_answer, status_in, response_answer, text_answer, text_fields, unfound};
ghost use Rattle.shop_wire.specs.Responses.{HasPrintedText, response_of};
ghost use Rattle.shop_records.specs.Messages.{refusal_in};
ghost use Rattle.shop_records.specs.declared.messages.Reply.TheVariants.{Refused};
ghost use Rattle.shop_records.specs.declared.refusals.Refusal.TheVariants.{NoMemory};
ghost use Rattle.shop_request.specs.Routes.{takes_body};
ghost use Rattle.shop_request.specs.declared.routes.Route.TheVariants.{Plans as AtPlans};
ghost use Rattle.shop_forms.specs.Forms.{json_texts};

use crate::reported::{Reported, refused, text_of};
use http::StatusCode;
use shop_request::{RequestFault, Route};
use shop_rules::{Refusal, Reply, Text};
use std::alloc::{AllocError, Global};

// A status by its number.
fn status(number: u16) -> StatusCode
    requires least { 100 ≤ number }
    requires most { number < 1000 }
    ensures { result ≡ number }
{
    match StatusCode::from_u16(number) {
        Ok(status) => status,
        Err(_) => unreachable!(),
    }
}

// What a status says in words.
fn phrase(number: u16) -> &'static str
    ensures { result.now ≡ phrase number }
{
    match number {
        200 => "OK",
        400 => "Bad Request",
        404 => "Not Found",
        405 => "Method Not Allowed",
        409 => "Conflict",
        411 => "Length Required",
        413 => "Content Too Large",
        431 => "Request Header Fields Too Large",
        _ => "Service Unavailable",
    }
}

fn length_text(alloc: Global, length: usize) -> Result<String, AllocError>
    ensures { IfOk result (λ text. string_bytes text ≡ decimal length) }
{
    format!(in alloc; "{length}")
}

#[tactic(auto, unfolding(crate::specs::AnswerBytes::answer_bytes))]
// The bytes of an answer.
fn answer_text(alloc: Global, number: u16, fields: &str, body: &str) -> Result<String, AllocError>
    requires least { 100 ≤ number }
    requires most { number < 1000 }
    ensures { IfOk result (λ text. string_bytes text
        ≡ answer_bytes (record { status = number; fields = fields.now; body = body.now })) }
{
    let length = length_text(alloc, body.len())?;
    let mut text = String::with_capacity(alloc, 256)?;
    text.push_str("HTTP/1.1 ")?;
    text.push_str(status(number).as_str())?;
    text.push_str(" ")?;
    text.push_str(phrase(number))?;
    text.push_str("\r\n")?;
    text.push_str(fields)?;
    text.push_str("Content-Length: ")?;
    text.push_str(length.as_str())?;
    text.push_str("\r\nConnection: close\r\n\r\n")?;
    text.push_str(body)?;
    Ok(text)
}

fn fault_status(fault: RequestFault) -> u16
    ensures value { result ≡ fault_status fault }
    ensures least { 100 ≤ result }
    ensures most { result < 1000 }
{
    match fault {
        RequestFault::BadRequest => 400,
        RequestFault::NotFound => 404,
        RequestFault::OnlyGet | RequestFault::OnlyPost => 405,
        RequestFault::NoLength => 411,
        RequestFault::LargeBody => 413,
        RequestFault::LargeHead => 431,
    }
}

fn fault_fields(fault: RequestFault) -> &'static str
    ensures { result.now ≡ fault_fields fault }
{
    match fault {
        RequestFault::OnlyGet => "Allow: GET\r\n",
        RequestFault::OnlyPost => "Allow: POST\r\n",
        _ => "",
    }
}

// The status of a refusal, where something isn't there.
fn unfound(posted: bool) -> u16
    ensures value { result ≡ unfound posted }
    ensures least { 100 ≤ result }
    ensures most { result < 1000 }
{
    if posted { 409 } else { 404 }
}

fn refusal_status(posted: bool, refusal: Refusal) -> u16
    ensures value { result ≡ refusal_status posted refusal }
    ensures least { 100 ≤ result }
    ensures most { result < 1000 }
{
    match refusal {
        Refusal::BadMessage => 400,
        Refusal::NoMaterial
        | Refusal::NoDemand
        | Refusal::NoOrder
        | Refusal::NoPart
        | Refusal::NotWhole
        | Refusal::NoJob => unfound(posted),
        Refusal::NoMemory | Refusal::StoreFault => 503,
        _ => 409,
    }
}

fn reply_status(route: Route, reply: &Reply) -> u16
    ensures value { result ≡ status_in (takes_body route) (refusal_in reply.now) }
    ensures least { 100 ≤ result }
    ensures most { result < 1000 }
{
    match reply {
        Reply::Refused(refusal) => refusal_status(route.takes_body(), *refusal),
        _ => 200,
    }
}

/// The answer to a fault.
pub(crate) fn fault_text(alloc: Global, fault: RequestFault) -> Result<String, AllocError>
    ensures { IfOk result (λ text. string_bytes text ≡ answer_bytes (fault_answer fault)) }
{
    let text = answer_text(alloc, fault_status(fault), fault_fields(fault), "")?;
    Ok(text)
}

// The answer that reports a reply. What was reported about it is its text.
fn reply_answer_text(
    alloc: Global,
    route: Route,
    reply: &Reply,
    reported: Option<Text>,
) -> Result<String, AllocError>
    requires { IfSome reported (λ text. text ≡ json_texts.of_reply reply.now) }
    ensures { IfOk result (λ text. string_bytes text
        ≡ answer_bytes (reply_answer route reply.now)) }
{
    let body = text_of(alloc, reply, reported)?;
    let text = answer_text(
        alloc,
        reply_status(route, reply),
        "Content-Type: application/json\r\n",
        body.as_str(),
    )?;
    Ok(text)
}

// The field that says what a text is.
fn text_fields(route: Route) -> &'static str
    ensures { result.now ≡ text_fields route }
{
    match route {
        Route::Plans | Route::Backup => "Content-Type: application/json\r\n",
        _ => "Content-Type: text/plain\r\n",
    }
}

// The answer that prints a text.
fn text_answer_text(alloc: Global, route: Route, text: &str) -> Result<String, AllocError>
    ensures { IfOk result (λ whole. string_bytes whole
        ≡ answer_bytes (text_answer route text.now)) }
{
    let text = answer_text(alloc, 200, text_fields(route), text)?;
    Ok(text)
}

/// The answer that reports this.
pub(crate) fn reported_text(
    alloc: Global,
    route: Route,
    reported: Reported,
) -> Result<String, AllocError>
    requires { HasPrintedText reported }
    ensures { IfOk result (λ text. string_bytes text
        ≡ answer_bytes (response_answer route (response_of reported))) }
{
    match reported {
        Reported::Reply(reply, text) => reply_answer_text(alloc, route, &reply, text),
        Reported::Text(text) => text_answer_text(alloc, route, text.as_str()),
    }
}

/// The answer at `/plans` that reports a text: that of an answer to a `plans` query.
pub fn plans_answer(alloc: Global, text: &Text) -> Result<String, AllocError>
    ensures { IfOk result (λ whole. string_bytes whole
        ≡ answer_bytes (response_answer AtPlans (printed text.now))) }
{
    text_answer_text(alloc, Route::Plans, text.as_str())
}

/// The answer at `/plans` that reports lack of memory.
pub fn plans_refused(alloc: Global) -> Result<String, AllocError>
    ensures { IfOk result (λ whole. string_bytes whole
        ≡ answer_bytes (response_answer AtPlans (replied (Refused NoMemory)))) }
{
    reported_text(alloc, Route::Plans, refused(Refusal::NoMemory))
}

// The text that reports a backup's number.
fn backup_text(alloc: Global, number: u32) -> Result<String, AllocError>
    ensures { IfOk result (λ text. string_bytes text ≡ backup_text number) }
{
    format!(in alloc; "{{\"backup\":{number},\"ok\":\"backup\"}}")
}

// The answer that reports a backup's number.
fn number_answer(alloc: Global, number: u32) -> Result<String, AllocError>
    ensures { IfOk result (λ whole. string_bytes whole ≡ answer_bytes (backup_answer (Ok number))) }
{
    let body = backup_text(alloc, number)?;
    text_answer_text(alloc, Route::Backup, body.as_str())
}

/// The answer at `/backup`: the number of a backup that was made, or why none was.
pub fn backup_answer(alloc: Global, made: Result<u32, Refusal>) -> Result<String, AllocError>
    ensures { IfOk result (λ whole. string_bytes whole ≡ answer_bytes (backup_answer made)) }
{
    match made {
        Ok(number) => number_answer(alloc, number),
        Err(refusal) => reported_text(alloc, Route::Backup, refused(refusal)),
    }
}
