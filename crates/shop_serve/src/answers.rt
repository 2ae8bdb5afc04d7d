//! Makes something of a request's bytes: its route's answer, the site's own, a query to be searched, or a backup to be
//! made.

ghost use Rattle.std.specs.Prelude.{◌≡◌, ◌≢◌, ◌⊎◌, ◌<◌, ◌++◌, ℕ, Result, length, IfErr, IfOk, IfSome, None, Ok, Option, Some, true, [], string_bytes, decimal};
ghost use Rattle.shop_records.specs.declared.refusals.Refusal.{Refusal as RefusalOf};
ghost use Rattle.shop_request.specs.Guards.{HasVerdict};
ghost use Rattle.shop_request.specs.declared.guards.Verdict.TheVariants as verdict;
ghost use Rattle.shop_request.specs.declared.faults.RequestFault.TheVariants as faults;
ghost use Rattle.shop_wire.specs.AnswerBytes.{answer_bytes, backup_answer};
ghost use Rattle.shop_request.specs.Reading.{IsHeadIn};
ghost use Rattle.shop_request.specs.Requests.{parse_of};
ghost use Rattle.shop_serve.specs.Making.{IsMadeMeanwhile, IsNext};
ghost use Rattle.shop_serve.specs.Serving.{HandlesRequestAt, HasServed, IsAskedFor, IsCounted, asks_backup, asks_message};
ghost use Rattle.shop_serve.specs.Times.{Copies, ReportsNone};
ghost use Rattle.shop_serve.specs.Sites.{health_bytes, health_text, is_health, is_routed, json_bytes, own_bytes, page_bytes, page_fields, page_start};

use crate::clocks::ServerClock;
use crate::sites::Site;
use shop_book::{Book, BookFault};
use shop_planning::PlanTask;
use shop_request::{Head, Inbound, Route, Verdict, inbound_of};
use shop_rules::Refusal;
use shop_text::{Failed, Sink};
use shop_wire::{backup_answer, begin_inbound};
use std::alloc::{AllocError, Global};

const FORBIDDEN: &[u8] =
    b"HTTP/1.1 403 Forbidden\r\nContent-Length: 0\r\nConnection: close\r\n\r\n";

const OTHER_RUN: &[u8] =
    b"HTTP/1.1 412 Precondition Failed\r\nContent-Length: 0\r\nConnection: close\r\n\r\n";

const ONLY_GET: &[u8] =
    b"HTTP/1.1 405 Method Not Allowed\r\nAllow: GET\r\nContent-Length: 0\r\nConnection: close\r\n\r\n";

const NOT_FOUND: &[u8] =
    b"HTTP/1.1 404 Not Found\r\nContent-Length: 0\r\nConnection: close\r\n\r\n";

const PAGE_START: &str =
    "HTTP/1.1 200 OK\r\nContent-Type: text/html; charset=utf-8\r\nContent-Length: ";

const PAGE_FIELDS: &str =
    "\r\nContent-Security-Policy: default-src 'none'; script-src 'unsafe-inline'; style-src 'unsafe-inline'; img-src data:; connect-src 'self'; base-uri 'none'; form-action 'none'; frame-ancestors 'none'\r\nX-Content-Type-Options: nosniff\r\nCache-Control: no-cache\r\nConnection: close\r\n\r\n";

const JSON_START: &str = "HTTP/1.1 200 OK\r\nContent-Type: application/json\r\nContent-Length: ";

const JSON_FIELDS: &str = "\r\nConnection: close\r\n\r\n";

/// What a request leads to: its whole answer, or a query to be searched.
#[derive(Drop)]
pub(crate) enum Made {
    Answer(Vec<u8>),
    PlanTask(PlanTask),
}

/// What comes next for a request: its result is there, or a backup has to be made.
#[derive(Drop)]
pub(crate) enum Next {
    Made(Made),
    Backup,
}

// An answer, as it is made.
#[derive(Drop)]
struct Answer {
    bytes: Vec<u8>,
    failures: u64,
}

impl Sink for Answer {
    ghost use Rattle.std.specs.Prelude.{Some};

    ghost held = { λ answer. Some answer.bytes.items };

    ghost failed = { λ answer. answer.failures };

    fn write(&mut self, bytes: &[u8]) -> Result<usize, Failed> {
        match self.bytes.extend_from_slice(bytes) {
            Ok(()) => Ok(bytes.len()),
            Err(_) => {
                self.failures = self.failures.saturating_add(1);
                Err(Failed)
            }
        }
    }

    fn failures(&self) -> u64 {
        self.failures
    }
}

// Whether a backup is asked for.
fn asks_backup(inbound: &Inbound) -> bool
    ensures { result ≡ asks_backup (parse_of inbound.now) }
{
    match inbound {
        Inbound::Asks(route, _) => matches!(route, Route::Backup),
        _ => false,
    }
}

// Whether a message came.
fn asks_message(inbound: &Inbound) -> bool
    ensures { result ≡ asks_message (parse_of inbound.now) }
{
    match inbound {
        Inbound::Asks(route, _) => matches!(route, Route::Message),
        _ => false,
    }
}

// Serves the bytes that came at their route, and gives the whole answer, or begins their query. A message is given this time.
// A backup that they ask for is still to be made.
fn routed_answer<B: Book>(
    alloc: Global,
    site: &Site,
    head: &Head,
    received: &[u8],
    at: u64,
    book: &mut B,
) -> Option<Next>
    requires some { 0 < length received.now }
    requires head { IsHeadIn received.now head.now }
    requires goes { HasVerdict site.now.guard received.now verdict.Routed }
    ensures made { IfSome result (IsNext site.now B.Book book.old book.new received.now) }
    ensures timed { HandlesRequestAt site.now B.Book book.old book.new at received.now }
    ensures step { HasServed site.now B.Book book.old book.new 1 }
    ensures clean_disk { B.has_clean_disk book.new → B.has_clean_disk book.old }
{
    let inbound = inbound_of(head, received);
    if asks_backup(&inbound) {
        return Some(Next::Backup);
    }
    let mut sink = Answer {
        bytes: Vec::new(alloc),
        failures: 0,
    };
    match begin_inbound(alloc, &inbound, &mut sink, book, at) {
        Ok(None) => Some(Next::Made(Made::Answer(sink.bytes))),
        Ok(Some(task)) => Some(Next::Made(Made::PlanTask(task))),
        Err(_) => None,
    }
}

// The text that a page's answer has before and after its length.
fn page_head(alloc: Global, length: usize) -> Result<String, AllocError>
    ensures { IfOk result (λ text. string_bytes text ≡ page_start ++ decimal length
        ++ page_fields) }
{
    format!(in alloc; "{PAGE_START}{length}{PAGE_FIELDS}")
}

// The answer that is the page.
fn page_answer(alloc: Global, page: &[u8]) -> Result<Vec<u8>, AllocError>
    ensures { IfOk result (λ answer. answer.items ≡ page_bytes page.now) }
{
    let head = page_head(alloc, page.len())?;
    let mut bytes = Vec::from_slice(alloc, head.as_bytes())?;
    bytes.extend_from_slice(page)?;
    Ok(bytes)
}

// The answer that is a text of JSON.
fn json_answer(alloc: Global, text: &str) -> Result<String, AllocError>
    ensures { IfOk result (λ answer. string_bytes answer ≡ json_bytes text.now) }
{
    let length = text.len();
    format!(in alloc; "{JSON_START}{length}{JSON_FIELDS}{text}")
}

// The state of a server whose store is good.
fn health_text(alloc: Global, entries: u64, run: &str, version: &str) -> Result<String, AllocError>
    ensures { IfOk result (λ text. string_bytes text ≡ health_text entries run.now version.now) }
{
    format!(in alloc;
        "{{\"entries\":{entries},\"ok\":\"health\",\"run\":\"{run}\",\"version\":\"{version}\"}}"
    )
}

// The answer that reports the state of a server: how many entries its store has, or that it failed.
fn health_answer(alloc: Global, site: &Site, entries: Option<u64>) -> Result<String, AllocError>
    ensures { IfOk result (λ answer. string_bytes answer ≡ health_bytes site.now entries) }
{
    let Some(entries) = entries else {
        return backup_answer(alloc, Err(Refusal::StoreFault));
    };
    let text = health_text(alloc, entries, site.run.as_str(), site.version.as_str())?;
    json_answer(alloc, text.as_str())
}

// The same, as bytes.
fn health_of(alloc: Global, site: &Site, entries: Option<u64>) -> Result<Vec<u8>, AllocError>
    ensures { IfOk result (λ answer. answer.items ≡ health_bytes site.now entries) }
{
    let answer = health_answer(alloc, site, entries)?;
    Ok(answer.into_bytes())
}

// Whether a request goes to its route.
fn is_routed(verdict: Verdict) -> bool
    ensures { result ≡ is_routed verdict }
{
    matches!(verdict, Verdict::Routed)
}

// Whether the state of the server is asked for.
fn is_health(verdict: Verdict) -> bool
    ensures { result ≡ is_health verdict }
{
    matches!(verdict, Verdict::Health)
}

// What the site answers by itself, where its store has so many entries, or failed.
fn own_answer(
    alloc: Global,
    site: &Site,
    entries: Option<u64>,
    verdict: Verdict,
) -> Result<Vec<u8>, AllocError>
    ensures { IfOk result (λ answer. answer.items ≡ own_bytes site.now entries verdict) }
{
    match verdict {
        Verdict::Routed => Ok(Vec::new(alloc)),
        Verdict::Forbidden => Vec::from_slice(alloc, FORBIDDEN),
        Verdict::OtherRun => Vec::from_slice(alloc, OTHER_RUN),
        Verdict::OnlyGet => Vec::from_slice(alloc, ONLY_GET),
        Verdict::NoBackups => Vec::from_slice(alloc, NOT_FOUND),
        Verdict::Page => page_answer(alloc, &site.page),
        Verdict::Health => health_of(alloc, site, entries),
    }
}

// How many entries a book has; none where its store fails.
fn count_entries<B: Book>(book: &mut B) -> Result<Option<u64>, AllocError>
    ensures ok { IfOk result (IsCounted B.Book book.old book.new) }
    ensures err { IfErr result (λ _. IsCounted B.Book book.old book.new None) }
{
    match book.last_entry() {
        Ok((entries, _)) => Ok(Some(entries)),
        Err(BookFault::NoMemory) => Err(AllocError),
        Err(_) => Ok(None),
    }
}

// How many entries there are, where that is asked for and the store is good.
fn entries_for<B: Book>(
    verdict: Verdict,
    failed: bool,
    book: &mut B,
) -> Result<Option<u64>, AllocError>
    ensures ok { IfOk result (IsAskedFor B.Book book.old book.new verdict) }
    ensures err { IfErr result (λ _. IsAskedFor B.Book book.old book.new verdict None) }
    ensures failed { failed ≡ true → result ≡ Ok None }
{
    if failed || !is_health(verdict) {
        return Ok(None);
    }
    count_entries(book)
}

// What the site answers by itself, as its store failed or not.
fn checked_answer<B: Book>(
    alloc: Global,
    site: &Site,
    failed: bool,
    verdict: Verdict,
    book: &mut B,
) -> Option<Vec<u8>>
    ensures made { IfSome result (λ answer. (entries : Option ℕ)
        × (answer.items ≡ own_bytes site.now entries verdict)
        × IsAskedFor B.Book book.old book.new verdict entries) }
    ensures asked { (entries : Option ℕ) × IsAskedFor B.Book book.old book.new verdict entries }
{
    let Ok(entries) = entries_for(verdict, failed, book) else {
        return None;
    };
    match own_answer(alloc, site, entries, verdict) {
        Ok(answer) => Some(answer),
        Err(_) => None,
    }
}

// Serves the bytes that came, and gives the whole answer, or begins their query. A message is given this time. A backup that
// they ask for is still to be made. If memory runs out there is nothing, though what was asked for may be done.
fn answer_of<B: Book>(
    alloc: Global,
    site: &Site,
    failed: bool,
    head: &Head,
    received: &[u8],
    at: u64,
    book: &mut B,
) -> Option<Next>
    requires some { 0 < length received.now }
    requires head { IsHeadIn received.now head.now }
    ensures made { IfSome result (IsNext site.now B.Book book.old book.new received.now) }
    ensures timed { HandlesRequestAt site.now B.Book book.old book.new at received.now }
    ensures step { HasServed site.now B.Book book.old book.new 1 }
    ensures clean_disk { B.has_clean_disk book.new → B.has_clean_disk book.old }
{
    let verdict = site.guard.check(head, received);
    if is_routed(verdict) {
        return routed_answer(alloc, site, head, received, at, book);
    }
    match checked_answer(alloc, site, failed, verdict, book) {
        Some(answer) => Some(Next::Made(Made::Answer(answer))),
        None => None,
    }
}

// Notes an answer, to a message or to something else.
fn note_made<K: ServerClock>(clock: &mut K, is_message: bool, made: &Made)
    ensures { ReportsNone (K.times clock.old) (K.times clock.new) }
{
    if let Made::Answer(answer) = made {
        clock.note(is_message, answer);
    }
}

// Notes that memory ran out for a backup.
fn note_want<K: ServerClock>(clock: &mut K, outcome: Result<u32, Refusal>, answer: &str)
    ensures { ReportsNone (K.times clock.old) (K.times clock.new) }
{
    if outcome == Err(Refusal::NoMemory) {
        clock.note(false, answer.as_bytes());
    }
}

// Makes a backup, and the answer that reports what came of it.
fn copied_answer<K: ServerClock>(alloc: Global, clock: &mut K) -> Option<Vec<u8>>
    ensures { IfSome result (λ answer. (outcome : Result ℕ RefusalOf)
        × Copies (K.times clock.old) (K.times clock.new) outcome
        × (answer.items ≡ answer_bytes (backup_answer outcome))) }
{
    let outcome = clock.back_up(alloc);
    match backup_answer(alloc, outcome) {
        Ok(answer) => {
            note_want(clock, outcome, answer.as_str());
            Some(answer.into_bytes())
        }
        Err(_) => None,
    }
}

/// Serves the bytes that arrived, by their head: returns the whole answer, or their query, which is to be searched. It
/// makes the backup that they ask for. A message gets the clock's time. If memory runs out it returns nothing, though
/// the request may have been executed.
pub(crate) fn made_of<K: ServerClock, B: Book>(
    alloc: Global,
    site: &Site,
    head: &Head,
    received: &[u8],
    clock: &mut K,
    book: &mut B,
) -> Option<Made>
    requires some { 0 < length received.now }
    requires head { IsHeadIn received.now head.now }
    ensures made { IfSome result (IsMadeMeanwhile site.now B.Book book.old book.new
        (K.times clock.old) (K.times clock.new) received.now) }
    ensures timed { IfSome (K.date clock.old)
        (λ at. HandlesRequestAt site.now B.Book book.old book.new at received.now) }
    ensures step { HasServed site.now B.Book book.old book.new 1 }
    ensures clean_disk { B.has_clean_disk book.new → B.has_clean_disk book.old }
{
    let is_message = asks_message(&inbound_of(head, received));
    let at = clock.second();
    match answer_of(alloc, site, clock.has_failed(), head, received, at, book)? {
        Next::Made(made) => {
            note_made(clock, is_message, &made);
            Some(made)
        }
        Next::Backup => {
            let answer = copied_answer(alloc, clock)?;
            Some(Made::Answer(answer))
        }
    }
}
