//! One request, read from a source, done over a book and answered on a sink.

ghost use Rattle.std.specs.Prelude.{◌≡◌, ◌≢◌, ◌⊎◌, ◌≤◌, ◌+◌, ◌++◌, [], ℕ, List, Option, Ok, Some, None, OnOk, OnErr, Err, IfOk, IfErr, IfSome, string_bytes};
ghost use Rattle.std.specs.Io.KnownBytes.{Appends};
ghost use Rattle.shop_desk.specs.Faults.{CountsUp};
ghost use Rattle.shop_streams.specs.Streams.{HasFailed};
ghost use Rattle.shop_request.specs.Requests.{ParsesTo, asking, most_request_reads, parse_of};
ghost use Rattle.shop_wire.specs.AnswerBytes.{answer_bytes, fault_answer};
ghost use Rattle.shop_planning.specs.PlanTasks.{instance_in};
ghost use Rattle.shop_planning.specs.declared.task.PlanTask.{PlanTask as PlanTaskOf};
ghost use Rattle.shop_request.specs.declared.routes.Route.TheVariants.{Plans as AtPlans};
ghost use Rattle.shop_wire.specs.Serves.{HandlesInputAt, HandlesReadAt, IsBegun, IsServed, IsServedAs};
ghost use Rattle.shop_wire.specs.declared.faults.WireFault.TheVariants.{Read, Write, NoMemory};

use crate::asking::respond;
use crate::faults::WireFault;
use crate::plans::build_body;
use crate::reported::refused;
use crate::response::{fault_text, reported_text};
use shop_book::Book;
use shop_planning::PlanTask;
use shop_request::{Inbound, RequestFault, Route, Routes, StreamFault, read_request};
use shop_text::{Sink, Source, write_all};
use std::alloc::{AllocError, Global};

// Writes a text that was made. After an Err the first of its bytes were written.
fn write_made<W: Sink>(sink: &mut W, text: Result<String, AllocError>) -> Result<(), WireFault>
    ensures ok { OnOk result ((whole : List ℕ) → IfOk text (λ t. string_bytes t ≡ whole)
        → Appends (W.held sink.old) (W.held sink.new) whole) }
    ensures err { OnErr result ((whole : List ℕ) → IfOk text (λ t. string_bytes t ≡ whole)
        → (done : List ℕ) × (rest : List ℕ) × (done ++ rest ≡ whole)
        × Appends (W.held sink.old) (W.held sink.new) done) }
    ensures fault { IfErr result
        (λ fault. (fault ≡ NoMemory) ⊎ (fault ≡ Write)
        × HasFailed (W.failed sink.old) (W.failed sink.new)) }
    ensures worked { OnOk result (W.failed sink.new ≡ W.failed sink.old) }
{
    let Ok(text) = text else {
        return Err(WireFault::NoMemory);
    };
    match write_all(sink, text.as_str().as_bytes()) {
        Ok(()) => Ok(()),
        Err(_) => Err(WireFault::Write),
    }
}

// Answers a fault.
fn answer_fault<W: Sink>(alloc: Global, fault: RequestFault, sink: &mut W) -> Result<(), WireFault>
    ensures ok { OnOk result (Appends (W.held sink.old) (W.held sink.new)
        (answer_bytes (fault_answer fault))) }
    ensures err { OnErr result
        ((done : List ℕ) × (rest : List ℕ) × (done ++ rest ≡ answer_bytes (fault_answer fault))
        × Appends (W.held sink.old) (W.held sink.new) done) }
    ensures fault { IfErr result
        (λ fault. (fault ≡ NoMemory) ⊎ (fault ≡ Write)
        × HasFailed (W.failed sink.old) (W.failed sink.new)) }
    ensures worked { OnOk result (W.failed sink.new ≡ W.failed sink.old) }
{
    write_made(sink, fault_text(alloc, fault))
}

// Answers a request. A message is given this time.
fn answer_request<W: Sink, B: Book>(
    alloc: Global,
    route: Route,
    text: &[u8],
    sink: &mut W,
    book: &mut B,
    at: u64,
) -> Result<(), WireFault>
    ensures ok { OnOk result (IsServedAs B.Book book.old book.new (W.held sink.old)
        (W.held sink.new) (asking route text.now) []) }
    ensures err { OnErr result
        ((unwritten : List ℕ) × IsServedAs B.Book book.old book.new (W.held sink.old)
        (W.held sink.new) (asking route text.now) unwritten) }
    ensures timed { HandlesInputAt B.Book book.old book.new at (asking route text.now) }
    ensures clean_disk { B.has_clean_disk book.new → B.has_clean_disk book.old }
    ensures failures { CountsUp (B.failed book.old) (B.failed book.new) }
    ensures fault { IfErr result
        (λ fault. (fault ≡ NoMemory) ⊎ (fault ≡ Write)
        × HasFailed (W.failed sink.old) (W.failed sink.new)) }
    ensures worked { OnOk result (W.failed sink.new ≡ W.failed sink.old) }
{
    let reported = respond(alloc, book, route, text, at);
    match write_made(sink, reported_text(alloc, route, reported)) {
        Ok(()) => Ok(()),
        Err(fault) => Err(fault),
    }
}

// Answers what was read. A message is given this time.
fn answer_inbound<W: Sink, B: Book>(
    alloc: Global,
    inbound: &Inbound,
    sink: &mut W,
    book: &mut B,
    at: u64,
) -> Result<(), WireFault>
    ensures ok { OnOk result (IsServedAs B.Book book.old book.new (W.held sink.old)
        (W.held sink.new) (parse_of inbound.now) []) }
    ensures err { OnErr result
        ((unwritten : List ℕ) × IsServedAs B.Book book.old book.new (W.held sink.old)
        (W.held sink.new) (parse_of inbound.now) unwritten) }
    ensures timed { HandlesInputAt B.Book book.old book.new at (parse_of inbound.now) }
    ensures clean_disk { B.has_clean_disk book.new → B.has_clean_disk book.old }
    ensures failures { CountsUp (B.failed book.old) (B.failed book.new) }
    ensures fault { IfErr result
        (λ fault. (fault ≡ NoMemory) ⊎ (fault ≡ Write)
        × HasFailed (W.failed sink.old) (W.failed sink.new)) }
    ensures worked { OnOk result (W.failed sink.new ≡ W.failed sink.old) }
{
    match *inbound {
        Inbound::Silence => Ok(()),
        Inbound::Faulty(fault) => answer_fault(alloc, fault, sink),
        Inbound::Asks(route, text) => answer_request(alloc, route, text, sink, book, at),
    }
}

// Reads a request.
fn read_one<'b, S: Source>(
    routes: &Routes,
    source: &mut S,
    received: &'b mut Vec<u8>,
) -> Result<Inbound<'b>, WireFault>
    ensures parsed { IfOk result
        (λ inbound. IfSome (S.left source.old) (λ input. ParsesTo input (parse_of inbound))) }
    ensures fault { IfErr result
        (λ fault. (fault ≡ NoMemory) ⊎ (fault ≡ Read)
        × HasFailed (S.failed source.old) (S.failed source.new)) }
    ensures reads { S.reads source.new ≤ S.reads source.old + most_request_reads }
{
    match read_request(routes, source, received) {
        Ok(inbound) => Ok(inbound),
        Err(StreamFault::Read) => Err(WireFault::Read),
        Err(StreamFault::NoMemory) => Err(WireFault::NoMemory),
    }
}

/// Reads one request, does what it asks for and writes the answer. What the bytes of the source stand for is answered, in
/// whatever pieces they come; where no byte comes nothing is written. A message is given the time `at`, in seconds since
/// 1970-01-01 00:00 UTC, or 0 where none is known. At most 139264 reads are made.
///
/// `Read` where the source failed: then nothing changed, and nothing was written. `Write` where the sink failed and
/// `NoMemory` because memory ran out: then what was asked for may be done, and a first part of the answer was written; a message
/// that is sent again gets the kept reply.
pub fn serve_request<S: Source, W: Sink, B: Book>(
    alloc: Global,
    routes: &Routes,
    source: &mut S,
    sink: &mut W,
    book: &mut B,
    at: u64,
) -> Result<(), WireFault>
    ensures ok { OnOk result (IsServed B.Book book.old book.new (S.left source.old)
        (W.held sink.old) (W.held sink.new) []) }
    ensures err { OnErr result (((book.new ≡ book.old) × (sink.new ≡ sink.old))
        ⊎ ((unwritten : List ℕ) × IsServed B.Book book.old book.new (S.left source.old)
        (W.held sink.old) (W.held sink.new) unwritten)) }
    ensures timed { OnOk result (HandlesReadAt B.Book book.old book.new at (S.left source.old)) }
    ensures clean_disk { B.has_clean_disk book.new → B.has_clean_disk book.old }
    ensures failures { CountsUp (B.failed book.old) (B.failed book.new) }
    ensures reads { S.reads source.new ≤ S.reads source.old + most_request_reads }
    ensures read { result ≡ Err Read → HasFailed (S.failed source.old) (S.failed source.new)
        × (book.new ≡ book.old) × (sink.new ≡ sink.old) }
    ensures write { result ≡ Err Write → HasFailed (W.failed sink.old) (W.failed sink.new) }
    ensures worked { OnOk result (W.failed sink.new ≡ W.failed sink.old) }
{
    let mut received = Vec::new(alloc);
    let inbound = match read_one(routes, source, &mut received) {
        Ok(inbound) => inbound,
        Err(fault) => return Err(fault),
    };
    match answer_inbound(alloc, &inbound, sink, book, at) {
        Ok(()) => Ok(()),
        Err(fault) => Err(fault),
    }
}

// Poses the `plans` query that a body is, or answers its refusal.
fn begin_plans<W: Sink, B: Book>(
    alloc: Global,
    body: &[u8],
    sink: &mut W,
    book: &mut B,
) -> Result<Option<PlanTask>, WireFault>
    ensures begun { (left : Option (List ℕ))
        → IfSome left (λ input. ParsesTo input (asking AtPlans body.now))
        → (task : PlanTaskOf) → result ≡ Ok (Some task)
        → IsBegun B.Book book.old book.new left (instance_in task) × (sink.new ≡ sink.old) }
    ensures answered { result ≡ Ok None
        → IsServedAs B.Book book.old book.new (W.held sink.old) (W.held sink.new)
        (asking AtPlans body.now) [] }
    ensures err { OnErr result
        ((unwritten : List ℕ) × IsServedAs B.Book book.old book.new (W.held sink.old)
        (W.held sink.new) (asking AtPlans body.now) unwritten) }
    ensures clean_disk { B.has_clean_disk book.new → B.has_clean_disk book.old }
    ensures failures { CountsUp (B.failed book.old) (B.failed book.new) }
    ensures fault { IfErr result
        (λ fault. (fault ≡ NoMemory) ⊎ (fault ≡ Write)
        × HasFailed (W.failed sink.old) (W.failed sink.new)) }
    ensures worked { OnOk result (W.failed sink.new ≡ W.failed sink.old) }
{
    match build_body(alloc, book, body) {
        Ok(task) => Ok(Some(task)),
        Err(refusal) => {
            match write_made(sink, reported_text(alloc, Route::Plans, refused(refusal))) {
                Ok(()) => Ok(None),
                Err(fault) => Err(fault),
            }
        }
    }
}

// The body of a request at `/plans`.
fn plans_body<'b>(inbound: &Inbound<'b>) -> Option<&'b [u8]>
    ensures { IfSome result (λ body. parse_of inbound.now ≡ asking AtPlans body.now) }
{
    match *inbound {
        Inbound::Asks(route, body) => match route {
            Route::Plans => Some(body),
            _ => None,
        },
        _ => None,
    }
}

/// Does what was read of a request and writes the answer, as `serve_request`; but a query at `/plans` whose instance was built isn't
/// answered: it is given to whoever searches it, and nothing is written.
///
/// `Write` and `NoMemory` as there.
pub fn begin_inbound<W: Sink, B: Book>(
    alloc: Global,
    inbound: &Inbound,
    sink: &mut W,
    book: &mut B,
    at: u64,
) -> Result<Option<PlanTask>, WireFault>
    ensures begun { (left : Option (List ℕ))
        → IfSome left (λ input. ParsesTo input (parse_of inbound.now))
        → (task : PlanTaskOf) → result ≡ Ok (Some task)
        → IsBegun B.Book book.old book.new left (instance_in task) × (sink.new ≡ sink.old) }
    ensures answered { result ≡ Ok None
        → IsServedAs B.Book book.old book.new (W.held sink.old) (W.held sink.new)
        (parse_of inbound.now) [] }
    ensures err { OnErr result
        ((unwritten : List ℕ) × IsServedAs B.Book book.old book.new (W.held sink.old)
        (W.held sink.new) (parse_of inbound.now) unwritten) }
    ensures timed { HandlesInputAt B.Book book.old book.new at (parse_of inbound.now) }
    ensures clean_disk { B.has_clean_disk book.new → B.has_clean_disk book.old }
    ensures failures { CountsUp (B.failed book.old) (B.failed book.new) }
    ensures fault { IfErr result
        (λ fault. (fault ≡ NoMemory) ⊎ (fault ≡ Write)
        × HasFailed (W.failed sink.old) (W.failed sink.new)) }
    ensures worked { OnOk result (W.failed sink.new ≡ W.failed sink.old) }
{
    if let Some(body) = plans_body(inbound) {
        return begin_plans(alloc, body, sink, book);
    }
    match answer_inbound(alloc, inbound, sink, book, at) {
        Ok(()) => Ok(None),
        Err(fault) => Err(fault),
    }
}

/// As `serve_request`, but that a query at `/plans` whose instance was built isn't answered: it is given to whoever searches it,
/// and nothing is written.
///
/// `Read`, `Write` and `NoMemory` as there.
pub fn begin_request<S: Source, W: Sink, B: Book>(
    alloc: Global,
    routes: &Routes,
    source: &mut S,
    sink: &mut W,
    book: &mut B,
    at: u64,
) -> Result<Option<PlanTask>, WireFault>
    ensures begun { (task : PlanTaskOf) → result ≡ Ok (Some task)
        → IsBegun B.Book book.old book.new (S.left source.old) (instance_in task)
        × (sink.new ≡ sink.old) }
    ensures answered { result ≡ Ok None
        → IsServed B.Book book.old book.new (S.left source.old) (W.held sink.old)
        (W.held sink.new) [] }
    ensures err { OnErr result (((book.new ≡ book.old) × (sink.new ≡ sink.old))
        ⊎ ((unwritten : List ℕ) × IsServed B.Book book.old book.new (S.left source.old)
        (W.held sink.old) (W.held sink.new) unwritten)) }
    ensures timed { OnOk result (HandlesReadAt B.Book book.old book.new at (S.left source.old)) }
    ensures clean_disk { B.has_clean_disk book.new → B.has_clean_disk book.old }
    ensures failures { CountsUp (B.failed book.old) (B.failed book.new) }
    ensures reads { S.reads source.new ≤ S.reads source.old + most_request_reads }
    ensures read { result ≡ Err Read → HasFailed (S.failed source.old) (S.failed source.new)
        × (book.new ≡ book.old) × (sink.new ≡ sink.old) }
    ensures write { result ≡ Err Write → HasFailed (W.failed sink.old) (W.failed sink.new) }
    ensures worked { OnOk result (W.failed sink.new ≡ W.failed sink.old) }
{
    let mut received = Vec::new(alloc);
    let inbound = match read_one(routes, source, &mut received) {
        Ok(inbound) => inbound,
        Err(fault) => return Err(fault),
    };
    match begin_inbound(alloc, &inbound, sink, book, at) {
        Ok(begun) => Ok(begun),
        Err(fault) => Err(fault),
    }
}

/// As `serve_request`, with routes of its own. A server makes them once, and calls `begin_inbound`.
pub fn serve_one<S: Source, W: Sink, B: Book>(
    alloc: Global,
    source: &mut S,
    sink: &mut W,
    book: &mut B,
    at: u64,
) -> Result<(), WireFault>
    ensures ok { OnOk result (IsServed B.Book book.old book.new (S.left source.old)
        (W.held sink.old) (W.held sink.new) []) }
    ensures err { OnErr result (((book.new ≡ book.old) × (sink.new ≡ sink.old))
        ⊎ ((unwritten : List ℕ) × IsServed B.Book book.old book.new (S.left source.old)
        (W.held sink.old) (W.held sink.new) unwritten)) }
    ensures timed { OnOk result (HandlesReadAt B.Book book.old book.new at (S.left source.old)) }
    ensures clean_disk { B.has_clean_disk book.new → B.has_clean_disk book.old }
    ensures failures { CountsUp (B.failed book.old) (B.failed book.new) }
    ensures reads { S.reads source.new ≤ S.reads source.old + most_request_reads }
    ensures read { result ≡ Err Read → HasFailed (S.failed source.old) (S.failed source.new)
        × (book.new ≡ book.old) × (sink.new ≡ sink.old) }
    ensures write { result ≡ Err Write → HasFailed (W.failed sink.old) (W.failed sink.new) }
    ensures worked { OnOk result (W.failed sink.new ≡ W.failed sink.old) }
{
    match Routes::new(alloc) {
        Ok(routes) => serve_request(alloc, &routes, source, sink, book, at),
        Err(_) => Err(WireFault::NoMemory),
    }
}
