//! A whole request, by its head and the bytes that came; or read from a source in whatever pieces it comes.

ghost use Rattle.std.specs.Prelude.{◌≡◌, ◌⊎◌, ◌+◌, ◌≤◌, ◌<◌, ◌++◌, ℕ, List, [], length, true, false, Ok, Err, IfOk, IfSome, IfErr, OnOk};
ghost use Rattle.std.specs.Io.KnownBytes.{Consumes, IsAtEnd};
ghost use Rattle.shop_request.specs.Heads.{prefix, most_head};
ghost use Rattle.shop_request.specs.Reading.{HasEnough, IsAsked, IsHeadIn, IsReadOn};
ghost use Rattle.shop_streams.specs.Streams.{HasFailed};
ghost use Rattle.shop_request.specs.Requests.{ParsesTo, most_request_reads, parse_of};
ghost use Rattle.shop_request.specs.declared.faults.RequestFault.TheVariants.{BadRequest, LargeHead};
ghost use Rattle.shop_request.specs.declared.heads.Found.TheVariants.{Asks};
ghost use Rattle.shop_request.specs.declared.faults.StreamFault.TheVariants.{Read, NoMemory};

use crate::faults::{RequestFault, StreamFault};
use crate::heads::{Found, Head, MAX_HEAD_LEN, prefix_of};
use crate::judging::{Asked, part_at};
use crate::pieces::read_piece;
use crate::routes::{Route, Routes};
use crate::wholes::least_bytes;
use httparse::spans::{HeaderSpan, RequestSpans};
use shop_streams::Source;

/// What an input stands for. What it says is borrowed from the bytes that came.
#[derive(Clone, Copy, Debug)]
pub enum Inbound<'b> {
    /// No byte came.
    Silence,
    /// A fault.
    Faulty(RequestFault),
    /// A request: its route, and its body where the route takes one, else what the path says beside the route.
    Asks(Route, &'b [u8]),
}

// What is wrong with a part of a head that isn't read on.
fn part_fault(received: &[u8]) -> RequestFault
    ensures long { most_head ≤ length received.now → result ≡ LargeHead }
    ensures short { length received.now < most_head → result ≡ BadRequest }
{
    if received.len() >= MAX_HEAD_LEN {
        RequestFault::LargeHead
    } else {
        RequestFault::BadRequest
    }
}

// What the bytes that came stand for, by what their whole head asks for.
fn asked_for<'b>(
    headers: &[HeaderSpan],
    spans: &RequestSpans,
    asked: Asked,
    received: &'b [u8],
) -> Inbound<'b>
    requires some { 0 < length received.now }
    requires slots { length headers.now ≡ 64 }
    requires head { IsAsked (prefix received.now) headers.now spans.now (Ok asked) }
    ensures parsed { ParsesTo received.now (parse_of result) }
    ensures determined { HasEnough (length received.now) (Asks spans.now asked)
        → (more : List ℕ) → ParsesTo (received.now ++ more) (parse_of result) }
{
    if !asked.route.takes_body() {
        return Inbound::Asks(
            asked.route,
            part_at(asked.route, prefix_of(received), headers, spans),
        );
    }
    match received[spans.len..].get(..asked.length) {
        Some(body) => Inbound::Asks(asked.route, body),
        None => Inbound::Faulty(RequestFault::BadRequest),
    }
}

/// What the bytes that came stand for, by their head. Where they are whole, that is what they stand for whatever follows.
pub fn inbound_of<'b>(head: &Head, received: &'b [u8]) -> Inbound<'b>
    requires { IsHeadIn received.now head.now }
    ensures parsed { ParsesTo received.now (parse_of result) }
    ensures determined { 0 < length received.now → HasEnough (length received.now) head.now.found
        → (more : List ℕ) → ParsesTo (received.now ++ more) (parse_of result) }
{
    if received.is_empty() {
        return Inbound::Silence;
    }
    match head.found {
        Found::Asks(spans, asked) => asked_for(&head.headers, &spans, asked, received),
        Found::Faulty(_, fault) => Inbound::Faulty(fault),
        Found::Unfinished => Inbound::Faulty(part_fault(received)),
        Found::Refused(fault) => Inbound::Faulty(fault),
    }
}

// Reads until so many bytes came, and returns whether they did.
fn read_to<S: Source>(
    source: &mut S,
    received: &mut Vec<u8>,
    count: usize,
) -> Result<bool, StreamFault>
    requires { length received.old.items ≤ count }
    ensures on { OnOk result (IsReadOn (S.left source.old)
        (S.left source.new) received.old.items received.new.items) }
    ensures all { result ≡ Ok true → count ≤ length received.new.items }
    ensures short { result ≡ Ok false → IsAtEnd (S.left source.new) }
    ensures fault { IfErr result
        (λ fault. (fault ≡ NoMemory) ⊎ (fault ≡ Read)
        × HasFailed (S.failed source.old) (S.failed source.new)) }
    ensures memory { result ≡ Err NoMemory → S.failed source.new ≡ S.failed source.old }
    ensures worked { OnOk result (S.failed source.new ≡ S.failed source.old) }
    ensures reads { S.reads source.new + length received.old.items ≤ S.reads source.old + count }
{
    while received.len() < count {
        if !read_piece(source, received)? {
            return Ok(false);
        }
    }
    Ok(true)
}

// Reads until a whole request or a fault came, or no more comes. The head is read again only where it may be whole.
fn gather<S: Source>(
    routes: &Routes,
    source: &mut S,
    received: &mut Vec<u8>,
) -> Result<Head, StreamFault>
    requires { received.old.items ≡ [] }
    ensures head { IfOk result (IsHeadIn received.new.items) }
    ensures took { OnOk result (Consumes (S.left source.old) (S.left source.new) received.new.items) }
    ensures whole { IfOk result
        (λ head. (0 < length received.new.items) × HasEnough (length received.new.items) head.found
        ⊎ IsAtEnd (S.left source.new)) }
    ensures fault { IfErr result
        (λ fault. (fault ≡ NoMemory) ⊎ (fault ≡ Read)
        × HasFailed (S.failed source.old) (S.failed source.new)) }
    ensures memory { result ≡ Err NoMemory → S.failed source.new ≡ S.failed source.old }
    ensures worked { OnOk result (S.failed source.new ≡ S.failed source.old) }
    ensures reads { S.reads source.new ≤ S.reads source.old + most_request_reads }
{
    let mut needed = 1;
    loop {
        let goes_on = read_to(source, received, needed)?;
        let head = Head::read(routes, received);
        if !goes_on {
            return Ok(head);
        }
        needed = least_bytes(&head, received);
        if needed <= received.len() {
            return Ok(head);
        }
    }
}

/// Reads a request into `received`, in place of what was there. What it stands for depends on the bytes alone, and not on the
/// pieces in which they come.
///
/// The first fault in this order is answered: a bad head, or a large one; the hosts; a transfer coding; the lengths that are
/// said; the path; the method; no length; a large body; a body that ends early. At an `Err` memory ran out, and then the
/// source didn't fail, or the source failed. At most 139264 reads are made.
pub fn read_request<'b, S: Source>(
    routes: &Routes,
    source: &mut S,
    received: &'b mut Vec<u8>,
) -> Result<Inbound<'b>, StreamFault>
    ensures parsed { IfOk result
        (λ inbound. IfSome (S.left source.old) (λ input. ParsesTo input (parse_of inbound))) }
    ensures fault { IfErr result
        (λ fault. (fault ≡ NoMemory) ⊎ (fault ≡ Read)
        × HasFailed (S.failed source.old) (S.failed source.new)) }
    ensures memory { result ≡ Err NoMemory → S.failed source.new ≡ S.failed source.old }
    ensures worked { OnOk result (S.failed source.new ≡ S.failed source.old) }
    ensures reads { S.reads source.new ≤ S.reads source.old + most_request_reads }
{
    received.clear();
    let head = gather(routes, source, received)?;
    let inbound = inbound_of(&head, received);
    Ok(inbound)
}
