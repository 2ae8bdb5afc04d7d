//! The head of a request: where its method, its target and its fields stand, and what it asks for.

ghost use Rattle.std.specs.Prelude.{◌≡◌, length};
ghost use Rattle.shop_request.specs.Heads.{prefix};
ghost use Rattle.shop_request.specs.Reading.{IsFaultOf, IsFound, IsHeadIn, IsParsed};

use crate::faults::RequestFault;
use crate::judging::{Asked, judge};
use crate::routes::Routes;
use httparse::spans::{EMPTY_HEADER_SPAN, HeaderSpan, RequestSpans, parse_request};
use httparse::{Error, Status};

pub(crate) const MAX_HEAD_LEN: usize = 8192;

pub(crate) const MAX_FIELDS: usize = 64;

// How a prefix was read.
#[derive(Clone, Copy)]
pub(crate) enum Parsed {
    Whole(RequestSpans),
    Unfinished,
    Refused(RequestFault),
}

/// What stands where a head may stand: a whole one, with what it asks for, or with the first fault in it; a part of one; or none.
#[derive(Clone, Copy)]
pub(crate) enum Found {
    Asks(RequestSpans, Asked),
    Faulty(RequestSpans, RequestFault),
    Unfinished,
    Refused(RequestFault),
}

/// The head that some bytes begin with, or the first part of one, or what is wrong: read once, for the guard, the route and the
/// body.
#[derive(Clone, Copy)]
pub struct Head {
    pub(crate) headers: [HeaderSpan; 64],
    pub(crate) found: Found,
}

/// Where a head may stand.
pub(crate) fn prefix_of(received: &[u8]) -> &[u8]
    ensures { result.now ≡ prefix received.now }
{
    if received.len() > MAX_HEAD_LEN {
        return &received[..MAX_HEAD_LEN];
    }
    received
}

// What is wrong where `httparse` refuses.
fn head_fault(error: Error) -> RequestFault
    ensures { IsFaultOf error result }
{
    match error {
        Error::TooManyHeaders => RequestFault::LargeHead,
        _ => RequestFault::BadRequest,
    }
}

/// Reads the head of a request where it may stand.
pub(crate) fn parse_prefix(prefix: &[u8], headers: &mut [HeaderSpan]) -> Parsed
    requires { length headers.old ≡ 64 }
    ensures { IsParsed prefix.now headers.new result }
{
    match parse_request(prefix, headers) {
        Ok(Status::Complete(spans)) => Parsed::Whole(spans),
        Ok(Status::Partial) => Parsed::Unfinished,
        Err(error) => Parsed::Refused(head_fault(error)),
    }
}

// What was found, by how the prefix was read.
fn found_in(routes: &Routes, prefix: &[u8], headers: &[HeaderSpan], parsed: Parsed) -> Found
    requires { IsParsed prefix.now headers.now parsed }
    ensures { IsFound prefix.now headers.now result }
{
    match parsed {
        Parsed::Whole(spans) => match judge(routes, prefix, headers, &spans) {
            Ok(asked) => Found::Asks(spans, asked),
            Err(fault) => Found::Faulty(spans, fault),
        },
        Parsed::Unfinished => Found::Unfinished,
        Parsed::Refused(fault) => Found::Refused(fault),
    }
}

impl Head {
    /// Nothing was read yet.
    pub fn new() -> Head {
        Head {
            headers: [EMPTY_HEADER_SPAN; MAX_FIELDS],
            found: Found::Unfinished,
        }
    }

    /// The head of the bytes that came.
    pub fn read(routes: &Routes, received: &[u8]) -> Head
        ensures { IsHeadIn received.now result }
    {
        let mut headers = [EMPTY_HEADER_SPAN; MAX_FIELDS];
        let prefix = prefix_of(received);
        let parsed = parse_prefix(prefix, &mut headers);
        let found = found_in(routes, prefix, &headers, parsed);
        Head { headers, found }
    }
}
