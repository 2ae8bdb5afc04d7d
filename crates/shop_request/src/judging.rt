//! What a head asks for, or the first fault in it; and what its path says beside the route.

ghost use Rattle.std.specs.Prelude.{◌≡◌, ℕ, List, Option, length, map, All, Ok};
ghost use Rattle.std.specs.Str.{IsUtf8};
ghost use Rattle.httparse.specs.Grammar.{RequestHead};
ghost use Rattle.httparse.specs.Spans.{IsHeaderWithin, IsRequestAt, IsRequestWithin, header_bytes, IsRequestOf};
ghost use Rattle.shop_request.specs.Heads.{judged, judged_parts, on_route, by_method};
ghost use Rattle.shop_request.specs.Reading.{IsSaid, parsed_heads};
ghost use Rattle.shop_request.specs.Routes.{path_of, route_of, part_of, takes_body};

use crate::faults::RequestFault;
use crate::fields::{Said, has_hosts, is_there, said_length, values_named};
use crate::routes::{Route, Routes};
use httparse::spans::{HeaderSpan, RequestSpans};
use std::str;

/// What a head asks for: its route, and how many bytes of a body belong to it.
#[derive(Clone, Copy)]
pub(crate) struct Asked {
    pub(crate) route: Route,
    pub(crate) length: usize,
}

/// The target up to its first `?`.
pub(crate) fn path_in(target: &str) -> &str
    ensures { result.now ≡ path_of target.now }
{
    match target.split_once('?') {
        Some((path, _)) => path,
        None => target,
    }
}

// What the path says beside its route.
fn part_in(route: Route, path: &str) -> &[u8]
    ensures { result.now ≡ part_of route path.now }
{
    path.as_bytes().get(route.start()..).unwrap_or(&[])
}

// What is asked for by a method at a route.
fn at_route(route: Route, method: &[u8], said: Said) -> Result<Asked, RequestFault>
    ensures { (path : List ℕ) (length : Option ℕ) → IsSaid (Ok said) (Ok length)
        → parsed_heads path result ≡ by_method (takes_body route) route (part_of route path) method.now
        length }
{
    if !route.takes_body() {
        if method != b"GET".as_slice() {
            return Err(RequestFault::OnlyGet);
        }
        return Ok(Asked { route, length: 0 });
    }
    if method != b"POST".as_slice() {
        return Err(RequestFault::OnlyPost);
    }
    match said {
        Said::Nothing => Err(RequestFault::NoLength),
        Said::Large => Err(RequestFault::LargeBody),
        Said::Length(length) => Ok(Asked { route, length }),
    }
}

// What is asked for by a method and a path.
fn at_path(routes: &Routes, method: &[u8], path: &str, said: Said) -> Result<Asked, RequestFault>
    ensures { (length : Option ℕ) → IsSaid (Ok said) (Ok length)
        → parsed_heads path.now result ≡ on_route method.now path.now length (route_of path.now) }
{
    match routes.find(path) {
        Some(route) => at_route(route, method, said),
        None => Err(RequestFault::NotFound),
    }
}

// What is asked for by the parts of a head.
fn judge_parts(
    routes: &Routes,
    buf: &[u8],
    headers: &[HeaderSpan],
    method: &[u8],
    target: &str,
    minor: u8,
) -> Result<Asked, RequestFault>
    requires { All (IsHeaderWithin (length buf.now)) headers.now }
    ensures { parsed_heads (path_of target.now) result ≡ judged_parts method.now target.now minor
        (map (header_bytes buf.now) headers.now) }
{
    if !has_hosts(minor, values_named(buf, headers, b"host")) {
        return Err(RequestFault::BadRequest);
    }
    if is_there(values_named(buf, headers, b"transfer-encoding")) {
        return Err(RequestFault::NoLength);
    }
    let said = said_length(values_named(buf, headers, b"content-length"))?;
    at_path(routes, method, path_in(target), said)
}

/// The target of a head.
pub(crate) fn target_text(target: &[u8]) -> &str
    requires { IsUtf8 target.now }
    ensures { result.now ≡ target.now }
{
    match str::from_utf8(target) {
        Ok(text) => text,
        Err(_) => unreachable!(),
    }
}

/// What a head asks for, or the first fault in it.
pub(crate) fn judge(
    routes: &Routes,
    buf: &[u8],
    headers: &[HeaderSpan],
    spans: &RequestSpans,
) -> Result<Asked, RequestFault>
    requires within { IsRequestWithin buf.now headers.now spans.now }
    requires head { IsRequestOf buf.now headers.now spans.now }
    ensures { (h : RequestHead) → IsRequestAt buf.now headers.now spans.now h
        → parsed_heads (path_of h.target) result ≡ judged h }
{
    let method = spans.method.of(buf);
    let target = target_text(spans.path.of(buf));
    judge_parts(
        routes,
        buf,
        &headers[..spans.headers],
        method,
        target,
        spans.version,
    )
}

/// What the path of a head says beside its route.
pub(crate) fn part_at<'b>(
    route: Route,
    buf: &'b [u8],
    headers: &[HeaderSpan],
    spans: &RequestSpans,
) -> &'b [u8]
    requires within { IsRequestWithin buf.now headers.now spans.now }
    requires head { IsRequestOf buf.now headers.now spans.now }
    ensures { (h : RequestHead) → IsRequestAt buf.now headers.now spans.now h
        → result.now ≡ part_of route (path_of h.target) }
{
    part_in(route, path_in(target_text(spans.path.of(buf))))
}
