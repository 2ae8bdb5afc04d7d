//! The guard before the routes: by its head alone a request is let through, refused, gets the page or the server's state, or has
//! no route.

ghost use Rattle.std.specs.Prelude.{◌≡◌, length, map, All, IfOk};
ghost use Rattle.std.specs.List.{list_any};
ghost use Rattle.httparse.specs.Spans.{IsHeaderWithin, IsRequestOf, IsRequestWithin, header_bytes};
ghost use Rattle.shop_request.specs.Guards.{HasVerdict, IsGuardOf, has_good_fields, is_cross_site, is_foreign_as, is_own, mark_name, of_health, of_page, checked_parts};
ghost use Rattle.shop_request.specs.Heads.{prefix, values_of};
ghost use Rattle.shop_request.specs.Reading.{IsHeadIn};

use crate::addresses::{Address, own_hosts, own_origins, quoted_run};
use crate::fields::{has_hosts, is_name, is_there, said_length, values_named};
use crate::heads::{Found, Head, prefix_of};
use crate::judging::{path_in, target_text};
use httparse::spans::{HeaderSpan, RequestSpans};
use std::alloc::{AllocError, Global};

/// What is done with a request, by its head alone.
#[derive(Clone, Copy, Debug, PartialEq, Eq)]
pub enum Verdict {
    /// It goes to its route, or its head is bad.
    Routed,
    /// A browser sent it for a page of another site.
    Forbidden,
    /// It is for another run of the server.
    OtherRun,
    /// It asks for the page.
    Page,
    /// It asks for the state of the server.
    Health,
    /// It is for the page or the state, which are only read.
    OnlyGet,
    /// It is for a backup, and none are made.
    NoBackups,
}

// The fields that mark a cross-site request, and the one that names a run of the server.
#[derive(Clone, Copy, Debug, PartialEq, Eq)]
pub(crate) enum Mark {
    Site,
    Origin,
    Host,
    Run,
}

/// What a server knows of the requests that are for it: the values that the fields of its own have, whether the host is judged;
/// whether it has a page, and whether backups are made.
#[derive(Drop)]
pub struct Guard {
    has_page: bool,
    has_backups: bool,
    judges_host: bool,
    hosts: Vec<String>,
    origins: Vec<String>,
    quoted_run: String,
}

fn mark_name(mark: Mark) -> &'static [u8]
    ensures { result.now ≡ mark_name mark }
{
    match mark {
        Mark::Site => b"sec-fetch-site".as_slice(),
        Mark::Origin => b"origin".as_slice(),
        Mark::Host => b"host".as_slice(),
        Mark::Run => b"if-match".as_slice(),
    }
}

// Whether a value is one of a server's own.
fn is_own(own: &[String], value: &[u8]) -> bool
    ensures { result ≡ is_own own.now value.now }
{
    own.iter().any(|text| value == text.as_bytes())
}

impl Guard {
    /// A guard of what is reached at an address, with a page or without one, with backups or without any, and of a run. The only
    /// error: memory ran out.
    pub fn new(
        alloc: Global,
        address: &Address,
        has_page: bool,
        has_backups: bool,
        run: &str,
    ) -> Result<Guard, AllocError>
        ensures { IfOk result (IsGuardOf address.now has_page has_backups run.now) }
    {
        let hosts = own_hosts(alloc, address)?;
        let origins = own_origins(alloc, address)?;
        let quoted_run = quoted_run(alloc, run)?;
        Ok(Guard {
            has_page,
            has_backups,
            judges_host: has_page || address.has_others(),
            hosts,
            origins,
            quoted_run,
        })
    }

    /// Whether only requests under the server's own names are let through.
    pub fn judges_host(&self) -> bool
        ensures { result ≡ self.now.judges_host }
    {
        self.judges_host
    }

    // Whether a value of such a field is another than a browser sends for a page of this server, or names another run.
    fn is_foreign(&self, mark: Mark, value: &[u8]) -> bool
        ensures { result ≡ is_foreign_as self.now mark value.now }
    {
        match mark {
            Mark::Site => value != b"same-origin".as_slice() && value != b"none".as_slice(),
            Mark::Origin => !is_own(&self.origins, value),
            Mark::Host => !is_own(&self.hosts, value),
            Mark::Run => value != self.quoted_run.as_bytes(),
        }
    }

    // Whether some field of this name has a value of another site or run.
    fn has_foreign(&self, mark: Mark, buf: &[u8], headers: &[HeaderSpan]) -> bool
        requires { All (IsHeaderWithin (length buf.now)) headers.now }
        ensures { result ≡ list_any (is_foreign_as self.now mark)
            (values_of (mark_name mark) (map (header_bytes buf.now) headers.now)) }
    {
        let [first, rest @ ..] = headers else {
            return false;
        };
        let others = self.has_foreign(mark, buf, rest);
        if !is_name(first.name.of(buf), mark_name(mark)) {
            return others;
        }
        self.is_foreign(mark, first.value.of(buf)) || others
    }

    // Whether fields mark a cross-site request.
    fn shows_cross_site(&self, buf: &[u8], headers: &[HeaderSpan]) -> bool
        requires { All (IsHeaderWithin (length buf.now)) headers.now }
        ensures { result ≡ is_cross_site self.now (map (header_bytes buf.now) headers.now) }
    {
        self.has_foreign(Mark::Site, buf, headers)
            || self.has_foreign(Mark::Origin, buf, headers)
            || self.judges_host && self.has_foreign(Mark::Host, buf, headers)
    }

    // What is done by the parts of a head.
    fn check_parts(
        &self,
        buf: &[u8],
        headers: &[HeaderSpan],
        method: &[u8],
        target: &str,
        minor: u8,
    ) -> Verdict
        requires { All (IsHeaderWithin (length buf.now)) headers.now }
        ensures { result ≡ checked_parts self.now method.now target.now minor
            (map (header_bytes buf.now) headers.now) }
    {
        if !has_good_fields(minor, buf, headers) {
            return Verdict::Routed;
        }
        if self.shows_cross_site(buf, headers) {
            return Verdict::Forbidden;
        }
        if self.has_foreign(Mark::Run, buf, headers) {
            return Verdict::OtherRun;
        }
        if self.has_page && path_in(target) == "/" {
            return of_page(method);
        }
        if path_in(target) == "/health" {
            return of_health(method);
        }
        if !self.has_backups && path_in(target) == "/backup" {
            return Verdict::NoBackups;
        }
        Verdict::Routed
    }

    // What is done by a whole head.
    fn check_whole(&self, headers: &[HeaderSpan], spans: &RequestSpans, received: &[u8]) -> Verdict
        requires slots { length headers.now ≡ 64 }
        requires within { IsRequestWithin (prefix received.now) headers.now spans.now }
        requires head { IsRequestOf (prefix received.now) headers.now spans.now }
        ensures { HasVerdict self.now received.now result }
    {
        let prefix = prefix_of(received);
        self.check_parts(
            prefix,
            &headers[..spans.headers],
            spans.method.of(prefix),
            target_text(spans.path.of(prefix)),
            spans.version,
        )
    }

    /// What is done with the request that these bytes begin with, by its head alone.
    pub fn check(&self, head: &Head, received: &[u8]) -> Verdict
        requires { IsHeadIn received.now head.now }
        ensures { HasVerdict self.now received.now result }
    {
        match head.found {
            Found::Asks(spans, _) => self.check_whole(&head.headers, &spans, received),
            Found::Faulty(spans, _) => self.check_whole(&head.headers, &spans, received),
            Found::Unfinished => Verdict::Routed,
            Found::Refused(_) => Verdict::Routed,
        }
    }
}

// What is done with a request for the page by a method.
fn of_page(method: &[u8]) -> Verdict
    ensures { result ≡ of_page method.now }
{
    if method == b"GET".as_slice() {
        Verdict::Page
    } else {
        Verdict::OnlyGet
    }
}

// What is done with a request for the state of the server by a method.
fn of_health(method: &[u8]) -> Verdict
    ensures { result ≡ of_health method.now }
{
    if method == b"GET".as_slice() {
        Verdict::Health
    } else {
        Verdict::OnlyGet
    }
}

// Whether the hosts, the codings and the lengths that fields say are good.
fn has_good_fields(minor: u8, buf: &[u8], headers: &[HeaderSpan]) -> bool
    requires { All (IsHeaderWithin (length buf.now)) headers.now }
    ensures { result ≡ has_good_fields minor (map (header_bytes buf.now) headers.now) }
{
    if !has_hosts(minor, values_named(buf, headers, b"host")) {
        return false;
    }
    if is_there(values_named(buf, headers, b"transfer-encoding")) {
        return false;
    }
    said_length(values_named(buf, headers, b"content-length")).is_ok()
}
