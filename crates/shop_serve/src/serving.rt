//! The rounds of a server: it waits, services connections, closes late ones, advances one query by a search step, and
//! accepts the connections that wait.

ghost use Rattle.std.specs.Prelude.{◌≡◌, ◌≤◌, ◌+◌, ◌⊎◌, ℕ, List, length, IfErr, IfSome, OnOk};
ghost use Rattle.std.specs.Duration.{as_nanos};
ghost use Rattle.std.specs.declared.time.Instant.{Instant as Moment};
ghost use Rattle.shop_serve.specs.Clients.{AreServiced, AsksAt, CanOpenOne, unanswered};
ghost use Rattle.shop_serve.specs.Rounds.{AreReceived, HasServedAll, IsReceived, IsRound};
ghost use Rattle.shop_serve.specs.Serving.{Advances, HasServed, IsUnserved, most_served};
ghost use Rattle.shop_serve.specs.Times.{Adds};
ghost use Rattle.shop_serve.specs.declared.faults.ServeFault.TheVariants as faults;

use crate::clients::{Client, can_open_one, close_late, open_client, service_at};
use crate::clocks::{PausableClock, ServerClock};
use crate::connections::Connection;
use crate::faults::ServeFault;
use crate::lines::Lines;
use crate::ports::{Listener, Port, RegisteredListener};
use crate::searching::{next_wait, step_search};
use crate::sites::Site;
use shop_backup::{Backups, Names};
use shop_book::Book;
use slab::Slab;
use std::alloc::Global;
use std::fs::Files;
use std::io::Eprint;
use std::net::Net;
use std::time::{Clock, Duration};

// How many connections are accepted before others are serviced.
const MAX_ACCEPTED: u32 = 64;

// How many seconds are waited at most before it is looked which connections have had their time.
const MAX_WAIT: u64 = 1;

/// How many connections are served without a limit.
pub const MAX_SERVED: u64 = u64::MAX;

// Opens a connection. The next round services it, behind its own look at the store's names.
fn receive<C: Drop, P: Port<C>, K: ServerClock>(
    alloc: Global,
    port: &mut P,
    stream: C,
    clock: &mut K,
    clients: &mut Slab<Client<C>>,
)
    requires cleared { CanOpenOne clients.old }
    ensures received { IsReceived P.Port stream clients.old clients.new (K.times clock.old)
        (K.times clock.new) }
    ensures reported { P.all_reported port.new ≡ P.all_reported port.old }
    ensures given { P.given port.new ≡ P.given port.old }
    ensures fewer { unanswered clients.new ≤ unanswered clients.old + 1 }
{
    let now = clock.now();
    let _ = open_client(alloc, port, stream, now, clients);
}

// Accepts the connections that wait, up to a limit, and gives how long the next round may wait. None can be accepted for good
// where it is `None`.
fn accept_waiting<C: Drop, P: Port<C>, K: ServerClock>(
    alloc: Global,
    port: &mut P,
    clock: &mut K,
    limit: u64,
    clients: &mut Slab<Client<C>>,
    accepted: &mut u64,
) -> Option<Duration>
    requires bound { accepted.old ≤ limit }
    ensures each { (arrived : List C) × (accepted.new ≡ accepted.old + length arrived)
        × Adds (P.given port.old) (P.given port.new) arrived
        × AreReceived P.Port arrived clients.old clients.new (K.times clock.old) (K.times clock.new) }
    ensures reported { P.all_reported port.new ≡ P.all_reported port.old }
    ensures fewer { unanswered clients.new + accepted.old ≤ unanswered clients.old + accepted.new }
    ensures bound { accepted.new ≤ limit }
{
    for _ in 0..MAX_ACCEPTED {
        if *accepted >= limit {
            return Some(Duration::from_secs(MAX_WAIT));
        }
        if !can_open_one(clients) {
            return Some(Duration::from_secs(MAX_WAIT));
        }
        let stream = match port.accept() {
            Ok(Some(stream)) => stream,
            Ok(None) => return Some(Duration::from_secs(MAX_WAIT)),
            Err(_) => return None,
        };
        *accepted += 1;
        receive(alloc, port, stream, clock, clients);
    }
    Some(Duration::ZERO)
}

// Services each connection that is reported.
fn service_reported<C: Connection + Drop, K: ServerClock, B: Book>(
    alloc: Global,
    site: &Site,
    keys: &[usize],
    clock: &mut K,
    clients: &mut Slab<Client<C>>,
    book: &mut B,
)
    ensures each { AreServiced C.Connection site.now B.Book keys.now clients.old clients.new book.old
        book.new (K.times clock.old) (K.times clock.new) }
    ensures run { Advances site.now B.Book book.old book.new (unanswered clients.old)
        (unanswered clients.new) }
    ensures clean_disk { B.has_clean_disk book.new → B.has_clean_disk book.old }
{
    for key in keys {
        let _ = service_at(alloc, site, clients, *key, clock, book);
    }
}

// One round: services what is reported, closes what had its time, takes one search step of a query, and accepts what waits, to which
// the next round services. Gives how long that one may wait, or `None` where none can be accepted for good.
fn serve_round<C: Connection + Drop, P: Port<C>, K: ServerClock, B: Book>(
    alloc: Global,
    site: &Site,
    port: &mut P,
    clock: &mut K,
    limit: u64,
    clients: &mut Slab<Client<C>>,
    accepted: &mut u64,
    book: &mut B,
) -> Option<Duration>
    requires bound { accepted.old ≤ limit }
    ensures round { (arrived : List C) × (accepted.new ≡ accepted.old + length arrived)
        × Adds (P.given port.old) (P.given port.new) arrived
        × ((now : Moment) × IsRound C.Connection site.now B.Book P.Port
        (record { now = now; keys = P.reported port.old; arrived = arrived }) clients.old clients.new book.old
        book.new (K.times clock.old) (K.times clock.new)) }
    ensures waits { IfSome result
        (λ wait. (key : ℕ) → AsksAt clients.new key → as_nanos wait ≡ 0) }
    ensures reported { P.all_reported port.new ≡ P.all_reported port.old }
    ensures run { Advances site.now B.Book book.old book.new (unanswered clients.old + accepted.new)
        (unanswered clients.new + accepted.old) }
    ensures bound { accepted.new ≤ limit }
    ensures clean_disk { B.has_clean_disk book.new → B.has_clean_disk book.old }
{
    service_reported(alloc, site, port.keys(), clock, clients, book);
    let moment = clock.now();
    close_late(clients, moment);
    step_search(alloc, site, clients, moment, clock, book);
    let wait = accept_waiting(alloc, port, clock, limit, clients, accepted);
    next_wait(clients, wait)
}

// Serves the connections that a port gives, until as many as the limit says came and are done with, or none can be accepted
// or waited for, or the store's names lead to other files: then nothing is done of what came.
fn serve_port<C: Connection + Drop, P: Port<C>, K: ServerClock, B: Book>(
    alloc: Global,
    port: &mut P,
    clock: &mut K,
    limit: u64,
    site: &Site,
    book: &mut B,
) -> Result<(), ServeFault>
    ensures all { OnOk result
        (HasServedAll C.Connection site.now B.Book P.Port limit (P.all_reported port.old)
        (P.all_reported port.new) (P.given port.old) (P.given port.new) book.old book.new
        (K.times clock.old) (K.times clock.new)) }
    ensures served { HasServed site.now B.Book book.old book.new limit }
    ensures fault { IfErr result (λ fault. (fault ≡ faults.Port) ⊎ (fault ≡ faults.Moved)) }
    ensures clean_disk { B.has_clean_disk book.new → B.has_clean_disk book.old }
{
    let mut clients = Slab::new(alloc);
    let mut accepted = 0u64;
    let mut wait = Duration::from_secs(MAX_WAIT);
    for _ in 0..u64::MAX {
        if accepted >= limit && clients.is_empty() {
            return Ok(());
        }
        match port.wait(wait) {
            Ok(()) => (),
            Err(_) => return Err(ServeFault::Port),
        }
        if !clock.is_in_place() {
            return Err(ServeFault::Moved);
        }
        match serve_round(
            alloc,
            site,
            port,
            clock,
            limit,
            &mut clients,
            &mut accepted,
            book,
        ) {
            Some(next) => wait = next,
            None => return Err(ServeFault::Port),
        }
    }
    Err(ServeFault::Port)
}

// As many connections as a limit says; without one more than come in the life of a machine.
fn most_served(limit: Option<u32>) -> u64
    ensures { result ≡ most_served limit }
{
    match limit {
        Some(limit) => u64::from(limit),
        None => MAX_SERVED,
    }
}

/// Serves connections until `limit` were accepted and closed again; without a limit, 18446744073709551615. At most 256
/// are open at once. The server reads whichever has bytes, and answers each request once it is whole, one after
/// another. An error of one connection ends only that one.
///
/// A connection has 10 seconds from accept to its request's last byte, and 10 more to take its answer; the time in
/// which the server answers any request doesn't count. If 256 are open, or descriptors run out, the oldest that has no
/// answer on its way, and whose query has had no search step, is closed for the next; if there is none, the next waits.
/// The server makes a backup between two requests.
///
/// `NoMemory` comes only before the first connection. `Port`: connections can't be accepted any more, or waited for.
/// `Moved`: the store's names lead to other files than at first. After these two the other connections aren't served.
#[tactic(auto, using(crate::proofs::ServedRequests::none_served))]
pub fn serve_on<R: Net + Clock + Eprint + Files, B: Book>(
    rt: &R,
    alloc: Global,
    listener: &Listener,
    limit: Option<u32>,
    site: &Site,
    names: &Names,
    backups: Option<&Backups>,
    lines: &mut Lines,
    book: &mut B,
) -> Result<(), ServeFault>
    ensures ok { OnOk result (HasServed site.now B.Book book.old book.new (most_served limit)) }
    ensures err { IfErr result
        (IsUnserved site.now B.Book book.old book.new (most_served limit)) }
    ensures clean_disk { B.has_clean_disk book.new → B.has_clean_disk book.old }
{
    let mut port = RegisteredListener::new(rt, alloc, listener)?;
    let mut clock = PausableClock::new(rt, alloc, names, backups, lines)?;
    serve_port(alloc, &mut port, &mut clock, most_served(limit), site, book)
}
