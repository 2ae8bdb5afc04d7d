//! Queries that are searched between requests: one of them, one step a round.

ghost use Rattle.std.specs.Prelude.{◌≡◌, ◌≢◌, ◌≤◌, ℕ, None, true, false, IfOk, IfSome, IsSome, string_bytes};
ghost use Rattle.std.specs.Duration.{as_nanos};
ghost use Rattle.shop_planning.specs.PlanTasks.{instance_in};
ghost use Rattle.shop_serve.specs.Clients.{AsksAt, NoneAsks, unanswered};
ghost use Rattle.shop_serve.specs.Making.{IsPlansAnswer};
ghost use Rattle.shop_serve.specs.Serving.{Advances};
ghost use Rattle.shop_serve.specs.RunningTask.{IsRefused, IsSteppedAt, IsSteppedOnce, IsFinished, StepsSearch};
ghost use Rattle.shop_serve.specs.Times.{ReportsNone};
ghost use Rattle.shop_serve.specs.declared.searching.Progress.TheVariants as progress;

use crate::clients::{Client, is_begun, put_answer, service_at};
use crate::clocks::ServerClock;
use crate::connections::Connection;
use crate::sites::Site;
use crate::transfers::{Rest, drop_rest};
use shop_book::Book;
use shop_planning::PlanTask;
use shop_wire::{plans_answer, plans_refused};
use slab::Slab;
use std::alloc::{AllocError, Global};
use std::time::{Duration, Instant};

/// The most queries that are searched at once.
pub const MAX_PLAN_TASKS: usize = 8;

/// How many calls a query's search gets while others wait to be begun.
pub const FAIR_CALLS: u32 = 200;

/// A query being searched: what was found so far, when it last had a step, and how many calls it still has if others
/// wait. Until its first step it waits.
#[derive(Drop)]
pub(crate) struct RunningTask {
    pub(crate) task: PlanTask,
    pub(crate) last: Option<Instant>,
    pub(crate) left: u32,
}

// A place in the row of queries: those that have to wait are after the others, and each is after those that wait longer.
#[derive(Clone, Copy)]
struct Place {
    has_to_wait: bool,
    since: Instant,
}

impl Place {
    fn is_before(self, other: Place) -> bool {
        if self.has_to_wait == other.has_to_wait {
            return self.since < other.since;
        }
        other.has_to_wait
    }
}

// The place of a connection's query, where others may be begun or not.
fn place_of<C>(client: &Client<C>, is_full: bool) -> Option<Place>
    ensures some { IsSome result → IsSome client.now.task }
    ensures none { result ≡ None → client.now.task ≡ None }
{
    match &client.task {
        None => None,
        Some(searching) => match searching.last {
            Some(since) => Some(Place {
                has_to_wait: false,
                since,
            }),
            None => Some(Place {
                has_to_wait: is_full,
                since: client.since,
            }),
        },
    }
}

// Whether a place is before that of what was found so far.
fn is_first(found: Option<(usize, Place)>, place: Place) -> bool
    ensures { result ≡ false → IsSome found }
{
    found.is_none_or(|(_, first)| place.is_before(first))
}

// How many queries were begun.
fn count_begun<C>(clients: &Slab<Client<C>>) -> usize {
    let mut begun = 0usize;
    for (_, client) in clients.iter() {
        if is_begun(client) {
            begun = begun.saturating_add(1);
        }
    }
    begun
}

// Whether a query waits to be begun.
fn has_waiting<C>(clients: &Slab<Client<C>>) -> bool {
    for (_, client) in clients.iter() {
        if client.task.is_some() && !is_begun(client) {
            return true;
        }
    }
    false
}

// Whether as many queries were begun as may be, and others wait.
fn is_crowded<C>(clients: &Slab<Client<C>>) -> bool {
    count_begun(clients) >= MAX_PLAN_TASKS && has_waiting(clients)
}

// The key of the connection whose query takes a search step next: of those that were begun, at most eight, and as long as they
// are fewer of those that wait too, the one that waits longest since it has had a search step or read.
fn next_task<C>(clients: &Slab<Client<C>>) -> Option<usize>
    ensures some { IfSome result (AsksAt clients.now) }
    ensures none { result ≡ None → NoneAsks clients.now }
{
    let is_full = count_begun(clients) >= MAX_PLAN_TASKS;
    let mut found: Option<(usize, Place)> = None;
    for (key, client) in clients.iter() {
        let place = match place_of(client, is_full) {
            Some(place) => place,
            None => continue,
        };
        if is_first(found, place) {
            found = Some((key, place));
        }
    }
    match found {
        Some((key, _)) => Some(key),
        None => None,
    }
}

// Takes one search step of a query, unless that ends. Gives its answer, by what was found so far, where it ends or is done.
fn advance(alloc: Global, task: &mut PlanTask, ends: bool) -> Result<Option<String>, AllocError>
    ensures asks { instance_in task.new ≡ instance_in task.old }
    ensures goes_on { IfOk result (λ done. done ≡ None → ends ≡ false) }
    ensures reported { IfOk result
        (λ done. IfSome done (λ answer. IsPlansAnswer (instance_in task.old) (string_bytes answer))) }
{
    if !ends && task.advance(alloc)? {
        return Ok(None);
    }
    let text = task.report(alloc)?;
    let answer = plans_answer(alloc, &text)?;
    Ok(Some(answer))
}

/// The outcome of a search step: the search goes on, its answer was made, or memory was too short even to refuse it.
#[derive(Clone, Copy)]
pub(crate) enum Progress {
    GoesOn,
    Answered,
    NoMemory,
}

// Reports that memory ran out for a connection's query, if there is memory for that.
fn refuse<C, K: ServerClock>(alloc: Global, client: &mut Client<C>, clock: &mut K) -> Progress
    ensures goes_on { result ≢ progress.GoesOn }
    ensures answered { result ≡ progress.Answered
        → IsRefused client.old client.new (K.times clock.old) (K.times clock.new) }
    ensures closed { result ≡ progress.NoMemory
        → ReportsNone (K.times clock.old) (K.times clock.new) }
{
    match plans_refused(alloc) {
        Ok(answer) => {
            clock.note(false, answer.as_str().as_bytes());
            put_answer(client, answer.into_bytes(), clock.now());
            Progress::Answered
        }
        Err(_) => Progress::NoMemory,
    }
}

// Drops what still comes of a connection, and reports whether it waits for more than what was found so far: its input goes on.
fn is_there<C: Connection>(stream: &mut C) -> bool
    ensures drained { result ≡ true → C.is_drained stream.new }
    ensures kept { C.contents stream.new ≡ C.contents stream.old }
{
    match drop_rest(stream) {
        Rest::MayCome => true,
        Rest::Comes | Rest::Ended | Rest::Lost => false,
    }
}

// Takes one search step of the query of a connection that is there, and notes when. It is reported as far as its search came where its
// input ended, or where it had its calls and others wait. If memory runs out, what was found is freed first.
fn step_search_once<C: Connection, K: ServerClock>(
    alloc: Global,
    client: &mut Client<C>,
    is_crowded: bool,
    now: Instant,
    clock: &mut K,
) -> Progress
    requires { IsSome client.old.task }
    ensures goes_on { result ≡ progress.GoesOn
        → IsSteppedOnce C.Connection is_crowded now client.old client.new
        × ReportsNone (K.times clock.old) (K.times clock.new) }
    ensures answered { result ≡ progress.Answered
        → IsFinished C.Connection client.old client.new (K.times clock.old) (K.times clock.new) }
    ensures closed { result ≡ progress.NoMemory
        → ReportsNone (K.times clock.old) (K.times clock.new) }
{
    let Some(mut searching) = client.task.take() else {
        unreachable!()
    };
    let had_its_calls = is_crowded && searching.left == 0;
    let ends = !is_there(&mut client.stream) || had_its_calls;
    searching.last = Some(now);
    searching.left = searching.left.saturating_sub(1);
    match advance(alloc, &mut searching.task, ends) {
        Ok(None) => {
            drop(client.task.replace(searching));
            Progress::GoesOn
        }
        Ok(Some(answer)) => {
            drop(searching);
            put_answer(client, answer.into_bytes(), clock.now());
            Progress::Answered
        }
        Err(_) => {
            drop(searching);
            refuse(alloc, client, clock)
        }
    }
}

// Takes one search step of the query of a key's connection, and closes it when memory runs out. Reports what came of it.
fn step_search_at<C: Connection + Drop, K: ServerClock>(
    alloc: Global,
    clients: &mut Slab<Client<C>>,
    key: usize,
    is_crowded: bool,
    now: Instant,
    clock: &mut K,
) -> Progress
    requires { AsksAt clients.old key }
    ensures at { IsSteppedAt C.Connection is_crowded result now key clients.old clients.new
        (K.times clock.old) (K.times clock.new) }
    ensures fewer { unanswered clients.new ≤ unanswered clients.old }
{
    let Some(client) = clients.get_mut(key) else {
        return Progress::GoesOn;
    };
    match step_search_once(alloc, client, is_crowded, now, clock) {
        Progress::GoesOn => Progress::GoesOn,
        Progress::Answered => Progress::Answered,
        Progress::NoMemory => {
            drop(clients.try_remove(key));
            Progress::NoMemory
        }
    }
}

/// Advances one of the queries, if there is any, by one step, and gives its connection the answer if the query is done
/// or ends.
pub(crate) fn step_search<C: Connection + Drop, K: ServerClock, B: Book>(
    alloc: Global,
    site: &Site,
    clients: &mut Slab<Client<C>>,
    now: Instant,
    clock: &mut K,
    book: &mut B,
)
    ensures steps_search { StepsSearch C.Connection site.now B.Book now clients.old clients.new book.old book.new
        (K.times clock.old) (K.times clock.new) }
    ensures run { Advances site.now B.Book book.old book.new (unanswered clients.old)
        (unanswered clients.new) }
    ensures clean_disk { B.has_clean_disk book.new → B.has_clean_disk book.old }
{
    let Some(key) = next_task(clients) else {
        return;
    };
    let is_crowded = is_crowded(clients);
    match step_search_at(alloc, clients, key, is_crowded, now, clock) {
        Progress::GoesOn => (),
        Progress::NoMemory => (),
        Progress::Answered => {
            let _ = service_at(alloc, site, clients, key, clock, book);
        }
    }
}

// For how long is waited, where that may be so long.
fn time_to_wait<C>(clients: &Slab<Client<C>>, wait: Duration) -> Duration
    ensures idle { NoneAsks clients.now → result ≡ wait }
    ensures asks { (key : ℕ) → AsksAt clients.now key → as_nanos result ≡ 0 }
{
    if next_task(clients).is_some() {
        return Duration::ZERO;
    }
    wait
}

/// How long the next wait may take: no time while a query is searched. None if there is to be no wait.
pub(crate) fn next_wait<C>(clients: &Slab<Client<C>>, wait: Option<Duration>) -> Option<Duration>
    ensures never { wait ≡ None → result ≡ None }
    ensures idle { NoneAsks clients.now → result ≡ wait }
    ensures asks { IfSome result (λ w. (key : ℕ) → AsksAt clients.now key → as_nanos w ≡ 0) }
{
    match wait {
        None => None,
        Some(wait) => Some(time_to_wait(clients, wait)),
    }
}
