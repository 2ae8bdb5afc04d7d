//! The open connections: each with its deadline's start, its query, and how much of its answer was sent.

ghost use Rattle.std.specs.Prelude.{◌≡◌, ◌≢◌, ◌⊎◌, ◌<◌, ◌≤◌, ◌+◌, ◌-◌, ◌*◌, ◌↔◌, length, None, Some, true, false, IfSome, IsSome, IsSomeAnd};
ghost use Rattle.std.specs.Time.{instant_nanos};
ghost use Rattle.std.specs.Io.KnownBytes.{IsAtEnd};
ghost use Rattle.shop_request.specs.Reading.{IsReadOn};
ghost use Rattle.shop_request.specs.Parses.{IsDetermined};
ghost use Rattle.shop_serve.specs.Clients.{AwaitsMore, ClosesLate, IsServiced, IsServicedAt, CanOpenOne, IsClosedBy, IsMute, IsOldest, IsOpened, IsOver, IsSpoiled, IsTurnedAway, EvictsOldest, MayGo, NoneMayGo, StopsAt, TakesAnswer, is_begun, is_late, is_unanswered, unanswered};
ghost use Rattle.shop_serve.specs.Making.{IsAsked, put_answer, put_made, put_task};
ghost use Rattle.shop_planning.specs.PlanTasks.{instance_in};
ghost use Rattle.shop_serve.specs.declared.clients.ConnectionStatus.TheVariants as status;
ghost use Rattle.shop_serve.specs.Serving.{Advances, HasServed, IsAnsweredThen};
ghost use Rattle.shop_serve.specs.Times.{StandsUntil, ReportsNone};
ghost use Rattle.shop_serve.specs.declared.transfers.Given.TheVariants as given;
ghost use Rattle.shop_serve.specs.declared.transfers.Taken.TheVariants as taken;

use crate::answers::{Made, made_of};
use crate::clocks::{ServerClock, is_done};
use crate::connections::Connection;
use crate::ports::Port;
use crate::searching::{FAIR_CALLS, RunningTask};
use crate::sites::Site;
use crate::transfers::{Given, Rest, Taken, drop_rest, hand_over, take_bytes};
use shop_book::Book;
use shop_planning::PlanTask;
use shop_request::Head;
use slab::Slab;
use std::alloc::Global;
use std::time::{Duration, Instant};

/// How many seconds a connection has to send its request, from accept, and then to take its answer.
pub const PATIENCE: u64 = 10;

/// The most connections that are open at once.
pub const MAX_CLIENTS: usize = 256;

/// An open connection: when it was accepted, its query was read or its answer was made; the bytes that arrived; at
/// least how many its request needs; its query, if one is searched; its answer, and how much of it was sent.
#[derive(Drop)]
pub(crate) struct Client<C> {
    pub(crate) stream: C,
    pub(crate) since: Instant,
    pub(crate) received: Vec<u8>,
    pub(crate) needed: usize,
    pub(crate) task: Option<RunningTask>,
    pub(crate) answer: Option<Vec<u8>>,
    pub(crate) sent: usize,
}

/// What happens to a serviced connection: it stays open, or it is closed because it is over or memory ran out.
#[derive(Clone, Copy, PartialEq, Eq)]
pub(crate) enum ConnectionStatus {
    Stays,
    Over,
    NoMemory,
}

// Hands over what is left of the answer, as far as it is taken. After its last byte it is ended.
fn answer_on<C: Connection>(client: &mut Client<C>) -> Given
    ensures kept { (client.new.received ≡ client.old.received) × (client.new.answer ≡ client.old.answer) }
    ensures since { client.new.since ≡ client.old.since }
    ensures task { client.new.task ≡ client.old.task }
    ensures idle { client.old.answer ≡ None → (client.new ≡ client.old) × (result ≡ given.Waits) }
    ensures takes { result ≢ given.Lost
        → IfSome client.old.answer (λ answer.
        TakesAnswer C.Connection answer.items client.old.stream client.old.sent client.new.stream
        client.new.sent) }
    ensures whole { result ≡ given.Whole
        → IsSomeAnd client.new.answer (λ answer. client.new.sent ≡ length answer.items) }
    ensures full { result ≡ given.Waits → IsSome client.old.answer → C.is_full client.new.stream }
    ensures stops { result ≢ given.Lost
        → IfSome client.old.answer (λ answer.
        StopsAt C.Connection answer.items client.new.stream client.new.sent) }
    ensures lost { result ≡ given.Lost → C.is_lost client.new.stream
        ⊎ IsSomeAnd client.old.answer (λ answer. length answer.items < client.old.sent) }
    ensures memory { result ≢ given.NoMemory }
{
    let Some(answer) = &client.answer else {
        return Given::Waits;
    };
    if client.sent > answer.len() {
        return Given::Lost;
    }
    hand_over(&mut client.stream, answer, &mut client.sent)
}

/// Gives a connection its answer. From now on it has its seconds to take it.
pub(crate) fn put_answer<C>(client: &mut Client<C>, answer: Vec<u8>, now: Instant)
    ensures { client.new ≡ put_answer client.old answer now }
{
    drop(client.task.take());
    client.answer = Some(answer);
    client.sent = 0;
    client.since = now;
}

// Puts a query into a connection, which waits for its search.
fn put_task<C>(client: &mut Client<C>, task: PlanTask, now: Instant)
    ensures { client.new ≡ put_task client.old task now }
{
    drop(
        client.task.replace(RunningTask {
            task,
            last: None,
            left: FAIR_CALLS,
        }),
    );
    client.answer = None;
    client.sent = 0;
    client.since = now;
}

// Puts what was made of its request into a connection.
fn put_made<C>(client: &mut Client<C>, made: Made, now: Instant)
    ensures { client.new ≡ put_made client.old made now }
{
    match made {
        Made::Answer(answer) => put_answer(client, answer, now),
        Made::PlanTask(task) => put_task(client, task, now),
    }
}

// Reads what has arrived of a request. Once it is whole, has it answered, by a backup too, or begins its query.
fn ask<C: Connection, K: ServerClock, B: Book>(
    alloc: Global,
    site: &Site,
    client: &mut Client<C>,
    clock: &mut K,
    book: &mut B,
) -> Taken
    requires waits { client.old.answer ≡ None }
    requires asks { client.old.task ≡ None }
    ensures read { result ≢ taken.Over → result ≢ taken.NoMemory
        → IsReadOn (C.remaining client.old.stream)
        (C.remaining client.new.stream) client.old.received.items client.new.received.items }
    ensures kept { C.contents client.new.stream ≡ C.contents client.old.stream }
    ensures waits { result ≡ taken.Waits → (client.new.answer ≡ None)
        × (client.new.task ≡ None) × (book.new ≡ book.old) × C.is_drained client.new.stream }
    ensures goes_on { result ≡ taken.Waits → (client.new.since ≡ client.old.since)
        × ReportsNone (K.times clock.old) (K.times clock.new) }
    ensures since { result ≡ taken.Whole → IsSome client.new.task
        → StandsUntil (K.times clock.old) (K.times clock.new) client.new.since }
    ensures awaits { result ≡ taken.Waits → AwaitsMore client.old.received.items client.old.needed
        → AwaitsMore client.new.received.items client.new.needed }
    ensures over { result ≡ taken.Over
        → IsMute C.Connection client.old.stream client.old.received.items client.new.stream
        client.new.received.items }
    ensures begins { result ≡ taken.Whole → (IsSome client.new.answer × (client.new.task ≡ None)
        ⊎ IsSome client.new.task × (client.new.answer ≡ None)) × (client.new.sent ≡ 0) }
    ensures whole { result ≡ taken.Whole → IsDetermined client.new.received.items
        ⊎ IsAtEnd (C.remaining client.new.stream) }
    ensures own { IfSome client.new.answer
        (λ answer. IsAnsweredThen site.now B.Book book.old book.new (K.times clock.old)
        (K.times clock.new) client.new.since client.new.received.items answer.items) }
    ensures asked { IfSome client.new.task
        (λ t. (t.last ≡ None) × IsAsked site.now B.Book book.old book.new client.new.received.items
        (instance_in t.task)) }
    ensures one { HasServed site.now B.Book book.old book.new 1 }
    ensures clean_disk { B.has_clean_disk book.new → B.has_clean_disk book.old }
{
    let mut head = Head::new();
    match take_bytes(
        &site.routes,
        &mut client.stream,
        &mut client.received,
        &mut client.needed,
        &mut head,
    ) {
        Taken::NoMemory => return Taken::NoMemory,
        Taken::Over => return Taken::Over,
        Taken::Waits => return Taken::Waits,
        Taken::Whole => (),
    }
    clock.stop();
    let Some(made) = made_of(alloc, site, &head, &client.received, clock, book) else {
        return Taken::NoMemory;
    };
    put_made(client, made, clock.now());
    Taken::Whole
}

// Drops what still comes of a connection whose query is searched. Where its input ends it waits: its query is reported as
// far as it was searched.
fn discard_input<C: Connection>(client: &mut Client<C>) -> Given
    ensures kept { client.new ≡ record client.old { stream = client.new.stream } }
    ensures contents { C.contents client.new.stream ≡ C.contents client.old.stream }
    ensures lost { result ≡ given.Lost → C.is_lost client.new.stream }
    ensures known { (result ≡ given.Waits) ⊎ (result ≡ given.Lost) }
{
    match drop_rest(&mut client.stream) {
        Rest::Lost => Given::Lost,
        Rest::MayCome | Rest::Comes | Rest::Ended => Given::Waits,
    }
}

// Takes what has come of a request, has it answered once it is whole, and hands over its answer as far as it is taken. One
// whose query is searched waits.
fn service<C: Connection, K: ServerClock, B: Book>(
    alloc: Global,
    site: &Site,
    client: &mut Client<C>,
    clock: &mut K,
    book: &mut B,
) -> Given
    ensures serviced { result ≢ given.Lost → result ≢ given.NoMemory
        → IsServiced C.Connection site.now B.Book client.old client.new book.old book.new
        (K.times clock.old) (K.times clock.new) }
    ensures lost { result ≡ given.Lost
        → IsSpoiled C.Connection site.now B.Book client.old client.new }
    ensures whole { result ≡ given.Whole
        → IsSomeAnd client.new.answer (λ answer. client.new.sent ≡ length answer.items) }
    ensures once { is_unanswered (Some client.old) ≡ false → book.new ≡ book.old }
    ensures one { HasServed site.now B.Book book.old book.new 1 }
    ensures clean_disk { B.has_clean_disk book.new → B.has_clean_disk book.old }
{
    if client.answer.is_some() {
        return answer_on(client);
    }
    if client.task.is_some() {
        return discard_input(client);
    }
    match ask(alloc, site, client, clock, book) {
        Taken::NoMemory => return Given::NoMemory,
        Taken::Over => return Given::Lost,
        Taken::Waits => return Given::Waits,
        Taken::Whole => (),
    }
    answer_on(client)
}

// Drops what still comes after an answer that was handed over and ended. The connection stays while more of the request may
// come: to close before its end would lose the answer.
fn finish<C: Connection>(client: &mut Client<C>) -> ConnectionStatus
    ensures kept { (client.new.received ≡ client.old.received) × (client.new.answer ≡ client.old.answer)
        × (client.new.sent ≡ client.old.sent) }
    ensures since { client.new.since ≡ client.old.since }
    ensures task { client.new.task ≡ client.old.task }
    ensures contents { C.contents client.new.stream ≡ C.contents client.old.stream }
    ensures ended { C.has_ended client.old.stream → C.has_ended client.new.stream }
    ensures over { result ≡ status.Over → IsOver C.Connection client.new }
{
    match drop_rest(&mut client.stream) {
        Rest::Ended => return ConnectionStatus::Over,
        Rest::Lost => return ConnectionStatus::Over,
        Rest::MayCome | Rest::Comes => (),
    }
    match &client.answer {
        Some(answer) if is_done(answer) => ConnectionStatus::Over,
        _ => ConnectionStatus::Stays,
    }
}

// Services a connection.
fn service_once<C: Connection, K: ServerClock, B: Book>(
    alloc: Global,
    site: &Site,
    client: &mut Client<C>,
    clock: &mut K,
    book: &mut B,
) -> ConnectionStatus
    ensures serviced { result ≡ status.Stays
        → IsServiced C.Connection site.now B.Book client.old client.new book.old book.new
        (K.times clock.old) (K.times clock.new) }
    ensures over { result ≡ status.Over
        → IsClosedBy C.Connection site.now B.Book status.Over client.old book.old book.new
        (K.times clock.old) (K.times clock.new) }
    ensures once { is_unanswered (Some client.old) ≡ false → book.new ≡ book.old }
    ensures one { HasServed site.now B.Book book.old book.new 1 }
    ensures clean_disk { B.has_clean_disk book.new → B.has_clean_disk book.old }
{
    match service(alloc, site, client, clock, book) {
        Given::Waits => ConnectionStatus::Stays,
        Given::Lost => ConnectionStatus::Over,
        Given::NoMemory => ConnectionStatus::NoMemory,
        Given::Whole => finish(client),
    }
}

/// Services the connection under a key, and closes it if it is over or memory runs out.
pub(crate) fn service_at<C: Connection + Drop, K: ServerClock, B: Book>(
    alloc: Global,
    site: &Site,
    clients: &mut Slab<Client<C>>,
    key: usize,
    clock: &mut K,
    book: &mut B,
) -> ConnectionStatus
    ensures at { IsServicedAt C.Connection site.now B.Book result key clients.old clients.new book.old
        book.new (K.times clock.old) (K.times clock.new) }
    ensures run { Advances site.now B.Book book.old book.new (unanswered clients.old)
        (unanswered clients.new) }
    ensures clean_disk { B.has_clean_disk book.new → B.has_clean_disk book.old }
{
    let Some(client) = clients.get_mut(key) else {
        return ConnectionStatus::Stays;
    };
    match service_once(alloc, site, client, clock, book) {
        ConnectionStatus::Stays => ConnectionStatus::Stays,
        ConnectionStatus::Over => {
            drop(clients.try_remove(key));
            ConnectionStatus::Over
        }
        ConnectionStatus::NoMemory => {
            drop(clients.try_remove(key));
            ConnectionStatus::NoMemory
        }
    }
}

/// Whether a connection's query has had a search step already.
pub(crate) fn is_begun<C>(client: &Client<C>) -> bool
    ensures { result ≡ is_begun client.now }
{
    match &client.task {
        Some(searching) => searching.last.is_some(),
        None => false,
    }
}

// Whether a connection may be closed for another: its answer isn't on its way, and its query has had no search step.
fn may_go<C>(client: &Client<C>) -> bool
    ensures { result ≡ true ↔ MayGo client.now }
{
    match &client.answer {
        None => !is_begun(client),
        Some(answer) => client.sent >= answer.len(),
    }
}

// Whether a moment is before that of what was found so far.
fn is_older(found: Option<(usize, Instant)>, since: Instant) -> bool
    ensures older { result ≡ true → IfSome found (λ f. instant_nanos since ≤ instant_nanos f.1) }
    ensures younger { result ≡ false
        → IsSomeAnd found (λ f. instant_nanos f.1 ≤ instant_nanos since) }
{
    found.is_none_or(|(_, first)| since < first)
}

// The key of the oldest connection that may go.
fn oldest<C>(clients: &Slab<Client<C>>) -> Option<usize>
    ensures found { IfSome result (IsOldest clients.now) }
    ensures none { result ≡ None → NoneMayGo clients.now }
{
    let mut found: Option<(usize, Instant)> = None;
    for (key, client) in clients.iter() {
        if may_go(client) && is_older(found, client.since) {
            found = Some((key, client.since));
        }
    }
    match found {
        Some((key, _)) => Some(key),
        None => None,
    }
}

/// Whether another connection may be opened, perhaps in place of an open one.
pub(crate) fn can_open_one<C>(clients: &Slab<Client<C>>) -> bool
    ensures { result ≡ true ↔ CanOpenOne clients.now }
{
    clients.len() < MAX_CLIENTS || oldest(clients).is_some()
}

// Closes the oldest connection that may be closed, if the maximum is open, or if the port has no descriptor left.
fn evict_oldest<C: Drop>(clients: &mut Slab<Client<C>>, is_scarce: bool)
    requires cleared { CanOpenOne clients.old }
    ensures cleared { EvictsOldest is_scarce clients.old clients.new }
    ensures fewer { unanswered clients.new ≤ unanswered clients.old }
{
    if clients.len() < MAX_CLIENTS && !is_scarce {
        return;
    }
    if let Some(key) = oldest(clients) {
        drop(clients.try_remove(key));
    }
}

/// Opens a connection, perhaps in place of another, and returns the key under which it is registered. If it can't be
/// opened it is closed.
pub(crate) fn open_client<C: Drop, P: Port<C>>(
    alloc: Global,
    port: &mut P,
    stream: C,
    now: Instant,
    clients: &mut Slab<Client<C>>,
) -> Option<usize>
    requires cleared { CanOpenOne clients.old }
    ensures opened { IfSome result (λ key. IsOpened P.Port port.old now stream key clients.old clients.new) }
    ensures registered { IfSome result (λ key. P.is_registered port.new stream key) }
    ensures closed { result ≡ None → IsTurnedAway P.Port port.old clients.old clients.new }
    ensures fewer { unanswered clients.new ≤ unanswered clients.old + 1 }
    ensures reported { P.all_reported port.new ≡ P.all_reported port.old }
    ensures given { P.given port.new ≡ P.given port.old }
{
    evict_oldest(clients, port.is_scarce());
    let mut stream = stream;
    if !port.register(&mut stream, clients.vacant_key()) {
        return None;
    }
    let client = Client {
        stream,
        since: now,
        received: Vec::new(alloc),
        needed: 0,
        task: None,
        answer: None,
        sent: 0,
    };
    clients.insert(client).ok()
}

// Whether a connection has had its time. While its query is searched it has none.
fn is_late<C>(client: &Client<C>, now: Instant) -> bool
    ensures { result ≡ is_late now client.now }
{
    client.task.is_none() && now.duration_since(client.since) >= Duration::from_secs(PATIENCE)
}

/// Closes the connections whose seconds are over.
pub(crate) fn close_late<C: Drop>(clients: &mut Slab<Client<C>>, now: Instant)
    ensures late { ClosesLate now clients.old clients.new }
    ensures fewer { unanswered clients.new ≤ unanswered clients.old }
{
    clients.retain(|_, client| !is_late(client, now));
}
