//! Reads a connection until its bytes are a whole request, and sends the bytes of its answer.

ghost use Rattle.std.specs.Prelude.{◌≡◌, ◌≢◌, ◌⊎◌, ◌<◌, ◌≤◌, ◌++◌, ℕ, List, Option, [], length, take};
ghost use Rattle.shop_serve.specs.Clients.{AwaitsMore, IsMute, StopsAt};
ghost use Rattle.std.specs.Io.KnownBytes.{Appends, Consumes, IsAtEnd};
ghost use Rattle.shop_request.specs.Reading.{IsHeadIn, IsReadOn};
ghost use Rattle.shop_request.specs.Parses.{IsDetermined};
ghost use Rattle.shop_serve.specs.declared.transfers.ReadOutcome.TheVariants as piece;
ghost use Rattle.shop_serve.specs.declared.transfers.Given.TheVariants as given;
ghost use Rattle.shop_serve.specs.declared.transfers.Rest.TheVariants as rest;
ghost use Rattle.shop_serve.specs.declared.transfers.Taken.TheVariants as taken;

use crate::connections::{Connection, Stall};
use shop_request::{Head, Routes, is_whole, least_bytes};

const BUFFER_SIZE: usize = 8192;

// More bytes than come of any request: fewer than 139264, and a piece.
const MAX_BYTES: usize = 150_000;

// How often is read at once of what is dropped: more than a socket keeps.
const MAX_DROPS: u32 = 1024;

/// The outcome of one read.
#[derive(Clone, Copy, PartialEq, Eq)]
pub(crate) enum ReadOutcome {
    More,
    End,
    Waits,
    Lost,
    NoMemory,
}

/// The outcome of reading a request.
#[derive(Clone, Copy, PartialEq, Eq)]
pub(crate) enum Taken {
    Whole,
    Waits,
    Over,
    NoMemory,
}

// Takes a piece more, where there is one.
fn take_piece<C: Connection>(stream: &mut C, received: &mut Vec<u8>) -> ReadOutcome
    ensures more { result ≡ piece.More → (p : List ℕ) × (0 < length p)
        × (received.new.items ≡ received.old.items ++ p)
        × Consumes (C.remaining stream.old) (C.remaining stream.new) p }
    ensures end { result ≡ piece.End → (received.new.items ≡ received.old.items)
        × IsAtEnd (C.remaining stream.new)
        × Consumes (C.remaining stream.old) (C.remaining stream.new) [] }
    ensures waits { result ≡ piece.Waits → (received.new.items ≡ received.old.items)
        × Consumes (C.remaining stream.old) (C.remaining stream.new) [] }
    ensures drained { result ≡ piece.Waits → C.is_drained stream.new }
    ensures lost { result ≡ piece.Lost → C.is_lost stream.new }
    ensures kept { C.contents stream.new ≡ C.contents stream.old }
{
    let mut buffer = [0; BUFFER_SIZE];
    let count = match stream.read_some(&mut buffer) {
        Ok(count) => count,
        Err(Stall::Waits) => return ReadOutcome::Waits,
        Err(Stall::Lost) => return ReadOutcome::Lost,
    };
    if count == 0 {
        return ReadOutcome::End;
    }
    match received.extend_from_slice(&buffer[..count]) {
        Ok(()) => ReadOutcome::More,
        Err(_) => ReadOutcome::NoMemory,
    }
}

// What there is at the end of what comes.
fn at_end(received: &[u8]) -> Taken
    ensures some { result ≡ taken.Whole → 0 < length received.now }
    ensures none { result ≡ taken.Over → received.now ≡ [] }
    ensures over { (result ≡ taken.Whole) ⊎ (result ≡ taken.Over) }
{
    if received.is_empty() {
        return Taken::Over;
    }
    Taken::Whole
}

/// Takes the bytes that have arrived until they are a whole request or an error, or end, and reads their head.
/// `needed`, if known, is how many bytes that takes at least: with fewer the head isn't parsed again.
pub(crate) fn take_bytes<C: Connection>(
    routes: &Routes,
    stream: &mut C,
    received: &mut Vec<u8>,
    needed: &mut usize,
    head: &mut Head,
) -> Taken
    ensures bytes { result ≢ taken.Over → result ≢ taken.NoMemory
        → IsReadOn (C.remaining stream.old) (C.remaining stream.new) received.old.items received.new.items }
    ensures some { result ≡ taken.Whole → 0 < length received.new.items }
    ensures head { result ≡ taken.Whole → IsHeadIn received.new.items head.new }
    ensures whole { result ≡ taken.Whole → IsDetermined received.new.items
        ⊎ IsAtEnd (C.remaining stream.new) }
    ensures waits { result ≡ taken.Waits → AwaitsMore received.old.items needed.old
        → AwaitsMore received.new.items needed.new }
    ensures drained { result ≡ taken.Waits → C.is_drained stream.new }
    ensures over { result ≡ taken.Over
        → IsMute C.Connection stream.old received.old.items stream.new received.new.items }
    ensures kept { C.contents stream.new ≡ C.contents stream.old }
{
    while received.len() < MAX_BYTES {
        match take_piece(stream, received) {
            ReadOutcome::NoMemory => return Taken::NoMemory,
            ReadOutcome::Lost => return Taken::Over,
            ReadOutcome::Waits => return Taken::Waits,
            ReadOutcome::End => {
                *head = Head::read(routes, received);
                return at_end(received);
            }
            ReadOutcome::More => (),
        }
        if received.len() < *needed {
            continue;
        }
        *head = Head::read(routes, received);
        if is_whole(head, received) {
            return Taken::Whole;
        }
        *needed = least_bytes(head, received);
    }
    Taken::Over
}

/// The outcome of sending an answer.
#[derive(Clone, Copy, PartialEq, Eq)]
pub(crate) enum Given {
    Whole,
    Waits,
    Lost,
    NoMemory,
}

/// Sends what is left of an answer, as far as the connection takes it: the bytes after those already sent, and no
/// others. After the last byte the output is ended.
pub(crate) fn hand_over<C: Connection>(stream: &mut C, answer: &[u8], sent: &mut usize) -> Given
    requires { sent.old ≤ length answer.now }
    ensures within { sent.new ≤ length answer.now }
    ensures bytes { result ≢ given.Lost → (before : Option (List ℕ))
        → Appends before (C.contents stream.old) (take sent.old answer.now)
        → Appends before (C.contents stream.new) (take sent.new answer.now) }
    ensures whole { result ≡ given.Whole → sent.new ≡ length answer.now }
    ensures full { result ≡ given.Waits → C.is_full stream.new }
    ensures stops { result ≢ given.Lost → StopsAt C.Connection answer.now stream.new sent.new }
    ensures lost { result ≡ given.Lost → C.is_lost stream.new }
    ensures memory { result ≢ given.NoMemory }
{
    while *sent < answer.len() {
        match stream.write_some(&answer[*sent..]) {
            Ok(count) => *sent += count,
            Err(Stall::Waits) => return Given::Waits,
            Err(Stall::Lost) => return Given::Lost,
        }
    }
    stream.end_writing();
    Given::Whole
}

/// What may still follow the input that was dropped: more may arrive but hasn't so far, more arrives without a pause,
/// or nothing does, because the input ended or is lost.
#[derive(Clone, Copy, PartialEq, Eq)]
pub(crate) enum Rest {
    MayCome,
    Comes,
    Ended,
    Lost,
}

/// Reads the remaining input and drops it.
pub(crate) fn drop_rest<C: Connection>(stream: &mut C) -> Rest
    ensures drained { result ≡ rest.MayCome → C.is_drained stream.new }
    ensures ended { result ≡ rest.Ended → IsAtEnd (C.remaining stream.new) }
    ensures lost { result ≡ rest.Lost → C.is_lost stream.new }
    ensures kept { C.contents stream.new ≡ C.contents stream.old }
    ensures reported { C.has_ended stream.old → C.has_ended stream.new }
{
    let mut buffer = [0; BUFFER_SIZE];
    for _ in 0..MAX_DROPS {
        match stream.read_some(&mut buffer) {
            Ok(0) => return Rest::Ended,
            Ok(_) => (),
            Err(Stall::Waits) => return Rest::MayCome,
            Err(Stall::Lost) => return Rest::Lost,
        }
    }
    Rest::Comes
}
