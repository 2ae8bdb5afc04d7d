//! Seconds since 1970 as days and times of the calendar.
#![tactic(auto)]

ghost use Rattle.std.specs.Prelude.{IfOk, IfSome};
ghost use Rattle.shop_times.specs.Times.{IsInstantOf, IsTextOf, IsTimeText};

use jiff::{Error, Timestamp};
use std::alloc::{AllocError, Global};

// How a time is written.
const FORMAT: &str = "%Y-%m-%d %H:%M:%S UTC";

// The instant of a second; none of one behind the calendar.
fn instant_of(second: u64) -> Option<Timestamp>
    ensures { IfSome result (IsInstantOf second) }
{
    match Timestamp::from_second(i64::try_from(second).ok()?) {
        Ok(instant) => Some(instant),
        Err(_) => None,
    }
}

// An instant as a day and a time.
fn text_of(alloc: Global, instant: Timestamp) -> Result<Option<String>, AllocError>
    ensures { IfOk result (λ text. IfSome text (IsTextOf instant.nanosecond)) }
{
    match instant.strftime(alloc, FORMAT.as_bytes()) {
        Ok(text) => Ok(Some(text)),
        Err(Error::OutOfMemory) => Err(AllocError),
        Err(_) => Ok(None),
    }
}

/// A second, counted from 1970-01-01 00:00 UTC, as a day and a time of the calendar in UTC: `2026-11-28 02:00:13 UTC`. There is
/// none for a second behind 9999-12-30 22:00:00, where `jiff` ends. The only error: memory ran out.
pub fn time_text(alloc: Global, second: u64) -> Result<Option<String>, AllocError>
    ensures { IfOk result (λ text. IfSome text (IsTimeText second)) }
{
    match instant_of(second) {
        Some(instant) => text_of(alloc, instant),
        None => Ok(None),
    }
}
