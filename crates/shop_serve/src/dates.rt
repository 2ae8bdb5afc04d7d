//! The machine's clock, by which messages get their times, and whether it is behind the last entry.

ghost use Rattle.std.specs.Prelude.{◌≡◌};
ghost use Rattle.shop_serve.specs.Dates.{is_behind};

use crate::lines::Lines;
use std::io::Eprint;
use std::time::{Clock, SystemTime};

// By how many seconds the clock may be behind the last entry before that is reported.
const HOUR: u64 = 3600;

// What is reported about a clock that is behind.
const BEHIND: &str = "cutshop: the clock is behind the last entry by over an hour\n";

/// The second that the machine's clock reads, since 1970-01-01 00:00 UTC; 0 if it can't be read or is before that.
pub fn second_now<R: Clock>(rt: &R) -> u64 {
    match SystemTime::now(rt) {
        Ok(now) => match now.duration_since(SystemTime::UNIX_EPOCH) {
            Ok(since) => since.as_secs(),
            Err(_) => 0,
        },
        Err(_) => 0,
    }
}

// Whether a clock is behind a time by over an hour.
fn is_behind(second: u64, last: u64) -> bool
    ensures { result ≡ is_behind second last }
{
    last.saturating_sub(second) > HOUR
}

/// Logs that the machine's clock is over an hour behind the last entry, if it is.
pub fn note_clock<R: Eprint + Clock>(rt: &R, lines: &mut Lines, last: u64) {
    if is_behind(second_now(rt), last) {
        lines.write(rt, BEHIND);
    }
}
