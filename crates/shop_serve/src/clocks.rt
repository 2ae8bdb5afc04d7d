//! What a server needs beside its connections: its time, which stands still while a request is answered, its backups,
//! and whether the store's names still lead to its files.

ghost use Rattle.std.specs.Prelude.{◌≡◌, ◌+◌, ◌-◌, ◌<◌, ◌≤◌, IfSome, None, min, unwrap_or, option_map};
ghost use Rattle.std.specs.Duration.{as_nanos, max_nanos};
ghost use Rattle.std.specs.Time.{instant_nanos};
ghost use Rattle.shop_serve.specs.Clocks.{IsTimeAt, failed_after, is_done, is_store_fault, still_after, still_nanos};

use crate::dates::second_now;
use crate::faults::ServeFault;
use crate::lines::Lines;
use shop_advice::{FailureCause, answer_note, backup_note, no_backup_note, reports_failure};
use shop_backup::{BackupFault, Backups, Names, stayed_note};
use shop_rules::Refusal;
use std::alloc::{AllocError, Global};
use std::fs::Files;
use std::io::Eprint;
use std::time::{Clock, Duration, Instant};

/// The server's clock, which also makes its backups.
pub(crate) trait ServerClock {
    ghost use Rattle.std.specs.Prelude.{◌≡◌, ℕ, IfSome, Option};
    ghost use Rattle.shop_serve.specs.Times.{Copies, Looks, Stands, Times, Reports, ReportsNone};

    /// The times reported so far, where it stood still, what backups led to, and where the store's names led, if these
    /// are known.
    ghost times: { Self → Times };

    /// The second that its clock reads, if it is known.
    ghost date: { Self → Option ℕ };

    /// Reports the time; the clock runs again if it stood still.
    fn now(&mut self) -> Instant
        ensures { Reports (times self.old) (times self.new) result };

    /// Stands still until the time is reported next.
    fn stop(&mut self)
        ensures { Stands (times self.old) (times self.new) };

    /// The current second since 1970-01-01 00:00 UTC; 0 if it can't be read or is before that.
    fn second(&self) -> u64
        ensures { IfSome (date self.now) (λ second. result ≡ second) };

    /// Whether the store's names lead to the files that are open.
    fn is_in_place(&mut self) -> bool
        ensures { Looks (times self.old) (times self.new) result };

    /// Makes a backup of the store, and returns its number; 99 if it can't be made, 98 if memory ran out. Everything
    /// but lack of memory is logged.
    fn back_up(&mut self, alloc: Global) -> Result<u32, Refusal>
        ensures { Copies (times self.old) (times self.new) result };

    /// Whether the store failed at a message, and no message succeeded since.
    fn has_failed(&self) -> bool;

    /// Takes note of an answer, to a message or to something else: records whether the store failed, and logs an answer
    /// 98 or 99.
    fn note(&mut self, is_message: bool, answer: &[u8])
        ensures { ReportsNone (times self.old) (times self.new) };
}

// A time without that for which it stood still: the last one, since when it stands still, if it does, and for how long it did before.
#[derive(Clone, Copy)]
struct Timer {
    last: Instant,
    stopped: Option<Instant>,
    still: Duration,
}

/// The timer of a clock, the names of a store, its backups, if any are made, and whether it failed.
#[derive(Drop)]
pub(crate) struct PausableClock<'a, R> {
    clock: &'a R,
    alloc: Global,
    timer: Timer,
    names: &'a Names,
    backups: Option<&'a Backups>,
    lines: &'a mut Lines,
    failed: bool,
}

impl<'a, R: Clock> PausableClock<'a, R> {
    /// The time of this clock, from now on. `Port`: it can't be read.
    pub(crate) fn new(
        clock: &'a R,
        alloc: Global,
        names: &'a Names,
        backups: Option<&'a Backups>,
        lines: &'a mut Lines,
    ) -> Result<PausableClock<'a, R>, ServeFault> {
        match Instant::now(clock) {
            Ok(last) => Ok(PausableClock {
                clock,
                alloc,
                timer: Timer {
                    last,
                    stopped: None,
                    still: Duration::ZERO,
                },
                names,
                backups,
                lines,
                failed: false,
            }),
            Err(_) => Err(ServeFault::Port),
        }
    }
}

// For how long a clock stood still that reads this now, and stood still before and from this on.
fn still_until(still: Duration, stopped: Option<Instant>, reading: Instant) -> Duration
    ensures { as_nanos result ≡ still_after (as_nanos still) stopped reading }
{
    match stopped {
        Some(from) => still.saturating_add(reading.saturating_duration_since(from)),
        None => still,
    }
}

// The time that a clock which reads this reports, less that for which it stood still; where that is more, the last one again.
fn time_at(reading: Instant, still: Duration, last: Instant) -> Instant
    ensures less { as_nanos still ≤ instant_nanos reading
        → instant_nanos result + as_nanos still ≡ instant_nanos reading }
    ensures more { instant_nanos reading < as_nanos still → result ≡ last }
{
    match reading.checked_sub(still) {
        Some(time) => time,
        None => last,
    }
}

// A timer that goes on, whose clock reads this, or can't be read: then its time is the last one again.
fn go_on(timer: Timer, reading: Option<Instant>) -> Timer
    ensures goes { result.stopped ≡ None }
    ensures unread { reading ≡ None → result ≡ record timer { stopped = None } }
    ensures still { IfSome reading (λ r. as_nanos result.still ≡ still_nanos timer r) }
    ensures time { IfSome reading (λ r. IsTimeAt r timer result) }
{
    match reading {
        Some(reading) => {
            let still = still_until(timer.still, timer.stopped, reading);
            Timer {
                last: time_at(reading, still, timer.last),
                stopped: None,
                still,
            }
        }
        None => Timer {
            stopped: None,
            ..timer
        },
    }
}

// A timer that stands still from here on, where its clock reads this; where that can't be read it goes on.
fn stand_still(timer: Timer, reading: Option<Instant>) -> Timer
    ensures { result ≡ record timer { stopped = reading } }
{
    Timer {
        stopped: reading,
        ..timer
    }
}

/// Whether an answer reports success: then its request was read to the last byte.
pub(crate) fn is_done(answer: &[u8]) -> bool
    ensures { result ≡ is_done answer.now }
{
    answer.starts_with(b"HTTP/1.1 200 ")
}

// Whether an answer reports that the store failed.
fn is_store_fault(answer: &[u8]) -> bool
    ensures { result ≡ is_store_fault answer.now }
{
    answer.starts_with(b"HTTP/1.1 503 ") && answer.ends_with(b":99}")
}

// Whether the store failed, after an answer to a message: as it reports, and where it reports nothing of that, as before.
fn failed_after(failed: bool, answer: &[u8]) -> bool
    ensures { result ≡ failed_after failed answer.now }
{
    is_store_fault(answer) || failed && !is_done(answer)
}

// Why the store failed, where an answer reports that it did: its disk has no room, or else it is shut from then on.
fn failure_of<R: Files>(rt: &R, alloc: Global, names: &Names, answer: &[u8]) -> FailureCause {
    if reports_failure(answer) && names.is_disk_full(rt, alloc) {
        FailureCause::Full
    } else {
        FailureCause::Shut
    }
}

// Reports a line. One that can't be made is left out.
fn note<R: Eprint + Clock>(rt: &R, lines: &mut Lines, line: Result<String, AllocError>) {
    if let Ok(line) = line {
        lines.write(rt, line.as_str());
    }
}

// Reports who runs the server of the backups that couldn't be taken away.
fn note_stayed<R: Eprint + Clock>(
    rt: &R,
    alloc: Global,
    lines: &mut Lines,
    folder: &str,
    stayed: &[u32],
) {
    for number in stayed {
        note(rt, lines, stayed_note(alloc, *number, folder));
    }
}

// Makes a backup, and reports who runs the server of it.
fn back_up<R: Files + Eprint + Clock>(
    rt: &R,
    alloc: Global,
    backups: &Backups,
    lines: &mut Lines,
) -> Result<u32, Refusal> {
    match backups.make(rt, alloc) {
        Ok(made) => {
            note(rt, lines, backup_note(alloc, made.number, backups.folder()));
            note_stayed(rt, alloc, lines, backups.folder(), &made.stayed);
            Ok(made.number)
        }
        Err(BackupFault::NoMemory) => Err(Refusal::NoMemory),
        Err(BackupFault::Failed(cause)) => {
            note(rt, lines, no_backup_note(alloc, cause, backups.folder()));
            Err(Refusal::StoreFault)
        }
    }
}

impl<'a, R: Clock + Eprint + Files> ServerClock for PausableClock<'a, R> {
    ghost use Rattle.std.specs.Prelude.{None};

    ghost times = { λ _. None };

    ghost date = { λ _. None };

    // Where the clock can't be read it is the last time again.
    fn now(&mut self) -> Instant {
        self.timer = go_on(self.timer, Instant::now(self.clock).ok());
        self.timer.last
    }

    fn stop(&mut self) {
        self.timer = stand_still(self.timer, Instant::now(self.clock).ok());
    }

    fn second(&self) -> u64 {
        second_now(self.clock)
    }

    fn is_in_place(&mut self) -> bool {
        self.names.lead_there(self.clock)
    }

    fn back_up(&mut self, alloc: Global) -> Result<u32, Refusal> {
        match self.backups {
            Some(backups) => back_up(self.clock, alloc, backups, self.lines),
            None => Err(Refusal::StoreFault),
        }
    }

    fn has_failed(&self) -> bool {
        self.failed
    }

    fn note(&mut self, is_message: bool, answer: &[u8]) {
        if is_message {
            self.failed = failed_after(self.failed, answer);
        }
        let cause = failure_of(self.clock, self.alloc, self.names, answer);
        if let Some(line) = answer_note(answer, cause) {
            self.lines.write(self.clock, line);
        }
    }
}
