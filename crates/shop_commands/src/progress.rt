//! Shows on a terminal at standard error how far an audit or a history is, and that a large store is being opened.

ghost use Rattle.std.specs.Prelude.{◌≡◌, IfOk, string_bytes};
ghost use Rattle.shop_commands.specs.Log as spec;

use libc::{STDERR_FILENO, isatty};
use shop_advice::printed_text;
use shop_audit::Progress;
use std::alloc::{AllocError, Global};
use std::fs::{self, Files};
use std::io::Eprint;
use std::time::{Clock, Duration, Instant};

/// For how long after a line, and at first, nothing is reported, in milliseconds.
const PAUSE: u64 = 500;

/// A megabyte, in bytes.
const MEGABYTE: u64 = 1_048_576;

/// A store of fewer bytes than these opens within a second.
const LARGE_STORE: u64 = 16_777_216;

/// Shows on a terminal at standard error how far the work is. It shows nothing if there is no terminal, or if the clock
/// can't be read.
#[derive_where(Clone, Copy)]
pub(crate) struct Meter<'a, R> {
    rt: &'a R,
    alloc: Global,
    // When the last line was reported, or it began; none where nothing is reported.
    reported: Option<Instant>,
}

// The line that reports how far it is.
fn progress_line(alloc: Global, done: u64, all: u64) -> Result<String, AllocError>
    ensures { IfOk result (λ line. string_bytes line ≡ spec.progress_line done all) }
{
    let mut line = String::new(alloc);
    write!(line, "cutshop: {done} of {all} entries\n")?;
    Ok(line)
}

// Whether a line was reported so shortly before that the next one waits.
fn is_early(reported: Instant, now: Instant) -> bool
    ensures { result ≡ spec.is_early reported now }
{
    now.duration_since(reported) < Duration::from_millis(PAUSE)
}

impl<'a, R: Eprint + Clock> Meter<'a, R> {
    /// Begins now.
    pub(crate) fn new(rt: &'a R, alloc: Global) -> Meter<'a, R> {
        let reported = if isatty(STDERR_FILENO) == 1 {
            Instant::now(rt).ok()
        } else {
            None
        };
        Meter {
            rt,
            alloc,
            reported,
        }
    }

    // Reports how far it is. A line that can't be made or written is left out.
    fn report(&self, done: u64, all: u64) {
        if let Ok(line) = progress_line(self.alloc, done, all) {
            let _ = self.rt.eprint(line.as_str());
        }
    }
}

impl<'a, R: Eprint + Clock> Progress for Meter<'a, R> {
    fn note(&mut self, done: u64, all: u64) {
        let Some(reported) = self.reported else {
            return;
        };
        let Ok(now) = Instant::now(self.rt) else {
            return;
        };
        if !is_early(reported, now) {
            self.reported = Some(now);
            self.report(done, all);
        }
    }
}

// The line that reports that a large store is being opened.
fn opening_line(alloc: Global, store: &str, megabytes: u64) -> Result<String, AllocError>
    ensures { IfOk result (λ line. string_bytes line ≡ spec.opening_line store.now megabytes) }
{
    let mut line = String::new(alloc);
    write!(line, "cutshop: opening {store}, {megabytes} MB\n")?;
    Ok(line)
}

/// Shows on a terminal at standard error that a large store is being opened, since nothing is shown while the port checks its
/// rows. A line that can't be made or written is left out.
pub(crate) fn note_opening<R: Files + Eprint>(rt: &R, alloc: Global, store: &str) {
    let Ok(found) = fs::metadata(rt, store) else {
        return;
    };
    if found.len() < LARGE_STORE || isatty(STDERR_FILENO) != 1 {
        return;
    }
    let Ok(name) = printed_text(alloc, store) else {
        return;
    };
    if let Ok(line) = opening_line(alloc, name.as_str(), found.len() / MEGABYTE) {
        let _ = rt.eprint(line.as_str());
    }
}
