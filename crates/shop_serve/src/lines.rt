//! Lines for standard error, which nobody has to read: a line that can't be written at once is dropped and counted, and
//! equal lines are written once a minute.

ghost use Rattle.std.specs.Prelude.{◌≡◌, IfOk, string_bytes};
ghost use Rattle.shop_serve.specs.Lines.{due_at, due_of, is_line, line_text, lost_text, printed_line, times_text};

use libc::net::{POLLOUT, poll};
use libc::types::pollfd;
use shop_advice::{has_control, printed_text};
use std::alloc::{AllocError, Global};
use std::io::Eprint;
use std::time::{Clock, Duration, Instant};

// The descriptor of standard error.
const STANDARD_ERROR: i32 = 2;

// The most bytes that are written at once: a pipe that takes any takes as many.
const MAX_BYTES: usize = 4096;

// How many different lines are known at once.
const MAX_KNOWN: usize = 256;

// After how many seconds an equal line is written again.
const MINUTE: u64 = 60;

// A line that was written: when, and how many equal ones were left out since.
#[derive(Drop)]
pub(crate) struct Known {
    line: String,
    written: Instant,
    left_out: u32,
}

/// What to do with a line: write it, with the number of equal ones that were left out; or leave it out.
#[derive(Clone, Copy, Debug, PartialEq, Eq)]
pub(crate) enum Due {
    Written(u32),
    LeftOut,
}

/// Lines for standard error: those already written, and how many were dropped since the last one.
#[derive(Drop)]
pub struct Lines {
    alloc: Global,
    known: Vec<Known>,
    lost: u32,
}

// Whether a line is one that was written.
fn is_line(known: &Known, line: &str) -> bool
    ensures { result ≡ is_line line.now known.now }
{
    known.line.as_str() == line
}

// What is to be done with a line that was written.
fn due_at(known: &Known, now: Instant) -> Due
    ensures { result ≡ due_at known.now now }
{
    if now.duration_since(known.written) < Duration::from_secs(MINUTE) {
        Due::LeftOut
    } else {
        Due::Written(known.left_out)
    }
}

// What is to be done with a line.
fn due_of(known: &[Known], line: &str, now: Instant) -> Due
    ensures { result ≡ due_of line.now now known.now }
{
    let [first, rest @ ..] = known else {
        return Due::Written(0);
    };
    if is_line(first, line) {
        return due_at(first, now);
    }
    due_of(rest, line, now)
}

// How many lines weren't written, where there are any.
fn lost_text(alloc: Global, lost: u32) -> Result<String, AllocError>
    ensures { IfOk result (λ text. string_bytes text ≡ lost_text lost) }
{
    if lost == 0 {
        return Ok(String::new(alloc));
    }
    format!(in alloc; "cutshop: {lost} lines were not written\n")
}

// How many equal lines were left out, where there are any.
fn times_text(alloc: Global, left_out: u32) -> Result<String, AllocError>
    ensures { IfOk result (λ text. string_bytes text ≡ times_text left_out) }
{
    if left_out == 0 {
        return Ok(String::new(alloc));
    }
    format!(in alloc; " ({left_out} times)")
}

// What is written of a line without its end, with more before it or behind it.
fn line_text(alloc: Global, lost: u32, line: &str, left_out: u32) -> Result<String, AllocError>
    ensures { IfOk result (λ text. string_bytes text ≡ line_text lost line.now left_out) }
{
    let lost = lost_text(alloc, lost)?;
    let times = times_text(alloc, left_out)?;
    let mut text = String::new(alloc);
    text.push_str(lost.as_str())?;
    text.push_str(line)?;
    text.push_str(times.as_str())?;
    text.push_str("\n")?;
    Ok(text)
}

// Whether standard error takes some bytes at once.
fn takes(length: usize) -> bool {
    let mut asked = [pollfd {
        fd: STANDARD_ERROR,
        events: POLLOUT,
        revents: 0,
    }];
    length <= MAX_BYTES && poll(&mut asked, 0) == 1 && asked[0].revents == POLLOUT
}

// Writes a text, where it can be written at once, and reports whether it was.
fn is_written<R: Eprint>(rt: &R, text: &str) -> bool {
    takes(text.len()) && rt.eprint(text).is_ok()
}

// A line without its end.
fn bare<'a>(line: &'a str) -> &'a str {
    line.strip_suffix('\n').unwrap_or(line)
}

// A line, given without its end, with its control characters as numbers.
fn printed_line(alloc: Global, line: &str) -> Result<String, AllocError>
    ensures { IfOk result (λ printed. string_bytes printed ≡ printed_line line.now) }
{
    let mut printed = printed_text(alloc, line)?;
    printed.push_str("\n")?;
    Ok(printed)
}

// Forgets the first of the lines, where as many are known as may be.
fn forget_oldest(known: &mut Vec<Known>) {
    if known.len() >= MAX_KNOWN {
        drop(known.remove(0));
    }
}

impl Lines {
    /// No line was written so far.
    pub fn new(alloc: Global) -> Lines {
        Lines {
            alloc,
            known: Vec::new(alloc),
            lost: 0,
        }
    }

    // Counts one that is left out.
    fn leave_out(&mut self, line: &str) {
        for known in self.known.iter_mut() {
            if is_line(known, line) {
                known.left_out = known.left_out.saturating_add(1);
            }
        }
    }

    // Knows one that was written.
    fn know(&mut self, line: &str, now: Instant) {
        self.known.retain(|known| !is_line(known, line));
        forget_oldest(&mut self.known);
        if let Ok(line) = String::from_str(self.alloc, line) {
            let _ = self.known.push(Known {
                line,
                written: now,
                left_out: 0,
            });
        }
    }

    // Whether one could be made and written at once, behind as many equal ones as were left out. It takes no memory where nothing
    // more is to be reported.
    fn is_reported<R: Eprint>(&self, rt: &R, line: &str, left_out: u32) -> bool {
        if self.lost == 0 && left_out == 0 {
            return is_written(rt, line);
        }
        match line_text(self.alloc, self.lost, bare(line), left_out) {
            Ok(text) => is_written(rt, text.as_str()),
            Err(_) => false,
        }
    }

    // Writes one, behind as many equal ones as were left out. One that can't be made or written at once is counted.
    fn write_now<R: Eprint>(&mut self, rt: &R, line: &str, left_out: u32, now: Instant) {
        if !self.is_reported(rt, line, left_out) {
            self.lose();
            return;
        }
        self.lost = 0;
        self.know(line, now);
    }

    // Writes one where the clock can't be read. One that can't be made or written at once is counted.
    fn write_undated<R: Eprint>(&mut self, rt: &R, line: &str) {
        if self.is_reported(rt, line, 0) {
            self.lost = 0;
        } else {
            self.lose();
        }
    }

    // Counts one that isn't written.
    fn lose(&mut self) {
        self.lost = self.lost.saturating_add(1);
    }

    // Writes one that has no control character before its end.
    fn write_printed<R: Eprint + Clock>(&mut self, rt: &R, line: &str) {
        match Instant::now(rt) {
            Ok(now) => match due_of(&self.known, line, now) {
                Due::LeftOut => self.leave_out(line),
                Due::Written(left_out) => self.write_now(rt, line, left_out, now),
            },
            Err(_) => self.write_undated(rt, line),
        }
    }

    /// Writes a line, which includes its line end. Its other control characters are written as numbers, such as
    /// `\u{1b}`. A line that can't be made or written at once is dropped, and the next line is preceded by the number
    /// of dropped ones. A line equal to an earlier one is written again after a minute, with how many were left out. If
    /// the clock can't be read, each line is written.
    pub fn write<R: Eprint + Clock>(&mut self, rt: &R, line: &str) {
        if !has_control(bare(line)) {
            self.write_printed(rt, line);
            return;
        }
        match printed_line(self.alloc, bare(line)) {
            Ok(printed) => self.write_printed(rt, printed.as_str()),
            Err(_) => self.lose(),
        }
    }
}
