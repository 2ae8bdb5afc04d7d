//! What a server logs about itself on standard error. A line that can't be made or written is left out.

ghost use Rattle.std.specs.Prelude.{◌≡◌, IfOk, string_bytes};
ghost use Rattle.shop_commands.specs.Log as spec;

use shop_backup::Backups;
use shop_serve::{Lines, Site, note_clock};
use shop_store::BookFault;
use shop_words::VERSION;
use std::alloc::{AllocError, Global};
use std::io::Eprint;
use std::time::Clock;

// What it reports when it begins where it judges no name.
const ANY_HOST: &str =
    "cutshop: Host isn't judged; with --host or --origin only requests for names of this shop are answered\n";

// What it reports when it begins, of a store that was made.
fn new_line(alloc: Global, store: &str) -> Result<String, AllocError>
    ensures { IfOk result (λ line. string_bytes line ≡ spec.new_line store.now) }
{
    format!(in alloc; "cutshop {VERSION}: serving {store}, a new store")
}

// What it reports when it begins, of a store that was there.
fn known_line(alloc: Global, store: &str) -> Result<String, AllocError>
    ensures { IfOk result (λ line. string_bytes line ≡ spec.known_line store.now) }
{
    format!(in alloc; "cutshop {VERSION}: serving {store}, a store that was there")
}

// What it reports when it begins, of a store that was made or was there.
fn reported_line(alloc: Global, store: &str, is_new: bool) -> Result<String, AllocError>
    ensures { IfOk result (λ line. string_bytes line ≡ spec.reported_line store.now is_new) }
{
    if is_new {
        new_line(alloc, store)
    } else {
        known_line(alloc, store)
    }
}

// How many messages are kept, where that was counted.
fn kept_text(alloc: Global, kept: Option<u32>) -> Result<String, AllocError>
    ensures { IfOk result (λ text. string_bytes text ≡ spec.kept_text kept) }
{
    match kept {
        Some(kept) => format!(in alloc; ", messages kept: {kept}"),
        None => Ok(String::new(alloc)),
    }
}

// The line with which it begins, of both.
fn begin_line(alloc: Global, reported: &str, kept: &str) -> Result<String, AllocError>
    ensures { IfOk result (λ line. string_bytes line ≡ spec.begin_line reported.now kept.now) }
{
    let mut line = String::new(alloc);
    line.push_str(reported)?;
    line.push_str(kept)?;
    line.push_str("\n")?;
    Ok(line)
}

// The line with which it ends.
fn end_line(alloc: Global, store: &str) -> Result<String, AllocError>
    ensures { IfOk result (λ line. string_bytes line ≡ spec.end_line store.now) }
{
    format!(in alloc; "cutshop {VERSION}: ended serving {store}\n")
}

fn note<R: Eprint + Clock>(rt: &R, lines: &mut Lines, line: Result<String, AllocError>) {
    if let Ok(line) = line {
        lines.write(rt, line.as_str());
    }
}

/// Logs that a store is served, whether it was created, and how many messages it keeps, if they were counted.
pub(crate) fn note_begin<R: Eprint + Clock>(
    rt: &R,
    alloc: Global,
    lines: &mut Lines,
    store: &str,
    is_new: bool,
    kept: Option<u32>,
) {
    if let Ok(reported) = reported_line(alloc, store, is_new) {
        if let Ok(kept) = kept_text(alloc, kept) {
            note(
                rt,
                lines,
                begin_line(alloc, reported.as_str(), kept.as_str()),
            );
        }
    }
}

/// Logs that requests under any host name are answered, if they are.
pub(crate) fn note_host<R: Eprint + Clock>(rt: &R, lines: &mut Lines, site: &Site) {
    if !site.judges_host() {
        lines.write(rt, ANY_HOST);
    }
}

/// Logs that backups are where they are lost together with the store, if they are.
pub(crate) fn note_disk<R: Eprint + Clock>(rt: &R, lines: &mut Lines, backups: Option<&Backups>) {
    if let Some(backups) = backups {
        if backups.is_on_store_disk() {
            lines.write(rt, "cutshop: backups lie on the store's own disk\n");
        }
    }
}

/// Logs that the machine's clock is over an hour behind the last entry, if it is; `last`: that entry's number and time.
pub(crate) fn note_last<R: Eprint + Clock>(
    rt: &R,
    lines: &mut Lines,
    last: Result<(u64, u64), BookFault>,
) {
    if let Ok((_, at)) = last {
        note_clock(rt, lines, at);
    }
}

/// Logs that a store isn't served any more.
pub(crate) fn note_end<R: Eprint + Clock>(rt: &R, alloc: Global, lines: &mut Lines, store: &str) {
    note(rt, lines, end_line(alloc, store));
}
