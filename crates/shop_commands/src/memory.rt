//! How much memory a store takes, after memory ran out.

ghost use Rattle.std.specs.Prelude.{◌≡◌, IfSome, IfOk, string_bytes};
ghost use Rattle.shop_commands.specs.Advice as spec;
ghost use Rattle.shop_commands.specs.Advice.{IsAdviceOf};
ghost use Rattle.shop_commands.specs.declared.faults.Fault.TheVariants as fault;

use crate::advice::{Advice, Cause, advice_of};
use shop_words::Request;
use std::alloc::{AllocError, Global};
use std::fs::{self, Files};

// What the program takes without a store, in megabytes.
const MIN_MEGABYTES: u64 = 16;

// A store that a request opens: its path, and whether its files are read into memory whole.
#[derive(Clone, Copy)]
struct Asked<'a> {
    path: &'a str,
    is_apart: bool,
}

fn asked_store<'a>(request: &Request<'a>) -> Option<Asked<'a>> {
    match request {
        Request::Serve(serving) => Some(Asked {
            path: serving.store,
            is_apart: false,
        }),
        Request::Ticket {
            store,
            read_only,
            ..
        } => Some(Asked {
            path: store,
            is_apart: *read_only,
        }),
        Request::Yield {
            store,
            read_only,
            ..
        } => Some(Asked {
            path: store,
            is_apart: *read_only,
        }),
        Request::History {
            store,
            read_only,
            ..
        } => Some(Asked {
            path: store,
            is_apart: *read_only,
        }),
        Request::Audit { store, .. } => Some(Asked {
            path: store,
            is_apart: true,
        }),
        _ => None,
    }
}

// How many bytes a file has, 0 where it isn't found.
fn length_of<R: Files>(rt: &R, path: &str) -> u64 {
    match fs::metadata(rt, path) {
        Ok(found) => found.len(),
        Err(_) => 0,
    }
}

// How many bytes a store and its log have.
fn store_length<R: Files>(rt: &R, alloc: Global, path: &str) -> Result<u64, AllocError> {
    let log = format!(in alloc; "{path}-wal")?;
    Ok(length_of(rt, path).saturating_add(length_of(rt, log.as_str())))
}

// How many megabytes a store of so many bytes takes about. Files that are read into memory whole are there three times: as they were
// read, as a database, and as rows.
fn wanted_megabytes(is_apart: bool, bytes: u64) -> u64
    ensures { result ≡ spec.wanted_megabytes is_apart bytes }
{
    let each = bytes / 1_000_000 + 1;
    if is_apart {
        3 * each + MIN_MEGABYTES
    } else {
        each + MIN_MEGABYTES
    }
}

// The same in words.
fn wanted_text(alloc: Global, is_apart: bool, bytes: u64) -> Result<String, AllocError>
    ensures { IfOk result (λ text. string_bytes text ≡ spec.wanted_text is_apart bytes) }
{
    let megabytes = wanted_megabytes(is_apart, bytes);
    format!(in alloc; "{megabytes} MB")
}

/// About how much memory the store of a request takes, after memory ran out. None if there is no store, or if memory
/// runs out here.
pub(crate) fn memory_advice<R: Files>(
    rt: &R,
    alloc: Global,
    request: &Request<'_>,
) -> Option<Advice>
    ensures { IfSome result (IsAdviceOf fault.NoMemory) }
{
    let store = asked_store(request)?;
    let bytes = store_length(rt, alloc, store.path).ok()?;
    if bytes == 0 {
        return None;
    }
    let wanted = wanted_text(alloc, store.is_apart, bytes).ok()?;
    advice_of(alloc, store.path, Cause::Memory, wanted.as_str())
}
