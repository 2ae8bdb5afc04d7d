//! What a server logs about an answer if memory ran out or the store failed, and about its backups.

ghost use Rattle.std.specs.Prelude.{◌≡◌, IfOk, option_map, string_bytes};
ghost use Rattle.shop_advice.specs.Notes as spec;

use crate::causes::{BackupCause, FailureCause};
use std::alloc::{AllocError, Global};

// Whether an answer has the status 503.
fn is_unavailable(answer: &[u8]) -> bool
    ensures { result ≡ spec.is_unavailable answer.now }
{
    answer.starts_with(b"HTTP/1.1 503 ")
}

// Whether the text of an answer ends as one for which memory ran out.
fn reports_memory(answer: &[u8]) -> bool
    ensures { result ≡ spec.reports_memory answer.now }
{
    answer.ends_with(b":98}")
}

/// Whether an answer's bytes report that the store failed (99): the status is 503, and it isn't the answer of memory
/// that ran out (98).
pub fn reports_failure(answer: &[u8]) -> bool
    ensures { result ≡ spec.reports_failure answer.now }
{
    is_unavailable(answer) && !reports_memory(answer)
}

// The words for a store that failed.
fn failure_note(cause: FailureCause) -> &'static str
    ensures { result.now ≡ spec.failure_note cause }
{
    match cause {
        FailureCause::Full => {
            "cutshop: answered 99 StoreFault; the disk is full; make room, and messages are accepted again\n"
        }
        FailureCause::Shut => {
            "cutshop: answered 99 StoreFault; look at the store's disk, and start this program anew\n"
        }
        FailureCause::Passing => "cutshop: answered 99 StoreFault; look at the store's disk\n",
    }
}

/// The log line about an answer, by its bytes: if the status is 503, that memory ran out (98), or that the store failed
/// (99) and why; none for another answer. `cause` matters only if the answer reports a failure (`reports_failure`).
pub fn answer_note(answer: &[u8], cause: FailureCause) -> Option<&'static str>
    ensures { option_map (λ note. note.now) result ≡ spec.answer_note answer.now cause }
{
    if reports_failure(answer) {
        return Some(failure_note(cause));
    }
    if is_unavailable(answer) {
        return Some(
            "cutshop: answered 98 NoMemory; end other programs, or give this one more memory\n",
        );
    }
    None
}

/// The log line about a backup that was made: its number, and its folder.
pub fn backup_note(alloc: Global, number: u32, folder: &str) -> Result<String, AllocError>
    ensures { IfOk result (λ note. string_bytes note ≡ spec.backup_note number folder.now) }
{
    format!(in alloc; "cutshop: made backup {number} in {folder}\n")
}

/// The log line about a backup that couldn't be made in a folder.
pub fn no_backup_note(alloc: Global, cause: BackupCause, folder: &str) -> Result<String, AllocError>
    ensures { IfOk result (λ note. string_bytes note ≡ spec.no_backup_note cause folder.now) }
{
    let cause = cause.text();
    format!(in alloc; "cutshop: answered 99 StoreFault; no backup was made in {folder}: {cause}\n")
}
