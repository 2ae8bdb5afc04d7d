//! What the commands of one store ask for: `ticket`, `yield`, `history`, `audit` and `restore`.

ghost use Rattle.clap.specs.Words.{rows_of, found_of};
ghost use Rattle.shop_words.specs.CommandLine as line;

use crate::values::{has_flag, number_if_any, number_of};
use crate::words::{MAX_AFTER, Request};
use clap::ArgMatches;
use cut_measure::{Code, MAX_NUMBERS};

/// What `ticket` asks for.
pub(crate) fn ticket_request<'a>(ticket: &ArgMatches<'a>) -> Option<Request<'a>>
    ensures { line.AsAsked result (line.IsTicketAsked (rows_of (found_of ticket.now))) }
{
    let store = ticket.get_str("store")?;
    let job = number_of(ticket, "JOB", 1, MAX_NUMBERS)?;
    let read_only = has_flag(ticket, "read-only");
    Some(Request::Ticket {
        store,
        job,
        read_only,
    })
}

/// What `yield` asks for.
pub(crate) fn yield_request<'a>(report: &ArgMatches<'a>) -> Option<Request<'a>>
    ensures { line.AsAsked result (line.IsYieldAsked (rows_of (found_of report.now))) }
{
    let store = report.get_str("store")?;
    let material = Code::read(report.get_str("MATERIAL")?)?;
    let read_only = has_flag(report, "read-only");
    Some(Request::Yield {
        store,
        material,
        read_only,
    })
}

/// What `history` asks for.
pub(crate) fn history_request<'a>(history: &ArgMatches<'a>) -> Option<Request<'a>>
    ensures { line.AsAsked result (line.IsHistoryAsked (rows_of (found_of history.now))) }
{
    let store = history.get_str("store")?;
    let after = number_if_any(history, "after", 0, MAX_AFTER)?;
    let read_only = has_flag(history, "read-only");
    Some(Request::History {
        store,
        after,
        read_only,
    })
}

/// What `audit` asks for.
pub(crate) fn audit_request<'a>(audit: &ArgMatches<'a>) -> Option<Request<'a>>
    ensures { line.AsAsked result (line.IsAuditAsked (rows_of (found_of audit.now))) }
{
    let store = audit.get_str("store")?;
    let read_only = has_flag(audit, "read-only");
    Some(Request::Audit { store, read_only })
}

/// What `restore` asks for.
pub(crate) fn restore_request<'a>(restore: &ArgMatches<'a>) -> Option<Request<'a>>
    ensures { line.AsAsked result (line.IsRestoreAsked (rows_of (found_of restore.now))) }
{
    let store = restore.get_str("store")?;
    let from = restore.get_str("from")?;
    Some(Request::Restore { store, from })
}
