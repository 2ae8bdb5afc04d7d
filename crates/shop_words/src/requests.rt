//! What the words of the command line ask for.

ghost use Rattle.std.specs.Prelude.{◌≡◌, [], IfOk, IfErr, map, string_bytes};
ghost use Rattle.clap.specs.Words.{rows_of, found_of, subcommand_of, subcommand_rows_of};
ghost use Rattle.clap.specs.Kinds.{HasKind};
ghost use Rattle.clap.specs.Faults.{fault_of};
ghost use Rattle.shop_words.specs.CommandLine as line;
ghost use Rattle.shop_words.specs.Mistakes.{IsRead};

use crate::commands::command_of;
use crate::imports::orders_request;
use crate::mistakes::mistake_of;
use crate::planned::plan_request;
use crate::served::serve_request;
use crate::stored::{
    audit_request, history_request, restore_request, ticket_request, yield_request,
};
use crate::words::{Reading, Request, Word, word_of};
use clap::{ArgMatches, Error};
use std::alloc::{AllocError, Global};

// What a command asks for with its values.
fn request_in<'a>(
    alloc: Global,
    word: Word,
    values: &ArgMatches<'a>,
) -> Result<Option<Request<'a>>, AllocError>
    ensures { IfOk result
        (λ found. line.AsAsked found (line.IsAsked word (rows_of (found_of values.now)))) }
{
    match word {
        Word::Replay => Ok(Some(Request::Replay)),
        Word::Plan => plan_request(alloc, values),
        Word::Orders => Ok(orders_request(values)),
        Word::Serve => serve_request(alloc, values),
        Word::Ticket => Ok(ticket_request(values)),
        Word::Yield => Ok(yield_request(values)),
        Word::History => Ok(history_request(values)),
        Word::Audit => Ok(audit_request(values)),
        Word::Restore => Ok(restore_request(values)),
    }
}

// What the command that was read asks for.
fn request_read<'a>(
    alloc: Global,
    matches: &ArgMatches<'a>,
) -> Result<Option<Request<'a>>, AllocError>
    ensures { IfOk result
        (λ found. line.AsAsked found (line.AsksFor (subcommand_rows_of matches.now))) }
{
    let Some((name, values)) = matches.subcommand() else {
        return Ok(None);
    };
    match word_of(name) {
        Some(word) => request_in(alloc, word, values),
        None => Ok(None),
    }
}

// What the command that was read asks for, or the mistake by which it asks for nothing.
fn reading_of<'a>(alloc: Global, matches: &ArgMatches<'a>) -> Result<Reading<'a>, AllocError>
    ensures { IfOk result (IsRead (subcommand_rows_of matches.now)) }
{
    match request_read(alloc, matches) {
        Ok(Some(request)) => Ok(Reading::Request(request)),
        Ok(None) => Ok(Reading::Mistake(mistake_of(matches))),
        Err(out) => Err(out),
    }
}

/// The request of the words, the first of which is the program's name. An `Err` is `clap`'s, for help or an error in
/// the words.
pub fn request_of<'a>(alloc: Global, words: &'a [String]) -> Result<Reading<'a>, Error>
    ensures ok { IfOk result (λ reading.
        (fault_of line.shop_app (map string_bytes words.entry.now) ≡ [])
        × IsRead (subcommand_of line.shop_app (map string_bytes words.entry.now)) reading) }
    ensures err { IfErr result
        (HasKind (fault_of line.shop_app (map string_bytes words.entry.now))) }
{
    let command = command_of(alloc)?;
    let matches = command.try_get_matches_from(words)?;
    let reading = reading_of(alloc, &matches)?;
    Ok(reading)
}
