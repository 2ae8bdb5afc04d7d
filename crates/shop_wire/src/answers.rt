//! The response to a line: it is read as a message, a query or a `plans` query, done over a book, and held as a line.

ghost use Rattle.std.specs.Prelude.{◌≡◌, ◌++◌, ◌∷◌, [], ℕ, List, OnOk, OnErr, None};
ghost use Rattle.serde_json.specs.View.{view};
ghost use Rattle.shop_records.specs.WellFormed.{IsWellFormed};
ghost use Rattle.shop_forms.specs.Forms.{message_of, json_texts};
ghost use Rattle.shop_book.specs.Kept.{OnContent};
ghost use Rattle.shop_desk.specs.Faults.{CountsUp};
ghost use Rattle.shop_wire.specs.Replays.{HasAnswered, LineStep, ValueStep, data_of, line_message, response_line};
ghost use Rattle.shop_wire.specs.Responses.{HasPrintedText, IsRead, response_of};

use crate::limits::MAX_LINE_LEN;
use crate::plans::plans_reported;
use crate::reported::{Reported, refused, text_reported};
use serde_json::Value;
use shop_book::Book;
use shop_desk::{ask, handle_with_text};
use shop_plans::read_plans;
use shop_rules::{Refusal, read_message, read_query};
use std::alloc::{AllocError, Global};

// The response to a value that is no message.
fn query_reported<B: Book>(alloc: Global, book: &mut B, value: &Value) -> Reported
    ensures step { message_of (view value.now) ≡ None
        → OnContent B.Book book.old book.new
        (λ m. IsWellFormed json_texts m
        → HasAnswered ValueStep message_of B.Book book.old book.new m (view value.now ∷ [])
        (response_of result ∷ [])) }
    ensures printed { HasPrintedText result }
    ensures clean_disk { B.has_clean_disk book.new → B.has_clean_disk book.old }
    ensures failures { CountsUp (B.failed book.old) (B.failed book.new) }
{
    match read_query(alloc, value) {
        Ok(query) => Reported::Reply(ask(alloc, book, &query), None),
        Err(refusal) => match refusal {
            Refusal::NoMemory => refused(Refusal::NoMemory),
            _ => plans_reported(alloc, book, read_plans(alloc, value)),
        },
    }
}

// The response to a value.
fn value_reported<B: Book>(alloc: Global, book: &mut B, value: &Value) -> Reported
    ensures step { OnContent B.Book book.old book.new
        (λ m. IsWellFormed json_texts m
        → HasAnswered ValueStep message_of B.Book book.old book.new m (view value.now ∷ [])
        (response_of result ∷ [])) }
    ensures printed { HasPrintedText result }
    ensures clean_disk { B.has_clean_disk book.new → B.has_clean_disk book.old }
    ensures failures { CountsUp (B.failed book.old) (B.failed book.new) }
{
    match read_message(alloc, value) {
        Ok(message) => {
            let (reply, text) = handle_with_text(alloc, book, &message);
            Reported::Reply(reply, text)
        }
        Err(refusal) => match refusal {
            Refusal::NoMemory => refused(Refusal::NoMemory),
            _ => query_reported(alloc, book, value),
        },
    }
}

/// The value that a line or a body is. Refused `BadMessage` where it is none, and `NoMemory` where memory runs out.
pub(crate) fn value_in(alloc: Global, line: &[u8]) -> Result<Value, Refusal>
    ensures { IsRead view result (data_of line.now) }
{
    if line.len() > MAX_LINE_LEN {
        return Err(Refusal::BadMessage);
    }
    match Value::from_slice(alloc, line) {
        Ok(value) => Ok(value),
        Err(error) => {
            if error.is_memory() {
                return Err(Refusal::NoMemory);
            }
            Err(Refusal::BadMessage)
        }
    }
}

/// The response to a line. Refused `NoMemory` where memory runs out while the line is read.
pub(crate) fn answer<B: Book>(alloc: Global, book: &mut B, line: &[u8]) -> Reported
    ensures step { OnContent B.Book book.old book.new
        (λ m. IsWellFormed json_texts m
        → HasAnswered LineStep line_message B.Book book.old book.new m (line.now ∷ [])
        (response_of result ∷ [])) }
    ensures printed { HasPrintedText result }
    ensures clean_disk { B.has_clean_disk book.new → B.has_clean_disk book.old }
    ensures failures { CountsUp (B.failed book.old) (B.failed book.new) }
{
    match value_in(alloc, line) {
        Ok(value) => value_reported(alloc, book, &value),
        Err(refusal) => refused(refusal),
    }
}

// Puts a text after what is held, and a line feed, as far as there is memory.
fn hold_line(held: &mut Vec<u8>, text: &str) -> Result<(), AllocError>
    ensures ok { OnOk result (held.new.items ≡ held.old.items ++ (text.now ++ 10 ∷ [])) }
    ensures err { OnErr result
        ((bytes rest : List ℕ) × (bytes ++ rest ≡ text.now ++ 10 ∷ [])
        × (held.new.items ≡ held.old.items ++ bytes)) }
{
    match held.extend_from_slice(text.as_bytes()) {
        Ok(()) => held.extend_from_slice(b"\n"),
        Err(error) => Err(error),
    }
}

/// Puts what is reported after what is held as a line, as far as there is memory.
pub(crate) fn hold_reported(
    alloc: Global,
    reported: Reported,
    held: &mut Vec<u8>,
) -> Result<(), AllocError>
    requires { HasPrintedText reported }
    ensures ok { OnOk result (held.new.items ≡ held.old.items ++ response_line (response_of reported)) }
    ensures err { OnErr result
        ((bytes rest : List ℕ) × (bytes ++ rest ≡ response_line (response_of reported))
        × (held.new.items ≡ held.old.items ++ bytes)) }
{
    let Ok(text) = text_reported(alloc, reported) else {
        return Err(AllocError);
    };
    hold_line(held, text.as_str())
}
