//! Messages that are handled at once, and decisions at totals and numbers that no lines come to.

ghost use Rattle.std.specs.Prelude.{◌≤◌};

use crate::lines::push_reply;
use anyhow::{Error, Result};
use serde_json::Value;
use shop_desk::run;
use shop_machine::importing::decide_problem;
use shop_machine::ordering::FoundLine;
use shop_machine::receiving::decide_receive;
use shop_records::no_totals;
use shop_rules::{
    Change, Code, Kind, Limits, Material, Message, OrderLine, Refusal, Reply, Size, Text, Totals,
    read_message,
};
use shop_store::{Book, MemBook};
use std::alloc::Global;

// The messages of a list.
fn messages_of(alloc: Global, given: &str) -> Result<Vec<Message>> {
    let value = Value::from_str(alloc, given)?;
    let mut messages = Vec::new(alloc);
    if let Value::Array(parts) = &value {
        for part in parts {
            match read_message(alloc, part) {
                Ok(message) => messages.push(message)?,
                Err(_) => return Err(Error::msg("no message")),
            }
        }
    }
    Ok(messages)
}

// What a book replies to messages, a line each.
fn run_over<B: Book>(alloc: Global, book: &mut B, messages: &[Message]) -> Result<String> {
    let mut reported = String::new(alloc);
    for reply in run(alloc, book, messages)?.iter() {
        push_reply(alloc, &mut reported, reply)?;
    }
    if book.failures() > 0 {
        return Err(Error::msg("a book failed"));
    }
    Ok(reported)
}

/// What a book replies to the messages of a list, a line each.
pub fn run_over_memory(alloc: Global, given: &str) -> Result<String> {
    let messages = messages_of(alloc, given)?;
    run_over(alloc, &mut MemBook::new(alloc), &messages)
}

// A material whose bars are cut, by its code.
fn row_of(steel: Code) -> Result<Material> {
    match Limits::new(Kind::Bar, 3, 20, 1) {
        Some(limits) => Ok(Material {
            code: steel,
            kind: Kind::Bar,
            limits,
        }),
        None => Err(Error::msg("no limits")),
    }
}

// Totals of a material of which so much was received and nothing is left.
fn spent(received: u64) -> Totals {
    Totals {
        received,
        scrap: received,
        ..no_totals()
    }
}

// The refusal's number, and 0 for a change.
fn number_of(decided: Result<Change, Refusal>) -> Result<u32> {
    match decided {
        Ok(_) => Ok(0),
        Err(Refusal::NoMemory) => Err(Error::msg("no memory")),
        Err(refusal) => Ok(refusal.number()),
    }
}

// What is decided of a receipt of bars one tenth long, where so much was received.
fn received_reported(alloc: Global, steel: Code, received: u64, act: u32, count: u32) -> Result<u32>
    requires { 1 ≤ act }
{
    let row = Some(row_of(steel)?);
    let totals = spent(received);
    let decided = decide_receive(alloc, row, totals, act, steel, steel, 1, 1, count);
    number_of(decided)
}

// What is decided of a problem of one bar one tenth long and a piece as long, where so much was received.
fn imported_reported(alloc: Global, steel: Code, received: u64, act: u32, first: u32) -> Result<u32>
    requires act { 1 ≤ act }
    requires first { 1 ≤ first }
{
    let Some(size) = Size::new(Kind::Bar, 1, 1) else {
        return Err(Error::msg("no size"));
    };
    let line = OrderLine {
        line: 1,
        material: steel,
        w: 1,
        h: 1,
        turn: false,
        count: 1,
        worth: 1,
    };
    let lines = [FoundLine {
        line,
        material: Some(row_of(steel)?),
    }];
    let known = Some(row_of(steel)?);
    let totals = spent(received);
    let text = Text::new(alloc);
    let decided = decide_problem(
        alloc, false, known, totals, steel, steel, text, size, &lines, act, first,
    );
    number_of(decided)
}

/// The refusals, or 0, of receipts and of problems at the last cell of a material, one after it, and at the last numbers of an
/// act and of a demand, and one after them.
pub fn last_cells(alloc: Global) -> Result<String> {
    let Some(steel) = Code::read("STEEL") else {
        return Err(Error::msg("no code"));
    };
    let receipts = [
        received_reported(alloc, steel, 999_999_999_999_999, 1, 1)?,
        received_reported(alloc, steel, 999_999_999_999_999, 1, 2)?,
        received_reported(alloc, steel, 0, 2_147_483_647, 1)?,
        received_reported(alloc, steel, 0, 2_147_483_648, 1)?,
    ];
    let problems = [
        imported_reported(
            alloc,
            steel,
            999_999_999_999_999,
            2_147_483_647,
            2_147_483_647,
        )?,
        imported_reported(alloc, steel, 1_000_000_000_000_000, 2_147_483_648, 1)?,
        imported_reported(alloc, steel, 0, 2_147_483_648, 1)?,
        imported_reported(alloc, steel, 0, 1, 2_147_483_648)?,
    ];
    Ok(format!(in alloc; "receipts {receipts:?}, problems {problems:?}\n")?)
}
