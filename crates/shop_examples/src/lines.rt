//! What a book answers to lines of JSON.

use anyhow::Result;
use serde_json::Value;
use shop_desk::{ask, handle};
use shop_rules::{Reply, read_message, read_query, reply_text};
use shop_store::Book;
use std::alloc::Global;

// What a book answers to a message or to a query.
fn answer<B: Book>(alloc: Global, book: &mut B, value: &Value) -> Reply {
    match read_message(alloc, value) {
        Ok(message) => handle(alloc, book, &message),
        Err(_) => match read_query(alloc, value) {
            Ok(query) => ask(alloc, book, &query),
            Err(refusal) => Reply::Refused(refusal),
        },
    }
}

/// Adds the text of a reply, and a line feed.
pub fn push_reply(alloc: Global, reported: &mut String, reply: &Reply) -> Result<()> {
    reported.push_str(reply_text(alloc, reply)?.as_str())?;
    reported.push_str("\n")?;
    Ok(())
}

/// What a book answers to some lines, a line each.
pub fn answered<B: Book>(alloc: Global, book: &mut B, lines: &str) -> Result<String> {
    let mut reported = String::new(alloc);
    for line in lines.lines() {
        let value = Value::from_str(alloc, line)?;
        push_reply(alloc, &mut reported, &answer(alloc, book, &value))?;
    }
    Ok(reported)
}
