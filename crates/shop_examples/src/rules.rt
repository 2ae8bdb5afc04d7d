//! Messages and replies as values of JSON: they are read from them and written as them.

use crate::lines::push_reply;
use anyhow::{Error, Result};
use serde_json::Value;
use shop_rules::{Reply, kept_reply, message_value, read_message, read_reply, reply_value};
use std::alloc::Global;

// The text of a value, and a line feed.
fn line_of(alloc: Global, value: &Value) -> Result<String> {
    let mut line = value.to_string(alloc)?;
    line.push_str("\n")?;
    Ok(line)
}

/// The text of the value of a message.
pub fn message_reported(alloc: Global, given: &str) -> Result<String> {
    match read_message(alloc, &Value::from_str(alloc, given)?) {
        Ok(message) => line_of(alloc, &message_value(alloc, &message)?),
        Err(_) => Err(Error::msg("no message")),
    }
}

/// The text of the value of a reply that is read, or that the text is none of those.
pub fn reply_reported(alloc: Global, given: &str) -> Result<String> {
    let kept = kept_reply(alloc, given)?.is_some();
    match read_reply(alloc, &Value::from_str(alloc, given)?) {
        Ok(reply) => line_of(alloc, &reply_value(alloc, &reply)?),
        Err(_) if !kept => Ok(String::from_str(alloc, "not kept\n")?),
        _ => Err(Error::msg("the reply is read in two ways")),
    }
}

/// The text of a bound with the greatest number of units.
pub fn greatest_bound(alloc: Global) -> Result<String> {
    let mut reported = String::new(alloc);
    let bound = Reply::Bound {
        best: 60,
        units: 18446744073709551615,
    };
    push_reply(alloc, &mut reported, &bound)?;
    Ok(reported)
}
