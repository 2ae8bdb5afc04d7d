//! Replies in JSON: how a value or a kept text is read as one, and how each is written.
#![tactic(auto)]

mod asking;
mod commands;
mod history;
mod listing;
mod reading;
mod replies;

pub use replies::{entry_text, kept_reply, read_reply, reply_text, reply_value};
