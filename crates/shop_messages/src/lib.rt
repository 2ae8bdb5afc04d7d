//! Messages and queries in JSON: how a value is read as one, and how a message is written.
#![tactic(auto)]

mod asking;
mod commands;
mod halting;
mod importing;
mod listing;
mod messages;
mod ordering;

pub use commands::write_message;
pub use messages::{
    kept_message, message_text, message_value, read_message, read_query, sent_message,
};
