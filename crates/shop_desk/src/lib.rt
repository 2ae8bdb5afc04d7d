//! The shop's desk: it handles messages and answers queries over any book.
#![tactic(auto)]

mod asking;
mod decided;
mod desk_calls;
mod found;
mod history;
mod importing;
mod listing;
mod nodes;
mod pieces;
mod racks;

pub use asking::ask;
pub use desk_calls::{handle, handle_at, handle_with_text, handle_with_text_at, run, run_at};
