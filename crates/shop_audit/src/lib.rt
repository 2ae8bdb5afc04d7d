//! What the entries of a store report: as lines, and done anew in memory, to see whether the store is whole.
#![tactic(auto)]

mod again;
mod audits;
mod compared;
mod lines;
mod naming;
mod progress;
mod rows;

pub use audits::{Audit, Verdict, audit_book};
pub use lines::{LinesFault, entry_line, write_history};
pub use naming::first_row;
pub use progress::Progress;
pub use rows::Row;
