//! What is promised of a book, which keeps what the shop contains; rows in a ledger, and a storage in memory.
#![tactic(auto)]

mod books;
mod due_jobs;
mod end_rows;
mod entry_index;
mod index_keys;
mod job_ends;
mod job_index;
mod keeping;
mod known_orders;
mod ledger;
mod ledger_copies;
mod ledger_pieces;
mod ledger_rows;
mod loading;
mod mem_storage;
mod mem_storing;
mod memory_lists;
mod memory_parts;
mod number_index;
mod piece_index;
mod posting;
mod read_rows;
mod same_entries;
mod same_halts;
mod storage;
mod stories;
mod uses;

pub use books::{Book, BookFault, FoundJob, JobHead, MAX_FAILURES};
pub use end_rows::JobEnds;
pub use ledger::Ledger;
pub use mem_storage::MemStorage;
pub use number_index::NumberIndex;
pub use read_rows::ReadRows;
pub use same_halts::is_same_halt;
pub use storage::{Storage, StorageFault};
pub use uses::{ListedUse, StrayUse};
