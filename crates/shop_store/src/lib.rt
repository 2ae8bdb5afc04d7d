//! Books, which keep what the shop contains: in memory, and in SQL tables.
#![tactic(auto)]

mod adders;
mod checking;
mod entries;
mod ledger_book;
mod loadable;
mod loaded;
mod loading;
mod loading_parts;
mod mem_book;
mod numbered;
mod part_loader;
mod posted;
mod remembered;
mod reopening;
mod sql;
mod sql_storage;
mod sql_storing;
mod stories;
mod uses;

pub use loaded::Loaded;
pub use loading::{load_earlier_ledger, load_ledger, load_second_ledger};
pub use mem_book::MemBook;
pub use posted::LedgerBook;
pub use reopening::{left_commits_are_found, left_renewals_are_found, reopen_book};
pub use shop_book::{Book, BookFault, FoundJob, JobHead, MAX_FAILURES};
pub use shop_records::PartVisitor;
pub use sql::SqlBook;
pub use sql_storage::SqlStorage;
