//! Rows in the order of their keys, lists of the keys of what is open, and the sums of a material's parts.
#![tactic(auto)]

mod keys;
mod laws;
mod lines;
mod names;
mod open;
mod part_rows;
mod reserving;
mod rows;
mod sums;

pub use laws::origin_limits;
pub use lines::{Span, between, by_line};
pub use names::{
    NameList, OpenPart, list_all, list_in_place, list_part, names_after, reserve_list,
    reserve_names,
};
pub use open::{OpenRows, entries_after, list_demands, list_job, numbers_after};
pub use part_rows::{Origin, PartRow, PartRows};
pub use reserving::reserve_rows;
pub use rows::{
    KeyedRow, RowKey, at, copy_rows, find, first_rows, push_copy, put, put_all, put_copy, put_run,
    put_some, rises, settle, take_row,
};
pub use sums::{
    Sums, add_part, count_part, has_totals, no_sums, sums_of, take_replaced, totals_in, with_all,
};
