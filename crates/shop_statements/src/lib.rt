//! Statements on the rows of SQL tables: what finds one, and what puts one.
#![tactic(auto)]

mod begun;
mod columns;
mod demands;
mod faults;
mod halt_texts;
mod halts;
mod imports;
mod jobs;
mod journal;
mod kept_messages;
mod materials;
mod notes;
mod numbers;
mod orders;
mod parts;
mod rows;
mod running;
mod sums;
mod uses;

pub use begun::{put_begun, read_begun};
pub use columns::{code_in, count_in, name_in, number_in, size_in, state_in};
pub use demands::{count_demand, put_demand, read_demand};
pub use faults::TableFault;
pub use halt_texts::read_halt;
pub use halts::{find_halt, put_halt};
pub use imports::{find_import, put_import};
pub use jobs::{move_job, put_job};
pub use journal::{find_entry, put_entry, read_entry, read_listed_entry};
pub use kept_messages::{find_kept, put_kept};
pub use materials::{put_material, read_material};
pub use notes::{find_note, put_note, read_note};
pub use numbers::{find_last_act, find_last_demand, number_row, set_last_act, set_last_demand};
pub use orders::put_order;
pub use parts::{move_part, put_part};
pub use rows::{all_rows, row_by_number};
pub use sums::{put_totals, read_totals, set_totals};
pub use uses::{JobOrder, put_use};
