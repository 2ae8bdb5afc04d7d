//! What the shop contains, as rows of SQL tables.
#![tactic(auto)]

mod adopting;
mod changing;
mod chunks;
mod committing;
mod entries;
mod invalid;
mod kept_counts;
mod last_numbers;
mod laws;
mod laying;
mod listed_rows;
mod listing;
mod material_lists;
mod note_lists;
mod old_totals;
mod order_lists;
mod renewing;
mod reopening;
mod undone_rows;
mod valid_rows;
mod visiting;
mod writing;

pub use adopting::{AdoptFault, Adopted, adopt_tables};
pub use chunks::{begun_rows_from, demand_rows_from, entry_rows_from, job_rows_from, part_key_at};
pub use committing::commit_change;
pub use entries::{count_entries, entries_after, find_last_entry, invalid_entry, stray_entry};
pub use kept_counts::{count_kept, count_texts};
pub use last_numbers::find_last_number;
pub use laws::visiting_limits;
pub use laying::statements_make_tables;
pub use listing::list_totals;
pub use material_lists::material_rows;
pub use note_lists::note_rows;
pub use order_lists::order_rows;
pub use renewing::{extend_shop, list_earlier_totals, renew_shop, steps_renew_tables};
pub use reopening::left_contents_are_found;
pub use shop_statements::{
    TableFault, find_entry, find_halt, find_import, find_kept, find_last_act, find_last_demand,
    find_note, read_entry, read_listed_entry,
};
pub use valid_rows::{
    NoRow, StoredJob, begun_key_of, begun_of_row, demand_key_of, demand_of_row, job_key_of,
    job_of_row, material_key_of, material_of_row, note_key_of, note_of_row, plan_of_row,
};
pub use visiting::{VisitEnd, visit_all_parts};
