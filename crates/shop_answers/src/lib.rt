//! What the machine answers to queries: a plan of a part, a bound, the rows of a list, a job, an order and entries.
#![tactic(auto)]

mod entries;
mod laws;
mod listing;
mod planning;

pub use entries::{bytes_with, is_full};
pub use laws::{orders_have_one_answer, reported_plans_can_be_reserved};
pub use listing::{
    MAX_LISTED, MAX_LISTED_BYTES, answer_demands, answer_job, answer_orders, answer_parts,
    answer_pieces, answer_steps, are_more, demand_row, first_reported, job_row, order_row,
    piece_row, step_row,
};
pub use planning::{
    FoundDemand, FoundList, answer_bound, answer_plan, can_be_planned, demands_refusal, left_of,
    planner_refusal, tree_text, wants_of,
};
