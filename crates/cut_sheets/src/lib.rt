//! Tables of the best worths of a sheet, by dynamic programming over its sides in steps, the plan that a table gives, and
//! bounds of what a unit can give.
#![tactic(auto)]

pub mod bound;
pub mod keep;
pub mod place;
pub mod read;
mod row;
pub mod sheet;
