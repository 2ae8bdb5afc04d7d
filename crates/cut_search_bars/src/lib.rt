//! Searches for plans of a whole order of bars by column generation over plans of one bar, rounding,
//! and value correction. What it finds is a hint: each function is proved to be safe and to end, and
//! whoever takes a plan or a price checks it. The search for plans of sheets shares the order, the
//! drafts and the programs.
#![tactic(auto)]

pub mod bars;
pub mod correct;
pub mod dive;
pub mod draft;
pub mod found;
pub mod order;
pub mod quick;
pub mod relax;
pub mod repair;
pub mod round;
pub mod stock;
