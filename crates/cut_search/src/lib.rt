//! Searches for plans of a whole order: of bars by `cut_search_bars`; of sheets by fillings that are
//! looked for by a beam, linear programs over them, and units that are given up and filled again.
//! What it finds is a hint: each function is proved to be safe and to end, and whoever takes a plan
//! or a price checks it.
#![tactic(auto)]

pub mod search;
pub mod sheets;
