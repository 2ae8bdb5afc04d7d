//! What is wanted of a unit, legal cuttings of it and their best worth, and the numbers that tables of worths hold.
#![tactic(auto)]

pub mod number;
pub mod wants;
