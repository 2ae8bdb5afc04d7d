//! The master program of column generation (Gilmore and Gomory 1961): which plans of units to take,
//! each any part of a unit, so that all that is wanted is made for the least cost. What it answers
//! is a hint: each function is proved to be safe and to end, and no contract says that a price or
//! an amount is right. Where a number overflows, None says so.
#![tactic(auto)]

pub mod column;
pub mod fixed;
pub mod master;
mod pivot;
