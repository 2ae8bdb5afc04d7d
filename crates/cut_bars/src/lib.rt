//! The best counts of pieces of a bar, by the lengths that counts reach: dynamic programming over its cells, or over the
//! lengths that are reached where they are few.
#![tactic(auto)]

pub mod bar;
mod cells;
mod divide;
mod level;
mod reach;
