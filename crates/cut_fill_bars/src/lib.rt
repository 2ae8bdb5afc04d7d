//! Plans of a bar by prices: the bounded knapsack, and which bars it fills. What it answers is a
//! hint: each function is proved to be safe and to end.
#![tactic(auto)]

pub mod bars;
pub mod knapsack;
