//! The search for plans of orders of sheets.

pub mod best;
pub mod ceilings;
pub mod course;
pub mod dice;
pub mod dive;
pub mod flow;
pub mod give_up;
pub mod greedy;
pub mod hints;
pub mod job;
pub mod program;
pub mod rest;
pub mod search;
pub mod settle;
pub mod table;
pub mod units;
pub mod worker;
