//! The lines that report a plan of a whole order.
#![tactic(auto)]

mod lines;

pub use lines::{OrderSummary, order_lines, sized_lines};
