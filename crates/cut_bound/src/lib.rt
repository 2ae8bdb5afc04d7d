//! Bounds and checks of whole orders: what it costs at least to make all that is left, from units
//! of several sizes, and whether units are a plan of an order.
#![tactic(auto)]

mod bound;
mod check;
mod divisors;
mod faults;
mod fill;
mod laws;
mod limits;
mod planned;
mod price;
mod prices;
mod stages;
mod stock;
mod unit_bounds;

pub use bound::{least_cost, priced_cost, unpriced_cost};
pub use check::{CheckFault, CheckedOrder, check_order};
pub use divisors::divisor_of;
pub use faults::{cost_fault, order_fault};
pub use fill::is_filled;
pub use laws::{
    bounds_are_multiples, fitting_pieces_are_held, order_limits, picked_wants_bound, priced_bound,
    stock_falls_short,
};
pub use limits::{
    MAX_BOUGHT_SIZES, MAX_BOUND, MAX_CALLS, MAX_ORDER_UNITS, MAX_ORDER_WANTS, MAX_PARTS,
};
pub use planned::{PlannedUnit, are_planned, cost_of, pieces_of, units_at};
pub use price::greatest_cost;
pub use prices::{Price, has_price, priced, prices_of};
pub use stages::{count_stages, is_staged, stages_of_examples};
pub use stock::{BoundedSize, StockSize};
pub use unit_bounds::{bounded_bars, bounded_sheets};
