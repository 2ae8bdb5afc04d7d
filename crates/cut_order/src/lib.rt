//! Plans of whole orders: by which units, and which plans of them, all that is left is cut at a low
//! cost, and a bound that reports how far that is from the best. Whoever searches for them need not
//! be trusted: what is reported is checked and proved.
#![tactic(auto)]

mod answer;
mod certified;
mod complete;
mod found;
mod instance;
mod places;
mod planning;
mod rests;
mod search;
mod seek;
mod single;

pub use answer::OrderPlan;
pub use cut_bound::{
    MAX_BOUGHT_SIZES, MAX_BOUND, MAX_CALLS, MAX_ORDER_UNITS, MAX_ORDER_WANTS, MAX_PARTS,
    PlannedUnit, Price, StockSize, least_cost,
};
pub use instance::{Instance, MAX_COST, MAX_STAGES, MIN_STAGES, is_stage_limit, is_stock};
pub use planning::plan_order;
pub use search::OrderSearch;
