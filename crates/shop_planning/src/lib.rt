//! Plans of all that is open of a material, from parts that stand and from sizes that may be bought: what a query asks of
//! a shop's content, the search for an answer, and the answer.
#![tactic(auto)]

mod asking;
mod by_day;
mod instance;
mod laws;
mod lists;
mod planning;
mod posing;
mod response;
mod rests;
mod shares;
mod stock;
mod task;

pub use instance::{PlanInstance, StockPart};
pub use laws::parts_are_named_once;
pub use planning::plan_all;
pub use posing::build_instance;
pub use task::PlanTask;
