//! The `plans` query of all that is open of a material, and its answer, in JSON.
#![tactic(auto)]

mod answers;
mod laws;
mod limits;
mod queries;

pub use answers::{DemandPrice, MissingPieces, PlansReply, ReportedPlan, plans_text};
pub use laws::query_limits;
pub use limits::UNIT_COST;
pub use queries::{BuyList, BuySize, NameList, PlansQuery, read_plans};
