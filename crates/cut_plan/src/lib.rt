//! Planners of a cutting shop: the best plan of a bar, a plan of a sheet with a ceiling, and the least number of units.
#![tactic(auto)]

mod bars;
mod bounds;
mod faults;
mod laws;
mod lengths;
mod sheets;

pub use bars::{Proposal, have_demands, plan_bar};
pub use bounds::{Bound, least_units};
pub use cut_bars::bar::MAX_BAR_LENGTH;
pub use cut_sheets::sheet::MAX_STEPS;
pub use cut_wants::wants::Want;
pub use faults::{
    MAX_WANTS, PlanFault, are_bad_wants, is_bad_step, is_fitting, is_large, is_short, some_fits,
};
pub use laws::{legal_pieces_are_listed, whole_plans_are_best};
pub use lengths::reached;
pub use sheets::{SheetProposal, plan_sheet};
