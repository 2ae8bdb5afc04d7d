//! Problem files as the planners take them, and the plans of all pieces of one; order files, what their lines are judged by
//! without a store, and the plans of their lines.
#![tactic(auto)]

mod judging;
mod orders;
mod steps;
mod stock;
mod wants;
mod wholes;

pub use judging::{BadField, first_bad_field};
pub use orders::{LinesAsked, LinesFault, plan_lines};
pub use steps::{MAX_GIVEN_STEP, StepHelp, Steps, help_of_all, help_of_one};
pub use stock::{BadEntry, EntryFault, first_bad_entry};
pub use wants::{want_of, wants_of};
pub use wholes::{DEFAULT_CALLS, WholePlan, plan_whole};
