//! The words of the program's command line, and what they ask for.
#![tactic(auto)]

mod arguments;
mod commands;
mod imports;
mod mistakes;
mod planned;
mod requests;
mod served;
mod stored;
mod values;
mod words;

pub use mistakes::{Mistake, mistake_text};
pub use requests::request_of;
pub use words::{
    ImportAs, LAST_PORT, MAX_AFTER, MAX_CALLS, MAX_CONNECTIONS, MAX_KEPT, MAX_NAMES, MAX_PAIR,
    MAX_SIZES, MAX_STAGES, MAX_STEP_LENGTH, MIN_STAGES, OrderPlan, Reading, Request, Serving,
    VERSION,
};
