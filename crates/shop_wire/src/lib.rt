//! Messages, queries and `plans` queries as lines of JSON, and what they are reported as lines, over any source, sink and book;
//! one request of HTTP, and its answer.
#![tactic(auto)]

mod answers;
mod asking;
mod faults;
mod laws;
mod limits;
mod paths;
mod plans;
mod reader;
mod replays;
mod reported;
mod response;
mod serving;

pub use faults::{ReplayFault, WireFault};
pub use laws::read_limits;
pub use replays::replay;
pub use response::{backup_answer, plans_answer, plans_refused};
pub use serving::{begin_inbound, begin_request, serve_one, serve_request};
