//! The program's commands: what its command line asks for, done over the streams that it is given.
#![tactic(auto)]

mod advice;
mod audits;
mod faults;
mod files;
mod helping;
mod limits;
mod log;
mod memory;
mod orders;
mod performing;
mod plans;
mod progress;
mod replays;
mod restoring;
mod running;
mod stored;

pub use advice::second_lines_are_lines;
pub use faults::{Fault, Torn};
pub use files::Reads;
pub use limits::limits_have_numbers;
pub use performing::perform;
pub use plans::plan_file;
pub use running::run;
