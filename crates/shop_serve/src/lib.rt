//! A server for many connections at once: it reads whichever has bytes, and answers each whole request from a book, one
//! after another. Between requests it searches `plans` queries.
#![tactic(auto)]

mod answers;
mod clients;
mod clocks;
mod connections;
mod dates;
mod faults;
mod laws;
mod lines;
mod ports;
mod runs;
mod searching;
mod serving;
mod sites;
mod transfers;

pub use dates::{note_clock, second_now};
pub use faults::ServeFault;
pub use lines::Lines;
pub use ports::{Listener, PortCause, listen};
pub use runs::draw_run;
pub use serving::serve_on;
pub use sites::Site;
