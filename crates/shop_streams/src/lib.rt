//! Where bytes come from and where they go, with their failures counted, and writing to the last byte.
#![tactic(auto)]

mod counted;
mod streams;
mod writer;

pub use counted::Counted;
pub use streams::{Failed, Sink, Source};
pub use writer::write_all;
