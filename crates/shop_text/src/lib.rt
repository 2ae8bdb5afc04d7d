//! Tickets and yield reports, over any book and sink; and what they are written by.
#![tactic(auto)]

mod laws;
mod printing;
mod tickets;
mod yields;

pub use laws::texts_are_reported;
pub use printing::PrintFault;
pub use shop_streams::{Counted, Failed, Sink, Source, write_all};
pub use tickets::{ticket, ticket_text};
pub use yields::{report_text, yield_report};
