//! Requests of HTTP, as a source gives them in whatever pieces: the routes, the heads, the bodies, and what is wrong.
#![tactic(auto)]

mod addresses;
mod faults;
mod fields;
mod guards;
mod heads;
mod judging;
mod laws;
mod pieces;
mod requests;
mod routes;
mod wholes;

pub use addresses::Address;
pub use faults::{RequestFault, StreamFault};
pub use guards::{Guard, Verdict};
pub use heads::Head;
pub use laws::{one_parse, one_verdict, unfinished_is_open};
pub use requests::{Inbound, inbound_of, read_request};
pub use routes::{Route, Routes};
pub use wholes::{is_whole, least_bytes};
