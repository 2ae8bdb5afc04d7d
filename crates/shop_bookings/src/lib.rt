//! Reservations that were planned together, so that none stands in another's way: what holds of them.
#![tactic(auto)]

mod laws;

pub use laws::{bookings_stand_together, reported_plans_are_reserved};
