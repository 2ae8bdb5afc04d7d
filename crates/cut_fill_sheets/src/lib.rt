//! One rectangle filled within counts by a beam search over blocks at exact places. What is found is a hint: whoever uses a
//! plan checks it.
#![tactic(auto)]

mod beam;
mod blocks;
mod choice;
mod filling;
mod guide;
mod piece;
mod places;
mod shape;
mod space;
mod states;

pub use filling::{Effort, Filling, fill};
pub use piece::Piece;
pub use shape::Shape;
pub use states::CUTS;
