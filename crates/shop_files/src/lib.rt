//! The files of a cutting shop: problems, orders and materials, read from their texts.
#![tactic(auto)]

mod laws;
mod limits;
mod orders;
mod problems;
mod shops;

pub use cut_measure::RowList;
pub use laws::one_first_fault;
pub use limits::{MAX_ENTRIES, MAX_LINES, MAX_PIECES, MAX_TEXT_LEN};
pub use orders::{OrderLine, OrdersFault, read_orders};
pub use problems::{Piece, Problem, TextCause, TextFault, read_cgcut};
pub use shops::{MaterialEntry, ShopFault, read_shop};
