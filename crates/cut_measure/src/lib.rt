//! Measures of a cutting shop: kinds, axes, sizes, limits, codes and part names, in tenths of a millimetre.
#![tactic(auto)]

mod code_texts;
mod laws;
mod lengths;
mod limits;
mod lists;
mod numbers;
mod part_names;
mod ranges;
mod sizes;

pub use code_texts::Code;
pub use laws::{lengths_have_one_text, names_have_one_part};
pub use lengths::{read_mm, write_mm};
pub use limits::Limits;
pub use lists::RowList;
pub use numbers::{digits_value_of, read_number};
pub use part_names::PartName;
pub use ranges::{
    MAX_CODE_LEN, MAX_COUNT, MAX_HEIGHT, MAX_KERF, MAX_NUMBERS, MAX_WIDTH, MAX_WORTH,
};
pub use sizes::{Axis, Kind, Size};
