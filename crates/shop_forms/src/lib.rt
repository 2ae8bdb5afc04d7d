//! What the forms of messages, queries and replies in JSON are made of: what stands at the keys of an object, how objects and rows
//! of lists are read and written, and what holds of all texts.
#![tactic(auto)]

mod elements;
mod fields;
mod laws;
mod rows;
mod words;
mod writing;

pub use elements::{Listed, Read, rows_at, write_rows};
pub use fields::{
    code_at, elements_at, flag_at, has_keys, kind_at, name_at, number_at, part_in, text_at,
    wide_at, word_at,
};
pub use laws::{entries_read_back, one_kind_of_value, one_text, read_back};
pub use words::{job_state_word, kind_word, see_part, state_word, wide};
pub use writing::{
    Member, new_writer, value_of, write_flag, write_name, write_number, write_object, write_text,
    written_text,
};
