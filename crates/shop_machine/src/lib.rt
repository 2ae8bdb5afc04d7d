//! The shop as a machine: what it decides on each command, related commands in one module, and what holds of each of its
//! histories. It hands on the records and messages that it decides on.
#![tactic(auto)]

pub mod adding;
pub mod amending;
pub mod beginning;
mod decisions;
pub mod ending;
pub mod entering;
pub mod extending;
pub mod importing;
mod laws;
mod moving;
pub mod noting;
pub mod ordering;
pub mod receiving;
mod recounts;
pub mod reserving;
pub mod retiring;
pub mod undoing;

pub use decisions::no_change;
pub use laws::{
    accepted_changes_fit, entered_changes_fit, entries_are_newest, entries_stay,
    histories_have_accounts, imports_stay, owners_before_an_end, shared_cells_are_laid,
    time_decides_nothing,
};
pub use recounts::{FoundLeaf, wide};
pub use shop_files::MAX_LINES;
pub use shop_records::{
    Change, CodeList, Column, Command, Demand, DemandList, DemandRow, DemandRows, Entry, Form,
    ImportRow, Job, JobBegin, JobHalt, JobList, JobRow, JobState, Kept, KeptMessage, LineList,
    Material, MaterialList, MaterialTotals, Message, MessageId, NumberList, OrderLine, OrderList,
    OrderNote, OrderRow, Part, PartList, PartVisitor, PieceList, PieceRow, PieceSource, Query,
    RackList, RackRow, Refusal, Reply, RowList, State, StateWord, StepList, StepRow, Text, Totals,
    Word, no_totals, word_of,
};
