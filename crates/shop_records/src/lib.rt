//! The records of a shop, what terminals say to it and are answered, and what is said of its content.
#![tactic(auto)]

mod changes;
mod imports;
mod journal;
mod messages;
mod notes;
mod pieces;
mod records;
mod refusals;
mod texts;
mod visits;

pub use changes::{Change, DemandList, MaterialList, MaterialTotals, PartList};
pub use cut_measure::RowList;
pub use imports::{Form, ImportRow};
pub use journal::{Entry, ReportedEntry, Subject, Word, word_of};
pub use messages::{
    CodeList, Command, DemandRows, EntryList, EntryRows, JobList, LineList, Message, NumberList,
    OrderList, PieceList, Query, RackList, Reply, StepList,
};
pub use notes::{MAX_NOTE_LEN, OrderNote, is_note};
pub use pieces::{PieceRow, PieceSource, StepRow};
pub use records::{
    Column, Demand, DemandRow, Job, JobBegin, JobHalt, JobRow, JobState, MAX_RECEIVED, Material,
    OrderRow, Part, RackRow, State, StateWord, Totals, no_totals,
};
pub use refusals::Refusal;
pub use shop_files::OrderLine;
pub use texts::{Kept, KeptMessage, MessageId, Text};
pub use visits::PartVisitor;
