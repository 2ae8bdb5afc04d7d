//! Entries: what is written of each accepted message, beside its texts.

ghost use Rattle.std.specs.Prelude.{◌≡◌};
ghost use Rattle.shop_records.specs.Journal.{word_name, word_of};

use crate::messages::Command;
use crate::texts::{MessageId, Text};
use cut_measure::{Code, PartName};

/// The word of a command, which a message has under `do`.
#[derive(Clone, Copy, Debug, PartialEq, Eq)]
pub enum Word {
    Material,
    Receive,
    Order,
    Reserve,
    Done,
    Break,
    Release,
    Scrap,
    Return,
    Import,
    Amend,
    Undo,
    Note,
    Extend,
    Begin,
}

impl Word {
    /// Its text.
    pub fn name(self) -> &'static str
        ensures { result.now ≡ word_name self }
    {
        match self {
            Word::Material => "material",
            Word::Receive => "receive",
            Word::Order => "order",
            Word::Reserve => "reserve",
            Word::Done => "done",
            Word::Break => "break",
            Word::Release => "release",
            Word::Scrap => "scrap",
            Word::Return => "return",
            Word::Import => "import",
            Word::Amend => "amend",
            Word::Undo => "undo",
            Word::Note => "note",
            Word::Extend => "extend",
            Word::Begin => "begin",
        }
    }
}

/// The word of a command.
pub fn word_of(command: &Command) -> Word
    ensures { result ≡ word_of command.now }
{
    match command {
        Command::AddMaterial { .. } => Word::Material,
        Command::Receive { .. } => Word::Receive,
        Command::AddOrder { .. } => Word::Order,
        Command::Reserve { .. } => Word::Reserve,
        Command::Done { .. } => Word::Done,
        Command::Break { .. } => Word::Break,
        Command::Release { .. } => Word::Release,
        Command::Scrap { .. } => Word::Scrap,
        Command::GiveBack { .. } => Word::Return,
        Command::Import { .. } => Word::Import,
        Command::Amend { .. } => Word::Amend,
        Command::Undo { .. } => Word::Undo,
        Command::Note { .. } => Word::Note,
        Command::Extend { .. } => Word::Extend,
        Command::Begin { .. } => Word::Begin,
    }
}

/// What is written of an accepted message: its place among all accepted messages, its message ID, when it was accepted, and
/// what it made. It never changes.
#[derive(Clone, Copy, Debug, PartialEq)]
pub struct Entry {
    /// From 1 on, over all terminals, in the order in which the messages were accepted.
    pub number: u64,
    pub message_id: MessageId,
    /// In seconds since 1970-01-01 00:00 UTC. It is never less than that of an entry before.
    pub at: u64,
    pub word: Word,
    /// The number of the act that the message made, or 0.
    pub act: u32,
    /// The job that it reserved, began, ended, released or undid, or 0.
    pub job: u32,
    /// The order that it made, also by an import that came again, extended, noted, or of which it amended a demand.
    pub order: Option<Code>,
    /// The part that it reserved, scrapped or returned.
    pub part: Option<PartName>,
}

/// What the entries of a story are about.
#[derive(Clone, Copy, Debug, PartialEq)]
pub enum Subject {
    /// The order of this code.
    Order(Code),
    /// The job of this number.
    Job(u32),
    Part(PartName),
}

/// An entry as it is reported, with the texts that are kept of its message.
#[derive(Debug, Drop)]
pub struct ReportedEntry {
    /// In seconds since 1970-01-01 00:00 UTC.
    pub at: u64,
    /// Its number, from 1 on.
    pub entry: u64,
    /// The canonical text of its message.
    pub message: Text,
    /// The text of the reply to it.
    pub reply: Text,
}
