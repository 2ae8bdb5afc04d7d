//! Causes, each with the words that report it.

ghost use Rattle.std.specs.Prelude.{◌≡◌, ◌∷◌, ◌++◌, IfOk, string_bytes};
ghost use Rattle.shop_advice.specs.Causes as spec;

use cut_measure::Code;
use std::alloc::{AllocError, Global};

/// Why a file can't be read.
#[derive(Clone, Copy, Debug, PartialEq, Eq)]
pub enum FileCause {
    /// There is no file of this name, or no such folder.
    Missing,
    /// The name is a folder's.
    Folder,
    /// This account may not read it.
    NotAllowed,
    /// It is longer than a page may be.
    Long,
    /// It was read, and isn't text.
    NoText,
    /// Reading it failed.
    Unreadable,
}

/// Why a store can't be opened.
#[derive(Clone, Copy, Debug, PartialEq, Eq)]
pub enum StoreCause {
    /// Its folder isn't there.
    NoFolder,
    /// The name is a folder's.
    Folder,
    /// This account may not read and write it, or not create it.
    NotAllowed,
    /// Its disk takes no writes.
    ReadOnly,
    /// Another program has it open.
    InUse,
    /// A rollback journal of SQLite lies beside it.
    Journal,
    /// The name is that of a device, or the file has a second name.
    NotPlain,
    /// It isn't there, but must be.
    Missing,
    /// The name is that of a link that leads to nothing.
    DanglingLink,
    /// It has bytes, and its log isn't there.
    NoLog,
    /// It isn't there, but its log is, with bytes.
    LoneLog,
    /// No crash leaves its log.
    DamagedLog,
    /// It is a database with reserved bytes, with auto_vacuum, or in UTF-16.
    OtherForm,
    /// It has a trigger or a view on the shop's tables.
    Bound,
    /// SQLite didn't make this file.
    NoDatabase,
    /// It is a damaged database, by its bytes or its rows.
    Damaged,
    /// The disk is full.
    Full,
    /// Its names lead to other files than those that were opened.
    Moved,
    /// Files that a restore put aside are still beside it.
    Before,
    /// It can't be read and written, and nothing reports why.
    Failed,
}

/// Why an open store failed.
#[derive(Clone, Copy, Debug, PartialEq, Eq)]
pub enum FailureCause {
    /// The disk is full. Once it has space, later messages may be accepted.
    Full,
    /// It can't be used until it is opened again.
    Shut,
    /// This message failed, but the next one may not.
    Passing,
}

/// Why no backup can be made, or one can't be restored.
#[derive(Clone, Copy, Debug, PartialEq, Eq)]
pub enum BackupCause {
    /// There is no folder of this name.
    NoFolder,
    /// The name is that of something else.
    Other,
    /// This account may not make files in it, or not read it.
    NotAllowed,
    /// Its disk takes no writes.
    ReadOnly,
    /// Its disk is full.
    Full,
    /// Others than its owner may write in it.
    Open,
    /// It isn't the folder that had this name at the start.
    Another,
    /// Each number is taken.
    NoNumber,
    /// The store's names lead to other files than those that are open.
    Moved,
    /// The store or its log can't be read.
    Unread,
    /// It is to be restored, but one of its files is missing, or they hold no book.
    NoBackup,
    /// Files can't be made in it, and nothing reports why.
    Failed,
}

/// A table of a store whose rows are read at a start.
#[derive(Clone, Copy, Debug, PartialEq, Eq)]
pub enum StoreTable {
    Materials,
    Parts,
    Jobs,
    Orders,
    Demands,
    Journal,
    Begun,
    Notes,
}

/// The key of a row, if it is one.
#[derive(Clone, Copy, Debug, PartialEq)]
pub enum RowKey {
    /// It is none.
    Unknown,
    /// A number.
    Number(i64),
    /// An act and a node.
    Part(i64, i64),
    /// A code.
    Code(Code),
}

/// Which row of a store it is.
#[derive(Clone, Copy, Debug, PartialEq)]
pub struct RowName {
    pub table: StoreTable,
    pub key: RowKey,
}

/// Why the tables of a database are no shop's of this program.
#[derive(Clone, Copy, Debug, PartialEq)]
pub enum VersionCause {
    /// They are of a later version.
    Newer,
    /// They are another program's.
    Foreign,
    /// They are of a known version, but contradict each other.
    Contradicting,
    /// They are of a known version, but this row stands for nothing that a shop has.
    Row(RowName),
}

/// What is wrong in a shop file.
#[derive(Clone, Copy, Debug, PartialEq, Eq)]
pub enum ShopCause {
    /// It is over 65536 bytes long.
    Long,
    /// It isn't UTF-8.
    NoText,
    /// It isn't TOML from here on.
    NoDocument,
    /// It has another key than `material`.
    OtherKey,
    /// `material` isn't a list.
    NoList,
    /// It has over 1000 materials.
    Many,
    /// A material isn't a table.
    NoTable,
    /// A material has a key that none has.
    UnknownKey,
    /// A material lacks a key.
    MissingKey,
    /// The code isn't one.
    Code,
    /// The kind isn't one.
    Kind,
    /// The value of a key isn't a length.
    Length,
    /// Nothing is found now: the file was changed meanwhile.
    Changed,
}

impl FileCause {
    /// What is reported about it.
    pub fn text(self) -> &'static str
        ensures { result.now ≡ spec.file_text self }
    {
        match self {
            FileCause::Missing => "there is no such file",
            FileCause::Folder => "it is a folder; name a file",
            FileCause::NotAllowed => "this account may not read it",
            FileCause::Long => "it is over 1048576 bytes long",
            FileCause::NoText => "it is no UTF-8 text",
            FileCause::Unreadable => "it can't be read",
        }
    }
}

impl StoreCause {
    /// What is reported about it.
    pub fn text(self) -> &'static str
        ensures { result.now ≡ spec.store_text self }
    {
        match self {
            StoreCause::NoFolder => "its folder isn't there; make it first",
            StoreCause::Folder => "it is a folder; name a file in it",
            StoreCause::NotAllowed => {
                "this account may not read and write it, or may not write in its folder"
            }
            StoreCause::ReadOnly => "its disk is read-only",
            StoreCause::InUse => "another program has it open",
            StoreCause::Journal => "a rollback journal lies beside it; open it once with sqlite3",
            StoreCause::NotPlain => {
                "it is no plain file with one name; name one, and no hard link to it"
            }
            StoreCause::Missing => "there is no such store",
            StoreCause::DanglingLink => "it is a link to a file that isn't there",
            StoreCause::NoLog => {
                "its log isn't beside it; put both files of a copy in place, or an empty file FILE-wal where there is none"
            }
            StoreCause::LoneLog => { "a log lies there without its store; put the store beside it" }
            StoreCause::DamagedLog => {
                "its log is damaged; put a copy of it and its log in its place"
            }
            StoreCause::OtherForm => {
                "it is a database of another form than cutshop's; name another file"
            }
            StoreCause::Bound => {
                "it has a trigger or a view on the shop's tables; take it away with sqlite3"
            }
            StoreCause::NoDatabase => "it is no SQLite database; name another file",
            StoreCause::Damaged =>
                "it or its disk is damaged; put a copy of it and its log in its place",
            StoreCause::Full => "the disk is full; make room",
            StoreCause::Moved => "other files have its names now; start this program anew",
            StoreCause::Before => "put FILE.before away first",
            StoreCause::Failed => {
                "it or its log can't be read and written; look at the permissions of both and of their folder, and at the room on their disk"
            }
        }
    }
}

impl BackupCause {
    /// What is reported about it.
    pub fn text(self) -> &'static str
        ensures { result.now ≡ spec.backup_text self }
    {
        match self {
            BackupCause::NoFolder => "it isn't there; make it first",
            BackupCause::Other => "it is no folder; name one",
            BackupCause::NotAllowed => "this account may not read it and make files in it",
            BackupCause::ReadOnly => "its disk is read-only",
            BackupCause::Full => "its disk is full; make room",
            BackupCause::Open => "others may write in it",
            BackupCause::Another => "the folder is another than at the start; is its disk mounted?",
            BackupCause::NoNumber => "each number up to 1000000 is taken; name another folder",
            BackupCause::Moved => {
                "the store's names lead to other files than those that are open; start this program anew"
            }
            BackupCause::Unread => "the store and its log can't be read",
            BackupCause::NoBackup => "it is no backup",
            BackupCause::Failed => "files can't be made in it",
        }
    }
}

impl VersionCause {
    /// What is reported about it.
    pub fn text(self) -> &'static str
        ensures { result.now ≡ spec.version_text self }
    {
        match self {
            VersionCause::Newer => "a newer cutshop made it; run that one",
            VersionCause::Foreign => "it has the tables of another program; name another file",
            VersionCause::Contradicting => {
                "its totals or rows contradict each other; put a copy of it and its log in its place"
            }
            VersionCause::Row(_) => {
                "a row stands for nothing that a shop has; put a copy of it and its log in its place: "
            }
        }
    }
}

impl StoreTable {
    /// Its name in the store.
    pub fn text(self) -> &'static str
        ensures { result.now ≡ spec.table_text self }
    {
        match self {
            StoreTable::Materials => "materials",
            StoreTable::Parts => "parts",
            StoreTable::Jobs => "jobs",
            StoreTable::Orders => "orders",
            StoreTable::Demands => "demands",
            StoreTable::Journal => "journal",
            StoreTable::Begun => "begun",
            StoreTable::Notes => "notes",
        }
    }
}

// A table and a code.
fn with_code(alloc: Global, table: &str, code: &Code) -> Result<String, AllocError>
    ensures { IfOk result (λ text. string_bytes text ≡ table.now ++ 32 ∷ code.now) }
{
    let code = code.as_str();
    format!(in alloc; "{table} {code}")
}

impl RowName {
    /// Its table and, after a space, its key, if it is one: a number, a part's name or a code.
    pub fn text(&self, alloc: Global) -> Result<String, AllocError>
        ensures { IfOk result (λ text. string_bytes text ≡ spec.row_text self.now) }
    {
        let table = self.table.text();
        match &self.key {
            RowKey::Unknown => format!(in alloc; "{table}"),
            RowKey::Number(number) => format!(in alloc; "{table} {number}"),
            RowKey::Part(act, node) => format!(in alloc; "{table} {act}/{node}"),
            RowKey::Code(code) => with_code(alloc, table, code),
        }
    }
}

impl ShopCause {
    /// What is reported about it. The texts of some causes are followed by a key, or by what TOML expects.
    pub fn text(self) -> &'static str
        ensures { result.now ≡ spec.shop_text self }
    {
        match self {
            ShopCause::Long => "it is over 65536 bytes long",
            ShopCause::NoText => "it is no UTF-8 text",
            ShopCause::NoDocument => "it is no TOML: ",
            ShopCause::OtherKey => "write [[material]] above each material, and no key named ",
            ShopCause::NoList => "material is no list; write [[material]] above each material",
            ShopCause::Many => "it has over 1000 materials",
            ShopCause::NoTable => "it is no table; write [[material]] above each material",
            ShopCause::UnknownKey => "no key is named ",
            ShopCause::MissingKey => "the material has no key ",
            ShopCause::Code => "the code is 1 to 16 of A-Z, 0-9 and -; write it as \"STEEL-40\"",
            ShopCause::Kind => "the kind is \"bar\" or \"sheet\"",
            ShopCause::Length => {
                "write millimetres as a text, as \"1250.5\", with 1 to 6 digits, and one behind a point: "
            }
            ShopCause::Changed => "it was changed meanwhile; start again",
        }
    }
}
