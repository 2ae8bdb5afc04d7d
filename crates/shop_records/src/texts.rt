//! Texts, and what is kept of an accepted message under its terminal and number.

use std::alloc::{AllocError, Global};
use std::marker::Model;

/// A text that grows at its end.
#[derive(Debug, Drop)]
pub struct Text {
    string: String,
}

impl Model for Text {
    ghost use Rattle.std.specs.Prelude.{List, ℕ, string_bytes};

    ghost Value = { List ℕ };

    ghost view = { λ t. string_bytes t.string };
}

impl Text {
    ghost use Rattle.std.specs.Prelude.{◌≡◌, ◌++◌, [], IsTrue, OnOk, OnErr, IfOk, string_bytes};
    ghost use Rattle.std.specs.Str.{is_utf8};

    /// The empty text.
    pub fn new(alloc: Global) -> Text
        ensures { result ≡ [] }
    {
        Text {
            string: String::new(alloc),
        }
    }

    /// The text that a string is.
    pub fn of(string: String) -> Text
        ensures { result ≡ string_bytes string }
    {
        Text { string }
    }

    /// The same text in memory of its own.
    pub fn from_str(alloc: Global, text: &str) -> Result<Text, AllocError>
        ensures { IfOk result (λ copy. copy ≡ text.now) }
    {
        let string = String::from_str(alloc, text)?;
        Ok(Text { string })
    }

    /// Appends, or changes nothing.
    pub fn push(&mut self, more: &str) -> Result<(), AllocError>
        ensures ok { OnOk result (self.new ≡ self.old ++ more.now) }
        ensures err { OnErr result (self.new ≡ self.old) }
    {
        self.string.push_str(more)?;
        Ok(())
    }

    /// Its bytes.
    pub fn as_str(&self) -> &str
        ensures value { result.now ≡ self.now }
        ensures utf8 { IsTrue (is_utf8 self.now) }
    {
        self.string.as_str()
    }

    /// An equal text.
    pub fn copy(&self, alloc: Global) -> Result<Text, AllocError>
        ensures { IfOk result (λ copy. copy ≡ self.now) }
    {
        let string = String::from_str(alloc, self.string.as_str())?;
        Ok(Text { string })
    }
}

impl Clone for Text {
    ghost use Rattle.std.specs.Prelude.{◌≡◌};

    ghost is_clone = { λ s t. t ≡ s };

    fn clone(&self) -> Result<Text, AllocError> {
        let string = self.string.clone()?;
        Ok(Text { string })
    }
}

impl PartialEq for Text {
    ghost use Rattle.std.specs.Cmp.{partial_equiv_from_equiv};
    ghost use Rattle.std.specs.Cmp.Lexicographic.{pointwise, nat_list_eq_equiv};
    ghost use Rattle.std.specs.Prelude.{nat_eq};

    ghost eq = { pointwise nat_eq };

    ghost laws = { partial_equiv_from_equiv nat_list_eq_equiv };

    fn eq(&self, other: &Text) -> bool {
        self.string.as_str() == other.string.as_str()
    }
}

/// What a message is known by: its terminal and its number.
#[derive(Clone, Copy, Debug, PartialEq, Eq, PartialOrd, Ord)]
pub struct MessageId {
    pub terminal: u32,
    pub number: u32,
}

/// What is kept of an accepted message: its canonical text, and the text of its reply.
#[derive(Debug, Drop, PartialEq)]
pub struct Kept {
    pub command: Text,
    pub reply: Text,
}

impl Kept {
    ghost use Rattle.std.specs.Prelude.{◌≡◌, IfOk};

    /// The same command and reply.
    pub fn copy(&self, alloc: Global) -> Result<Kept, AllocError>
        ensures { IfOk result (λ copy. copy ≡ self.now) }
    {
        let command = self.command.copy(alloc)?;
        let reply = self.reply.copy(alloc)?;
        Ok(Kept { command, reply })
    }
}

impl Clone for Kept {
    ghost use Rattle.std.specs.Prelude.{◌≡◌};

    ghost is_clone = { λ s t. t ≡ s };

    fn clone(&self) -> Result<Kept, AllocError> {
        let command = self.command.clone()?;
        let reply = self.reply.clone()?;
        Ok(Kept { command, reply })
    }
}

/// An accepted message, as it is kept under its message ID.
#[derive(Debug, Drop)]
pub struct KeptMessage {
    pub message_id: MessageId,
    pub kept: Kept,
}
