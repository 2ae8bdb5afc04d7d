//! The materials of a shop file, added to a book as messages of terminal 0.

ghost use Rattle.std.specs.Prelude.{◌≡◌, ◌≢◌, ◌≤◌, length, Err, IfOk, List, OnOk, IfErr, MatchOption, All};
ghost use Rattle.shop_desk.specs.Faults.{CountsUp};
ghost use Rattle.shop_desk.specs.Handled.{AreHandledAt};
ghost use Rattle.shop_forms.specs.Forms.{json_texts};
ghost use Rattle.shop_files.specs.declared.limits.TheConstants.{MAX_ENTRIES};
ghost use Rattle.shop_records.specs.Messages.{refusal_in};
ghost use Rattle.shop_records.specs.declared.messages.Reply.{Reply as ReplyOf};
ghost use Rattle.shop_opening.specs.Shops as spec;
ghost use Rattle.shop_opening.specs.declared.shops.AddFault.TheVariants.{NoMemory};
ghost use Rattle.shop_opening.specs.Shops.{HasShop, IsAccepted, IsFirstRefused, ShopFailed};

use shop_desk::run_at;
use shop_files::MaterialEntry;
use shop_records::{Command, Message, Refusal, Reply};
use shop_store::Book;
use std::alloc::{AllocError, Global};

/// The first entry of a shop file that was refused, from 1, and why.
#[derive(Clone, Copy, Debug, PartialEq, Eq)]
pub struct EntryRefused {
    pub entry: usize,
    pub refusal: Refusal,
}

/// Why the materials of a shop file weren't all added.
#[derive(Clone, Copy, Debug, PartialEq, Eq)]
pub enum AddFault {
    /// Memory ran out, and nothing was done.
    NoMemory,
    /// The first entry that was refused; every other one was handled too.
    Refused(EntryRefused),
}

impl From<AllocError> for AddFault {
    ghost use Rattle.std.specs.Prelude.{◌≡◌};
    ghost use Rattle.shop_opening.specs.declared.shops.AddFault.TheVariants.{NoMemory};

    ghost from_gives = { λ _ fault. fault ≡ NoMemory };

    fn from(_error: AllocError) -> AddFault {
        AddFault::NoMemory
    }
}

// What the entry of this number says to the shop.
fn message_of(number: u32, entry: &MaterialEntry) -> Message
    ensures { result ≡ spec.message_of number entry.now }
{
    Message {
        terminal: 0,
        number,
        command: Command::AddMaterial {
            material: entry.code,
            kind: entry.kind,
            kerf: entry.kerf,
            min_long: entry.min_long,
            min_short: entry.min_short,
        },
    }
}

// What the entries say, numbered from 1 on.
fn messages_of(alloc: Global, entries: &[MaterialEntry]) -> Result<Vec<Message>, AllocError>
    requires { length entries.now ≤ MAX_ENTRIES }
    ensures { IfOk result (λ messages. messages.items ≡ spec.shop_messages entries.now) }
{
    let mut messages = Vec::new(alloc);
    let mut number = 1u32;
    for entry in entries {
        messages.push(message_of(number, entry))?;
        number += 1;
    }
    Ok(messages)
}

// Why a message was refused, if it was.
fn refusal_of(reply: &Reply) -> Option<Refusal>
    ensures { result ≡ refusal_in reply.now }
{
    match reply {
        Reply::Refused(refusal) => Some(*refusal),
        _ => None,
    }
}

// The first refusal among replies.
fn first_refused(replies: &[Reply]) -> Option<EntryRefused>
    ensures { MatchOption result (All IsAccepted replies.now) (IsFirstRefused replies.now) }
{
    for i in 0..replies.len() {
        match refusal_of(&replies[i]) {
            Some(refusal) => {
                return Some(EntryRefused {
                    entry: i + 1,
                    refusal,
                });
            }
            None => (),
        }
    }
    None
}

/// Handles the entries of a shop file, the i-th (from 1) as message i of terminal 0. So each is added once, however
/// often the file is read, and a changed one is refused 11. Each gets the time of the start.
///
/// `NoMemory`: there is no memory for the replies, and nothing was done. `Refused`: the first entry that was refused.
pub fn add_shop<B: Book>(
    alloc: Global,
    book: &mut B,
    entries: &[MaterialEntry],
    at: u64,
) -> Result<(), AddFault>
    requires { length entries.now ≤ MAX_ENTRIES }
    ensures ok { OnOk result (HasShop B.Book book.old book.new entries.now (All IsAccepted)) }
    ensures err { IfErr result (ShopFailed B.Book book.old book.new entries.now) }
    ensures timed { result ≢ Err NoMemory → (replies : List ReplyOf)
        × AreHandledAt json_texts at B.Book book.old (spec.shop_messages entries.now) replies
        book.new }
    ensures clean_disk { B.has_clean_disk book.new → B.has_clean_disk book.old }
    ensures failures { CountsUp (B.failed book.old) (B.failed book.new) }
{
    let messages = messages_of(alloc, entries)?;
    let replies = run_at(alloc, book, &messages, at)?;
    match first_refused(&replies) {
        None => Ok(()),
        Some(refused) => Err(AddFault::Refused(refused)),
    }
}
