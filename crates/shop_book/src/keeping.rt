//! How a message is kept in memory, in one text that takes no more than it needs, and which is the last of a terminal.

ghost use Rattle.std.specs.Prelude.{◌≡◌, ◌⊎◌, ◌<◌, ◌≤◌, ◌^◌, ℕ, IfNone, IfOk, IfSome, IsSome, None, false, length};
ghost use Rattle.std.specs.FinMap.{find as find_entry};
ghost use Rattle.std.specs.Ordering.{is_lt};
ghost use Rattle.shop_records.specs.Content.{message_id_cmp};
ghost use Rattle.shop_records.specs.declared.texts.MessageId.{MessageId as MessageIdOf};

use shop_records::{Kept, MessageId, Text};
use std::alloc::{AllocError, Global};
use std::collections::BTreeMap;
use std::marker::Model;

/// A kept command and its reply in one text, which takes no more memory than they need.
#[derive(Drop)]
pub struct KeptText {
    text: String,
    reply_at: usize,
}

impl Model for KeptText {
    ghost use Rattle.std.specs.Prelude.{drop, string_bytes, take};
    ghost use Rattle.std.specs.Str.{IsCharBoundary};
    ghost use Rattle.shop_records.specs.contracts.texts.Kept as kept_type;
    ghost use Rattle.shop_records.specs.declared.texts.Kept.{Kept as KeptOf};

    ghost Value = { KeptOf };

    ghost coded = { kept_type.the_row.coded };

    ghost view = { λ t. record {
      command = take t.reply_at (string_bytes t.text);
      reply = drop t.reply_at (string_bytes t.text);
    } };

    ghost invariant = { λ t. IsCharBoundary (string_bytes t.text) t.reply_at };
}

impl KeptText {
    ghost use Rattle.std.specs.Prelude.{◌≡◌, IfOk};

    /// The one text of a command and its reply.
    pub fn of(alloc: Global, kept: &Kept) -> Result<KeptText, AllocError>
        ensures { IfOk result (λ text. text ≡ kept.now) }
    {
        let command = kept.command.as_str();
        let reply = kept.reply.as_str();
        let mut text = String::with_capacity(alloc, command.len().saturating_add(reply.len()))?;
        text.push_str(command)?;
        text.push_str(reply)?;
        Ok(KeptText {
            text,
            reply_at: command.len(),
        })
    }

    // The command and the reply.
    fn both(&self) -> (&str, &str)
        ensures command { result.0.now ≡ self.now.command }
        ensures reply { result.1.now ≡ self.now.reply }
    {
        self.text.as_str().split_at(self.reply_at)
    }

    /// The command and the reply in texts of their own.
    pub fn kept(&self, alloc: Global) -> Result<Kept, AllocError>
        ensures { IfOk result (λ kept. kept ≡ self.now) }
    {
        let (command, reply) = self.both();
        let command = Text::from_str(alloc, command)?;
        let reply = Text::from_str(alloc, reply)?;
        Ok(Kept { command, reply })
    }
}

impl Clone for KeptText {
    ghost use Rattle.std.specs.Prelude.{◌≡◌};

    ghost is_clone = { λ s t. t ≡ s };

    fn clone(&self) -> Result<KeptText, AllocError> {
        let text = self.text.clone()?;
        Ok(KeptText {
            text,
            reply_at: self.reply_at,
        })
    }
}

impl PartialEq for KeptText {
    ghost use Rattle.shop_book.specs.Equal.{same_kept, same_kept_laws};

    ghost eq = { same_kept };

    ghost laws = { same_kept_laws };

    fn eq(&self, other: &KeptText) -> bool {
        let (command, reply) = self.both();
        let (other_command, other_reply) = other.both();
        command == other_command && reply == other_reply
    }
}

/// The same messages.
pub(crate) fn copy_kept(
    kept: &BTreeMap<MessageId, KeptText>,
) -> Result<BTreeMap<MessageId, KeptText>, AllocError>
    ensures { IfOk result (λ copy. copy.entries ≡ kept.now.entries) }
{
    let copy = kept.clone()?;
    Ok(copy)
}

/// How many messages are kept.
pub(crate) fn count_kept(kept: &BTreeMap<MessageId, KeptText>) -> u64
    ensures { result ≡ length kept.now.entries }
{
    kept.len() as u64
}

/// What is kept under a message ID.
pub(crate) fn find_kept(
    alloc: Global,
    kept: &BTreeMap<MessageId, KeptText>,
    message_id: MessageId,
) -> Result<Option<Kept>, AllocError>
    ensures { IfOk result (λ row. row ≡ find_entry message_id_cmp message_id kept.now.entries) }
{
    match kept.get(&message_id) {
        None => Ok(None),
        Some(row) => {
            let copy = row.kept(alloc)?;
            Ok(Some(copy))
        }
    }
}

// The same number, which 32 bits hold.
fn in_bits(number: u32) -> u32
    ensures same { result ≡ number }
    ensures fits { number < 2 ^ 32 }
{
    number
}

// The same message ID, of a terminal that 32 bits hold.
fn read_message_id(message_id: &MessageId) -> MessageId
    ensures same { result ≡ message_id.now }
    ensures fits { result.terminal < 2 ^ 32 }
{
    let terminal = in_bits(message_id.terminal);
    MessageId {
        terminal,
        number: message_id.number,
    }
}

// The greatest of all message IDs under which messages are kept.
fn last_of_all(kept: &BTreeMap<MessageId, KeptText>) -> Option<MessageId>
    ensures none { IfNone result
        ((message_id : MessageIdOf) → find_entry message_id_cmp message_id kept.now.entries ≡ None) }
    ensures kept { IfSome result (λ last. IsSome (find_entry message_id_cmp last kept.now.entries)) }
    ensures greatest { IfSome result
        (λ last. (message_id : MessageIdOf) → IsSome (find_entry message_id_cmp message_id kept.now.entries)
        → is_lt (message_id_cmp last message_id) ≡ false) }
    ensures fits { IfSome result (λ last. last.terminal < 2 ^ 32) }
{
    match kept.last_key_value() {
        Some((message_id, _)) => Some(read_message_id(message_id)),
        None => None,
    }
}

// The greatest message ID of the terminals below this one.
fn last_below(kept: &BTreeMap<MessageId, KeptText>, terminal: u32) -> Option<MessageId>
    ensures none { IfNone result
        ((message_id : MessageIdOf) → message_id.terminal < terminal
        → find_entry message_id_cmp message_id kept.now.entries ≡ None) }
    ensures kept { IfSome result (λ last. IsSome (find_entry message_id_cmp last kept.now.entries)) }
    ensures greatest { IfSome result
        (λ last. (message_id : MessageIdOf) → message_id.terminal < terminal
        → IsSome (find_entry message_id_cmp message_id kept.now.entries)
        → is_lt (message_id_cmp last message_id) ≡ false) }
    ensures below { IfSome result (λ last. last.terminal < terminal) }
{
    let end = MessageId {
        terminal,
        number: 0,
    };
    match kept.range(..end).next_back() {
        Some((message_id, _)) => Some(*message_id),
        None => None,
    }
}

// The greatest message ID of the terminals up to this one.
fn last_upto(kept: &BTreeMap<MessageId, KeptText>, terminal: u32) -> Option<MessageId>
    ensures none { IfNone result
        ((message_id : MessageIdOf) → message_id.terminal ≤ terminal
        → find_entry message_id_cmp message_id kept.now.entries ≡ None) }
    ensures kept { IfSome result (λ last. IsSome (find_entry message_id_cmp last kept.now.entries)) }
    ensures greatest { IfSome result
        (λ last. (message_id : MessageIdOf) → message_id.terminal ≤ terminal
        → IsSome (find_entry message_id_cmp message_id kept.now.entries)
        → is_lt (message_id_cmp last message_id) ≡ false) }
    ensures upto { IfSome result (λ last. last.terminal ≤ terminal) }
{
    match terminal.checked_add(1) {
        Some(next) => last_below(kept, next),
        None => last_of_all(kept),
    }
}

/// The greatest number under which a message of a terminal is kept, 0 where none is.
pub(crate) fn last_kept(kept: &BTreeMap<MessageId, KeptText>, terminal: u32) -> u32
    ensures greatest { (number : ℕ)
        → IsSome (find_entry message_id_cmp
        (record { terminal = terminal; number = number }) kept.now.entries)
        → number ≤ result }
    ensures kept { (result ≡ 0)
        ⊎ IsSome (find_entry message_id_cmp
        (record { terminal = terminal; number = result }) kept.now.entries) }
{
    let Some(last) = last_upto(kept, terminal) else {
        return 0;
    };
    if last.terminal != terminal {
        return 0;
    }
    last.number
}
