//! The desk's calls: a message is handled once, and messages are run in order.

ghost use Rattle.std.specs.Prelude.{◌≡◌, ◌≢◌, ◌⊎◌, IfErr, IfOk, IfSome, OnErr, None, true, false};
ghost use Rattle.shop_records.specs.Content.{Content, entry_count, kept_at, last_time};
ghost use Rattle.shop_records.specs.Messages.{IsMessage, message_id_of};
ghost use Rattle.shop_machine.specs.Machine.{StepAgain, entering};
ghost use Rattle.shop_records.specs.WellFormed.{IsWellFormed, IsKept};
ghost use Rattle.shop_records.specs.declared.texts.MessageId.{MessageId as MessageIdOf};
ghost use Rattle.shop_records.specs.declared.messages.Message.{Message as MessageOf};
ghost use Rattle.shop_records.specs.declared.messages.Reply.TheVariants.{Refused};
ghost use Rattle.shop_records.specs.declared.refusals.Refusal.TheVariants.{NoMemory, StoreFault};
ghost use Rattle.shop_forms.specs.Forms.{json_texts};
ghost use Rattle.shop_book.specs.Kept.{Unchanged, OnContent};
ghost use Rattle.shop_desk.specs.Faults.{CountsDecision, CountsOrContradicts, CountsUp, StoreFailed};
ghost use Rattle.shop_desk.specs.Handled.{AreHandled, AreHandledAt, JustifiesStoreFault, Handles, HandlesAt, HasRun, IsHandledAt, RefusalKeeps};

use crate::decided::{decide, keeping_message};
use shop_book::Book;
use shop_rules::{
    Change, Kept, KeptMessage, Message, MessageId, Refusal, Reply, Text, enter, kept_reply,
    message_text, reply_text,
};
use std::alloc::{AllocError, Global};

// Whether two texts are one.
fn is_same(a: &Text, b: &Text) -> bool
    ensures same { result ≡ true → a.now ≡ b.now }
    ensures other { result ≡ false → a.now ≢ b.now }
{
    a.as_str() == b.as_str()
}

// What is answered to a message whose ID is kept. The text is the message's.
fn answer_again(alloc: Global, text: &Text, kept: &Kept) -> Reply
    ensures { (message : MessageOf) → text.now ≡ json_texts.of_message message → (message_id : MessageIdOf)
        → IsKept json_texts message_id kept.now
        → StepAgain json_texts kept.now message result × (result ≢ Refused StoreFault) }
{
    if !is_same(&kept.command, text) {
        return Reply::Refused(Refusal::NumberReused);
    }
    match kept_reply(alloc, kept.reply.as_str()) {
        Ok(Some(reply)) => reply,
        Ok(None) => Reply::Refused(Refusal::StoreFault),
        Err(_) => Reply::Refused(Refusal::NoMemory),
    }
}

// The number and the time of the book's last entry.
fn last_entry<B: Book>(book: &mut B) -> Result<(u64, u64), Refusal>
    ensures last { OnContent B.Book book.old book.new (λ m. IfOk result
        (λ last. (last.0 ≡ entry_count m) × (last.1 ≡ last_time m))) }
    ensures fault { IfErr result (λ refusal. (refusal ≡ NoMemory) ⊎ (refusal ≡ StoreFault)) }
    ensures keeps { Unchanged B.Book (CountsDecision result) book.old book.new }
{
    let last = book.last_entry()?;
    Ok(last)
}

// The change that also writes the message's entry behind the book's last one. Where no number of 64 bits is left for it, the
// message is refused as if memory ran out.
fn entered<B: Book>(
    book: &mut B,
    message: &Message,
    at: u64,
    change: Change,
) -> Result<Change, Refusal>
    ensures entered { OnContent B.Book book.old book.new (λ m. IfOk result (λ entered. entered
        ≡ entering (entry_count m) (last_time m) at message.now change)) }
    ensures fault { IfErr result (λ refusal. (refusal ≡ NoMemory) ⊎ (refusal ≡ StoreFault)) }
    ensures keeps { Unchanged B.Book (CountsDecision result) book.old book.new }
{
    match last_entry(book) {
        Err(fault) => Err(fault),
        Ok((last_number, last_at)) => match enter(last_number, last_at, at, message, change) {
            Ok(change) => Ok(change),
            Err(_) => Err(Refusal::NoMemory),
        },
    }
}

// Handles a message whose ID isn't kept. The text is the message's.
fn handle_new<B: Book>(
    alloc: Global,
    book: &mut B,
    message: &Message,
    text: Text,
    at: u64,
) -> (Reply, Option<Text>)
    ensures step { text ≡ json_texts.of_message message.now → IsMessage message.now
        → B.has_clean_disk book.new → (m : Content) → B.holds book.old m
        → IsWellFormed json_texts m → kept_at m (message_id_of message.now) ≡ None
        → IsHandledAt json_texts B.stands at (B.may_leave book.old) (B.may_leave book.new)
        (B.holds book.new) m message.now result.0 }
    ensures refused { RefusalKeeps B.Book book.old book.new result.0 }
    ensures reported { IfSome result.1 (λ text. text ≡ json_texts.of_reply result.0) }
    ensures clean_disk { B.has_clean_disk book.new → B.has_clean_disk book.old }
    ensures failures { CountsOrContradicts result.0 (B.failed book.old) (B.failed book.new) }
    ensures store_fault { IsMessage message.now → B.has_clean_disk book.new → (m : Content)
        → B.holds book.old m → IsWellFormed json_texts m
        → result.0 ≡ Refused StoreFault → StoreFailed (B.failed book.old) (B.failed book.new) }
{
    let change = match decide(alloc, book, &message.command) {
        Ok(change) => change,
        Err(refusal) => return (Reply::Refused(refusal), None),
    };
    let Ok(reported) = reply_text(alloc, &change.reply) else {
        return (Reply::Refused(Refusal::NoMemory), None);
    };
    let copy = reported.copy(alloc).ok();
    let message_id = MessageId {
        terminal: message.terminal,
        number: message.number,
    };
    let kept = Kept {
        command: text,
        reply: reported,
    };
    let Ok((change, reply)) = keeping_message(alloc, change, KeptMessage { message_id, kept })
    else {
        return (Reply::Refused(Refusal::NoMemory), None);
    };
    let change = match entered(book, message, at, change) {
        Ok(change) => change,
        Err(fault) => return (Reply::Refused(fault), None),
    };
    match book.commit(change) {
        Ok(()) => (reply, copy),
        Err(fault) => (Reply::Refused(Refusal::from(fault)), None),
    }
}

// Handles a message, as `handle_with_text_at` says.
fn handle_message<B: Book>(
    alloc: Global,
    book: &mut B,
    message: &Message,
    at: u64,
) -> (Reply, Option<Text>)
    ensures timed { HandlesAt json_texts at B.Book book.old book.new message.now result.0 }
    ensures refused { RefusalKeeps B.Book book.old book.new result.0 }
    ensures reported { IfSome result.1 (λ text. text ≡ json_texts.of_reply result.0) }
    ensures message { IsMessage message.now }
    ensures clean_disk { B.has_clean_disk book.new → B.has_clean_disk book.old }
    ensures failures { CountsOrContradicts result.0 (B.failed book.old) (B.failed book.new) }
    ensures store_fault { JustifiesStoreFault json_texts B.Book book.old book.new result.0 }
{
    let Ok(text) = message_text(alloc, message) else {
        return (Reply::Refused(Refusal::NoMemory), None);
    };
    match book.kept(alloc, message.terminal, message.number) {
        Ok(None) => handle_new(alloc, book, message, text, at),
        Ok(Some(kept)) => (answer_again(alloc, &text, &kept), None),
        Err(fault) => (Reply::Refused(Refusal::from(fault)), None),
    }
}

/// Handles a message that was given this time, in seconds since 1970-01-01 00:00 UTC, or 0 without a time: one step of the
/// machine. A message whose ID is kept gets the kept reply, or 11 where it is another command; one that is accepted is
/// kept with its reply, and its entry is written, with the time, or the last entry's where that is greater. Beside the
/// reply its text, where it was written to be kept and there was memory for a copy.
pub fn handle_with_text_at<B: Book>(
    alloc: Global,
    book: &mut B,
    message: &Message,
    at: u64,
) -> (Reply, Option<Text>)
    ensures step { Handles json_texts B.Book book.old book.new message.now result.0 }
    ensures timed { HandlesAt json_texts at B.Book book.old book.new message.now result.0 }
    ensures refused { RefusalKeeps B.Book book.old book.new result.0 }
    ensures reported { IfSome result.1 (λ text. text ≡ json_texts.of_reply result.0) }
    ensures message { IsMessage message.now }
    ensures clean_disk { B.has_clean_disk book.new → B.has_clean_disk book.old }
    ensures failures { CountsOrContradicts result.0 (B.failed book.old) (B.failed book.new) }
    ensures store_fault { JustifiesStoreFault json_texts B.Book book.old book.new result.0 }
{
    handle_message(alloc, book, message, at)
}

/// Handles a message as `handle_with_text_at` does, and gives the reply alone.
pub fn handle_at<B: Book>(alloc: Global, book: &mut B, message: &Message, at: u64) -> Reply
    ensures step { Handles json_texts B.Book book.old book.new message.now result }
    ensures timed { HandlesAt json_texts at B.Book book.old book.new message.now result }
    ensures refused { RefusalKeeps B.Book book.old book.new result }
    ensures message { IsMessage message.now }
    ensures clean_disk { B.has_clean_disk book.new → B.has_clean_disk book.old }
    ensures failures { CountsOrContradicts result (B.failed book.old) (B.failed book.new) }
    ensures store_fault { JustifiesStoreFault json_texts B.Book book.old book.new result }
{
    handle_with_text_at(alloc, book, message, at).0
}

/// Handles a message without a time: one step of the machine. A message whose ID is kept gets the kept reply, or 11 where
/// it is another command; one that is accepted is kept with its reply. Beside the reply its text, where it was written to be
/// kept and there was memory for a copy.
pub fn handle_with_text<B: Book>(
    alloc: Global,
    book: &mut B,
    message: &Message,
) -> (Reply, Option<Text>)
    ensures step { Handles json_texts B.Book book.old book.new message.now result.0 }
    ensures refused { RefusalKeeps B.Book book.old book.new result.0 }
    ensures reported { IfSome result.1 (λ text. text ≡ json_texts.of_reply result.0) }
    ensures message { IsMessage message.now }
    ensures clean_disk { B.has_clean_disk book.new → B.has_clean_disk book.old }
    ensures failures { CountsOrContradicts result.0 (B.failed book.old) (B.failed book.new) }
    ensures store_fault { JustifiesStoreFault json_texts B.Book book.old book.new result.0 }
{
    handle_with_text_at(alloc, book, message, 0)
}

/// Handles a message as `handle_with_text` does, and gives the reply alone.
pub fn handle<B: Book>(alloc: Global, book: &mut B, message: &Message) -> Reply
    ensures step { Handles json_texts B.Book book.old book.new message.now result }
    ensures refused { RefusalKeeps B.Book book.old book.new result }
    ensures message { IsMessage message.now }
    ensures clean_disk { B.has_clean_disk book.new → B.has_clean_disk book.old }
    ensures failures { CountsOrContradicts result (B.failed book.old) (B.failed book.new) }
    ensures store_fault { JustifiesStoreFault json_texts B.Book book.old book.new result }
{
    handle_at(alloc, book, message, 0)
}

/// Handles messages in order, all of which were given this time. It makes room for all replies first, so an `Err` means that
/// none was handled. A reply reports a failed store only where it failed meanwhile.
pub fn run_at<B: Book>(
    alloc: Global,
    book: &mut B,
    messages: &[Message],
    at: u64,
) -> Result<Vec<Reply>, AllocError>
    ensures run { OnContent B.Book book.old book.new
        (λ m. IsWellFormed json_texts m
        → IfOk result (λ replies.
        HasRun json_texts B.Book book.old book.new m messages.now replies.items)) }
    ensures handled { IfOk result (λ replies.
        AreHandledAt json_texts at B.Book book.old messages.now replies.items book.new) }
    ensures err { OnErr result (book.new ≡ book.old) }
    ensures clean_disk { B.has_clean_disk book.new → B.has_clean_disk book.old }
    ensures failures { CountsUp (B.failed book.old) (B.failed book.new) }
{
    let mut replies = Vec::with_capacity(alloc, messages.len())?;
    for message in messages {
        let reply = handle_at(alloc, book, message, at);
        match replies.push(reply) {
            Ok(()) => (),
            Err(_) => unreachable!(),
        }
    }
    Ok(replies)
}

/// Handles messages in order, without a time. It makes room for all replies first, so an `Err` means that none was handled. A
/// reply reports a failed store only where it failed meanwhile.
pub fn run<B: Book>(
    alloc: Global,
    book: &mut B,
    messages: &[Message],
) -> Result<Vec<Reply>, AllocError>
    ensures run { OnContent B.Book book.old book.new
        (λ m. IsWellFormed json_texts m
        → IfOk result (λ replies.
        HasRun json_texts B.Book book.old book.new m messages.now replies.items)) }
    ensures handled { IfOk result
        (λ replies. AreHandled json_texts B.Book book.old messages.now replies.items book.new) }
    ensures err { OnErr result (book.new ≡ book.old) }
    ensures clean_disk { B.has_clean_disk book.new → B.has_clean_disk book.old }
    ensures failures { CountsUp (B.failed book.old) (B.failed book.new) }
{
    run_at(alloc, book, messages, 0)
}
