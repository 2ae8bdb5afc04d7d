//! Messages and queries as JSON: how a value is read as one, and a message's canonical text.

ghost use Rattle.std.specs.Prelude.{◌≡◌, ◌≢◌, ◌⊎◌, IfOk, IfErr, Some, None, option_map};
ghost use Rattle.serde_json.specs.View.{view};
ghost use Rattle.shop_records.specs.Messages.{IsMessage};
ghost use Rattle.shop_records.specs.declared.refusals.Refusal.TheVariants.{BadMessage, NoMemory};
ghost use Rattle.shop_forms.specs.Forms as form;
ghost use Rattle.shop_forms.specs.Forms.{message_data, json_texts};

use crate::asking::asked;
use crate::commands::{command, write_message};
use crate::halting::has_few_cuts;
use serde_json::Value;
use shop_forms::{new_writer, number_at, value_of, word_at, written_text};
use shop_records::{Message, Query, Refusal, Text};
use std::alloc::{AllocError, Global};

// The word of `do`, the terminal and the number.
fn head(value: &Value) -> Option<(&str, u32, u32)>
    ensures { option_map (λ head. (head.0.now, head.1, head.2)) result
        ≡ form.sent_head (view value.now) }
{
    let word = word_at(value, "do", "ask")?;
    let terminal = number_at(value, "terminal")?;
    let number = number_at(value, "number")?;
    Some((word, terminal, number))
}

/// The message, of any terminal, that a value stands for, if it stands for one.
pub fn sent_message(alloc: Global, value: &Value) -> Result<Option<Message>, AllocError>
    ensures { IfOk result (λ message. message ≡ form.sent_of (view value.now)) }
{
    let Some((word, terminal, number)) = head(value) else {
        return Ok(None);
    };
    match command(alloc, value, word)? {
        Some(command) => Ok(Some(Message {
            terminal,
            number,
            command,
        })),
        None => Ok(None),
    }
}

/// The message that a value stands for; refused `BadMessage` where it stands for none, where its terminal is 0 and where
/// it lists over 255 cuts, and `NoMemory` where memory runs out.
pub fn read_message(alloc: Global, value: &Value) -> Result<Message, Refusal>
    ensures ok { IfOk result (λ message. form.message_of (view value.now) ≡ Some message) }
    ensures err { IfErr result
        (λ refusal. refusal ≢ NoMemory → (refusal ≡ BadMessage)
        × (form.message_of (view value.now) ≡ None)) }
{
    match sent_message(alloc, value) {
        Ok(Some(message)) => {
            if message.terminal < 1 || !has_few_cuts(&message.command) {
                return Err(Refusal::BadMessage);
            }
            Ok(message)
        }
        Ok(None) => Err(Refusal::BadMessage),
        Err(_) => Err(Refusal::NoMemory),
    }
}

/// The message that a kept text is, where it is one; terminal 0's are read, too.
pub fn kept_message(alloc: Global, text: &str) -> Result<Option<Message>, AllocError>
    ensures { IfOk result (λ kept. kept ≡ form.kept_message_of text.now) }
{
    match Value::from_str(alloc, text) {
        Ok(value) => {
            let message = sent_message(alloc, &value)?;
            Ok(message)
        }
        Err(error) => {
            if error.is_memory() {
                return Err(AllocError);
            }
            Ok(None)
        }
    }
}

#[tactic(auto, using(crate::proofs::Printed::message_text_printed))]
/// The canonical text of a message: compact, with its keys in byte order.
pub fn message_text(alloc: Global, message: &Message) -> Result<Text, AllocError>
    ensures text { IfOk result (λ text. text ≡ json_texts.of_message message.now) }
    ensures message { IsMessage message.now }
{
    let mut writer = new_writer(alloc);
    write_message(alloc, &mut writer, message)?;
    Ok(written_text(writer))
}

/// A message as an object.
pub fn message_value(alloc: Global, message: &Message) -> Result<Value, AllocError>
    ensures value { IfOk result (λ value. view value ≡ message_data message.now) }
    ensures message { IsMessage message.now }
{
    let text = message_text(alloc, message)?;
    let value = value_of(alloc, &text)?;
    Ok(value)
}

/// The query that a value stands for; refused `BadMessage` where it stands for none, and `NoMemory` where memory runs out.
pub fn read_query(alloc: Global, value: &Value) -> Result<Query, Refusal>
    ensures ok { IfOk result (λ query. form.query_of (view value.now) ≡ Some query) }
    ensures err { IfErr result
        (λ refusal. (refusal ≡ NoMemory)
        ⊎ ((refusal ≡ BadMessage) × (form.query_of (view value.now) ≡ None))) }
{
    let query = asked(alloc, value)?;
    query.ok_or(Refusal::BadMessage)
}
