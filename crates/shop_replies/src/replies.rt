//! Replies as JSON: how a value or a kept text is read as one, and a reply's text.

ghost use Rattle.std.specs.Prelude.{◌≡◌, ◌⊎◌, IfOk, IfErr, Some, None};
ghost use Rattle.serde_json.specs.View.{view};
ghost use Rattle.shop_records.specs.Messages.{IsMade};
ghost use Rattle.shop_records.specs.declared.messages.Reply.{Reply as ReplyOf};
ghost use Rattle.shop_records.specs.declared.refusals.Refusal.TheVariants.{BadMessage, NoMemory};
ghost use Rattle.shop_forms.specs.Forms as form;
ghost use Rattle.serde_json.specs.Written.{compact_text};
ghost use Rattle.shop_forms.specs.Forms.{entry_data, reply_data, json_texts};

use crate::commands::{made, write_reply};
use crate::history::write_entry;
use crate::reading::reported;
use serde_json::Value;
use shop_forms::{new_writer, value_of, written_text};
use shop_records::{Refusal, Reply, ReportedEntry, Text};
use std::alloc::{AllocError, Global};

/// The reply of an accepted message, or the one about entries, that a value stands for; refused `BadMessage` where it stands
/// for neither, and `NoMemory` where memory runs out. An entry is read with its message, terminal 0's too.
pub fn read_reply(alloc: Global, value: &Value) -> Result<Reply, Refusal>
    ensures ok { IfOk result (λ reply. form.answer_of (view value.now) ≡ Some reply) }
    ensures err { IfErr result
        (λ refusal. (refusal ≡ NoMemory)
        ⊎ ((refusal ≡ BadMessage) × (form.answer_of (view value.now) ≡ None))) }
{
    if let Some(reply) = made(value) {
        return Ok(reply);
    }
    let reported = reported(alloc, value)?;
    reported.ok_or(Refusal::BadMessage)
}

/// The reply that a kept text is, where it is one. A reply that an accepted message can get is read back from its text.
pub fn kept_reply(alloc: Global, text: &str) -> Result<Option<Reply>, AllocError>
    ensures reading { IfOk result (λ kept. kept ≡ form.kept_reply_of text.now) }
    ensures back { (reply : ReplyOf) → IsMade reply → text.now ≡ form.json_texts.of_reply reply
        → IfOk result (λ kept. kept ≡ Some reply) }
{
    match Value::from_str(alloc, text) {
        Ok(value) => Ok(made(&value)),
        Err(error) => {
            if error.is_memory() {
                return Err(AllocError);
            }
            Ok(None)
        }
    }
}

#[tactic(auto, using(crate::proofs::Printed::reply_text_printed))]
/// The text of a reply: compact, with its keys in byte order.
pub fn reply_text(alloc: Global, reply: &Reply) -> Result<Text, AllocError>
    ensures { IfOk result (λ text. text ≡ json_texts.of_reply reply.now) }
{
    let mut writer = new_writer(alloc);
    write_reply(alloc, &mut writer, reply)?;
    Ok(written_text(writer))
}

#[tactic(auto, using(crate::proofs::Printed::entry_text_printed))]
/// The text of an entry as it is reported: compact, with its keys in byte order.
pub fn entry_text(alloc: Global, reported: &ReportedEntry) -> Result<Text, AllocError>
    ensures { IfOk result (λ text. text ≡ compact_text (entry_data reported.now)) }
{
    let mut out = new_writer(alloc);
    write_entry(alloc, &mut out, reported)?;
    Ok(written_text(out))
}

/// A reply as an object.
pub fn reply_value(alloc: Global, reply: &Reply) -> Result<Value, AllocError>
    ensures { IfOk result (λ value. view value ≡ reply_data reply.now) }
{
    let mut writer = new_writer(alloc);
    write_reply(alloc, &mut writer, reply)?;
    let value = value_of(alloc, &written_text(writer))?;
    Ok(value)
}
