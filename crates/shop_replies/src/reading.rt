//! How a reply about entries is read.

ghost use Rattle.std.specs.Prelude.{◌≡◌, Bool, List, IfOk, map, option_map};
ghost use Rattle.shop_records.specs.declared.journal.ReportedEntry.{ReportedEntry as EntryOf};
ghost use Rattle.shop_records.specs.declared.messages.Reply.TheVariants as answer;
ghost use Rattle.serde_json.specs.View.{view};
ghost use Rattle.shop_forms.specs.Fields.{all_of, row};
ghost use Rattle.shop_forms.specs.Forms as form;

use crate::commands::made;
use crate::replies::reply_text;
use serde_json::Value;
use shop_forms::{elements_at, flag_at, has_keys, text_at, wide_at};
use shop_messages::{message_text, sent_message};
use shop_records::{EntryList, Reply, ReportedEntry, RowList, Text};
use std::alloc::{AllocError, Global};

// The text of the message that a value stands for.
fn sent_text(alloc: Global, value: &Value) -> Result<Option<Text>, AllocError>
    ensures { IfOk result (λ text. text ≡ form.sent_text (view value.now)) }
{
    let Some(message) = sent_message(alloc, value)? else {
        return Ok(None);
    };
    let text = message_text(alloc, &message)?;
    Ok(Some(text))
}

// The text of the reply that a value stands for.
fn made_text(alloc: Global, value: &Value) -> Result<Option<Text>, AllocError>
    ensures { IfOk result (λ text. text ≡ form.made_text (view value.now)) }
{
    let Some(reply) = made(value) else {
        return Ok(None);
    };
    let text = reply_text(alloc, &reply)?;
    Ok(Some(text))
}

// The entry at the keys of an object.
fn entry_fields(alloc: Global, value: &Value) -> Result<Option<ReportedEntry>, AllocError>
    ensures { IfOk result (λ entry. entry ≡ form.entry_fields (view value.now)) }
{
    let (Some(at), Some(entry)) = (wide_at(value, "at"), wide_at(value, "entry")) else {
        return Ok(None);
    };
    let (Some(sent), Some(answer)) = (value.get("message"), value.get("reply")) else {
        return Ok(None);
    };
    let (Some(message), Some(reply)) = (sent_text(alloc, sent)?, made_text(alloc, answer)?) else {
        return Ok(None);
    };
    Ok(Some(ReportedEntry {
        at,
        entry,
        message,
        reply,
    }))
}

// The entry that a value stands for.
fn read_entry(alloc: Global, value: &Value) -> Result<Option<ReportedEntry>, AllocError>
    ensures { IfOk result (λ entry. entry ≡ form.entry_in_list (view value.now)) }
{
    if !has_keys(value, 4) {
        return Ok(None);
    }
    let entry = entry_fields(alloc, value)?;
    Ok(entry)
}

// The entries that values stand for, where each stands for one.
fn read_entries(alloc: Global, values: &[Value]) -> Result<Option<EntryList>, AllocError>
    ensures { IfOk result (λ rows. rows ≡ all_of form.entry_in_list (map view values.now)) }
{
    let mut rows = RowList::new(alloc);
    for value in values {
        let found = read_entry(alloc, value)?;
        match found {
            Some(entry) => rows.push(entry)?,
            None => return Ok(None),
        }
    }
    Ok(Some(rows))
}

// The entries of a reply, where it has any.
fn entries_at(alloc: Global, value: &Value) -> Result<Option<EntryList>, AllocError>
    ensures { IfOk result (λ rows. rows ≡ form.entries_at (view value.now)) }
{
    let Some(values) = elements_at(value, "entries") else {
        return Ok(None);
    };
    let entries = read_entries(alloc, values)?;
    Ok(entries)
}

// The entries of a reply, and whether others follow.
fn entries_read(alloc: Global, value: &Value) -> Result<Option<(EntryList, bool)>, AllocError>
    ensures { IfOk result (λ read. read ≡ row 3 form.entries_read (view value.now)) }
{
    if !has_keys(value, 3) {
        return Ok(None);
    }
    let (Some(entries), Some(more)) = (entries_at(alloc, value)?, flag_at(value, "more")) else {
        return Ok(None);
    };
    Ok(Some((entries, more)))
}

// The reply about all entries, from what was read.
fn history_of(read: Option<(EntryList, bool)>) -> Option<Reply>
    ensures { result
        ≡ option_map (λ (r : List EntryOf × Bool). answer.History r.0 r.1) read }
{
    let (entries, more) = read?;
    Some(Reply::History { entries, more })
}

// The same of a story.
fn story_of(read: Option<(EntryList, bool)>) -> Option<Reply>
    ensures { result ≡ option_map (λ (r : List EntryOf × Bool). answer.Story r.0 r.1) read }
{
    let (entries, more) = read?;
    Some(Reply::Story { entries, more })
}

// The reply about entries that a value stands for.
pub(crate) fn reported(alloc: Global, value: &Value) -> Result<Option<Reply>, AllocError>
    ensures { IfOk result (λ reply. reply ≡ form.reported_of (view value.now)) }
{
    let Some(word) = text_at(value, "ok") else {
        return Ok(None);
    };
    if word == "history" {
        let read = entries_read(alloc, value)?;
        Ok(history_of(read))
    } else if word == "story" {
        let read = entries_read(alloc, value)?;
        Ok(story_of(read))
    } else {
        Ok(None)
    }
}
