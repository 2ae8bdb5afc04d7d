//! JSON of the replies about entries, with what is kept of their messages.

ghost use Rattle.std.specs.Prelude.{OnOk, All, IfSome};
ghost use Rattle.serde_json.specs.Data.{null};
ghost use Rattle.shop_records.specs.declared.messages.Reply.TheVariants as answer;
ghost use Rattle.shop_records.specs.Messages.{IsMessage};
ghost use Rattle.shop_forms.specs.Forms as form;
ghost use Rattle.shop_forms.specs.Forms.{entry_data, rows_data, reply_data, HasWideEntry, HasWideMade, HasWideNumbers};
ghost use Rattle.shop_forms.specs.Tokens.{AddsValue};

use crate::commands::write_made;
use crate::replies::kept_reply;
use json::Writer;
use shop_forms::{Member, write_flag, write_number, write_object, write_text};
use shop_messages::{kept_message, write_message};
use shop_records::{ReportedEntry, Text};
use std::alloc::{AllocError, Global};

// Writes null.
pub(crate) fn write_null(writer: &mut Writer) -> Result<(), AllocError>
    ensures { OnOk result (AddsValue writer.old writer.new null) }
{
    writer.null()?;
    Ok(())
}

// Writes the reply about the history as a whole.
pub(crate) fn report_shop(
    writer: &mut Writer,
    began: u64,
    entries: u64,
    last: u64,
) -> Result<(), AllocError>
    ensures value { OnOk result
        (AddsValue writer.old writer.new (reply_data (answer.Shop began entries last))) }
    ensures wide { OnOk result (HasWideNumbers (answer.Shop began entries last)) }
{
    write_object(
        writer,
        &[
            Member::Number("began", began),
            Member::Number("entries", entries),
            Member::Number("last", last),
            Member::Text("ok", "shop"),
        ],
    )
}

// Writes the object that a kept message is, and null where the text is none.
fn write_kept_message(alloc: Global, writer: &mut Writer, text: &Text) -> Result<(), AllocError>
    ensures value { OnOk result
        (AddsValue writer.old writer.new (form.message_reported (form.kept_message_of text.now))) }
    ensures message { OnOk result (IfSome (form.kept_message_of text.now) IsMessage) }
{
    match kept_message(alloc, text.as_str())? {
        Some(message) => write_message(alloc, writer, &message),
        None => write_null(writer),
    }
}

// Writes the object that a kept reply is, and null where the text is none.
fn write_kept_reply(alloc: Global, writer: &mut Writer, text: &Text) -> Result<(), AllocError>
    ensures value { OnOk result
        (AddsValue writer.old writer.new (form.reply_reported (form.kept_reply_of text.now))) }
    ensures wide { OnOk result (IfSome (form.kept_reply_of text.now) HasWideMade) }
{
    match kept_reply(alloc, text.as_str())? {
        Some(reply) => write_made(alloc, writer, &reply),
        None => write_null(writer),
    }
}

// Writes an entry.
pub(crate) fn write_entry(
    alloc: Global,
    writer: &mut Writer,
    reported: &ReportedEntry,
) -> Result<(), AllocError>
    ensures value { OnOk result (AddsValue writer.old writer.new (entry_data reported.now)) }
    ensures wide { OnOk result (HasWideEntry reported.now) }
{
    let ReportedEntry {
        at,
        entry,
        message,
        reply,
    } = reported;
    writer.begin_object()?;
    write_number(writer, "at", *at)?;
    write_number(writer, "entry", *entry)?;
    writer.key("message")?;
    write_kept_message(alloc, writer, message)?;
    writer.key("reply")?;
    write_kept_reply(alloc, writer, reply)?;
    writer.end_object()?;
    Ok(())
}

// Writes a list of entries.
fn write_entries(
    alloc: Global,
    writer: &mut Writer,
    entries: &[ReportedEntry],
) -> Result<(), AllocError>
    ensures value { OnOk result
        (AddsValue writer.old writer.new (rows_data entry_data entries.now)) }
    ensures wide { OnOk result (All HasWideEntry entries.now) }
{
    writer.begin_array()?;
    for entry in entries {
        write_entry(alloc, writer, entry)?;
    }
    writer.end_array()?;
    Ok(())
}

// Writes the reply about entries, by its word.
pub(crate) fn report_entries(
    alloc: Global,
    writer: &mut Writer,
    word: &str,
    entries: &[ReportedEntry],
    more: bool,
) -> Result<(), AllocError>
    ensures value { OnOk result
        (AddsValue writer.old writer.new (form.entries_reported word.now entries.now more)) }
    ensures wide { OnOk result (All HasWideEntry entries.now) }
{
    writer.begin_object()?;
    writer.key("entries")?;
    write_entries(alloc, writer, entries)?;
    write_flag(writer, "more", more)?;
    write_text(writer, "ok", word)?;
    writer.end_object()?;
    Ok(())
}
