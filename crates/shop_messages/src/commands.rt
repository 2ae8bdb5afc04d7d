//! Commands in JSON: each one by its word, read and written.

ghost use Rattle.std.specs.Prelude.{◌≡◌, IfOk, OnOk, Some, None};
ghost use Rattle.serde_json.specs.View.{view};
ghost use Rattle.shop_records.specs.Messages.{IsMessage, IsCommand, IsNumber};
ghost use Rattle.shop_forms.specs.Forms as form;
ghost use Rattle.shop_forms.specs.Forms.{message_data, sent_data};
ghost use Rattle.shop_forms.specs.Tokens.{AddsValue};
ghost use Rattle.shop_records.specs.declared.messages.Command.TheVariants.{AddMaterial, Receive, Reserve, Amend, Note};
ghost use Rattle.shop_forms.specs.Fields.{row};
ghost use Rattle.cut_measure.specs.Names.{IsName};

use crate::halting::{break_command, write_break};
use crate::importing::{import_command, write_import};
use crate::ordering::{extend_command, order_command, see_lines, write_order};
use cut_measure::{Code, Kind, PartName};
use json::Writer;
use serde_json::Value;
use shop_forms::{
    Member, code_at, has_keys, kind_at, kind_word, name_at, number_at, part_in, see_part, text_at,
    wide, write_object,
};
use shop_records::{Command, Message, Text};
use std::alloc::{AllocError, Global};

// The command that a value stands for, by the word of `do`.
pub(crate) fn command(
    alloc: Global,
    value: &Value,
    word: &str,
) -> Result<Option<Command>, AllocError>
    ensures { IfOk result (λ command. command ≡ form.command_of word.now (view value.now)) }
{
    if word == "material" {
        Ok(material_command(value))
    } else if word == "receive" {
        Ok(receive_command(value))
    } else if word == "order" {
        order_command(alloc, value)
    } else if word == "reserve" {
        reserve_command(alloc, value)
    } else if word == "done" {
        Ok(done_command(value))
    } else if word == "break" {
        break_command(alloc, value)
    } else if word == "release" {
        Ok(release_command(value))
    } else if word == "scrap" {
        Ok(scrap_command(value))
    } else if word == "return" {
        Ok(return_command(value))
    } else if word == "import" {
        import_command(alloc, value)
    } else if word == "amend" {
        Ok(amend_command(value))
    } else if word == "undo" {
        Ok(undo_command(value))
    } else if word == "note" {
        note_command(alloc, value)
    } else if word == "extend" {
        extend_command(alloc, value)
    } else if word == "begin" {
        Ok(begin_command(value))
    } else {
        Ok(None)
    }
}

/// Writes a message as an object, its keys in byte order.
pub fn write_message(
    alloc: Global,
    writer: &mut Writer,
    message: &Message,
) -> Result<(), AllocError>
    ensures value { OnOk result (AddsValue writer.old writer.new (message_data message.now)) }
    ensures message { IsMessage message.now }
{
    let message_id = (wide(message.terminal), wide(message.number));
    match &message.command {
        Command::AddMaterial {
            material,
            kind,
            kerf,
            min_long,
            min_short,
        } => write_material(
            writer, message_id, material, *kind, *kerf, *min_long, *min_short,
        ),
        Command::Receive {
            material,
            batch,
            w,
            h,
            count,
        } => write_receive(writer, message_id, material, batch, *w, *h, *count),
        Command::AddOrder { order, lines } => {
            see_lines(lines.as_slice());
            write_order(
                alloc,
                writer,
                message_id,
                "order",
                order.as_str(),
                lines.as_slice(),
            )
        }
        Command::Reserve { part, tree } => write_reserve(alloc, writer, message_id, part, tree),
        Command::Done { job } => write_end(writer, message_id, "done", *job),
        Command::Break { job, halt, rest } => write_break(writer, message_id, *job, halt, *rest),
        Command::Release { job } => write_end(writer, message_id, "release", *job),
        Command::Scrap { part } => write_turned(alloc, writer, message_id, "scrap", part),
        Command::GiveBack { part } => write_turned(alloc, writer, message_id, "return", part),
        Command::Import { order, form, text } => write_import(
            writer, message_id, order, form, text,
        ),
        Command::Amend { demand, wanted } => write_amend(writer, message_id, *demand, *wanted),
        Command::Undo { job } => write_end(writer, message_id, "undo", *job),
        Command::Note { order, due, text } => write_note(writer, message_id, order, *due, text),
        Command::Extend { order, lines } => {
            see_lines(lines.as_slice());
            write_order(
                alloc,
                writer,
                message_id,
                "extend",
                order.as_str(),
                lines.as_slice(),
            )
        }
        Command::Begin { job } => write_end(writer, message_id, "begin", *job),
    }
}

// The command to add a material.
fn material_command(value: &Value) -> Option<Command>
    ensures { result ≡ row 8 form.material_command (view value.now) }
{
    if !has_keys(value, 8) {
        return None;
    }
    let material = code_at(value, "material")?;
    let kind = kind_at(value, "kind")?;
    let kerf = number_at(value, "kerf")?;
    let min_long = number_at(value, "min_long")?;
    let min_short = number_at(value, "min_short")?;
    Some(Command::AddMaterial {
        material,
        kind,
        kerf,
        min_long,
        min_short,
    })
}

// Writes a message that adds a material.
fn write_material(
    writer: &mut Writer,
    message_id: (u64, u64),
    material: &Code,
    kind: Kind,
    kerf: u32,
    min_long: u32,
    min_short: u32,
) -> Result<(), AllocError>
    ensures value { OnOk result (AddsValue writer.old writer.new
        (sent_data message_id.0 message_id.1
        (form.material_members material.now kind kerf min_long min_short))) }
    ensures seen { IsCommand (AddMaterial material.now kind kerf min_long min_short) }
{
    write_object(
        writer,
        &[
            Member::Text("do", "material"),
            Member::Number("kerf", wide(kerf)),
            Member::Text("kind", kind_word(kind)),
            Member::Text("material", material.as_str()),
            Member::Number("min_long", wide(min_long)),
            Member::Number("min_short", wide(min_short)),
            Member::Number("number", message_id.1),
            Member::Number("terminal", message_id.0),
        ],
    )
}

// The command to receive units.
fn receive_command(value: &Value) -> Option<Command>
    ensures { result ≡ row 8 form.receive_command (view value.now) }
{
    if !has_keys(value, 8) {
        return None;
    }
    let material = code_at(value, "material")?;
    let batch = code_at(value, "batch")?;
    let w = number_at(value, "w")?;
    let h = number_at(value, "h")?;
    let count = number_at(value, "count")?;
    Some(Command::Receive {
        material,
        batch,
        w,
        h,
        count,
    })
}

// Writes a message that receives units.
fn write_receive<'a>(
    writer: &mut Writer,
    message_id: (u64, u64),
    material: &'a Code,
    batch: &'a Code,
    w: u32,
    h: u32,
    count: u32,
) -> Result<(), AllocError>
    ensures value { OnOk result (AddsValue writer.old writer.new
        (sent_data message_id.0 message_id.1 (form.receive_members material.now batch.now w h count))) }
    ensures seen { IsCommand (Receive material.now batch.now w h count) }
{
    write_object(
        writer,
        &[
            Member::Text("batch", batch.as_str()),
            Member::Number("count", wide(count)),
            Member::Text("do", "receive"),
            Member::Number("h", wide(h)),
            Member::Text("material", material.as_str()),
            Member::Number("number", message_id.1),
            Member::Number("terminal", message_id.0),
            Member::Number("w", wide(w)),
        ],
    )
}

// The command to reserve a part.
fn reserve_command(alloc: Global, value: &Value) -> Result<Option<Command>, AllocError>
    ensures { IfOk result (λ command. command ≡ row 5 form.reserve_command (view value.now)) }
{
    if !has_keys(value, 5) {
        return Ok(None);
    }
    match name_at(value, "part") {
        Some(part) => match text_at(value, "tree") {
            Some(tree) => {
                let tree = Text::from_str(alloc, tree)?;
                Ok(Some(Command::Reserve { part, tree }))
            }
            None => Ok(None),
        },
        None => Ok(None),
    }
}

// Writes a message that reserves a part.
fn write_reserve<'a>(
    alloc: Global,
    writer: &mut Writer,
    message_id: (u64, u64),
    part: &'a PartName,
    tree: &'a Text,
) -> Result<(), AllocError>
    ensures value { OnOk result (AddsValue writer.old writer.new
        (sent_data message_id.0 message_id.1 (form.reserve_members part.now tree.now))) }
    ensures seen { IsCommand (Reserve part.now tree.now) }
{
    see_part(part);
    write_object(
        writer,
        &[
            Member::Text("do", "reserve"),
            Member::Number("number", message_id.1),
            Member::Name("part", part, alloc),
            Member::Number("terminal", message_id.0),
            Member::Text("tree", tree.as_str()),
        ],
    )
}

// The command that a job is done.
fn done_command(value: &Value) -> Option<Command>
    ensures { result ≡ row 4 form.done_command (view value.now) }
{
    if !has_keys(value, 4) {
        return None;
    }
    let job = number_at(value, "job")?;
    Some(Command::Done { job })
}

// The command to release a job's part.
fn release_command(value: &Value) -> Option<Command>
    ensures { result ≡ row 4 form.release_command (view value.now) }
{
    if !has_keys(value, 4) {
        return None;
    }
    let job = number_at(value, "job")?;
    Some(Command::Release { job })
}

// Writes a message on a job, by its word.
fn write_end(
    writer: &mut Writer,
    message_id: (u64, u64),
    word: &str,
    job: u32,
) -> Result<(), AllocError>
    ensures value { OnOk result (AddsValue writer.old writer.new
        (form.sent_data message_id.0 message_id.1 (form.job_members word.now job))) }
    ensures seen { IsNumber job }
{
    write_object(
        writer,
        &[
            Member::Text("do", word),
            Member::Number("job", wide(job)),
            Member::Number("number", message_id.1),
            Member::Number("terminal", message_id.0),
        ],
    )
}

// The command that makes a part scrap.
fn scrap_command(value: &Value) -> Option<Command>
    ensures { result ≡ row 4 form.scrap_command (view value.now) }
{
    let part = part_in(value, 4)?;
    Some(Command::Scrap { part })
}

// The command that returns a unit.
fn return_command(value: &Value) -> Option<Command>
    ensures { result ≡ row 4 form.return_command (view value.now) }
{
    let part = part_in(value, 4)?;
    Some(Command::GiveBack { part })
}

// Writes a message that turns a part, by its word.
fn write_turned<'a>(
    alloc: Global,
    writer: &mut Writer,
    message_id: (u64, u64),
    word: &'a str,
    part: &'a PartName,
) -> Result<(), AllocError>
    ensures value { OnOk result (AddsValue writer.old writer.new
        (form.sent_data message_id.0 message_id.1 (form.turned_members word.now part.now))) }
    ensures seen { IsName part.now }
{
    see_part(part);
    write_object(
        writer,
        &[
            Member::Text("do", word),
            Member::Number("number", message_id.1),
            Member::Name("part", part, alloc),
            Member::Number("terminal", message_id.0),
        ],
    )
}

// The command that says how many pieces of a demand are wanted.
fn amend_command(value: &Value) -> Option<Command>
    ensures { result ≡ row 5 form.amend_command (view value.now) }
{
    if !has_keys(value, 5) {
        return None;
    }
    let demand = number_at(value, "demand")?;
    let wanted = number_at(value, "wanted")?;
    Some(Command::Amend { demand, wanted })
}

// Writes a message that amends a demand.
fn write_amend(
    writer: &mut Writer,
    message_id: (u64, u64),
    demand: u32,
    wanted: u32,
) -> Result<(), AllocError>
    ensures value { OnOk result (AddsValue writer.old writer.new
        (sent_data message_id.0 message_id.1 (form.amend_members demand wanted))) }
    ensures seen { IsCommand (Amend demand wanted) }
{
    write_object(
        writer,
        &[
            Member::Number("demand", wide(demand)),
            Member::Text("do", "amend"),
            Member::Number("number", message_id.1),
            Member::Number("terminal", message_id.0),
            Member::Number("wanted", wide(wanted)),
        ],
    )
}

// The command to undo a job.
fn undo_command(value: &Value) -> Option<Command>
    ensures { result ≡ row 4 form.undo_command (view value.now) }
{
    if !has_keys(value, 4) {
        return None;
    }
    let job = number_at(value, "job")?;
    Some(Command::Undo { job })
}

// The command that a job is begun.
fn begin_command(value: &Value) -> Option<Command>
    ensures { result ≡ row 4 form.begin_command (view value.now) }
{
    if !has_keys(value, 4) {
        return None;
    }
    let job = number_at(value, "job")?;
    Some(Command::Begin { job })
}

// The command to say something of an order.
fn note_command(alloc: Global, value: &Value) -> Result<Option<Command>, AllocError>
    ensures { IfOk result (λ command. command ≡ row 6 form.note_command (view value.now)) }
{
    if !has_keys(value, 6) {
        return Ok(None);
    }
    let (Some(order), Some(due)) = (code_at(value, "order"), number_at(value, "due")) else {
        return Ok(None);
    };
    match text_at(value, "text") {
        Some(text) => {
            let text = Text::from_str(alloc, text)?;
            Ok(Some(Command::Note { order, due, text }))
        }
        None => Ok(None),
    }
}

// Writes a message that says something of an order.
fn write_note<'a>(
    writer: &mut Writer,
    message_id: (u64, u64),
    order: &'a Code,
    due: u32,
    text: &'a Text,
) -> Result<(), AllocError>
    ensures value { OnOk result (AddsValue writer.old writer.new
        (sent_data message_id.0 message_id.1 (form.note_members order.now due text.now))) }
    ensures seen { IsCommand (Note order.now due text.now) }
{
    write_object(
        writer,
        &[
            Member::Text("do", "note"),
            Member::Number("due", wide(due)),
            Member::Number("number", message_id.1),
            Member::Text("order", order.as_str()),
            Member::Number("terminal", message_id.0),
            Member::Text("text", text.as_str()),
        ],
    )
}
