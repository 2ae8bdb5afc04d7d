//! JSON of importing an order from the text of a file: its command, read and written.

ghost use Rattle.std.specs.Prelude.{◌≡◌, IfOk, OnOk};
ghost use Rattle.serde_json.specs.View.{view};
ghost use Rattle.shop_records.specs.declared.messages.Command.TheVariants.{Import};
ghost use Rattle.shop_records.specs.declared.imports.Form.TheVariants.{Csv, Cgcut};
ghost use Rattle.shop_records.specs.Messages.{IsCommand};
ghost use Rattle.shop_forms.specs.Fields.{row};
ghost use Rattle.shop_forms.specs.Forms as forms;
ghost use Rattle.shop_forms.specs.Forms.{sent_data};
ghost use Rattle.shop_forms.specs.Tokens.{AddsValue};

use cut_measure::Code;
use json::Writer;
use serde_json::Value;
use shop_forms::{Member, code_at, has_keys, text_at, write_object};
use shop_records::{Command, Form, Text};
use std::alloc::{AllocError, Global};

// An import in a form that was read.
fn import_in(alloc: Global, value: &Value, form: Form) -> Result<Option<Command>, AllocError>
    ensures { IfOk result (λ command. command ≡ forms.import_in form (view value.now)) }
{
    match code_at(value, "order") {
        Some(order) => match text_at(value, "text") {
            Some(text) => {
                let text = Text::from_str(alloc, text)?;
                Ok(Some(Command::Import { order, form, text }))
            }
            None => Ok(None),
        },
        None => Ok(None),
    }
}

// The import of an order file.
fn lines_command(alloc: Global, value: &Value) -> Result<Option<Command>, AllocError>
    ensures { IfOk result (λ command. command ≡ row 6 (forms.import_in Csv) (view value.now)) }
{
    if has_keys(value, 6) {
        import_in(alloc, value, Form::Csv)
    } else {
        Ok(None)
    }
}

// The import of a problem file, for a material.
fn problem_command(alloc: Global, value: &Value) -> Result<Option<Command>, AllocError>
    ensures { IfOk result (λ command. command ≡ row 7 forms.problem_command (view value.now)) }
{
    if !has_keys(value, 7) {
        return Ok(None);
    }
    match code_at(value, "material") {
        Some(material) => import_in(alloc, value, Form::Cgcut(material)),
        None => Ok(None),
    }
}

// The command to import an order.
pub(crate) fn import_command(alloc: Global, value: &Value) -> Result<Option<Command>, AllocError>
    ensures { IfOk result (λ command. command ≡ forms.import_command (view value.now)) }
{
    let Some(word) = text_at(value, "form") else {
        return Ok(None);
    };
    if word == "csv" {
        lines_command(alloc, value)
    } else if word == "cgcut" {
        problem_command(alloc, value)
    } else {
        Ok(None)
    }
}

// Writes a message that imports an order file.
fn write_csv<'a>(
    writer: &mut Writer,
    message_id: (u64, u64),
    order: &'a str,
    text: &'a str,
) -> Result<(), AllocError>
    ensures { OnOk result (AddsValue writer.old writer.new
        (sent_data message_id.0 message_id.1 (forms.import_members order.now Csv text.now))) }
{
    write_object(
        writer,
        &[
            Member::Text("do", "import"),
            Member::Text("form", "csv"),
            Member::Number("number", message_id.1),
            Member::Text("order", order),
            Member::Number("terminal", message_id.0),
            Member::Text("text", text),
        ],
    )
}

// Writes a message that imports a problem file, for a material.
fn write_problem<'a>(
    writer: &mut Writer,
    message_id: (u64, u64),
    material: &'a str,
    order: &'a str,
    text: &'a str,
) -> Result<(), AllocError>
    ensures { OnOk result (AddsValue writer.old writer.new
        (sent_data message_id.0 message_id.1
        (forms.import_members order.now (Cgcut material.now) text.now))) }
{
    write_object(
        writer,
        &[
            Member::Text("do", "import"),
            Member::Text("form", "cgcut"),
            Member::Text("material", material),
            Member::Number("number", message_id.1),
            Member::Text("order", order),
            Member::Number("terminal", message_id.0),
            Member::Text("text", text),
        ],
    )
}

// Writes a message that imports an order.
pub(crate) fn write_import(
    writer: &mut Writer,
    message_id: (u64, u64),
    order: &Code,
    form: &Form,
    text: &Text,
) -> Result<(), AllocError>
    ensures value { OnOk result (AddsValue writer.old writer.new
        (sent_data message_id.0 message_id.1 (forms.import_members order.now form.now text.now))) }
    ensures seen { IsCommand (Import order.now form.now text.now) }
{
    let (order, text) = (order.as_str(), text.as_str());
    match form {
        Form::Csv => write_csv(writer, message_id, order, text),
        Form::Cgcut(material) => write_problem(writer, message_id, material.as_str(), order, text),
    }
}
