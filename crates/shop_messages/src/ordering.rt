//! JSON of adding an order, or lines to one: the commands, read and written.

ghost use Rattle.std.specs.Prelude.{◌≡◌, IfOk, OnOk, All};
ghost use Rattle.serde_json.specs.View.{view};
ghost use Rattle.shop_records.specs.Messages.{IsLine};
ghost use Rattle.shop_forms.specs.Fields.{row};
ghost use Rattle.shop_forms.specs.Forms as form;
ghost use Rattle.shop_forms.specs.Forms.{sent_data};
ghost use Rattle.shop_forms.specs.Tokens.{AddsValue};

use json::Writer;
use serde_json::Value;
use shop_forms::{code_at, has_keys, rows_at, wide, write_number, write_rows, write_text};
use shop_records::{Command, OrderLine};
use std::alloc::{AllocError, Global};

// The command to add an order.
pub(crate) fn order_command(alloc: Global, value: &Value) -> Result<Option<Command>, AllocError>
    ensures { IfOk result (λ command. command ≡ row 5 form.order_command (view value.now)) }
{
    if !has_keys(value, 5) {
        return Ok(None);
    }
    match code_at(value, "order") {
        Some(order) => match rows_at(alloc, value, "lines")? {
            Some(lines) => Ok(Some(Command::AddOrder { order, lines })),
            None => Ok(None),
        },
        None => Ok(None),
    }
}

// The command to add lines to an order.
pub(crate) fn extend_command(alloc: Global, value: &Value) -> Result<Option<Command>, AllocError>
    ensures { IfOk result (λ command. command ≡ row 5 form.extend_command (view value.now)) }
{
    if !has_keys(value, 5) {
        return Ok(None);
    }
    match code_at(value, "order") {
        Some(order) => match rows_at(alloc, value, "lines")? {
            Some(lines) => Ok(Some(Command::Extend { order, lines })),
            None => Ok(None),
        },
        None => Ok(None),
    }
}

// Writes a message that adds an order, or lines to one, by its word.
pub(crate) fn write_order(
    alloc: Global,
    writer: &mut Writer,
    message_id: (u64, u64),
    word: &str,
    order: &str,
    lines: &[OrderLine],
) -> Result<(), AllocError>
    ensures { OnOk result (AddsValue writer.old writer.new
        (sent_data message_id.0 message_id.1 (form.lined_members word.now order.now lines.now))) }
{
    writer.begin_object()?;
    write_text(writer, "do", word)?;
    writer.key("lines")?;
    write_rows(alloc, writer, lines)?;
    write_number(writer, "number", message_id.1)?;
    write_text(writer, "order", order)?;
    write_number(writer, "terminal", message_id.0)?;
    writer.end_object()?;
    Ok(())
}

// Reads a line, which so is known to be in range.
fn see_line(line: &OrderLine)
    ensures { IsLine line.now }
{
    let _numbers = [
        wide(line.line),
        wide(line.w),
        wide(line.h),
        wide(line.count),
        wide(line.worth),
    ];
    let _material = line.material.as_str();
}

// Reads each line, so that all are known to be in range.
pub(crate) fn see_lines(lines: &[OrderLine])
    ensures { All IsLine lines.now }
{
    for line in lines {
        see_line(line);
    }
}
