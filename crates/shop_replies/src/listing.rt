//! JSON of the replies about lists, a job and its plan, a terminal, an order's lines and pieces.

ghost use Rattle.std.specs.Prelude.{OnOk, All};
ghost use Rattle.shop_records.specs.declared.messages.Reply.TheVariants as answer;
ghost use Rattle.shop_forms.specs.Forms as form;
ghost use Rattle.shop_forms.specs.Forms.{reply_data, HasWideNumbers};
ghost use Rattle.shop_forms.specs.Tokens.{AddsValue};
ghost use Rattle.shop_replies.specs.Variants.{ReportsParts, ReportsJob, ReportsSteps};

use cut_measure::Code;
use json::Writer;
use shop_forms::{
    Listed, Member, job_state_word, wide, write_flag, write_name, write_number, write_object,
    write_rows, write_text,
};
use shop_records::{DemandRow, Material, OrderRow, PieceRow, Reply};
use std::alloc::{AllocError, Global};

// Writes the reply about all materials.
pub(crate) fn report_materials(
    alloc: Global,
    writer: &mut Writer,
    materials: &[Material],
) -> Result<(), AllocError>
    ensures value { OnOk result
        (AddsValue writer.old writer.new (reply_data (answer.Materials materials.now))) }
    ensures wide { OnOk result (HasWideNumbers (answer.Materials materials.now)) }
{
    writer.begin_object()?;
    writer.key("materials")?;
    write_rows(alloc, writer, materials)?;
    write_text(writer, "ok", "materials")?;
    writer.end_object()?;
    Ok(())
}

// Writes the reply about parts after a name.
pub(crate) fn report_parts(
    alloc: Global,
    writer: &mut Writer,
    reply: &Reply,
) -> Result<(), AllocError>
    requires { ReportsParts reply.now }
    ensures value { OnOk result (AddsValue writer.old writer.new (reply_data reply.now)) }
    ensures wide { OnOk result (HasWideNumbers reply.now) }
{
    let Reply::Parts {
        material,
        more,
        parts,
    } = reply
    else {
        unreachable!()
    };
    writer.begin_object()?;
    write_text(writer, "material", material.as_str())?;
    write_flag(writer, "more", *more)?;
    write_text(writer, "ok", "parts")?;
    writer.key("parts")?;
    write_rows(alloc, writer, parts.as_slice())?;
    writer.end_object()?;
    Ok(())
}

// Writes the reply about rows after a number: the list at its word.
pub(crate) fn report_after<T: Listed>(
    alloc: Global,
    writer: &mut Writer,
    word: &str,
    rows: &[T],
    more: bool,
) -> Result<(), AllocError>
    ensures value { OnOk result
        (AddsValue writer.old writer.new (form.after_reported word.now T.said rows.now more)) }
    ensures wide { OnOk result (All T.is_wide rows.now) }
{
    writer.begin_object()?;
    writer.key(word)?;
    write_rows(alloc, writer, rows)?;
    write_flag(writer, "more", more)?;
    write_text(writer, "ok", word)?;
    writer.end_object()?;
    Ok(())
}

// Writes the reply about a job.
pub(crate) fn report_job(
    alloc: Global,
    writer: &mut Writer,
    reply: &Reply,
) -> Result<(), AllocError>
    requires { ReportsJob reply.now }
    ensures value { OnOk result (AddsValue writer.old writer.new (reply_data reply.now)) }
    ensures wide { OnOk result (HasWideNumbers reply.now) }
{
    let Reply::Job {
        begun,
        cuts,
        h,
        job,
        kerf,
        material,
        part,
        state,
        tree,
        w,
    } = reply
    else {
        unreachable!()
    };
    write_object(
        writer,
        &[
            Member::Number("begun", wide(*begun)),
            Member::Number("cuts", wide(*cuts)),
            Member::Number("h", wide(*h)),
            Member::Number("job", wide(*job)),
            Member::Number("kerf", wide(*kerf)),
            Member::Text("material", material.as_str()),
            Member::Text("ok", "job"),
            Member::Name("part", part, alloc),
            Member::Text("state", job_state_word(*state)),
            Member::Text("tree", tree.as_str()),
            Member::Number("w", wide(*w)),
        ],
    )
}

// Writes the reply about a terminal's last number.
pub(crate) fn report_terminal(
    writer: &mut Writer,
    last: u32,
    terminal: u32,
) -> Result<(), AllocError>
    ensures value { OnOk result
        (AddsValue writer.old writer.new (reply_data (answer.Terminal last terminal))) }
    ensures wide { OnOk result (HasWideNumbers (answer.Terminal last terminal)) }
{
    write_object(
        writer,
        &[
            Member::Number("last", wide(last)),
            Member::Text("ok", "terminal"),
            Member::Number("terminal", wide(terminal)),
        ],
    )
}

// Writes the reply about orders after a code.
pub(crate) fn report_orders(
    alloc: Global,
    writer: &mut Writer,
    more: bool,
    orders: &[OrderRow],
) -> Result<(), AllocError>
    ensures value { OnOk result
        (AddsValue writer.old writer.new (reply_data (answer.Orders more orders.now))) }
    ensures wide { OnOk result (HasWideNumbers (answer.Orders more orders.now)) }
{
    writer.begin_object()?;
    write_flag(writer, "more", more)?;
    write_text(writer, "ok", "orders")?;
    writer.key("orders")?;
    write_rows(alloc, writer, orders)?;
    writer.end_object()?;
    Ok(())
}

// Writes the reply about an order's lines.
pub(crate) fn report_lines(
    alloc: Global,
    writer: &mut Writer,
    lines: &[DemandRow],
    order: &Code,
) -> Result<(), AllocError>
    ensures value { OnOk result
        (AddsValue writer.old writer.new (reply_data (answer.Lines lines.now order.now))) }
    ensures wide { OnOk result (HasWideNumbers (answer.Lines lines.now order.now)) }
{
    writer.begin_object()?;
    writer.key("lines")?;
    write_rows(alloc, writer, lines)?;
    write_text(writer, "ok", "lines")?;
    write_text(writer, "order", order.as_str())?;
    writer.end_object()?;
    Ok(())
}

// Writes the reply about pieces after a name.
pub(crate) fn report_pieces(
    alloc: Global,
    writer: &mut Writer,
    more: bool,
    pieces: &[PieceRow],
) -> Result<(), AllocError>
    ensures value { OnOk result
        (AddsValue writer.old writer.new (reply_data (answer.Pieces more pieces.now))) }
    ensures wide { OnOk result (HasWideNumbers (answer.Pieces more pieces.now)) }
{
    writer.begin_object()?;
    write_flag(writer, "more", more)?;
    write_text(writer, "ok", "pieces")?;
    writer.key("pieces")?;
    write_rows(alloc, writer, pieces)?;
    writer.end_object()?;
    Ok(())
}

// Writes the reply about the nodes of a job's plan.
pub(crate) fn report_steps(
    alloc: Global,
    writer: &mut Writer,
    reply: &Reply,
) -> Result<(), AllocError>
    requires { ReportsSteps reply.now }
    ensures value { OnOk result (AddsValue writer.old writer.new (reply_data reply.now)) }
    ensures wide { OnOk result (HasWideNumbers reply.now) }
{
    let Reply::Steps {
        job,
        kerf,
        material,
        part,
        state,
        steps,
    } = reply
    else {
        unreachable!()
    };
    writer.begin_object()?;
    write_number(writer, "job", wide(*job))?;
    write_number(writer, "kerf", wide(*kerf))?;
    write_text(writer, "material", material.as_str())?;
    write_text(writer, "ok", "steps")?;
    write_name(alloc, writer, "part", part)?;
    write_text(writer, "state", job_state_word(*state))?;
    writer.key("steps")?;
    write_rows(alloc, writer, steps.as_slice())?;
    writer.end_object()?;
    Ok(())
}
