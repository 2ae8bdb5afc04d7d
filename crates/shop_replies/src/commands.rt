//! Replies to commands in JSON, each one by its word, read and written; and how each reply is written.

ghost use Rattle.std.specs.Prelude.{◌≡◌, OnOk, Some};
ghost use Rattle.serde_json.specs.View.{view};
ghost use Rattle.shop_records.specs.Messages.{IsWide};
ghost use Rattle.shop_records.specs.declared.messages.Reply.TheVariants as answer;
ghost use Rattle.shop_forms.specs.Forms as form;
ghost use Rattle.shop_forms.specs.Forms.{made_data, reply_data, HasWideMade, HasWideNumbers};
ghost use Rattle.shop_forms.specs.Tokens.{AddsValue};
ghost use Rattle.shop_forms.specs.Fields.{row};
ghost use Rattle.shop_replies.specs.Variants.{ReportsOrder, ReportsExtend, ReportsImport};

use crate::asking::{
    report_bound, report_demand, report_plan, report_rack, report_totals, report_trace,
};
use crate::history::{report_entries, report_shop, write_null};
use crate::listing::{
    report_after, report_job, report_lines, report_materials, report_orders, report_parts,
    report_pieces, report_steps, report_terminal,
};
use cut_measure::{Code, PartName};
use json::Writer;
use serde_json::Value;
use shop_forms::{
    Member, code_at, has_keys, name_at, number_at, part_in, text_at, wide, wide_at, write_object,
};
use shop_records::{Refusal, Reply, Text};
use std::alloc::{AllocError, Global};

// The reply of an accepted message that a value stands for, by the word of `ok`.
pub(crate) fn made(value: &Value) -> Option<Reply>
    ensures { result ≡ form.reply_of (view value.now) }
{
    let word = text_at(value, "ok")?;
    if word == "material" {
        material_made(value)
    } else if word == "receive" {
        receive_made(value)
    } else if word == "order" {
        order_made(value)
    } else if word == "reserve" {
        reserve_made(value)
    } else if word == "done" {
        done_made(value)
    } else if word == "break" {
        break_made(value)
    } else if word == "release" {
        release_made(value)
    } else if word == "scrap" {
        scrap_made(value)
    } else if word == "return" {
        return_made(value)
    } else if word == "import" {
        import_made(value)
    } else if word == "amend" {
        amend_made(value)
    } else if word == "undo" {
        undo_made(value)
    } else if word == "note" {
        note_made(value)
    } else if word == "extend" {
        extend_made(value)
    } else if word == "begin" {
        begin_made(value)
    } else {
        None
    }
}

// Writes a reply.
pub(crate) fn write_reply(
    alloc: Global,
    writer: &mut Writer,
    reply: &Reply,
) -> Result<(), AllocError>
    ensures value { OnOk result (AddsValue writer.old writer.new (reply_data reply.now)) }
    ensures wide { OnOk result (HasWideNumbers reply.now) }
{
    match reply {
        Reply::AddMaterial { .. }
        | Reply::Receive { .. }
        | Reply::AddOrder { .. }
        | Reply::Reserve { .. }
        | Reply::Done { .. }
        | Reply::Break { .. }
        | Reply::Release { .. }
        | Reply::Scrap { .. }
        | Reply::GiveBack { .. }
        | Reply::Import { .. }
        | Reply::Amend { .. }
        | Reply::Undo { .. }
        | Reply::Note { .. }
        | Reply::Extend { .. }
        | Reply::Begin { .. } => write_made(alloc, writer, reply),
        Reply::Totals { .. } => report_totals(writer, reply),
        Reply::Rack { material, parts } => report_rack(alloc, writer, material, parts.as_slice()),
        Reply::Trace { .. } => report_trace(alloc, writer, reply),
        Reply::Demand { .. } => report_demand(writer, reply),
        Reply::Plan { .. } => report_plan(writer, reply),
        Reply::Bound { best, units } => report_bound(writer, *best, *units),
        Reply::Materials { materials } => report_materials(alloc, writer, materials.as_slice()),
        Reply::Parts { .. } => report_parts(alloc, writer, reply),
        Reply::Demands { demands, more } => {
            report_after(alloc, writer, "demands", demands.as_slice(), *more)
        }
        Reply::Jobs { jobs, more } => report_after(alloc, writer, "jobs", jobs.as_slice(), *more),
        Reply::Job { .. } => report_job(alloc, writer, reply),
        Reply::Terminal { last, terminal } => report_terminal(writer, *last, *terminal),
        Reply::Orders { more, orders } => report_orders(alloc, writer, *more, orders.as_slice()),
        Reply::Lines { lines, order } => report_lines(alloc, writer, lines.as_slice(), order),
        Reply::Shop {
            began,
            entries,
            last,
        } => report_shop(writer, *began, *entries, *last),
        Reply::History { entries, more } => {
            report_entries(alloc, writer, "history", entries.as_slice(), *more)
        }
        Reply::Story { entries, more } => {
            report_entries(alloc, writer, "story", entries.as_slice(), *more)
        }
        Reply::Pieces { more, pieces } => report_pieces(alloc, writer, *more, pieces.as_slice()),
        Reply::Steps { .. } => report_steps(alloc, writer, reply),
        Reply::Refused(refusal) => report_refusal(writer, *refusal),
    }
}

// Writes a reply that an accepted message can get, and null for another one.
pub(crate) fn write_made(
    alloc: Global,
    writer: &mut Writer,
    reply: &Reply,
) -> Result<(), AllocError>
    ensures value { OnOk result (AddsValue writer.old writer.new (made_data reply.now)) }
    ensures wide { OnOk result (HasWideMade reply.now) }
{
    match reply {
        Reply::AddMaterial { material } => report_material(writer, material),
        Reply::Receive { act, count } => report_receive(writer, *act, *count),
        Reply::AddOrder { .. } => report_order(writer, reply),
        Reply::Reserve { cuts, job } => report_reserve(writer, *cuts, *job),
        Reply::Done {
            job,
            kerf,
            pieces,
            rack,
            scrap,
        } => report_ended(writer, "done", *job, *kerf, *pieces, *rack, *scrap),
        Reply::Break {
            job,
            kerf,
            pieces,
            rack,
            scrap,
        } => report_ended(writer, "break", *job, *kerf, *pieces, *rack, *scrap),
        Reply::Release { job } => report_release(writer, *job),
        Reply::Scrap { part } => report_turned(alloc, writer, "scrap", part),
        Reply::GiveBack { part } => report_turned(alloc, writer, "return", part),
        Reply::Import { .. } => report_import(writer, reply),
        Reply::Amend { demand, wanted } => report_amend(writer, *demand, *wanted),
        Reply::Undo { job, part } => report_undo(alloc, writer, *job, part),
        Reply::Note { order } => report_note(writer, order),
        Reply::Extend { .. } => report_extend(writer, reply),
        Reply::Begin { before, job } => report_begin(writer, *before, *job),
        _ => write_null(writer),
    }
}

// Writes the reply of a refused message or query.
fn report_refusal(writer: &mut Writer, refusal: Refusal) -> Result<(), AllocError>
    ensures value { OnOk result
        (AddsValue writer.old writer.new (reply_data (answer.Refused refusal))) }
    ensures wide { OnOk result (HasWideNumbers (answer.Refused refusal)) }
{
    write_object(
        writer,
        &[
            Member::Text("name", refusal.name()),
            Member::Number("refused", wide(refusal.number())),
        ],
    )
}

// The reply about a material that was added.
fn material_made(value: &Value) -> Option<Reply>
    ensures { result ≡ row 2 form.material_made (view value.now) }
{
    if !has_keys(value, 2) {
        return None;
    }
    let material = code_at(value, "material")?;
    Some(Reply::AddMaterial { material })
}

// Writes the reply about a material that was added.
fn report_material(writer: &mut Writer, material: &Code) -> Result<(), AllocError>
    ensures { OnOk result (AddsValue writer.old writer.new
        (reply_data (answer.AddMaterial material.now))) }
{
    write_object(
        writer,
        &[
            Member::Text("material", material.as_str()),
            Member::Text("ok", "material"),
        ],
    )
}

// The reply about units that were received.
fn receive_made(value: &Value) -> Option<Reply>
    ensures { result ≡ row 3 form.receive_made (view value.now) }
{
    if !has_keys(value, 3) {
        return None;
    }
    let act = number_at(value, "act")?;
    let count = number_at(value, "count")?;
    Some(Reply::Receive { act, count })
}

// Writes the reply about units that were received.
fn report_receive(writer: &mut Writer, act: u32, count: u32) -> Result<(), AllocError>
    ensures value { OnOk result
        (AddsValue writer.old writer.new (reply_data (answer.Receive act count))) }
    ensures wide { OnOk result (HasWideNumbers (answer.Receive act count)) }
{
    write_object(
        writer,
        &[
            Member::Number("act", wide(act)),
            Member::Number("count", wide(count)),
            Member::Text("ok", "receive"),
        ],
    )
}

// The reply about an order that was added.
fn order_made(value: &Value) -> Option<Reply>
    ensures { result ≡ row 4 form.order_made (view value.now) }
{
    if !has_keys(value, 4) {
        return None;
    }
    let count = number_at(value, "count")?;
    let first = number_at(value, "first")?;
    let order = code_at(value, "order")?;
    Some(Reply::AddOrder {
        count,
        first,
        order,
    })
}

// Writes the reply about an order that was added.
fn report_order(writer: &mut Writer, reply: &Reply) -> Result<(), AllocError>
    requires { ReportsOrder reply.now }
    ensures value { OnOk result (AddsValue writer.old writer.new (reply_data reply.now)) }
    ensures wide { OnOk result (HasWideNumbers reply.now) }
{
    let Reply::AddOrder {
        count,
        first,
        order,
    } = reply
    else {
        unreachable!()
    };
    write_object(
        writer,
        &[
            Member::Number("count", wide(*count)),
            Member::Number("first", wide(*first)),
            Member::Text("ok", "order"),
            Member::Text("order", order.as_str()),
        ],
    )
}

// The reply about a part that was reserved.
fn reserve_made(value: &Value) -> Option<Reply>
    ensures { result ≡ row 3 form.reserve_made (view value.now) }
{
    if !has_keys(value, 3) {
        return None;
    }
    let cuts = number_at(value, "cuts")?;
    let job = number_at(value, "job")?;
    Some(Reply::Reserve { cuts, job })
}

// Writes the reply about a part that was reserved.
fn report_reserve(writer: &mut Writer, cuts: u32, job: u32) -> Result<(), AllocError>
    ensures value { OnOk result
        (AddsValue writer.old writer.new (reply_data (answer.Reserve cuts job))) }
    ensures wide { OnOk result (HasWideNumbers (answer.Reserve cuts job)) }
{
    write_object(
        writer,
        &[
            Member::Number("cuts", wide(cuts)),
            Member::Number("job", wide(job)),
            Member::Text("ok", "reserve"),
        ],
    )
}

// What is reported about a job that ended: its number, and the cells of kerf, pieces, rack and scrap.
fn ended_cells(value: &Value) -> Option<(u32, u64, u64, u64, u64)>
    ensures { result ≡ form.ended_cells (view value.now) }
{
    let job = number_at(value, "job")?;
    let kerf = wide_at(value, "kerf")?;
    let pieces = wide_at(value, "pieces")?;
    let rack = wide_at(value, "rack")?;
    let scrap = wide_at(value, "scrap")?;
    Some((job, kerf, pieces, rack, scrap))
}

// The reply about a job that is done.
fn done_made(value: &Value) -> Option<Reply>
    ensures { result ≡ row 6 form.done_made (view value.now) }
{
    if !has_keys(value, 6) {
        return None;
    }
    let (job, kerf, pieces, rack, scrap) = ended_cells(value)?;
    Some(Reply::Done {
        job,
        kerf,
        pieces,
        rack,
        scrap,
    })
}

// Writes the reply about a job that ended, by its word.
fn report_ended(
    writer: &mut Writer,
    word: &str,
    job: u32,
    kerf: u64,
    pieces: u64,
    rack: u64,
    scrap: u64,
) -> Result<(), AllocError>
    ensures value { OnOk result
        (AddsValue writer.old writer.new (form.ended_reported word.now job kerf pieces rack scrap)) }
    ensures wide { OnOk result
        (IsWide job × IsWide kerf × IsWide pieces × IsWide rack × IsWide scrap) }
{
    write_object(
        writer,
        &[
            Member::Number("job", wide(job)),
            Member::Number("kerf", kerf),
            Member::Text("ok", word),
            Member::Number("pieces", pieces),
            Member::Number("rack", rack),
            Member::Number("scrap", scrap),
        ],
    )
}

// The reply about a part that was released.
fn release_made(value: &Value) -> Option<Reply>
    ensures { result ≡ row 2 form.release_made (view value.now) }
{
    if !has_keys(value, 2) {
        return None;
    }
    let job = number_at(value, "job")?;
    Some(Reply::Release { job })
}

// Writes the reply about a part that was released.
fn report_release(writer: &mut Writer, job: u32) -> Result<(), AllocError>
    ensures value { OnOk result (AddsValue writer.old writer.new (reply_data (answer.Release job))) }
    ensures wide { OnOk result (HasWideNumbers (answer.Release job)) }
{
    write_object(
        writer,
        &[
            Member::Number("job", wide(job)),
            Member::Text("ok", "release"),
        ],
    )
}

// The reply about a job that broke off.
fn break_made(value: &Value) -> Option<Reply>
    ensures { result ≡ row 6 form.break_made (view value.now) }
{
    if !has_keys(value, 6) {
        return None;
    }
    let (job, kerf, pieces, rack, scrap) = ended_cells(value)?;
    Some(Reply::Break {
        job,
        kerf,
        pieces,
        rack,
        scrap,
    })
}

// The reply about a part that was made scrap.
fn scrap_made(value: &Value) -> Option<Reply>
    ensures { result ≡ row 2 form.scrap_made (view value.now) }
{
    let part = part_in(value, 2)?;
    Some(Reply::Scrap { part })
}

// The reply about a unit that was returned.
fn return_made(value: &Value) -> Option<Reply>
    ensures { result ≡ row 2 form.return_made (view value.now) }
{
    let part = part_in(value, 2)?;
    Some(Reply::GiveBack { part })
}

// Writes the reply about a part that was turned, by its word.
fn report_turned<'a>(
    alloc: Global,
    writer: &mut Writer,
    word: &'a str,
    part: &'a PartName,
) -> Result<(), AllocError>
    ensures { OnOk result
        (AddsValue writer.old writer.new (form.turned_reported word.now part.now)) }
{
    write_object(
        writer,
        &[Member::Text("ok", word), Member::Name("part", part, alloc)],
    )
}

// The reply about an order that was imported.
fn import_made(value: &Value) -> Option<Reply>
    ensures { result ≡ row 5 form.import_made (view value.now) }
{
    if !has_keys(value, 5) {
        return None;
    }
    let act = number_at(value, "act")?;
    let count = number_at(value, "count")?;
    let first = number_at(value, "first")?;
    let order = code_at(value, "order")?;
    Some(Reply::Import {
        act,
        count,
        first,
        order,
    })
}

// Writes the reply about an order that was imported.
fn report_import(writer: &mut Writer, reply: &Reply) -> Result<(), AllocError>
    requires { ReportsImport reply.now }
    ensures value { OnOk result (AddsValue writer.old writer.new (reply_data reply.now)) }
    ensures wide { OnOk result (HasWideNumbers reply.now) }
{
    let Reply::Import {
        act,
        count,
        first,
        order,
    } = reply
    else {
        unreachable!()
    };
    write_object(
        writer,
        &[
            Member::Number("act", wide(*act)),
            Member::Number("count", wide(*count)),
            Member::Number("first", wide(*first)),
            Member::Text("ok", "import"),
            Member::Text("order", order.as_str()),
        ],
    )
}

// The reply about a demand that was amended.
fn amend_made(value: &Value) -> Option<Reply>
    ensures { result ≡ row 3 form.amend_made (view value.now) }
{
    if !has_keys(value, 3) {
        return None;
    }
    let demand = number_at(value, "demand")?;
    let wanted = number_at(value, "wanted")?;
    Some(Reply::Amend { demand, wanted })
}

// Writes the reply about a demand that was amended.
fn report_amend(writer: &mut Writer, demand: u32, wanted: u32) -> Result<(), AllocError>
    ensures value { OnOk result
        (AddsValue writer.old writer.new (reply_data (answer.Amend demand wanted))) }
    ensures wide { OnOk result (HasWideNumbers (answer.Amend demand wanted)) }
{
    write_object(
        writer,
        &[
            Member::Number("demand", wide(demand)),
            Member::Text("ok", "amend"),
            Member::Number("wanted", wide(wanted)),
        ],
    )
}

// The reply about a job that was undone.
fn undo_made(value: &Value) -> Option<Reply>
    ensures { result ≡ row 3 form.undo_made (view value.now) }
{
    if !has_keys(value, 3) {
        return None;
    }
    let job = number_at(value, "job")?;
    let part = name_at(value, "part")?;
    Some(Reply::Undo { job, part })
}

// Writes the reply about a job that was undone.
fn report_undo(
    alloc: Global,
    writer: &mut Writer,
    job: u32,
    part: &PartName,
) -> Result<(), AllocError>
    ensures value { OnOk result
        (AddsValue writer.old writer.new (reply_data (answer.Undo job part.now))) }
    ensures wide { OnOk result (HasWideNumbers (answer.Undo job part.now)) }
{
    write_object(
        writer,
        &[
            Member::Number("job", wide(job)),
            Member::Text("ok", "undo"),
            Member::Name("part", part, alloc),
        ],
    )
}

// The reply about an order of which something was said.
fn note_made(value: &Value) -> Option<Reply>
    ensures { result ≡ row 2 form.note_made (view value.now) }
{
    if !has_keys(value, 2) {
        return None;
    }
    let order = code_at(value, "order")?;
    Some(Reply::Note { order })
}

// Writes the reply about an order of which something was said.
fn report_note(writer: &mut Writer, order: &Code) -> Result<(), AllocError>
    ensures { OnOk result (AddsValue writer.old writer.new
        (reply_data (answer.Note order.now))) }
{
    write_object(
        writer,
        &[
            Member::Text("ok", "note"),
            Member::Text("order", order.as_str()),
        ],
    )
}

// The reply about lines that were added to an order.
fn extend_made(value: &Value) -> Option<Reply>
    ensures { result ≡ row 4 form.extend_made (view value.now) }
{
    if !has_keys(value, 4) {
        return None;
    }
    let count = number_at(value, "count")?;
    let first = number_at(value, "first")?;
    let order = code_at(value, "order")?;
    Some(Reply::Extend {
        count,
        first,
        order,
    })
}

// Writes the reply about lines that were added to an order.
fn report_extend(writer: &mut Writer, reply: &Reply) -> Result<(), AllocError>
    requires { ReportsExtend reply.now }
    ensures value { OnOk result (AddsValue writer.old writer.new (reply_data reply.now)) }
    ensures wide { OnOk result (HasWideNumbers reply.now) }
{
    let Reply::Extend {
        count,
        first,
        order,
    } = reply
    else {
        unreachable!()
    };
    write_object(
        writer,
        &[
            Member::Number("count", wide(*count)),
            Member::Number("first", wide(*first)),
            Member::Text("ok", "extend"),
            Member::Text("order", order.as_str()),
        ],
    )
}

// The reply about a job that was begun.
fn begin_made(value: &Value) -> Option<Reply>
    ensures { result ≡ row 3 form.begin_made (view value.now) }
{
    if !has_keys(value, 3) {
        return None;
    }
    let before = number_at(value, "before")?;
    let job = number_at(value, "job")?;
    Some(Reply::Begin { before, job })
}

// Writes the reply about a job that was begun.
fn report_begin(writer: &mut Writer, before: u32, job: u32) -> Result<(), AllocError>
    ensures value { OnOk result
        (AddsValue writer.old writer.new (reply_data (answer.Begin before job))) }
    ensures wide { OnOk result (HasWideNumbers (answer.Begin before job)) }
{
    write_object(
        writer,
        &[
            Member::Number("before", wide(before)),
            Member::Number("job", wide(job)),
            Member::Text("ok", "begin"),
        ],
    )
}
