//! JSON of the replies about totals, racks, parts, demands, plans and bounds.

ghost use Rattle.std.specs.Prelude.{OnOk};
ghost use Rattle.shop_records.specs.declared.messages.Reply.TheVariants as answer;
ghost use Rattle.shop_forms.specs.Forms.{reply_data, HasWideNumbers};
ghost use Rattle.shop_forms.specs.Tokens.{AddsValue};
ghost use Rattle.shop_replies.specs.Variants.{ReportsTotals, ReportsTrace, ReportsDemand, ReportsPlan};

use cut_measure::Code;
use json::Writer;
use shop_forms::{Member, state_word, wide, write_object, write_rows, write_text};
use shop_records::{RackRow, Reply};
use std::alloc::{AllocError, Global};

// Writes the reply about a material's cells.
pub(crate) fn report_totals(writer: &mut Writer, reply: &Reply) -> Result<(), AllocError>
    requires { ReportsTotals reply.now }
    ensures value { OnOk result (AddsValue writer.old writer.new (reply_data reply.now)) }
    ensures wide { OnOk result (HasWideNumbers reply.now) }
{
    let Reply::Totals {
        material,
        received,
        stock,
        rack,
        pieces,
        kerf,
        scrap,
        returned,
    } = reply
    else {
        unreachable!()
    };
    write_object(
        writer,
        &[
            Member::Number("kerf", *kerf),
            Member::Text("material", material.as_str()),
            Member::Text("ok", "totals"),
            Member::Number("pieces", *pieces),
            Member::Number("rack", *rack),
            Member::Number("received", *received),
            Member::Number("returned", *returned),
            Member::Number("scrap", *scrap),
            Member::Number("stock", *stock),
        ],
    )
}

// Writes the reply about a material's parts on the rack.
pub(crate) fn report_rack(
    alloc: Global,
    writer: &mut Writer,
    material: &Code,
    parts: &[RackRow],
) -> Result<(), AllocError>
    ensures value { OnOk result
        (AddsValue writer.old writer.new (reply_data (answer.Rack material.now parts.now))) }
    ensures wide { OnOk result (HasWideNumbers (answer.Rack material.now parts.now)) }
{
    writer.begin_object()?;
    write_text(writer, "material", material.as_str())?;
    write_text(writer, "ok", "rack")?;
    writer.key("parts")?;
    write_rows(alloc, writer, parts)?;
    writer.end_object()?;
    Ok(())
}

// Writes the reply about a part.
pub(crate) fn report_trace(
    alloc: Global,
    writer: &mut Writer,
    reply: &Reply,
) -> Result<(), AllocError>
    requires { ReportsTrace reply.now }
    ensures value { OnOk result (AddsValue writer.old writer.new (reply_data reply.now)) }
    ensures wide { OnOk result (HasWideNumbers reply.now) }
{
    let Reply::Trace {
        batch,
        h,
        of,
        part,
        root,
        state,
        w,
        x,
        y,
    } = reply
    else {
        unreachable!()
    };
    write_object(
        writer,
        &[
            Member::Text("batch", batch.as_str()),
            Member::Number("h", wide(*h)),
            Member::Number("of", wide(*of)),
            Member::Text("ok", "trace"),
            Member::Name("part", part, alloc),
            Member::Name("root", root, alloc),
            Member::Text("state", state_word(*state)),
            Member::Number("w", wide(*w)),
            Member::Number("x", wide(*x)),
            Member::Number("y", wide(*y)),
        ],
    )
}

// Writes the reply about a demand.
pub(crate) fn report_demand(writer: &mut Writer, reply: &Reply) -> Result<(), AllocError>
    requires { ReportsDemand reply.now }
    ensures value { OnOk result (AddsValue writer.old writer.new (reply_data reply.now)) }
    ensures wide { OnOk result (HasWideNumbers reply.now) }
{
    let Reply::Demand {
        demand,
        line,
        made,
        material,
        order,
        reserved,
        wanted,
    } = reply
    else {
        unreachable!()
    };
    write_object(
        writer,
        &[
            Member::Number("demand", wide(*demand)),
            Member::Number("line", wide(*line)),
            Member::Number("made", wide(*made)),
            Member::Text("material", material.as_str()),
            Member::Text("ok", "demand"),
            Member::Text("order", order.as_str()),
            Member::Number("reserved", wide(*reserved)),
            Member::Number("wanted", wide(*wanted)),
        ],
    )
}

// Writes the reply that is a plan.
pub(crate) fn report_plan(writer: &mut Writer, reply: &Reply) -> Result<(), AllocError>
    requires { ReportsPlan reply.now }
    ensures value { OnOk result (AddsValue writer.old writer.new (reply_data reply.now)) }
    ensures wide { OnOk result (HasWideNumbers reply.now) }
{
    let Reply::Plan {
        ceiling,
        dropped,
        tree,
        worth,
    } = reply
    else {
        unreachable!()
    };
    write_object(
        writer,
        &[
            Member::Number("ceiling", *ceiling),
            Member::Number("dropped", wide(*dropped)),
            Member::Text("ok", "plan"),
            Member::Text("tree", tree.as_str()),
            Member::Number("worth", *worth),
        ],
    )
}

// Writes the reply that is a bound.
pub(crate) fn report_bound(writer: &mut Writer, best: u64, units: u64) -> Result<(), AllocError>
    ensures value { OnOk result
        (AddsValue writer.old writer.new (reply_data (answer.Bound best units))) }
    ensures wide { OnOk result (HasWideNumbers (answer.Bound best units)) }
{
    write_object(
        writer,
        &[
            Member::Number("best", best),
            Member::Text("ok", "bound"),
            Member::Number("units", units),
        ],
    )
}
