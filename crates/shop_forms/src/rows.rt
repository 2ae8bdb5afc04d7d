//! Rows of lists in JSON: the lines of an order, read and written, and the rows that replies report.

ghost use Rattle.std.specs.Prelude.{◌≡◌, codes};
ghost use Rattle.serde_json.specs.Data.{string};
ghost use Rattle.serde_json.specs.View.{view};
ghost use Rattle.shop_records.specs.Messages.{IsLine};
ghost use Rattle.shop_forms.specs.Forms as form;
ghost use Rattle.shop_forms.specs.Members.{IsAt};
ghost use Rattle.shop_forms.specs.Reported as reported;

use crate::elements::{Listed, Read};
use crate::fields::{code_at, flag_at, has_keys, number_at};
use crate::words::{
    cut_place, demand_cut, is_turned, kind_word, order_or_none, state_or_none, state_word,
    what_word, wide,
};
use crate::writing::{Member, write_object};
use cut_measure::PartName;
use json::Writer;
use serde_json::Value;
use shop_records::{
    DemandRow, JobRow, Material, OrderLine, OrderRow, Part, PieceRow, RackRow, StepRow,
};
use std::alloc::{AllocError, Global};

// The line of an order at the keys of an object.
fn line_fields(value: &Value) -> Option<OrderLine>
    ensures { result ≡ form.line_fields (view value.now) }
{
    let line = number_at(value, "line")?;
    let material = code_at(value, "material")?;
    let w = number_at(value, "w")?;
    let h = number_at(value, "h")?;
    let turn = flag_at(value, "turn")?;
    let count = number_at(value, "count")?;
    let worth = number_at(value, "worth")?;
    Some(OrderLine {
        line,
        material,
        w,
        h,
        turn,
        count,
        worth,
    })
}

impl Read for OrderLine {
    ghost meant = { form.line_of };

    fn read(value: &Value) -> Option<OrderLine> {
        if has_keys(value, 7) {
            line_fields(value)
        } else {
            None
        }
    }
}

impl Listed for OrderLine {
    ghost said = { form.line_data };

    ghost is_wide = { IsLine };

    fn write(&self, _alloc: Global, writer: &mut Writer) -> Result<(), AllocError> {
        write_object(
            writer,
            &[
                Member::Number("count", wide(self.count)),
                Member::Number("h", wide(self.h)),
                Member::Number("line", wide(self.line)),
                Member::Text("material", self.material.as_str()),
                Member::Flag("turn", self.turn),
                Member::Number("w", wide(self.w)),
                Member::Number("worth", wide(self.worth)),
            ],
        )
    }
}

impl Listed for RackRow {
    ghost said = { form.rack_row_data };

    ghost is_wide = { reported.HasWideSides };

    fn write(&self, alloc: Global, writer: &mut Writer) -> Result<(), AllocError> {
        write_object(
            writer,
            &[
                Member::Number("h", wide(self.h)),
                Member::Name("part", &self.part, alloc),
                Member::Text("state", state_word(self.state)),
                Member::Number("w", wide(self.w)),
            ],
        )
    }
}

impl Listed for Material {
    ghost said = { form.material_data };

    ghost is_wide = { reported.HasWideLimits };

    fn write(&self, _alloc: Global, writer: &mut Writer) -> Result<(), AllocError> {
        write_object(
            writer,
            &[
                Member::Number("kerf", wide(self.limits.kerf())),
                Member::Text("kind", kind_word(self.kind)),
                Member::Text("material", self.code.as_str()),
                Member::Number("min_long", wide(self.limits.min_long())),
                Member::Number("min_short", wide(self.limits.min_short())),
            ],
        )
    }
}

impl Listed for Part {
    ghost said = { form.part_data };

    ghost is_wide = { reported.HasWidePart };

    fn write(&self, alloc: Global, writer: &mut Writer) -> Result<(), AllocError> {
        write_object(
            writer,
            &[
                Member::Text("batch", self.batch.as_str()),
                Member::Number("h", wide(self.size.h())),
                Member::Number("of", wide(self.state.of())),
                Member::Name("part", &self.name, alloc),
                Member::Name("root", &self.root, alloc),
                Member::Text("state", state_word(self.state.word())),
                Member::Number("w", wide(self.size.w())),
            ],
        )
    }
}

impl Listed for DemandRow {
    ghost said = { form.demand_row_data };

    ghost is_wide = { reported.HasWideDemand };

    fn write(&self, _alloc: Global, writer: &mut Writer) -> Result<(), AllocError> {
        let demand = self.demand;
        write_object(
            writer,
            &[
                Member::Number("demand", wide(demand.number)),
                Member::Number("due", wide(self.due)),
                Member::Number("h", wide(demand.size.h())),
                Member::Number("line", wide(demand.line)),
                Member::Number("made", wide(demand.made)),
                Member::Text("material", demand.material.as_str()),
                Member::Text("order", demand.order.as_str()),
                Member::Number("reserved", wide(demand.reserved)),
                Member::Flag("turn", demand.may_turn),
                Member::Number("w", wide(demand.size.w())),
                Member::Number("wanted", wide(demand.wanted)),
                Member::Number("worth", wide(demand.worth)),
            ],
        )
    }
}

impl Listed for JobRow {
    ghost said = { form.job_row_data };

    ghost is_wide = { reported.HasWideJob };

    fn write(&self, alloc: Global, writer: &mut Writer) -> Result<(), AllocError> {
        write_object(
            writer,
            &[
                Member::Number("begun", wide(self.begun)),
                Member::Number("cuts", wide(self.cuts)),
                Member::Number("due", wide(self.due)),
                Member::Number("h", wide(self.h)),
                Member::Number("job", wide(self.job)),
                Member::Text("material", self.material.as_str()),
                Member::Name("part", &self.part, alloc),
                Member::Number("w", wide(self.w)),
            ],
        )
    }
}

impl Listed for OrderRow {
    ghost said = { form.order_row_data };

    ghost is_wide = { reported.HasWideOrder };

    fn write(&self, _alloc: Global, writer: &mut Writer) -> Result<(), AllocError> {
        let OrderRow {
            due,
            lines,
            made,
            order,
            reserved,
            text,
            wanted,
        } = self;
        write_object(
            writer,
            &[
                Member::Number("due", wide(*due)),
                Member::Number("lines", *lines),
                Member::Number("made", *made),
                Member::Text("order", order.as_str()),
                Member::Number("reserved", *reserved),
                Member::Text("text", text.as_str()),
                Member::Number("wanted", *wanted),
            ],
        )
    }
}

impl Listed for PieceRow {
    ghost said = { form.piece_data };

    ghost is_wide = { reported.HasWidePiece };

    fn write(&self, alloc: Global, writer: &mut Writer) -> Result<(), AllocError> {
        let PieceRow { at, .. } = self;
        write_object(
            writer,
            &[
                Member::Number("at", *at),
                Member::Text("batch", self.batch.as_str()),
                Member::Number("demand", wide(self.demand)),
                Member::Number("h", wide(self.h)),
                Member::Number("line", wide(self.line)),
                Member::Text("material", self.material.as_str()),
                Member::Text("order", self.order.as_str()),
                Member::Name("part", &self.part, alloc),
                Member::Name("root", &self.root, alloc),
                Member::Number("w", wide(self.w)),
            ],
        )
    }
}

// The name of the part that has a node's number, or an empty text.
fn part_member(alloc: Global, part: &Option<PartName>) -> Member<'_>
    ensures { IsAt result (codes "part") (string (reported.name_or_none part.now)) }
{
    match part {
        Some(part) => Member::Name("part", part, alloc),
        None => Member::Text("part", ""),
    }
}

impl Listed for StepRow {
    ghost said = { form.step_data };

    ghost is_wide = { reported.HasWideStep };

    fn write(&self, alloc: Global, writer: &mut Writer) -> Result<(), AllocError> {
        let step = self.step;
        write_object(
            writer,
            &[
                Member::Number("demand", wide(demand_cut(step.what))),
                Member::Number("h", wide(step.h)),
                Member::Number("line", wide(self.line)),
                Member::Number("node", wide(step.node)),
                Member::Text("order", order_or_none(&self.order)),
                part_member(alloc, &self.part),
                Member::Number("place", wide(cut_place(step.what))),
                Member::Text("state", state_or_none(self.state)),
                Member::Flag("turned", is_turned(step.what)),
                Member::Number("w", wide(step.w)),
                Member::Text("what", what_word(step.what)),
                Member::Number("x", wide(step.x)),
                Member::Number("y", wide(step.y)),
            ],
        )
    }
}
