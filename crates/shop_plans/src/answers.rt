//! The answer to a `plans` query, written in JSON.

ghost use Rattle.std.specs.Prelude.{◌≡◌, ◌∷◌, IfOk, OnOk};
ghost use Rattle.json.specs.Token as token;
ghost use Rattle.json.specs.Tree.{json_tokens};
ghost use Rattle.serde_json.specs.Written.{outline};
ghost use Rattle.shop_forms.specs.Forms.{rows_data};
ghost use Rattle.shop_forms.specs.Tokens.{Adds, AddsValue};
ghost use Rattle.shop_plans.specs.Reported as reported;

use crate::queries::NameList;
use cut_measure::{PartName, RowList};
use json::Writer;
use shop_forms::{
    Listed, Member, new_writer, wide, write_flag, write_number, write_object, write_rows,
    write_text, written_text,
};
use shop_records::Text;
use std::alloc::{AllocError, Global};

/// How many pieces of a demand aren't planned.
#[derive(Clone, Copy, Debug, PartialEq, Eq)]
pub struct MissingPieces {
    pub demand: u32,
    pub pieces: u32,
}

/// What a piece of a demand is worth in the bound.
#[derive(Clone, Copy, Debug, PartialEq, Eq)]
pub struct DemandPrice {
    pub demand: u32,
    pub worth: u32,
}

/// A plan with the parts that are cut by it, or with how many bought units are. Its sides are tenths of a millimetre.
#[derive(Debug, Drop)]
pub struct ReportedPlan {
    pub buy: u32,
    pub h: u32,
    pub parts: NameList,
    pub tree: Text,
    pub w: u32,
}

/// The answer to a `plans` query. Costs are cells times 100.
#[derive(Debug, Drop)]
pub struct PlansReply {
    /// No whole cutting costs less.
    pub bound: u64,
    pub cost: u64,
    /// Of which demands how much isn't planned.
    pub missing: RowList<MissingPieces>,
    pub plans: Vec<ReportedPlan>,
    /// The worths that the bound comes from.
    pub prices: RowList<DemandPrice>,
    /// Nothing is missing, and nothing costs less.
    pub proved: bool,
    /// The cells of the largest rest that jobs by these plans keep; 0 if they keep none.
    pub rest: u64,
    /// There is no whole cutting.
    pub short: bool,
    /// How many tenths of a millimetre a step has; 0 if sides aren't rounded, and for a bar.
    pub step: u32,
}

impl Listed for MissingPieces {
    ghost said = { reported.missing_data };

    ghost is_wide = { reported.HasWidePieces };

    fn write(&self, _alloc: Global, writer: &mut Writer) -> Result<(), AllocError> {
        write_object(
            writer,
            &[
                Member::Number("demand", wide(self.demand)),
                Member::Number("pieces", wide(self.pieces)),
            ],
        )
    }
}

impl Listed for DemandPrice {
    ghost said = { reported.price_data };

    ghost is_wide = { reported.HasWideWorth };

    fn write(&self, _alloc: Global, writer: &mut Writer) -> Result<(), AllocError> {
        write_object(
            writer,
            &[
                Member::Number("demand", wide(self.demand)),
                Member::Number("worth", wide(self.worth)),
            ],
        )
    }
}

// Writes a part's name.
fn write_name(alloc: Global, writer: &mut Writer, part: &PartName) -> Result<(), AllocError>
    ensures { OnOk result (AddsValue writer.old writer.new (reported.name_data part.now)) }
{
    let mut name = String::new(alloc);
    part.write(&mut name)?;
    writer.string(name.as_str())
}

// Writes a list of parts' names.
fn write_names(alloc: Global, writer: &mut Writer, parts: &[PartName]) -> Result<(), AllocError>
    ensures { OnOk result
        (AddsValue writer.old writer.new (rows_data reported.name_data parts.now)) }
{
    writer.begin_array()?;
    for part in parts {
        write_name(alloc, writer, part)?;
    }
    writer.end_array()?;
    Ok(())
}

impl Listed for ReportedPlan {
    ghost said = { reported.plan_data };

    ghost is_wide = { reported.HasWideCounts };

    fn write(&self, alloc: Global, writer: &mut Writer) -> Result<(), AllocError> {
        writer.begin_object()?;
        write_number(writer, "buy", wide(self.buy))?;
        write_number(writer, "h", wide(self.h))?;
        writer.key("parts")?;
        write_names(alloc, writer, self.parts.as_slice())?;
        write_text(writer, "tree", self.tree.as_str())?;
        write_number(writer, "w", wide(self.w))?;
        writer.end_object()?;
        Ok(())
    }
}

// Writes a key with a list of rows.
fn write_list<T: Listed>(
    alloc: Global,
    writer: &mut Writer,
    key: &str,
    rows: &[T],
) -> Result<(), AllocError>
    ensures { OnOk result (Adds writer.old writer.new
        (token.key key.now ∷ json_tokens (outline (rows_data T.said rows.now)))) }
{
    writer.key(key)?;
    write_rows(alloc, writer, rows)
}

// Writes an answer.
fn write_plans(alloc: Global, writer: &mut Writer, reply: &PlansReply) -> Result<(), AllocError>
    ensures { OnOk result (AddsValue writer.old writer.new (reported.plans_data reply.now)) }
{
    writer.begin_object()?;
    write_number(writer, "bound", reply.bound)?;
    write_number(writer, "cost", reply.cost)?;
    write_list(alloc, writer, "missing", reply.missing.as_slice())?;
    write_text(writer, "ok", "plans")?;
    write_list(alloc, writer, "plans", &reply.plans)?;
    write_list(alloc, writer, "prices", reply.prices.as_slice())?;
    write_flag(writer, "proved", reply.proved)?;
    write_number(writer, "rest", reply.rest)?;
    write_flag(writer, "short", reply.short)?;
    write_number(writer, "step", wide(reply.step))?;
    writer.end_object()?;
    Ok(())
}

#[tactic(auto, using(crate::proofs::Printed::plans_text_printed))]
/// The text of an answer: compact, with its keys in byte order.
pub fn plans_text(alloc: Global, reply: &PlansReply) -> Result<Text, AllocError>
    ensures { IfOk result (λ text. text ≡ reported.plans_text reply.now) }
{
    let mut writer = new_writer(alloc);
    write_plans(alloc, &mut writer, reply)?;
    Ok(written_text(writer))
}
