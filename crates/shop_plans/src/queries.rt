//! The `plans` query, read from JSON.

ghost use Rattle.std.specs.Prelude.{◌≡◌, ◌⊎◌, Some, None, IfOk, IfErr, map, option_map};
ghost use Rattle.serde_json.specs.View.{view};
ghost use Rattle.shop_records.specs.declared.refusals.Refusal.TheVariants.{BadMessage, NoMemory};
ghost use Rattle.shop_forms.specs.Fields.{all_of, elements_at, number_at as number_there};
ghost use Rattle.shop_plans.specs.Queries as form;

use crate::limits::{DEFAULT_CALLS, DEFAULT_REMNANT, MAX_CALLS, MAX_STAGES, MIN_STAGES, UNIT_COST};
use cut_measure::{Code, PartName, RowList};
use serde_json::Value;
use shop_forms::{Read, code_at, has_keys, number_at, rows_at, word_at};
use shop_records::{NumberList, Refusal};
use std::alloc::{AllocError, Global};

/// A list of names of parts.
pub type NameList = RowList<PartName>;

/// A list of sizes that may be bought.
pub type BuyList = RowList<BuySize>;

/// Sides of a unit that may be bought, in tenths of a millimetre, as they were asked: nobody judged them yet.
#[derive(Clone, Copy, Debug, PartialEq, Eq)]
pub struct BuySize {
    pub h: u32,
    pub w: u32,
}

/// A `plans` query of all that is open of a material. Its lists may have any length and hold anything twice.
#[derive(Debug, Drop)]
pub struct PlansQuery {
    pub material: Code,
    /// The demands that are planned for: without them the first open ones.
    pub demands: Option<NumberList>,
    /// The parts that may be used: without them the first standing ones.
    pub parts: Option<NameList>,
    /// The sizes that may be bought, as many of each as are wanted.
    pub buy: BuyList,
    /// What a cell of a remnant costs, 1 to 100, where one of a unit costs 100.
    pub remnant: u32,
    /// How many tenths of a millimetre a step of a sheet's side has, if sides are rounded to steps.
    pub step: Option<u32>,
    /// How many tables the search may make, 1 to 5000.
    pub calls: u32,
    /// The most stages that a plan may have, 2 to 255: without it there is no limit.
    pub stages: Option<u32>,
}

// The sides at the keys of an object.
fn size_fields(value: &Value) -> Option<BuySize>
    ensures { result ≡ form.size_fields (view value.now) }
{
    let h = number_at(value, "h")?;
    let w = number_at(value, "w")?;
    Some(BuySize { h, w })
}

impl Read for BuySize {
    ghost meant = { form.size_of };

    fn read(value: &Value) -> Option<BuySize> {
        if has_keys(value, 2) {
            size_fields(value)
        } else {
            None
        }
    }
}

// The part's name that a value spells.
fn name_of(value: &Value) -> Option<PartName>
    ensures { result ≡ form.name_of (view value.now) }
{
    PartName::read(value.as_str()?)
}

// The names that all values spell, where each spells one.
fn names_of(alloc: Global, values: &[Value]) -> Result<Option<NameList>, AllocError>
    ensures { IfOk result (λ names. names ≡ all_of form.name_of (map view values.now)) }
{
    let mut names = RowList::new(alloc);
    for value in values {
        let Some(name) = name_of(value) else {
            return Ok(None);
        };
        names.push(name)?;
    }
    Ok(Some(names))
}

// The values of the list at a key.
fn values_at<'a>(value: &'a Value, key: &str) -> Option<&'a Vec<Value>>
    ensures { option_map (λ values. map view values.now.items) result
        ≡ elements_at key.now (view value.now) }
{
    value.get(key)?.as_array()
}

// The names of the parts that may be used, at a key that may be missing.
fn given_names(alloc: Global, value: &Value) -> Result<Option<Option<NameList>>, AllocError>
    ensures { IfOk result (λ names. names ≡ form.parts_of (view value.now)) }
{
    if value.get("parts").is_none() {
        return Ok(Some(None));
    }
    let Some(values) = values_at(value, "parts") else {
        return Ok(None);
    };
    match names_of(alloc, values)? {
        Some(names) => Ok(Some(Some(names))),
        None => Ok(None),
    }
}

// 1 where a key is there.
fn there(value: &Value, key: &str) -> usize
    ensures { result ≡ form.there key.now (view value.now) }
{
    match value.get(key) {
        Some(_) => 1,
        None => 0,
    }
}

// How many keys a query has that has these of the keys that may be missing.
fn keys_there(value: &Value) -> usize
    ensures { result ≡ form.keys_there (view value.now) }
{
    2 + there(value, "buy")
        + there(value, "calls")
        + there(value, "demands")
        + there(value, "parts")
        + there(value, "remnant")
        + there(value, "stages")
        + there(value, "step")
}

// The number at a key that may be missing.
fn given_number(value: &Value, key: &str) -> Option<Option<u32>>
    ensures { result ≡ form.given number_there key.now (view value.now) }
{
    if value.get(key).is_none() {
        return Some(None);
    }
    let number = number_at(value, key)?;
    Some(Some(number))
}

// The number of this range at a key, or this one where the key is missing.
fn number_within(value: &Value, key: &str, least: u32, most: u32, missing: u32) -> Option<u32>
    ensures { result ≡ form.number_within least most missing key.now (view value.now) }
{
    let number = given_number(value, key)?.unwrap_or(missing);
    if least <= number && number <= most {
        Some(number)
    } else {
        None
    }
}

// Whether a limit of stages, if there is one, is in its range.
fn is_stage_limit(stages: Option<u32>) -> bool
    ensures { result ≡ form.is_stage_limit stages }
{
    match stages {
        None => true,
        Some(most) => MIN_STAGES <= most && most <= MAX_STAGES,
    }
}

// The limit of stages at a key that may be missing.
fn given_stages(value: &Value) -> Option<Option<u32>>
    ensures { result ≡ form.stages_of (view value.now) }
{
    let stages = given_number(value, "stages")?;
    if is_stage_limit(stages) {
        Some(stages)
    } else {
        None
    }
}

// The rows of a list at a key that may be missing.
fn given_rows<T: Read>(
    alloc: Global,
    value: &Value,
    key: &str,
) -> Result<Option<Option<RowList<T>>>, AllocError>
    ensures { IfOk result
        (λ rows. rows ≡ form.given (form.rows_in T.meant) key.now (view value.now)) }
{
    if value.get(key).is_none() {
        return Ok(Some(None));
    }
    match rows_at(alloc, value, key)? {
        Some(rows) => Ok(Some(Some(rows))),
        None => Ok(None),
    }
}

// The sizes that may be bought: none where the key is missing.
fn sizes(alloc: Global, value: &Value) -> Result<Option<BuyList>, AllocError>
    ensures { IfOk result (λ sizes. sizes ≡ form.buy_of (view value.now)) }
{
    match given_rows(alloc, value, "buy")? {
        Some(Some(sizes)) => Ok(Some(sizes)),
        Some(None) => Ok(Some(RowList::new(alloc))),
        None => Ok(None),
    }
}

// The query at the keys of an object.
fn plans_fields(alloc: Global, value: &Value) -> Result<Option<PlansQuery>, AllocError>
    ensures { IfOk result (λ query. query ≡ form.plans_fields (view value.now)) }
{
    let (Some(material), Some(remnant), Some(step), Some(calls), Some(stages)) = (
        code_at(value, "material"),
        number_within(value, "remnant", 1, UNIT_COST, DEFAULT_REMNANT),
        given_number(value, "step"),
        number_within(value, "calls", 1, MAX_CALLS, DEFAULT_CALLS),
        given_stages(value),
    ) else {
        return Ok(None);
    };
    let (Some(demands), Some(parts), Some(buy)) = (
        given_rows(alloc, value, "demands")?,
        given_names(alloc, value)?,
        sizes(alloc, value)?,
    ) else {
        return Ok(None);
    };
    Ok(Some(PlansQuery {
        material,
        demands,
        parts,
        buy,
        remnant,
        step,
        calls,
        stages,
    }))
}

// The query that a value stands for.
fn asked(alloc: Global, value: &Value) -> Result<Option<PlansQuery>, AllocError>
    ensures { IfOk result (λ query. query ≡ form.plans_query_of (view value.now)) }
{
    let Some(word) = word_at(value, "ask", "do") else {
        return Ok(None);
    };
    if word == "plans" && has_keys(value, keys_there(value)) {
        plans_fields(alloc, value)
    } else {
        Ok(None)
    }
}

/// The `plans` query that a value stands for; refused `BadMessage` if it stands for none, also if `remnant`, `calls` or
/// `stages` is out of its range, and `NoMemory` where memory runs out.
pub fn read_plans(alloc: Global, value: &Value) -> Result<PlansQuery, Refusal>
    ensures ok { IfOk result (λ query. form.plans_query_of (view value.now) ≡ Some query) }
    ensures err { IfErr result
        (λ refusal. (refusal ≡ NoMemory)
        ⊎ ((refusal ≡ BadMessage) × (form.plans_query_of (view value.now) ≡ None))) }
{
    let query = asked(alloc, value)?;
    query.ok_or(Refusal::BadMessage)
}
