//! JSON of the queries for totals, racks, parts, demands, plans and bounds, and which query a value is.

ghost use Rattle.std.specs.Prelude.{◌≡◌, IfOk};
ghost use Rattle.serde_json.specs.View.{view};
ghost use Rattle.shop_forms.specs.Fields.{row};
ghost use Rattle.shop_forms.specs.Forms as form;

use crate::listing::{
    history_query, job_query, jobs_query, lines_query, list_query, orders_query, steps_query,
    terminal_query,
};
use serde_json::Value;
use shop_forms::{code_at, has_keys, name_at, number_at, rows_at, word_at};
use shop_records::Query;
use std::alloc::{AllocError, Global};

// The query for a material's cells.
fn totals_query(value: &Value) -> Option<Query>
    ensures { result ≡ form.totals_query (view value.now) }
{
    let material = code_at(value, "material")?;
    Some(Query::Totals { material })
}

// The query for a material's parts on the rack.
fn rack_query(value: &Value) -> Option<Query>
    ensures { result ≡ form.rack_query (view value.now) }
{
    let material = code_at(value, "material")?;
    Some(Query::Rack { material })
}

// The query for a part.
fn trace_query(value: &Value) -> Option<Query>
    ensures { result ≡ form.trace_query (view value.now) }
{
    let part = name_at(value, "part")?;
    Some(Query::Trace { part })
}

// The query for a demand.
fn demand_query(value: &Value) -> Option<Query>
    ensures { result ≡ form.demand_query (view value.now) }
{
    let demand = number_at(value, "demand")?;
    Some(Query::Demand { demand })
}

// The query for a plan.
fn plan_query(alloc: Global, value: &Value) -> Result<Option<Query>, AllocError>
    ensures { IfOk result (λ query. query ≡ row 4 form.plan_query (view value.now)) }
{
    if !has_keys(value, 4) {
        return Ok(None);
    }
    let (Some(part), Some(demands), Some(step)) = (
        name_at(value, "part"),
        rows_at(alloc, value, "demands")?,
        number_at(value, "step"),
    ) else {
        return Ok(None);
    };
    Ok(Some(Query::Plan {
        part,
        demands,
        step,
    }))
}

// The query for a bound.
fn bound_query(alloc: Global, value: &Value) -> Result<Option<Query>, AllocError>
    ensures { IfOk result (λ query. query ≡ row 6 form.bound_query (view value.now)) }
{
    if !has_keys(value, 6) {
        return Ok(None);
    }
    let (Some(material), Some(w), Some(h)) = (
        code_at(value, "material"),
        number_at(value, "w"),
        number_at(value, "h"),
    ) else {
        return Ok(None);
    };
    let (Some(demands), Some(step)) = (rows_at(alloc, value, "demands")?, number_at(value, "step"))
    else {
        return Ok(None);
    };
    Ok(Some(Query::Bound {
        material,
        w,
        h,
        demands,
        step,
    }))
}

// The query with one key beside `ask` that a value stands for.
fn short_query(value: &Value, word: &str) -> Option<Query>
    ensures { result ≡ row 2 (form.short_query word.now) (view value.now) }
{
    if !has_keys(value, 2) {
        return None;
    }
    if word == "totals" {
        totals_query(value)
    } else if word == "rack" {
        rack_query(value)
    } else if word == "trace" {
        trace_query(value)
    } else if word == "demand" {
        demand_query(value)
    } else if word == "jobs" {
        jobs_query(value)
    } else if word == "job" {
        job_query(value)
    } else if word == "terminal" {
        terminal_query(value)
    } else if word == "orders" {
        orders_query(value)
    } else if word == "lines" {
        lines_query(value)
    } else if word == "history" {
        history_query(value)
    } else if word == "steps" {
        steps_query(value)
    } else {
        None
    }
}

// The query that a value stands for.
pub(crate) fn asked(alloc: Global, value: &Value) -> Result<Option<Query>, AllocError>
    ensures { IfOk result (λ query. query ≡ form.query_of (view value.now)) }
{
    let Some(word) = word_at(value, "ask", "do") else {
        return Ok(None);
    };
    if word == "plan" {
        plan_query(alloc, value)
    } else if word == "bound" {
        bound_query(alloc, value)
    } else if let Some(query) = short_query(value, word) {
        Ok(Some(query))
    } else {
        Ok(list_query(value, word))
    }
}
