//! What `plan` asks for.

ghost use Rattle.std.specs.Prelude.{◌≡◌, ◌↔◌, codes, IfOk, IsTrue};
ghost use Rattle.clap.specs.Words.{rows_of, found_of};
ghost use Rattle.shop_words.specs.CommandLine as line;

use crate::values::{has_flag, has_option, number_if_any, number_of, texts_under, times_given};
use crate::words::{
    MAX_CALLS, MAX_SIZES, MAX_STAGES, MAX_STEP_LENGTH, MIN_STAGES, OrderPlan, Request,
};
use clap::ArgMatches;
use cut_measure::MAX_KERF;
use std::alloc::{AllocError, Global};

/// Whether all pieces are to be planned.
pub(crate) fn is_whole(plan: &ArgMatches<'_>) -> bool
    ensures { IsTrue result ↔ line.IsWhole (rows_of (found_of plan.now)) }
{
    has_flag(plan, "whole")
}

// A plan of all pieces, of which file and kerf were read.
fn whole_request<'a>(plan: &ArgMatches<'a>, file: &'a str, kerf: u32) -> Option<Request<'a>>
    ensures { line.AsAsked result
        (line.IsWholeAsked file.now kerf (rows_of (found_of plan.now))) }
{
    let step = number_if_any(plan, "step", 0, MAX_STEP_LENGTH)?;
    let calls = number_if_any(plan, "calls", 1, MAX_CALLS)?;
    let stages = number_if_any(plan, "stages", MIN_STAGES, MAX_STAGES)?;
    Some(Request::PlanOrder {
        file,
        kerf,
        step,
        calls,
        stages,
    })
}

// A plan of one rectangle, of which file and kerf were read.
fn single_request<'a>(plan: &ArgMatches<'a>, file: &'a str, kerf: u32) -> Option<Request<'a>>
    ensures { line.AsAsked result
        (line.IsSingleAsked file.now kerf (rows_of (found_of plan.now))) }
{
    let step = number_of(plan, "step", 0, MAX_STEP_LENGTH)?;
    if has_option(plan, "calls") {
        return None;
    }
    if has_option(plan, "stages") {
        return None;
    }
    Some(Request::Plan { file, kerf, step })
}

// A plan of a problem file.
fn problem_request<'a>(plan: &ArgMatches<'a>) -> Option<Request<'a>>
    ensures { line.AsAsked result (line.IsProblemAsked (rows_of (found_of plan.now))) }
{
    let file = plan.get_str("FILE")?;
    let kerf = number_of(plan, "kerf", 0, MAX_KERF)?;
    if is_whole(plan) {
        whole_request(plan, file, kerf)
    } else {
        single_request(plan, file, kerf)
    }
}

/// Whether an option is given that belongs only to the plan of an order file.
pub(crate) fn names_stock(plan: &ArgMatches<'_>) -> bool
    ensures { result ≡ line.names_stock (rows_of (found_of plan.now)) }
{
    has_option(plan, "shop") || has_option(plan, "material") || has_option(plan, "size")
}

// Whether kerf or step is there, which the plan of an order file hasn't.
fn has_measures(plan: &ArgMatches<'_>) -> bool
    ensures { result ≡ line.has_measures (rows_of (found_of plan.now)) }
{
    has_option(plan, "kerf") || has_option(plan, "step")
}

// A plan of an order file from units of these sizes.
fn order_plan<'a>(plan: &ArgMatches<'a>, sizes: Vec<&'a str>) -> Option<OrderPlan<'a>>
    requires { line.AreTexts (codes "size") (rows_of (found_of plan.now)) sizes.items }
    ensures { line.AsAsked result (line.IsOrderPlan (rows_of (found_of plan.now))) }
{
    let file = plan.get_str("FILE")?;
    let shop = plan.get_str("shop")?;
    let material = plan.get_str("material")?;
    let calls = number_if_any(plan, "calls", 1, MAX_CALLS)?;
    let stages = number_if_any(plan, "stages", MIN_STAGES, MAX_STAGES)?;
    if !is_whole(plan) {
        return None;
    }
    if has_measures(plan) {
        return None;
    }
    if !has_option(plan, "size") {
        return None;
    }
    if times_given(plan, "size") > MAX_SIZES {
        return None;
    }
    Some(OrderPlan {
        file,
        shop,
        material,
        sizes,
        calls,
        stages,
    })
}

// A plan of an order file.
fn lines_request<'a>(
    alloc: Global,
    plan: &ArgMatches<'a>,
) -> Result<Option<Request<'a>>, AllocError>
    ensures { IfOk result
        (λ found. line.AsAsked found (line.IsLinesAsked (rows_of (found_of plan.now)))) }
{
    let sizes = texts_under(alloc, plan, "size")?;
    match order_plan(plan, sizes) {
        Some(asked) => Ok(Some(Request::PlanLines(asked))),
        None => Ok(None),
    }
}

/// What `plan` asks for.
pub(crate) fn plan_request<'a>(
    alloc: Global,
    plan: &ArgMatches<'a>,
) -> Result<Option<Request<'a>>, AllocError>
    ensures { IfOk result
        (λ found. line.AsAsked found (line.IsPlanAsked (rows_of (found_of plan.now)))) }
{
    if names_stock(plan) {
        lines_request(alloc, plan)
    } else {
        Ok(problem_request(plan))
    }
}
