//! The lines that report a plan of a whole order: how many units it takes, what bounds them, and each different plan.

ghost use Rattle.std.specs.Prelude.{◌≡◌, ◌+◌, ◌++◌, ◌<◌, ◌^◌, OnOk, IfOk, drop, get_or, length, map, string_bytes};
ghost use Rattle.cut_bound.specs.declared.planned.PlannedUnit.{PlannedUnit};
ghost use Rattle.std.specs.List.{list_any};
ghost use Rattle.cut_tree.specs.SamePatterns.{same_pattern};
ghost use Rattle.cut_lines.specs.Lines as lines;

use cut_bound::PlannedUnit;
use cut_tree::Plan;
use std::alloc::{AllocError, Global};
use std::cmp::Reverse;

/// What is reported about a plan of a whole order before its plans of units.
#[derive(Clone, Copy, Debug, PartialEq, Eq)]
pub struct OrderSummary {
    /// How many units it takes.
    pub units: u64,
    /// How many units whoever makes all takes at least.
    pub bound: u64,
    /// Whether it is proved that no plan takes fewer.
    pub proved: bool,
    /// How many pieces aren't planned.
    pub missing: u128,
}

// How many units have a plan, the greatest number first, and its text.
#[derive(PartialEq, Eq, PartialOrd, Ord, Drop)]
struct Line {
    times: Reverse<u128>,
    text: String,
}

// How many units have this plan.
fn times_of(units: &[PlannedUnit], plan: &Plan) -> u128
    ensures { result ≡ lines.times_of units.now plan.now }
{
    let mut times = 0u128;
    for unit in units {
        if unit.plan == *plan {
            times += unit.times as u128;
        }
    }
    times
}

// Whether one of the units has this plan.
fn is_among(units: &[PlannedUnit], plan: &Plan) -> bool
    ensures { result ≡ list_any (λ u. same_pattern u.plan plan.now) units.now }
{
    units.iter().any(|unit| unit.plan == *plan)
}

// Whether a later unit has the plan of the one at a place.
fn comes_again(units: &[PlannedUnit], place: usize) -> bool
    requires { place < length units.now }
    ensures { (u : PlannedUnit) → u ≡ get_or units.now place u
        → result ≡ list_any (λ v. same_pattern v.plan u.plan) (drop (place + 1) units.now) }
{
    is_among(&units[place + 1..], &units[place].plan)
}

fn line_of(alloc: Global, units: &[PlannedUnit], plan: &Plan) -> Result<Line, AllocError>
    ensures { IfOk result (λ line. lines.reported line ≡ lines.plan_line units.now plan.now) }
{
    let mut text = String::new(alloc);
    plan.write(&mut text)?;
    let times = Reverse(times_of(units, plan));
    Ok(Line { times, text })
}

// A line for each different plan.
fn lines_of(alloc: Global, units: &[PlannedUnit]) -> Result<Vec<Line>, AllocError>
    ensures { IfOk result (λ list. map lines.reported list.items ≡ lines.plan_lines units.now) }
{
    let mut list = Vec::new(alloc);
    for i in 0..units.len() {
        let plan = &units[i].plan;
        if !comes_again(units, i) {
            list.push(line_of(alloc, units, plan)?)?;
        }
    }
    Ok(list)
}

// Appends the lines.
fn write_lines(list: &[Line], out: &mut String) -> Result<(), AllocError>
    ensures { OnOk result (string_bytes out.new
        ≡ string_bytes out.old ++ lines.lines_text (map lines.reported list.now)) }
{
    for line in list {
        write!(out, "{} {}\n", line.times.0, line.text)?;
    }
    Ok(())
}

// Appends the lines, each with the name of its size before it.
fn write_sized_lines(name: &str, list: &[Line], out: &mut String) -> Result<(), AllocError>
    ensures { OnOk result (string_bytes out.new
        ≡ string_bytes out.old ++ lines.sized_text name.now (map lines.reported list.now)) }
{
    for line in list {
        write!(out, "{name} {} {}\n", line.times.0, line.text)?;
    }
    Ok(())
}

fn proved_word(proved: bool) -> &'static str
    ensures { result.now ≡ lines.proved_word proved }
{
    if proved { "yes" } else { "no" }
}

fn summary_text(alloc: Global, summary: OrderSummary) -> Result<String, AllocError>
    ensures { IfOk result (λ text. string_bytes text ≡ lines.summary_text summary) }
{
    let mut text = String::new(alloc);
    write!(
        text,
        "units {}\nbound {}\nproved ",
        summary.units, summary.bound
    )?;
    text.push_str(proved_word(summary.proved))?;
    write!(text, "\nmissing {}\n", summary.missing)?;
    Ok(text)
}

/// The lines of a plan of a whole order from units of one size: what sums it up, and for each different plan how many
/// units have it and its text, by falling number and then by the text.
pub fn order_lines(
    alloc: Global,
    summary: OrderSummary,
    units: &[PlannedUnit],
) -> Result<String, AllocError>
    ensures { IfOk result (λ text. lines.AreOrderLines summary units.now (string_bytes text)) }
{
    let mut list = lines_of(alloc, units)?;
    list.sort()?;
    let mut text = summary_text(alloc, summary)?;
    write_lines(&list, &mut text)?;
    Ok(text)
}

// Appends the lines of the units of one size.
fn write_block(
    alloc: Global,
    name: &str,
    units: &[PlannedUnit],
    out: &mut String,
) -> Result<(), AllocError>
    ensures { OnOk result (lines.Appends (lines.AreSizedLines name.now units.now)
        (string_bytes out.old) (string_bytes out.new)) }
{
    let mut list = lines_of(alloc, units)?;
    list.sort()?;
    write_sized_lines(name, &list, out)
}

// Copies of the units of the size at a place.
fn units_of(
    alloc: Global,
    units: &[PlannedUnit],
    place: usize,
) -> Result<Vec<PlannedUnit>, AllocError>
    ensures { IfOk result (λ list. list.items ≡ lines.units_of place units.now) }
{
    let mut list = Vec::new(alloc);
    for unit in units {
        if unit.place == place {
            let plan = unit.plan.copy(alloc)?;
            list.push(PlannedUnit {
                place: unit.place,
                times: unit.times,
                plan,
            })?;
        }
    }
    Ok(list)
}

// Appends the lines of the units of the sizes from a place on, size by size.
fn write_blocks(
    alloc: Global,
    names: &[String],
    place: usize,
    units: &[PlannedUnit],
    out: &mut String,
) -> Result<(), AllocError>
    requires { place + length names.now < 2 ^ 32 }
    ensures { OnOk result (lines.Appends
        (lines.AreBlocks units.now place (map string_bytes names.now))
        (string_bytes out.old) (string_bytes out.new)) }
{
    let [name, more @ ..] = names else {
        return Ok(());
    };
    let own = units_of(alloc, units, place)?;
    write_block(alloc, name.as_str(), &own, out)?;
    write_blocks(alloc, more, place + 1, units, out)?;
    Ok(())
}

/// The lines of a plan of a whole order from units of several sizes: what sums it up, the cost, and size by size, by its name,
/// for each different plan how many units have it and its text, by falling number and then by the text.
pub fn sized_lines(
    alloc: Global,
    summary: OrderSummary,
    cost: u64,
    names: &[String],
    units: &[PlannedUnit],
) -> Result<String, AllocError>
    requires { length names.now < 2 ^ 32 }
    ensures { IfOk result (λ text. lines.AreSizesLines summary cost (map string_bytes names.now)
        units.now (string_bytes text)) }
{
    let mut text = summary_text(alloc, summary)?;
    write!(text, "cost {cost}\n")?;
    write_blocks(alloc, names, 0, units, &mut text)?;
    Ok(text)
}
