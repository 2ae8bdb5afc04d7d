//! Why there is no plan: what is wrong with the wants, the step or the size, in the order in which it is judged.

ghost use Rattle.std.specs.Prelude.{◌≡◌, ◌+◌, ◌≤◌, ◌<◌, ◌==◌, IsTrue, IfNone};
ghost use Rattle.std.specs.List.{list_any};
ghost use Rattle.cut_measure.specs.declared.sizes.Kind.TheVariants.{Sheet};
ghost use Rattle.cut_plan.specs.Faults as faults;

use cut_bars::bar::MAX_BAR_LENGTH;
use cut_measure::{Kind, MAX_COUNT, MAX_KERF, MAX_WORTH, Size};
use cut_sheets::sheet::MAX_STEPS;
use cut_wants::wants::Want;
use std::error::Error;
use std::fmt;

/// The most wants of which a plan is made.
pub const MAX_WANTS: usize = 40;

/// Why there is no plan.
#[derive(Clone, Copy, Debug, PartialEq, Eq)]
pub enum PlanFault {
    /// There is no want or there are more than 40, a demand stands twice, a worth is outside 1..=1000000000 or a number
    /// that is left outside 1..=1000000; for a bar also a piece that isn't flat or may turn.
    BadWant,
    /// For a sheet: the step is 0, or longer than some want's side and a kerf.
    BadStep,
    /// A bar longer than 150000, or a sheet with a side of over 500 steps; at last, a plan of over 255 cuts.
    TableTooLarge,
    /// No want fits the unit.
    NothingFits,
    /// Lack of memory.
    NoMemory,
}

impl fmt::Display for PlanFault {
    ghost use Rattle.std.specs.Prelude.{Some};
    ghost use Rattle.cut_plan.specs.Messages.{plan_fault_text};

    ghost output = { λ fault. Some (plan_fault_text fault) };

    fn fmt<W: fmt::Write>(&self, f: &mut fmt::Formatter<W>) -> fmt::Result {
        match self {
            PlanFault::BadWant => f.write_str(
                "a want is out of range or stands twice, or there are none or too many",
            ),
            PlanFault::BadStep => f.write_str("the step is 0, or longer than a piece and a kerf"),
            PlanFault::TableTooLarge => f.write_str(
                "the unit is too large to be planned, or its plan takes too many cuts",
            ),
            PlanFault::NothingFits => f.write_str("no piece fits the unit"),
            PlanFault::NoMemory => f.write_str("memory ran out"),
        }
    }
}

impl Error for PlanFault {}

fn is_bad_number(want: &Want) -> bool
    ensures { result ≡ faults.is_bad_number want.now }
{
    want.worth == 0 || want.worth > MAX_WORTH || want.left == 0 || want.left > MAX_COUNT
}

fn is_bad_want(kind: Kind, want: &Want) -> bool
    ensures { result ≡ faults.is_bad_want kind want.now }
{
    match kind {
        Kind::Bar => is_bad_number(want) || want.size.h() != 1 || want.may_turn,
        Kind::Sheet => is_bad_number(want),
    }
}

fn is_among(demand: u32, wants: &[Want]) -> bool
    ensures { result ≡ list_any (λ x. x.demand == demand) wants.now }
{
    wants.iter().any(|want| want.demand == demand)
}

fn has_twice(wants: &[Want]) -> bool
    ensures { result ≡ faults.has_twice wants.now }
{
    for i in 0..wants.len() {
        if is_among(wants[i].demand, &wants[i + 1..]) {
            return true;
        }
    }
    false
}

fn has_bad_want(kind: Kind, wants: &[Want]) -> bool
    ensures { result ≡ list_any (faults.is_bad_want kind) wants.now }
{
    wants.iter().any(|want| is_bad_want(kind, want))
}

/// Whether there are no wants or more than `most`, or one is out of range or stands twice.
pub fn are_bad_wants(most: usize, kind: Kind, wants: &[Want]) -> bool
    ensures { result ≡ faults.are_bad_wants most kind wants.now }
{
    wants.is_empty() || wants.len() > most || has_twice(wants) || has_bad_want(kind, wants)
}

/// Whether a side of a want and a kerf are shorter than the step.
pub fn is_short(want: &Want, kerf: u32, step: u32) -> bool
    requires { kerf ≤ MAX_KERF }
    ensures { result ≡ faults.is_short kerf step want.now }
{
    want.size.w() + kerf < step || want.size.h() + kerf < step
}

fn has_short_want(wants: &[Want], kerf: u32, step: u32) -> bool
    requires { kerf ≤ MAX_KERF }
    ensures { result ≡ list_any (faults.is_short kerf step) wants.now }
{
    wants.iter().any(|want| is_short(want, kerf, step))
}

/// Whether a sheet's step is 0, or longer than some want's side and a kerf.
pub fn is_bad_step(kind: Kind, wants: &[Want], kerf: u32, step: u32) -> bool
    requires { kerf ≤ MAX_KERF }
    ensures { result ≡ faults.is_bad_step kind kerf step wants.now }
{
    match kind {
        Kind::Bar => false,
        Kind::Sheet => step == 0 || has_short_want(wants, kerf, step),
    }
}

/// Whether a unit is too large to be planned.
pub fn is_large(kind: Kind, size: Size, kerf: u32, step: u32) -> bool
    requires kerf { kerf ≤ MAX_KERF }
    requires step { kind ≡ Sheet → 1 ≤ step }
    ensures { result ≡ faults.is_large kind size kerf step }
{
    match kind {
        Kind::Bar => size.w() > MAX_BAR_LENGTH,
        Kind::Sheet => (size.w() + kerf) / step > MAX_STEPS || (size.h() + kerf) / step > MAX_STEPS,
    }
}

/// Whether a want fits a unit, turned where it may be.
pub fn is_fitting(size: Size, want: &Want) -> bool
    ensures value { result ≡ faults.is_fitting size want.now }
    ensures sides { (1 ≤ want.now.size.w) × (1 ≤ want.now.size.h) }
{
    let (w, h) = (want.size.w(), want.size.h());
    w <= size.w() && h <= size.h() || want.may_turn && h <= size.w() && w <= size.h()
}

/// Whether some want fits a unit.
pub fn some_fits(size: Size, wants: &[Want]) -> bool
    ensures value { result ≡ list_any (faults.is_fitting size) wants.now }
    ensures which { IsTrue result → faults.SomeFits size wants.now }
{
    for want in wants {
        if is_fitting(size, want) {
            return true;
        }
    }
    false
}

/// The first fault that stands before any table is filled.
pub fn first_fault(
    kind: Kind,
    size: Size,
    kerf: u32,
    step: u32,
    wants: &[Want],
) -> Option<PlanFault>
    requires { kerf ≤ MAX_KERF }
    ensures value { result ≡ faults.plan_fault kind size kerf step wants.now }
    ensures which { IfNone result (faults.SomeFits size wants.now) }
{
    if are_bad_wants(MAX_WANTS, kind, wants) {
        return Some(PlanFault::BadWant);
    }
    if is_bad_step(kind, wants, kerf, step) {
        return Some(PlanFault::BadStep);
    }
    if is_large(kind, size, kerf, step) {
        return Some(PlanFault::TableTooLarge);
    }
    if !some_fits(size, wants) {
        return Some(PlanFault::NothingFits);
    }
    None
}
