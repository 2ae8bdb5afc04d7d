//! Wants at prices.

ghost use Rattle.std.specs.Prelude.{◌≡◌, ◌≤◌, IfOk, map};
ghost use Rattle.cut_bound.specs.Prices as prices;

use cut_measure::{Kind, MAX_KERF, MAX_WORTH};
use cut_plan::{Want, is_short};
use std::alloc::{AllocError, Global};

/// The price of a demand's pieces.
#[derive(Clone, Copy, Debug, PartialEq, Eq)]
pub struct Price {
    /// The demand's number, as the want has it.
    pub demand: u32,
    /// 1 to 1000000000.
    pub worth: u32,
}

// Whether a side of a sheet's want and a kerf are shorter than the step; than 0 none is.
fn is_below_step(kind: Kind, kerf: u32, step: u32, want: &Want) -> bool
    requires { kerf ≤ MAX_KERF }
    ensures { result ≡ prices.is_below_step kind kerf step want.now }
{
    match kind {
        Kind::Bar => false,
        Kind::Sheet => is_short(want, kerf, step),
    }
}

/// Whether a number is a price of a want: 1 to 1000000000, where no side of a sheet's want and a
/// kerf are shorter than the step, if there is one.
pub fn has_price(kind: Kind, kerf: u32, step: Option<u32>, want: &Want, number: u32) -> bool
    requires { kerf ≤ MAX_KERF }
    ensures { result ≡ prices.has_price kind kerf (prices.step_of step) want.now number }
{
    let step = step.unwrap_or(0);
    0 < number && number <= MAX_WORTH && !is_below_step(kind, kerf, step, want)
}

/// The wants that have a price, each at its price in place of its worth.
pub fn priced(
    alloc: Global,
    kind: Kind,
    kerf: u32,
    step: Option<u32>,
    wants: &[Want],
    numbers: &[u32],
) -> Result<Vec<Want>, AllocError>
    requires { kerf ≤ MAX_KERF }
    ensures { IfOk result (λ priced. priced.items
        ≡ prices.priced kind kerf (prices.step_of step) wants.now numbers.now) }
{
    let mut priced = Vec::new(alloc);
    for i in 0..wants.len().min(numbers.len()) {
        if has_price(kind, kerf, step, &wants[i], numbers[i]) {
            priced.push(Want {
                worth: numbers[i],
                ..wants[i]
            })?;
        }
    }
    Ok(priced)
}

/// The prices of wants that have one, in their order.
pub fn prices_of(alloc: Global, priced: &[Want]) -> Result<Vec<Price>, AllocError>
    ensures { IfOk result (λ reported. reported.items ≡ map prices.price_of priced.now) }
{
    priced
        .iter()
        .map(|want| Price {
            demand: want.demand,
            worth: want.worth,
        })
        .collect(alloc)
}
