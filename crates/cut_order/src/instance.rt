//! What is asked of a search: the sizes and the wants of an order.

ghost use Rattle.std.specs.Prelude.{◌≡◌, ◌≤◌, ◌↔◌, IsTrue, None};
ghost use Rattle.cut_measure.specs.declared.ranges.TheConstants.{MAX_KERF};
ghost use Rattle.cut_plan.specs.Proposals.{AreDemands};
ghost use Rattle.cut_bound.specs.Orders as orders;
ghost use Rattle.cut_order.specs.Stocks as stocks;
ghost use Rattle.cut_order.specs.Stocks.{AreFlat, IsStageLimit, IsStock};

use cut_bound::{MAX_BOUGHT_SIZES, MAX_PARTS, StockSize};
use cut_measure::Kind;
use cut_plan::Want;

/// The most that a unit costs: 100 for each cell of the largest sheet.
pub const MAX_COST: u64 = 4_000_000_000_000;

/// The least limit of a plan's stages: one piece is cut from an empty unit in so many.
pub const MIN_STAGES: u32 = 2;

/// The greatest limit of a plan's stages: no plan has more, since it has at most so many cuts.
pub const MAX_STAGES: u32 = 255;

/// What is asked of a search.
#[derive(Drop)]
pub struct Instance {
    pub kind: Kind,
    /// Tenths of a millimetre, 0 to 200.
    pub kerf: u32,
    /// Tenths of a millimetre, at least 1, if a sheet's sides are rounded to steps; a bar ignores it.
    pub step: Option<u32>,
    /// Each plan has at most so many stages, 2 to 255, if there is a limit.
    pub stages: Option<u32>,
    /// At most 1010.
    pub sizes: Vec<StockSize>,
    /// 1 to 100.
    pub wants: Vec<Want>,
    ghost narrow: { kerf ≤ MAX_KERF },
    ghost stocked: { IsStock kind sizes.items },
    ghost limited: { IsStageLimit stages },
    ghost numbered: { AreDemands wants.items },
    ghost faultless: { orders.order_fault kind kerf step sizes.items wants.items ≡ None },
}

// The units at hand of the limited sizes, together.
fn parts_of(sizes: &[StockSize]) -> u128
    ensures { result ≡ stocks.parts_of sizes.now }
{
    let mut parts: u128 = 0;
    for stock in sizes {
        parts += stock.limit.unwrap_or(0) as u128;
    }
    parts
}

// Whether each bar has a height of 1.
fn are_flat(kind: Kind, sizes: &[StockSize]) -> bool
    ensures { IsTrue result ↔ AreFlat kind sizes.now }
{
    match kind {
        Kind::Bar => sizes.iter().all(|stock| stock.size.h() == 1),
        Kind::Sheet => true,
    }
}

/// Whether a limit of stages is one that a search takes: none, or 2 to 255.
pub fn is_stage_limit(stages: Option<u32>) -> bool
    ensures value { result ≡ stocks.is_stage_limit stages }
    ensures limit { IsTrue result ↔ IsStageLimit stages }
{
    match stages {
        None => true,
        Some(most) => MIN_STAGES <= most && most <= MAX_STAGES,
    }
}

/// Whether the sizes are a stock that a search takes: at most 1010 sizes, at most 1000 units at
/// hand of the limited ones together, none that costs more than 4000000000000, and each bar with a
/// height of 1.
pub fn is_stock(kind: Kind, sizes: &[StockSize]) -> bool
    ensures { IsTrue result ↔ IsStock kind sizes.now }
{
    sizes.len() <= MAX_PARTS as usize + MAX_BOUGHT_SIZES
        && parts_of(sizes) <= MAX_PARTS as u128
        && sizes.iter().all(|stock| stock.cost <= MAX_COST)
        && are_flat(kind, sizes)
}
