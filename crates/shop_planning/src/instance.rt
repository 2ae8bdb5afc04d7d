//! What a query asks: the stock, the wants, and how they are planned.

ghost use Rattle.std.specs.Prelude.{◌≡◌, ◌≤◌, None};
ghost use Rattle.cut_measure.specs.declared.ranges.TheConstants.{MAX_KERF};
ghost use Rattle.cut_plan.specs.Proposals.{AreDemands};
ghost use Rattle.cut_bound.specs.Orders.{order_fault};
ghost use Rattle.cut_order.specs.Stocks.{IsStageLimit, IsStock};

use cut_bound::StockSize;
use cut_measure::{Kind, Limits, PartName, Size};
use cut_plan::Want;

/// A part that may be used.
#[derive(Clone, Copy, Debug)]
pub struct StockPart {
    pub name: PartName,
    /// Its sides as they are planned, in tenths of a millimetre: of a bar the height is 1.
    pub size: Size,
    /// 100 for each cell, and of a remnant as much as the query says.
    pub cost: u64,
    /// Its place in the stock's list, from 0 on.
    pub place: usize,
}

/// What a query asks of a content.
#[derive(Drop)]
pub struct PlanInstance {
    pub kind: Kind,
    /// In tenths of a millimetre: 0 to 200.
    pub kerf: u32,
    /// To so many tenths of a millimetre sides are rounded, if they are: of a bar they aren't.
    pub step: Option<u32>,
    /// So many tables the search makes at most.
    pub calls: u32,
    /// Each plan has at most so many stages, 2 to 255, if there is a limit.
    pub stages: Option<u32>,
    /// By the material's limits a job's rests are kept.
    pub limits: Limits,
    /// The parts that may be used, in their order.
    pub parts: Vec<StockPart>,
    /// The sizes of the parts, each with the number of its parts, and then those that may be bought.
    pub sizes: Vec<StockSize>,
    pub wants: Vec<Want>,
    ghost narrow: { kerf ≤ MAX_KERF },
    ghost stocked: { IsStock kind sizes.items },
    ghost limited: { IsStageLimit stages },
    ghost numbered: { AreDemands wants.items },
    ghost faultless: { order_fault kind kerf step sizes.items wants.items ≡ None },
}
