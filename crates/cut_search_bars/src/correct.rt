//! Sequential value correction (Belov and Scheithauer 2007, after Mukhacheva): one unit after the
//! other is filled by values, and the pieces of each get new values by what of it was lost; round
//! after round.

use crate::draft::{Draft, have_some, times_within};
use crate::order::{Order, UnitBounds};
use cut_fill_bars::bars::{Bars, Priced};
use cut_master::fixed::ONE;
use std::alloc::{AllocError, Global};

/// After so many rounds the values begin again.
const ROUNDS: u32 = 20;

/// The natural logarithm of 2, in 1000ths.
const LN_2: i64 = 693;

/// Values count 1024ths of a cell.
const VALUE_PARTS: u64 = 1024;

/// What is 1 in the share of its span by which a piece is worth more or less: 1000ths of a power
/// times 1000ths of a logarithm.
const WHOLE_SHARE: i128 = 1_000_000;

/// The weight in a new value of what the piece would cost by the loss.
const LOSS_WEIGHT: u128 = 1000;

/// The old value's weight beside it at least, where one unit was cut and no more pieces are left.
const MIN_WEIGHT: u64 = 667;

/// That weight at most.
const MAX_WEIGHT: u64 = 1500;

/// How much the power of a span is above 1 at least, in 1000ths.
const MIN_POWER: u64 = 20;

/// How much it is at most.
const MAX_POWER: u64 = 99;

/// What was asked for.
#[derive(Clone, Copy, PartialEq, Eq)]
enum Asked {
    Nothing,
    /// Which size.
    Sizes,
    /// A plan of one unit of a size.
    Unit(usize),
}

/// How far it is.
#[derive(Clone, Copy, PartialEq, Eq)]
pub enum Progress {
    /// There is more to do in this round.
    More,
    /// The round is at its end: the draft is whole, or no unit holds what is left.
    Filled,
    /// The round can't be better than what is known.
    Hopeless,
}

/// The rounds.
#[derive(Drop)]
pub struct Correct {
    /// What is planned already.
    base: Draft,
    /// The round's units after it.
    pub draft: Draft,
    start: Vec<u64>,
    values: Vec<u64>,
    dice: u64,
    round: u32,
    /// So many rounds are left.
    pub rounds: u32,
    asked: Asked,
}

/// The next number of a generator (Marsaglia 2003).
fn roll(dice: &mut u64) -> u64 {
    let mut x = *dice;
    x ^= x << 13;
    x ^= x >> 7;
    x ^= x << 17;
    *dice = x;
    x >> 11
}

/// A number from one to another.
pub fn roll_within(dice: &mut u64, low: u64, high: u64) -> u64 {
    let span = high.saturating_sub(low).saturating_add(1);
    low.saturating_add(roll(dice).checked_rem(span).unwrap_or(0))
}

/// 256 times the logarithm to the base 2, its fraction by a straight line.
fn logarithm(number: u64) -> i64 {
    let some = number.max(1);
    let top = some.ilog2();
    let scaled = (some as u128) << 8 >> top;
    let fraction = i64::try_from(scaled).unwrap_or(256).saturating_sub(256);
    (top as i64).saturating_mul(256).saturating_add(fraction)
}

/// A piece's span to a power a little above 1, as 1024ths: larger pieces are worth more for their
/// span.
fn raised(cells: u64, most: u64, power: u64) -> u64 {
    let after = logarithm(cells).saturating_sub(logarithm(most));
    let log = after.saturating_mul(LN_2) / 256;
    let share = (power as i128)
        .saturating_mul(log as i128)
        .saturating_add(WHOLE_SHARE);
    let raised = (cells as i128 * VALUE_PARTS as i128).saturating_mul(share) / WHOLE_SHARE;
    u64::try_from(raised).unwrap_or(1).max(1)
}

/// Values and span of a round's unit.
#[derive(Clone, Copy)]
pub struct Loss {
    /// The span of the largest unit.
    pub most: u64,
    pub unit: u64,
    pub used: u64,
    pub weight: u64,
    pub power: u64,
}

/// A piece's new value: the old one and what it would cost by the loss, by how often it is in the
/// unit and is left.
pub fn corrected(value: u64, cells: u64, count: u32, often: u64, loss: &Loss) -> u64 {
    let target = (raised(cells, loss.most, loss.power) as u128 * loss.unit as u128)
        .checked_div(loss.used as u128)
        .unwrap_or(0);
    let weight = (loss.weight as u128 * often as u128)
        .checked_div(count as u128)
        .unwrap_or(0);
    let sum = weight
        .saturating_mul(value as u128)
        .saturating_add(target.saturating_mul(LOSS_WEIGHT));
    let mean = sum
        .checked_div(weight.saturating_add(LOSS_WEIGHT))
        .unwrap_or(0);
    u64::try_from(mean).unwrap_or(u64::MAX).max(1)
}

/// What the prices of the program are in span: a unit that costs most is worth the most span, in
/// 1024ths.
pub fn values_of(alloc: Global, order: &Order, prices: &[u64]) -> Result<Vec<u64>, AllocError> {
    let most = order.most_cells() as u128 * VALUE_PARTS as u128;
    let mut values = Vec::new(alloc);
    for price in prices {
        let value = (*price as u128).saturating_mul(most) / ONE as u128;
        values.push(u64::try_from(value).unwrap_or(u64::MAX).max(1))?;
    }
    Ok(values)
}

/// What all that is left costs at least.
fn least_rest(order: &Order, unit_bounds: Option<&UnitBounds>, draft: &Draft) -> u64 {
    let by_cells = order.least_by_cells(&draft.left);
    match unit_bounds {
        None => by_cells,
        Some(unit_bounds) => order
            .least_cost(unit_bounds, &draft.left, &draft.free)
            .max(by_cells),
    }
}

impl Correct {
    /// So many rounds that begin with a draft and values.
    pub fn new(
        alloc: Global,
        base: Draft,
        start: Vec<u64>,
        seed: u64,
        rounds: u32,
    ) -> Result<Correct, AllocError> {
        Ok(Correct {
            draft: base.copy(alloc)?,
            base,
            values: Vec::from_slice(alloc, &start)?,
            start,
            dice: seed | 1,
            round: 0,
            rounds,
            asked: Asked::Nothing,
        })
    }

    /// Begins the next round.
    pub fn begin_round(&mut self, alloc: Global) -> Result<(), AllocError> {
        self.draft = self.base.copy(alloc)?;
        self.round = self.round.saturating_add(1);
        self.rounds = self.rounds.saturating_sub(1);
        self.asked = Asked::Nothing;
        if self.round.checked_rem(ROUNDS) == Some(0) {
            self.values = Vec::from_slice(alloc, &self.start)?;
        }
        Ok(())
    }

    /// The only size that is free, if there is only one.
    fn only_size(&self) -> Option<usize> {
        let mut found = None;
        for (size, number) in self.draft.free.iter().enumerate() {
            if *number != Some(0) {
                if found.is_some() {
                    return None;
                }
                found = Some(size);
            }
        }
        found
    }

    /// Asks for the next unit.
    fn ask(&mut self, alloc: Global, order: &Order, bars: &mut Bars) -> Result<(), AllocError> {
        let worths = order.scaled(alloc, &self.values, &self.draft.left)?;
        if let Some(size) = self.only_size() {
            self.asked = Asked::Unit(size);
            return bars.begin_unit(alloc, size, &worths, &self.draft.left);
        }
        self.asked = Asked::Sizes;
        bars.begin_columns(alloc, &worths, &self.draft.left)
    }

    /// The cheapest size that holds all that is left, if there is one; else the size that is worth
    /// most for its cost.
    fn best_size(&self, order: &Order, priced: &[Priced]) -> Option<usize> {
        let mut whole: Option<(u64, usize)> = None;
        let mut found: Option<(u64, u64, usize)> = None;
        for (size, (one, cost)) in priced.iter().zip(&order.costs).enumerate() {
            if self.draft.free_of(size) == 0 || one.best == 0 {
                continue;
            }
            let holds_all = one.counts.as_slice() == self.draft.left.as_slice();
            if holds_all && whole.map_or(true, |(other, _)| *cost < other) {
                whole = Some((*cost, size));
            }
            let better = found.map_or(true, |(best, other, _)| {
                one.best as u128 * other as u128 > best as u128 * *cost as u128
            });
            if better {
                found = Some((one.best, *cost, size));
            }
        }
        match whole {
            Some((_, size)) => Some(size),
            None => found.map(|(_, _, size)| size),
        }
    }

    /// Gives the pieces of a unit new values.
    fn correct(&mut self, order: &Order, size: usize, counts: &[u32], times: u32) {
        let mut used = 0u64;
        for (cells, count) in order.piece_cells.iter().zip(counts) {
            used = used.saturating_add(cells.saturating_mul(*count as u64));
        }
        let loss = Loss {
            most: order.most_cells(),
            unit: order.unit_cells.get(size).copied().unwrap_or(0),
            used,
            weight: roll_within(&mut self.dice, MIN_WEIGHT, MAX_WEIGHT),
            power: roll_within(&mut self.dice, MIN_POWER, MAX_POWER),
        };
        let pieces = order.piece_cells.iter().zip(counts).zip(&self.draft.left);
        for (value, ((cells, count), left)) in self.values.iter_mut().zip(pieces) {
            if *count > 0 {
                let taken = *count as u64 * times as u64;
                let often = (*left as u64).saturating_mul(2).saturating_add(taken);
                *value = corrected(*value, *cells, *count, often, &loss);
            }
        }
    }

    /// Adds a unit's plan as often as it can be taken. Whether it could.
    fn add(
        &mut self,
        alloc: Global,
        order: &Order,
        size: usize,
        counts: &[u32],
        plan: usize,
    ) -> Result<bool, AllocError> {
        let fit = times_within(counts, &self.draft.left).min(self.draft.free_of(size));
        self.asked = Asked::Nothing;
        if fit == 0 {
            return Ok(false);
        }
        let cost = order.cost(size);
        self.draft.add(alloc, size, counts, plan, fit, cost)?;
        self.correct(order, size, counts, fit);
        Ok(true)
    }

    /// Adds the unit that was asked for, if it is there. None where no unit holds a piece.
    fn answered(
        &mut self,
        alloc: Global,
        order: &Order,
        bars: &mut Bars,
    ) -> Result<Progress, AllocError> {
        match self.asked {
            Asked::Nothing => Ok(Progress::More),
            Asked::Unit(size) => {
                let Some(filled) = bars.go_on_unit(alloc)? else {
                    return Ok(Progress::More);
                };
                let added = self.add(alloc, order, size, &filled.counts, filled.plan)?;
                Ok(if added {
                    Progress::More
                } else {
                    Progress::Filled
                })
            }
            Asked::Sizes => {
                let Some(priced) = bars.go_on_columns(alloc)? else {
                    return Ok(Progress::More);
                };
                self.choose(alloc, order, &priced)
            }
        }
    }

    /// Adds a unit of the best size.
    fn choose(
        &mut self,
        alloc: Global,
        order: &Order,
        priced: &[Priced],
    ) -> Result<Progress, AllocError> {
        let Some(size) = self.best_size(order, priced) else {
            return Ok(Progress::Filled);
        };
        let Some(one) = priced.get(size) else {
            return Ok(Progress::Filled);
        };
        let added = self.add(alloc, order, size, &one.counts, one.plan)?;
        Ok(if added {
            Progress::More
        } else {
            Progress::Filled
        })
    }

    /// Goes on by a table at most, towards a cost below a goal.
    pub fn go_on(
        &mut self,
        alloc: Global,
        order: &Order,
        bars: &mut Bars,
        unit_bounds: Option<&UnitBounds>,
        goal: u64,
    ) -> Result<Progress, AllocError> {
        if self.asked == Asked::Nothing {
            if !have_some(&self.draft.left) {
                return Ok(Progress::Filled);
            }
            let least = least_rest(order, unit_bounds, &self.draft);
            if self.draft.cost.saturating_add(least) >= goal {
                return Ok(Progress::Hopeless);
            }
            self.ask(alloc, order, bars)?;
        }
        self.answered(alloc, order, bars)
    }
}
