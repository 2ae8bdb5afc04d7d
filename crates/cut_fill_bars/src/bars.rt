//! Which pieces a bar is filled with by prices: one table gives the best of all lengths of bars at
//! once, as a place of it is the best of a shorter bar (Gilmore and Gomory 1961 and 1963).

use crate::knapsack::{Item, Table};
use cut_measure::{Axis, Size};
use cut_tree::{MAX_CUTS, Node};
use cut_wants::wants::Want;
use std::alloc::{AllocError, Global};

/// So many cells of rows are kept at most: 4 bytes each. The rows of wants that are more are made
/// again where they are read.
const MAX_CELLS: usize = 7_000_000;

/// What a unit of a size is worth at most, and the counts of pieces of a plan.
#[derive(Drop)]
pub struct Priced {
    /// No plan within what is left is worth more.
    pub best: u64,
    /// Pieces of each want.
    pub counts: Vec<u32>,
    /// The number of the plan, where it is kept.
    pub plan: usize,
}

/// The pieces of a plan of one unit.
#[derive(Drop)]
pub struct Filled {
    /// Pieces of each want.
    pub counts: Vec<u32>,
    /// The number of the plan, where it is kept.
    pub plan: usize,
}

/// What a table is asked.
#[derive(Drop)]
struct Asked {
    worths: Vec<u32>,
    left: Vec<u32>,
    whole: u32,
}

/// A want in the table.
#[derive(Clone, Copy)]
struct Entry {
    want: usize,
    item: Item,
}

/// The planner of bars.
#[derive(Drop)]
pub struct Bars {
    kerf: u32,
    lengths: Vec<u32>,
    bars: Vec<u32>,
    demands: Vec<u32>,
    /// How many tenths of a millimetre a span is: all pieces with a kerf are a number of them.
    unit: u32,
    table: Table,
    entries: Vec<Entry>,
    /// The first rows of the parts of the entries.
    starts: Vec<Vec<u32>>,
    /// How many entries a part has.
    part: usize,
    /// Which part the table has.
    shown: usize,
    asked: Asked,
}

/// The greatest common divisor.
fn divisor(a: u32, b: u32) -> u32 {
    let (mut a, mut b) = (a, b);
    for _ in 0..64 {
        let Some(rest) = a.checked_rem(b) else {
            return a;
        };
        a = b;
        b = rest;
    }
    1
}

/// The divisor of all lengths with a kerf.
fn unit_of(lengths: &[u32], kerf: u32) -> u32 {
    let mut unit = 0;
    for length in lengths {
        unit = divisor(length.saturating_add(kerf), unit);
    }
    unit.max(1)
}

/// No pieces of all of these wants.
fn no_counts(alloc: Global, wants: usize) -> Result<Vec<u32>, AllocError> {
    vec![in alloc; 0u32; wants]
}

impl Bars {
    /// The planner of these lengths of bars and wants.
    pub fn new(
        alloc: Global,
        kerf: u32,
        sizes: &[Size],
        wants: &[Want],
    ) -> Result<Bars, AllocError> {
        let mut lengths = Vec::new(alloc);
        let mut demands = Vec::new(alloc);
        for want in wants {
            lengths.push(want.size.w())?;
            demands.push(want.demand)?;
        }
        let mut bars = Vec::new(alloc);
        for size in sizes {
            bars.push(size.w())?;
        }
        let unit = unit_of(&lengths, kerf);
        Ok(Bars {
            kerf,
            lengths,
            bars,
            demands,
            unit,
            table: Table::new(alloc),
            entries: Vec::new(alloc),
            starts: Vec::new(alloc),
            part: 1,
            shown: 0,
            asked: Asked {
                worths: Vec::new(alloc),
                left: Vec::new(alloc),
                whole: 0,
            },
        })
    }

    /// The spans of a length with a kerf.
    fn spans(&self, length: u32) -> u32 {
        let whole = length.saturating_add(self.kerf);
        whole.checked_div(self.unit).unwrap_or(0)
    }

    /// The spans of a piece: more than any bar has where there is no such want.
    fn piece_spans(&self, want: usize) -> u32 {
        self.lengths
            .get(want)
            .map_or(u32::MAX, |length| self.spans(*length))
    }

    /// The spans of a bar.
    fn bar_spans(&self, size: usize) -> u32 {
        self.bars.get(size).map_or(0, |length| self.spans(*length))
    }

    /// Spans that a unit has, with a kerf.
    pub fn unit_cells(&self, size: usize) -> u64 {
        self.bar_spans(size) as u64
    }

    /// Spans that a piece takes, with a kerf.
    pub fn piece_cells(&self, want: usize) -> u64 {
        self.piece_spans(want) as u64
    }

    /// Asks for a table of bars of so many spans.
    fn begin(
        &mut self,
        alloc: Global,
        whole: u32,
        worths: &[u32],
        left: &[u32],
    ) -> Result<(), AllocError> {
        self.asked = Asked {
            worths: Vec::from_slice(alloc, worths)?,
            left: Vec::from_slice(alloc, left)?,
            whole,
        };
        Ok(())
    }

    /// Asks for the best of each length of bars, by the worths of the wants, of which so many are
    /// left.
    pub fn begin_columns(
        &mut self,
        alloc: Global,
        worths: &[u32],
        left: &[u32],
    ) -> Result<(), AllocError> {
        let mut whole = 0;
        for bar in &self.bars {
            whole = self.spans(*bar).max(whole);
        }
        self.begin(alloc, whole, worths, left)
    }

    /// The wants that the table has, the longest first.
    fn entries_of(&self, alloc: Global) -> Result<Vec<Entry>, AllocError> {
        let mut order = Vec::new(alloc);
        for (want, (worth, left)) in self.asked.worths.iter().zip(&self.asked.left).enumerate() {
            let step = self.piece_spans(want);
            if *worth > 0 && *left > 0 && step <= self.asked.whole {
                order.push((u32::MAX - step, want))?;
            }
        }
        order.sort()?;
        let mut entries = Vec::new(alloc);
        for (_, want) in &order {
            entries.push(Entry {
                want: *want,
                item: Item {
                    step: self.piece_spans(*want),
                    gain: self.asked.worths.get(*want).copied().unwrap_or(0),
                    most: self.asked.left.get(*want).copied().unwrap_or(0),
                },
            })?;
        }
        Ok(entries)
    }

    /// The items of a part.
    fn items_of(&self, alloc: Global, part: usize) -> Result<Vec<Item>, AllocError> {
        let first = part.saturating_mul(self.part);
        let mut items = Vec::new(alloc);
        for entry in self.entries.iter().skip(first).take(self.part) {
            items.push(entry.item)?;
        }
        Ok(items)
    }

    /// Makes the rows of a part from its first row.
    fn show(&mut self, alloc: Global, part: usize) -> Result<(), AllocError> {
        let items = self.items_of(alloc, part)?;
        if let Some(start) = self.starts.get(part) {
            self.table.make_on(alloc, start, &items)?;
        }
        self.shown = part;
        Ok(())
    }

    /// Makes the table, part after part, and keeps the first row of each.
    fn make(&mut self, alloc: Global) -> Result<(), AllocError> {
        let cells = (self.asked.whole as usize).saturating_add(1);
        let rows = MAX_CELLS.checked_div(cells).unwrap_or(1);
        self.entries = self.entries_of(alloc)?;
        self.part = rows.max(4);
        self.starts = Vec::new(alloc);
        self.starts.push(vec![in alloc; 0u32; cells]?)?;
        let parts = self.entries.len().div_ceil(self.part.max(1));
        for part in 0..parts.max(1) {
            self.show(alloc, part)?;
            if part.saturating_add(1) < parts {
                if let Some(last) = self.table.worths(self.part) {
                    self.starts.push(Vec::from_slice(alloc, last)?)?;
                }
            }
        }
        Ok(())
    }

    /// The rows after all items of the part that is shown.
    fn shown_items(&self) -> usize {
        let first = self.shown.saturating_mul(self.part);
        self.entries.len().saturating_sub(first).min(self.part)
    }

    /// What bars of so many spans are worth, where the last part is shown.
    fn best(&self, spans: u32) -> u32 {
        self.table.best(self.shown_items(), spans).unwrap_or(0)
    }

    /// Takes the part that is shown from the spans that are left, into counts.
    fn take_part(&self, alloc: Global, spans: u32, counts: &mut [u32]) -> Result<u32, AllocError> {
        let items = self.shown_items();
        let mut taken = no_counts(alloc, items)?;
        let rest = self.table.take(items, spans, &mut taken).unwrap_or(0);
        let first = self.shown.saturating_mul(self.part);
        for (entry, count) in self.entries.iter().skip(first).zip(&taken) {
            if let Some(cell) = counts.get_mut(entry.want) {
                *cell = cell.saturating_add(*count);
            }
        }
        Ok(rest)
    }

    /// The counts of the best of each of these spans, each spans' into its own. The last part is
    /// shown before and after, where there is only one.
    fn take(
        &mut self,
        alloc: Global,
        spans: &mut [u32],
        counts: &mut [Vec<u32>],
    ) -> Result<(), AllocError> {
        let parts = self.starts.len();
        for part in (0..parts).rev() {
            if self.shown != part {
                self.show(alloc, part)?;
            }
            for (rest, own) in spans.iter_mut().zip(counts.iter_mut()) {
                *rest = self.take_part(alloc, *rest, own)?;
            }
        }
        Ok(())
    }

    /// The best of each length of bars.
    fn priced(&mut self, alloc: Global) -> Result<Vec<Priced>, AllocError> {
        let mut spans = Vec::new(alloc);
        let mut bests = Vec::new(alloc);
        let mut counts = Vec::new(alloc);
        for size in 0..self.bars.len() {
            let span = self.bar_spans(size);
            spans.push(span)?;
            bests.push(self.best(span) as u64)?;
            counts.push(no_counts(alloc, self.lengths.len())?)?;
        }
        self.take(alloc, &mut spans, &mut counts)?;
        let mut priced = Vec::new(alloc);
        for (best, own) in bests.iter().zip(counts) {
            priced.push(Priced {
                best: *best,
                counts: few(own),
                plan: 0,
            })?;
        }
        Ok(priced)
    }

    /// The best of each length of bars, in the order of the sizes.
    pub fn go_on_columns(&mut self, alloc: Global) -> Result<Option<Vec<Priced>>, AllocError> {
        self.make(alloc)?;
        Ok(Some(self.priced(alloc)?))
    }

    /// A want, and what the best plan of a bar with one piece of it or more is worth.
    fn offer(&self, entry: &Entry, spans: u32) -> Option<(u32, usize)> {
        let rest = spans.checked_sub(entry.item.step)?;
        let worth = self.best(rest).checked_add(entry.item.gain)?;
        Some((worth, entry.want))
    }

    /// Further plans of a bar by the table that was made last, each the best with a piece of
    /// another want, at most so many: those worth most first. None where the rows of its wants
    /// aren't all kept.
    pub fn more_columns(
        &self,
        alloc: Global,
        size: usize,
        most: usize,
    ) -> Result<Vec<Vec<u32>>, AllocError> {
        let mut columns = Vec::new(alloc);
        if self.starts.len() != 1 {
            return Ok(columns);
        }
        let spans = self.bar_spans(size);
        let mut offers = Vec::new(alloc);
        for entry in self.entries.iter() {
            if let Some(offer) = self.offer(entry, spans) {
                offers.push(offer)?;
            }
        }
        offers.sort()?;
        for (_, want) in offers.iter().rev().take(most) {
            let mut counts = no_counts(alloc, self.lengths.len())?;
            let rest = spans.saturating_sub(self.piece_spans(*want));
            self.take_part(alloc, rest, &mut counts)?;
            if let Some(count) = counts.get_mut(*want) {
                *count = count.saturating_add(1);
            }
            columns.push(few(counts))?;
        }
        Ok(columns)
    }

    /// Asks for a plan of one bar, by the worths of the wants, of which so many are left.
    pub fn begin_unit(
        &mut self,
        alloc: Global,
        size: usize,
        worths: &[u32],
        left: &[u32],
    ) -> Result<(), AllocError> {
        let whole = self.bar_spans(size);
        self.begin(alloc, whole, worths, left)
    }

    /// The plan of one bar.
    pub fn go_on_unit(&mut self, alloc: Global) -> Result<Option<Filled>, AllocError> {
        self.make(alloc)?;
        let mut spans = vec![in alloc; self.asked.whole]?;
        let mut counts = vec![in alloc; no_counts(alloc, self.lengths.len())?]?;
        self.take(alloc, &mut spans, &mut counts)?;
        let counts = counts.pop().unwrap_or(Vec::new(alloc));
        Ok(Some(Filled {
            counts: few(counts),
            plan: 0,
        }))
    }

    /// The pieces of counts, the longest first: demand and length of each, until the bar is full.
    fn pieces_of(
        &self,
        alloc: Global,
        bar: u32,
        counts: &[u32],
    ) -> Result<Vec<(u32, u32, u32)>, AllocError> {
        let mut order = Vec::new(alloc);
        for (length, (demand, count)) in self.lengths.iter().zip(self.demands.iter().zip(counts)) {
            if *count > 0 {
                order.push((*length, *demand, *count))?;
            }
        }
        order.sort()?;
        let mut pieces = Vec::new(alloc);
        let mut rest = bar;
        for (length, demand, count) in order.iter().rev() {
            for _ in 0..(*count).min(MAX_CUTS) {
                if *length > rest {
                    break;
                }
                pieces.push((rest, *length, *demand))?;
                rest = rest.saturating_sub(*length).saturating_sub(self.kerf);
            }
        }
        Ok(pieces)
    }

    /// The tree of the counts' pieces on a bar of the size, cut off one after the other. None where
    /// there are too many, or no such bar.
    pub fn node(
        &self,
        alloc: Global,
        size: usize,
        counts: &[u32],
    ) -> Result<Option<Node>, AllocError> {
        let Some(bar) = self.bars.get(size) else {
            return Ok(None);
        };
        let pieces = self.pieces_of(alloc, *bar, counts)?;
        if pieces.len() > MAX_CUTS as usize {
            return Ok(None);
        }
        let mut node = Node::Rest;
        for (rest, length, demand) in pieces.iter().rev() {
            node = cut_off(alloc, *rest, *length, self.kerf, *demand, node)?;
        }
        Ok(Some(node))
    }
}

/// A piece that is cut off what is left of a bar, and what comes after it.
fn cut_off(
    alloc: Global,
    rest: u32,
    length: u32,
    kerf: u32,
    demand: u32,
    after: Node,
) -> Result<Node, AllocError> {
    let piece = Node::Piece(demand, false);
    if rest <= length {
        return Ok(piece);
    }
    let first = Box::new(alloc, piece)?;
    if rest - length <= kerf {
        return Ok(Node::Trim(Axis::X, length, first));
    }
    let second = Box::new(alloc, after)?;
    Ok(Node::Cut(Axis::X, length, first, second))
}

/// The counts without what is more than the pieces that a plan may have.
fn few(counts: Vec<u32>) -> Vec<u32> {
    let mut few = counts;
    let mut rest = MAX_CUTS;
    for count in few.iter_mut() {
        *count = (*count).min(rest);
        rest -= *count;
    }
    few
}
