//! The pieces of an order, of units of a batch and of a unit, from a ledger's rows.

ghost use Rattle.std.specs.Prelude.{◌≡◌, [], ◌∷◌, ◌++◌, ◌≤◌, ◌==◌, IfOk, IsTrue, OnOk, filter, length, take};
ghost use Rattle.cut_measure.specs.Names.{Name};
ghost use Rattle.shop_records.specs.Columns.{is_piece};
ghost use Rattle.shop_records.specs.Lists.{demand_for, is_after, is_from, pieces_after};
ghost use Rattle.shop_records.specs.Same.{same_name};
ghost use Rattle.shop_records.specs.declared.pieces.PieceSource.TheVariants as source;
ghost use Rattle.shop_records.specs.declared.records.Part.{Part as PartOf};
ghost use Rattle.shop_rows.specs.PartRows.{parts_in};
ghost use Rattle.shop_book.specs.Ledgers.{content_in};
ghost use Rattle.shop_book.specs.Filing.{first_left, PassesNone};
ghost use Rattle.shop_book.specs.Pieces.{is_asked, HaveLinesOf, MadePiece};

use crate::known_orders::rows_with;
use crate::ledger::Ledger;
use cut_measure::{Code, PartName};
use shop_records::{Demand, Part, PartList, PieceSource, State};
use shop_rows::find;
use std::alloc::{AllocError, Global};

/// Which pieces are asked for, after which name, and how many at most.
#[derive(Clone, Copy, Debug)]
pub struct Asked {
    pub(crate) of: PieceSource,
    pub(crate) after: Option<PartName>,
    pub(crate) most: usize,
}

// Whether two names are one.
fn is_same(a: PartName, b: PartName) -> bool
    ensures { result ≡ same_name a b }
{
    a.act() == b.act() && a.node() == b.node()
}

// Whether a name comes after another one, or there is no other.
fn is_after(after: Option<PartName>, name: PartName) -> bool
    ensures { result ≡ is_after after name }
{
    match after {
        None => true,
        Some(after) => after.order(&name).is_lt(),
    }
}

// The last act before that of a name, if there is a name: the acts up to it made no part after the name.
fn act_before(after: Option<PartName>) -> Option<u32>
    ensures { (name : Name) → IsTrue (is_after after name) → first_left result ≤ name.act }
{
    match after {
        None => None,
        Some(name) => Some(name.act() - 1),
    }
}

// Appends a part, unless there are so many.
fn push_within(rows: &mut PartList, part: &Part, most: usize) -> Result<(), AllocError>
    requires { length rows.old ≤ most }
    ensures { OnOk result (rows.new ≡ take most (rows.old ++ part.now ∷ [])) }
{
    if rows.as_slice().len() >= most {
        return Ok(());
    }
    rows.push(*part)
}

// Whether a part in this state is a piece.
fn is_piece(state: State) -> bool
    ensures { result ≡ is_piece state }
{
    match state {
        State::Piece(_) => true,
        State::Standing
        | State::Reserved(_)
        | State::Cut(_)
        | State::Kerf
        | State::Scrap
        | State::Returned
        | State::Undone(_) => false,
    }
}

impl Ledger {
    // The demand whose piece a part is.
    fn demand_for(&self, part: &Part) -> Option<Demand>
        ensures { result ≡ demand_for (content_in self.now) part.now }
    {
        match part.state {
            State::Piece(demand) => find(&self.demands, demand),
            State::Standing
            | State::Reserved(_)
            | State::Cut(_)
            | State::Kerf
            | State::Scrap
            | State::Returned
            | State::Undone(_) => None,
        }
    }

    // Whether a part is a piece of an order.
    fn is_of_order(&self, order: &Code, part: &Part) -> bool
        ensures { result ≡ is_from (content_in self.now) (source.Order order.now) part.now }
    {
        match self.demand_for(part) {
            Some(demand) => demand.order.order(order).is_eq(),
            None => false,
        }
    }

    // Whether a part is a piece of the order, of a unit of the batch, or of the unit.
    fn is_from(&self, of: &PieceSource, part: &Part) -> bool
        ensures { result ≡ is_from (content_in self.now) of.now part.now }
    {
        match of {
            PieceSource::Order(order) => self.is_of_order(order, part),
            PieceSource::Batch(batch) => is_piece(part.state) && part.batch.order(batch).is_eq(),
            PieceSource::Unit(unit) => is_piece(part.state) && is_same(part.root, *unit),
        }
    }

    // Whether a part is a piece that is asked for.
    fn is_asked(&self, asked: &Asked, part: &Part) -> bool
        ensures { result ≡ is_asked (content_in self.now) asked.now part.now }
    {
        self.is_from(&asked.of, part) && is_after(asked.after, part.name)
    }

    // Appends a part if it is a piece that is asked for, unless there are so many.
    fn push_asked(&self, rows: &mut PartList, asked: &Asked, part: &Part) -> Result<(), AllocError>
        requires { length rows.old ≤ asked.now.most }
        ensures { OnOk result (rows.new ≡ take asked.now.most
            (rows.old ++ filter (is_asked (content_in self.now) asked.now) (part.now ∷ []))) }
    {
        if !self.is_asked(asked, part) {
            return Ok(());
        }
        push_within(rows, part, asked.most)
    }

    // Appends the pieces that are asked for of those that an act made, unless there are so many.
    fn push_act(
        &self,
        alloc: Global,
        rows: &mut PartList,
        asked: &Asked,
        act: u32,
    ) -> Result<(), AllocError>
        requires { length rows.old ≤ asked.now.most }
        ensures { OnOk result (rows.new ≡ take asked.now.most
            (rows.old ++ filter (is_asked (content_in self.now) asked.now)
            (filter (λ (part : PartOf). part.name.act == act) (parts_in self.now.parts)))) }
    {
        let parts = self.parts.named(alloc, act)?;
        for part in parts.as_slice() {
            self.push_asked(rows, asked, part)?;
        }
        Ok(())
    }

    // Demands among which all of the order lie, where pieces of an order are asked for.
    fn lines_for(&self, of: &PieceSource) -> &[Demand]
        ensures { HaveLinesOf of.now self.now.demands.items result.now }
    {
        match of {
            PieceSource::Order(order) => {
                rows_with(self.strays, &self.orders, &self.demands, *order)
            }
            PieceSource::Batch(_) | PieceSource::Unit(_) => &[],
        }
    }

    // The first act after the last one that may have made such pieces.
    fn next_made(&self, of: &PieceSource, lines: &[Demand], last: Option<u32>) -> Option<u32>
        requires { HaveLinesOf of.now self.now.demands.items lines.now }
        ensures { PassesNone (MadePiece (content_in self.now) (parts_in self.now.parts) of.now) last result }
    {
        match of {
            PieceSource::Order(order) => self.pieces.order_act(lines, *order, last),
            PieceSource::Batch(batch) => self.pieces.next_of(*batch, last),
            PieceSource::Unit(unit) => self.pieces.next_in(*unit, last),
        }
    }

    // The pieces that are asked for.
    fn asked_pieces(&self, alloc: Global, asked: &Asked) -> Result<PartList, AllocError>
        ensures { IfOk result (λ rows. rows ≡ take asked.now.most
            (filter (is_asked (content_in self.now) asked.now) (parts_in self.now.parts))) }
    {
        let lines = self.lines_for(&asked.of);
        let mut rows = PartList::new(alloc);
        let mut last = act_before(asked.after);
        while rows.as_slice().len() < asked.most {
            let Some(act) = self.next_made(&asked.of, lines, last) else {
                return Ok(rows);
            };
            self.push_act(alloc, &mut rows, asked, act)?;
            last = Some(act);
        }
        Ok(rows)
    }

    /// The first pieces of an order, of units of a batch or of a unit whose names come after a name, by rising act and then node:
    /// at most so many.
    pub fn first_pieces(
        &self,
        alloc: Global,
        of: PieceSource,
        after: Option<PartName>,
        most: usize,
    ) -> Result<PartList, AllocError>
        ensures { IfOk result
            (λ rows. rows ≡ take most (pieces_after (content_in self.now) of after)) }
    {
        let asked = Asked { of, after, most };
        let rows = self.asked_pieces(alloc, &asked)?;
        Ok(rows)
    }
}
