//! The index of the acts that made pieces: under a demand, the batch of a unit and a unit.

ghost use Rattle.std.specs.Prelude.{◌≡◌, [], ◌∷◌, ◌≤◌, ℕ, IfSome, IsTrue, OnOk};
ghost use Rattle.std.specs.Option.{IsSomeAnd, option_to_list};
ghost use Rattle.shop_records.specs.Columns.{state_of};
ghost use Rattle.shop_book.specs.Filing.{first_left, is_filed_for, PassesNone, StaysFiled};
ghost use Rattle.shop_book.specs.Pieces.{AreFiled, IsFiled, IsFiledForOrder};

use crate::number_index::{NumberIndex, lesser};
use cut_measure::Code;
use shop_records::{Demand, Part, State};
use std::alloc::AllocError;

impl NumberIndex {
    // Files the act that made a piece of a demand.
    fn file_piece(&mut self, demand: u32, part: &Part) -> Result<(), AllocError>
        ensures filed { demand ≡ state_of part.now.state → OnOk result (IsFiled self.new part.now) }
        ensures stays { StaysFiled self.old self.new }
    {
        let act = part.name.act();
        self.file_for(demand, act)?;
        self.file_of(part.batch, act)?;
        self.file_in(part.root, act)
    }

    // Files the act that made a part, if that is a piece.
    fn file(&mut self, part: &Part) -> Result<(), AllocError>
        ensures filed { OnOk result (AreFiled self.new (part.now ∷ [])) }
        ensures stays { StaysFiled self.old self.new }
    {
        match part.state {
            State::Piece(demand) => self.file_piece(demand, part),
            State::Standing
            | State::Reserved(_)
            | State::Cut(_)
            | State::Kerf
            | State::Scrap
            | State::Returned
            | State::Undone(_) => Ok(()),
        }
    }

    /// Files the acts that made the pieces among parts.
    pub(crate) fn file_all(&mut self, parts: &[Part]) -> Result<(), AllocError>
        ensures filed { OnOk result (AreFiled self.new parts.now) }
        ensures stays { StaysFiled self.old self.new }
    {
        for part in parts {
            self.file(part)?;
        }
        Ok(())
    }

    /// Files the act that made a part, if there is one and it is a piece.
    pub(crate) fn file_moved(&mut self, part: &Option<Part>) -> Result<(), AllocError>
        ensures filed { OnOk result (AreFiled self.new (option_to_list part.now)) }
        ensures stays { StaysFiled self.old self.new }
    {
        match part {
            Some(part) => self.file(part),
            None => Ok(()),
        }
    }

    // The act so far, or an earlier one that is filed under a demand, if that is of the order.
    fn with_line(
        &self,
        first: Option<u32>,
        row: &Demand,
        order: &Code,
        last: Option<u32>,
    ) -> Option<u32>
        ensures first { (act : ℕ) → IsSomeAnd first (λ x. x ≤ act) → IsSomeAnd result (λ x. x ≤ act) }
        ensures own { row.now.order ≡ order.now → (act : ℕ) → first_left last ≤ act
            → IsTrue (is_filed_for self.now row.now.number act)
            → IsSomeAnd result (λ x. x ≤ act) }
        ensures left { IfSome first (λ x. first_left last ≤ x)
            → IfSome result (λ x. first_left last ≤ x) }
    {
        if !row.order.is(order) {
            return first;
        }
        lesser(first, self.next_for(row.number, last))
    }

    /// The first act after the last one that is filed under one of these demands that is of the order.
    pub(crate) fn order_act(&self, rows: &[Demand], order: Code, last: Option<u32>) -> Option<u32>
        ensures { PassesNone (IsFiledForOrder self.now rows.now order) last result }
    {
        let mut first = None;
        for row in rows {
            first = self.with_line(first, row, &order, last);
        }
        first
    }
}
