//! The demands of a plan as its pieces are reserved, made or set free.

ghost use Rattle.std.specs.Prelude.{◌≡◌, ◌≢◌, IfOk, IsTrue, ℕ, Option, OnOk, All, ◌<◌, ◌^◌, Any, false};
ghost use Rattle.cut_tree.specs.Counting.{is_demand_piece};
ghost use Rattle.cut_tree.specs.Tree.{count_of};
ghost use Rattle.shop_records.specs.declared.records.Demand.{Demand as DemandOf};
ghost use Rattle.shop_machine.specs.Recounts.{AreRecounted, plan_leaves, AreDemandsFound, leaves_in, recount_by, CanRecount, HasRow, IsAddedOnce, IsAlike, pieces_in};

use cut_tree::{Leaf, Owner, Plan, Row};
use shop_records::{Demand, DemandList};
use std::alloc::{AllocError, Global};

/// A piece leaf of a plan, with the row of its demand.
#[derive(Clone, Copy, Debug)]
pub struct FoundLeaf {
    pub leaf: Leaf,
    pub demand: Option<Demand>,
}

/// Whether a later leaf names the same demand, with the same row, so that a judgement of that one is one of both.
pub fn stands_again(found: &FoundLeaf, later: &[FoundLeaf]) -> bool
    ensures { IsTrue result → Any (IsAlike found.now) later.now }
{
    later.iter().any(|other| other.leaf.demand == found.leaf.demand && other.demand == found.demand)
}

/// How a plan counts for a demand.
#[derive(Clone, Copy)]
pub enum Recount<'a> {
    /// Its pieces are reserved.
    Reserved,
    /// They are no longer reserved, and those that these rows lay are made.
    Laid(&'a [Row]),
    /// They are free again.
    Freed,
    /// Those that these rows lay aren't made any more.
    Unmade(&'a [Row]),
}

/// A number of 32 bits as one of 64.
pub fn wide(n: u32) -> u64
    ensures value { result ≡ n }
    ensures range { result < 2 ^ 32 }
{
    u64::from(n)
}

// Whether a laid rectangle is a piece of a demand.
fn is_piece(owner: Owner, demand: u32) -> bool
    ensures { result ≡ is_demand_piece demand owner }
{
    match owner {
        Owner::Piece(of) => of == demand,
        Owner::Rest | Owner::Kerf | Owner::Uncut | Owner::Lost => false,
    }
}

/// How many of the laid rows are pieces of a demand.
pub(crate) fn pieces_in(rows: &[Row], demand: u32) -> usize
    ensures { result ≡ pieces_in demand rows.now }
{
    rows.iter()
        .filter(|row| is_piece(row.owner, demand))
        .count()
}

fn recounted(how: Recount, count: u32, demand: &Demand) -> Demand
    requires { CanRecount how count demand.now }
    ensures { result ≡ recount_by how.entry count demand.now }
{
    match how {
        Recount::Reserved => Demand {
            reserved: demand.reserved + count,
            ..*demand
        },
        Recount::Laid(rows) => Demand {
            reserved: demand.reserved - count,
            made: demand.made + pieces_in(rows, demand.number) as u32,
            ..*demand
        },
        Recount::Freed => Demand {
            reserved: demand.reserved - count,
            ..*demand
        },
        Recount::Unmade(rows) => Demand {
            made: demand.made - pieces_in(rows, demand.number) as u32,
            ..*demand
        },
    }
}

// Whether a row has the number.
fn has_number(rows: &[Demand], number: u32) -> bool
    ensures yes { IsTrue result → Any (λ row. row.number ≡ number) rows.now }
    ensures no { result ≡ false → All (λ row. row.number ≢ number) rows.now }
{
    rows.iter().any(|row| row.number == number)
}

// Puts the row of a demand after the others, recounted by its pieces in a plan, unless one of its number is there.
fn add_once(
    rows: &mut DemandList,
    how: Recount,
    plan: &Plan,
    of: u32,
    demand: &Demand,
) -> Result<(), AllocError>
    requires { CanRecount how (count_of plan.now.tree of) demand.now }
    ensures { OnOk result (IsAddedOnce rows.old
        (recount_by how.entry (count_of plan.now.tree of) demand.now) rows.new) }
{
    if has_number(rows.as_slice(), demand.number) {
        return Ok(());
    }
    let count = plan.count(of);
    rows.push(recounted(how, count, demand))
}

/// The rows of a plan's demands, each once, recounted.
pub fn recounted_rows(
    alloc: Global,
    how: Recount,
    plan: &Plan,
    leaves: &[FoundLeaf],
) -> Result<DemandList, AllocError>
    requires leaves { leaves_in leaves.now ≡ plan_leaves plan.now }
    requires found { All (HasRow (CanRecount how) plan.now.tree) leaves.now }
    ensures { IfOk result (λ rows. (at : ℕ → Option DemandOf) → AreDemandsFound at leaves.now
        → AreRecounted at (recount_by how.entry) plan.now.tree rows) }
{
    let mut rows = DemandList::new(alloc);
    for found in leaves {
        let Some(demand) = &found.demand else {
            unreachable!()
        };
        add_once(&mut rows, how, plan, found.leaf.demand, demand)?;
    }
    Ok(rows)
}
