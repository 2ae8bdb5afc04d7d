//! Rows that a decision needs, found in a book: those of a plan's leaves, of an order's lines and of demands.

ghost use Rattle.std.specs.Prelude.{◌≡◌, ◌≤◌, IfOk, IfSome, All, None, Some, OnOk, ◌++◌, ◌∷◌, []};
ghost use Rattle.cut_tree.specs.Tree.{Tree, cut_count};
ghost use Rattle.cut_tree.specs.Spelling.{IsSpelling};
ghost use Rattle.cut_measure.specs.Names.{Name};
ghost use Rattle.shop_records.specs.declared.messages.Command.TheVariants.{Reserve};
ghost use Rattle.shop_records.specs.Readings.{reading_of};
ghost use Rattle.shop_records.specs.Content.{Content, material_at, part_at, demand_at, material_of, totals_for};
ghost use Rattle.shop_machine.specs.Machine.{Reads};
ghost use Rattle.shop_machine.specs.Recounts.{plan_leaves, AreDemandsFound, IsNumbered, leaves_in};
ghost use Rattle.shop_machine.specs.Ordering.{AreMaterialsFound, lines_in};
ghost use Rattle.shop_answers.specs.Planning.{AreAsked, AreFound, numbers_in};
ghost use Rattle.shop_forms.specs.Forms.{json_texts};
ghost use Rattle.shop_book.specs.Failures.{CountsFailure};
ghost use Rattle.shop_book.specs.Kept.{Unchanged, OnContent};

use cut_tree::{Cause, Leaf, Plan};
use shop_book::{Book, BookFault};
use shop_machine::FoundLeaf;
use shop_machine::ordering::FoundLine;
use shop_rules::{
    Code, Demand, FoundDemand, FoundList, Material, OrderLine, Part, Totals, can_be_planned,
    no_totals,
};
use std::alloc::{AllocError, Global};

/// The material of a part that was found.
pub fn material_for<B: Book>(
    book: &mut B,
    part: &Option<Part>,
) -> Result<Option<Material>, BookFault>
    ensures row { OnContent B.Book book.old book.new
        (λ m. IfOk result (λ row. row ≡ material_of m part.now)) }
    ensures keeps { Unchanged B.Book (CountsFailure result) book.old book.new }
{
    match part {
        Some(part) => book.material(part.material),
        None => Ok(None),
    }
}

/// The totals of the material of a part that was found.
pub fn totals_for<B: Book>(book: &mut B, part: &Option<Part>) -> Result<Totals, BookFault>
    ensures row { OnContent B.Book book.old book.new
        (λ m. IfOk result (λ totals. totals ≡ totals_for m part.now)) }
    ensures keeps { Unchanged B.Book (CountsFailure result) book.old book.new }
{
    match part {
        Some(part) => book.totals(part.material),
        None => Ok(no_totals()),
    }
}

// The plan that a text spells on a part of this material, if it spells one.
fn read_plan(
    alloc: Global,
    part: &Part,
    material: &Material,
    tree: &str,
) -> Result<Option<Plan>, AllocError>
    ensures plan { IfOk result
        (λ read. IfSome read (λ plan. (plan.w ≡ part.now.size.w) × (plan.h ≡ part.now.size.h)
        × (plan.kerf ≡ material.now.limits.kerf)
        × IsSpelling tree.now plan.tree part.now.size.w part.now.size.h material.now.limits.kerf
        × (cut_count plan.tree ≤ 255))) }
    ensures none { IfOk result
        (λ read. read ≡ None → (t : Tree)
        → IsSpelling tree.now t part.now.size.w part.now.size.h material.now.limits.kerf
        → cut_count t ≤ 255 → ⊥) }
{
    match Plan::read(alloc, tree, part.size, material.limits.kerf()) {
        Ok(plan) => {
            plan.see();
            Ok(Some(plan))
        }
        Err(fault) => match fault.cause {
            Cause::NoMemory => Err(AllocError),
            _ => Ok(None),
        },
    }
}

/// The plan that the text of a reservation stands for: it is read where the part stands.
pub fn plan_for(
    alloc: Global,
    part: &Option<Part>,
    material: &Option<Material>,
    tree: &str,
) -> Result<Option<Plan>, AllocError>
    ensures { IfOk result (λ read. (m : Content) → (name : Name) → part.now ≡ part_at m name
        → material.now ≡ material_of m part.now
        → Reads json_texts m (Reserve name tree.now) (reading_of read)) }
{
    let (Some(part), Some(material)) = (part, material) else {
        return Ok(None);
    };
    if !part.state.is_free() {
        return Ok(None);
    }
    read_plan(alloc, part, material, tree)
}

fn push_leaf(
    found: &mut Vec<FoundLeaf>,
    leaf: Leaf,
    demand: Option<Demand>,
) -> Result<(), AllocError>
    ensures { OnOk result (found.new.items ≡ found.old.items
        ++ record { leaf = leaf; demand = demand } ∷ []) }
{
    found.push(FoundLeaf { leaf, demand })?;
    Ok(())
}

fn push_line(
    found: &mut Vec<FoundLine>,
    line: OrderLine,
    material: Option<Material>,
) -> Result<(), AllocError>
    ensures { OnOk result (found.new.items ≡ found.old.items
        ++ record { line = line; material = material } ∷ []) }
{
    found.push(FoundLine { line, material })?;
    Ok(())
}

// The row of a leaf's demand, after leaves with theirs: that of the first of them which names it, or else the book's.
fn demand_for<B: Book>(
    book: &mut B,
    found: &[FoundLeaf],
    number: u32,
) -> Result<Option<Demand>, BookFault>
    requires { All IsNumbered found.now }
    ensures row { OnContent B.Book book.old book.new
        (λ m. AreDemandsFound (demand_at m) found.now → IfOk result (λ row. row ≡ demand_at m number)) }
    ensures key { IfOk result (λ row. IfSome row (λ demand. demand.number ≡ number)) }
    ensures keeps { Unchanged B.Book (CountsFailure result) book.old book.new }
{
    match found.iter().find(|earlier| earlier.leaf.demand == number) {
        Some(earlier) => Ok(earlier.demand),
        None => book.demand(number),
    }
}

/// The piece leaves of a plan, with the rows of their demands, each of which is read once.
pub fn found_leaves<B: Book>(
    alloc: Global,
    book: &mut B,
    plan: &Plan,
) -> Result<Vec<FoundLeaf>, BookFault>
    ensures found { OnContent B.Book book.old book.new
        (λ m. IfOk result (λ found. AreDemandsFound (demand_at m) found.items)) }
    ensures leaves { IfOk result (λ found. leaves_in found.items ≡ plan_leaves plan.now) }
    ensures numbered { IfOk result (λ found. All IsNumbered found.items) }
    ensures keeps { Unchanged B.Book (CountsFailure result) book.old book.new }
{
    let leaves = plan.leaves(alloc)?;
    let mut found = Vec::new(alloc);
    for leaf in &leaves {
        let demand = demand_for(book, &found, leaf.demand)?;
        push_leaf(&mut found, *leaf, demand)?;
    }
    Ok(found)
}

fn push_demand(found: &mut FoundList, number: u32, demand: Option<Demand>) -> Result<(), AllocError>
    ensures { OnOk result (found.new ≡ found.old
        ++ record { number = number; demand = demand } ∷ []) }
{
    found.push(FoundDemand { number, demand })?;
    Ok(())
}

// The demands of these numbers, with their rows.
fn found_demands<B: Book>(
    alloc: Global,
    book: &mut B,
    numbers: &[u32],
) -> Result<FoundList, BookFault>
    ensures found { OnContent B.Book book.old book.new (λ m. IfOk result (AreFound (demand_at m))) }
    ensures numbers { IfOk result (λ found. numbers_in found ≡ numbers.now) }
    ensures keeps { Unchanged B.Book (CountsFailure result) book.old book.new }
{
    let mut found = FoundList::new(alloc);
    for number in numbers {
        let demand = book.demand(*number)?;
        push_demand(&mut found, *number, demand)?;
    }
    Ok(found)
}

/// The demands that a query names, with their rows; none where their numbers are no list that is planned.
pub fn demands_for<B: Book>(
    alloc: Global,
    book: &mut B,
    numbers: &[u32],
) -> Result<Option<FoundList>, BookFault>
    ensures asked { OnContent B.Book book.old book.new
        (λ m. IfOk result (AreAsked (demand_at m) numbers.now)) }
    ensures keeps { Unchanged B.Book (CountsFailure result) book.old book.new }
{
    if !can_be_planned(numbers) {
        return Ok(None);
    }
    let found = found_demands(alloc, book, numbers)?;
    Ok(Some(found))
}

// The row of a line's material, after lines with theirs: that of the first of them which names it, or else the book's.
fn material_of_line<B: Book>(
    book: &mut B,
    found: &[FoundLine],
    code: Code,
) -> Result<Option<Material>, BookFault>
    ensures row { OnContent B.Book book.old book.new
        (λ m. AreMaterialsFound (material_at m) found.now
        → IfOk result (λ row. row ≡ material_at m code)) }
    ensures keeps { Unchanged B.Book (CountsFailure result) book.old book.new }
{
    match found.iter().find(|earlier| earlier.line.material == code) {
        Some(earlier) => Ok(earlier.material),
        None => book.material(code),
    }
}

/// The lines of an order, with the rows of their materials, each of which is read once.
pub fn found_lines<B: Book>(
    alloc: Global,
    book: &mut B,
    lines: &[OrderLine],
) -> Result<Vec<FoundLine>, BookFault>
    ensures found { OnContent B.Book book.old book.new
        (λ m. IfOk result (λ found. AreMaterialsFound (material_at m) found.items)) }
    ensures lines { IfOk result (λ found. lines_in found.items ≡ lines.now) }
    ensures keeps { Unchanged B.Book (CountsFailure result) book.old book.new }
{
    let mut found = Vec::new(alloc);
    for line in lines {
        let material = material_of_line(book, &found, line.material)?;
        push_line(&mut found, *line, material)?;
    }
    Ok(found)
}
