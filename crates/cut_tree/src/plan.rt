//! A plan: a legal cutting tree on the sides of a unit, under the kerf of a saw.

ghost use Rattle.std.specs.Prelude.{ℕ, ◌↔◌, IsTrue, All, sum_by, OnOk, ◌≡◌, ◌≤◌, ◌<◌, ◌++◌, IfOk, IfErr, MatchResult, is_ok, if◌then◌else◌, string_bytes};
ghost use Rattle.cut_tree.specs.Tree.{Tree, cut_count, count_of, leaf_sum};
ghost use Rattle.cut_tree.specs.declared.token.Cause.TheVariants.{NoMemory};
ghost use Rattle.cut_tree.specs.Spelling.{text_of, IsSpelling, IsFirstFault};
ghost use Rattle.cut_tree.specs.Laying.{IsLaid};
ghost use Rattle.cut_tree.specs.Nodes.{tree_of};
ghost use Rattle.cut_tree.specs.Patterns.{IsPlan};
ghost use Rattle.cut_tree.specs.Stepping.{AreSteps};
ghost use Rattle.cut_tree.specs.Leaves.{leaves_of};
ghost use Rattle.cut_tree.specs.Bars.{IsBarPiece, bar_length, bar_tree, IsBarFault};
ghost use Rattle.cut_tree.specs.Stops.{can_save, outcome_of, IsStopOf, AreDone, Allows};

use crate::bars::{BarFault, bar_root};
use crate::halts::{Halt, Stop, are_closed, is_among, rise};
use crate::lay::{Rect, Row, lay_node};
use crate::leaves::{Leaf, add_leaves};
use crate::node::{Node, count_cuts, count_pieces, is_same};
use crate::read::{SpellFault, after, read_node, words_of};
use crate::saved::{cut_side, is_split, lost_cut};
use crate::steps::{Step, step_node};
use crate::token::{Cause, MAX_CUTS, Sides};
use crate::write::write_node;
use cut_measure::{MAX_KERF, Size};
use std::alloc::{AllocError, Global};
use std::marker::Model;
use std::rc::Rc;

/// A cutting tree on a unit's size, under a saw's kerf. It follows the rule of cuts, has at most 255 of them, and its
/// demands are 1 to 2147483647. Its nodes never change, so a plan and its copies
/// share them.
#[derive(Drop)]
pub struct Plan {
    root: Rc<Node>,
    size: Size,
    kerf: u32,
}

impl Model for Plan {
    ghost use Rattle.cut_tree.specs.Patterns.{Pattern, pattern_code};

    ghost Value = { Pattern };

    ghost coded = { pattern_code };

    ghost use Rattle.cut_tree.specs.Views.{pattern_of, StandsForPlan};

    ghost view = { pattern_of };

    ghost invariant = { StandsForPlan };
}

impl Plan {
    /// The plan that a text spells on a unit of this size, under a kerf of at most 200; else the text's first fault.
    pub fn read(alloc: Global, text: &str, size: Size, kerf: u32) -> Result<Plan, SpellFault>
        requires { kerf ≤ MAX_KERF }
        ensures spelled { IfOk result (λ plan. IsSpelling text.now plan.tree size.w size.h kerf) }
        ensures unit { IfOk result
            (λ plan. (plan.w ≡ size.w) × (plan.h ≡ size.h) × (plan.kerf ≡ kerf)) }
        ensures only { (t : Tree) → IsSpelling text.now t size.w size.h kerf
            → cut_count t ≤ MAX_CUTS
            → MatchResult result (λ plan. plan.tree ≡ t) (λ f. f.cause ≡ NoMemory) }
        ensures fault { IfErr result
            (λ f. IsFirstFault text.now size.w size.h kerf f.token f.cause) }
    {
        Plan::parse(alloc, text, size, kerf)
    }

    fn parse(alloc: Global, text: &str, size: Size, kerf: u32) -> Result<Plan, SpellFault>
        requires { kerf ≤ MAX_KERF }
        ensures spelled { IfOk result (λ plan. IsSpelling text.now plan.tree size.w size.h kerf) }
        ensures unit { IfOk result
            (λ plan. (plan.w ≡ size.w) × (plan.h ≡ size.h) × (plan.kerf ≡ kerf)) }
        ensures fault { IfErr result
            (λ f. IsFirstFault text.now size.w size.h kerf f.token f.cause) }
    {
        let Ok(words) = words_of(alloc, text) else {
            return Err(SpellFault {
                token: 0,
                cause: Cause::NoMemory,
            });
        };
        let words = words.as_slice();
        let sides = Sides {
            w: size.w(),
            h: size.h(),
        };
        let read = read_node(alloc, words, 0, 0, sides, kerf)?;
        if read.next < words.len() {
            return Err(after(words, read.next));
        }
        match Plan::of(alloc, read.node, size, kerf) {
            Ok(plan) => Ok(plan),
            Err(_) => Err(SpellFault {
                token: 0,
                cause: Cause::NoMemory,
            }),
        }
    }

    /// Appends the plan's text, or leaves the string as it was.
    pub fn write(&self, out: &mut String) -> Result<(), AllocError>
        ensures { string_bytes out.new
            ≡ (if is_ok result then string_bytes out.old ++ text_of self.now.tree
            else string_bytes out.old) }
    {
        let mut text = String::new(*out.allocator());
        write_node(&self.root, &mut text)?;
        out.push_str(text.as_str())
    }

    /// The sides of the unit that it is for.
    pub fn size(&self) -> Size
        ensures { result ≡ record { w = self.now.w; h = self.now.h } }
    {
        self.size
    }

    /// The kerf under which it cuts: 0 to 200.
    pub fn kerf(&self) -> u32
        ensures { result ≡ self.now.kerf }
    {
        self.kerf
    }

    /// How many cuts the plan has.
    pub fn cuts(&self) -> u32
        ensures count { result ≡ cut_count self.now.tree }
        ensures few { result ≤ MAX_CUTS }
        ensures kept { IsPlan self.now }
    {
        count_cuts(&self.root)
    }

    /// Looks at a plan, which so is known to keep a plan's rules.
    pub fn see(&self)
        ensures few { cut_count self.now.tree ≤ MAX_CUTS }
        ensures kept { IsPlan self.now }
    {
        let _root = &self.root;
    }

    /// How many pieces of a demand the plan has.
    pub fn count(&self, demand: u32) -> u32
        ensures { result ≡ count_of self.now.tree demand }
    {
        count_pieces(&self.root, demand)
    }

    /// The same plan. Its nodes are shared, so the allocator isn't asked.
    pub fn copy(&self, _alloc: Global) -> Result<Plan, AllocError>
        ensures { IfOk result (λ copy. copy ≡ self.now) }
    {
        self.clone()
    }

    /// Whether two plans are the same: tree, size and kerf.
    pub fn is(&self, other: &Plan) -> bool
        ensures { IsTrue result ↔ (self.now ≡ other.now) }
    {
        self.size == other.size && self.kerf == other.kerf && is_same(&self.root, &other.root)
    }

    /// One step for each node in the order of the nodes, with its whole rectangle.
    pub fn steps(&self, alloc: Global) -> Result<Vec<Step>, AllocError>
        ensures { IfOk result (λ steps.
            AreSteps self.now.tree self.now.w self.now.h self.now.kerf steps.items) }
    {
        let mut steps = Vec::new(alloc);
        let rect = Rect {
            x: 0,
            y: 0,
            w: self.size.w(),
            h: self.size.h(),
        };
        step_node(&self.root, rect, self.kerf, 0, &mut steps)?;
        Ok(steps)
    }

    /// The piece leaves in the order of the nodes.
    pub fn leaves(&self, alloc: Global) -> Result<Vec<Leaf>, AllocError>
        ensures { IfOk result (λ leaves. leaves.items
            ≡ leaves_of self.now.tree self.now.w self.now.h self.now.kerf) }
    {
        let mut leaves = Vec::new(alloc);
        let rect = Rect {
            x: 0,
            y: 0,
            w: self.size.w(),
            h: self.size.h(),
        };
        add_leaves(&self.root, rect, self.kerf, &mut leaves)?;
        Ok(leaves)
    }

    // Whether the work can have halted after these cuts, the lost one going wrong.
    fn allows_listed(&self, cuts: &[u32], lost: Option<u32>) -> bool
        ensures { IsTrue result ↔ AreDone self.now.tree cuts.now lost }
    {
        let count = self.cuts();
        rise(cuts)
            && cuts.iter().all(|cut| *cut < count)
            && cuts.len() < count as usize
            && lost.is_none_or(|cut| cut < count && !is_among(cuts, cut))
            && are_closed(&self.root, 0, cuts, lost)
    }

    /// Whether the work on the plan can have halted so. The first cuts have to be fewer than all. Listed cuts have to be
    /// strictly rising numbers of cuts of the plan, not all of them, each with every cut above it; and a lost cut one of
    /// the plan's that isn't listed, with every cut above it listed.
    pub fn allows(&self, halt: &Halt) -> bool
        ensures { IsTrue result ↔ Allows self.now.tree halt.now }
    {
        match halt {
            Halt::First { cuts, .. } => *cuts < self.cuts(),
            Halt::Listed { cuts, lost } => self.allows_listed(cuts.as_slice(), *lost),
        }
    }

    /// Whether a cut that went wrong is one of the plan's, and a rest of the side that it was to divide is some of it, and
    /// not all.
    pub fn can_save(&self, halt: &Halt, rest: u32) -> bool
        ensures { result ≡ can_save self.now halt.now rest }
    {
        let Some(cut) = lost_cut(halt) else {
            return false;
        };
        let rect = Rect {
            x: 0,
            y: 0,
            w: self.size.w(),
            h: self.size.h(),
        };
        match cut_side(&self.root, rect, self.kerf, 0, cut) {
            Some(side) => is_split(rest, side),
            None => false,
        }
    }

    /// The rectangles into which the unit falls once the work ended so, and what each belongs to, by rising nodes. Where
    /// it halted, the plan allows the halt.
    pub fn lay(&self, alloc: Global, stop: Stop) -> Result<Vec<Row>, AllocError>
        requires { IsStopOf self.now.tree stop }
        ensures { IfOk result (λ rows. IsLaid self.now.tree self.now.w self.now.h self.now.kerf
            (outcome_of stop) rows.items) }
    {
        self.lay_as(alloc, &stop)
    }

    /// The same for a stop that is used again.
    pub fn lay_as(&self, alloc: Global, stop: &Stop) -> Result<Vec<Row>, AllocError>
        requires { IsStopOf self.now.tree stop.now }
        ensures { IfOk result (λ rows. IsLaid self.now.tree self.now.w self.now.h self.now.kerf
            (outcome_of stop.now) rows.items) }
    {
        let mut rows = Vec::new(alloc);
        let rect = Rect {
            x: 0,
            y: 0,
            w: self.size.w(),
            h: self.size.h(),
        };
        lay_node(&self.root, rect, self.kerf, stop, 0, 0, &mut rows)?;
        Ok(rows)
    }
}

impl Plan {
    /// The plan of these nodes on a unit of this size, under this kerf.
    pub fn of(alloc: Global, root: Node, size: Size, kerf: u32) -> Result<Plan, AllocError>
        requires { IsPlan (record { tree = tree_of root; w = size.w; h = size.h; kerf = kerf }) }
        ensures { IfOk result (λ plan. plan
            ≡ record { tree = tree_of root; w = size.w; h = size.h; kerf = kerf }) }
    {
        let root = Rc::new(alloc, root)?;
        Ok(Plan { root, size, kerf })
    }
}

/// The same plan, whose nodes are shared.
impl Clone for Plan {
    ghost use Rattle.std.specs.Prelude.{◌≡◌};

    ghost is_clone = { λ s t. t ≡ s };

    fn clone(&self) -> Result<Plan, AllocError> {
        let root = Rc::clone(&self.root)?;
        Ok(Plan {
            root,
            size: self.size,
            kerf: self.kerf,
        })
    }
}

/// Two plans are equal exactly where their trees, sizes and kerfs are.
impl PartialEq for Plan {
    ghost use Rattle.std.specs.Prelude.{◌≡◌, ◌↔◌, IsTrue};
    ghost use Rattle.cut_tree.specs.SamePatterns.{same_pattern, same_pattern_laws};

    ghost eq = { same_pattern };

    ghost laws = { same_pattern_laws };

    fn eq(&self, other: &Plan) -> bool
        ensures test { result ≡ same_pattern self.now other.now }
        ensures same { IsTrue result ↔ (self.now ≡ other.now) }
    {
        self.is(other)
    }
}

/// The plan of a bar from which pieces, each a demand and a length of at least 1, are cut off in the list's order. A
/// last piece that fills its part needs no cut, and what is left is a rest. The faults come in the order of `BarFault`.
pub fn bar_plan(
    alloc: Global,
    size: Size,
    kerf: u32,
    pieces: &[(u32, u32)],
) -> Result<Plan, BarFault>
    requires bar { size.h ≡ 1 }
    requires narrow { kerf ≤ MAX_KERF }
    requires pieces { All IsBarPiece pieces.now }
    ensures tree { IfOk result (λ plan. plan.tree ≡ bar_tree pieces.now size.w kerf) }
    ensures unit { IfOk result
        (λ plan. (plan.w ≡ size.w) × (plan.h ≡ size.h) × (plan.kerf ≡ kerf)) }
    ensures fits { OnOk result (bar_length pieces.now kerf ≤ size.w) }
    ensures sums { IfOk result
        (λ plan. (f : ℕ → ℕ) → leaf_sum f plan.tree ≡ sum_by (λ p. f p.0) pieces.now) }
    ensures fault { IfErr result (λ fault. IsBarFault fault pieces.now size.w kerf) }
{
    let root = bar_root(alloc, size.w(), kerf, pieces)?;
    let _height = size.h();
    match Plan::of(alloc, root, size, kerf) {
        Ok(plan) => Ok(plan),
        Err(_) => Err(BarFault::NoMemory),
    }
}
