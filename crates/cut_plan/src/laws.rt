//! What holds of plans: each listed piece is one of the wants, and a sheet's plan of which nothing dropped is best.

ghost use Rattle.std.specs.Prelude.{◌≡◌, ℕ, ◌≤◌, List, All, None};
ghost use Rattle.cut_measure.specs.Measures.{Size};
ghost use Rattle.cut_measure.specs.declared.sizes.Kind.TheVariants.{Sheet};
ghost use Rattle.cut_tree.specs.Tree.{Tree};
ghost use Rattle.cut_tree.specs.Leaves.{leaves_of};
ghost use Rattle.cut_wants.specs.declared.wants.Want.{Want};
ghost use Rattle.cut_wants.specs.Legal.{Legal, IsWantedPiece, worth_of};
ghost use Rattle.cut_plan.specs.declared.sheets.SheetProposal.{SheetProposal};
ghost use Rattle.cut_plan.specs.Faults.{plan_fault};
ghost use Rattle.cut_plan.specs.Sheets.{IsSheetProposal};

/// Each piece leaf that a legal plan lists has the demand and the sides of a want, and is turned only where the want may
/// turn.
pub fn legal_pieces_are_listed()
    ensures { (wants : List Want) (k w h : ℕ) (t : Tree) → Legal wants k t w h
        → All (λ l. IsWantedPiece wants l.demand l.turned l.w l.h) (leaves_of t w h k) }
{}

/// A sheet's plan with step 1 of which nothing was dropped is a best one: it is worth its ceiling, and no legal plan, of
/// however many pieces, is worth more.
pub fn whole_plans_are_best()
    ensures ceiling { (size : Size) (k : ℕ) (wants : List Want) (p : SheetProposal)
        → plan_fault Sheet size k 1 wants ≡ None → IsSheetProposal size k 1 wants p → p.dropped ≡ 0
        → p.worth ≡ p.ceiling }
    ensures best { (size : Size) (k : ℕ) (wants : List Want) (p : SheetProposal)
        → plan_fault Sheet size k 1 wants ≡ None → IsSheetProposal size k 1 wants p → p.dropped ≡ 0
        → (t : Tree) → Legal wants k t size.w size.h → worth_of wants t ≤ p.worth }
{}
