//! What holds of all files: a text has one first fault, and none that is spelled has a fault.

ghost use Rattle.std.specs.Prelude.{◌≡◌, ℕ, List};
ghost use Rattle.cut_measure.specs.Measures.{Size};
ghost use Rattle.shop_files.specs.Problems.{IsProblem, IsProblemFault};
ghost use Rattle.shop_files.specs.Orders.{IsOrders, IsOrdersFault};
ghost use Rattle.shop_files.specs.Shops.{IsShopFile, IsShopFault};
ghost use Rattle.shop_files.specs.declared.problems.Piece.{Piece};
ghost use Rattle.shop_files.specs.declared.problems.TextCause.{TextCause};
ghost use Rattle.shop_files.specs.declared.problems.TextCause.TheVariants as problem;
ghost use Rattle.shop_files.specs.declared.orders.OrderLine.{OrderLine};
ghost use Rattle.shop_files.specs.declared.shops.MaterialEntry.{MaterialEntry};
ghost use Rattle.shop_files.specs.declared.shops.ShopFault.{ShopFault};
ghost use Rattle.shop_files.specs.declared.shops.ShopFault.TheVariants as shop;

/// Want of memory aside, a text has one first fault: two that a definition allows are one. No text is both spelled and
/// faulty.
pub fn one_first_fault()
    ensures one_problem_fault { (text : List ℕ) (m n : ℕ) (a b : TextCause)
        → (a ≡ problem.NoMemory → ⊥) → (b ≡ problem.NoMemory → ⊥)
        → IsProblemFault text m a → IsProblemFault text n b → (m ≡ n) × (a ≡ b) }
    ensures spelled_problem { (text : List ℕ) (size : Size) (pieces : List Piece) (offset : ℕ)
        (cause : TextCause)
        → IsProblem text size pieces → IsProblemFault text offset cause → cause ≡ problem.NoMemory }
    ensures one_orders_fault { (text : List ℕ) (row field other place : ℕ)
        → IsOrdersFault text row field → IsOrdersFault text other place → (row ≡ other)
        × (field ≡ place) }
    ensures spelled_orders { (text : List ℕ) (lines : List OrderLine) (row field : ℕ)
        → IsOrders text lines → IsOrdersFault text row field → ⊥ }
    ensures one_shop_fault { (text : List ℕ) (a b : ShopFault) → (a ≡ shop.NoMemory → ⊥)
        → (b ≡ shop.NoMemory → ⊥)
        → IsShopFault text a → IsShopFault text b → a ≡ b }
    ensures spelled_shop { (text : List ℕ) (entries : List MaterialEntry) (fault : ShopFault)
        → IsShopFile text entries → IsShopFault text fault → fault ≡ shop.NoMemory }
{}
