//! Whether the work on jobs halted at the same places.

ghost use Rattle.std.specs.Prelude.{◌≡◌};
ghost use Rattle.std.specs.Bool.{Decides};
ghost use Rattle.shop_book.specs.Equal.{same_cuts, same_halt};

use cut_tree::Halt;
use shop_records::JobHalt;

// Whether the same cuts were made, and the same one went wrong.
fn same_cuts(a: &Halt, b: &Halt) -> bool
    ensures { result ≡ same_cuts a.now b.now }
{
    match a {
        Halt::First { cuts, lost } => match b {
            Halt::First {
                cuts: others,
                lost: other,
            } => *cuts == *others && *lost == *other,
            Halt::Listed { .. } => false,
        },
        Halt::Listed { cuts, lost } => match b {
            Halt::First { .. } => false,
            Halt::Listed {
                cuts: others,
                lost: other,
            } => cuts.as_slice() == others.as_slice() && *lost == *other,
        },
    }
}

/// Whether two halts are the same.
pub fn is_same_halt(a: &JobHalt, b: &JobHalt) -> bool
    ensures { result ≡ same_halt a.now b.now }
{
    a.job == b.job && same_cuts(&a.halt, &b.halt) && a.rest == b.rest
}

/// Whether these are the same halts, in the same order.
pub(crate) fn are_same_halts(halts: &[JobHalt], others: &[JobHalt]) -> bool
    ensures { Decides result (halts.now ≡ others.now) }
{
    let len = halts.len();
    if len != others.len() {
        return false;
    }
    for i in 0..len {
        if !is_same_halt(&halts[i], &others[i]) {
            return false;
        }
    }
    true
}
