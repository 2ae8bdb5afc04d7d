//! Which steps a rectangle and its pieces take, and what helps where a step is refused.

ghost use Rattle.std.specs.Prelude.{◌≡◌, ◌≤◌};
ghost use Rattle.cut_measure.specs.declared.ranges.TheConstants.{MAX_KERF};
ghost use Rattle.shop_problems.specs.declared.steps.TheConstants.{MAX_GIVEN_STEP};
ghost use Rattle.shop_problems.specs.Steps as spec;

use crate::wholes::{kind_of, least_for};
use cut_measure::Kind;
use shop_files::{Piece, Problem};

/// The longest step that may be given, in tenths of a millimetre.
pub const MAX_GIVEN_STEP: u32 = 200_000;

/// The steps by which a problem can be planned, in tenths of a millimetre; none where `least` is above `most`.
#[derive(Clone, Copy, Debug, PartialEq, Eq)]
pub struct Steps {
    /// By a shorter one a side of the rectangle has over 500 steps.
    pub least: u32,
    /// A longer one is over some piece's side and a kerf.
    pub most: u32,
}

/// What helps where a problem's rectangle is too large, or its step is bad.
#[derive(Clone, Copy, Debug, PartialEq, Eq)]
pub enum StepHelp {
    /// To plan it with `--whole`, and without a step.
    Whole,
    /// A shorter bar.
    ShorterBar,
    /// One of these steps.
    Steps(Steps),
}

// The shortest side of pieces, at most the longest step.
fn shortest(pieces: &[Piece]) -> u32
    ensures side { result ≡ spec.shortest pieces.now }
    ensures most { result ≤ MAX_GIVEN_STEP }
{
    let [piece, more @ ..] = pieces else {
        return MAX_GIVEN_STEP;
    };
    piece.w.min(piece.h).min(shortest(more))
}

// The steps by which a problem can be planned.
fn steps_of(problem: &Problem, kerf: u32) -> Steps
    requires { kerf ≤ MAX_KERF }
    ensures { result ≡ spec.steps_of problem.now.size problem.now.pieces kerf }
{
    let most = shortest(problem.pieces.as_slice()) + kerf;
    Steps {
        least: least_for(problem.size, kerf),
        most: most.min(MAX_GIVEN_STEP),
    }
}

// What helps where this step is refused, or none was given.
fn help_beside(steps: Steps, step: Option<u32>) -> StepHelp
    ensures { result ≡ spec.help_beside steps step }
{
    let Some(step) = step else {
        return StepHelp::Whole;
    };
    if steps.least > steps.most || steps.least <= step && step <= steps.most {
        return StepHelp::Whole;
    }
    StepHelp::Steps(steps)
}

/// What helps where one rectangle of a problem is too large, or its step is bad: a rectangle of height 1 is planned with
/// `--whole`, where it may be a bar; and so is any that no step serves, or whose step serves.
pub fn help_of_one(problem: &Problem, kerf: u32, step: u32) -> StepHelp
    requires { kerf ≤ MAX_KERF }
    ensures { result ≡ spec.help_of_one problem.now.size problem.now.pieces kerf step }
{
    if problem.size.h() == 1 {
        return StepHelp::Whole;
    }
    help_beside(steps_of(problem, kerf), Some(step))
}

/// What helps where the rectangles of a problem are too large, or their step is bad, and all its pieces are planned: a bar has
/// to be shorter.
pub fn help_of_all(problem: &Problem, kerf: u32, step: Option<u32>) -> StepHelp
    requires { kerf ≤ MAX_KERF }
    ensures { result ≡ spec.help_of_all problem.now.size problem.now.pieces kerf step }
{
    match kind_of(problem.size, problem.pieces.as_slice()) {
        Kind::Bar => StepHelp::ShorterBar,
        Kind::Sheet => help_beside(steps_of(problem, kerf), step),
    }
}
