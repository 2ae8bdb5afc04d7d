//! The pieces of a problem as wants.

ghost use Rattle.std.specs.Prelude.{◌≡◌, IfOk};
ghost use Rattle.shop_files.specs.Problems.{ArePieces, IsPiece};
ghost use Rattle.shop_problems.specs.Wants as spec;

use cut_measure::{Kind, Size};
use cut_plan::Want;
use shop_files::Piece;
use std::alloc::{AllocError, Global};

/// The want for a piece: it isn't turned.
pub fn want_of(demand: u32, piece: &Piece) -> Want
    requires { IsPiece piece.now }
    ensures { result ≡ spec.want_of demand piece.now }
{
    match Size::new(Kind::Sheet, piece.w, piece.h) {
        Some(size) => Want {
            demand,
            size,
            may_turn: false,
            left: piece.most,
            worth: piece.worth,
        },
        None => unreachable!(),
    }
}

/// The wants for a problem's pieces, the demands numbered from 1 on.
pub fn wants_of(alloc: Global, pieces: &[Piece]) -> Result<Vec<Want>, AllocError>
    requires { ArePieces pieces.now }
    ensures { IfOk result (λ wants. wants.items ≡ spec.wants_of pieces.now) }
{
    let mut wants = Vec::new(alloc);
    let mut demand = 1u32;
    for piece in pieces {
        wants.push(want_of(demand, piece))?;
        demand += 1;
    }
    Ok(wants)
}
