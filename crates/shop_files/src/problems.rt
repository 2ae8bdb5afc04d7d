//! Problem files: a count of pieces, a rectangle and the pieces that may be cut from it, as numbers.

ghost use Rattle.std.specs.Prelude.{◌≡◌, ◌≤◌, ◌<◌, ◌+◌, ◌*◌, ◌%◌, ◌^◌, ◌⊎◌, ℕ, List, [], ◌∷◌, ◌++◌, IfOk, IfErr, MatchOption, MatchResult, true, false, get_or, take, drop, length};
ghost use Rattle.std.specs.Option.{SomeIff};
ghost use Rattle.std.specs.Str.Parse.{AllDigits, digits_value};
ghost use Rattle.shop_files.specs.Runs.{DigitRun, is_digit};
ghost use Rattle.shop_files.specs.Problems.{most_at, runs_at, is_problem_byte, IsNumbers, ArePieces, IsProblem, IsProblemFault, Stops, StopsOrEnds, HasNumber, HasPiece, HasPieces};
ghost use Rattle.cut_measure.specs.Measures.{Size};
ghost use Rattle.shop_files.specs.declared.problems.TextCause.TheVariants.{NoMemory};

use crate::limits::{MAX_PIECES, MAX_TEXT_LEN};
use cut_measure::{
    Kind, MAX_COUNT, MAX_HEIGHT, MAX_WIDTH, MAX_WORTH, RowList, Size, digits_value_of,
};
use std::alloc::{AllocError, Global};

/// A piece that may be cut from a problem's rectangle.
#[derive(Clone, Copy, Debug, PartialEq, Eq)]
pub struct Piece {
    /// The side along the rectangle's width, in tenths of a millimetre: 1 to 200000.
    pub w: u32,
    /// The side along the rectangle's height, in tenths of a millimetre: 1 to 60000.
    pub h: u32,
    /// How many of it there may be: 1 to 1000000.
    pub most: u32,
    /// What one of it is worth: 1 to 1000000000.
    pub worth: u32,
}

/// A rectangle, and the pieces that may be cut from it.
#[derive(Debug, Drop)]
pub struct Problem {
    /// The rectangle.
    pub size: Size,
    /// The pieces, in the text's order.
    pub pieces: RowList<Piece>,
}

/// What is wrong with a problem's text.
#[derive(Clone, Copy, Debug, PartialEq, Eq)]
pub enum TextCause {
    /// It goes on where it should end.
    Long,
    /// A byte is neither a digit nor white space.
    Byte,
    /// A number is out of range.
    Number,
    /// It ends too early.
    Short,
    /// Memory ran out.
    NoMemory,
}

/// The first fault of a problem's text, and the byte where it shows.
#[derive(Clone, Copy, Debug, PartialEq, Eq)]
pub struct TextFault {
    pub offset: usize,
    pub cause: TextCause,
}

// How many bytes stand before the first digit.
fn gap_len(bytes: &[u8]) -> usize
    ensures within { result ≤ length bytes.now }
    ensures gap { (i : ℕ) → i < result → is_digit (get_or bytes.now i 0) ≡ false }
    ensures digit { result < length bytes.now → is_digit (get_or bytes.now result 0) ≡ true }
{
    match bytes.iter().position(|b| b.is_ascii_digit()) {
        Some(n) => n,
        None => bytes.len(),
    }
}

// How many digits stand at the front.
fn digits_len(bytes: &[u8]) -> usize
    ensures within { result ≤ length bytes.now }
    ensures digits { (i : ℕ) → i < result → is_digit (get_or bytes.now i 0) ≡ true }
    ensures after { result < length bytes.now → is_digit (get_or bytes.now result 0) ≡ false }
{
    match bytes.iter().position(|b| !b.is_ascii_digit()) {
        Some(n) => n,
        None => bytes.len(),
    }
}

fn rest_of(text: &[u8], at: usize) -> &[u8]
    requires { at ≤ length text.now }
    ensures { result.now ≡ drop at text.now }
{
    text.split_at(at).1
}

// The digits at the front.
fn digits_of(bytes: &[u8]) -> &[u8]
    requires digit { (0 < length bytes.now) × (is_digit (get_or bytes.now 0 0) ≡ true) }
    ensures some { (0 < length result.now) × (length result.now ≤ length bytes.now)
        × (result.now ≡ take (length result.now) bytes.now) }
    ensures digits { (i : ℕ) → i < length result.now → is_digit (get_or bytes.now i 0) ≡ true }
    ensures all { AllDigits 10 result.now }
    ensures after { length result.now < length bytes.now
        → is_digit (get_or bytes.now (length result.now) 0) ≡ false }
{
    bytes.split_at(digits_len(bytes)).0
}

// The place of the first digit from a place on, or the text's length.
fn digit_from(text: &[u8], at: usize) -> usize
    requires { at ≤ length text.now }
    ensures place { (at ≤ result) × (result ≤ length text.now) }
    ensures digit { result < length text.now → is_digit (get_or text.now result 0) ≡ true }
    ensures same { runs_at text.now at ≡ runs_at text.now result }
{
    at + gap_len(rest_of(text, at))
}

// The place of the next number from a place on.
fn next_place(text: &[u8], at: usize) -> Option<usize>
    requires { at ≤ length text.now }
    ensures { MatchOption result (runs_at text.now at ≡ [])
        (λ place. (run : DigitRun) × (more : List DigitRun) × (runs_at text.now at ≡ run ∷ more)
        × (run.place ≡ place)) }
{
    let place = digit_from(text, at);
    if place < text.len() {
        Some(place)
    } else {
        None
    }
}

// The number that digits stand for, if it is from 1 up to so much.
fn number_within(digits: &[u8], most: u32) -> Option<u32>
    requires { AllDigits 10 digits.now }
    ensures { SomeIff result ((1 ≤ digits_value 10 digits.now)
        × (digits_value 10 digits.now ≤ most)) (digits_value 10 digits.now) }
{
    let number = digits_value_of(digits)?;
    if 1 <= number && number <= most {
        Some(number)
    } else {
        None
    }
}

// The next number from a place on, of at most so much, and the place after it.
fn number_at(text: &[u8], at: usize, most: u32) -> Result<(u32, usize), TextFault>
    requires { at ≤ length text.now }
    ensures within { IfOk result (λ r. r.1 ≤ length text.now) }
    ensures ok { IfOk result (λ r. HasNumber text.now at most r.0 r.1) }
    ensures err { IfErr result (λ f. (i wanted : ℕ) → most_at i ≡ most → i < wanted
        → Stops i (runs_at text.now at) (length text.now) wanted f.offset f.cause) }
{
    let place = digit_from(text, at);
    if place >= text.len() {
        return Err(TextFault {
            offset: place,
            cause: TextCause::Short,
        });
    }
    let digits = digits_of(rest_of(text, place));
    match number_within(digits, most) {
        Some(number) => Ok((number, place + digits.len())),
        None => Err(TextFault {
            offset: place,
            cause: TextCause::Number,
        }),
    }
}

// The numbers of a piece from a place on, and the place after them.
fn piece_at(text: &[u8], at: usize) -> Result<(Piece, usize), TextFault>
    requires { at ≤ length text.now }
    ensures within { IfOk result (λ r. r.1 ≤ length text.now) }
    ensures ok { IfOk result (λ r. HasPiece text.now at r.0 r.1) }
    ensures err { IfErr result (λ f. (i wanted : ℕ) → i % 4 ≡ 3 → i + 3 < wanted
        → Stops i (runs_at text.now at) (length text.now) wanted f.offset f.cause) }
{
    let (w, after_w) = number_at(text, at, MAX_WIDTH)?;
    let (h, after_h) = number_at(text, after_w, MAX_HEIGHT)?;
    let (most, after_most) = number_at(text, after_h, MAX_COUNT)?;
    let (worth, next) = number_at(text, after_most, MAX_WORTH)?;
    let piece = Piece { w, h, most, worth };
    Ok((piece, next))
}

// The pieces of so many from a place on, and the place after them.
fn pieces_at(
    alloc: Global,
    text: &[u8],
    at: usize,
    count: u32,
) -> Result<(RowList<Piece>, usize), TextFault>
    requires { at ≤ length text.now }
    ensures ok { IfOk result (λ r. HasPieces text.now at count r.0 r.1) }
    ensures err { IfErr result
        (λ f. StopsOrEnds 3 (runs_at text.now at) (length text.now)
        (3 + 4 * count) f.offset f.cause) }
{
    let mut pieces = RowList::new(alloc);
    let mut next = at;
    for _ in 0..count {
        let (piece, after) = piece_at(text, next)?;
        if pieces.push(piece).is_err() {
            return Err(TextFault {
                offset: 0,
                cause: TextCause::NoMemory,
            });
        }
        next = after;
    }
    Ok((pieces, next))
}

// The problem that a text of digits and white space spells.
fn problem_in(alloc: Global, text: &[u8]) -> Result<Problem, TextFault>
    requires { IsNumbers text.now }
    ensures ok { IfOk result (λ p. IsProblem text.now p.size p.pieces) }
    ensures err { IfErr result (λ f. IsProblemFault text.now f.offset f.cause) }
{
    let (count, after_count) = number_at(text, 0, MAX_PIECES)?;
    let (w, after_w) = number_at(text, after_count, MAX_WIDTH)?;
    let (h, after_h) = number_at(text, after_w, MAX_HEIGHT)?;
    let (pieces, end) = pieces_at(alloc, text, after_h, count)?;
    if let Some(place) = next_place(text, end) {
        return Err(TextFault {
            offset: place,
            cause: TextCause::Long,
        });
    }
    match Size::new(Kind::Sheet, w, h) {
        Some(size) => Ok(Problem { size, pieces }),
        None => unreachable!(),
    }
}

fn is_problem_char(byte: u8) -> bool
    ensures { result ≡ is_problem_byte byte }
{
    byte.is_ascii_digit() || byte == b' ' || byte == b'\t' || byte == b'\r' || byte == b'\n'
}

// How many bytes at the front are a problem's.
fn good_len(text: &[u8]) -> usize
    ensures within { result ≤ length text.now }
    ensures good { (i : ℕ) → i < result → is_problem_byte (get_or text.now i 0) ≡ true }
    ensures bad { result < length text.now → is_problem_byte (get_or text.now result 0) ≡ false }
{
    match text.iter().position(|byte| !is_problem_char(*byte)) {
        Some(n) => n,
        None => text.len(),
    }
}

// The problem or the first fault.
fn problem_of(alloc: Global, text: &[u8]) -> Result<Problem, TextFault>
    ensures ok { IfOk result (λ p. IsProblem text.now p.size p.pieces) }
    ensures err { IfErr result (λ f. IsProblemFault text.now f.offset f.cause) }
{
    if text.len() > MAX_TEXT_LEN {
        return Err(TextFault {
            offset: MAX_TEXT_LEN,
            cause: TextCause::Long,
        });
    }
    let place = good_len(text);
    if place < text.len() {
        return Err(TextFault {
            offset: place,
            cause: TextCause::Byte,
        });
    }
    problem_in(alloc, text)
}

/// The problem that a text spells: a count of 1 to 200 pieces, a rectangle's width up to 200000 and height up to 60000,
/// and of each piece its width and height, how many of it there may be, up to 1000000, and its worth, up to 1000000000.
/// Each is a number from 1 on in digits, and white space parts them.
pub fn read_cgcut(alloc: Global, text: &[u8]) -> Result<Problem, TextFault>
    ensures spelled { IfOk result (λ p. IsProblem text.now p.size p.pieces) }
    ensures in_range { IfOk result (λ p. ArePieces p.pieces) }
    ensures fault { IfErr result (λ f. IsProblemFault text.now f.offset f.cause) }
    ensures only { (size : Size) (pieces : List Piece) → IsProblem text.now size pieces
        → MatchResult result (λ p. (p.size ≡ size) × (p.pieces ≡ pieces))
        (λ f. f.cause ≡ NoMemory) }
{
    problem_of(alloc, text)
}
