//! Lengths as texts: millimetres with at most one decimal, read and written as tenths of a millimetre.

ghost use Rattle.std.specs.Prelude.{◌≡◌, ◌+◌, ◌<◌, ◌≤◌, ℕ, [], ◌∷◌, ◌++◌, IfSome, Some, MatchOption, OnOk, OnErr, string_bytes};
ghost use Rattle.std.specs.Option.{SomeIff};
ghost use Rattle.std.specs.Str.Parse.{digits_value};
ghost use Rattle.cut_measure.specs.Lengths.{IsWholeMillimetres, IsLengthText, mm_text};

use crate::numbers::digits_value_of;
use std::alloc::AllocError;

// The millimetres that one to six digits stand for.
fn read_whole(digits: &[u8]) -> Option<u32>
    ensures whole { SomeIff result (IsWholeMillimetres digits.now) (digits_value 10 digits.now) }
    ensures few { IfSome result (λ n. n ≤ 999999) }
{
    if digits.is_empty() || digits.len() > 6 {
        return None;
    }
    digits_value_of(digits)
}

// The tenths that a lone digit stands for.
fn read_tenth(digits: &[u8]) -> Option<u32>
    ensures { MatchOption result
        ((d : ℕ) → d < 10 → digits.now ≡ (48 + d) ∷ [] → ⊥)
        (λ d. (d < 10) × (digits.now ≡ (48 + d) ∷ [])) }
{
    if digits.len() != 1 || !digits[0].is_ascii_digit() {
        return None;
    }
    Some(u32::from(digits[0] - b'0'))
}

fn tenths_of(text: &str) -> Option<u32>
    ensures { MatchOption result ((n : ℕ) → IsLengthText text.now n → ⊥)
        (λ n. IsLengthText text.now n) }
{
    match text.split_once('.') {
        None => Some(10 * read_whole(text.as_bytes())?),
        Some((whole, tenth)) => {
            let whole = read_whole(whole.as_bytes())?;
            let tenth = read_tenth(tenth.as_bytes())?;
            Some(10 * whole + tenth)
        }
    }
}

/// The tenths of a millimetre that a text says: one to six digits of millimetres, after which a point and one digit
/// of tenths may stand.
pub fn read_mm(text: &str) -> Option<u32>
    ensures said { IfSome result (λ n. IsLengthText text.now n) }
    ensures only { (n : ℕ) → IsLengthText text.now n → result ≡ Some n }
{
    tenths_of(text)
}

/// Appends a length in tenths of a millimetre as millimetres with one decimal, or leaves the string as it was.
pub fn write_mm(n: u32, text: &mut String) -> Result<(), AllocError>
    ensures ok { OnOk result (string_bytes text.new ≡ string_bytes text.old ++ mm_text n) }
    ensures err { OnErr result (string_bytes text.new ≡ string_bytes text.old) }
{
    let alloc = *text.allocator();
    let printed = format!(in alloc; "{}.{}", n / 10, n % 10)?;
    text.push_str(printed.as_str())
}
