//! Texts from outside, such as file names, as they are printed: a control character in one must neither command a
//! terminal nor end a line.

ghost use Rattle.std.specs.Prelude.{◌≡◌, ◌++◌, IfOk, OnOk, string_bytes, true, false};
ghost use Rattle.std.specs.Char.{is_control};
ghost use Rattle.std.specs.List.{list_any};
ghost use Rattle.std.specs.Str.{NoCharPasses, chars};
ghost use Rattle.shop_advice.specs.Printing as spec;

use std::alloc::{AllocError, Global};

/// Whether a text has a control character.
pub fn has_control(text: &str) -> bool
    ensures { result ≡ list_any is_control (chars text.now) }
{
    for letter in text.chars() {
        if letter.is_control() {
            return true;
        }
    }
    false
}

// Whether a character is printed as its number: a control character is, except a line feed in a text of several lines.
fn is_hidden(letter: char, has_lines: bool) -> bool
    ensures { result ≡ spec.is_hidden has_lines letter }
{
    !(has_lines && letter == '\n') && letter.is_control()
}

// Appends a character as it is printed.
fn push_printed(printed: &mut String, letter: char, has_lines: bool) -> Result<(), AllocError>
    ensures { OnOk result (string_bytes printed.new ≡ string_bytes printed.old
        ++ spec.printed_char has_lines letter) }
{
    if !is_hidden(letter, has_lines) {
        return printed.push(letter);
    }
    let number = letter as u32;
    write!(printed, "\\u{{{number:x}}}")?;
    Ok(())
}

// A text as it is printed.
fn printed(alloc: Global, text: &str, has_lines: bool) -> Result<String, AllocError>
    ensures text { IfOk result (λ printed. string_bytes printed ≡ spec.printed has_lines text.now) }
    ensures plain { IfOk result
        (λ printed. NoCharPasses (spec.is_hidden has_lines) (string_bytes printed)) }
{
    let mut printed = String::new(alloc);
    for letter in text.chars() {
        push_printed(&mut printed, letter, has_lines)?;
    }
    Ok(printed)
}

/// A text with each control character as its number, such as `\u{1b}`.
pub fn printed_text(alloc: Global, text: &str) -> Result<String, AllocError>
    ensures text { IfOk result (λ printed. string_bytes printed ≡ spec.printed false text.now) }
    ensures plain { IfOk result (λ printed. NoCharPasses is_control (string_bytes printed)) }
{
    printed(alloc, text, false)
}

/// The same of a text of several lines, whose line feeds stay.
pub fn printed_lines(alloc: Global, text: &str) -> Result<String, AllocError>
    ensures text { IfOk result (λ printed. string_bytes printed ≡ spec.printed true text.now) }
    ensures plain { IfOk result
        (λ printed. NoCharPasses (spec.is_hidden true) (string_bytes printed)) }
{
    printed(alloc, text, true)
}
