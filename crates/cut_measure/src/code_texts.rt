//! Codes of materials, batches and orders: 1 to 16 characters of `A-Z0-9-`, compared by their bytes.

ghost use Rattle.std.specs.Prelude.{◌≡◌, ◌++◌, IsTrue, ◌↔◌, OnOk, OnErr, string_bytes};
ghost use Rattle.std.specs.List.{list_all};
ghost use Rattle.cut_measure.specs.Codes.{code_of, code_cmp, is_code, is_code_byte};

use crate::ranges::MAX_CODE_LEN;
use std::alloc::AllocError;
use std::cmp::Ordering;
use std::marker::Model;

/// The code of a material, a batch or an order: 1 to 16 characters of `A-Z0-9-`.
#[derive(Clone, Copy, Debug)]
pub struct Code {
    text: [u8; MAX_CODE_LEN],
    len: usize,
}

impl Model for Code {
    ghost use Rattle.std.specs.Prelude.{◌≡◌, ◌-◌, ◌++◌, ◌≤◌, List, ℕ, length, take, drop, replicate};
    ghost use Rattle.cut_measure.specs.declared.ranges.TheConstants.{MAX_CODE_LEN};
    ghost use Rattle.cut_measure.specs.Codes.{is_code};
    ghost use Rattle.std.specs.Prelude.{IsTrue};

    ghost Value = { List ℕ };

    ghost use Rattle.cut_measure.specs.CodeTexts.{fields_back};

    ghost view = { λ c. take c.len c.text };

    ghost invariant = { λ c. (length c.text ≡ MAX_CODE_LEN) × (c.len ≤ MAX_CODE_LEN)
        × (drop c.len c.text ≡ replicate (MAX_CODE_LEN - c.len) 0)
        × IsTrue (is_code (take c.len c.text)) };

    ghost inverse = { λ text.
        record { text = text ++ replicate (MAX_CODE_LEN - length text) 0; len = length text } };

    ghost inverse_ok = { λ a h. fields_back a h.0 h.1 h.2 };
}

impl PartialEq for Code {
    ghost use Rattle.std.specs.Cmp.{partial_equiv_from_equiv};
    ghost use Rattle.std.specs.Cmp.Lexicographic.{pointwise, nat_list_eq_equiv};
    ghost use Rattle.std.specs.Prelude.{nat_eq};

    ghost eq = { pointwise nat_eq };

    ghost laws = { partial_equiv_from_equiv nat_list_eq_equiv };

    fn eq(&self, other: &Code) -> bool {
        self.as_str() == other.as_str()
    }
}

fn is_code_char(b: u8) -> bool
    ensures { result ≡ is_code_byte b }
{
    b.is_ascii_uppercase() || b.is_ascii_digit() || b == b'-'
}

// Whether each byte is one of a code.
fn has_code_bytes(bytes: &[u8]) -> bool
    ensures { result ≡ list_all is_code_byte bytes.now }
{
    bytes.iter().all(|b| is_code_char(*b))
}

// Whether a text is a code.
fn is_code_text(text: &str) -> bool
    ensures { result ≡ is_code text.now }
{
    let bytes = text.as_bytes();
    let len = bytes.len();
    if len < 1 || len > MAX_CODE_LEN {
        return false;
    }
    has_code_bytes(bytes)
}

impl Code {
    /// The code that a text is.
    pub fn read(text: &str) -> Option<Code>
        ensures { result ≡ code_of text.now }
    {
        if !is_code_text(text) {
            return None;
        }
        let bytes = text.as_bytes();
        let len = bytes.len();
        let mut text = [0u8; MAX_CODE_LEN];
        text[..len].copy_from_slice(bytes);
        Some(Code { text, len })
    }

    /// Its text.
    pub fn as_str(&self) -> &str
        ensures value { result.now ≡ self.now }
        ensures code { IsTrue (is_code self.now) }
    {
        match str::from_utf8(&self.text[..self.len]) {
            Ok(text) => text,
            Err(_) => unreachable!(),
        }
    }

    /// Whether two codes are one.
    pub fn is(&self, other: &Code) -> bool
        ensures { IsTrue result ↔ (self.now ≡ other.now) }
    {
        self.text[..self.len] == other.text[..other.len]
    }

    /// The order of two codes, by their bytes.
    pub fn order(&self, other: &Code) -> Ordering
        ensures { result ≡ code_cmp self.now other.now }
    {
        self.text[..self.len].cmp(&other.text[..other.len])
    }

    /// Appends its text, or leaves the string as it was.
    pub fn write(&self, text: &mut String) -> Result<(), AllocError>
        ensures ok { OnOk result (string_bytes text.new ≡ string_bytes text.old ++ self.now) }
        ensures err { OnErr result (string_bytes text.new ≡ string_bytes text.old) }
    {
        text.push_str(self.as_str())
    }
}
