//! What holds of the texts of lengths and of part names: no text stands for two.

ghost use Rattle.std.specs.Prelude.{◌≡◌, ◌≤◌, ℕ, List};
ghost use Rattle.cut_measure.specs.Lengths.{IsLengthText, mm_text};
ghost use Rattle.cut_measure.specs.Names.{Name, IsName, name_text};

/// A text says one length at most, and what is printed of a length up to 9999999 says that length.
pub fn lengths_have_one_text()
    ensures one_length { (text : List ℕ) (m n : ℕ) → IsLengthText text m → IsLengthText text n
        → m ≡ n }
    ensures printed { (n : ℕ) → n ≤ 9999999 → IsLengthText (mm_text n) n }
{}

/// A text names one part at most.
pub fn names_have_one_part()
    ensures { (m n : Name) → IsName m → IsName n → name_text m ≡ name_text n → m ≡ n }
{}
