//! Numbers of 32 bits, read from decimal digits.

ghost use Rattle.std.specs.Prelude.{◌≡◌, ◌<◌, ◌^◌};
ghost use Rattle.std.specs.Option.{SomeIff};
ghost use Rattle.std.specs.Str.Parse.{AllDigits, digits_value};
ghost use Rattle.cut_measure.specs.Numbers.{IsNumberOf};

/// The number that decimal digits stand for, leading zeros or none, if it has 32 bits; no digits stand for 0.
pub fn digits_value_of(digits: &[u8]) -> Option<u32>
    ensures { SomeIff result (AllDigits 10 digits.now × (digits_value 10 digits.now < 2 ^ 32))
        (digits_value 10 digits.now) }
{
    let mut value: u32 = 0;
    for digit in digits {
        if !digit.is_ascii_digit() {
            return None;
        }
        value = value
            .checked_mul(10)?
            .checked_add(u32::from(*digit - b'0'))?;
    }
    Some(value)
}

/// The number of 32 bits that a text is, in decimal digits without leading zeros; a lone `0` is one.
pub fn read_number(digits: &[u8]) -> Option<u32>
    ensures { IsNumberOf result digits.now }
{
    if digits.is_empty() || (digits[0] == b'0' && digits.len() > 1) {
        return None;
    }
    digits_value_of(digits)
}
