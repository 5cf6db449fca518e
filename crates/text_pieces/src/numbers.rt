//! Numbers that digits write.

ghost use Rattle.std.specs.Prelude.{◌≡◌, ◌≤◌};
ghost use Rattle.std.specs.List.{list_all};
ghost use Rattle.std.specs.Char.{digit_value};
ghost use Rattle.std.specs.Str.Parse.{digits_value};
ghost use Rattle.text_pieces.specs.Numbers as spec;

/// What a digit or a letter stands for, and 36 for other bytes.
fn digit(b: u8) -> u64
    ensures { result ≡ digit_value b }
{
    match b {
        b'0'..=b'9' => u64::from(b - b'0'),
        b'A'..=b'Z' => u64::from(b - b'A') + 10,
        b'a'..=b'z' => u64::from(b - b'a') + 10,
        _ => 36,
    }
}

fn is_digit_in(base: u64, b: u8) -> bool
    ensures { result ≡ spec.is_digit_in base b }
{
    digit(b) < base
}

fn are_digits(base: u64, digits: &[u8]) -> bool
    ensures { result ≡ list_all (spec.is_digit_in base) digits.now }
{
    digits.iter().all(|b| is_digit_in(base, *b))
}

fn is_numeral(base: u64, digits: &[u8]) -> bool
    ensures { result ≡ spec.is_numeral base digits.now }
{
    !digits.is_empty() && are_digits(base, digits)
}

fn value(base: u64, digits: &[u8]) -> Option<u64>
    requires { 1 ≤ base }
    ensures { result ≡ spec.word (digits_value base digits.now) }
{
    let mut value = 0u64;
    'digits: for b in digits {
        value = value.checked_mul(base)?.checked_add(digit(*b))?;
    }
    Some(value)
}

/// The number that digits of this base write, if there are some and it is below 2^64.
#[tactic(auto, unfolding(crate::specs::Numbers::number_in))]
pub fn number(base: u64, digits: &[u8]) -> Option<u64>
    requires { 1 ≤ base }
    ensures { result ≡ spec.number_in base digits.now }
{
    if is_numeral(base, digits) {
        value(base, digits)
    } else {
        None
    }
}

fn has_needless_zero(digits: &[u8]) -> bool
    ensures { result ≡ spec.has_needless_zero digits.now }
{
    match digits {
        [first, _, ..] => *first == b'0',
        _ => false,
    }
}

/// The same of decimal digits, where no zero may stand before another digit.
#[tactic(auto, unfolding(crate::specs::Numbers::decimal_in))]
pub fn decimal_number(digits: &[u8]) -> Option<u64>
    ensures { result ≡ spec.decimal_in digits.now }
{
    if has_needless_zero(digits) {
        None
    } else {
        number(10, digits)
    }
}
