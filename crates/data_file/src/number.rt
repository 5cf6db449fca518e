//! Numbers with a sign.

ghost use Rattle.std.specs.Prelude.{◌≡◌};
ghost use Rattle.data_file.specs.Reading as spec;

use text_pieces::decimal_number;

/// The number below 0 of this size, if it fits.
fn negative(size: u64) -> Option<i64>
    ensures { result ≡ spec.negative size }
{
    if 1 <= size && size <= 1 << 63 {
        Some((-i128::from(size)) as i64)
    } else {
        None
    }
}

fn positive(size: u64) -> Option<i64>
    ensures { result ≡ spec.positive size }
{
    if size < 1 << 63 {
        Some(size as i64)
    } else {
        None
    }
}

/// The number that the text writes, with `-` where it is below 0.
#[tactic(auto, unfolding(crate::specs::Reading::int_of))]
pub fn int_of(text: &[u8]) -> Option<i64>
    ensures { result ≡ spec.int_of text.now }
{
    match text {
        [] => None,
        [b'-', digits @ ..] => negative(decimal_number(digits)?),
        [_, ..] => positive(decimal_number(text)?),
    }
}
