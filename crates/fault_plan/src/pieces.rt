//! Pieces of a line, set apart by single spaces.

ghost use Rattle.std.specs.Prelude.{◌≡◌, ◌≤◌, length};
ghost use Rattle.std.specs.List.{prefix_len, list_all};
ghost use Rattle.data_file.specs.Reading as files;
ghost use Rattle.fault_plan.specs.Meaning as meaning;
ghost use Rattle.fault_plan.specs.Reading as spec;
ghost use Rattle.fault_plan.specs.Seen.{Reads};

use text_pieces::decimal_number;

/// What follows these bytes.
#[tactic(auto, unfolding(data_file::specs::Reading::strip))]
pub fn strip<'a>(front: &[u8], text: &'a [u8]) -> Option<&'a [u8]>
    ensures { Reads (λ r. r.now) result (files.strip front.now text.entry.now) }
{
    text.strip_prefix(front)
}

fn piece_len(text: &[u8]) -> usize
    ensures value { result ≡ prefix_len spec.is_no_space text.now }
    ensures bound { result ≤ length text.now }
{
    text.iter().take_while(|b| **b != b' ').count()
}

/// What stands before the first space, and what follows it.
fn split_space(text: &[u8]) -> Option<(&[u8], &[u8])>
    ensures { Reads (λ x. (x.0.now, x.1.now)) result (spec.split_space text.now) }
{
    let (piece, behind) = text.split_at(piece_len(text));
    match behind {
        [] => None,
        [_, rest @ ..] => Some((piece, rest)),
    }
}

/// A space, a tab, a line feed, a form feed or a carriage return.
fn is_blank(b: u8) -> bool
    ensures { result ≡ meaning.is_blank b }
{
    b == b' ' || (b == b'\t' || (b == b'\n' || (b == 12 || b == b'\r')))
}

fn is_solid(b: u8) -> bool
    ensures { result ≡ spec.is_solid b }
{
    !is_blank(b)
}

fn are_solid(piece: &[u8]) -> bool
    ensures { result ≡ list_all spec.is_solid piece.now }
{
    piece.iter().all(|b| is_solid(*b))
}

/// One or more bytes, none of them a blank.
fn is_piece(piece: &[u8]) -> bool
    ensures { result ≡ spec.is_piece piece.now }
{
    !piece.is_empty() && are_solid(piece)
}

/// The name before the first space, and what follows it.
#[tactic(auto, unfolding(crate::specs::Reading::name_front))]
pub fn name_front(text: &[u8]) -> Option<(&[u8], &[u8])>
    ensures { Reads (λ x. (x.0.now, x.1.now)) result (spec.name_front text.now) }
{
    let (piece, rest) = split_space(text)?;
    if is_piece(piece) {
        Some((piece, rest))
    } else {
        None
    }
}

/// The number before the first space, and what follows it.
#[tactic(auto, unfolding(crate::specs::Reading::number_front))]
pub fn number_front(text: &[u8]) -> Option<(u64, &[u8])>
    ensures { Reads (λ x. (x.0, x.1.now)) result (spec.number_front text.now) }
{
    let (digits, rest) = split_space(text)?;
    Some((decimal_number(digits)?, rest))
}
