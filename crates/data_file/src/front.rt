//! Fronts and ends of a text.

ghost use Rattle.std.specs.Prelude.{◌≡◌, ◌≤◌, ◌<◌, ◌∷◌, [], length, if◌then◌else◌};
ghost use Rattle.std.specs.List.{prefix_len};
ghost use Rattle.text_pieces.specs.Fronts.{run, behind};
ghost use Rattle.data_file.specs.Outcome.{Reads};
ghost use Rattle.data_file.specs.Meaning as meaning;
ghost use Rattle.data_file.specs.Reading as spec;

use text_pieces::line_len;

/// A space or a tab.
fn is_gap(b: u8) -> bool
    ensures { result ≡ meaning.is_gap b }
{
    b == b' ' || b == b'\t'
}

pub fn is_blank(line: &[u8]) -> bool
    ensures { result ≡ spec.is_blank line.now }
{
    line.iter().all(|b| is_gap(*b))
}

fn solid_len(text: &[u8]) -> usize
    ensures value { result ≡ prefix_len spec.is_solid text.now }
    ensures bound { result ≤ length text.now }
{
    text.iter().take_while(|b| !is_gap(**b)).count()
}

/// The longest front without spaces and tabs, and what follows it.
pub fn split_solid(text: &[u8]) -> (&[u8], &[u8])
    ensures front { result.0.now ≡ run spec.is_solid text.now }
    ensures rest { result.1.now ≡ behind spec.is_solid text.now }
{
    text.split_at(solid_len(text))
}

fn gap_len(text: &[u8]) -> usize
    ensures value { result ≡ prefix_len meaning.is_gap text.now }
    ensures bound { result ≤ length text.now }
{
    text.iter().take_while(|b| is_gap(**b)).count()
}

/// What follows the spaces and tabs.
pub fn behind_gap(text: &[u8]) -> &[u8]
    ensures { result.now ≡ behind meaning.is_gap text.now }
{
    text.split_at(gap_len(text)).1
}

/// The line without the carriage return that may end it.
fn without_return(line: &[u8]) -> &[u8]
    ensures { result.now ≡ spec.without_return line.now }
{
    match line {
        [front @ .., b'\r'] => front,
        _ => line,
    }
}

/// The first line, and what follows its line feed.
pub fn split_line(text: &[u8]) -> (&[u8], &[u8])
    ensures line { result.0.now ≡ spec.first_line text.now }
    ensures rest { result.1.now ≡ spec.after_line text.now }
{
    let (line, feed) = text.split_at(line_len(text));
    match feed {
        [] => (line, feed),
        [_, rest @ ..] => (without_return(line), rest),
    }
}

/// What follows these bytes.
#[tactic(auto, unfolding(crate::specs::Reading::strip))]
pub fn strip<'a>(front: &[u8], text: &'a [u8]) -> Option<&'a [u8]>
    ensures { Reads (λ r. r.now) result (spec.strip front.now text.entry.now) }
{
    text.strip_prefix(front)
}

/// What stands before these bytes.
#[tactic(auto, unfolding(crate::specs::Reading::strip_end))]
pub fn strip_end<'a>(end: &[u8], text: &'a [u8]) -> Option<&'a [u8]>
    ensures { Reads (λ r. r.now) result (spec.strip_end end.now text.entry.now) }
{
    text.strip_suffix(end)
}

/// The place of the last `=`.
fn last_equals(line: &[u8]) -> Option<usize>
    ensures { result ≡ spec.last_equals 0 None line.now }
{
    let mut last = None;
    for (k, b) in line.iter().enumerate() {
        if *b == b'=' {
            last = Some(k);
        }
    }
    last
}

/// What stands before the last `=` of the line, and what from it on.
fn split_equals(line: &[u8]) -> Option<(&[u8], &[u8])>
    ensures { Reads (λ x. (x.0.now, x.1.now)) result (spec.at_equals line.now) }
{
    let place = last_equals(line)?;
    line.split_at_checked(place)
}

/// The name before the last ` = ` of the line, and what follows it.
#[tactic(auto, unfolding(crate::specs::Reading::parted))]
pub fn parted(line: &[u8]) -> Option<(&[u8], &[u8])>
    ensures { Reads (λ x. (x.0.now, x.1.now)) result (spec.parted line.now) }
{
    let (front, back) = split_equals(line)?;
    let name = strip_end(b" ", front)?;
    let text = strip(b"= ", back)?;
    Some((name, text))
}
