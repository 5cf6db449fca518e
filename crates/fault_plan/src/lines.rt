//! The lines of a text.

ghost use Rattle.std.specs.Prelude.{◌≡◌, ◌<◌, ◌∷◌, [], length, if◌then◌else◌, MatchOption};
ghost use Rattle.std.specs.List.{list_all};
ghost use Rattle.data_file.specs.Meaning as gaps;
ghost use Rattle.data_file.specs.Reading as files;
ghost use Rattle.fault_plan.specs.Meaning as meaning;
ghost use Rattle.fault_plan.specs.Reading as spec;
ghost use Rattle.fault_plan.specs.Seen.{Reads};

use text_pieces::line_len;

/// A space or a tab.
fn is_gap(b: u8) -> bool
    ensures { result ≡ gaps.is_gap b }
{
    b == b' ' || b == b'\t'
}

fn is_blank_line(line: &[u8]) -> bool
    ensures { result ≡ list_all gaps.is_gap line.now }
{
    line.iter().all(|b| is_gap(*b))
}

fn is_visible(line: &[u8]) -> bool
    ensures { result ≡ meaning.is_visible line.now }
{
    !is_blank_line(line)
}

/// The line without the carriage return that may end it.
fn without_return(line: &[u8]) -> &[u8]
    ensures { result.now ≡ files.without_return line.now }
{
    match line {
        [front @ .., b'\r'] => front,
        _ => line,
    }
}

/// The first line, and what follows its line feed.
fn split_line(text: &[u8]) -> (&[u8], &[u8])
    ensures line { result.0.now ≡ files.first_line text.now }
    ensures rest { result.1.now ≡ files.after_line text.now }
{
    let (line, feed) = text.split_at(line_len(text));
    match feed {
        [] => (line, feed),
        [_, rest @ ..] => (without_return(line), rest),
    }
}

/// The first line that isn't blank, and what follows it.
fn first_visible(text: &[u8]) -> Option<(&[u8], &[u8])>
    ensures { MatchOption result
        (meaning.visible_lines text.now ≡ [])
        (λ x. meaning.visible_lines text.now ≡ x.0.now ∷ meaning.visible_lines x.1.now) }
{
    let mut rest = text;
    while !rest.is_empty() {
        let (line, behind) = split_line(rest);
        if is_visible(line) {
            return Some((line, behind));
        }
        rest = behind;
    }
    None
}

/// The one line that isn't blank.
pub fn only_line(text: &[u8]) -> Option<&[u8]>
    ensures { Reads (λ line. line.now) result (spec.only_line text.now) }
{
    let (line, behind) = first_visible(text)?;
    match first_visible(behind) {
        None => Some(line),
        Some(_) => None,
    }
}
