//! What is left of a text when its end is cut off.

use c_tree::preamble;
use sample_texts::texts::{Found, GATHER, GUARDED, found_in, joined};
use std::alloc::{AllocError, Global};

/// The least front of the text that has a unit, or else the text.
fn least_read(alloc: Global, text: &[u8]) -> &[u8] {
    for n in 0..text.len() {
        let front = &text[..n];
        if !matches!(found_in(alloc, front), Found::NoTokens | Found::NoUnit) {
            return front;
        }
    }
    text
}

/// The text without its last byte.
fn without_last(text: &[u8]) -> &[u8] {
    match text {
        [front @ .., _last] => front,
        [] => text,
    }
}

/// Which part of the text isn't read or refused as it should be: the whole, all but its last byte, or else
/// the least front that is read.
fn wrong_part(alloc: Global, text: &[u8]) -> Option<usize> {
    let most = without_last(text);
    if found_in(alloc, text) != Found::Unit {
        return Some(text.len());
    }
    if found_in(alloc, most) != Found::Unit {
        return Some(most.len());
    }
    let least = least_read(alloc, text);
    if least == most {
        None
    } else {
        Some(least.len())
    }
}

fn wrong_part_of_made(alloc: Global, made: Result<Vec<u8>, AllocError>) -> Option<usize> {
    match made {
        Ok(text) => wrong_part(alloc, text.as_slice()),
        Err(_) => Some(0),
    }
}

/// A front of a source that lacks more than its last line feed has no tokens or no unit.
#[test]
fn refuses_fronts_of_a_source(rt: HostRuntime) {
    assert_eq!(rt; wrong_part(rt.alloc(), GATHER), None);
}

/// And so for a printed text.
#[test]
fn refuses_fronts_of_a_printed_text(rt: HostRuntime) {
    let text = joined(rt.alloc(), &[preamble(), GUARDED]);
    assert_eq!(rt; wrong_part_of_made(rt.alloc(), text), None);
}
