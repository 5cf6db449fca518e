//! The printed texts of instrumented units: what stands before a read through an index array.

use crate::gathers::{CHAIN, COLUMN, PAIRS};
use crate::made::instrumented;
use c_parser::parse;
use c_printer::print;
use c_tree::Refusal;
use sample_runs::texts::GATHER;
use std::alloc::Global;
use std::test::Fail;

/// Whether these lines stand in a text.
fn stand_in(text: &[u8], lines: &[u8]) -> bool {
    for start in 0..text.len() {
        if text[start..].starts_with(lines) {
            return true;
        }
    }
    false
}

/// Whether these lines stand in the printed text of a source's instrumented unit.
fn has_lines(alloc: Global, source: &str, lines: &str) -> Result<bool, Refusal> {
    let made = instrumented(alloc, source.as_bytes())?;
    let text = print(alloc, &made)?;
    Ok(stand_in(text.as_slice(), lines.as_bytes()))
}

/// The check stands directly before the read that it guards.
#[test]
fn a_gather_is_checked(rt: HostRuntime) -> Result<(), Fail> {
    let lines = "
    if (bal_r0 >= (uint64_t)(m)) {
      return 131072ull;
    }
    bal_r1 = X[bal_r0];
";
    assert!(rt; has_lines(rt.alloc(), GATHER, lines)?);
    Ok(())
}

/// Each index word has a check with the extent of its own dimension.
#[test]
fn two_indices_are_checked(rt: HostRuntime) -> Result<(), Fail> {
    let lines = "
    if (bal_r0 >= (uint64_t)(2)) {
      return 262144ull;
    }
    if (bal_r1 >= (uint64_t)(3)) {
      return 262144ull;
    }
    bal_r2 = X[bal_r0][bal_r1];
";
    assert!(rt; has_lines(rt.alloc(), PAIRS, lines)?);
    Ok(())
}

#[test]
fn an_index_of_two_dimensions_is_checked(rt: HostRuntime) -> Result<(), Fail> {
    let lines = "
    if (bal_r0 >= (uint64_t)(3)) {
      return 131072ull;
    }
    bal_r1 = X[bal_r0];
";
    assert!(rt; has_lines(rt.alloc(), COLUMN, lines)?);
    Ok(())
}

#[test]
fn a_written_array_is_checked(rt: HostRuntime) -> Result<(), Fail> {
    let lines = "
    if (bal_r0 >= (uint64_t)(n)) {
      return 131072ull;
    }
    bal_r1 = X[bal_r0];
";
    assert!(rt; has_lines(rt.alloc(), CHAIN, lines)?);
    Ok(())
}

/// Whether reading refuses a text as no tokens or as no unit.
fn is_no_text(alloc: Global, text: &[u8]) -> bool {
    match parse(alloc, text) {
        Err(Refusal::Lexical { .. }) => true,
        Err(Refusal::Syntax { .. }) => true,
        _ => false,
    }
}

/// A printed text ends with its brace and a line feed. No part that stops before the brace is a text.
#[test]
fn no_part_is_a_text(rt: HostRuntime) -> Result<(), Fail> {
    let made = instrumented(rt.alloc(), GATHER.as_bytes())?;
    let text = print(rt.alloc(), &made)?;
    for end in 0..text.len() {
        if text[end..].len() > 1 {
            assert!(rt; is_no_text(rt.alloc(), &text[..end]), "{end}");
        }
    }
    Ok(())
}
