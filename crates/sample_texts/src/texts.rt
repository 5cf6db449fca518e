//! The texts that tests are made of, and what is found in them.

use crate::shown::shown_unit;
use c_parser::parse;
use c_tree::{Refusal, Unit, preamble};
use std::alloc::{AllocError, Global};

/// A source with one loop over one array.
pub const SHIFT: &[u8] = b"#include <stdint.h>
#pragma balance range n 1 1000
void shift(int64_t n, uint64_t A[n]) {
  for (int64_t i = 0; i < n - 1; i++)
    A[i + 1] = A[i] + 1;
}
";

pub const SHIFT_UNIT: &[u8] = b"shift (range n 1 1000) (int n) (array A[n]) \
(for i 0 < (- n 1) (= A[(+ i 1)] (+ A[i] 1)))";

/// A source with an irregular read.
pub const GATHER: &[u8] = b"#pragma balance range n 1 1000
#pragma balance range m 1 1000
void gather(int64_t n, int64_t m, const uint64_t P[n], const uint64_t X[m], uint64_t Y[n]) {
  for (int64_t i = 0; i < n; i++)
    Y[i] = X[P[i]];
}
";

pub const GATHER_UNIT: &[u8] =
    b"gather (range n 1 1000) (range m 1 1000) (int n) (int m) (const P[n]) (const X[m]) (array Y[n]) \
(for i 0 < n (= Y[i] X[P[i]]))";

/// The shift, instrumented, as it stands behind the preamble.
pub const GUARDED: &[u8] = b"#pragma balance version 1
#pragma balance range n 1 1000
uint64_t bal_fn_shift(int64_t n, uint64_t A[n]) {
  uint64_t bal_r0 = 0ull;
  uint64_t bal_w = 0ull;
  unsigned __int128 bal_k = 0;
  unsigned __int128 bal_def0 = 0;
  unsigned __int128 bal_use0 = 0;
  for (int64_t bal_i0 = 0; bal_i0 < n; bal_i0++) {
    bal_r0 = A[bal_i0];
    bal_k = bal_wide(0ull, 0ull);
    if (bal_i0 <= 0 && 2 <= n) {
      bal_k += bal_wide(0ull, 1ull);
    }
    bal_def0 += (unsigned __int128)bal_r0 * bal_k;
  }
#pragma balance begin
  for (int64_t i = 0; i < n - 1; i++) {
    bal_r0 = A[i];
    bal_use0 += (unsigned __int128)bal_r0;
    bal_w = bal_r0 + 1ull;
    A[i + 1] = bal_w;
    bal_k = bal_wide(0ull, 0ull);
    if (i <= n - 3) {
      bal_k += bal_wide(0ull, 1ull);
    }
    bal_def0 += (unsigned __int128)bal_w * bal_k;
  }
  return (uint64_t)(bal_def0 != bal_use0) << 0;
}
";

/// What is found in a text.
#[derive(Clone, Copy, Debug, PartialEq, Eq)]
pub enum Found {
    Unit,
    NoTokens,
    NoUnit,
    /// The text is too long, or memory ran out.
    Nothing,
}

pub fn kind_of(answer: &Result<Unit, Refusal>) -> Found {
    match answer {
        Ok(_) => Found::Unit,
        Err(Refusal::Lexical { .. }) => Found::NoTokens,
        Err(Refusal::Syntax { .. }) => Found::NoUnit,
        Err(_) => Found::Nothing,
    }
}

pub fn found_in(alloc: Global, text: &[u8]) -> Found {
    kind_of(&parse(alloc, text))
}

/// Whether the text has this unit.
pub fn is_unit(alloc: Global, text: &[u8], shown: &[u8]) -> bool {
    match parse(alloc, text) {
        Ok(unit) => shown_unit(alloc, &unit).as_slice() == shown,
        Err(_) => false,
    }
}

/// The parts, one behind another.
pub fn joined(alloc: Global, parts: &[&[u8]]) -> Result<Vec<u8>, AllocError> {
    let mut text = Vec::new(alloc);
    for part in parts {
        text.extend_from_slice(part)?;
    }
    Ok(text)
}

/// So many copies of the piece.
pub fn repeated(alloc: Global, piece: &[u8], count: usize) -> Result<Vec<u8>, AllocError> {
    let mut text = Vec::new(alloc);
    for _copy in 0..count {
        text.extend_from_slice(piece)?;
    }
    Ok(text)
}

/// A front, a piece so many times, a core, its end as many times, and a back.
pub fn nested(alloc: Global, parts: &[&str; 5], count: usize) -> Result<Vec<u8>, AllocError> {
    let [front, open, core, close, back] = parts;
    let opened = repeated(alloc, open.as_bytes(), count)?;
    let closed = repeated(alloc, close.as_bytes(), count)?;
    joined(
        alloc,
        &[
            front.as_bytes(),
            opened.as_slice(),
            core.as_bytes(),
            closed.as_slice(),
            back.as_bytes(),
        ],
    )
}

/// The unit of a source with this body.
pub fn source(alloc: Global, body: &[u8]) -> Result<Unit, Refusal> {
    let text = joined(alloc, &[b"void f(uint64_t x[1]) { ", body, b" }"])?;
    parse(alloc, text.as_slice())
}

const PRINTED_HEAD: &[u8] =
    b"#pragma balance version 1\nuint64_t f(uint64_t A[1], uint64_t B[1]) {\n";

/// The unit of a printed text with these statements before `begin` and behind it, and this last one,
/// for two arrays.
pub fn printed(alloc: Global, before: &[u8], behind: &[u8], last: &[u8]) -> Result<Unit, Refusal> {
    let mut text = Vec::from_slice(alloc, preamble())?;
    text.extend_from_slice(PRINTED_HEAD)?;
    text.extend_from_slice(before)?;
    text.extend_from_slice(b"\n#pragma balance begin\n")?;
    text.extend_from_slice(behind)?;
    text.extend_from_slice(b"\n")?;
    text.extend_from_slice(last)?;
    text.extend_from_slice(b"\n}\n")?;
    parse(alloc, text.as_slice())
}

/// The last statement of a printed text for two arrays.
pub const VERDICT: &[u8] =
    b"return (uint64_t)(bal_def0 != bal_use0) << 0 | (uint64_t)(bal_def1 != bal_use1) << 1;";
