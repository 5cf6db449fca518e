//! The texts that tests are made of, and what they are refused for.

ghost use Rattle.std.specs.Prelude.{◌⊎◌};
ghost use Rattle.acceptance.specs.Trees.{IsSourceTree, IsPrintedTree};
ghost use Rattle.c_tree.specs.Trees.{unit as unit_in};

use c_parser::parse;
use c_tree::{Refusal, Unit, preamble};
use kernel_check::{judge_printed, judge_source};
use sample_texts::texts::joined;
use std::alloc::Global;
use tree_texts::texts_have_trees;

fn unit_judged(alloc: Global, unit: &Unit) -> Result<(), Refusal>
    requires { IsSourceTree (unit_in unit.now) ⊎ IsPrintedTree (unit_in unit.now) }
{
    match unit.version {
        None => judge_source(alloc, unit),
        Some(_) => judge_printed(alloc, unit),
    }
}

/// What the text is refused for, if anything.
pub fn judged(alloc: Global, text: &[u8]) -> Result<(), Refusal> {
    texts_have_trees();
    match parse(alloc, text) {
        Ok(unit) => unit_judged(alloc, &unit),
        Err(refusal) => Err(refusal),
    }
}

const SOURCE_HEAD: &[u8] = b"#pragma balance range n 1 1000
#pragma balance range m -9 9
void f(int64_t n, int64_t m, uint64_t A[n], uint64_t B[n][n], const uint64_t P[n], const uint64_t Q[n]) {
  uint64_t s = 0;
  ";

/// A source with the parameters `n` and `m`, the arrays `A` and `B`, the `const` arrays `P` and `Q`, the
/// scalar `s` and this body. `B` has two dimensions.
pub fn source_judged(alloc: Global, body: &str) -> Result<(), Refusal> {
    let text = joined(alloc, &[SOURCE_HEAD, body.as_bytes(), b"\n}\n"])?;
    judged(alloc, text.as_slice())
}

const PRINTED_HEAD: &[u8] = b"#pragma balance version 1
#pragma balance range n 1 1000
uint64_t bal_fn_f(int64_t n, uint64_t A[n], const uint64_t P[n]) {
  uint64_t s = 0ull;
  unsigned __int128 k = 0;
  unsigned __int128 bal_def0 = 0;
  unsigned __int128 bal_use0 = 0;
  unsigned __int128 bal_def1 = 0;
  unsigned __int128 bal_use1 = 0;
  uint64_t *t = calloc(5ull, sizeof(uint64_t));
  if (t == 0) { return 1099511627776ull; }
  ";

const PRINTED_END: &[u8] = b"
  return (uint64_t)(bal_def0 != bal_use0) << 0 | (uint64_t)(bal_def1 != bal_use1) << 1;
}
";

/// A printed text with the parameter `n`, the arrays `A` and `P`, the word `s`, the wide name `k`, the
/// table `t`, which is item 1, and these statements before `begin` and behind it.
pub fn printed_judged(alloc: Global, before: &str, behind: &str) -> Result<(), Refusal> {
    let mut text = Vec::from_slice(alloc, preamble())?;
    text.extend_from_slice(PRINTED_HEAD)?;
    text.extend_from_slice(before.as_bytes())?;
    text.extend_from_slice(b"\n#pragma balance begin\n  ")?;
    text.extend_from_slice(behind.as_bytes())?;
    text.extend_from_slice(PRINTED_END)?;
    judged(alloc, text.as_slice())
}

/// The preamble with this text behind it.
pub fn with_preamble_judged(alloc: Global, back: &[u8]) -> Result<(), Refusal> {
    let mut text = Vec::from_slice(alloc, preamble())?;
    text.extend_from_slice(back)?;
    judged(alloc, text.as_slice())
}
