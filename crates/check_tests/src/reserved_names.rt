//! Reserved names.

use crate::texts::{judged, source_judged};
use c_tree::Refusal;
use sample_texts::texts::joined;
use std::alloc::Global;

/// Words that may not be declared.
const WORDS: [&str; 37] = [
    "auto", "break", "case", "char", "continue", "default", "do", "double", "enum", "extern",
    "float", "goto", "inline", "int", "long", "register", "restrict", "short", "signed", "sizeof",
    "static", "struct", "switch", "typedef", "union", "volatile", "while", "main", "size_t",
    "bal_", "bal_x", "_", "_Bool", "__x", "_1", "bal_fn_f", "bal_k",
];

fn scalar_judged(alloc: Global, word: &str) -> Result<(), Refusal> {
    let text = joined(
        alloc,
        &[
            b"void f(uint64_t A[1]) { uint64_t ",
            word.as_bytes(),
            b" = 0; }",
        ],
    )?;
    judged(alloc, text.as_slice())
}

#[test]
fn refuses_reserved_words(rt: HostRuntime) {
    let refused = Err(Refusal::ReservedName { item: 0 });
    for word in WORDS {
        assert_eq!(rt; scalar_judged(rt.alloc(), word), refused, "{word}");
    }
}

/// Words that may be declared.
const FREE: [&str; 17] = [
    "pragma", "balance", "range", "version", "begin", "bal", "balk", "ball_", "Bal_x", "x_", "a_b",
    "Int", "mains", "size", "uint32_t", "NULL", "asm",
];

#[test]
fn takes_words_that_are_not_reserved(rt: HostRuntime) {
    for word in FREE {
        assert_eq!(rt; scalar_judged(rt.alloc(), word), Ok(()), "{word}");
    }
}

/// Sources whose head declares a reserved name: a parameter, an array, a scalar and the function.
const HEADS: [&str; 6] = [
    "#include <stdint.h>
/* C = C + A * B */
#pragma scop
#pragma balance range long 1 500
void mm(int64_t long, const uint64_t A[long][long], const uint64_t B[long][long], uint64_t C[long][long]) {
  for (int64_t i = 0; i < long; i++)
    for (int64_t j = 0; j < long; j++)
      for (int64_t k = 0; k < long; k++)
        C[i][j] += A[i][k] * B[k][j];
}
",
    "#pragma balance range n 1 1000
void shift(int64_t n, uint64_t A[n]) {
  uint64_t bal_x = 0;
  for (int64_t i = 0; i < n - 1; i++)
    A[i + 1] = A[i] + 1;
}
",
    "void main(uint64_t A[1]) {}",
    "void f(uint64_t A[1], const uint64_t bal_A[1]) {}",
    "void f(uint64_t _A[1]) { uint64_t s = 0; for (int64_t _i = 0; _i < 3; _i++) s = s / 0; }",
    "void f(int64_t char, uint64_t A[0]) { A[0] = 1 / 0; }",
];

#[test]
fn refuses_reserved_names_in_the_head(rt: HostRuntime) {
    let refused = Err(Refusal::ReservedName { item: 0 });
    for text in HEADS {
        assert_eq!(rt; judged(rt.alloc(), text.as_bytes()), refused, "{text}");
    }
}

/// Bodies with a loop of a reserved name, and its number.
const LOOPS: [(&str, u32); 6] = [
    ("for (int64_t _i = 0; _i < n; _i++) A[0] = 1;", 1),
    (
        "A[0] = 1; for (int64_t bal_i0 = 0; bal_i0 < n; bal_i0++) A[0] = 1;",
        2,
    ),
    (
        "A[0] = 1; if (n < 3) { A[1] = 1; } for (int64_t int = 0; int < n; int++) ;",
        4,
    ),
    (
        "for (int64_t i = 0; i < n; i++) { for (int64_t do = 0; do < n; do++) ; for (int64_t if_ = 0; if_ < n; if_++) ; }",
        2,
    ),
    (
        "A[0] = A[0] / 0; for (int64_t _i = 0; _i < n; _i++) A[0] = 1;",
        2,
    ),
    (
        "A[n * m] = n; A[P[0]] = 1; for (int64_t size_t = 0; size_t < n; size_t++) ;",
        3,
    ),
];

#[test]
fn refuses_loops_of_reserved_names(rt: HostRuntime) {
    for (body, item) in LOOPS {
        assert_eq!(rt;
            source_judged(rt.alloc(), body),
            Err(Refusal::ReservedName { item }),
            "{body}"
        );
    }
}
