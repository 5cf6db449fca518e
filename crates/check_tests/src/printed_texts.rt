//! Printed texts: the instrumented shift, and one text and more for each number.

use crate::texts::{printed_judged, with_preamble_judged};
use c_tree::Refusal;
use sample_texts::texts::{GUARDED, joined};
use std::alloc::Global;

/// The shift, instrumented, up to the name to which what is read is added.
const FRONT: &[u8] = b"#pragma balance version 1
#pragma balance range n 1 1000
uint64_t bal_fn_shift(int64_t n, uint64_t A[n]) {
  uint64_t bal_r0 = 0ull;
  uint64_t bal_w = 0ull;
  uint64_t bal_c0 = 0ull;
  uint64_t bal_c1 = 0ull;
  unsigned __int128 bal_k = 0;
  unsigned __int128 bal_def0 = 0;
  unsigned __int128 bal_use0 = 0;
  for (int64_t bal_i0 = 0; bal_i0 < n; bal_i0++) {
    bal_r0 = A[bal_i0];
    bal_c0 = 1ull;
    bal_c1 = 0ull;
    for (int64_t bal_l0 = 0; bal_l0 < n - 1; bal_l0++) {
      if (bal_l0 == bal_i0) {
        bal_c1 += bal_c0;
      }
      if (bal_l0 + 1 == bal_i0) {
        bal_c0 = 0ull;
      }
    }
    bal_k = (unsigned __int128)bal_c1;
    bal_def0 += (unsigned __int128)bal_r0 * bal_k;
  }
#pragma balance begin
  for (int64_t i = 0; i < n - 1; i++) {
    bal_r0 = A[i];
    ";

/// And behind it.
const BACK: &[u8] = b" += (unsigned __int128)bal_r0;
    bal_w = bal_r0 + 1ull;
    A[i + 1] = bal_w;
    bal_c0 = 0ull;
    bal_c1 = 0ull;
    for (int64_t bal_l0 = 0; bal_l0 < n - 1; bal_l0++) {
      if (bal_l0 == i + 1) {
        bal_c1 += bal_c0;
      }
      if (bal_l0 + 1 == i + 1) {
        if (bal_l0 == i) {
          bal_c0 = 1ull;
        } else {
          bal_c0 = 0ull;
        }
      }
    }
    bal_k = (unsigned __int128)bal_c1;
    bal_def0 += (unsigned __int128)bal_w * bal_k;
  }
  return (uint64_t)(bal_def0 != bal_use0) << 0;
}
";

fn shift_judged(alloc: Global, total: &[u8]) -> Result<(), Refusal> {
    let text = joined(alloc, &[FRONT, total, BACK])?;
    with_preamble_judged(alloc, text.as_slice())
}

#[test]
fn accepts_the_instrumented_shift(rt: HostRuntime) {
    assert_eq!(rt; shift_judged(rt.alloc(), b"bal_use0"), Ok(()));
    assert_eq!(rt; with_preamble_judged(rt.alloc(), GUARDED), Ok(()));
}

#[test]
fn refuses_another_name_for_a_total(rt: HostRuntime) {
    let unknown = Err(Refusal::NameUnknown { item: 14 });
    assert_eq!(rt; shift_judged(rt.alloc(), b"total"), unknown);
    let kind = Err(Refusal::WrongKind { item: 14 });
    assert_eq!(rt; shift_judged(rt.alloc(), b"bal_w"), kind);
}

const ONE_ARRAY: &[u8] = b") {
  unsigned __int128 bal_def0 = 0;
  unsigned __int128 bal_use0 = 0;
#pragma balance begin
  return (uint64_t)(bal_def0 != bal_use0) << 0;
}
";

/// The range lines and the parameters of texts with one array that are refused in their head.
const HEADS: [(&str, &str, Refusal); 15] = [
    (
        "#pragma balance range n 1 9\n",
        "int64_t n, int64_t n, uint64_t A[1]",
        Refusal::NameTwice { item: 0 },
    ),
    (
        "#pragma balance range n 1 9\n",
        "int64_t n, uint64_t n[1]",
        Refusal::NameTwice { item: 0 },
    ),
    ("", "uint64_t bal_def0[1]", Refusal::NameTwice { item: 0 }),
    ("", "uint64_t bal_fn_f[1]", Refusal::NameTwice { item: 0 }),
    ("", "uint64_t A[n]", Refusal::NameUnknown { item: 0 }),
    ("", "uint64_t A[bal_def0]", Refusal::NameUnknown { item: 0 }),
    (
        "",
        "int64_t n, uint64_t A[1]",
        Refusal::BadRange { item: 0 },
    ),
    (
        "#pragma balance range A 1 9\n",
        "uint64_t A[1]",
        Refusal::BadRange { item: 0 },
    ),
    (
        "#pragma balance range n 1 1099511627777\n",
        "int64_t n, uint64_t A[1]",
        Refusal::BadRange { item: 0 },
    ),
    (
        "#pragma balance range n 1 9\n",
        "int64_t n, uint64_t A[n * n]",
        Refusal::NotAffine { item: 0 },
    ),
    (
        "",
        "uint64_t A[bal_max(1, 2)]",
        Refusal::NotAffine { item: 0 },
    ),
    (
        "#pragma balance range n 1 9\n",
        "int64_t n, uint64_t A[1048577 * n]",
        Refusal::CoefficientTooLarge { item: 0 },
    ),
    (
        "#pragma balance range n -1099511627776 1099511627776\n",
        "int64_t n, uint64_t A[1048576 * (n - n + n - n) + 1]",
        Refusal::IntervalTooWide { item: 0 },
    ),
    (
        "#pragma balance range n -1099511627776 1099511627776\n",
        "int64_t n, uint64_t A[1048576 * (n - n + n - n)]",
        Refusal::ExtentNotPositive { item: 0 },
    ),
    (
        "#pragma balance range n 1 9\n",
        "int64_t n, uint64_t A[n - n + 1]",
        Refusal::ExtentNotPositive { item: 0 },
    ),
];

fn head_judged(alloc: Global, ranges: &str, params: &str) -> Result<(), Refusal> {
    let text = joined(
        alloc,
        &[
            b"#pragma balance version 1\n",
            ranges.as_bytes(),
            b"uint64_t bal_fn_f(",
            params.as_bytes(),
            ONE_ARRAY,
        ],
    )?;
    with_preamble_judged(alloc, text.as_slice())
}

#[test]
fn refuses_heads(rt: HostRuntime) {
    for (ranges, params, refusal) in HEADS {
        assert_eq!(rt;
            head_judged(rt.alloc(), ranges, params),
            Err(refusal),
            "{params}"
        );
    }
}

#[test]
fn accepts_heads_that_a_source_may_not_have(rt: HostRuntime) {
    let alloc = rt.alloc();
    let reserved = head_judged(alloc, "", "uint64_t bal_x[1048576][1048576][1048576]");
    assert_eq!(rt; reserved, Ok(()));
    let nine = head_judged(
        alloc,
        "#pragma balance range a 1 9\n#pragma balance range b 1 9\n#pragma balance range c 1 9\n\
#pragma balance range d 1 9\n#pragma balance range e 1 9\n#pragma balance range g 1 9\n\
#pragma balance range h 1 9\n#pragma balance range i 1 9\n#pragma balance range j 1 9\n",
        "int64_t a, int64_t b, int64_t c, int64_t d, int64_t e, int64_t g, int64_t h, int64_t i, int64_t j, uint64_t A[j]",
    );
    assert_eq!(rt; nine, Ok(()));
}

/// The scalars and wide names of texts with one array whose last statement is the only item.
const WORDS: [(&str, Refusal); 8] = [
    (
        "uint64_t A = 0; unsigned __int128 bal_def0 = 0; unsigned __int128 bal_use0 = 0;",
        Refusal::NameTwice { item: 0 },
    ),
    (
        "unsigned __int128 bal_def0 = 0; unsigned __int128 A = 0;",
        Refusal::NameTwice { item: 0 },
    ),
    (
        "unsigned __int128 bal_def0 = 0; unsigned __int128 bal_def0 = 0;",
        Refusal::NameTwice { item: 0 },
    ),
    (
        "uint64_t bal_def0 = 0; unsigned __int128 bal_def0 = 0;",
        Refusal::NameTwice { item: 0 },
    ),
    (
        "unsigned __int128 bal_fn_f = 0;",
        Refusal::NameTwice { item: 0 },
    ),
    (
        "unsigned __int128 bal_def0 = 0;",
        Refusal::NameUnknown { item: 1 },
    ),
    (
        "uint64_t bal_use0 = 0; unsigned __int128 bal_def0 = 0;",
        Refusal::WrongKind { item: 1 },
    ),
    (
        "uint64_t bal_use0 = 0; uint64_t bal_def0 = 0;",
        Refusal::WrongKind { item: 1 },
    ),
];

fn words_judged(alloc: Global, words: &str) -> Result<(), Refusal> {
    let text = joined(
        alloc,
        &[
            b"#pragma balance version 1\nuint64_t bal_fn_f(uint64_t A[1]) { ",
            words.as_bytes(),
            b"\n#pragma balance begin\nreturn (uint64_t)(bal_def0 != bal_use0) << 0; }",
        ],
    )?;
    with_preamble_judged(alloc, text.as_slice())
}

#[test]
fn refuses_declared_words(rt: HostRuntime) {
    for (words, refusal) in WORDS {
        assert_eq!(rt; words_judged(rt.alloc(), words), Err(refusal), "{words}");
    }
}

#[test]
fn accepts_a_text_without_arrays(rt: HostRuntime) {
    let text = b"#pragma balance version 1
#pragma balance range n 1 9
uint64_t bal_fn_f(int64_t n) {
#pragma balance begin
  return 0;
}
";
    assert_eq!(rt; with_preamble_judged(rt.alloc(), text), Ok(()));
}

/// Statements before `begin` and behind it, and what they are refused for. The table `t` is item 1, and
/// `begin` is none. A table is in scope behind its statement.
const STATEMENTS: [(&str, &str, Refusal); 33] = [
    (
        "for (int64_t t = 0; t < n; t++) ;",
        "",
        Refusal::NameTwice { item: 2 },
    ),
    (
        "",
        "for (int64_t i = 0; i < n; i++) for (int64_t t = 0; t < n; t++) ;",
        Refusal::NameTwice { item: 3 },
    ),
    (
        "",
        "for (int64_t k = 0; k < n; k++) ;",
        Refusal::NameTwice { item: 2 },
    ),
    (
        "for (int64_t i = 0; i < n; i++) for (int64_t i = 0; i < n; i++) ;",
        "",
        Refusal::NameTwice { item: 3 },
    ),
    (
        "uint64_t *n = calloc(s, sizeof(uint64_t)); if (n == 0) { return 1099511627776ull; }",
        "",
        Refusal::NameTwice { item: 2 },
    ),
    (
        "uint64_t *A = calloc(s, sizeof(uint64_t)); if (A == 0) { return 1099511627776ull; }",
        "",
        Refusal::NameTwice { item: 2 },
    ),
    (
        "s = 1; uint64_t *s = calloc(s, sizeof(uint64_t)); if (s == 0) { return 1099511627776ull; }",
        "",
        Refusal::NameTwice { item: 3 },
    ),
    (
        "uint64_t *k = calloc(s, sizeof(uint64_t)); if (k == 0) { return 1099511627776ull; }",
        "",
        Refusal::NameTwice { item: 2 },
    ),
    (
        "uint64_t *t = calloc(s, sizeof(uint64_t)); if (t == 0) { return 1099511627776ull; }",
        "",
        Refusal::NameTwice { item: 2 },
    ),
    (
        "uint64_t *bal_fn_f = calloc(s, sizeof(uint64_t)); if (bal_fn_f == 0) { return 1099511627776ull; }",
        "",
        Refusal::NameTwice { item: 2 },
    ),
    (
        "s = q;",
        "for (int64_t t = 0; t < n; t++) ;",
        Refusal::NameTwice { item: 3 },
    ),
    ("s = q;", "", Refusal::NameUnknown { item: 2 }),
    ("", "s = q;", Refusal::NameUnknown { item: 2 }),
    ("s = 1;", "k += q;", Refusal::NameUnknown { item: 3 }),
    ("q = 1;", "", Refusal::NameUnknown { item: 2 }),
    (
        "s = u[0]; uint64_t *u = calloc(s, sizeof(uint64_t)); if (u == 0) { return 1099511627776ull; }",
        "",
        Refusal::NameUnknown { item: 2 },
    ),
    (
        "uint64_t *u = calloc(u[0], sizeof(uint64_t)); if (u == 0) { return 1099511627776ull; }",
        "",
        Refusal::NameUnknown { item: 2 },
    ),
    (
        "if (q >= (uint64_t)(n)) { return 65536ull; }",
        "",
        Refusal::NameUnknown { item: 2 },
    ),
    (
        "",
        "if (s >= (uint64_t)(q)) { return 65536ull; }",
        Refusal::NameUnknown { item: 2 },
    ),
    (
        "s = n; A[0][0] = s / 0;",
        "for (int64_t i = 0; i < bal_min(n, q); i++) ;",
        Refusal::NameUnknown { item: 4 },
    ),
    ("A[0][0] = 1;", "", Refusal::WrongDimensions { item: 2 }),
    ("t[0][0] = 1;", "", Refusal::WrongDimensions { item: 2 }),
    ("t = 1;", "", Refusal::WrongDimensions { item: 2 }),
    ("s = A;", "", Refusal::WrongDimensions { item: 2 }),
    ("s[0] = 1;", "", Refusal::WrongDimensions { item: 2 }),
    ("", "s = n[0];", Refusal::WrongDimensions { item: 2 }),
    (
        "s = n; s = s / 0;",
        "k = k[0];",
        Refusal::WrongDimensions { item: 4 },
    ),
    ("s = s / 0;", "", Refusal::BadLiteral { item: 2 }),
    ("", "s = s << 64ull;", Refusal::BadLiteral { item: 2 }),
    ("s = s >> s;", "", Refusal::BadLiteral { item: 2 }),
    ("k = k / 0;", "", Refusal::BadLiteral { item: 2 }),
    ("k = k / s;", "", Refusal::BadLiteral { item: 2 }),
    (
        "s = n;",
        "s = 1; s = 5 % 0;",
        Refusal::BadLiteral { item: 4 },
    ),
];

#[test]
fn refuses_statements(rt: HostRuntime) {
    for (before, behind, refusal) in STATEMENTS {
        assert_eq!(rt;
            printed_judged(rt.alloc(), before, behind),
            Err(refusal),
            "{before} / {behind}"
        );
    }
}

/// Statements before `begin` and behind it that a printed text may have: bounds that aren't affine, with large
/// terms or wide intervals, loops of reserved names, seven of them within each other, many reads, a written
/// `const` array, and loops of the name of a later table.
const FREE: [(&str, &str); 8] = [
    (
        "for (int64_t i = 0; i < n * n; i++) ;",
        "for (int64_t i = 0; i < n * n * n; i++) A[n * i] = s;",
    ),
    (
        "for (int64_t i = 0; i < 1048577 * n; i++) ;",
        "A[1048577] = s;",
    ),
    ("A[1048576 * n * n * n * n * n * n * n] = s;", ""),
    (
        "for (int64_t bal_i0 = 0; bal_i0 < n; bal_i0++) ;",
        "for (int64_t int = 0; int < n; int++) ;",
    ),
    (
        "for (int64_t a = 0; a < 3; a++) for (int64_t b = 0; b < 3; b++) for (int64_t c = 0; c < 3; c++) \
for (int64_t d = 0; d < 3; d++) for (int64_t e = 0; e < 3; e++) for (int64_t g = 0; g < 3; g++) \
for (int64_t h = 0; h < 3; h++) ;",
        "",
    ),
    (
        "",
        "s = A[0] + A[0] + A[0] + A[0] + A[0] + A[0] + A[0] + A[0] + A[0] + A[0] + A[0] + A[0] + A[0] + A[0] + A[0] \
+ A[0] + A[0] + A[0] + A[0] + A[0];",
    ),
    ("P[0] = s;", "P[s] = 1ull;"),
    (
        "for (int64_t u = 0; u < n; u++) ; uint64_t *u = calloc(s, sizeof(uint64_t)); if (u == 0) { return 1099511627776ull; }",
        "s = u[0];",
    ),
];

#[test]
fn accepts_statements_that_a_source_may_not_have(rt: HostRuntime) {
    for (before, behind) in FREE {
        assert_eq!(rt;
            printed_judged(rt.alloc(), before, behind),
            Ok(()),
            "{before} / {behind}"
        );
    }
}
