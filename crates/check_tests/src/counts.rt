//! Counts at their limits, and one beyond.

use crate::texts::{judged, source_judged};
use c_tree::{Counted, Refusal};
use sample_texts::texts::{joined, repeated};
use std::alloc::Global;

const EIGHT_RANGES: &[u8] = b"#pragma balance range a 1 9
#pragma balance range b 1 9
#pragma balance range c 1 9
#pragma balance range d 1 9
#pragma balance range e 1 9
#pragma balance range g 1 9
#pragma balance range h 1 9
#pragma balance range i 1 9
";

const EIGHT_PARAMETERS: &[u8] =
    b"void f(int64_t a, int64_t b, uint64_t A[1], int64_t c, int64_t d, int64_t e, \
int64_t g, int64_t h, int64_t i";

const SIXTEEN_ARRAYS: &[u8] =
    b"uint64_t a0[1], uint64_t a1[1], const uint64_t a2[1], uint64_t a3[1][1], \
uint64_t a4[1], uint64_t a5[1], uint64_t a6[1], uint64_t a7[1], uint64_t a8[1], uint64_t a9[1], \
uint64_t a10[1], uint64_t a11[1], uint64_t a12[1], uint64_t a13[1], uint64_t a14[1], uint64_t a15[1][1][1]";

const SIXTEEN_SCALARS: &[u8] =
    b"uint64_t s0 = 0; uint64_t s1 = 0; uint64_t s2 = 0; uint64_t s3 = 0; \
uint64_t s4 = 0; uint64_t s5 = 0; uint64_t s6 = 0; uint64_t s7 = 0; uint64_t s8 = 0; uint64_t s9 = 0; \
uint64_t s10 = 0; uint64_t s11 = 0; uint64_t s12 = 0; uint64_t s13 = 0; uint64_t s14 = 0; uint64_t s15 = 0; ";

fn parts_judged(alloc: Global, parts: &[&[u8]]) -> Result<(), Refusal> {
    let text = joined(alloc, parts)?;
    judged(alloc, text.as_slice())
}

fn too_many(counted: Counted, count: u64, item: u32) -> Result<(), Refusal> {
    Err(Refusal::TooMany {
        counted,
        count,
        item,
    })
}

#[test]
fn takes_eight_parameters(rt: HostRuntime) {
    let eight = parts_judged(rt.alloc(), &[EIGHT_RANGES, EIGHT_PARAMETERS, b") {}"]);
    assert_eq!(rt; eight, Ok(()));
    let nine = parts_judged(
        rt.alloc(),
        &[
            EIGHT_RANGES,
            b"#pragma balance range j 1 9\n",
            EIGHT_PARAMETERS,
            b", int64_t j) {}",
        ],
    );
    assert_eq!(rt; nine, too_many(Counted::Parameters, 9, 0));
}

#[test]
fn takes_sixteen_arrays(rt: HostRuntime) {
    let sixteen = parts_judged(rt.alloc(), &[b"void f(", SIXTEEN_ARRAYS, b") {}"]);
    assert_eq!(rt; sixteen, Ok(()));
    let more = parts_judged(
        rt.alloc(),
        &[b"void f(", SIXTEEN_ARRAYS, b", uint64_t a16[1]) {}"],
    );
    assert_eq!(rt; more, too_many(Counted::Arrays, 17, 0));
}

#[test]
fn takes_sixteen_scalars(rt: HostRuntime) {
    let sixteen = parts_judged(
        rt.alloc(),
        &[b"void f(uint64_t A[1]) { ", SIXTEEN_SCALARS, b"}"],
    );
    assert_eq!(rt; sixteen, Ok(()));
    let more = parts_judged(
        rt.alloc(),
        &[
            b"void f(uint64_t A[1]) { ",
            SIXTEEN_SCALARS,
            b"uint64_t s16 = 0; }",
        ],
    );
    assert_eq!(rt; more, too_many(Counted::Scalars, 17, 0));
}

const SIX_LOOPS: &[u8] = b"for (int64_t a = 0; a < 3; a++) for (int64_t b = 0; b < 3; b++) \
for (int64_t c = 0; c < 3; c++) for (int64_t d = 0; d < 3; d++) for (int64_t e = 0; e < 3; e++) \
for (int64_t g = 0; g < 3; g++) ";

/// More parameters than may be, arrays, scalars, depth, assignments and reads: the first of them in this
/// order is answered.
#[test]
fn counts_come_in_their_order(rt: HostRuntime) {
    let alloc = rt.alloc();
    let nine = parts_judged(
        alloc,
        &[
            EIGHT_RANGES,
            b"#pragma balance range j 1 9\n",
            EIGHT_PARAMETERS,
            b", int64_t j, ",
            SIXTEEN_ARRAYS,
            b") { ",
            SIXTEEN_SCALARS,
            b"uint64_t s16 = 0; }",
        ],
    );
    assert_eq!(rt; nine, too_many(Counted::Parameters, 9, 0));
    let arrays = parts_judged(
        alloc,
        &[
            EIGHT_RANGES,
            EIGHT_PARAMETERS,
            b", ",
            SIXTEEN_ARRAYS,
            b") { ",
            SIXTEEN_SCALARS,
            b"uint64_t s16 = 0; }",
        ],
    );
    assert_eq!(rt; arrays, too_many(Counted::Arrays, 17, 0));
    let scalars = parts_judged(
        alloc,
        &[
            b"void f(uint64_t A[1]) { ",
            SIXTEEN_SCALARS,
            b"uint64_t s16 = 0; uint64_t s17 = 0; ",
            SIX_LOOPS,
            b"for (int64_t h = 0; h < 3; h++) ; }",
        ],
    );
    assert_eq!(rt; scalars, too_many(Counted::Scalars, 18, 0));
}

/// Bodies with loops within loops. An `if` between them counts as an item and not as a loop.
const DEEP: [(&str, u64, u32); 6] = [
    ("for (int64_t h = 0; h < 3; h++) ;", 7, 7),
    (
        "for (int64_t h = 0; h < 3; h++) for (int64_t i = 0; i < 3; i++) ;",
        7,
        7,
    ),
    ("if (n < 3) for (int64_t h = 0; h < 3; h++) ;", 7, 8),
    (
        "{ A[0] = 1; A[1] = n * m; for (int64_t h = 0; h < 3; h++) ; }",
        7,
        9,
    ),
    (
        "{ for (int64_t h = 0; h < 3; h++) ; for (int64_t h = 0; h < 3; h++) ; }",
        7,
        7,
    ),
    (
        "A[0] = 1; for (int64_t g = 0; g < 3; g++) for (int64_t b = 0; b < 3; b++) for (int64_t c = 0; c < 3; c++) \
for (int64_t d = 0; d < 3; d++) for (int64_t e = 0; e < 3; e++) for (int64_t h = 0; h < 3; h++) \
if (n < 3) ; else for (int64_t i = 0; i < 3; i++) A[0] = 1;",
        7,
        15,
    ),
];

const DEEP_HEAD: &[u8] = b"#pragma balance range n 1 9
#pragma balance range m 1 9
void f(int64_t n, int64_t m, uint64_t A[n]) { ";

fn deep_judged(alloc: Global, body: &str) -> Result<(), Refusal> {
    parts_judged(alloc, &[DEEP_HEAD, SIX_LOOPS, body.as_bytes(), b" }"])
}

#[test]
fn refuses_seven_loops_within_each_other(rt: HostRuntime) {
    for (body, count, item) in DEEP {
        assert_eq!(rt;
            deep_judged(rt.alloc(), body),
            too_many(Counted::Depth, count, item),
            "{body}"
        );
    }
}

/// Bodies with at most six loops within each other.
const SIX_DEEP: [&str; 4] = [
    ";",
    "A[0] = 1;",
    "if (n < 3) { if (m < 3) A[0] = 1; }",
    "A[0] = 1; for (int64_t a = 0; a < 3; a++) for (int64_t b = 0; b < 3; b++) ;",
];

#[test]
fn takes_six_loops_within_each_other(rt: HostRuntime) {
    for body in SIX_DEEP {
        assert_eq!(rt; deep_judged(rt.alloc(), body), Ok(()), "{body}");
    }
}

fn assignments_judged(alloc: Global, count: usize, back: &[u8]) -> Result<(), Refusal> {
    let assignments = repeated(alloc, b"A[0] = 1;\n", count)?;
    parts_judged(
        alloc,
        &[
            DEEP_HEAD,
            b"for (int64_t i = 0; i < 3; i++) { if (n < 3) { ",
            assignments.as_slice(),
            b"} else ",
            back,
            b" } }",
        ],
    )
}

/// Loops and choices aren't counted.
#[test]
fn takes_256_assignments(rt: HostRuntime) {
    let alloc = rt.alloc();
    assert_eq!(rt; assignments_judged(alloc, 255, b"A[0] += 1;"), Ok(()));
    let more = too_many(Counted::Statements, 257, 0);
    assert_eq!(rt; assignments_judged(alloc, 256, b"A[0] += 1;"), more);
    assert_eq!(rt; assignments_judged(alloc, 256, b"A[0] = n * n / 0;"), more);
    let many = too_many(Counted::Statements, 1001, 0);
    assert_eq!(rt; assignments_judged(alloc, 1000, b"A[0] = 1;"), many);
}

/// Seven loops, 257 assignments and 17 reads: depth comes first, then assignments.
#[test]
fn depth_comes_before_assignments_and_reads(rt: HostRuntime) {
    let alloc = rt.alloc();
    let seven = assignments_judged(
        alloc,
        256,
        b"for (int64_t a = 0; a < 3; a++) for (int64_t b = 0; b < 3; b++) for (int64_t c = 0; c < 3; c++) \
for (int64_t d = 0; d < 3; d++) for (int64_t e = 0; e < 3; e++) for (int64_t g = 0; g < 3; g++) A[0] = 1;",
    );
    assert_eq!(rt; seven, too_many(Counted::Depth, 7, 264));
    let reads = assignments_judged(
        alloc,
        256,
        b"A[0] += A[0] + A[0] + A[0] + A[0] + A[0] + A[0] + A[0] + A[0] + A[0] + A[0] + A[0] + A[0] + A[0] + A[0] \
+ A[0] + A[0];",
    );
    assert_eq!(rt; reads, too_many(Counted::Statements, 257, 0));
}

/// Bodies whose last assignment reads 16 cells with one more `A[0] +` in its place: old cells, index cells
/// and those of the right side are counted.
const READS: [(&str, &str, usize, u32); 8] = [
    ("s = ", "A[0];", 15, 1),
    ("A[0] = ", "A[0];", 15, 1),
    ("A[0] += ", "A[0];", 14, 1),
    ("s += ", "A[0];", 15, 1),
    ("A[1] = 1; if (n < 3) A[0] = ", "P[Q[0]];", 14, 3),
    ("A[0] -= ", "B[P[0]][Q[0]];", 12, 1),
    (
        "for (int64_t i = 0; i < n; i++) A[i] = ",
        "umin(A[0], ~(uint64_t)(s < (uint64_t)A[0]));",
        14,
        2,
    ),
    ("A[1] = 1; A[0] = ", "(uint64_t)n + s;", 16, 2),
];

fn reads_judged(alloc: Global, parts: (&str, &str), count: usize) -> Result<(), Refusal> {
    let (front, back) = parts;
    let reads = repeated(alloc, b"A[0] + ", count)?;
    parts_judged(
        alloc,
        &[
            b"#pragma balance range n 1 9
void f(int64_t n, uint64_t A[n], uint64_t B[n][n], const uint64_t P[n], const uint64_t Q[n]) { uint64_t s = 0; ",
            front.as_bytes(),
            reads.as_slice(),
            back.as_bytes(),
            b" }",
        ],
    )
}

#[test]
fn takes_16_reads(rt: HostRuntime) {
    for (front, back, count, item) in READS {
        assert_eq!(rt;
            reads_judged(rt.alloc(), (front, back), count),
            Ok(()),
            "{front}"
        );
        assert_eq!(rt;
            reads_judged(rt.alloc(), (front, back), count + 1),
            too_many(Counted::Reads, 17, item),
            "{front}"
        );
    }
}

/// Index cells of a target are read too, and so is the old cell that they name.
#[test]
fn counts_the_index_cells_of_a_target(rt: HostRuntime) {
    let alloc = rt.alloc();
    let irregular = Err(Refusal::IrregularWrite { item: 1 });
    let plain = ("A[P[0]] = ", "A[0];");
    assert_eq!(rt; reads_judged(alloc, plain, 14), irregular);
    assert_eq!(rt;
        reads_judged(alloc, plain, 15),
        too_many(Counted::Reads, 17, 1)
    );
    let compound = ("A[P[0]] += ", "A[0];");
    assert_eq!(rt; reads_judged(alloc, compound, 13), irregular);
    assert_eq!(rt;
        reads_judged(alloc, compound, 14),
        too_many(Counted::Reads, 17, 1)
    );
}

/// Bodies with more reads than may be, and the first item with them; before it stands a higher fault.
const MANY_READS: [(&str, u64, u32); 2] = [
    (
        "A[0] = n; A[0] = s / 0; s = A[0] + A[0] + A[0] + A[0] + A[0] + A[0] + A[0] + A[0] + A[0] + A[0] + A[0] \
+ A[0] + A[0] + A[0] + A[0] + A[0] + A[0] + A[0]; A[0] = 1;",
        18,
        3,
    ),
    (
        "if (n * m < 1) A[0] += A[0] + A[0] + A[0] + A[0] + A[0] + A[0] + A[0] + A[0] + A[0] + A[0] + A[0] \
+ A[0] + A[0] + A[0] + A[0] + A[0]; else s = P[0] + P[0] + P[0] + P[0] + P[0] + P[0] + P[0] + P[0] + P[0] \
+ P[0] + P[0] + P[0] + P[0] + P[0] + P[0] + P[0] + P[0] + P[0] + P[0] + P[0];",
        17,
        2,
    ),
];

#[test]
fn reads_carry_the_first_item(rt: HostRuntime) {
    for (body, count, item) in MANY_READS {
        assert_eq!(rt;
            source_judged(rt.alloc(), body),
            too_many(Counted::Reads, count, item),
            "{body}"
        );
    }
}
