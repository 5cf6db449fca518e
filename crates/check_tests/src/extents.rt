//! Extents whose interval begins below 1.

use crate::texts::judged;
use c_tree::Refusal;

/// Sources with such an extent. It comes before what is refused in items by a higher number.
const BELOW: [&str; 11] = [
    "#pragma balance range n 1 1000\nvoid f(int64_t n, uint64_t A[n - n + 1]) {}",
    "void f(uint64_t A[0]) {}",
    "void f(uint64_t A[-1]) {}",
    "#pragma balance range n 1 1000\nvoid f(int64_t n, uint64_t A[n - 1]) {}",
    "#pragma balance range n 0 1000\nvoid f(int64_t n, uint64_t A[n]) {}",
    "#pragma balance range n 1 2\nvoid f(int64_t n, uint64_t A[2 - n]) {}",
    "#pragma balance range n 1 9\nvoid f(int64_t n, uint64_t A[n][0]) {}",
    "#pragma balance range n 1 9\nvoid f(int64_t n, uint64_t A[n], const uint64_t B[1][1][n - 1]) {}",
    "#pragma balance range n -9 9\nvoid f(int64_t n, uint64_t A[n * 0 + n]) {}",
    "void f(uint64_t A[0]) { A[0][0] = 1; }",
    "void f(const uint64_t A[0]) { A[0] = A[A[0]] / 0; A[A[0]] = 1; }",
];

#[test]
fn refuses_extents_that_may_be_below_one(rt: HostRuntime) {
    let refused = Err(Refusal::ExtentNotPositive { item: 0 });
    for text in BELOW {
        assert_eq!(rt; judged(rt.alloc(), text.as_bytes()), refused, "{text}");
    }
}

const FROM_ONE: [&str; 6] = [
    "void f(uint64_t A[1]) {}",
    "#pragma balance range n 1 1\nvoid f(int64_t n, uint64_t A[n]) {}",
    "#pragma balance range n 2 1000\nvoid f(int64_t n, uint64_t A[n - 1]) {}",
    "#pragma balance range n 1 9\nvoid f(int64_t n, uint64_t A[n - n + 9]) {}",
    "#pragma balance range n 1 9\nvoid f(int64_t n, uint64_t A[10 - n]) {}",
    "#pragma balance range n -9 9\nvoid f(int64_t n, uint64_t A[0 * n + 1][-n + 10]) {}",
];

#[test]
fn takes_extents_from_one_on(rt: HostRuntime) {
    for text in FROM_ONE {
        assert_eq!(rt; judged(rt.alloc(), text.as_bytes()), Ok(()), "{text}");
    }
}

/// A lower number in an item comes before it.
#[test]
fn other_refusals_come_before_extents(rt: HostRuntime) {
    let text = b"void f(uint64_t A[0]) { A[1] = 1; A[~0] = 1; }";
    assert_eq!(rt;
        judged(rt.alloc(), text),
        Err(Refusal::NotAffine { item: 2 })
    );
}
