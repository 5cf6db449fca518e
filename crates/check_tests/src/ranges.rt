//! Range lines.

use crate::texts::judged;
use c_tree::Refusal;

/// Sources with a parameter without a range line or with two, a range line of another name, ends that are
/// the other way round, and an end beyond 2^40; the last three have higher faults too.
const BAD: [&str; 13] = [
    "void shift(int64_t n, uint64_t A[n]) {
  for (int64_t i = 0; i < n - 1; i++)
    A[i + 1] = A[i] + 1;
}
",
    "#pragma balance range n 1 9\n#pragma balance range n 1 9\nvoid f(int64_t n, uint64_t A[n]) {}",
    "#pragma balance range n 1 9\nvoid f(int64_t n, int64_t m, uint64_t A[n]) {}",
    "#pragma balance range n 1 9\nvoid f(uint64_t A[1]) {}",
    "#pragma balance range A 1 9\nvoid f(uint64_t A[1]) {}",
    "#pragma balance range s 1 9\nvoid f(uint64_t A[1]) { uint64_t s = 0; }",
    "#pragma balance range i 1 9\nvoid f(uint64_t A[1]) { for (int64_t i = 0; i < 3; i++) ; }",
    "#pragma balance range n 9 8\nvoid f(int64_t n) {}",
    "#pragma balance range n 0 1099511627777\nvoid f(int64_t n) {}",
    "#pragma balance range n -1099511627777 0\nvoid f(int64_t n) {}",
    "#pragma balance range n 9223372036854775807 9223372036854775807\nvoid f(int64_t n, uint64_t A[n * n]) {}",
    "#pragma balance range n 3 -3\nvoid f(int64_t n, uint64_t A[0]) { A[0] = n; }",
    "#pragma balance range n 1 9\nvoid f(int64_t n, int64_t m, uint64_t A[1048577 * n]) { A[0] = A[0] / 0; }",
];

#[test]
fn refuses_bad_ranges(rt: HostRuntime) {
    let refused = Err(Refusal::BadRange { item: 0 });
    for text in BAD {
        assert_eq!(rt; judged(rt.alloc(), text.as_bytes()), refused, "{text}");
    }
}

/// Sources whose range lines are right: one value, both ends at their limit, lines in another order.
const RIGHT: [&str; 4] = [
    "#pragma balance range n 9 9\nvoid f(int64_t n) {}",
    "#pragma balance range n -1099511627776 1099511627776\nvoid f(int64_t n) {}",
    "#pragma balance range n 0x10000000000 1099511627776u\nvoid f(int64_t n) {}",
    "#pragma balance range m 0 0\n#pragma balance range n -9 -8\nvoid f(int64_t n, int64_t m) {}",
];

#[test]
fn takes_ranges_up_to_their_limits(rt: HostRuntime) {
    for text in RIGHT {
        assert_eq!(rt; judged(rt.alloc(), text.as_bytes()), Ok(()), "{text}");
    }
}
