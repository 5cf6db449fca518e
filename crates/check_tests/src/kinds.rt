//! Kinds of names and expressions in printed texts.

use crate::texts::printed_judged;
use c_tree::Refusal;

/// Statements with a name or an expression of a kind that its place doesn't take: bounds, checks, subscripts,
/// tables, tests, words, wide names and other targets.
const WRONG: [&str; 65] = [
    "for (int64_t i = 0; i < s; i++) ;",
    "for (int64_t i = s; i < n; i++) ;",
    "for (int64_t i = 0; i < A[0]; i++) ;",
    "for (int64_t i = 0; i < ~n; i++) ;",
    "for (int64_t i = 0; i < n / 2; i++) ;",
    "for (int64_t i = 0; i < (uint64_t)n; i++) ;",
    "for (int64_t i = 0; i < bal_min(n, s); i++) ;",
    "for (int64_t i = 0; i < umin(n, 2); i++) ;",
    "for (int64_t i = 0; i < k; i++) ;",
    "if (n >= (uint64_t)(n)) { return 65536ull; }",
    "if (k >= (uint64_t)(n)) { return 65536ull; }",
    "if (s >= (uint64_t)(s)) { return 65536ull; }",
    "if (s >= (uint64_t)(n / 2)) { return 65536ull; }",
    "if (s >= (uint64_t)(bal_min(n, 2))) { return 65536ull; }",
    "A[A[0]] = 1;",
    "A[P[0]] = 1;",
    "A[s + P[0]] = 1;",
    "A[s + n] = 1;",
    "A[k] = 1;",
    "A[2 % 3] = 1;",
    "A[~0] = 1;",
    "A[bal_min(n, 2)] = 1;",
    "s = A[P[0]];",
    "s = A[k];",
    "t[n] = 1;",
    "t[k] = 1;",
    "s = t[n + 1];",
    "s = t[k];",
    "uint64_t *u = calloc(n, sizeof(uint64_t)); if (u == 0) { return 1099511627776ull; }",
    "uint64_t *u = calloc(k, sizeof(uint64_t)); if (u == 0) { return 1099511627776ull; }",
    "uint64_t *u = calloc(s + n, sizeof(uint64_t)); if (u == 0) { return 1099511627776ull; }",
    "if (n < s) ;",
    "if (s == n) ;",
    "if (n < 3 && s < n) ;",
    "if (A[0] < 1) ;",
    "if (s + A[0] < s) ;",
    "if (k < 1) ;",
    "if (k == k) ;",
    "if (n / 2 < n) ;",
    "if (~0 < 1) ;",
    "if (1 << 2 < 5) ;",
    "if (4 / 2 == 2) ;",
    "if (bal_max(n, 2) < 3) ;",
    "s = n;",
    "s = s + n;",
    "s = k;",
    "s = bal_wide(0, 1);",
    "s = (unsigned __int128)s;",
    "s = (uint64_t)k;",
    "s = (uint64_t)(s + n);",
    "s = (uint64_t)bal_wide(0, 1);",
    "s = bal_min(1, 2);",
    "A[0] = n;",
    "A[0] = k;",
    "t[0] = n;",
    "t[0] += (unsigned __int128)s;",
    "k = 5;",
    "k = s;",
    "k = k - k;",
    "k = -k;",
    "k = (unsigned __int128)k;",
    "k += 1;",
    "k -= bal_wide(0, 1);",
    "k *= bal_wide(0, 1);",
    "n = 1;",
];

#[test]
fn refuses_wrong_kinds(rt: HostRuntime) {
    for statement in WRONG {
        assert_eq!(rt;
            printed_judged(rt.alloc(), statement, ""),
            Err(Refusal::WrongKind { item: 2 }),
            "{statement}"
        );
        assert_eq!(rt;
            printed_judged(rt.alloc(), "s = 1ull;", statement),
            Err(Refusal::WrongKind { item: 3 }),
            "{statement}"
        );
    }
}

#[test]
fn refuses_to_write_the_variable_of_a_loop(rt: HostRuntime) {
    let body = "for (int64_t i = 0; i < n; i++) { s = 1; i = 1; }";
    assert_eq!(rt;
        printed_judged(rt.alloc(), "", body),
        Err(Refusal::WrongKind { item: 4 })
    );
}

/// Statements that nothing refuses, behind `begin` too.
const RIGHT: [&str; 43] = [
    "for (int64_t i = 0; i < bal_min(n, 3 - n); i++) ;",
    "for (int64_t i = bal_max(0, bal_min(n, 2)); i <= n * n; i++) ;",
    "for (int64_t i = -1; i < 3; i++) A[i * n] = (uint64_t)i;",
    "if (s >= (uint64_t)(n)) { return 65536ull; }",
    "if (s >= (uint64_t)(n * n - 1)) { return 131072ull; }",
    "A[s] = 1;",
    "A[s + 1] = 1;",
    "A[t[0]] = 1;",
    "A[t[s] / 2] = s;",
    "A[2 + 3] = 1;",
    "A[-1] = 1;",
    "A[(uint64_t)n] = 1;",
    "s = A[n * n];",
    "s = A[umin(s, 1)];",
    "t[s] = 1;",
    "t[0] = s;",
    "t[(uint64_t)n] += s;",
    "t[t[0]] = 1;",
    "t[A[0]] = 1;",
    "t[~0] = 1;",
    "if (n < 3) ;",
    "if (3 < n && n * n == 4) ;",
    "if (s < 1) ;",
    "if (1 < s) ;",
    "if (t[0] < s) ;",
    "if (0 < 1) ;",
    "if (-1 < 2 * 3) ;",
    "if ((uint64_t)n < s) ;",
    "if (s << 1 == 2) ;",
    "s = 5;",
    "s = ~5 / 2;",
    "s = A[0] + t[0] * s;",
    "s = (uint64_t)n;",
    "s = (uint64_t)(n * n - 1);",
    "s = (uint64_t)(s + 1);",
    "s = (uint64_t)-1;",
    "s -= (uint64_t)(s < 3);",
    "k = bal_wide(0, 5);",
    "k = (unsigned __int128)s * k + bal_wide(1, 2);",
    "k = (unsigned __int128)n;",
    "k = (unsigned __int128)5;",
    "k = k / 2;",
    "k += (unsigned __int128)(s + 1);",
];

#[test]
fn takes_right_kinds(rt: HostRuntime) {
    for statement in RIGHT {
        assert_eq!(rt;
            printed_judged(rt.alloc(), statement, statement),
            Ok(()),
            "{statement}"
        );
    }
}

/// Tables with lengths that are words, before `begin` alone.
const TABLES: [&str; 4] = [
    "uint64_t *u = calloc(5, sizeof(uint64_t)); if (u == 0) { return 1099511627776ull; }",
    "uint64_t *u = calloc((uint64_t)n, sizeof(uint64_t)); if (u == 0) { return 1099511627776ull; }",
    "uint64_t *u = calloc(s * t[0] + 1, sizeof(uint64_t)); if (u == 0) { return 1099511627776ull; }",
    "uint64_t *u = calloc((uint64_t)(n * n), sizeof(uint64_t)); if (u == 0) { return 1099511627776ull; }",
];

#[test]
fn takes_lengths_of_tables(rt: HostRuntime) {
    for table in TABLES {
        assert_eq!(rt;
            printed_judged(rt.alloc(), table, "s = u[s];"),
            Ok(()),
            "{table}"
        );
    }
}
