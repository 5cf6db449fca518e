//! Where a text is refused: at its end, at a token, at a byte that begins no token.

use crate::made::refusal_of;
use c_tree::Refusal;
use std::alloc::Global;

/// Texts whose tokens are no unit, each with the byte at which reading stopped: texts without tokens, two
/// that are cut off, one without a `;`, and one with a brace too many.
const NO_UNITS: [(&str, Refusal); 7] = [
    ("", Refusal::Syntax { byte: 0 }),
    (" \n", Refusal::Syntax { byte: 2 }),
    (
        "#include <stdint.h>\n#pragma balance range n 1 1000\nvoid shift(int64_t n, uint64_t A[n]) {\n  for (int64_t i = 0; i < n - 1; i++)\n    A[i + 1] = A[i]",
        Refusal::Syntax { byte: 147 },
    ),
    (
        "#include <stdint.h>\n#pragma balance range n 1 1000\nvoid shift(int64_t n, uint64_t A[n]) {\n  for (int64_t i = 0; i < n - 1; i++)\n    A[i + 1] = A[i] + 1;\n",
        Refusal::Syntax { byte: 153 },
    ),
    (
        "#include <stdint.h>\n#pragma balance range n 1 1000\nvoid shift(int64_t n, uint64_t A[n]) {\n  for (int64_t i = 0; i < n - 1; i++)\n    A[i + 1] = A[i] + 1\n}\n",
        Refusal::Syntax { byte: 152 },
    ),
    (
        "#include <stdint.h>\n#pragma balance range n 1 1000\nvoid shift(int64_t n, uint64_t A[n]) {\n  for (int64_t i = 0; i < n - 1; i++)\n    A[i + 1] = A[i] + 1;\n}\n}\n",
        Refusal::Syntax { byte: 155 },
    ),
    (
        "void f(uint64_t A[9]) { for (int64_t i = 0; i < 8; i++) A[i + 1] = A[i]",
        Refusal::Syntax { byte: 71 },
    ),
];

/// The first text that isn't refused so.
fn first_other(alloc: Global, texts: &[(&'static str, Refusal)]) -> Option<&'static str> {
    for (text, refusal) in texts {
        if refusal_of(alloc, text.as_bytes()) != Some(*refusal) {
            return Some(*text);
        }
    }
    None
}

#[test]
fn says_where_reading_stopped(rt: HostRuntime) {
    assert_eq!(rt; first_other(rt.alloc(), &NO_UNITS), None);
}

/// Texts with a byte that begins no token, and that byte: literals, another directive, comments that end
/// nowhere, and other marks.
const NO_TOKENS: [(&str, Refusal); 9] = [
    ("void f @", Refusal::Lexical { byte: 7 }),
    (
        "#include <stdint.h>\n#pragma balance range n 1 1000\nvoid shift(int64_t n, uint64_t A[n]) {\n  for (int64_t i = 08; i < n - 1; i++)\n    A[i + 1] = A[i] + 1;\n}\n",
        Refusal::Lexical { byte: 109 },
    ),
    (
        "#include <stdint.h>\n#pragma balance range n 08 1000\nvoid shift(int64_t n, uint64_t A[n]) {\n  for (int64_t i = 0; i < n - 1; i++)\n    A[i + 1] = A[i] + 1;\n}\n",
        Refusal::Lexical { byte: 44 },
    ),
    (
        "#define N 3\n#include <stdint.h>\n#pragma balance range n 1 1000\nvoid shift(int64_t n, uint64_t A[n]) {\n  for (int64_t i = 0; i < n - 1; i++)\n    A[i + 1] = A[i] + 1;\n}\n",
        Refusal::Lexical { byte: 0 },
    ),
    (
        "void f(int64_t n) {} /* open",
        Refusal::Lexical { byte: 21 },
    ),
    (
        "void f(int64_t n) { if (!n) ; }",
        Refusal::Lexical { byte: 24 },
    ),
    (
        "void f(int64_t n) {} #include <a>",
        Refusal::Lexical { byte: 21 },
    ),
    (
        "void f(int64_t n) {} // \u{e9}\n\u{e9}",
        Refusal::Lexical { byte: 27 },
    ),
    ("} } } x = 1 ? 2 : 3; 5_", Refusal::Lexical { byte: 12 }),
];

#[test]
fn says_which_byte_begins_no_token(rt: HostRuntime) {
    assert_eq!(rt; first_other(rt.alloc(), &NO_TOKENS), None);
}
