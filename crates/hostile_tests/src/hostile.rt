//! Texts that open something again and again: each is answered, and none is held on the stack. Here
//! they have 65,536 bytes of a piece; benches/hostile.sh reads these tables, and makes the texts as long
//! as a text may be.

use c_parser::parse;
use c_tree::{Refusal, preamble};
use sample_texts::texts::{Found, found_in, joined, nested, repeated};
use std::alloc::{AllocError, Global};
use std::test::Fail;

const BYTES: usize = 65_536;

/// So many copies of the piece as make that many bytes.
fn copies(piece: &str) -> usize {
    BYTES / piece.len().max(1)
}

/// Fronts, and pieces behind them with which a text has tokens and no unit.
const IN_EXPRESSIONS: [(&str, &str); 24] = [
    ("void f(uint64_t x[1]) { x[0] = ", "("),
    ("void f(uint64_t x[1]) { x[0] = ", "["),
    ("void f(uint64_t x[1]) { x[0] = ", "~"),
    ("void f(uint64_t x[1]) { x[0] = ", "-"),
    ("void f(uint64_t x[1]) { x[0] = ", "- "),
    ("void f(uint64_t x[1]) { x[0] = ", "~("),
    ("void f(uint64_t x[1]) { x[0] = ", "1 + "),
    ("void f(uint64_t x[1]) { x[0] = ", "1 + ("),
    ("void f(uint64_t x[1]) { x[0] = ", "1 * (1 + "),
    ("void f(uint64_t x[1]) { x[0] = ", "(uint64_t)"),
    ("void f(uint64_t x[1]) { x[0] = ", "(uint64_t)("),
    ("void f(uint64_t x[1]) { x[0] = ", "(uint64_t)(1 < "),
    ("void f(uint64_t x[1]) { x[0] = ", "((uint64_t)("),
    ("void f(uint64_t x[1]) { x[0] = ", "umin("),
    ("void f(uint64_t x[1]) { x[0] = ", "umax(1, "),
    ("void f(uint64_t x[1]) { x[0] = ", "x["),
    ("void f(uint64_t x[1]) { x[0] = ", "x[x["),
    ("void f(uint64_t x[1]) { x[0] = ", "x[("),
    ("void f(uint64_t x[1]) { x[0] = x", "[1]"),
    ("void f(uint64_t x[1]) { x[0] = (uint64_t)(", "("),
    ("void f(uint64_t x[1]) { x[0] = (uint64_t)(", "1 < "),
    ("void f(uint64_t x[1]) { x[0] = (uint64_t)(1 < ", "("),
    ("void f(uint64_t x[1]) { x[", "("),
    ("void f(uint64_t x[1]) { x[", "x["),
];

const IN_CONDITIONS: [(&str, &str); 13] = [
    ("void f(uint64_t x[1]) { if (", "("),
    ("void f(uint64_t x[1]) { if (", "~"),
    ("void f(uint64_t x[1]) { if (", "x["),
    ("void f(uint64_t x[1]) { if (", "x[("),
    ("void f(uint64_t x[1]) { if (", "umin("),
    ("void f(uint64_t x[1]) { if (", "(uint64_t)("),
    ("void f(uint64_t x[1]) { if (", "((uint64_t)("),
    ("void f(uint64_t x[1]) { if (", "1 < 2 && "),
    ("void f(uint64_t x[1]) { if (", "1 < 2 && ("),
    ("void f(uint64_t x[1]) { if (", "(1 < 2 && "),
    ("void f(uint64_t x[1]) { if (", "(1 < 2) && ("),
    ("void f(uint64_t x[1]) { if (1 < ", "("),
    ("void f(uint64_t x[1]) { if (((1) < 2) && ", "("),
];

const IN_STATEMENTS: [(&str, &str); 24] = [
    ("void f(uint64_t x[1]) { ", "{"),
    ("void f(uint64_t x[1]) { ", "}"),
    ("void f(uint64_t x[1]) { ", ";"),
    ("void f(uint64_t x[1]) { ", ";{"),
    ("void f(uint64_t x[1]) { ", "x = 1; {"),
    ("void f(uint64_t x[1]) { ", "if ("),
    ("void f(uint64_t x[1]) { ", "if (1 < 2) "),
    ("void f(uint64_t x[1]) { ", "if (1 < 2) {"),
    ("void f(uint64_t x[1]) { ", "if (1 < 2) {{"),
    ("void f(uint64_t x[1]) { ", "if (1 < 2) ; else "),
    ("void f(uint64_t x[1]) { ", "if (1 < 2) {} else {"),
    ("void f(uint64_t x[1]) { ", "else "),
    ("void f(uint64_t x[1]) { ", "for ("),
    (
        "void f(uint64_t x[1]) { ",
        "for (int64_t i = 0; i < 1; i++) ",
    ),
    (
        "void f(uint64_t x[1]) { ",
        "for (int64_t i = 0; i < 1; i++) {",
    ),
    (
        "void f(uint64_t x[1]) { ",
        "for (int64_t i = 0; i < 1; i++) if (1 < 2) ",
    ),
    ("void f(uint64_t x[1]) { ", "x["),
    ("void f(uint64_t x[1]) { ", "x = "),
    ("void f(uint64_t x[1]) { ", "return "),
    ("void f(uint64_t x[1]) { for (int64_t i = ", "("),
    ("void f(uint64_t x[1]) { for (int64_t i = ", "x["),
    ("void f(uint64_t x[1]) { for (int64_t i = 0; i < ", "("),
    ("void f(uint64_t x[1]) { for (int64_t i = 0; i < ", "~"),
    ("void f(uint64_t x[1]) { if (1 < 2) { x = 1; } ", "else {} "),
];

const IN_HEADS: [(&str, &str); 18] = [
    ("", "("),
    ("", "{"),
    ("", "void "),
    ("", "#include "),
    ("", "// "),
    ("", "/**/"),
    ("", "#pragma balance range n 1 2\n"),
    ("#pragma balance ", "range "),
    ("#pragma balance range n ", "-"),
    ("#pragma balance range n ", "- "),
    ("#pragma balance range n ", "("),
    ("void f(", "("),
    ("void f(", "int64_t n, "),
    ("void f(", "const "),
    ("void f(uint64_t x", "[1]"),
    ("void f(uint64_t x[", "("),
    ("void f(uint64_t x[", "x["),
    ("void f(uint64_t x[1]) { ", "uint64_t s = 0; "),
];

fn opened(alloc: Global, front: &str, piece: &str) -> Result<Found, AllocError> {
    let text = nested(alloc, &[front, piece, "", "", ""], copies(piece))?;
    Ok(found_in(alloc, text.as_slice()))
}

#[test]
fn answers_in_expressions(rt: HostRuntime) -> Result<(), Fail> {
    for (front, piece) in &IN_EXPRESSIONS {
        assert_eq!(rt;
            opened(rt.alloc(), front, piece)?,
            Found::NoUnit,
            "{front}{piece}"
        );
    }
    Ok(())
}

#[test]
fn answers_in_conditions(rt: HostRuntime) -> Result<(), Fail> {
    for (front, piece) in &IN_CONDITIONS {
        assert_eq!(rt;
            opened(rt.alloc(), front, piece)?,
            Found::NoUnit,
            "{front}{piece}"
        );
    }
    Ok(())
}

#[test]
fn answers_in_statements(rt: HostRuntime) -> Result<(), Fail> {
    for (front, piece) in &IN_STATEMENTS {
        assert_eq!(rt;
            opened(rt.alloc(), front, piece)?,
            Found::NoUnit,
            "{front}{piece}"
        );
    }
    Ok(())
}

#[test]
fn answers_in_heads(rt: HostRuntime) -> Result<(), Fail> {
    for (front, piece) in &IN_HEADS {
        assert_eq!(rt;
            opened(rt.alloc(), front, piece)?,
            Found::NoUnit,
            "{front}{piece}"
        );
    }
    Ok(())
}

/// What stands in a printed text behind its preamble.
const PRINTED_FRONT: &str =
    "#pragma balance version 1\nuint64_t f(int64_t n, uint64_t A[1]) {\nuint64_t x = 0;\n";

/// What stands behind that, and pieces with which there is no unit.
const IN_PRINTED_TEXTS: [(&str, &str); 17] = [
    ("x = ", "(unsigned __int128)"),
    ("x = ", "(unsigned __int128)("),
    ("x = ", "bal_min("),
    ("x = ", "bal_max(1, "),
    ("x = ", "bal_wide("),
    ("x = ", "bal_wide(1, 2) + ("),
    ("", "{"),
    ("", "unsigned __int128 k = 0; "),
    ("", "if (x >= (uint64_t)("),
    ("", "if (x >= (uint64_t)(n)) "),
    ("", "if (x >= (uint64_t)(n)) {"),
    ("", "if (x >= (uint64_t)(n)) { return 65536; } "),
    ("if (x >= (uint64_t)(", "("),
    ("if (x >= (uint64_t)(", "~"),
    ("if (x >= ", "(uint64_t)("),
    ("uint64_t *t = calloc(", "("),
    (
        "\n#pragma balance begin\nreturn ",
        "(uint64_t)(bal_def0 != bal_use0) << 0 | ",
    ),
];

#[test]
fn answers_in_printed_texts(rt: HostRuntime) -> Result<(), Fail> {
    for (front, piece) in &IN_PRINTED_TEXTS {
        let behind = repeated(rt.alloc(), piece.as_bytes(), copies(piece))?;
        let parts = [
            preamble(),
            PRINTED_FRONT.as_bytes(),
            front.as_bytes(),
            behind.as_slice(),
        ];
        let text = joined(rt.alloc(), &parts)?;
        assert_eq!(rt;
            found_in(rt.alloc(), text.as_slice()),
            Found::NoUnit,
            "{front}{piece}"
        );
    }
    Ok(())
}

/// Fronts, pieces behind them, and the byte at which no token begins.
const WITHOUT_TOKENS: [(&str, &str, u32); 16] = [
    ("", "/* ", 0),
    ("", "#", 0),
    ("", "#pragma balance ", 16),
    ("#include ", "/* ", 9),
    ("void f(uint64_t x[1]) { x[0] = ", "/* ", 31),
    ("void f(uint64_t x[1]) { x[0] = ", "/*\n", 31),
    ("void f(uint64_t x[1]) { x[0] = ", "!", 31),
    ("void f(uint64_t x[1]) { x[0] = ", "@", 31),
    ("void f(uint64_t x[1]) { x[0] = ", "\"", 31),
    ("void f(uint64_t x[1]) { x[0] = ", "#", 31),
    ("void f(uint64_t x[1]) { x[0] = ", "\n#", 32),
    ("void f(uint64_t x[1]) { x[0] = ", "\\\n", 31),
    ("void f(uint64_t x[1]) { x[0] = ", "a", 31),
    ("void f(uint64_t x[1]) { x[0] = ", "1", 31),
    ("void f(uint64_t x[1]) { x[0] = ", "0x", 31),
    ("void f(uint64_t x[1]) { x[0] = ", "1u", 31),
];

#[test]
fn answers_without_tokens(rt: HostRuntime) -> Result<(), Fail> {
    for (front, piece, byte) in &WITHOUT_TOKENS {
        let text = nested(rt.alloc(), &[front, piece, "", "", ""], copies(piece))?;
        let refusal = Refusal::Lexical { byte: *byte };
        assert_eq!(rt;
            parse(rt.alloc(), text.as_slice()).err(),
            Some(refusal),
            "{front}{piece}"
        );
    }
    Ok(())
}

/// A front, a piece again and again, a core, the end of each piece, and a back.
const CLOSED_UNITS: [[&str; 5]; 12] = [
    ["void f(uint64_t x[1]) { x[0] = ", "(", "1", ")", "; }"],
    ["void f(uint64_t x[1]) { x[", "(", "1", ")", "] = 1; }"],
    ["void f(uint64_t x[1]) { x[0] = x[", "(", "1", ")", "]; }"],
    [
        "void f(uint64_t x[1]) { x[0] = umin(1, ",
        "(",
        "1",
        ")",
        "); }",
    ],
    [
        "void f(uint64_t x[1]) { x[0] = (uint64_t)(",
        "(",
        "1",
        ")",
        " < 2); }",
    ],
    [
        "void f(uint64_t x[1]) { x[0] = (uint64_t)(1 < ",
        "(",
        "2",
        ")",
        "); }",
    ],
    ["void f(uint64_t x[1]) { if (", "(", "1 < 2", ")", ") ; }"],
    ["void f(uint64_t x[1]) { if (", "(", "1", ")", " < 2) ; }"],
    [
        "void f(uint64_t x[1]) { if (",
        "(1 < 2 && ",
        "1 < 2",
        ")",
        ") ; }",
    ],
    [
        "void f(uint64_t x[1]) { for (int64_t i = ",
        "(",
        "0",
        ")",
        "; i < 1; i++) ; }",
    ],
    ["void f(uint64_t x[1]) { ", "{", "x = 1;", "}", " }"],
    ["void f(uint64_t x[", "(", "1", ")", "]) {}"],
];

const FLAT_UNITS: [[&str; 5]; 14] = [
    ["", "/**/", "", "", "void f(uint64_t x[1]) {}"],
    ["", "// /*\n", "", "", "void f(uint64_t x[1]) {}"],
    ["", "#include <a>\n", "", "", "void f(uint64_t x[1]) {}"],
    ["", "#pragma a\n", "", "", "void f(uint64_t x[1]) {}"],
    [
        "",
        "#pragma balance range n 1 2\n",
        "",
        "",
        "void f(uint64_t x[1]) {}",
    ],
    ["void f(", "int64_t n, ", "", "", "uint64_t x[1]) {}"],
    ["void f(uint64_t x[1]) { ", "uint64_t s = 0; ", "", "", "}"],
    ["void f(uint64_t x[1]) { ", ";", "", "", "}"],
    ["void f(uint64_t x[1]) { ", "{}", "", "", "}"],
    ["void f(uint64_t x[1]) { ", "x = 1;", "", "", "}"],
    [
        "void f(uint64_t x[1]) { ",
        "if (1 < 2) ; else ;",
        "",
        "",
        "}",
    ],
    [
        "void f(uint64_t x[1]) { if (",
        "1 < 2 && ",
        "",
        "",
        "1 < 2) ; }",
    ],
    [
        "void f(uint64_t x[1]) { if (1 < 2) { ",
        "{;} ",
        "",
        "",
        "} else { {} } }",
    ],
    ["void f(uint64_t x[1]) {} ", "/* */ ", "", "", ""],
];

const CLOSED_OTHERS: [[&str; 5]; 10] = [
    ["void f(uint64_t x[1]) { x[0] = ", "(", "1 < 2", ")", "; }"],
    [
        "void f(uint64_t x[1]) { x[0] = (uint64_t)(",
        "(",
        "1 < 2",
        ")",
        "); }",
    ],
    [
        "void f(uint64_t x[1]) { x[0] = ",
        "(uint64_t)(",
        "1",
        ")",
        "; }",
    ],
    [
        "void f(uint64_t x[1]) { x[0] = ",
        "(uint64_t)(1 < ",
        "1",
        ")",
        "; }",
    ],
    [
        "void f(uint64_t x[1]) { x[0] = ",
        "umin(1, ",
        "1",
        ")",
        "; }",
    ],
    ["void f(uint64_t x[1]) { x[0] = ", "x[", "1", "]", "; }"],
    ["void f(uint64_t x[1]) { if (", "(", "1", ")", ") ; }"],
    [
        "void f(uint64_t x[1]) { if (",
        "(",
        "1 < 2",
        ")",
        " < 2) ; }",
    ],
    [
        "void f(uint64_t x[1]) { ",
        "if (1 < 2) {",
        "x = 1;",
        "}",
        " }",
    ],
    ["void f(uint64_t x[1]) { ", "{", "x = 1;", "}", " } }"],
];

fn closed(alloc: Global, parts: &[&str; 5]) -> Result<Found, AllocError> {
    let [_front, piece, ..] = parts;
    let text = nested(alloc, parts, copies(piece))?;
    Ok(found_in(alloc, text.as_slice()))
}

#[test]
fn reads_what_is_closed(rt: HostRuntime) -> Result<(), Fail> {
    for parts in &CLOSED_UNITS {
        assert_eq!(rt; closed(rt.alloc(), parts)?, Found::Unit, "{parts:?}");
    }
    Ok(())
}

#[test]
fn reads_what_is_flat(rt: HostRuntime) -> Result<(), Fail> {
    for parts in &FLAT_UNITS {
        assert_eq!(rt; closed(rt.alloc(), parts)?, Found::Unit, "{parts:?}");
    }
    Ok(())
}

#[test]
fn refuses_what_is_closed(rt: HostRuntime) -> Result<(), Fail> {
    for parts in &CLOSED_OTHERS {
        assert_eq!(rt; closed(rt.alloc(), parts)?, Found::NoUnit, "{parts:?}");
    }
    Ok(())
}
