//! How expressions are printed.

use c_parser::parse;
use c_printer::print;
use c_tree::{Refusal, preamble};
use sample_texts::texts::{GUARDED, joined};
use std::alloc::{AllocError, Global};
use std::test::Fail;

const HEAD: &[u8] = b"void f(int64_t n, uint64_t x[n]) {\n  x[0] = ";

/// A right side, and how it is printed.
const SIDES: [(&str, &str); 18] = [
    ("(x[1] + x[2]) * x[3]", "(x[1] + x[2]) * x[3]"),
    ("x[1] + (x[2] * x[3])", "x[1] + (x[2] * x[3])"),
    ("x[1] + x[2] * x[3]", "x[1] + (x[2] * x[3])"),
    ("-(-x[1])", "-(-x[1])"),
    ("- -x[1]", "-(-x[1])"),
    ("~(-x[1])", "~(-x[1])"),
    ("-~x[1]", "-(~x[1])"),
    ("-(x[1] + x[2])", "-(x[1] + x[2])"),
    ("0x10", "16ull"),
    ("x[0x10]", "x[16]"),
    ("x[1] - x[2] - x[3]", "(x[1] - x[2]) - x[3]"),
    ("x[1] - (x[2] - x[3])", "x[1] - (x[2] - x[3])"),
    ("((x[1]))", "x[1]"),
    ("(uint64_t)((n + 1))", "(uint64_t)(n + 1)"),
    ("(uint64_t)(x[1] < 2)", "(uint64_t)(x[1] < 2ull)"),
    (
        "(uint64_t)(((x[1] + 1)) < (2))",
        "(uint64_t)(x[1] + 1ull < 2ull)",
    ),
    ("umin((x[1]), x[2] + 1)", "umin(x[1], x[2] + 1ull)"),
    ("~x[1] % 3 << 0x3f", "(~x[1] % 3ull) << 63ull"),
];

fn text_of(alloc: Global, side: &str) -> Result<Vec<u8>, AllocError> {
    joined(alloc, &[HEAD, side.as_bytes(), b";\n}\n"])
}

/// What is printed of the unit of a text.
fn printed(alloc: Global, text: &[u8]) -> Result<Vec<u8>, Refusal> {
    Ok(print(alloc, &parse(alloc, text)?)?)
}

#[test]
fn prints_right_sides(rt: HostRuntime) -> Result<(), Fail> {
    for (side, wanted) in SIDES {
        let text = text_of(rt.alloc(), side)?;
        let wanted = text_of(rt.alloc(), wanted)?;
        match printed(rt.alloc(), text.as_slice()) {
            Ok(got) => assert_eq!(rt; got.as_slice(), wanted.as_slice(), "{side}"),
            Err(_) => panic!(rt; "{side} is refused"),
        }
    }
    Ok(())
}

#[test]
fn prints_a_guarded_shift_as_it_stands(rt: HostRuntime) -> Result<(), Fail> {
    let text = joined(rt.alloc(), &[preamble(), GUARDED])?;
    match printed(rt.alloc(), text.as_slice()) {
        Ok(got) => assert_eq!(rt; got.as_slice(), text.as_slice()),
        Err(_) => panic!(rt; "refused"),
    }
    Ok(())
}
