//! Units that are spelled in many ways: blanks, comments, skipped lines, parentheses and braces.

use crate::made::{found_in_made, is_made_unit, refusal_of_made};
use c_tree::{Refusal, preamble};
use sample_texts::texts::{Found, GATHER_UNIT, GUARDED, SHIFT, SHIFT_UNIT, is_unit};
use std::alloc::{AllocError, Global};

const SHIFTS: [&[u8]; 11] = [
    SHIFT,
    b"\n  \n#include <stdint.h>\n\n\t\n#pragma balance range n 1 1000\nvoid shift(int64_t n, uint64_t A[n]) {\n  for (int64_t i = 0; i < n - 1; i++)\n    A[i + 1] = A[i] + 1;\n}\n",
    b"#pragma balance range n 1 1000\n#include <stdint.h>\n#include <stdlib.h>\nvoid shift(int64_t n, uint64_t A[n]) {\n  for (int64_t i = 0; i < n - 1; i++)\n    A[i + 1] = A[i] + 1;\n}\n",
    b"#include <stdint.h>\n#pragma balance range n 1 1000\nvoid shift(int64_t n, uint64_t A[n]) { for (int64_t i = 0; i < n - 1; i++) A[i + 1] = A[i] + 1; }\n",
    b"#include <stdint.h>\n#pragma balance range n 1 1000\nvoid shift(int64_t n, uint64_t A[n]) {\n\tfor (int64_t i\t=\t0; i < n - 1; i++)\n\t\tA[i + 1]\t=\tA[i] + 1;\n}\n",
    b"#include <stdint.h>\n#pragma balance range n 1 1000\nvoid shift(int64_t n, uint64_t A[n]) {\n  for (int64_t i = 0; i<n-1; i++)\n    A[i + 1] = A[i] + 1;\n}\n",
    b"#include <stdint.h>\n#pragma balance range n 1 1000\nvoid shift(int64_t n, uint64_t A[n]) {\n  for (int64_t i = 0; i < n - 1; i++)\n    A[i + 1] = A[i] + 1;\n}",
    b" #include <stdint.h>\n#pragma balance range n 1 1000\nvoid shift(int64_t n, uint64_t A[n]) {\n  for (int64_t i = 0; i < n - 1; i++)\n    A[i + 1] = A[i] + 1;\n}\n",
    b"#include <stdint.h>\n#pragma balance range n 1 1000\nvoid shift(int64_t n, uint64_t A[n]) {\n  for (int64_t i = 0; i < n - 1; i++)\n    A[i + 1] = A[i] + 1; // next \xff\n}\n",
    b"# pragma\tbalance /* of */ range n 0x1 1000u\n#pragma scop\nvoid/**/shift(int64_t n,uint64_t A[n]){for(int64_t i=0;i<n-1;++i)A[i+1]=A[i]+1;}",
    b"#pragma balance range n 1 1000\nvoid shift(int64_t n, uint64_t A[(n)]) {; for (int64_t i = (0); i < (n - 1); i += 1) {{ A[(i + 1)] = (A[i]) + 1; };} {} }",
];

/// The first text that isn't the shift.
fn first_other(alloc: Global, texts: &[&[u8]]) -> Option<usize> {
    for (i, text) in texts.iter().enumerate() {
        if !is_unit(alloc, text, SHIFT_UNIT) {
            return Some(i);
        }
    }
    None
}

#[test]
fn reads_each_layout(rt: HostRuntime) {
    assert_eq!(rt; first_other(rt.alloc(), &SHIFTS), None);
}

/// A blank, and the end of a line.
#[derive(Clone, Copy)]
struct Spacing<'a> {
    blank: &'a [u8],
    end: &'a [u8],
}

/// Appends the text with this blank in place of each space, and this end of each line.
fn respace(out: &mut Vec<u8>, text: &[u8], spacing: Spacing<'_>) -> Result<(), AllocError> {
    for byte in text {
        match byte {
            b' ' => out.extend_from_slice(spacing.blank)?,
            b'\n' => out.extend_from_slice(spacing.end)?,
            other => out.push(*other)?,
        }
    }
    Ok(())
}

/// A front, and behind it the text so respaced.
fn respaced(
    alloc: Global,
    front: &[u8],
    text: &[u8],
    spacing: Spacing<'_>,
) -> Result<Vec<u8>, AllocError> {
    let mut made = Vec::from_slice(alloc, front)?;
    respace(&mut made, text, spacing)?;
    Ok(made)
}

/// Lines of directives and lines that are skipped, with a space wherever a blank may stand.
const LINES: &[u8] = b" # include <stdint.h> \n # pragma \n # pragma scop \n \
# pragma balance range n 1 1000 \n # pragma balance range m 1 1000 \n";

/// A function, with a space wherever a blank may stand.
const FUNCTION: &[u8] = b" void gather ( int64_t n , int64_t m , const uint64_t P [ n ] , \
const uint64_t X [ m ] , uint64_t Y [ n ] ) { \n for ( int64_t i = 0 ; i < n ; i ++ ) \n \
Y [ i ] = X [ P [ i ] ] ; \n } \n ";

/// Blanks in a line. A line feed within a comment doesn't end the line.
const BLANKS: [&[u8]; 9] = [
    b" ",
    b"\t",
    b"\x0c",
    b"\r",
    b"\t\x0c\r ",
    b"/**/",
    b"/* a comment */",
    b"/*\r\n*/",
    b"\t/***//*/**/\x0c",
];

const LINE_ENDS: [&[u8]; 6] = [
    b"\n",
    b"\r\n",
    b"\t\r\n",
    b"\x0c\n\r\n",
    b"// a comment /*\r\n",
    b"/* a comment */\n\n\x0c\n",
];

/// The lines and the function, so spaced.
fn spaced_gather(alloc: Global, spacing: Spacing<'_>) -> Result<Vec<u8>, AllocError> {
    let mut made = Vec::new(alloc);
    respace(&mut made, LINES, spacing)?;
    respace(&mut made, FUNCTION, spacing)?;
    Ok(made)
}

/// The first end of a line with which the gather isn't read.
fn first_end_of_gather(alloc: Global, blank: &[u8]) -> Option<usize> {
    for (i, end) in LINE_ENDS.iter().enumerate() {
        if !is_made_unit(
            alloc,
            spaced_gather(alloc, Spacing { blank, end }),
            GATHER_UNIT,
        ) {
            return Some(i);
        }
    }
    None
}

/// The first blank with which the gather isn't read, and the end of a line.
fn first_blank_of_gather(alloc: Global) -> Option<(usize, usize)> {
    for (i, blank) in BLANKS.iter().enumerate() {
        if let Some(j) = first_end_of_gather(alloc, blank) {
            return Some((i, j));
        }
    }
    None
}

#[test]
fn reads_each_blank(rt: HostRuntime) {
    assert_eq!(rt; first_blank_of_gather(rt.alloc()), None);
}

/// The function behind the lines, with this in place of each space, and this end of each line.
fn spaced_function(alloc: Global, spacing: Spacing<'_>) -> Result<Vec<u8>, AllocError> {
    respaced(alloc, LINES, FUNCTION, spacing)
}

/// The first end of a line that isn't read as a blank.
fn first_end(alloc: Global) -> Option<usize> {
    for (i, end) in LINE_ENDS.iter().enumerate() {
        let blank = *end;
        if !is_made_unit(
            alloc,
            spaced_function(alloc, Spacing { blank, end }),
            GATHER_UNIT,
        ) {
            return Some(i);
        }
    }
    None
}

/// Behind the lines of directives the end of a line is a blank too.
#[test]
fn reads_each_line_end(rt: HostRuntime) {
    assert_eq!(rt; first_end(rt.alloc()), None);
}

/// A printed text behind its preamble, with a space wherever a blank may stand.
const PRINTED: &[u8] = b" # pragma balance version 1 \n # pragma balance range n 1 2 \n \
uint64_t f ( int64_t n , uint64_t A [ n ] ) { uint64_t w = 0ull ; unsigned __int128 k = 0 ; \
uint64_t * t = calloc ( n , sizeof ( uint64_t ) ) ; \n if ( t == 0 ) { return 1099511627776ull ; } \n \
# pragma balance begin \n if ( w >= ( uint64_t ) ( n ) ) { return 65536ull ; } \n \
k += ( unsigned __int128 ) w * bal_wide ( 0ull , 1ull ) ; \n \
return ( uint64_t ) ( bal_def0 != bal_use0 ) << 0 ; } ";

const PRINTED_UNIT: &[u8] = b"f (version 1) (range n 1 2) (int n) (array A[n]) (word w 0) (wide k) \
(table t n) begin (check w n 0) (+= k (* (wide w) (bal_wide 0 1))) verdict";

/// The first end of a line with which the printed text isn't read.
fn first_end_of_printed(alloc: Global, blank: &[u8]) -> Option<usize> {
    for (i, end) in LINE_ENDS.iter().enumerate() {
        let made = respaced(alloc, preamble(), PRINTED, Spacing { blank, end });
        if !is_made_unit(alloc, made, PRINTED_UNIT) {
            return Some(i);
        }
    }
    None
}

/// The first blank with which the printed text isn't read, and the end of a line.
fn first_blank_of_printed(alloc: Global) -> Option<(usize, usize)> {
    for (i, blank) in BLANKS.iter().enumerate() {
        if let Some(j) = first_end_of_printed(alloc, blank) {
            return Some((i, j));
        }
    }
    None
}

#[test]
fn reads_each_blank_of_a_printed_text(rt: HostRuntime) {
    assert_eq!(rt; first_blank_of_printed(rt.alloc()), None);
}

/// The guarded shift behind a preamble whose lines end otherwise.
fn with_other_preamble(alloc: Global) -> Result<Vec<u8>, AllocError> {
    let blank = b" ";
    let end = b"\r\n";
    let mut made = respaced(alloc, b"", preamble(), Spacing { blank, end })?;
    made.extend_from_slice(GUARDED)?;
    Ok(made)
}

/// A preamble of other line ends is none, and `?` begins no token.
#[test]
fn knows_the_preamble_by_its_bytes(rt: HostRuntime) {
    assert_eq!(rt;
        refusal_of_made(rt.alloc(), with_other_preamble(rt.alloc())),
        Some(Refusal::Lexical { byte: 109 })
    );
}

/// A vertical tab, a zero, a space of two bytes and a `\` at a line's end.
const NO_BLANKS: [&[u8]; 4] = [b"\x0b", b"\0", b"\xc2\xa0", b"\\\n"];

/// The first that isn't refused as no token.
fn first_token(alloc: Global) -> Option<usize> {
    for (i, blank) in NO_BLANKS.iter().enumerate() {
        let end = b"\n";
        let made = spaced_function(alloc, Spacing { blank, end });
        if found_in_made(alloc, made) != Found::NoTokens {
            return Some(i);
        }
    }
    None
}

#[test]
fn knows_no_other_blank(rt: HostRuntime) {
    assert_eq!(rt; first_token(rt.alloc()), None);
}
