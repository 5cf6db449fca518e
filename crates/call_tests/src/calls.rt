//! Calls over files and sinks in memory.

use command_line::Status;
use demo_kernels::kernel_of;
use edge::{ByteList, FileList, MemShelf, MemSink, NamedFile, Numbers};
use std::alloc::{AllocError, Global};
use std::process::Abort;
use std::test::Fail;
use top_call::balance;

const SHIFT: &str = "#include <stdint.h>\n\
#pragma balance range n 1 1000\n\
void shift(int64_t n, uint64_t A[n]) {\n  \
for (int64_t i = 0; i < n - 1; i++)\n    \
A[i + 1] = A[i] + 1;\n\
}\n";

const OTHER_BOUND: &str = "#include <stdint.h>\n\
#pragma balance range n 1 1000\n\
void shift(int64_t n, uint64_t A[n]) {\n  \
for (int64_t i = 0; i <= n - 2; i++)\n    \
A[i + 1] = A[i] + 1;\n\
}\n";

const WIDE: &str = "#include <stdint.h>\n\
#pragma balance range n 1 1000\n\
void shift(int64_t n, uint64_t A[n]) {\n  \
for (int64_t i = 0; i < n; i++)\n    \
A[i + 1] = A[i] + 1;\n\
}\n";

// The unit of `SHIFT`, spelled otherwise.
const SPELLED: &str = "/* a shift */ # include <stdint.h> // and no more\n\
\t#pragma\tbalance range n 0x1 1000u // of cells\r\n\
void shift(int64_t n, uint64_t A[(n)])\n{\n  \
{;} for (int64_t i = 0uLL; i < n - 1; ++i) {\n    \
{ A[(i) + 1ull] = ((A[i])) + 0X1; }\n  \
}\n\
}\n";

// The printed text of `SHIFT`, as the rules of docs/FORMATS.md give it. It stands in examples/shift.guarded.c too.
const PRINTED: &str = "\
#include <stdint.h>
#include <stdlib.h>
static inline uint64_t umin(uint64_t a, uint64_t b) { return a < b ? a : b; }
static inline uint64_t umax(uint64_t a, uint64_t b) { return a < b ? b : a; }
static inline int64_t bal_min(int64_t a, int64_t b) { return a < b ? a : b; }
static inline int64_t bal_max(int64_t a, int64_t b) { return a < b ? b : a; }
static inline unsigned __int128 bal_wide(uint64_t h, uint64_t l) { return (unsigned __int128)h << 64 | l; }
#pragma balance version 1
#pragma balance range n 1 1000
uint64_t bal_fn_shift(int64_t n, uint64_t A[n]) {
  uint64_t bal_r0 = 0ull;
  uint64_t bal_w = 0ull;
  uint64_t bal_c0 = 0ull;
  uint64_t bal_c1 = 0ull;
  unsigned __int128 bal_k = 0;
  unsigned __int128 bal_def0 = 0;
  unsigned __int128 bal_use0 = 0;
  for (int64_t bal_i0 = 0; bal_i0 < n; bal_i0++) {
    bal_r0 = A[bal_i0];
    bal_c0 = 1ull;
    bal_c1 = 0ull;
    for (int64_t bal_l0 = 0; bal_l0 < n - 1; bal_l0++) {
      if (bal_l0 == bal_i0) {
        bal_c1 += bal_c0;
      }
      if (bal_l0 + 1 == bal_i0) {
        bal_c0 = 0ull;
      }
    }
    bal_k = (unsigned __int128)bal_c1;
    bal_def0 += (unsigned __int128)bal_r0 * bal_k;
  }
#pragma balance begin
  for (int64_t i = 0; i < n - 1; i++) {
    bal_r0 = A[i];
    bal_use0 += (unsigned __int128)bal_r0;
    bal_w = bal_r0 + 1ull;
    A[i + 1] = bal_w;
    bal_c0 = 0ull;
    bal_c1 = 0ull;
    for (int64_t bal_l0 = 0; bal_l0 < n - 1; bal_l0++) {
      if (bal_l0 == i + 1) {
        bal_c1 += bal_c0;
      }
      if (bal_l0 + 1 == i + 1) {
        if (bal_l0 == i) {
          bal_c0 = 1ull;
        } else {
          bal_c0 = 0ull;
        }
      }
    }
    bal_k = (unsigned __int128)bal_c1;
    bal_def0 += (unsigned __int128)bal_w * bal_k;
  }
  return (uint64_t)(bal_def0 != bal_use0) << 0;
}
";

const USAGE: &str =
    "balance: usage: print [--split] SOURCE | run FILE DATA [FLIP] | try SOURCE DATA [FLIP] | report SOURCE | demo NUMBER\n";

// A file with blanks behind its text, up to a length.
#[derive(Clone, Copy)]
struct Source {
    name: &'static str,
    text: &'static str,
    length: usize,
}

// Which load, which write to the output and which to the error stream fails. 0 is none. A write takes at most `most`
// bytes, and the output `room` in all.
#[derive(Clone, Copy)]
struct Failing {
    load: u64,
    write: u64,
    line: u64,
    most: usize,
    room: usize,
}

const NONE: Failing = Failing {
    load: 0,
    write: 0,
    line: 0,
    most: 8,
    room: 99_999,
};

// What a call leaves.
#[derive(Drop)]
struct Left {
    status: Status,
    out: MemSink,
    err: MemSink,
    loads: usize,
}

impl Left {
    // Whether the call left this status, asked for so many files, and wrote these texts to the output and to the error
    // stream.
    fn is(&self, status: Status, loads: usize, out: &str, err: &str) -> bool {
        self.status == status
            && self.loads == loads
            && self.out.bytes.as_slice() == out.as_bytes()
            && self.err.bytes.as_slice() == err.as_bytes()
    }
}

fn words_of(alloc: Global, line: &str) -> Result<Vec<String>, AllocError> {
    let mut words = Vec::new(alloc);
    for word in line.split_whitespace() {
        words.push(String::from_str(alloc, word)?)?;
    }
    Ok(words)
}

fn one_number(alloc: Global, number: u64) -> Result<Numbers, Fail> {
    let mut numbers = Numbers::new(alloc);
    numbers.push(number)?;
    Ok(numbers)
}

fn padded(alloc: Global, source: &Source) -> Result<NamedFile, Fail> {
    let mut bytes = Vec::from_slice(alloc, source.text.as_bytes())?;
    for _ in source.text.len()..source.length {
        bytes.push(b' ')?;
    }
    let name = String::from_str(alloc, source.name)?;
    Ok(NamedFile::new(name, ByteList::new(bytes)))
}

// Calls with these words over a shelf that has these files.
fn called(alloc: Global, files: FileList, line: &str, failing: Failing) -> Result<Left, Fail> {
    let mut shelf = MemShelf::new(alloc, files, one_number(alloc, failing.load)?);
    let mut out = MemSink::new(
        alloc,
        failing.room,
        std::cmp::max(1, failing.most),
        one_number(alloc, failing.write)?,
    )?;
    let mut err = MemSink::new(alloc, 999, 8, one_number(alloc, failing.line)?)?;
    let words = words_of(alloc, line)?;
    let status = balance(alloc, &words, &mut shelf, &mut out, &mut err);
    Ok(Left {
        status,
        out,
        err,
        loads: shelf.asked.len(),
    })
}

fn call(alloc: Global, named: &[Source], line: &str, failing: Failing) -> Result<Left, Fail> {
    let mut files = FileList::new(alloc);
    for file in named {
        files.push(padded(alloc, file)?)?;
    }
    called(alloc, files, line, failing)
}

const SHIFT_FILE: Source = Source {
    name: "shift.c",
    text: SHIFT,
    length: 0,
};

const FULL: Source = Source {
    name: "full.c",
    text: SHIFT,
    length: 262_144,
};

const BIG: Source = Source {
    name: "big.c",
    text: SHIFT,
    length: 262_145,
};

const SPELLED_FILE: Source = Source {
    name: "spelled.c",
    text: SPELLED,
    length: 0,
};

#[test]
fn prints_the_instrumented_text(rt: HostRuntime) -> Result<(), Fail> {
    for (source, line) in [
        (SHIFT_FILE, "print shift.c"),
        (FULL, "print full.c"),
        (SPELLED_FILE, "print spelled.c"),
    ] {
        let left = call(rt.alloc(), &[source], line, NONE)?;
        assert!(rt; left.is(Status::Done, 1, PRINTED, ""), "{line}");
    }
    Ok(())
}

#[test]
fn ends_by_the_table(rt: HostRuntime) -> Result<(), Fail> {
    let other = Source {
        name: "shift.c",
        text: SCATTER,
        length: 0,
    };
    let load = Failing { load: 1, ..NONE };
    let write = Failing { write: 3, ..NONE };
    let err = Failing { line: 1, ..NONE };
    for (source, line, failing, status, loads, out, told) in [
        (
            other,
            "print shift.c",
            NONE,
            Status::SourceRefused,
            1,
            "",
            "balance: shift.c: S17 IrregularWrite in item 2\n",
        ),
        (
            SHIFT_FILE,
            "print none.c",
            NONE,
            Status::ReadFault,
            1,
            "",
            "balance: cannot read none.c\n",
        ),
        (
            SHIFT_FILE,
            "print shift.c",
            load,
            Status::ReadFault,
            1,
            "",
            "balance: cannot read shift.c\n",
        ),
        (SHIFT_FILE, "print", NONE, Status::Usage, 0, "", USAGE),
        (SHIFT_FILE, "", NONE, Status::Usage, 0, "", USAGE),
        (
            SHIFT_FILE,
            "print -shift.c",
            NONE,
            Status::Usage,
            0,
            "",
            USAGE,
        ),
        (SHIFT_FILE, "fly shift.c", NONE, Status::Usage, 0, "", USAGE),
        (
            SHIFT_FILE,
            "print shift.c shift.c",
            NONE,
            Status::Usage,
            0,
            "",
            USAGE,
        ),
        (SHIFT_FILE, "run shift.c", NONE, Status::Usage, 0, "", USAGE),
        (
            SHIFT_FILE,
            "print --split --split shift.c",
            NONE,
            Status::Usage,
            0,
            "",
            USAGE,
        ),
        (SHIFT_FILE, "demo", NONE, Status::Usage, 0, "", USAGE),
        (SHIFT_FILE, "demo 400", NONE, Status::Usage, 0, "", USAGE),
        (SHIFT_FILE, "demo 000000", NONE, Status::Usage, 0, "", USAGE),
        (SHIFT_FILE, "demo 1 2", NONE, Status::Usage, 0, "", USAGE),
        (SHIFT_FILE, "try", NONE, Status::Usage, 0, "", USAGE),
        (
            SHIFT_FILE,
            "try shift.c -",
            NONE,
            Status::Usage,
            0,
            "",
            USAGE,
        ),
        (SHIFT_FILE, "run -s d1", NONE, Status::Usage, 0, "", USAGE),
        (
            SHIFT_FILE,
            "fly shift.c d1",
            NONE,
            Status::Usage,
            0,
            "",
            USAGE,
        ),
        (
            SHIFT_FILE,
            "try shift.c d1 f1 f2",
            NONE,
            Status::Usage,
            0,
            "",
            USAGE,
        ),
        (
            SHIFT_FILE,
            "run none.c d1",
            NONE,
            Status::ReadFault,
            1,
            "",
            "balance: cannot read none.c\n",
        ),
        (
            SHIFT_FILE,
            "try shift.c d1",
            NONE,
            Status::ReadFault,
            2,
            "",
            "balance: cannot read d1\n",
        ),
        (
            other,
            "try shift.c d1",
            NONE,
            Status::SourceRefused,
            1,
            "",
            "balance: shift.c: S17 IrregularWrite in item 2\n",
        ),
        (
            BIG,
            "print big.c",
            NONE,
            Status::TooLong,
            1,
            "",
            "balance: big.c is longer than 262144 bytes\n",
        ),
        (
            SHIFT_FILE,
            "print shift.c",
            write,
            Status::WriteFault,
            1,
            "#include <stdint",
            "balance: cannot write\n",
        ),
        (
            SHIFT_FILE,
            "print none.c",
            err,
            Status::ReadFault,
            1,
            "",
            "",
        ),
    ] {
        let left = call(rt.alloc(), &[source], line, failing)?;
        assert!(rt; left.is(status, loads, out, told), "{line}");
    }
    Ok(())
}

// Texts that aren't taken, in the file p.c, the words, and what is said of them.
const UNTAKEN: [(&str, &str, &str); 7] = [
    (
        "#include <stdint.h>\n\
#pragma balance range n 1 1000\n\
void shift(int64_t n, uint64_t A[n]) {\n  \
for (int64_t i = 0; i < n - 1; i++)\n    \
A[i + 1] = A[i]",
        "print p.c",
        "balance: p.c: S3 Syntax at byte 147\n",
    ),
    ("", "print p.c", "balance: p.c: S3 Syntax at byte 0\n"),
    ("a@b", "run p.c d1", "balance: p.c: S2 Lexical at byte 1\n"),
    (
        " /* open",
        "try p.c d1",
        "balance: p.c: S2 Lexical at byte 1\n",
    ),
    (PRINTED, "print p.c", "balance: p.c: S3 Syntax at byte 0\n"),
    (PRINTED, "try p.c d1", "balance: p.c: S3 Syntax at byte 0\n"),
    (
        SCATTER,
        "run p.c d1",
        "balance: p.c: S17 IrregularWrite in item 2\n",
    ),
];

#[test]
fn refuses_texts(rt: HostRuntime) -> Result<(), Fail> {
    for (text, line, told) in UNTAKEN {
        let source = Source {
            name: "p.c",
            text,
            length: 0,
        };
        let left = call(rt.alloc(), &[source], line, NONE)?;
        assert!(rt; left.is(Status::SourceRefused, 1, "", told), "{told}");
    }
    Ok(())
}

// A flip file named f1.
fn flip_file(text: &'static str) -> Source {
    Source {
        name: "f1",
        text,
        length: 0,
    }
}

// A data file named d1.
fn data_file(text: &'static str) -> Source {
    Source {
        name: "d1",
        text,
        length: 0,
    }
}

const SHIFT_DATA: &str = "n = 4\nA = 5 0 0 0\n";

const GATHER_DATA: &str = "n = 2\nm = 2\nP = 1 1\nX = 10 20\nY = 0 0\n";

// An index out of range.
const FAR_DATA: &str = "n = 2\nm = 2\nP = 1 5\nX = 10 20\nY = 0 0\n";

const BALANCED: &str = "A = 5 6 7 8\nbalanced\n";

// The source in the file k.c, the words, the data, the status and the output.
const RUNS: [(&str, &str, &str, Status, &str); 13] = [
    (SHIFT, "try k.c d1", SHIFT_DATA, Status::Done, BALANCED),
    (
        SHIFT,
        "run k.c d1",
        SHIFT_DATA,
        Status::Done,
        "A = 5 6 7 8\nplain\n",
    ),
    (
        SHIFT,
        "try k.c d1",
        "n = 1\nA = 5\n",
        Status::Done,
        "A = 5\nbalanced\n",
    ),
    (
        WIDE,
        "try k.c d1",
        SHIFT_DATA,
        Status::Outside,
        "A = 5 6 7 8\noutside A\n",
    ),
    (
        PRODUCTS,
        "try k.c d1",
        "n = 3\nA = 1 2 3 4 5 6 7 8 9\nB = 1 0 0 0 1 0 0 0 1\nC = 0 0 0 0 0 0 0 0 0\n",
        Status::Done,
        "C = 1 2 3 4 5 6 7 8 9\nbalanced\n",
    ),
    (
        TRIANGLE,
        "try k.c d1",
        "n = 3\nA = 1 1 1 1 2 3 1 3 6\n",
        Status::Done,
        "A = 1 1 1 1 1 2 1 2 1\nbalanced\n",
    ),
    (
        STEPS,
        "try k.c d1",
        "t = 3\nn = 2\nA = 4 9\nB = 0 0\n",
        Status::Done,
        "A = 4 9\nB = 0 0\nbalanced\n",
    ),
    (
        STEPS,
        "try k.c d1",
        "t = 2\nn = 3\nA = 1 0 2\nB = 0 0 0\n",
        Status::Done,
        "A = 1 3 2\nB = 0 3 0\nbalanced\n",
    ),
    (
        MIX,
        "try k.c d1",
        MIX_DATA,
        Status::Done,
        "A = 2 0 3 0\nC = 2 2\nbalanced\n",
    ),
    (
        GATHER,
        "try k.c d1",
        GATHER_DATA,
        Status::Done,
        "Y = 20 20\nbalanced\n",
    ),
    (
        GATHER,
        "try k.c d1",
        "n = 3\nm = 2\nP = 0 1 0\nX = 7 9\nY = 0 0 0\n",
        Status::Done,
        "Y = 7 9 7\nbalanced\n",
    ),
    (
        GATHER,
        "try k.c d1",
        FAR_DATA,
        Status::Reported,
        "Y = 0 0\nindex X\n",
    ),
    (
        GATHER,
        "run k.c d1",
        FAR_DATA,
        Status::Outside,
        "Y = 20 0\noutside X\n",
    ),
];

#[test]
fn runs_on_data(rt: HostRuntime) -> Result<(), Fail> {
    for (text, line, values, status, out) in RUNS {
        let source = Source {
            name: "k.c",
            text,
            length: 0,
        };
        let left = call(rt.alloc(), &[source, data_file(values)], line, NONE)?;
        assert!(rt; left.is(status, 2, out, ""), "{values}");
    }
    Ok(())
}

// The output of `run` on the text that `print` writes of a source, with these other files.
fn run_of_printed(
    alloc: Global,
    text: &'static str,
    others: &[Source],
    line: &str,
) -> Result<Left, Fail> {
    let source = Source {
        name: "k.c",
        text,
        length: 0,
    };
    let printed = call(alloc, &[source], "print k.c", NONE)?;
    let mut files = FileList::new(alloc);
    files.push(NamedFile::new(
        String::from_str(alloc, "k.out.c")?,
        ByteList::new(Vec::from_slice(alloc, printed.out.bytes.as_slice())?),
    ))?;
    for file in others {
        files.push(padded(alloc, file)?)?;
    }
    called(alloc, files, line, NONE)
}

#[test]
fn runs_what_it_prints(rt: HostRuntime) -> Result<(), Fail> {
    for (text, values, status, out) in [
        (SHIFT, SHIFT_DATA, Status::Done, BALANCED),
        (OTHER_BOUND, SHIFT_DATA, Status::Done, BALANCED),
        (
            WIDE,
            SHIFT_DATA,
            Status::Outside,
            "A = 5 6 7 8\noutside A\n",
        ),
        (
            MIX,
            MIX_DATA,
            Status::Done,
            "A = 2 0 3 0\nC = 2 2\nbalanced\n",
        ),
        (GATHER, GATHER_DATA, Status::Done, "Y = 20 20\nbalanced\n"),
        (GATHER, FAR_DATA, Status::Reported, "Y = 0 0\nindex X\n"),
    ] {
        let left = run_of_printed(rt.alloc(), text, &[data_file(values)], "run k.out.c d1")?;
        assert!(rt; left.is(status, 2, out, ""), "{values}");
    }
    Ok(())
}

// The source in the file k.c, its data, the flip, and the status and the output of `try`.
const FLIPS: [(&str, &str, &str, Status, &str); 10] = [
    (
        SHIFT,
        SHIFT_DATA,
        "flip A 1 3 at 2\n",
        Status::Reported,
        "A = 5 14 15 16\nfault A\n",
    ),
    (
        SHIFT,
        SHIFT_DATA,
        "flip A 1 3 at 1\n",
        Status::Done,
        BALANCED,
    ),
    (
        SHIFT,
        SHIFT_DATA,
        "flip A 1 3 at 3\n",
        Status::Done,
        "A = 5 14 7 8\nbalanced\n",
    ),
    (
        SHIFT,
        SHIFT_DATA,
        "flip A 1 3 at 6",
        Status::Done,
        "A = 5 14 7 8\nbalanced\n",
    ),
    (
        SHIFT,
        SHIFT_DATA,
        "\n \nflip A 1 3 at 99\r\n",
        Status::Done,
        "A = 5 14 7 8\nbalanced\n",
    ),
    (
        SHIFT,
        SHIFT_DATA,
        "flip A 3 63 at 18446744073709551615\n",
        Status::Done,
        "A = 5 6 7 9223372036854775816\nbalanced\n",
    ),
    (
        BOTH,
        "A = 1\nB = 0 0\n",
        "flip A 0 63 at 0\n",
        Status::Reported,
        "B = 9223372036854775809 9223372036854775809\nfault A\n",
    ),
    (
        WIDE,
        SHIFT_DATA,
        "flip A 0 0 at 0\n",
        Status::Outside,
        "A = 4 5 6 7\noutside A\n",
    ),
    (
        GATHER,
        "n = 2\nm = 2\nP = 1 1\nX = 20 20\nY = 0 0\n",
        "flip P 0 0 at 0\n",
        Status::Reported,
        "Y = 20 20\nfault P\n",
    ),
    (
        GATHER,
        GATHER_DATA,
        "flip P 0 1 at 0\n",
        Status::Reported,
        "Y = 0 0\nindex X\n",
    ),
];

#[test]
fn runs_under_flips(rt: HostRuntime) -> Result<(), Fail> {
    for (text, values, flip, status, out) in FLIPS {
        let alloc = rt.alloc();
        let source = Source {
            name: "k.c",
            text,
            length: 0,
        };
        let files = [source, data_file(values), flip_file(flip)];
        let tried = call(alloc, &files, "try k.c d1 f1", NONE)?;
        let others = [data_file(values), flip_file(flip)];
        let run = run_of_printed(alloc, text, &others, "run k.out.c d1 f1")?;
        for left in [&tried, &run] {
            assert!(rt; left.is(status, 3, out, ""), "{flip}");
        }
    }
    Ok(())
}

#[test]
fn runs_sources_under_flips(rt: HostRuntime) -> Result<(), Fail> {
    for (flip, out) in [
        ("flip A 1 3 at 2\n", "A = 5 14 15 16\nplain\n"),
        ("flip A 3 0 at 0\n", "A = 5 6 7 8\nplain\n"),
    ] {
        let files = [SHIFT_FILE, data_file(SHIFT_DATA), flip_file(flip)];
        let left = call(rt.alloc(), &files, "run shift.c d1 f1", NONE)?;
        assert!(rt; left.is(Status::Done, 3, out, ""), "{flip}");
    }
    Ok(())
}

#[test]
fn refuses_flips(rt: HostRuntime) -> Result<(), Fail> {
    for (flip, told) in [
        ("flip A 0 0\n", "balance: f1: F1 Syntax\n"),
        ("flip B 0 0 at 0\n", "balance: f1: F2 UnknownArray\n"),
        ("flip A 4 0 at 0\n", "balance: f1: F3 CellOutside\n"),
        ("flip A 3 64 at 0\n", "balance: f1: F4 BitOutside\n"),
    ] {
        let files = [SHIFT_FILE, data_file(SHIFT_DATA), flip_file(flip)];
        for line in ["try shift.c d1 f1", "run shift.c d1 f1"] {
            let left = call(rt.alloc(), &files, line, NONE)?;
            assert!(rt; left.is(Status::FlipRefused, 3, "", told), "{flip}");
        }
    }
    Ok(())
}

#[test]
fn takes_flip_files_up_to_their_limit(rt: HostRuntime) -> Result<(), Fail> {
    for (length, status, told) in [
        (65_536usize, Status::Reported, ""),
        (
            65_537,
            Status::TooLong,
            "balance: f1 is longer than 65536 bytes\n",
        ),
    ] {
        let flip = Source {
            length,
            ..flip_file("flip A 1 3 at 2\n")
        };
        let files = [SHIFT_FILE, data_file(SHIFT_DATA), flip];
        let left = call(rt.alloc(), &files, "try shift.c d1 f1", NONE)?;
        assert_eq!(rt; left.status, status, "{length}");
        assert_eq!(rt; left.err.bytes.as_slice(), told.as_bytes(), "{length}");
    }
    Ok(())
}

#[test]
fn stops_at_each_load_that_fails(rt: HostRuntime) -> Result<(), Fail> {
    for (load, told) in [
        (1u64, "balance: cannot read shift.c\n"),
        (2, "balance: cannot read d1\n"),
        (3, "balance: cannot read f1\n"),
    ] {
        let failing = Failing { load, ..NONE };
        let flip = flip_file("flip A 1 3 at 2\n");
        let files = [SHIFT_FILE, data_file(SHIFT_DATA), flip];
        let left = call(rt.alloc(), &files, "try shift.c d1 f1", failing)?;
        assert!(rt;
            left.is(Status::ReadFault, load as usize, "", told),
            "{told}"
        );
    }
    Ok(())
}

// What is said of the printed text of the shift, where one piece is changed.
fn told_of_changed(alloc: Global, from: &str, to: &str) -> Result<Left, Fail> {
    let (before, after) = PRINTED.split_once(from).unwrap_or((PRINTED, ""));
    let mut bytes = Vec::from_slice(alloc, before.as_bytes())?;
    bytes.extend_from_slice(to.as_bytes())?;
    bytes.extend_from_slice(after.as_bytes())?;
    let mut files = FileList::new(alloc);
    files.push(NamedFile::new(String::from_str(alloc, "p.c")?, ByteList::new(bytes)))?;
    files.push(padded(alloc, &data_file(SHIFT_DATA))?)?;
    called(alloc, files, "run p.c d1", NONE)
}

#[test]
fn refuses_changed_texts(rt: HostRuntime) -> Result<(), Fail> {
    for (from, to, front) in [
        (
            "#pragma balance begin\n",
            "",
            "balance: p.c: S3 Syntax at byte ",
        ),
        (
            "bal_use0 +=",
            "bal_other +=",
            "balance: p.c: S5 NameUnknown in item 14\n",
        ),
    ] {
        let left = told_of_changed(rt.alloc(), from, to)?;
        assert_eq!(rt; left.status, Status::SourceRefused, "{from}");
        assert!(rt;
            left.err.bytes.as_slice().starts_with(front.as_bytes()),
            "{from}"
        );
        assert_eq!(rt; left.out.bytes.as_slice(), b"".as_slice(), "{from}");
    }
    Ok(())
}

#[test]
fn refuses_data(rt: HostRuntime) -> Result<(), Fail> {
    for (values, told) in [
        ("n = 4\nA = 5 0 0\n", "balance: d1: I4 WrongCells A 4 3\n"),
        ("n = 1001\nA = 5 0 0 0\n", "balance: d1: I2 OutOfRange n\n"),
        (
            "n = 4\nA = 5 0 0 18446744073709551616\n",
            "balance: d1: I1 Syntax in line 2\n",
        ),
        (
            "n = 1001\nA = 5 0 0 18446744073709551616\n",
            "balance: d1: I1 Syntax in line 2\n",
        ),
        ("", "balance: d1: I1 Syntax in line 1\n"),
        ("n = 4\nA 5 0 0 0\n", "balance: d1: I1 Syntax in line 2\n"),
        (
            "n = 123456789012345678901234567890\nA = 5\n",
            "balance: d1: I1 Syntax in line 1\n",
        ),
    ] {
        let left = call(
            rt.alloc(),
            &[SHIFT_FILE, data_file(values)],
            "try shift.c d1",
            NONE,
        )?;
        assert!(rt; left.is(Status::DataRefused, 2, "", told), "{values}");
    }
    Ok(())
}

// The call ends with a write fault, and this many bytes of its output are there.
fn stops_within(
    rt: &impl Abort,
    alloc: Global,
    failing: Failing,
    length: usize,
) -> Result<(), Fail> {
    let files = [SHIFT_FILE, data_file(SHIFT_DATA)];
    let left = call(alloc, &files, "try shift.c d1", failing)?;
    let whole = BALANCED.as_bytes();
    assert_eq!(rt; left.status, Status::WriteFault, "{length} bytes");
    assert_eq!(rt;
        left.out.bytes.as_slice(),
        &whole[..whole.len().min(length)]
    );
    assert_eq!(rt;
        left.err.bytes.as_slice(),
        b"balance: cannot write\n".as_slice()
    );
    Ok(())
}

#[test]
fn writes_a_prefix_where_a_write_fails(rt: HostRuntime) -> Result<(), Fail> {
    for (most, writes) in [(1usize, 21u64), (8, 3)] {
        for whole in 0..writes {
            let failing = Failing {
                write: whole + 1,
                most,
                ..NONE
            };
            stops_within(
                &rt,
                rt.alloc(),
                failing,
                most.saturating_mul(whole as usize),
            )?;
        }
    }
    for room in 0..BALANCED.len() {
        stops_within(&rt, rt.alloc(), Failing { room, ..NONE }, room)?;
    }
    Ok(())
}

// A row of each declared name, and behind them rows of a name that isn't declared.
fn many_names(alloc: Global) -> Result<NamedFile, Fail> {
    let mut bytes = Vec::from_slice(alloc, SHIFT_DATA.as_bytes())?;
    for _ in 0..10_000 {
        bytes.extend_from_slice(b"b = 1\n")?;
    }
    Ok(NamedFile::new(String::from_str(alloc, "d1")?, ByteList::new(bytes)))
}

#[test]
fn refuses_many_names(rt: HostRuntime) -> Result<(), Fail> {
    let alloc = rt.alloc();
    let mut files = FileList::new(alloc);
    files.push(padded(alloc, &SHIFT_FILE)?)?;
    files.push(many_names(alloc)?)?;
    let mut shelf = MemShelf::new(alloc, files, Numbers::new(alloc));
    let mut out = MemSink::new(alloc, 99, 8, Numbers::new(alloc))?;
    let mut err = MemSink::new(alloc, 99, 8, Numbers::new(alloc))?;
    let words = words_of(alloc, "run shift.c d1")?;
    let status = balance(alloc, &words, &mut shelf, &mut out, &mut err);
    assert_eq!(rt; status, Status::DataRefused);
    assert_eq!(rt;
        err.bytes.as_slice(),
        b"balance: d1: I1 Syntax in line 3\n".as_slice()
    );
    Ok(())
}

// Two cells that get the value of one.
const BOTH: &str = "void twice(const uint64_t A[1], uint64_t B[2]) {\n  \
for (int64_t i = 0; i < 2; i++) B[i] = A[0];\n\
}\n";

// A nest with two assignments.
const MIX: &str = "#pragma balance range n 1 500\n\
void mix(int64_t n, uint64_t A[2 * n], const uint64_t B[2 * n], uint64_t C[n]) {\n  \
for (int64_t i = 0; i < n; i++) for (int64_t j = 0; j < n; j++) { A[2 * i] = B[i + j]; C[i] = C[i] + 1; }\n\
}\n";

const MIX_DATA: &str = "n = 2\nA = 0 0 0 0\nB = 1 2 3 4\nC = 0 0\n";

// A product of matrices.
const PRODUCTS: &str = "#include <stdint.h>\n\
/* C += A * B */\n\
#pragma scop\n\
#pragma balance range n 1 500\n\
void mm(int64_t n, const uint64_t A[n][n], const uint64_t B[n][n], uint64_t C[n][n]) {\n  \
for (int64_t i = 0; i < n; i++) for (int64_t j = 0; j < n; j++) for (int64_t k = 0; k < n; k++)\n    \
C[i][j] += A[i][k] * B[k][j];\n\
}\n";

// A nest whose loops begin and end at the variables of others.
const TRIANGLE: &str = "#pragma balance range n 1 500\n\
void tri(int64_t n, uint64_t A[n][n]) {\n  \
for (int64_t k = 0; k < n - 1; k++) for (int64_t i = k + 1; i < n; i++) for (int64_t j = k + 1; j < n; j++)\n    \
A[i][j] = A[i][j] - A[i][k] * A[k][j];\n\
}\n";

// Two loops in turn, in a loop.
const STEPS: &str = "#pragma balance range t 0 1000\n\
#pragma balance range n 2 1000\n\
void jac(int64_t t, int64_t n, uint64_t A[n], uint64_t B[n]) {\n  \
for (int64_t s = 0; s < t; s++) {\n    \
for (int64_t i = 1; i < n - 1; i++) B[i] = A[i - 1] + A[i + 1];\n    \
for (int64_t i = 1; i < n - 1; i++) A[i] = B[i];\n  \
}\n\
}\n";

// A read through an index array.
const GATHER: &str = "#pragma balance range n 1 1000\n\
#pragma balance range m 1 1000\n\
void gather(int64_t n, int64_t m, const uint64_t P[n], const uint64_t X[m], uint64_t Y[n]) {\n  \
for (int64_t i = 0; i < n; i++) Y[i] = X[P[i]];\n\
}\n";

const PRODUCT: &str = "#pragma balance range n 1 1000\n\
void shift(int64_t n, uint64_t A[n]) {\n  \
for (int64_t i = 0; i < n - 1; i++) A[i * n] = 1;\n\
}\n";

const SCATTER: &str = "#pragma balance range n 1 1000\n\
void shift(int64_t n, const uint64_t P[n], uint64_t A[n]) {\n  \
for (int64_t i = 0; i < n - 1; i++) A[P[i]] = 1;\n\
}\n";

const OWN_NAME: &str = "#pragma balance range n 1 1000\n\
void shift(int64_t n, uint64_t A[n]) {\n  \
uint64_t bal_x = 0;\n  \
for (int64_t i = 0; i < n - 1; i++) A[i] = bal_x;\n\
}\n";

const NO_DIVISOR: &str = "#pragma balance range n 1 1000\n\
void shift(int64_t n, uint64_t A[n]) {\n  \
for (int64_t i = 0; i < n - 1; i++) A[i] = A[i] / 0;\n\
}\n";

const WRITTEN_INDEX: &str = "#pragma balance range n 1 1000\n\
void shift(int64_t n, uint64_t P[n], uint64_t A[n]) {\n  \
for (int64_t i = 0; i < n - 1; i++) A[i] = A[P[i]];\n\
}\n";

const TWICE: &str = "#pragma balance range n 1 1000\n\
void shift(int64_t n, int64_t n, uint64_t A[n]) {\n  \
for (int64_t i = 0; i < n - 1; i++) A[i + 1] = A[i] + 1;\n\
}\n";

const UNKNOWN: &str = "#pragma balance range n 1 1000\n\
void shift(int64_t n, uint64_t A[n]) {\n  \
for (int64_t i = 0; i < n - 1; i++) A[i] = q;\n\
}\n";

const NO_RANGE: &str = "void shift(int64_t n, uint64_t A[n]) {\n  \
for (int64_t i = 0; i < n - 1; i++) A[i + 1] = A[i] + 1;\n\
}\n";

const DEEP: &str = "void deep(uint64_t A[2]) {\n\
for (int64_t a = 0; a < 2; a++) for (int64_t b = 0; b < 2; b++) for (int64_t c = 0; c < 2; c++)\n\
for (int64_t d = 0; d < 2; d++) for (int64_t e = 0; e < 2; e++) for (int64_t f = 0; f < 2; f++)\n\
for (int64_t g = 0; g < 2; g++) A[0] = 1;\n\
}\n";

// Sources in the file k.c that aren't accepted, and what is said of them.
const UNACCEPTED: [(&str, &str); 9] = [
    (PRODUCT, "balance: k.c: S9 NotAffine in item 2\n"),
    (SCATTER, "balance: k.c: S17 IrregularWrite in item 2\n"),
    (DEEP, "balance: k.c: S8 TooMany depth 7 in item 7\n"),
    (OWN_NAME, "balance: k.c: S6 ReservedName in item 0\n"),
    (NO_DIVISOR, "balance: k.c: S16 BadLiteral in item 2\n"),
    (WRITTEN_INDEX, "balance: k.c: S15 BadIndexArray in item 2\n"),
    (TWICE, "balance: k.c: S4 NameTwice in item 0\n"),
    (UNKNOWN, "balance: k.c: S5 NameUnknown in item 2\n"),
    (NO_RANGE, "balance: k.c: S7 BadRange in item 0\n"),
];

#[test]
fn refuses_sources(rt: HostRuntime) -> Result<(), Fail> {
    for (text, told) in UNACCEPTED {
        let source = Source {
            name: "k.c",
            text,
            length: 0,
        };
        let left = call(rt.alloc(), &[source], "try k.c d1", NONE)?;
        assert!(rt; left.is(Status::SourceRefused, 1, "", told), "{told}");
    }
    Ok(())
}

#[test]
fn reports(rt: HostRuntime) -> Result<(), Fail> {
    for (text, status, out, told) in [
        (
            MIX,
            Status::Done,
            "A counted reads 0 writes 1\nB counted reads 1 writes 0\nC difference reads 1 writes 1\n",
            "",
        ),
        (
            GATHER,
            Status::Done,
            "P difference reads 1 writes 0\nX inspected reads 1 writes 0\nY difference reads 0 writes 1\n",
            "",
        ),
        (
            PRODUCT,
            Status::SourceRefused,
            "",
            "balance: k.c: S9 NotAffine in item 2\n",
        ),
        (
            PRINTED,
            Status::SourceRefused,
            "",
            "balance: k.c: S3 Syntax at byte 0\n",
        ),
    ] {
        let source = Source {
            name: "k.c",
            text,
            length: 0,
        };
        let left = call(rt.alloc(), &[source], "report k.c", NONE)?;
        assert!(rt; left.is(status, 1, out, told), "{told}");
    }
    Ok(())
}

// The summaries of demonstrations.
const SUMMARIES: &[(&str, &str)] = &[
    (
        "demo 0",
        "demo 0 shift n 8\naccesses 14 turns 7\nbalanced\nflip A 1 0 at 2\nfault A\n",
    ),
    (
        "demo 1",
        "demo 1 mm n 8\naccesses 2048 turns 584\nbalanced\nflip B 0 1 at 2\nfault B\n",
    ),
    (
        "demo 2",
        "demo 2 jac n 8\naccesses 240 turns 104\nbalanced\nflip A 2 2 at 1\nfault A\n",
    ),
    (
        "demo 00003",
        "demo 3 gather n 8\naccesses 24 turns 8\nbalanced\nflip P 0 63 at 0\nindex X\n",
    ),
    (
        "demo 32",
        "demo 32 shift n 16\naccesses 30 turns 15\nbalanced\nflip A 1 32 at 2\nfault A\n",
    ),
    (
        "demo 34",
        "demo 34 jac n 16\naccesses 1120 turns 464\nbalanced\nflip A 2 34 at 1\nfault A\n",
    ),
    (
        "demo 35",
        "demo 35 gather n 16\naccesses 48 turns 16\nbalanced\nflip P 0 63 at 0\nindex X\n",
    ),
];

#[test]
fn demonstrates(rt: HostRuntime) -> Result<(), Fail> {
    for (line, summary) in SUMMARIES {
        let left = call(rt.alloc(), &[], line, NONE)?;
        assert!(rt; left.is(Status::Done, 0, summary, ""), "{line}");
    }
    Ok(())
}

// A product of matrices of 16 rows: 18 million turns for each verdict.
#[test]
fn demonstrates_a_product(rt: HostRuntime) -> Result<(), Fail> {
    let left = call(rt.alloc(), &[], "demo 33", NONE)?;
    assert_eq!(rt; left.status, Status::Done);
    assert_eq!(rt;
        left.out.bytes.as_slice(),
        b"demo 33 mm n 16\naccesses 16384 turns 4368\nbalanced\nflip B 0 33 at 2\nfault B\n".as_slice()
    );
    Ok(())
}

fn named(alloc: Global, name: &str, bytes: &[u8]) -> Result<NamedFile, Fail> {
    Ok(NamedFile::new(
        String::from_str(alloc, name)?,
        ByteList::new(Vec::from_slice(alloc, bytes)?),
    ))
}

// Whether the output of `run` on what `print` writes of the source of a demonstration ends so, and its status.
fn verdict_of(
    alloc: Global,
    number: u32,
    line: &str,
    verdict: &[u8],
) -> Result<(Status, bool), Fail> {
    if number > 399 {
        return Ok((Status::Usage, false));
    }
    let demo = kernel_of(alloc, number)?;
    let mut sources = FileList::new(alloc);
    sources.push(named(alloc, "k.c", demo.source.as_slice())?)?;
    let printed = called(alloc, sources, "print k.c", NONE)?;
    let mut files = FileList::new(alloc);
    files.push(named(alloc, "k.out.c", printed.out.bytes.as_slice())?)?;
    files.push(named(alloc, "d", demo.inputs.as_slice())?)?;
    files.push(named(alloc, "f", demo.flip.as_slice())?)?;
    let left = called(alloc, files, line, NONE)?;
    Ok((left.status, left.out.bytes.as_slice().ends_with(verdict)))
}

#[test]
fn runs_what_it_prints_of_demonstrations(rt: HostRuntime) -> Result<(), Fail> {
    for (number, fault) in [
        (0, b"\nfault A\n".as_slice()),
        (1, b"\nfault B\n"),
        (2, b"\nfault A\n"),
        (3, b"\nindex X\n"),
    ] {
        assert_eq!(rt;
            verdict_of(rt.alloc(), number, "run k.out.c d", b"\nbalanced\n")?,
            (Status::Done, true),
            "{number}"
        );
        assert_eq!(rt;
            verdict_of(rt.alloc(), number, "run k.out.c d f", fault)?,
            (Status::Reported, true),
            "{number}"
        );
    }
    Ok(())
}

#[test]
fn cuts_a_summary_where_a_write_fails(rt: HostRuntime) -> Result<(), Fail> {
    let left = call(rt.alloc(), &[], "demo 0", Failing { write: 3, ..NONE })?;
    assert_eq!(rt; left.status, Status::WriteFault);
    assert_eq!(rt; left.out.bytes.as_slice(), b"demo 0 shift n 8".as_slice());
    assert_eq!(rt;
        left.err.bytes.as_slice(),
        b"balance: cannot write\n".as_slice()
    );
    Ok(())
}
