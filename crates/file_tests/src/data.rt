//! Data texts and what is answered, and the output of a run.

ghost use Rattle.std.specs.Prelude.{◌≡◌, [], ◌∷◌, ◌<◌, length, IfOk, ℕ, ℤ};
ghost use Rattle.data_file.specs.Samples.{name_of, variable, line_frame, grid_frame};
ghost use Rattle.data_file.specs.Conditions.{NamesBelow};

use c_tree::{Affine, ArrayInfo, ArrayNumbers, Cells, Ended, Frame, Inputs, Name, Totals, Verdict};
use data_file::{DataRefusal, output, read_data, write_data};
use sqlite_items::Items;
use std::alloc::Global;
use std::test::Fail;

fn name(alloc: Global, bytes: &[u8]) -> Result<Name, DataRefusal>
    ensures { IfOk result (λ n. n ≡ name_of bytes.now) }
{
    Ok(Name {
        bytes: Items::from_slice(alloc, bytes)?,
    })
}

fn parameter(alloc: Global, number: u32) -> Result<Affine, DataRefusal>
    ensures { IfOk result (λ a. a ≡ variable number) }
{
    let mut terms = Items::new(alloc);
    terms.push((number, 1))?;
    Ok(Affine { constant: 0, terms })
}

/// n in 1 to 1000, and A[n].
fn line(alloc: Global) -> Result<Frame, DataRefusal>
    ensures { IfOk result (λ f. f ≡ line_frame) }
{
    let mut ints = Items::new(alloc);
    ints.push((name(alloc, b"n")?, 1, 1000))?;
    let mut extents = Items::new(alloc);
    extents.push(parameter(alloc, 1)?)?;
    let mut arrays = Items::new(alloc);
    arrays.push(ArrayInfo {
        name: name(alloc, b"A")?,
        constant: false,
        extents,
    })?;
    Ok(Frame { ints, arrays })
}

/// n and m in 1 to 4000, const P[n], and X[n][m].
fn grid(alloc: Global) -> Result<Frame, DataRefusal>
    ensures { IfOk result (λ f. f ≡ grid_frame) }
{
    let mut ints = Items::new(alloc);
    ints.push((name(alloc, b"n")?, 1, 4000))?;
    ints.push((name(alloc, b"m")?, 1, 4000))?;
    let mut row = Items::new(alloc);
    row.push(parameter(alloc, 1)?)?;
    let mut square = Items::new(alloc);
    square.push(parameter(alloc, 1)?)?;
    square.push(parameter(alloc, 2)?)?;
    let mut arrays = Items::new(alloc);
    arrays.push(ArrayInfo {
        name: name(alloc, b"P")?,
        constant: true,
        extents: row,
    })?;
    arrays.push(ArrayInfo {
        name: name(alloc, b"X")?,
        constant: false,
        extents: square,
    })?;
    Ok(Frame { ints, arrays })
}

fn read_line(alloc: Global, text: &[u8]) -> Result<Inputs, DataRefusal> {
    let frame = line(alloc)?;
    read_data(alloc, &frame, text)
}

fn read_grid(alloc: Global, text: &[u8]) -> Result<Inputs, DataRefusal> {
    let frame = grid(alloc)?;
    read_data(alloc, &frame, text)
}

/// The text of a line with this value and these cells.
fn write_line(alloc: Global, value: i64, words: &[u64]) -> Result<Vec<u8>, DataRefusal> {
    let frame = line(alloc)?;
    let mut ints = Items::new(alloc);
    ints.push(value)?;
    let mut cells = Items::new(alloc);
    cells.push(Items::from_slice(alloc, words)?)?;
    Ok(write_data(alloc, &frame, &Inputs { ints, cells })?)
}

#[test]
fn writes_a_line(rt: HostRuntime) -> Result<(), Fail> {
    let text = write_line(rt.alloc(), 4, &[5, 0, 0, 0])?;
    assert_eq!(rt; text.as_slice(), b"n = 4\nA = 5 0 0 0\n".as_slice());
    let least = write_line(rt.alloc(), i64::MIN, &[u64::MAX])?;
    assert_eq!(rt;
        least.as_slice(),
        b"n = -9223372036854775808\nA = 18446744073709551615\n".as_slice()
    );
    Ok(())
}

#[test]
fn reads_a_line(rt: HostRuntime) -> Result<(), Fail> {
    let texts: [&[u8]; 6] = [
        b"n = 4\nA = 5 0 0 0\n",
        b"n = 4\r\nA = 5 0 0 0\r\n",
        b"A = 5 0 0 0\nn = 4",
        b"n = 4\nA = 5\t0 \t 0  0\n",
        b"\n \t\nn = 4\n\r\nA = 5 0 0 0\n\n",
        b"A = 5 0 0 0\r\n\n\nn = 4\n",
    ];
    for text in texts {
        let inputs = read_line(rt.alloc(), text)?;
        assert_eq!(rt; inputs.ints.as_slice(), [4].as_slice());
        let row = inputs.cells.get(0).map(|row| row.as_slice());
        assert_eq!(rt; row.unwrap_or(&[]), [5, 0, 0, 0].as_slice());
    }
    Ok(())
}

#[test]
fn finds_the_first_bad_line(rt: HostRuntime) -> Result<(), Fail> {
    let texts: [(&[u8], u64); 30] = [
        (b"", 1),
        (b"n = 4\n", 2),
        (b"n = 4\n\n\n", 4),
        (b"n = 4\nA\n", 2),
        (b"n = 4\nA = 5 0 0 18446744073709551616\n", 2),
        (b"n = 1001\nA = 5 0 0 18446744073709551616\n", 2),
        (b"n = 4\r\r\nA = 5 0 0 0\n", 1),
        (b"n = 4\nA = 5 0 0 0\r", 2),
        (b"n = 4 \nA = 5 0 0 0\n", 1),
        (b" n = 4\nA = 5 0 0 0\n", 1),
        (b"n  = 4\nA = 5 0 0 0\n", 1),
        (b"n =  4\nA = 5 0 0 0\n", 1),
        (b"n=4\nA = 5 0 0 0\n", 1),
        (b"n = -0\nA = 5 0 0 0\n", 1),
        (b"n = +5\nA = 5 0 0 0\n", 1),
        (b"n = 05\nA = 5 0 0 0\n", 1),
        (b"n = -\nA = 5 0 0 0\n", 1),
        (b"n = 4\nA = 5 0 0 00\n", 2),
        (b"n = 4\nA = 5 0 -1 0\n", 2),
        (b"n = 4\nA = \n", 2),
        (b"n = 4\nA =\n", 2),
        (b"n = 4\nA = 5 0 0 0 \n", 2),
        (b"n = 9223372036854775808\nA = 5\n", 1),
        (b"n = -9223372036854775809\nA = 5\n", 1),
        (b"n = 123456789012345678901234567890\nA = 5\n", 1),
        (b"\n \t\nn = 4\n\nA = x\n", 5),
        (b"n = 4\nn = 4\nA = 5 0 0 0\n", 2),
        (b"n = 4\nB = 1\nA = 5 0 0 0\n", 2),
        (b"n = 4\nx\ny\n", 2),
        (b"A = 5 0 0\nn = 4\nbad\n", 3),
    ];
    for (text, line) in texts {
        let refusal = read_line(rt.alloc(), text).err();
        assert_eq!(rt; refusal, Some(DataRefusal::Syntax { line }));
    }
    Ok(())
}

#[test]
fn finds_values_out_of_range(rt: HostRuntime) -> Result<(), Fail> {
    let texts: [&[u8]; 5] = [
        b"n = 1001\nA = 5 0 0 0\n",
        b"n = 0\nA = 5\n",
        b"n = -1\nA = 5\n",
        b"n = 9223372036854775807\nA = 5\n",
        b"n = -9223372036854775808\nA = 5\n",
    ];
    for text in texts {
        let refusal = read_line(rt.alloc(), text).err();
        assert_eq!(rt; refusal, Some(DataRefusal::OutOfRange { parameter: 0 }));
    }
    let second = read_grid(rt.alloc(), b"m = 4001\nn = 1\nP = 1\nX = 1\n").err();
    assert_eq!(rt; second, Some(DataRefusal::OutOfRange { parameter: 1 }));
    Ok(())
}

#[test]
fn counts_cells(rt: HostRuntime) -> Result<(), Fail> {
    let few = read_line(rt.alloc(), b"n = 4\nA = 5 0 0\n").err();
    let wrong = DataRefusal::WrongCells {
        array: 0,
        wanted: 4,
        given: 3,
    };
    assert_eq!(rt; few, Some(wrong));
    let many = read_grid(rt.alloc(), b"n = 2\nm = 3\nP = 1 2\nX = 1 2 3 4 5 6 7\n").err();
    let wrong = DataRefusal::WrongCells {
        array: 1,
        wanted: 6,
        given: 7,
    };
    assert_eq!(rt; many, Some(wrong));
    let large = read_grid(rt.alloc(), b"n = 4000\nm = 4000\nP = 1\nX = 1\n").err();
    assert_eq!(rt; large, Some(DataRefusal::TooLarge { array: 1 }));
    let text = b"n = 2\nm = 1\nP = 1 2\nX = 18446744073709551615 0\n";
    let whole = read_grid(rt.alloc(), text)?;
    assert_eq!(rt; whole.ints.as_slice(), [2, 1].as_slice());
    let rows = [[1, 2], [18446744073709551615, 0]];
    assert_eq!(rt; whole.cells.len(), 2);
    for (array, row) in rows.iter().enumerate() {
        let cells = whole.cells.get(array).map(|cells| cells.as_slice());
        assert_eq!(rt; cells, Some(row.as_slice()));
    }
    Ok(())
}

#[test]
fn shows_why_a_text_is_refused(rt: HostRuntime) -> Result<(), Fail> {
    let wrong = DataRefusal::WrongCells {
        array: 0,
        wanted: 4,
        given: 3,
    };
    let lines = [
        (DataRefusal::Syntax { line: 2 }, "I1 Syntax in line 2"),
        (DataRefusal::OutOfRange { parameter: 0 }, "I2 OutOfRange 0"),
        (DataRefusal::TooLarge { array: 1 }, "I3 TooLarge 1"),
        (wrong, "I4 WrongCells 0 4 3"),
        (DataRefusal::OutOfMemory, "out of memory"),
    ];
    for (refusal, line) in lines {
        let shown = format!(in rt.alloc(); "{refusal}")?;
        assert_eq!(rt; shown.as_str(), line);
    }
    Ok(())
}

fn two_rows(alloc: Global) -> Result<Cells, DataRefusal>
    ensures { IfOk result (λ cells. length cells ≡ 2) }
{
    let mut cells = Items::new(alloc);
    cells.push(Items::from_slice(alloc, &[1, 1])?)?;
    cells.push(Items::from_slice(alloc, &[20, 20])?)?;
    Ok(cells)
}

/// The output of a run of the grid.
fn grid_output(alloc: Global, verdict: Verdict) -> Result<Vec<u8>, DataRefusal>
    requires { NamesBelow 2 verdict }
{
    let frame = grid(alloc)?;
    let ended = Ended {
        verdict,
        arrays: two_rows(alloc)?,
        totals: Totals::from_vec(Vec::new(alloc)),
        accesses: 0,
        prologue_turns: 0,
        body_turns: 0,
        tables: Items::new(alloc),
    };
    Ok(output(alloc, &frame, &ended)?)
}

#[test]
fn writes_what_a_run_left(rt: HostRuntime) -> Result<(), Fail> {
    let plain = grid_output(rt.alloc(), Verdict::Plain)?;
    assert_eq!(rt; plain.as_slice(), b"X = 20 20\nplain\n".as_slice());
    let balanced = grid_output(rt.alloc(), Verdict::Balanced)?;
    assert_eq!(rt; balanced.as_slice(), b"X = 20 20\nbalanced\n".as_slice());
    let index = grid_output(rt.alloc(), Verdict::Index(1))?;
    assert_eq!(rt; index.as_slice(), b"X = 20 20\nindex X\n".as_slice());
    let outside = grid_output(rt.alloc(), Verdict::Outside(0))?;
    assert_eq!(rt; outside.as_slice(), b"X = 20 20\noutside P\n".as_slice());
    let mut numbers: ArrayNumbers = Items::new(rt.alloc());
    numbers.push(1)?;
    numbers.push(0)?;
    let fault = grid_output(rt.alloc(), Verdict::Fault(numbers))?;
    assert_eq!(rt; fault.as_slice(), b"X = 20 20\nfault P X\n".as_slice());
    Ok(())
}
