//! Frames and inputs by which flips are read.

ghost use Rattle.std.specs.Prelude.{◌≡◌, [], ◌∷◌, IfOk};
ghost use Rattle.data_file.specs.Samples.{name_of, variable, line_frame, grid_frame};

use c_tree::{Affine, ArrayInfo, Flip, Frame, Name};
use data_file::{DataRefusal, read_data};
use fault_plan::{FlipRefusal, read_flip};
use sqlite_items::Items;
use std::alloc::Global;

fn name(alloc: Global, bytes: &[u8]) -> Result<Name, DataRefusal>
    ensures { IfOk result (λ n. n ≡ name_of bytes.now) }
{
    Ok(Name {
        bytes: Items::from_slice(alloc, bytes)?,
    })
}

fn parameter(alloc: Global, number: u32) -> Result<Affine, DataRefusal>
    ensures { IfOk result (λ a. a ≡ variable number) }
{
    let mut terms = Items::new(alloc);
    terms.push((number, 1))?;
    Ok(Affine { constant: 0, terms })
}

/// n in 1 to 1000, and A[n].
fn line(alloc: Global) -> Result<Frame, DataRefusal>
    ensures { IfOk result (λ f. f ≡ line_frame) }
{
    let mut ints = Items::new(alloc);
    ints.push((name(alloc, b"n")?, 1, 1000))?;
    let mut extents = Items::new(alloc);
    extents.push(parameter(alloc, 1)?)?;
    let mut arrays = Items::new(alloc);
    arrays.push(ArrayInfo {
        name: name(alloc, b"A")?,
        constant: false,
        extents,
    })?;
    Ok(Frame { ints, arrays })
}

/// n and m in 1 to 4000, const P[n], and X[n][m].
fn grid(alloc: Global) -> Result<Frame, DataRefusal>
    ensures { IfOk result (λ f. f ≡ grid_frame) }
{
    let mut ints = Items::new(alloc);
    ints.push((name(alloc, b"n")?, 1, 4000))?;
    ints.push((name(alloc, b"m")?, 1, 4000))?;
    let mut row = Items::new(alloc);
    row.push(parameter(alloc, 1)?)?;
    let mut square = Items::new(alloc);
    square.push(parameter(alloc, 1)?)?;
    square.push(parameter(alloc, 2)?)?;
    let mut arrays = Items::new(alloc);
    arrays.push(ArrayInfo {
        name: name(alloc, b"P")?,
        constant: true,
        extents: row,
    })?;
    arrays.push(ArrayInfo {
        name: name(alloc, b"X")?,
        constant: false,
        extents: square,
    })?;
    Ok(Frame { ints, arrays })
}

/// What the text is for A of 4 cells.
pub fn flip_in_line(alloc: Global, text: &[u8]) -> Result<Result<Flip, FlipRefusal>, DataRefusal> {
    let frame = line(alloc)?;
    let inputs = read_data(alloc, &frame, b"n = 4\nA = 5 0 0 0\n")?;
    Ok(read_flip(&frame, &inputs, text))
}

/// What the text is for P of 2 cells and X of 2 by 3.
pub fn flip_in_grid(alloc: Global, text: &[u8]) -> Result<Result<Flip, FlipRefusal>, DataRefusal> {
    let frame = grid(alloc)?;
    let inputs = read_data(alloc, &frame, b"n = 2\nm = 3\nP = 1 0\nX = 1 2 3 4 5 6\n")?;
    Ok(read_flip(&frame, &inputs, text))
}
