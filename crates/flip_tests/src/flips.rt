//! Flips that are read, and texts that are refused.

use crate::given::{flip_in_grid, flip_in_line};
use c_tree::Flip;
use fault_plan::FlipRefusal;
use std::test::Fail;

#[test]
fn reads_a_flip(rt: HostRuntime) -> Result<(), Fail> {
    let texts: [&[u8]; 9] = [
        b"flip A 3 63 at 18446744073709551615",
        b"flip A 3 63 at 18446744073709551615\n",
        b"flip A 3 63 at 18446744073709551615\r\n",
        b"\nflip A 3 63 at 18446744073709551615\n",
        b"flip A 3 63 at 18446744073709551615\n\n\n",
        b" \t \r\n\r\nflip A 3 63 at 18446744073709551615\r\n\t\r\n",
        b"\n\n\nflip A 3 63 at 18446744073709551615",
        b"flip A 3 63 at 18446744073709551615\n ",
        b"\t\nflip A 3 63 at 18446744073709551615\n\t",
    ];
    for text in texts {
        let flip = flip_in_line(rt.alloc(), text)?;
        assert_eq!(rt;
            flip,
            Ok(Flip {
                array: 0,
                cell: 3,
                bit: 63,
                place: u64::MAX,
            })
        );
    }
    Ok(())
}

#[test]
fn numbers_arrays_and_cells(rt: HostRuntime) -> Result<(), Fail> {
    let flip = flip_in_grid(rt.alloc(), b"flip X 5 1 at 7\n")?;
    assert_eq!(rt;
        flip,
        Ok(Flip {
            array: 1,
            cell: 5,
            bit: 1,
            place: 7,
        })
    );
    let flip = flip_in_grid(rt.alloc(), b"flip P 1 0 at 0\n")?;
    assert_eq!(rt;
        flip,
        Ok(Flip {
            array: 0,
            cell: 1,
            bit: 0,
            place: 0,
        })
    );
    assert_eq!(rt;
        flip_in_grid(rt.alloc(), b"flip P 2 0 at 0\n")?,
        Err(FlipRefusal::CellOutside)
    );
    assert_eq!(rt;
        flip_in_grid(rt.alloc(), b"flip X 6 0 at 0\n")?,
        Err(FlipRefusal::CellOutside)
    );
    assert_eq!(rt;
        flip_in_grid(rt.alloc(), b"flip m 0 0 at 0\n")?,
        Err(FlipRefusal::UnknownArray)
    );
    Ok(())
}

#[test]
fn refuses_other_lines(rt: HostRuntime) -> Result<(), Fail> {
    let texts: [&[u8]; 40] = [
        b"",
        b"\n",
        b" \t\r\n",
        b"flip A 0 0",
        b"flip A 0 0\n",
        b"flip A 0 0 at",
        b"flip A 0 0 at ",
        b"flip A 0 at 0",
        b"flip A 0 0 0",
        b"flip A 0 0 0 at 0",
        b"flip A 0 0 at 0 0",
        b"flip A B 0 0 at 0",
        b"flip  0 0 at 0",
        b"flip 0 0 at 0",
        b"Flip A 0 0 at 0",
        b"flip A 0 0 At 0",
        b"flipA 0 0 at 0",
        b" flip A 0 0 at 0",
        b"flip A 0 0 at 0 ",
        b"flip A 0 0 at 0\t\n",
        b"flip  A 0 0 at 0",
        b"flip A  0 0 at 0",
        b"flip A 0 0  at 0",
        b"flip A 0 0 at  0",
        b"flip\tA 0 0 at 0",
        b"flip A\t0 0 at 0",
        b"flip A 0\t0 at 0",
        b"flip A 0 0\tat 0",
        b"flip A 00 0 at 0",
        b"flip A 0 01 at 0",
        b"flip A 0 0 at 00",
        b"flip A +0 0 at 0",
        b"flip A 0 -0 at 0",
        b"flip A 0 0 at 0x1",
        b"flip A 0 0 at 0\r",
        b"flip A 0 0 at 0\r\r\n",
        b"flip A 0 0 at 0\n\r",
        b"flip A\r 0 0 at 0\n",
        b"flip A 0 0 at 0\nflip A 0 0 at 0\n",
        b"flip A 0 0 at 0\nflip",
    ];
    for text in texts {
        assert_eq!(rt; flip_in_line(rt.alloc(), text)?, Err(FlipRefusal::Syntax));
    }
    Ok(())
}

#[test]
fn refuses_numbers_beyond_a_word(rt: HostRuntime) -> Result<(), Fail> {
    let texts: [&[u8]; 5] = [
        b"flip A 3 63 at 18446744073709551616",
        b"flip A 18446744073709551616 0 at 0",
        b"flip A 0 18446744073709551616 at 0",
        b"flip B 0 0 at 18446744073709551616",
        b"flip A 0 0 at 1000000000000000000000000000000000000000000000000000000000000000",
    ];
    for text in texts {
        assert_eq!(rt; flip_in_line(rt.alloc(), text)?, Err(FlipRefusal::Syntax));
    }
    Ok(())
}

#[test]
fn refuses_in_order(rt: HostRuntime) -> Result<(), Fail> {
    let texts: [(&[u8], FlipRefusal); 15] = [
        (b"flip B 0 0 at 0", FlipRefusal::UnknownArray),
        (b"flip n 0 0 at 0", FlipRefusal::UnknownArray),
        (b"flip a 0 0 at 0", FlipRefusal::UnknownArray),
        (b"flip AA 0 0 at 0", FlipRefusal::UnknownArray),
        (b"flip at 0 0 at 0", FlipRefusal::UnknownArray),
        (b"flip A[0] 0 0 at 0", FlipRefusal::UnknownArray),
        (b"flip \xc3\x84 0 0 at 0", FlipRefusal::UnknownArray),
        (b"flip \xff\xa0\x00 0 0 at 0", FlipRefusal::UnknownArray),
        (b"flip B 4 64 at 0", FlipRefusal::UnknownArray),
        (b"flip A 4 0 at 0", FlipRefusal::CellOutside),
        (b"flip A 4 64 at 0", FlipRefusal::CellOutside),
        (
            b"flip A 18446744073709551615 0 at 0",
            FlipRefusal::CellOutside,
        ),
        (b"flip A 3 64 at 0", FlipRefusal::BitOutside),
        (b"flip A 0 256 at 0", FlipRefusal::BitOutside),
        (
            b"flip A 0 18446744073709551615 at 0",
            FlipRefusal::BitOutside,
        ),
    ];
    for (text, refusal) in texts {
        assert_eq!(rt; flip_in_line(rt.alloc(), text)?, Err(refusal));
    }
    Ok(())
}

#[test]
fn names_refusals(rt: HostRuntime) -> Result<(), Fail> {
    let refusals = [
        (FlipRefusal::Syntax, "F1 Syntax"),
        (FlipRefusal::UnknownArray, "F2 UnknownArray"),
        (FlipRefusal::CellOutside, "F3 CellOutside"),
        (FlipRefusal::BitOutside, "F4 BitOutside"),
    ];
    for (refusal, words) in refusals {
        let text = format!(in rt.alloc(); "{refusal}")?;
        assert_eq!(rt; text.as_str(), words);
    }
    Ok(())
}
