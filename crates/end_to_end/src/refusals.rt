//! How refusals display, and when totals agree.

use c_tree::{Counted, Name, Refusal, Totals};
use sqlite_items::Items;
use std::alloc::Global;
use std::test::Fail;

#[test]
fn shows_what_is_refused(rt: HostRuntime) -> Result<(), Fail> {
    let item = 2;
    let lines = [
        (Refusal::TextTooLong { length: 16777217 }, "S1 TextTooLong"),
        (Refusal::Lexical { byte: 17 }, "S2 Lexical at byte 17"),
        (Refusal::Syntax { byte: 17 }, "S3 Syntax at byte 17"),
        (Refusal::NameTwice { item }, "S4 NameTwice in item 2"),
        (Refusal::NameUnknown { item }, "S5 NameUnknown in item 2"),
        (Refusal::ReservedName { item }, "S6 ReservedName in item 2"),
        (Refusal::BadRange { item }, "S7 BadRange in item 2"),
        (Refusal::NotAffine { item }, "S9 NotAffine in item 2"),
        (
            Refusal::CoefficientTooLarge { item },
            "S10 CoefficientTooLarge in item 2",
        ),
        (
            Refusal::IntervalTooWide { item },
            "S11 IntervalTooWide in item 2",
        ),
        (
            Refusal::ExtentNotPositive { item },
            "S12 ExtentNotPositive in item 2",
        ),
        (
            Refusal::WrongDimensions { item },
            "S13 WrongDimensions in item 2",
        ),
        (Refusal::WriteToConst { item }, "S14 WriteToConst in item 2"),
        (
            Refusal::BadIndexArray { item },
            "S15 BadIndexArray in item 2",
        ),
        (Refusal::BadLiteral { item }, "S16 BadLiteral in item 2"),
        (
            Refusal::IrregularWrite { item },
            "S17 IrregularWrite in item 2",
        ),
        (Refusal::WrongKind { item }, "S18 WrongKind in item 2"),
        (Refusal::OutOfMemory, "out of memory"),
    ];
    for (refusal, line) in lines {
        let shown = format!(in rt.alloc(); "{refusal}")?;
        assert_eq!(rt; shown.as_str(), line);
    }
    Ok(())
}

#[test]
fn shows_what_is_counted(rt: HostRuntime) -> Result<(), Fail> {
    let lines = [
        (Counted::Parameters, "S8 TooMany parameters 7 in item 7"),
        (Counted::Arrays, "S8 TooMany arrays 7 in item 7"),
        (Counted::Scalars, "S8 TooMany scalars 7 in item 7"),
        (Counted::Depth, "S8 TooMany depth 7 in item 7"),
        (Counted::Statements, "S8 TooMany statements 7 in item 7"),
        (Counted::Reads, "S8 TooMany reads 7 in item 7"),
    ];
    for (counted, line) in lines {
        let refusal = Refusal::TooMany {
            counted,
            count: 7,
            item: 7,
        };
        let shown = format!(in rt.alloc(); "{refusal}")?;
        assert_eq!(rt; shown.as_str(), line);
    }
    Ok(())
}

fn copies(alloc: Global) -> Result<Vec<Name>, Refusal> {
    let name = Name {
        bytes: Items::from_slice(alloc, b"n")?,
    };
    let mut names = Vec::new(alloc);
    names.push(name.copy(alloc)?)?;
    Ok(names)
}

#[test]
fn takes_up_want_of_memory(rt: HostRuntime) -> Result<(), Fail> {
    assert_eq!(rt; copies(rt.alloc())?.len(), 1);
    Ok(())
}

#[test]
fn totals_agree_where_the_pair_is_equal(rt: HostRuntime) -> Result<(), Fail> {
    let pairs = vec![in rt.alloc(); (18, 18), (26, 34), (2, 18446744073709551618)]?;
    let totals = Totals::from_vec(pairs);
    assert!(rt; totals.agree(0));
    assert!(rt; !totals.agree(1));
    assert!(rt; !totals.agree(2), "they differ by 2^64");
    Ok(())
}
