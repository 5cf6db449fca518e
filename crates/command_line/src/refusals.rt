//! How a refusal of a source text is written.

ghost use Rattle.std.specs.Prelude.{◌≡◌, IfOk, string_bytes};
ghost use Rattle.command_line.specs.Refusals.{at_byte as text_at_byte, in_item as text_in_item, refusal_text as text_of};

use c_tree::Refusal;
use std::alloc::{AllocError, Global};

fn at_byte(alloc: Global, what: &str, byte: u32) -> Result<String, AllocError>
    ensures { IfOk result (λ text. string_bytes text ≡ text_at_byte what.now byte) }
{
    format!(in alloc; "{what} at byte {byte}")
}

fn in_item(alloc: Global, what: &str, item: u32) -> Result<String, AllocError>
    ensures { IfOk result (λ text. string_bytes text ≡ text_in_item what.now item) }
{
    format!(in alloc; "{what} in item {item}")
}

/// Its number and name, and where it is found.
pub fn refusal_text(alloc: Global, refusal: Refusal) -> Result<String, AllocError>
    ensures { IfOk result (λ text. string_bytes text ≡ text_of refusal) }
{
    match refusal {
        Refusal::TextTooLong { .. } => String::from_str(alloc, "S1 TextTooLong"),
        Refusal::Lexical { byte } => at_byte(alloc, "S2 Lexical", byte),
        Refusal::Syntax { byte } => at_byte(alloc, "S3 Syntax", byte),
        Refusal::NameTwice { item } => in_item(alloc, "S4 NameTwice", item),
        Refusal::NameUnknown { item } => in_item(alloc, "S5 NameUnknown", item),
        Refusal::ReservedName { item } => in_item(alloc, "S6 ReservedName", item),
        Refusal::BadRange { item } => in_item(alloc, "S7 BadRange", item),
        Refusal::TooMany {
            counted,
            count,
            item,
        } => format!(in alloc; "S8 TooMany {counted} {count} in item {item}"),
        Refusal::NotAffine { item } => in_item(alloc, "S9 NotAffine", item),
        Refusal::CoefficientTooLarge { item } => in_item(alloc, "S10 CoefficientTooLarge", item),
        Refusal::IntervalTooWide { item } => in_item(alloc, "S11 IntervalTooWide", item),
        Refusal::ExtentNotPositive { item } => in_item(alloc, "S12 ExtentNotPositive", item),
        Refusal::WrongDimensions { item } => in_item(alloc, "S13 WrongDimensions", item),
        Refusal::WriteToConst { item } => in_item(alloc, "S14 WriteToConst", item),
        Refusal::BadIndexArray { item } => in_item(alloc, "S15 BadIndexArray", item),
        Refusal::BadLiteral { item } => in_item(alloc, "S16 BadLiteral", item),
        Refusal::IrregularWrite { item } => in_item(alloc, "S17 IrregularWrite", item),
        Refusal::WrongKind { item } => in_item(alloc, "S18 WrongKind", item),
        Refusal::OutOfMemory => String::from_str(alloc, "out of memory"),
    }
}
