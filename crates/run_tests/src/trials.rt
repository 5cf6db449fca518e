//! Whether runs of texts end as is wanted. Each question frees the end of its run, so that a test holds none.

use crate::printed_runs::printed_ran;
use crate::struck::{printed_struck, source_struck};
use c_tree::{Ended, Refusal};
use sample_runs::ends::{End, is_end};
use sample_runs::runs::ran;
use std::alloc::Global;

fn is_wanted(ended: Option<Ended>, wanted: &End) -> bool {
    match ended {
        Some(ended) => is_end(&ended, wanted),
        None => false,
    }
}

/// Whether the run of a source on a data text ends so.
pub fn source_ends(alloc: Global, text: &[u8], data: &[u8], wanted: &End) -> Result<bool, Refusal> {
    Ok(is_wanted(ran(alloc, text, data)?, wanted))
}

/// Whether the run of a source under a flip ends so.
pub fn struck_source_ends(
    alloc: Global,
    texts: &[&[u8]; 3],
    wanted: &End,
) -> Result<bool, Refusal> {
    let [text, data, flip] = texts;
    Ok(is_wanted(source_struck(alloc, text, data, flip)?, wanted))
}

/// Whether the run of the preamble with this text behind it ends so.
pub fn printed_ends(
    alloc: Global,
    behind: &[u8],
    data: &[u8],
    wanted: &End,
) -> Result<bool, Refusal> {
    Ok(is_wanted(printed_ran(alloc, behind, data)?, wanted))
}

/// Whether the run of the preamble with this text behind it under a flip ends so.
pub fn struck_printed_ends(
    alloc: Global,
    texts: &[&[u8]; 3],
    wanted: &End,
) -> Result<bool, Refusal> {
    let [behind, data, flip] = texts;
    Ok(is_wanted(printed_struck(alloc, behind, data, flip)?, wanted))
}
