//! What is found in texts that were made, where memory did not run out.

use c_parser::parse;
use c_tree::Refusal;
use sample_texts::texts::{Found, found_in, is_unit, kind_of, source};
use std::alloc::{AllocError, Global};

/// Whether the text has this unit.
pub fn is_made_unit(alloc: Global, made: Result<Vec<u8>, AllocError>, shown: &[u8]) -> bool {
    match made {
        Ok(text) => is_unit(alloc, text.as_slice(), shown),
        Err(_) => false,
    }
}

/// What is found in the text.
pub fn found_in_made(alloc: Global, made: Result<Vec<u8>, AllocError>) -> Found {
    match made {
        Ok(text) => found_in(alloc, text.as_slice()),
        Err(_) => Found::Nothing,
    }
}

/// What is found in a source with this body.
pub fn found_in_body(alloc: Global, body: &[u8]) -> Found {
    kind_of(&source(alloc, body))
}

/// What is found in a source with the body that was made.
pub fn found_in_made_body(alloc: Global, made: Result<Vec<u8>, AllocError>) -> Found {
    match made {
        Ok(body) => found_in_body(alloc, body.as_slice()),
        Err(_) => Found::Nothing,
    }
}

/// What the text is refused for.
pub fn refusal_of(alloc: Global, text: &[u8]) -> Option<Refusal> {
    parse(alloc, text).err()
}

/// What the text that was made is refused for.
pub fn refusal_of_made(alloc: Global, made: Result<Vec<u8>, AllocError>) -> Option<Refusal> {
    match made {
        Ok(text) => refusal_of(alloc, text.as_slice()),
        Err(_) => Some(Refusal::OutOfMemory),
    }
}
