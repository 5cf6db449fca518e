//! Which sources are small enough.

ghost use Rattle.c_tree.specs.Plain.{PlainUnit};
ghost use Rattle.acceptance.specs.Sources.{IsAcceptedSource};
ghost use Rattle.text_parts.specs.Small.{IsSmall};

/// Each accepted source has few assignments, few reads in each, and few statements around any.
pub fn accepted_sources_are_small()
    ensures { (u : PlainUnit) → IsAcceptedSource u → IsSmall u.body }
{}
