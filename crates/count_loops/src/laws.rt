//! A worked source.

ghost use Rattle.acceptance.specs.WorkedSources.{gather};
ghost use Rattle.count_loops.specs.Passes.{IsUninspected, IsWriteOf};

/// Of a source that reads one array through another, the index array has passes, and so has the
/// array that it writes, the write being its third site.
pub fn a_gather_has_passes()
    ensures index { IsUninspected gather 0 }
    ensures written { IsUninspected gather 2 }
    ensures write { IsWriteOf gather 2 2 }
{}
