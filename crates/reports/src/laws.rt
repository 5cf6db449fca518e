//! Worked examples.

ghost use Rattle.std.specs.Prelude.{◌≡◌, codes};
ghost use Rattle.acceptance.specs.WorkedSources.{gather, mix};
ghost use Rattle.reports.specs.Texts.{report_text};

/// The reports on two worked sources.
pub fn worked_reports()
    ensures mix { report_text mix ≡ codes "A counted reads 0 writes 1\nB counted reads 1 writes 0\nC difference reads 1 writes 1\n" }
    ensures gather { report_text gather ≡ codes "P difference reads 1 writes 0\nX inspected reads 1 writes 0\nY difference reads 0 writes 1\n" }
{}
