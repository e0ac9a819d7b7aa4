//! Laws of the definitions, which no function computes.
ghost use Rattle.rec_select.specs.Selection.{OneSelection};

/// A selection has one answer.
pub fn one_selection()
    ensures { OneSelection }
{}
