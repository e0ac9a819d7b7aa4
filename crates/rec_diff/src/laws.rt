//! Laws of the definitions.
ghost use Rattle.rec_diff.specs.Changes.{HunksSplice};
ghost use Rattle.rec_diff.specs.Composing.{OneComposition, ComposesSplices, ComposesItself};
ghost use Rattle.rec_diff.specs.Comparing.{HunksLeadBetween, LongestIsLongest};
ghost use Rattle.rec_diff.specs.WholeLines.{OneChange, ChangesLeadByLines};
ghost use Rattle.rec_diff.specs.Patched.{DiffsLead, OneTextAfter};

/// The hunks of parts lead from the text before to the text after.
pub fn hunks_splice()
    ensures { HunksSplice }
{}

/// Patches have one composition.
pub fn one_composition()
    ensures { OneComposition }
{}

/// Where steps lead from one text to another, so does their composition.
pub fn composes_splices()
    ensures { ComposesSplices }
{}

/// A patch alone is its composition.
pub fn composes_itself()
    ensures { ComposesItself }
{}

/// A patch makes one change of a text.
pub fn one_change()
    ensures { OneChange }
{}

/// A change leads from the text before to the text after by whole lines, and is as short as can be.
pub fn changes_lead_by_lines()
    ensures { ChangesLeadByLines }
{}

/// What is printed of a change makes the text after of the text before.
pub fn diffs_lead()
    ensures { DiffsLead }
{}

/// Changes of one text that print alike lead to one text.
pub fn one_text_after()
    ensures { OneTextAfter }
{}

/// The hunks between two texts are a patch that leads from the one to the other, by whole lines.
pub fn hunks_lead_between()
    ensures { HunksLeadBetween }
{}

/// The landmarks that are chosen are the longest list that has one order in both texts, and the earliest.
pub fn longest_is_longest()
    ensures { LongestIsLongest }
{}
