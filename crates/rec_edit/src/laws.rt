//! Laws of the definitions, which no function computes.
ghost use Rattle.rec_edit.specs.Outcome.{HunksAreChanges, UnruledEditsAreSound};
ghost use Rattle.rec_edit.specs.Batch.{EditsHaveOneOutcome};

/// Edits have one outcome, whichever way the patterns of their texts were built.
pub fn edits_have_one_outcome()
    ensures { EditsHaveOneOutcome }
{}

/// An edit that puts no descriptor into a text without one breaks no rule, so what it makes needn't be read and checked.
pub fn unruled_edits_are_sound()
    ensures { UnruledEditsAreSound }
{}

/// The hunks of an edit are its changes, one for each run of changed parts of its script, and they bound the event that tells
/// them.
pub fn hunks_are_changes()
    ensures { HunksAreChanges }
{}
