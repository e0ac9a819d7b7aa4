//! Laws of the definitions, which no function computes.
ghost use Rattle.rec_tools.specs.Outcomes.{OneOutcome};
ghost use Rattle.std.specs.Prelude.{[]};
ghost use Rattle.rec_journal.specs.History.{IsRegular};
ghost use Rattle.rec_tools.specs.Guarantee.{OutcomesAreSteps, StopsAreSteps, WritesAreRegular};
ghost use Rattle.rec_tools.specs.Laws.{OneStep, OneState, FirstStands, PreviewIsShowAfter, UndoBringsBack, RedoBringsBack, OutsideIsNoticed, AdoptedIsAnEdit, AnyTextWillDo, AdoptionIsShownAfter};
ghost use Rattle.rec_tools.specs.Through.{MovesLeadThere};

/// A request comes to one outcome on two contents at most.
pub fn one_outcome()
    ensures { OneOutcome }
{}

/// The machine's step is a function of the state and the request.
pub fn one_step()
    ensures { OneStep }
{}

/// Contents stand for one state at most.
pub fn one_state()
    ensures { OneState }
{}

/// A file and an empty journal stand for the machine's first state, and an empty journal is regular.
pub fn first_stands()
    ensures stands { FirstStands }
    ensures regular { IsRegular [] }
{}

/// Whatever a request comes to on contents that stand for a state, the machine steps so.
pub fn outcomes_are_steps()
    ensures { OutcomesAreSteps }
{}

/// A request whose write fails leaves the state as it was or the machine's next; a regular journal stays so, also where all
/// is written.
pub fn stops_are_steps()
    ensures stops { StopsAreSteps }
    ensures writes { WritesAreRegular }
{}

/// The preview of a request that makes an edit, or makes one again, prints what is shown of the newest edit afterwards.
pub fn preview_is_show_after()
    ensures { PreviewIsShowAfter }
{}

/// After an edit, or one that was made again, an undo brings the file back as it was; after an undo, a redo does.
pub fn moves_bring_back()
    ensures undo { UndoBringsBack }
    ensures redo { RedoBringsBack }
{}

/// A file that was changed outside is noticed: nothing is taken back or made again, and an edit begins the history anew.
pub fn outside_is_noticed()
    ensures { OutsideIsNoticed }
{}

/// A change by another program that is adopted stands as an edit, any text of the state before will do for it, and its preview is
/// what is shown of it.
pub fn adopted_is_an_edit()
    ensures edit { AdoptedIsAnEdit }
    ensures any_text { AnyTextWillDo }
    ensures shown { AdoptionIsShownAfter }
{}

/// Moves through an edit take back, or make again, each edit as far as that one and no further; where it doesn't lie that
/// way, none.
pub fn moves_lead_there()
    ensures { MovesLeadThere }
{}
