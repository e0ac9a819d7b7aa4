//! Edits of the records of a text: what each makes of it, and the patch that leads there.
//! `docs/editing.md` describes the rules of layout, and `specs/` defines them, from `Task` on.
#![tactic(auto)]

mod answer;
mod automatic;
mod batches;
mod changes;
mod chosen;
mod draft;
mod insertion;
mod laws;
mod laying;
mod outcome;
mod request;
mod sound;
mod wording;

pub use answer::{Edited, RefusedEdit};
pub use batches::{batch, edit, edited};
pub use laws::{edits_have_one_outcome, hunks_are_changes, unruled_edits_are_sound};
pub use rec_check::RecFile;
pub use rec_journal::{EditStep, EditSteps, Patch, Tool};
pub use rec_select::{By, Selection};
pub use rec_text::{Bytes, Fault};
pub use request::{Action, Edit, NewRecord, Pair};
pub use sound::require_rules;
