//! Patches that lead from one text to another and back, and the journal of the edits of a file.
//! `docs/journal.md` describes the journal, and `specs/` defines it, from `Direction` on.
#![tactic(auto)]

mod ending;
mod event;
mod forgetting;
mod hashed;
mod history;
mod laws;
mod patch;
mod plan;
mod texts;

pub use ending::{End, digest_of_end, find_end};
pub use event::event_laws::{events_are_bounded, one_spelling};
pub use event::{EditStep, Tool};
pub use forgetting::plan_forget;
pub use hashed::Hashed;
pub use history::History;
pub use history::history_laws::{
    edits_hang_together, numbers_grow, one_opening, outside_texts_drift,
};
pub use history::steps::{Step, Steps};
pub use laws::{
    drifted_have_ends, edits_lead_to_one_text, leads_to_one_text, moves_are_converse, one_end,
    one_list_of_texts,
};
pub use patch::edit_steps::EditSteps;
pub use patch::{Direction, Hunk, Patch};
pub use plan::{
    MovePlan, Plan, plan_adoption, plan_batch, plan_edit, plan_move, plan_redo, plan_steps,
    plan_undo,
};
pub use rec_text::{Bytes, Fault};
pub use texts::edit_walk::EditWalk;
pub use texts::pair::EditTexts;
pub use texts::standing::StandingEdit;
pub use texts::{edit_texts, standing_edit};
