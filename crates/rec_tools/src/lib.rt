//! Requests on a file and its journal, run on any home of the two.
//! `docs/guarantees.md` says what is promised, and `specs/` states it, from `Home` to `Guarantee`.
#![tactic(auto)]

mod adopting;
mod bad_edits;
mod batches;
mod decision;
mod done;
mod dry;
mod editing;
mod history;
mod home;
mod laws;
mod memory;
mod missing;
mod obstacles;
mod preview;
mod printing;
mod request;
mod response;
mod reverting;
mod runner;
mod selecting;
mod showing;
mod telling;
mod through;
mod writing;

pub use batches::{batch_edit_at, batch_edits};
pub use done::{added_violations, leaves_comments_out};
pub use dry::preview_through;
pub use editing::make;
pub use home::{Home, Which};
pub use laws::{
    adopted_is_an_edit, first_stands, moves_bring_back, moves_lead_there, one_outcome, one_state,
    one_step, outcomes_are_steps, outside_is_noticed, preview_is_show_after, stops_are_steps,
};
pub use memory::MemoryHome;
pub use missing::{Missing, missing_fields};
pub use rec_check::RecFile;
pub use rec_diff::DiffStyle;
pub use rec_edit::{Action, Edited, NewRecord, Pair, RefusedEdit};
pub use rec_journal::{Direction, Tool};
pub use rec_select::InfoForm;
pub use rec_text::{Bytes, Fault, Output, Refusal, Rule, Sink, Violation, Violations};
pub use request::{Ask, Change, EditRequest, Form, Look, Pick, Reply, Request};
pub use response::{Response, Texts, without_texts};
pub use runner::{run, run_all};
pub use through::{Through, move_through, run_through};
