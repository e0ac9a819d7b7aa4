//! What is said of a refusal before its line: what it is about, and what can be done; of a report, in which records what it
//! reports stands; of a command that succeeded, what it did; and of several moves, how far they went. All of it is for people,
//! and `docs/refusals.md` and `docs/editing.md` say what they are told.
#![tactic(auto)]

mod about;
mod batches;
mod counters;
mod descriptors;
mod dropped;
mod edit_numbers;
mod explanation;
mod files;
mod forced;
mod lines;
mod moves;
mod notes;
mod obstacles;
mod refusal;
mod reports;
mod requests;
mod unchanged;
mod undone;
mod waiting;

pub use about::About;
pub use files::{explain_empty, explain_no_text};
pub use lines::line_endings::explain_endings;
pub use moves::explain_through;
pub use notes::explain_done;
pub use refusal::explain;
pub use reports::explain_report;
pub use waiting::explain_waiting;
