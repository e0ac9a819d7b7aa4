//! What edits changed: several patches as one, the text that shows a change, in whole lines, and one change taken back.
//! `specs/` defines them, from `Changes` on.
#![tactic(auto)]

mod comparing;
mod composing;
mod diffs;
mod head;
mod heading;
mod label;
mod laws;
mod lines;
mod lining;
mod marked;
mod passages;
mod passed;
mod printing;
mod reverting;
mod style;
mod turn;

pub use comparing::choosing::longest;
pub use comparing::landmarks::{Line, only_place};
pub use comparing::{hunks_between, step_by_lines};
pub use composing::{compose, compose_all};
pub use diffs::{one_diff, write_diff};
pub use laws::{
    changes_lead_by_lines, composes_itself, composes_splices, diffs_lead, hunks_lead_between,
    hunks_splice, longest_is_longest, one_change, one_composition, one_text_after,
};
pub use printing::write_change;
pub use rec_journal::{Hunk, Patch};
pub use rec_text::{Bytes, Fault, Sink};
pub use reverting::{fields_are_kept, newest_reverts, one_revert, revert, reverts_leave_the_rest};
pub use style::DiffStyle;
pub use turn::Place;
