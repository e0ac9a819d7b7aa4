//! The choice of records, and what is printed of them and of their sets.
//! `docs/format.md` describes both, and `specs/` defines them.
#![tactic(auto)]

mod block;
mod chooser;
mod excerpt;
mod field_value;
mod filter;
mod info;
mod laws;
mod parts;
mod records;
mod report;
mod selection;
mod telling;

pub use chooser::choose;
pub use field_value::FieldValue;
pub use info::{InfoForm, write_info};
pub use laws::one_selection;
pub use parts::put_parts;
pub use rec_check::{RecFile, Schema, Set_};
pub use rec_sex::{Expr, FieldList, IndexList};
pub use rec_text::{Bytes, Fault, Sink};
pub use records::{Shape, write_records};
pub use report::write_report;
pub use selection::{By, Selection};
pub use telling::{fields_of, refused_text};
