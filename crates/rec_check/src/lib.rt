//! The descriptors of a rec text, the record sets into which they cut it, and where it breaks their rules.
//! `docs/format.md` describes them, and `specs/` defines them.
#![tactic(auto)]

mod automatic;
mod checks;
mod descriptors;
mod field_types;
mod laws;
mod rec_file;
mod reports;
mod rules;
mod schema;
mod set;

pub use automatic::counter::Counter;
pub use descriptors::descriptor::type_named;
pub use laws::{new_descriptor, one_check, one_meaning, one_report, one_schema, same_descriptors};
pub use rec_file::RecFile;
pub use rec_text::{Bytes, Database, Element, Fault, Rule, Violation};
pub use reports::{Before, added_by, report_in, report_of};
pub use schema::Schema;
pub use set::Set_;
