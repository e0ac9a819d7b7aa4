//! Where records break the rules of their set.
mod allowed;
mod checker;
mod constraints;
pub mod found;
mod key;
pub mod lines;
pub mod names;
mod names_seen;
mod occurrence_rule;
pub mod report;
mod singular;
mod unresolved;
