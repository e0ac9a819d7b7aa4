//! What each kind of edit makes of a record.
pub mod deletion;
pub mod replacement;
pub mod setting;
