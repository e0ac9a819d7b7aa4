//! Types of fields: how they are written, and which values fit them.
pub mod definition;
mod enumeration;
pub mod field_type;
pub mod kind;
mod known_kind;
mod lazy_test;
mod optional_test;
mod regexp;
pub mod resolution;
mod test;
pub mod types;
