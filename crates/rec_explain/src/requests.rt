//! What of a request a refusal is about: its texts, its names, and the types and records that it means.
pub mod names;
pub mod types;
pub mod words;
