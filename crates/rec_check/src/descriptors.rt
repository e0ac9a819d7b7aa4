//! Reads descriptors: their words, their types and their rules.
pub mod descriptor;
pub mod descriptor_fault;
pub mod draft;
mod field_place;
pub mod patterns;
pub mod special;
pub mod type_names;
mod typing;
pub mod words;
