//! The rules that fields of descriptors break.
pub mod constraints;
pub mod fields;
mod numbers;
pub mod rules;
