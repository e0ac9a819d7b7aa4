//! Lines and places of texts, as far as they can be shown.
pub mod bad_lines;
pub mod line_endings;
pub mod shown;
