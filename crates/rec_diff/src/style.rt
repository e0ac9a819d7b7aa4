//! How a diff is printed.
use rec_text::Bytes;

/// How a diff is printed: under which name, and how many lines that stay are shown before and after each change.
#[derive(Drop)]
pub struct DiffStyle {
    pub name: Bytes,
    pub context: usize,
}
