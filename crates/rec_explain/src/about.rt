//! What a command was about.

/// The paths that a command was given.
#[derive(Clone, Copy)]
pub struct About<'a> {
    /// The path of a batch, or of a new text.
    pub text: Option<&'a str>,
    /// The path of a text before.
    pub old: Option<&'a str>,
    /// What the file is called, and its path, which is another one where it is called by a link.
    pub file: &'a str,
    pub path: &'a str,
    pub journal: &'a str,
    /// Whether the file was not found.
    pub is_missing: bool,
}
