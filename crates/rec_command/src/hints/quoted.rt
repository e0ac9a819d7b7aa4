//! Words as a shell reads them.
use std::fmt;

/// A word as a shell reads it.
#[derive(Clone, Copy)]
pub struct Quoted<'w> {
    word: &'w str,
    is_plain: bool,
}

impl<'w> Quoted<'w> {
    /// The word in quotes.
    pub fn whole(word: &'w str) -> Quoted<'w> {
        Quoted {
            word,
            is_plain: false,
        }
    }

    /// The word in quotes, where a shell would read it otherwise without.
    pub fn where_needed(word: &'w str) -> Quoted<'w> {
        let is_plain = !word.is_empty() && word.bytes().all(is_plain);
        Quoted { word, is_plain }
    }
}

impl fmt::Display for Quoted<'_> {
    fn fmt<W: fmt::Write>(&self, f: &mut fmt::Formatter<W>) -> fmt::Result {
        if self.is_plain {
            return f.write_str(self.word);
        }
        f.write_str("'")?;
        for letter in self.word.chars() {
            match letter {
                '\'' => f.write_str("'\\''")?,
                _ => write!(f, "{letter}")?,
            }
        }
        f.write_str("'")
    }
}

/// Whether a byte stands for itself in a shell, wherever it stands.
fn is_plain(byte: u8) -> bool {
    byte.is_ascii_alphanumeric()
        || matches!(byte, b'.' | b'_' | b'/' | b'-' | b'+' | b',' | b'@' | b'%')
}
