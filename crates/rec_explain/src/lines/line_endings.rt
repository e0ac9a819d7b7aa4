//! Lines that end in CR LF.
ghost use Rattle.std.specs.Prelude.{All};
ghost use Rattle.rec_explain.specs.Lines.{AreLines, IsShown};

use crate::explanation::Explanation;
use memchr::memmem;
use rec_text::line_after;
use std::alloc::Global;

/// What a file is called. Standard input has the empty path.
pub(crate) fn called(file: &str) -> &str {
    if file.is_empty() {
        "standard input"
    } else {
        file
    }
}

/// Says of the first line of a text that ends in CR LF what follows from that, if there is one. Standard input has the empty
/// path.
pub fn explain_endings(alloc: Global, file: &str, text: &[u8]) -> Vec<u8>
    ensures shown { All IsShown result.items }
    ensures whole { AreLines result.items }
{
    let mut said = Explanation::new(alloc);
    if let Some(at) = first_ending(text) {
        let ending =
            "this line ends in CR LF; those of a rec file end in LF alone: the CR belongs to the value, and an empty line that ends so is none";
        said.add_at(called(file), at, &[ending]);
    }
    said.into_lines()
}

/// The number of the first line that ends in CR LF, counted from 1.
fn first_ending(text: &[u8]) -> Option<usize> {
    let at = memmem::find(text, b"\r\n")?;
    Some(line_after(text.get(..at)?))
}
