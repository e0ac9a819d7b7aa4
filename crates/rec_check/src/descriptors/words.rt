//! Words of a value.
ghost use Rattle.std.specs.Prelude.{◌≡◌, ◌∷◌, [], IfOk, MatchOption};
ghost use Rattle.rec_check.specs.Words.{words, stripped, after_first_word};

use rec_text::Bytes;
use rec_text::Space::BlankOrNewline;
use std::alloc::{AllocError, Global};

/// A text without the blanks and newlines at its ends.
pub(crate) fn strip(text: &[u8]) -> &[u8]
    ensures { result.now ≡ stripped text.now }
{
    BlankOrNewline.trim(text)
}

/// The first word of a text, and what follows it.
pub(crate) fn split_word(text: &[u8]) -> Option<(&[u8], &[u8])>
    ensures { MatchOption result (words text.now ≡ []) (λ (word, following).
        (words text.now ≡ word.now ∷ words following.now) × (following.now ≡ after_first_word text.now)) }
{
    let found = BlankOrNewline.trim_start(text);
    if found.is_empty() {
        return None;
    }
    let len = found
        .iter()
        .position(|byte| BlankOrNewline.has(*byte))
        .unwrap_or(found.len());
    Some(found.split_at(len))
}

/// Copies of all words of a text.
pub(crate) fn words_of(alloc: Global, text: &[u8]) -> Result<Vec<Bytes>, AllocError>
    ensures { IfOk result (λ found. found.items ≡ words text.now) }
{
    let mut found = Vec::new(alloc);
    let mut rest = text;
    while let Some((word, following)) = split_word(rest) {
        found.push(Bytes::copy_of(alloc, word)?)?;
        rest = following;
    }
    Ok(found)
}
