//! Which edit of a batch is refused.
mod bad_edits;

use crate::about::About;
use crate::batches::bad_edits::explain_bad_batch;
use crate::explanation::Explanation;
use crate::lines::shown::{show_line, without_cr};
use crate::refusal::{explain_edit, explain_reason};
use rec_text::{first_line, from_line};
use rec_tools::{Fault, Refusal, batch_edit_at};
use std::alloc::Global;

/// Shows the line of the batch at which it is refused, or else that at which the edit begins that is refused, and says what the
/// refusal is about.
pub fn explain_batch(
    alloc: Global,
    about: &About<'_>,
    batch: &[u8],
    refusal: &Refusal,
    said: &mut Explanation,
) {
    let path = about.text.unwrap_or("?");
    match (refusal.fault(), refusal.edit()) {
        (Fault::BadBatch { line }, _) => {
            explain_bad_batch(path, batch, *line, refusal.reason(), said);
        }
        (Fault::OutOfMemory, _) => {}
        (_, Some(index)) => {
            if let Some((line, edit)) = batch_edit_at(alloc, batch, index) {
                let shown = first_line(from_line(batch, line));
                show_line(path, line, without_cr(shown), said);
                explain_edit(alloc, about, &edit, refusal, said);
            }
        }
        _ => explain_reason(alloc, about, refusal, said),
    }
}
