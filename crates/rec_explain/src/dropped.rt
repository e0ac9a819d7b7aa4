//! Edits that can't be undone or redone any more, since another one was made.
use crate::about::About;
use crate::explanation::Explanation;
use crate::lines::shown::plain;
use itoa::Buffer;
use rec_tools::Reply;

/// Says how many edits can't be undone any more once this one is made, since the file was changed outside; and of a journal that
/// was named, that it may be another file's. The events are those of the journal with this edit.
pub fn say_what_is_dropped(
    about: &About<'_>,
    reply: Reply,
    events: &[u8],
    is_tried: bool,
    said: &mut Explanation,
) {
    let (Reply::Edited { dropped, .. } | Reply::Written { dropped, .. }) = reply else {
        return;
    };
    if dropped == 0 {
        return;
    }
    say_count(about.file, dropped, is_tried, said);
    let is_named = about.journal.strip_suffix(".journal") != Some(about.path);
    if is_named && begins_anew(events) {
        said.add(&[about.journal, ": it may be the journal of another file"]);
    }
}

fn say_count(file: &str, dropped: usize, is_tried: bool, said: &mut Explanation) {
    let mut digits = Buffer::new();
    said.add(&[
        plain(file.as_bytes()).unwrap_or("the file"),
        ": it was changed outside; ",
        digits.format(dropped),
        if dropped == 1 { " edit" } else { " edits" },
        if is_tried {
            " before that couldn't be undone any more"
        } else {
            " before that can't be undone any more"
        },
    ]);
}

/// Whether no event before the last one knows the text from which that one begins: its digest stands nowhere else.
fn begins_anew(events: &[u8]) -> bool {
    let mut last: &[u8] = &[];
    for line in events.split(|byte| *byte == b'\n') {
        if let Some(digest) = line.strip_prefix(b"Before: ") {
            last = digest;
        }
    }
    let mut count: usize = 0;
    for line in events.split(|byte| *byte == b'\n') {
        if line.strip_prefix(b"Before: ") == Some(last)
            || line.strip_prefix(b"After: ") == Some(last)
        {
            count = count.saturating_add(1);
        }
    }
    count == 1
}

/// Says how many edits that were undone can't be redone any more once this one is made, if there are such.
pub fn say_what_was_undone(reply: Reply, events: &[u8], is_tried: bool, said: &mut Explanation) {
    let (Reply::Edited { number, .. }
    | Reply::Reverted { number, .. }
    | Reply::Adopted(number)
    | Reply::Written { number, .. }) = reply
    else {
        return;
    };
    let count = dropped_by(number, events);
    if count == 0 {
        return;
    }
    let mut digits = Buffer::new();
    said.add(&[
        digits.format(count),
        if count == 1 {
            " edit that was undone"
        } else {
            " edits that were undone"
        },
        if is_tried {
            " couldn't be redone any more"
        } else {
            " can't be redone any more"
        },
    ]);
}

/// How many undone edits the edit of a number dropped, by the events of a journal. In these the lines of a text begin with `+`,
/// save its first, which stands after the name of a field.
fn dropped_by(number: usize, events: &[u8]) -> usize {
    let mut digits = Buffer::new();
    let meant = digits.format(number).as_bytes();
    let mut is_meant = false;
    let mut undone: usize = 0;
    for line in events.split(|byte| *byte == b'\n') {
        if let Some(number) = line.strip_prefix(b"Number: ") {
            is_meant = number == meant;
        } else if let Some(kind) = line.strip_prefix(b"Kind: ") {
            if is_meant {
                return undone;
            }
            undone = undone_after(undone, kind);
        }
    }
    0
}

/// How many edits are undone after an event of a kind, where this many were before it.
fn undone_after(undone: usize, kind: &[u8]) -> usize {
    if kind == b"undo".as_slice() {
        undone.saturating_add(1)
    } else if kind == b"redo".as_slice() {
        undone.saturating_sub(1)
    } else {
        0
    }
}
