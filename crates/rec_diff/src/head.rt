//! The first line of a hunk.
ghost use Rattle.std.specs.Prelude.{◌≡◌, ◌+◌, ◌++◌, ◌<◌, ◌^◌, OnOk};
ghost use Rattle.rec_diff.specs.Diff.{after_space, head as head_of, span};

use crate::lines::line_count;
use itoa::Buffer;
use std::alloc::AllocError;

/// Appends which lines a part of a text has, after some lines.
fn put_span(out: &mut Vec<u8>, passed: usize, part: &[u8]) -> Result<(), AllocError>
    requires { passed + 1 < 2 ^ 64 }
    ensures { OnOk result (out.new.items ≡ out.old.items ++ span passed part.now) }
{
    let first = if part.is_empty() { passed } else { passed + 1 };
    let mut buffer = Buffer::new();
    out.extend_from_slice(buffer.format(first).as_bytes())?;
    out.extend_from_slice(b",")?;
    out.extend_from_slice(buffer.format(line_count(part)).as_bytes())
}

/// Appends a field after a space, where there is one.
fn put_field(out: &mut Vec<u8>, field: &[u8]) -> Result<(), AllocError>
    ensures { OnOk result (out.new.items ≡ out.old.items ++ after_space field.now) }
{
    if field.is_empty() {
        return Ok(());
    }
    out.extend_from_slice(b" ")?;
    out.extend_from_slice(field)
}

/// Appends the first line of a hunk, after some lines of both texts, with a field as its heading.
pub(crate) fn put_head(
    out: &mut Vec<u8>,
    old_lines: usize,
    new_lines: usize,
    old: &[u8],
    new: &[u8],
    field: &[u8],
) -> Result<(), AllocError>
    requires old { old_lines + 1 < 2 ^ 64 }
    requires new { new_lines + 1 < 2 ^ 64 }
    ensures { OnOk result (out.new.items
        ≡ out.old.items ++ head_of old_lines new_lines old.now new.now (after_space field.now)) }
{
    out.extend_from_slice(b"@@ -")?;
    put_span(out, old_lines, old)?;
    out.extend_from_slice(b" +")?;
    put_span(out, new_lines, new)?;
    out.extend_from_slice(b" @@")?;
    put_field(out, field)?;
    out.extend_from_slice(b"\n")
}
