//! The name of a text, as a diff has it.
ghost use Rattle.std.specs.Prelude.{◌≡◌, ◌==◌, ◌++◌, not, OnOk};
ghost use Rattle.std.specs.List.{flat_map, list_any};
ghost use Rattle.rec_text.specs.Bytes.{begins};
ghost use Rattle.rec_diff.specs.Diff.{is_odd as odd, is_plain_byte as plain_byte, label, quoted_byte};

use std::alloc::AllocError;

fn is_plain_byte(byte: u8) -> bool
    ensures { result ≡ plain_byte byte }
{
    31 < byte && byte != b'"' && byte != b'\\' && byte != 127
}

fn begins_space(name: &[u8]) -> bool
    ensures { result ≡ begins (λ b. b == 32) name.now }
{
    match name.split_first() {
        Some((first, _)) => *first == b' ',
        None => false,
    }
}

fn has_odd_byte(name: &[u8]) -> bool
    ensures { result ≡ list_any (λ b. not (plain_byte b)) name.now }
{
    for byte in name {
        if !is_plain_byte(*byte) {
            return true;
        }
    }
    false
}

fn is_odd(name: &[u8]) -> bool
    ensures { result ≡ odd name.now }
{
    begins_space(name) || has_odd_byte(name)
}

fn put_quoted_byte(out: &mut Vec<u8>, byte: u8) -> Result<(), AllocError>
    ensures { OnOk result (out.new.items ≡ out.old.items ++ quoted_byte byte) }
{
    if is_plain_byte(byte) {
        return out.extend_from_slice(&[byte]);
    }
    if byte == b'"' || byte == b'\\' {
        return out.extend_from_slice(&[b'\\', byte]);
    }
    out.extend_from_slice(&[
        b'\\',
        b'0' + byte / 64,
        b'0' + byte / 8 % 8,
        b'0' + byte % 8,
    ])
}

fn put_quoted(out: &mut Vec<u8>, name: &[u8]) -> Result<(), AllocError>
    ensures { OnOk result (out.new.items ≡ out.old.items ++ flat_map quoted_byte name.now) }
{
    for byte in name {
        put_quoted_byte(out, *byte)?;
    }
    Ok(())
}

/// Appends a name as it is, or in quotes where it has odd bytes.
pub(crate) fn put_label(out: &mut Vec<u8>, name: &[u8]) -> Result<(), AllocError>
    ensures { OnOk result (out.new.items ≡ out.old.items ++ label name.now) }
{
    if is_odd(name) {
        out.extend_from_slice(b"\"")?;
        put_quoted(out, name)?;
        return out.extend_from_slice(b"\"");
    }
    out.extend_from_slice(name)?;
    if name.contains(&b' ') {
        return out.extend_from_slice(b"\t");
    }
    Ok(())
}
