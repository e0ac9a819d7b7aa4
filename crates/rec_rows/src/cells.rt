//! The notation of cells, which `tests/README.md` describes.
use rec_text::{Bytes, Fault};
use std::alloc::{AllocError, Global};

fn digit(byte: u8) -> Option<u8> {
    match char::from(byte).to_digit(16) {
        Some(value) => u8::try_from(value).ok(),
        None => None,
    }
}

/// The byte of two hexadecimal digits at the start, and what follows them.
fn byte_of(text: &[u8]) -> Option<(u8, &[u8])> {
    let [first, second, rest @ ..] = text else {
        return None;
    };
    let high = digit(*first)?;
    let low = digit(*second)?;
    Some(((high << 4) | low, rest))
}

/// Adds the bytes that a part without a newline stands for.
fn put_part(bytes: &mut Vec<u8>, part: &str) -> Result<(), AllocError> {
    for (place, piece) in part.split("\\x").enumerate() {
        let piece = piece.as_bytes();
        if place == 0 {
            bytes.extend_from_slice(piece)?;
        } else if let Some((byte, rest)) = byte_of(piece) {
            bytes.push(byte)?;
            bytes.extend_from_slice(rest)?;
        } else {
            bytes.extend_from_slice(b"\\x")?;
            bytes.extend_from_slice(piece)?;
        }
    }
    Ok(())
}

fn put_cell(bytes: &mut Vec<u8>, cell: &str) -> Result<(), AllocError> {
    if cell == "''" {
        return Ok(());
    }
    for (place, part) in cell.split('¶').enumerate() {
        if place > 0 {
            bytes.push(b'\n')?;
        }
        put_part(bytes, part)?;
    }
    Ok(())
}

/// The bytes that a cell stands for.
pub fn bytes_in(alloc: Global, cell: &str) -> Result<Bytes, AllocError> {
    let mut bytes = Vec::new(alloc);
    put_cell(&mut bytes, cell)?;
    Ok(Bytes::from_vec(bytes))
}

/// The number that a cell is.
pub fn number_in(cell: &str) -> Result<u64, Fault> {
    match cell.parse::<u64>() {
        Ok(number) => Ok(number),
        Err(_) => Err(Fault::BadUsage),
    }
}

/// Adds bytes to a line that is printed, in the notation of cells.
pub fn spell(line: &mut String, bytes: &[u8]) -> Result<(), AllocError> {
    for byte in bytes {
        match *byte {
            b'\n' => line.push('¶')?,
            b' '..=b'~' => line.push(char::from(*byte))?,
            byte => write!(line, "\\x{byte:02X}")?,
        }
    }
    Ok(())
}
