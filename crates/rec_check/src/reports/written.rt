//! Types as a descriptor writes them.
use crate::field_types::field_type::FieldType;
use rec_text::Bytes;
use std::alloc::{AllocError, Global};

/// A type as a descriptor writes it.
pub(crate) fn written(alloc: Global, value_type: &FieldType) -> Result<Bytes, AllocError> {
    match value_type {
        FieldType::Integer => Bytes::copy_of(alloc, b"int"),
        FieldType::Range(least, greatest) => written_range(alloc, *least, *greatest),
        FieldType::Line => Bytes::copy_of(alloc, b"line"),
        FieldType::Size(most) => bytes_of(format!(in alloc; "size {most}")),
        FieldType::Truth => Bytes::copy_of(alloc, b"bool"),
        FieldType::OneOf(words) => written_enum(alloc, words),
        FieldType::Matching(pattern) => {
            let pattern = pattern.as_str();
            bytes_of(format!(in alloc; "regexp /{pattern}/"))
        }
        FieldType::Unchecked => Ok(Bytes::from_vec(Vec::new(alloc))),
    }
}

fn bytes_of(line: Result<String, AllocError>) -> Result<Bytes, AllocError> {
    Ok(Bytes::from_vec(line?.into_bytes()))
}

fn written_range(alloc: Global, least: i64, greatest: i64) -> Result<Bytes, AllocError> {
    bytes_of(match (least, greatest) {
        (i64::MIN, i64::MAX) => format!(in alloc; "range MIN MAX"),
        (i64::MIN, _) => format!(in alloc; "range MIN {greatest}"),
        (_, i64::MAX) => format!(in alloc; "range {least} MAX"),
        _ => format!(in alloc; "range {least} {greatest}"),
    })
}

fn written_enum(alloc: Global, words: &[Bytes]) -> Result<Bytes, AllocError> {
    let mut line = Vec::from_slice(alloc, b"enum")?;
    for word in words {
        line.push(b' ')?;
        line.extend_from_slice(word.as_slice())?;
    }
    Ok(Bytes::from_vec(line))
}
