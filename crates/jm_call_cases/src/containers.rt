//! The header and the rows of an image.

use crate::texts::{given, numbers_of, quoted};
use jm_form::{Row, read_header, read_row, write_row};
use std::alloc::{AllocError, Global};

/// The header in front of some bytes, and where the strings and the contents begin; or its fault.
pub fn told_header(alloc: Global, bytes: &[u8]) -> Result<String, AllocError> {
    match read_header(bytes) {
        Ok(header) => {
            let (strings, contents) = (header.strings_place(), header.contents_place());
            format!(in alloc; "{header:?}, strings from {strings}, contents from {contents}")
        }
        Err(fault) => format!(in alloc; "{fault:?}"),
    }
}

/// The row in front of some bytes, and its length.
pub fn told_row(alloc: Global, bytes: &[u8]) -> Result<String, AllocError> {
    let row = read_row(bytes);
    format!(in alloc; "{row:?}")
}

/// The row of seven numbers.
fn row_of(alloc: Global, words: &[u8]) -> Result<Option<Row>, AllocError> {
    let Some(numbers) = numbers_of(alloc, words)? else {
        return Ok(None);
    };
    let [module, parent, base, ext, offset, packed, size] = numbers.as_slice() else {
        return Ok(None);
    };
    Ok(Some(Row {
        module: *module,
        parent: *parent,
        base: *base,
        ext: *ext,
        offset: *offset,
        packed: *packed,
        size: *size,
    }))
}

/// The bytes of the row of seven numbers, and whether they are read as this row.
pub fn told_spelling(alloc: Global, words: &[u8]) -> Result<Option<String>, AllocError> {
    let Some(row) = row_of(alloc, words)? else {
        return Ok(None);
    };
    let text = given(write_row(alloc, &row))?;
    let comes_back = read_row(text.as_slice()) == Some((row, text.len()));
    let mut told = quoted(alloc, &[text.as_slice()])?;
    write!(told, ", read back {comes_back}")?;
    Ok(Some(told))
}
