// A page of cells.
use crate::order::Format;
use std::alloc::{AllocError, Global};

/// A page of so many cells of the letter `a`, ten a line.
pub fn text(heap: Global, format: Format, cells: usize) -> Result<Vec<u8>, AllocError> {
    let mut text = Vec::new(heap);
    // A range, since no list is gone through: the number says where a line ends.
    for cell in 0..cells {
        let last = cell % 10 == 9 || cell + 1 == cells;
        match (format, last) {
            (Format::Prefix, false) => text.extend_from_slice(b"|a ")?,
            (Format::Prefix, true) => text.extend_from_slice(b"|a\n")?,
            (Format::Csv, false) => text.extend_from_slice(b"a,")?,
            (Format::Dsv, false) => text.extend_from_slice(b"a:")?,
            (_, true) => text.extend_from_slice(b"a\n")?,
        }
    }
    Ok(text)
}
