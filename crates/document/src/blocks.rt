// The search for table blocks, line by line.
ghost use Rattle.std.specs.Prelude.{◌≡◌, ◌+◌, ◌<◌, ◌≤◌, length, IfOk};
ghost use Rattle.std.specs.List.{AllByRecursion};
ghost use Rattle.document.specs.Blocks.{table_of, Outlined, Framed};
ghost use Rattle.document.specs.Walks.{at_line, closing_at, Finds};

use crate::attributes::Attributes;
use crate::lines::{Line, Lines};
use crate::marks::{LineKind, kind_of};
use crate::table::{Outline, Table, begins_blank, first_one_line, format_of, separator_for};
use std::alloc::{AllocError, Global};

/// The first of the lines that are left that is the same as a block's opening line. It and those above it are passed
/// over; where there is none, all are.
fn find_closing<'a>(lines: &mut Lines<'a>, opening: &[u8]) -> Option<Line<'a>>
    ensures { Finds lines.old opening.now result lines.new }
{
    // Searched in lines of its own, since what is lent is written to memory at each line.
    let mut left = *lines;
    let found = left.find(|line| line.bytes == opening);
    *lines = left;
    found
}

/// The table between an opening line, with this first byte, and a closing line, under these attributes.
fn table_of(
    text: &[u8],
    attributes: Attributes,
    mark: u8,
    opening: Line<'_>,
    closing: Line<'_>,
) -> Table
    requires inside { opening.next ≤ closing.start }
    requires within { closing.start < length text.now }
    requires later { opening.before + 1 ≤ closing.before }
    ensures { result ≡ table_of text.now (at_line opening.entry attributes) mark opening.entry.next (closing_at closing.entry) }
{
    let (_, content) = text[..closing.start].split_at(opening.next);
    Table {
        open_line: opening.before + 1,
        close_line: closing.before + 1,
        content_line: opening.before + 2,
        start: opening.next,
        end: closing.start,
        mark,
        format: format_of(attributes.format, mark),
        separator: separator_for(attributes.separator, attributes.format, mark),
        columns: attributes.columns,
        options: attributes.options,
        first_one_line: first_one_line(content),
        blank_front: !content.is_empty() && begins_blank(content),
    }
}

/// Finds the tables of a document. Where a table block is never closed, the rest of the document belongs to it, and the
/// search ends there. It fails for want of memory alone.
pub fn find_tables(heap: Global, text: &[u8]) -> Result<Outline, AllocError>
    ensures framed { IfOk result (λ o. AllByRecursion (Framed text.now) o.tables.items) }
    ensures outlined { IfOk result (λ o. Outlined text.now o.tables.items o.unclosed) }
{
    let mut tables = Vec::new(heap);
    let mut attributes = Attributes::NONE;
    let mut lines = Lines::new(text);
    // A `while let` and not a `for`: behind a line that opens a block, the lines go on below the block.
    while let Some(line) = lines.next() {
        match kind_of(line.bytes) {
            LineKind::Table => {
                let Some(closing) = find_closing(&mut lines, line.bytes) else {
                    return Ok(Outline {
                        tables,
                        unclosed: Some(line.before + 1),
                    });
                };
                tables.push(table_of(text, attributes, line.bytes[0], line, closing))?;
                attributes = Attributes::NONE;
            }
            LineKind::Verbatim => {
                let _ = find_closing(&mut lines, line.bytes);
                attributes = Attributes::NONE;
            }
            LineKind::Attributes => attributes = attributes.with_line(line.bytes),
            LineKind::Aside => {}
            LineKind::Text => attributes = Attributes::NONE,
        }
    }
    Ok(Outline {
        tables,
        unclosed: None,
    })
}
