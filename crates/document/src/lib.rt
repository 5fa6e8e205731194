// Finds the table blocks of an AsciiDoc document.
//
// A document is bytes, UTF-8 or not. `find_tables` goes through it line by line and tells of each table where its
// content stands, in what format it is written, and what its attributes say of columns, header and footer. Tables in
// listing, literal, comment and passthrough blocks are not tables. The cells, inline markup and the widths of columns
// are left to others. The search takes time in proportion to the text, refuses no text, and allocates the list of
// tables alone. `place_of` gives the line and the column of a byte, for messages.
//
// Where it differs from what AsciiDoc processors do: no block but those above is looked into, so a table inside an
// example or a sidebar is found as any other; a comment block between attributes and a table makes the attributes void;
// a separator of more than one byte is ignored, `\t` aside.
#![tactic(auto)]

mod attributes;
mod blocks;
mod bytes;
mod columns;
mod lines;
mod marks;
mod table;

pub use attributes::{Attributes, FormatName, Options};
pub use blocks::find_tables;
pub use columns::{Columns, MAX_STYLES};
pub use lines::{Place, place_of};
pub use styles::Style;
pub use table::{Format, Outline, Table};

#[cfg(test)]
mod tests;
