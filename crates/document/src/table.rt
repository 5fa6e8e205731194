// The records of a document's tables, and how a table's format and separator are chosen.
ghost use Rattle.std.specs.Prelude.{◌≡◌};
ghost use Rattle.document.specs.Tables.{format_of, separator_for, is_blank_line, begins_blank, first_one_line};

use crate::attributes::{FormatName, Options};
use crate::bytes::{find, trim_end};
use crate::columns::Columns;

/// How the cells of a table are written.
#[derive(Clone, Copy, Debug, PartialEq, Eq, Hash)]
pub enum Format {
    /// a separator in front of each cell
    Prefix,
    /// a separator between cells, with quotes
    Csv,
    /// a separator between cells, with a backslash before one that is none
    Dsv,
}

/// A table block. Lines are numbered from 1 on, and offsets count the bytes of the text before them.
#[derive(Clone, Copy, Debug)]
pub struct Table {
    /// the line that opens the block
    pub open_line: usize,
    /// the line that closes it
    pub close_line: usize,
    /// the first line of the content: the one below the opening line
    pub content_line: usize,
    /// where the content begins
    pub start: usize,
    /// where the content ends, which is where the closing line begins
    pub end: usize,
    /// the first byte of the delimiter lines: `|` `,` `:` or `!`
    // A byte and not an enum: it is the separator too where no attribute gives one.
    pub mark: u8,
    pub format: Format,
    pub separator: u8,
    pub columns: Columns,
    pub options: Options,
    /// whether the first paragraph of the content is one line: the lines before the first blank one, blank lines in
    /// front left out, are exactly one
    pub first_one_line: bool,
    /// whether the content begins with a blank line
    pub blank_front: bool,
}

/// What is found in a document.
#[derive(Debug, Drop)]
pub struct Outline {
    /// the tables, in the order of the text
    pub tables: Vec<Table>,
    /// the number of the line of a table block that is never closed, which ends the search
    pub unclosed: Option<usize>,
}

/// The format: by the attribute, else by the mark.
pub fn format_of(name: Option<FormatName>, mark: u8) -> Format
    ensures { result ≡ format_of name mark }
{
    match name {
        Some(FormatName::Psv) => Format::Prefix,
        Some(FormatName::Csv | FormatName::Tsv) => Format::Csv,
        Some(FormatName::Dsv) => Format::Dsv,
        None => match mark {
            b',' => Format::Csv,
            b':' => Format::Dsv,
            _ => Format::Prefix,
        },
    }
}

/// The separator: by the attribute, else by the attribute of the format, else the mark.
pub fn separator_for(separator: Option<u8>, name: Option<FormatName>, mark: u8) -> u8
    ensures { result ≡ separator_for separator name mark }
{
    separator.unwrap_or(match name {
        Some(FormatName::Psv) => b'|',
        Some(FormatName::Csv) => b',',
        Some(FormatName::Tsv) => b'\t',
        Some(FormatName::Dsv) => b':',
        None => mark,
    })
}

/// Whether a line has nothing but blanks.
fn is_blank_line(line: &[u8]) -> bool
    ensures { result ≡ is_blank_line line.now }
{
    trim_end(line).is_empty()
}

/// Whether a text begins with a blank line, or has none.
pub fn begins_blank(text: &[u8]) -> bool
    ensures { result ≡ begins_blank text.now }
{
    is_blank_line(&text[..find(text, b'\n')])
}

/// Whether the first paragraph of a text is one line: the lines before the first blank one, blank lines in front left
/// out, are exactly one.
pub fn first_one_line(text: &[u8]) -> bool
    ensures { result ≡ first_one_line text.now }
{
    let mut blanks = text
        .split(|byte| *byte == b'\n')
        .map(|line| is_blank_line(line))
        .skip_while(|blank| *blank);
    blanks.next().is_some() && blanks.next().unwrap_or(true)
}
