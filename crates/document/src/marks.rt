// What a line is to the search for tables. A line is given without its line feed and without the blanks at its end.
ghost use Rattle.std.specs.Prelude.{◌≡◌};
ghost use Rattle.document.specs.Marks.{is_table_line, is_verbatim_line, is_bracketed, is_attribute_line, begins_anchor, ends_anchor, is_title, is_comment, is_aside, kind_of};

use crate::bytes::all_of;

/// What a line is, where it stands outside of every block.
#[derive(Clone, Copy, Debug, PartialEq, Eq, Hash)]
pub enum LineKind {
    /// opens a table
    Table,
    /// opens a listing, a literal, a comment or a passthrough block
    Verbatim,
    /// attributes in brackets, for the next block
    Attributes,
    /// leaves the attributes above it in force: blank, a title, an anchor or a comment
    Aside,
    /// anything else
    Text,
}

/// Whether a line is a mark of tables, which is one of `|` `,` `:` `!`, and three or more `=`.
fn is_table_line(line: &[u8]) -> bool
    ensures { result ≡ is_table_line line.now }
{
    match line {
        [b'|' | b',' | b':' | b'!', rest @ ..] => rest.len() >= 3 && all_of(rest, b'='),
        _ => false,
    }
}

/// Whether a line is four or more of one mark of verbatim blocks, which is one of `-` `.` `/` `+`.
fn is_verbatim_line(line: &[u8]) -> bool
    ensures { result ≡ is_verbatim_line line.now }
{
    match line {
        [mark @ (b'-' | b'.' | b'/' | b'+'), rest @ ..] => rest.len() >= 3 && all_of(rest, *mark),
        _ => false,
    }
}

/// Whether a line is a `.` and then a byte that is neither a space, a tab nor a `.`.
fn is_title(line: &[u8]) -> bool
    ensures { result ≡ is_title line.now }
{
    matches!(line, [b'.', second, ..] if !matches!(*second, b' ' | b'\t' | b'.'))
}

/// Whether a line begins with `//` and not with `///`.
fn is_comment(line: &[u8]) -> bool
    ensures { result ≡ is_comment line.now }
{
    line.starts_with(b"//") && !line.starts_with(b"///")
}

/// Whether a line begins with `[[`.
fn begins_anchor(line: &[u8]) -> bool
    ensures { result ≡ begins_anchor line.now }
{
    line.starts_with(b"[[")
}

/// Whether a line ends with `]]`.
fn ends_anchor(line: &[u8]) -> bool
    ensures { result ≡ ends_anchor line.now }
{
    line.ends_with(b"]]")
}

/// Whether a line stands in brackets: it begins with `[` and ends with `]`.
fn is_bracketed(line: &[u8]) -> bool
    ensures { result ≡ is_bracketed line.now }
{
    matches!(line, [b'[', .., b']'])
}

/// Whether a line stands in brackets and does not begin with `[[`.
pub fn is_attribute_line(line: &[u8]) -> bool
    ensures { result ≡ is_attribute_line line.now }
{
    is_bracketed(line) && !begins_anchor(line)
}

/// Whether a line leaves the attributes above it in force: it is blank, a title, an anchor or a comment.
fn is_aside(line: &[u8]) -> bool
    ensures { result ≡ is_aside line.now }
{
    line.is_empty()
        || is_title(line)
        || is_comment(line)
        || begins_anchor(line) && ends_anchor(line)
}

/// What a line is.
pub fn kind_of(line: &[u8]) -> LineKind
    ensures { result ≡ kind_of line.now }
{
    if is_table_line(line) {
        LineKind::Table
    } else if is_verbatim_line(line) {
        LineKind::Verbatim
    } else if is_attribute_line(line) {
        LineKind::Attributes
    } else if is_aside(line) {
        LineKind::Aside
    } else {
        LineKind::Text
    }
}
