// A case, read from the fields of a line.
ghost use Rattle.std.specs.Prelude.{◌≤◌, IfOk};

use crate::numbers;
use crate::numbers::Fault;
use sheet::Token;
use std::alloc::Global;
use std::str::FromStr;

/// The most pieces that a case may ask room for.
const MOST_PIECES: u32 = 1_048_576;

/// The most notes that a case may ask room for.
const MOST_NOTES: u32 = 4_096;

/// How a page is cut.
// Not the format of `document`: a case is no document, and its format is read by `FromStr`, which has to stand here.
#[derive(Clone, Copy, Debug, PartialEq, Eq, Hash)]
pub enum Format {
    Prefix,
    Csv,
    Dsv,
}

impl Format {
    /// The separator where none is written.
    fn separator(self) -> u8 {
        match self {
            Format::Prefix => b'|',
            Format::Csv => b',',
            Format::Dsv => b':',
        }
    }
}

impl FromStr for Format {
    type Err = Fault;

    fn from_str(name: &str) -> Result<Format, Fault> {
        match name {
            "prefix" => Ok(Format::Prefix),
            "csv" => Ok(Format::Csv),
            "dsv" => Ok(Format::Dsv),
            _ => Err(Fault::Format),
        }
    }
}

/// A page with its tokens, how it is cut, and how long the two lent lists are.
#[derive(Drop)]
pub struct Case {
    pub page: Vec<u8>,
    pub replacement: Vec<u8>,
    pub tokens: Vec<Token>,
    pub format: Format,
    pub separator: u8,
    pub pieces: usize,
    pub notes: usize,
}

impl Case {
    /// The case that a line writes.
    pub fn read(heap: Global, line: &str) -> Result<Case, Fault> {
        let page = numbers::hex_bytes(heap, field(line, "page=").unwrap_or(""))?;
        let replacement = numbers::hex_bytes(heap, field(line, "repl=").unwrap_or(""))?;
        let tokens = numbers::tokens(heap, field(line, "tokens=").unwrap_or(""))?;
        let format: Format = field(line, "fmt=").unwrap_or("prefix").parse()?;
        let separator = match field(line, "sep=") {
            Some(text) => numbers::number(text).ok_or(Fault::Separator)?,
            None => format.separator(),
        };
        let places = count_places(tokens.as_slice());
        let pieces = read_room(field(line, "pieces="), places, MOST_PIECES, Fault::Pieces)?;
        let notes = read_room(
            field(line, "notes="),
            tokens.len(),
            MOST_NOTES,
            Fault::Notes,
        )?;
        Ok(Case {
            page,
            replacement,
            tokens,
            format,
            separator,
            pieces,
            notes,
        })
    }
}

/// The value of the first field with this key and its `=`, or `None` where there is no such field.
pub fn field<'a>(line: &'a str, key: &str) -> Option<&'a str> {
    line.split_ascii_whitespace()
        .find_map(|part| part.strip_prefix(key))
}

/// The bytes of all tokens together: no page has more pieces than that.
fn count_places(tokens: &[Token]) -> usize {
    tokens.iter().fold(0, |places: usize, token| {
        places.saturating_add(token.length as usize)
    })
}

/// The length of a lent list: as written, or where nothing is written `ample` and a little more.
fn read_room(value: Option<&str>, ample: usize, most: u32, fault: Fault) -> Result<usize, Fault>
    ensures { IfOk result (λ room. room ≤ most) }
{
    match value {
        Some(text) => Ok(numbers::number_up_to(text, most).ok_or(fault)? as usize),
        None => Ok(ample.saturating_add(2).min(most as usize)),
    }
}
