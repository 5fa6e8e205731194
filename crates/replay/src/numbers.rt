// Hex bytes, numbers and tokens as a case writes them, and what can be wrong with one.
ghost use Rattle.std.specs.Prelude.{◌<◌, ◌≤◌, IfSome};

use sheet::Token;
use std::alloc::{AllocError, Global};
use std::error::Error;
use std::fmt;
use std::str::FromStr;

/// What is wrong with a line.
#[derive(Clone, Copy, Debug, PartialEq, Eq, Hash)]
pub enum Fault {
    NotText,
    Hex,
    Token,
    Format,
    Separator,
    Pieces,
    Notes,
    Memory,
}

impl fmt::Display for Fault {
    fn fmt<W: fmt::Write>(&self, f: &mut fmt::Formatter<W>) -> fmt::Result {
        f.write_str(match self {
            Fault::NotText => "the line is not text",
            Fault::Hex => "page or repl is not hex bytes",
            Fault::Token => "a token is not four numbers",
            Fault::Format => "unknown format",
            Fault::Separator => "sep is not a byte",
            Fault::Pieces => "pieces is not a number up to 1048576",
            Fault::Notes => "notes is not a number up to 4096",
            Fault::Memory => "there is not enough memory",
        })
    }
}

impl Error for Fault {}

impl From<AllocError> for Fault {
    fn from(_error: AllocError) -> Fault {
        Fault::Memory
    }
}

/// The bytes that pairs of hexadecimal digits write.
pub fn hex_bytes(heap: Global, text: &str) -> Result<Vec<u8>, Fault> {
    let digits = text.as_bytes();
    if digits.len() % 2 != 0 {
        return Err(Fault::Hex);
    }
    digits
        .chunks_exact(2)
        .map(|pair| hex_byte(pair).ok_or(Fault::Hex))
        .try_collect(heap)
}

/// The byte that two hexadecimal digits write.
fn hex_byte(pair: &[u8]) -> Option<u8> {
    match pair {
        [high, low] => Some(hex_digit(*high)? * 16 + hex_digit(*low)?),
        _ => None,
    }
}

/// The value of a hexadecimal digit.
fn hex_digit(byte: u8) -> Option<u8>
    ensures { IfSome result (λ value. value < 16) }
{
    char::from(byte).to_digit(16).map(|value| value as u8)
}

/// The unsigned number that decimal digits write, with no sign.
pub fn number<N: FromStr>(text: &str) -> Option<N>
where
    N::Err: Drop,
{
    if text.starts_with('+') {
        return None;
    }
    text.parse().ok()
}

/// The number that decimal digits write, if it is no more than `most`.
pub fn number_up_to(text: &str, most: u32) -> Option<u32>
    ensures { IfSome result (λ value. value ≤ most) }
{
    number(text).filter(|value| *value <= most)
}

/// The tokens of a list with commas between; an empty text has none.
pub fn tokens(heap: Global, text: &str) -> Result<Vec<Token>, Fault> {
    if text.is_empty() {
        return Ok(Vec::new(heap));
    }
    text.split(',')
        .map(|part| token(part).ok_or(Fault::Token))
        .try_collect(heap)
}

/// The token that four numbers write: kind, flag, start and length, with dots between.
fn token(text: &str) -> Option<Token> {
    let (kind, rest) = text.split_once('.')?;
    let (flag, rest) = rest.split_once('.')?;
    let (start, length) = rest.split_once('.')?;
    Some(Token {
        kind: number(kind)?,
        replaced: number_up_to(flag, 1)? == 1,
        start: number(start)?,
        length: number(length)?,
    })
}
