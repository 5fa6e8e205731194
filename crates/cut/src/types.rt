// The records of cutting: notes, what a cut tells, separators, refusals.
ghost use Rattle.std.specs.Prelude.{◌≡◌};

use sheet::{Kind, Position};
use starts::Specifier;
use std::error::Error;
use std::fmt;

/// Something that an editor should know, by its number, at a token. The token count stands for the page's end.
// `Default` for memory that is lent: no note of the cutters here has the number 0.
#[derive(Clone, Copy, Debug, Default, PartialEq, Eq, Hash)]
pub struct Note {
    /// a number, and no enum: another cutter gives notes of its own
    pub number: u8,
    pub token: u32,
}

/// A raw cell as a cut tells it; its pieces and notes lie in the lists lent to the cut.
#[derive(Clone, Copy, Debug, PartialEq, Eq, Hash)]
pub struct Cut {
    /// the token where the position stood; the token count at the end
    pub first: usize,
    pub specifier: Specifier,
    pub line_end: bool,
    pub blank_after: bool,
    pub blank_inside: bool,
    /// how many notes the cell has, whether or not they fitted
    pub notes: usize,
    /// the first of them
    pub first_note: Option<Note>,
    /// where the rest of the page begins
    pub rest: Position,
}

/// What separates the cells of CSV and DSV: the tokens of a kind, or a byte at the front of a token.
#[derive(Clone, Copy, Debug, PartialEq, Eq, Hash)]
pub enum Separator {
    Kind(Kind),
    Byte(u8),
}

/// Why a cell was not cut.
#[derive(Clone, Copy, Debug, PartialEq, Eq, Hash)]
pub enum CutRefusal {
    /// 33: its pieces do not fit behind those in use.
    NoRoom,
}

// Two refusals, each with a `number` of its own: one call gives the one, and another the other.

/// Why a cutter was not made.
#[derive(Clone, Copy, Debug, PartialEq, Eq, Hash)]
pub enum CutterRefusal {
    /// 2: the separator is no printable byte from `!` to `~`, or is `"` or `\`.
    BadSeparator,
}

impl CutRefusal {
    ghost use Rattle.cut.specs.Answer.{cut_told};

    /// The refusal's number: 33.
    pub fn number(self) -> u8
        ensures { result ≡ (cut_told self).number }
    {
        match self {
            CutRefusal::NoRoom => 33,
        }
    }
}

impl fmt::Display for CutRefusal {
    fn fmt<W: fmt::Write>(&self, f: &mut fmt::Formatter<W>) -> fmt::Result {
        match self {
            CutRefusal::NoRoom => f.write_str("the pieces of the cell do not fit"),
        }
    }
}

impl Error for CutRefusal {}

impl CutterRefusal {
    ghost use Rattle.cut.specs.Answer.{cutter_told};

    /// The refusal's number: 2.
    pub fn number(self) -> u8
        ensures { result ≡ (cutter_told self).number }
    {
        match self {
            CutterRefusal::BadSeparator => 2,
        }
    }
}

impl fmt::Display for CutterRefusal {
    fn fmt<W: fmt::Write>(&self, f: &mut fmt::Formatter<W>) -> fmt::Result {
        match self {
            CutterRefusal::BadSeparator => {
                f.write_str("the separator is no printable byte from ! to ~, or it is \" or \\")
            }
        }
    }
}

impl Error for CutterRefusal {}
