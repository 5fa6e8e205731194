// The notes that the cutters here give.
ghost use Rattle.std.specs.Prelude.{◌≡◌};

use crate::types::Note;
use std::error::Error;
use std::fmt;

/// What a note of the cutters here says. A `Note` has a number and no `NoteKind`, since other cutters give notes of
/// their own.
#[derive(Clone, Copy, Debug, PartialEq, Eq, Hash)]
pub enum NoteKind {
    /// 1: no cell starts where one was expected.
    NoStart,
    /// 3: a quote was dropped outside quotes.
    StrayQuote,
    /// 4: an opening quote whose field is open at the end.
    OpenQuote,
}

/// A number that none of these notes has.
// An error type of its own, as each enum has whose `TryFrom` takes a number: its text says what the number is not.
#[derive(Clone, Copy, Debug, PartialEq, Eq, Hash)]
pub struct UnknownNote(pub u8);

impl NoteKind {
    ghost use Rattle.cut.specs.Notes.{number_of};
    ghost use Rattle.cut.specs.Scanned.{note_at};

    /// The note's number: 1, 3 or 4.
    pub fn number(self) -> u8
        ensures { result ≡ number_of self }
    {
        match self {
            NoteKind::NoStart => 1,
            NoteKind::StrayQuote => 3,
            NoteKind::OpenQuote => 4,
        }
    }

    /// This note at a token.
    pub fn at(self, token: u32) -> Note
        ensures { result ≡ note_at (number_of self) token }
    {
        Note {
            number: self.number(),
            token,
        }
    }
}

// Each number by itself: no derive makes an enum of a number.
impl TryFrom<u8> for NoteKind {
    type Error = UnknownNote;

    ghost use Rattle.cut.specs.Notes.{Numbered};

    ghost try_from_gives = { Numbered };

    fn try_from(number: u8) -> Result<NoteKind, UnknownNote> {
        match number {
            1 => Ok(NoteKind::NoStart),
            3 => Ok(NoteKind::StrayQuote),
            4 => Ok(NoteKind::OpenQuote),
            _ => Err(UnknownNote(number)),
        }
    }
}

impl fmt::Display for NoteKind {
    fn fmt<W: fmt::Write>(&self, f: &mut fmt::Formatter<W>) -> fmt::Result {
        f.write_str(match self {
            NoteKind::NoStart => "no cell starts here; the text is a cell with nothing written",
            NoteKind::StrayQuote => "a double quote outside quotes, dropped",
            NoteKind::OpenQuote => "the field that this quote opens is never closed",
        })
    }
}

impl fmt::Display for UnknownNote {
    fn fmt<W: fmt::Write>(&self, f: &mut fmt::Formatter<W>) -> fmt::Result {
        write!(f, "no note of these cutters has the number {}", self.0)
    }
}

impl Error for UnknownNote {}
