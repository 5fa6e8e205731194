// The plain records of a sheet: tokens, pieces of them, and positions among them.
ghost use Rattle.std.specs.Prelude.{◌≡◌};
ghost use Rattle.sheet.specs.Places.{front_of, place_in, position_at};

pub use crate::seen::Seen;

/// A part of a text, with the kind that a lexer gave it. The bytes of a replaced token stand in the replacement text,
/// those of any other in the page.
#[derive(Clone, Copy, Debug, PartialEq, Eq, Hash)]
pub struct Token {
    /// The number of a `Kind`, or one of 51 and above, which stand for none. It is no `Kind`, since a sheet is asked
    /// for with any number, and refuses those.
    pub kind: u8,
    pub replaced: bool,
    /// where its bytes begin in its text
    pub start: u32,
    /// how many bytes it has
    pub length: u32,
}

/// A part of one token: of the token with this number, so many bytes from an offset on.
#[derive(Clone, Copy, Debug, Default, PartialEq, Eq, Hash)]
pub struct Piece {
    pub token: u32,
    pub offset: u32,
    pub length: u32,
}

/// Where reading stands on a sheet: a token number, an offset into that token, and whether the last cell ended at
/// a separator. A position past the last token, or past the end of its token, is the sheet's end.
#[derive(Clone, Copy, Debug, PartialEq, Eq, Hash)]
pub struct Position {
    pub token: usize,
    pub offset: usize,
    pub separated: bool,
}

impl Position {
    /// The start of every sheet.
    pub const START: Position = Position {
        token: 0,
        offset: 0,
        separated: false,
    };
}

/// A token number and an offset into that token.
#[derive(Clone, Copy, Debug, PartialEq, Eq, Hash)]
pub struct Place {
    pub token: usize,
    pub offset: usize,
}

impl Place {
    /// The front of a token.
    pub fn front(token: usize) -> Place
        ensures { result ≡ front_of token }
    {
        Place { token, offset: 0 }
    }

    /// The position here, behind a separator or not.
    pub fn position(self, separated: bool) -> Position
        ensures { result ≡ position_at self separated }
    {
        Position {
            token: self.token,
            offset: self.offset,
            separated,
        }
    }
}

impl From<Position> for Place {
    ghost from_gives = { λ at place. place ≡ place_in at };

    fn from(at: Position) -> Place {
        Place {
            token: at.token,
            offset: at.offset,
        }
    }
}
