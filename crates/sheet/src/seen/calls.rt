// Asking what is seen.
ghost use Rattle.std.specs.Prelude.{◌≡◌, ◌+◌};
ghost use Rattle.sheet.specs.Kinds.{number_of};
ghost use Rattle.sheet.specs.Left.{plain, seen_at, piece_of};
ghost use Rattle.sheet.specs.Places.{front_of};

use super::Seen;
use crate::kind::Kind;
use crate::records::{Piece, Place};

impl<'a> Seen<'a> {
    /// Whether it is an unreplaced token of a kind.
    pub fn is(&self, kind: Kind) -> bool
        ensures { result ≡ plain (number_of kind) (seen_at self.now) }
    {
        !self.replaced && self.kind == kind
    }

    /// The place behind it.
    pub fn behind(&self) -> Place
        ensures { result ≡ front_of (self.now.place.token + 1) }
    {
        Place::front(self.place.token + 1)
    }

    /// All of it, as a piece.
    pub fn piece(&self) -> Piece
        ensures { result ≡ piece_of (seen_at self.now) }
    {
        Piece {
            token: self.place.token as u32,
            offset: self.place.offset as u32,
            length: self.bytes.len() as u32,
        }
    }
}
