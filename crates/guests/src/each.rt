// A cutter for which every token is a cell.
ghost use Rattle.guests.specs.Each.{each_cells};
ghost use Rattle.sheet.specs.Left.{left};
ghost use Rattle.cut.specs.InsidesLemmas.{left_all};
ghost use Rattle.guests.specs.EachTokenCutterLemmas.{each_fits, each_first};
ghost use Rattle.std.specs.Prelude.{refl};

use cut::{Cut, CutRefusal, Cutter, Note};
use sheet::{Kind, Piece, Place, Position, Sheet};
use starts::Specifier;
use store::Store;

/// Cuts a page into its tokens: each is a cell, and a Newline is one that meets a line end.
#[derive(Clone, Copy, Debug, Default, PartialEq, Eq, Hash)]
pub struct EachToken;

impl Cutter for EachToken {
    ghost cells = { λ _. each_cells };

    ghost fits = { λ k v p. each_fits v (left v p.token p.offset) (left_all v p.token p.offset) };

    ghost first = { λ k v p. each_first v p (left v p.token p.offset) refl };

    fn cut(
        &self,
        sheet: &Sheet<'_>,
        at: Position,
        pieces: &mut Store<'_, Piece>,
        _notes: &mut Store<'_, Note>,
    ) -> Result<Option<Cut>, CutRefusal> {
        // No `?`: where nothing is left, the answer is `Ok(None)`.
        let Some(seen) = sheet.see(Place::from(at)) else {
            return Ok(None);
        };
        pieces.push(seen.piece()).map_err(|_| CutRefusal::NoRoom)?;
        Ok(Some(Cut {
            first: seen.place.token,
            specifier: Specifier::NOTHING,
            line_end: seen.kind == Kind::Newline,
            blank_after: false,
            blank_inside: false,
            notes: 0,
            first_note: None,
            rest: seen.behind().position(false),
        }))
    }
}
