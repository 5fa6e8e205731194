// The cutter interface.
ghost use Rattle.std.specs.Prelude.{List};
ghost use Rattle.std.specs.List.{AllByRecursion};
ghost use Rattle.sheet.specs.View.{SheetView, view};
ghost use Rattle.sheet.specs.declared.records.Position.{Position as Spot};
ghost use Rattle.cut.specs.Raw.{RawCell};
ghost use Rattle.cut.specs.Answer.{CutAnswer, FirstIs, Fits};

use crate::types::{Cut, CutRefusal, Note};
use sheet::{Piece, Position, Sheet};
use store::Store;

/// What cuts a sheet into raw cells.
///
/// `cells` says what a page is: for what a sheet holds and a position, the raw cells from there on, a finite list.
/// Each piece of a cell lies inside a token of the sheet, its spans are at least 1, and its first token is that of the
/// position, or the token count where nothing is left.
pub trait Cutter {
    ghost cells: { Self → SheetView → Spot → List RawCell };

    /// The first cell from a position on, and where the rest begins; `None` exactly where there is none, each time
    /// alike. Its pieces are appended to `pieces`; refused 33 exactly where they do not fit, with nothing in use
    /// changed. Its notes are appended to `notes` as far as they fit; the cut tells how many there are and the first.
    fn cut(
        &self,
        sheet: &Sheet<'_>,
        at: Position,
        pieces: &mut Store<'_, Piece>,
        notes: &mut Store<'_, Note>,
    ) -> Result<Option<Cut>, CutRefusal>
        ensures { CutAnswer (cells self.now (view sheet.now)) (cells self.now (view sheet.now) at) pieces.old pieces.new notes.old notes.new result };

    ghost fits: { (k : Self) (v : SheetView) (p : Spot) → AllByRecursion (Fits v) (cells k v p) };

    ghost first: { (k : Self) (v : SheetView) (p : Spot) → FirstIs v p (cells k v p) };
}
