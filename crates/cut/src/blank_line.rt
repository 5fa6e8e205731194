// The search for a blank line inside a cell.
ghost use Rattle.std.specs.Prelude.{◌≡◌};
ghost use Rattle.sheet.specs.View.{view};
ghost use Rattle.cut.specs.BlankLine.{two_newlines};

use sheet::{Piece, Sheet};

/// Whether two adjacent pieces are Newlines, anywhere.
pub fn has_blank_line(sheet: &Sheet<'_>, pieces: &[Piece]) -> bool
    ensures { result ≡ two_newlines (view sheet.now) pieces.now }
{
    if pieces.len() < 2 {
        return false;
    }
    // A search with a labelled `continue`, and no iterator chain: the project asks for this form here.
    'pairs: for i in 0..pieces.len() - 1 {
        for k in 0..2 {
            if !sheet.is_newline(pieces[i + k]) {
                continue 'pairs;
            }
        }
        return true;
    }
    false
}
