// Blanks: what is skipped before a cell.
ghost use Rattle.std.specs.Prelude.{◌≡◌, ◌||◌, ◌==◌};
ghost use Rattle.sheet.specs.Kinds.{newline, number_of, whitespace};
ghost use Rattle.sheet.specs.View.{view};
ghost use Rattle.sheet.specs.Left.{left_at};
ghost use Rattle.cut.specs.Blanks.{skip, skips_newline, newline_next, none};

use sheet::{Kind, Place, Sheet};

/// Whether a token of this kind is blank.
pub fn is_blank(kind: Kind) -> bool
    ensures { result ≡ (number_of kind == whitespace || number_of kind == newline) }
{
    matches!(kind, Kind::Whitespace | Kind::Newline)
}

/// A place behind what was skipped, and whether a Newline was.
#[derive(Clone, Copy, Debug, PartialEq, Eq, Hash)]
pub struct Skipped {
    pub place: Place,
    pub line: bool,
}

// A sheet and a place go side by side, and so do a sheet and what is seen on it: the place is another one at nearly
// every call, so that a struct of the two would be made for each.

/// Past what is skipped before a cell.
pub fn skip_blanks(sheet: &Sheet<'_>, from: Place, separated: bool) -> Skipped
    ensures left { left_at (view sheet.now) result.place ≡ skip separated (left_at (view sheet.now) from) }
    ensures line { result.line ≡ skips_newline separated (left_at (view sheet.now) from) }
{
    let mut place = from;
    let mut line = false;
    'blanks: while let Some(seen) = sheet.see(place) {
        match seen.kind {
            Kind::Newline if !separated => line = true,
            Kind::Whitespace => {}
            _ => break,
        }
        place = seen.behind();
    }
    Skipped { place, line }
}

/// Whether no token is left.
pub fn is_end(sheet: &Sheet<'_>, place: Place) -> bool
    ensures { result ≡ none (left_at (view sheet.now) place) }
{
    sheet.see(place).is_none()
}

/// Whether the very next token is a Newline.
pub fn newline_next(sheet: &Sheet<'_>, place: Place) -> bool
    ensures { result ≡ newline_next (left_at (view sheet.now) place) }
{
    sheet
        .see(place)
        .is_some_and(|seen| seen.kind == Kind::Newline)
}
