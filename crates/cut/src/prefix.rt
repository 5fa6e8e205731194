// Prefix cells.
ghost use Rattle.std.specs.Prelude.{◌≡◌, ◌+◌, ◌<◌, ◌≤◌, true, false, not, ◌&&◌, ◌∷◌, length, drop, IfOk, IfErr, MatchResult};
ghost use Rattle.sheet.specs.Left.{left, left_at, seen_at};
ghost use Rattle.sheet.specs.Limits.{max_tokens};
ghost use Rattle.sheet.specs.View.{view};
ghost use Rattle.store.specs.Entries.{entries};
ghost use Rattle.cut.specs.BlankLine.{two_newlines};
ghost use Rattle.cut.specs.Answer.{cutter_told};
ghost use Rattle.cut.specs.Prefix.{starts, prefix_takes, prefix_role, prefix_cells, head_of_cell, HeadIs, ToldCell};
ghost use Rattle.cut.specs.Separators.{escapes, is_separator};
ghost use Rattle.cut.specs.Prefixes.{cells_fit, first_cell};

use crate::blank_line::has_blank_line;
use crate::blanks::skip_blanks;
use crate::cutter::Cutter;
use crate::fields::add_note;
use crate::machine::{Format, Role, State};
use crate::notes::NoteKind;
use crate::reader::Reader;
use crate::scan::Found;
use crate::types::{Cut, CutRefusal, CutterRefusal, Note, Separator};
use sheet::{Kind, Piece, Place, Position, Seen, Sheet};
use starts::{Specifier, read_start};
use store::Store;

/// The cutter of cells with a separator, and perhaps a specifier, in front of each.
#[derive(Clone, Copy, Debug, PartialEq, Eq, Hash)]
pub struct Prefix {
    byte: u8,
}

impl Prefix {
    /// A cutter with this separator; refused 2 unless it is a printable byte from `!` to `~` other than `"` and `\`.
    pub fn new(separator: u8) -> Result<Prefix, CutterRefusal>
        ensures allowed { MatchResult result (λ _. is_separator separator ≡ true) (λ _. is_separator separator ≡ false) }
        ensures separator { IfOk result (λ k. k.byte ≡ separator) }
        ensures refused { IfErr result (λ e. (cutter_told e).number ≡ 2) }
    {
        Separator::try_from(separator)?;
        Ok(Prefix { byte: separator })
    }
}

/// What stands in front of a cell: its specifier, where its text begins, and note 1 where no cell starts there.
#[derive(Clone, Copy, Debug, PartialEq, Eq, Hash)]
pub struct Reading {
    pub specifier: Specifier,
    pub place: Place,
    pub note: Option<Note>,
}

impl Prefix {
    // A sheet beside a place, and beside what is seen: blanks.rt says why no struct holds the two.

    /// Whether a cell starts at a place.
    fn is_start(&self, sheet: &Sheet<'_>, place: Place) -> bool
        ensures { result ≡ starts self.now.byte (left_at (view sheet.now) place) }
    {
        read_start(sheet, self.byte, place).is_some()
    }

    /// Whether what is seen is a Backslash before a start.
    fn is_escape(&self, sheet: &Sheet<'_>, seen: Seen<'_>) -> bool
        ensures { result ≡ (escapes (seen_at seen.entry) && starts self.now.byte (left (view sheet.now) (seen.entry.place.token + 1) 0)) }
    {
        seen.is(Kind::Backslash) && self.is_start(sheet, seen.behind())
    }

    /// A Word is split before the separator byte; any other token is taken.
    // Not the separator's `split_role`: that drops the byte and marks no Newline. Here the byte stays in front of the
    // next cell, and a Newline that is taken marks a line end.
    fn takes_role(&self, seen: Seen<'_>) -> Role
        ensures { result ≡ prefix_takes self.now.byte (seen_at seen.entry) }
    {
        match Separator::of(self.byte).split_at(seen) {
            Some(n) => Role::Splits(n, n),
            None => Role::Takes(State::Plain, seen.kind == Kind::Newline),
        }
    }

    /// Reads what stands in front of the cell that begins with what is seen.
    fn read_head(&self, sheet: &Sheet<'_>, seen: Seen<'_>) -> Reading
        ensures { HeadIs (view sheet.now) result (head_of_cell self.now.byte seen.entry.place.token (left_at (view sheet.now) seen.entry.place)) }
    {
        match read_start(sheet, self.byte, seen.place) {
            Some(start) => Reading {
                specifier: start.specifier,
                place: start.rest,
                note: None,
            },
            None => Reading {
                specifier: Specifier::NOTHING,
                place: seen.place,
                note: Some(NoteKind::NoStart.at(seen.place.token as u32)),
            },
        }
    }
}

impl Format for Prefix {
    ghost role = { λ k. prefix_role k.byte };

    fn role(&self, sheet: &Sheet<'_>, state: State, seen: Seen<'_>) -> Role {
        if state == State::Escaped {
            return Role::Takes(State::Plain, seen.kind == Kind::Newline);
        }
        if self.is_start(sheet, seen.place) {
            return Role::Starts;
        }
        if self.is_escape(sheet, seen) {
            return Role::Drops(State::Escaped);
        }
        self.takes_role(seen)
    }
}

/// Whether two adjacent pieces written behind the first `used` are Newlines, unless a blank line follows the cell.
fn is_blank_inside(sheet: &Sheet<'_>, pieces: &Store<'_, Piece>, used: usize, after: bool) -> bool
    requires { used ≤ length (entries pieces.now) }
    ensures { result ≡ (not after && two_newlines (view sheet.now) (drop used (entries pieces.now))) }
{
    let (_, new) = pieces.entries().split_at(used);
    !after && has_blank_line(sheet, new)
}

/// What is told of a cell.
fn told_cell(first: usize, head: Reading, found: Found, inside: bool) -> Cut
    ensures { ToldCell first head found inside result }
{
    Cut {
        first,
        specifier: head.specifier,
        line_end: found.line,
        blank_after: found.blank,
        blank_inside: inside,
        notes: usize::from(head.note.is_some()),
        first_note: head.note,
        rest: found.rest.position(false),
    }
}

impl Cutter for Prefix {
    ghost cells = { λ k. prefix_cells k.byte };

    ghost fits = { λ k v p. cells_fit k.byte v p };

    ghost first = { λ k v p. first_cell k.byte v p };

    fn cut(
        &self,
        sheet: &Sheet<'_>,
        at: Position,
        pieces: &mut Store<'_, Piece>,
        notes: &mut Store<'_, Note>,
    ) -> Result<Option<Cut>, CutRefusal> {
        // No `?`: where nothing is left, the answer is `Ok(None)`.
        let Some(seen) = sheet.see(Place::from(at)) else {
            return Ok(None);
        };
        let head = self.read_head(sheet, seen);
        let skipped = skip_blanks(sheet, head.place, true);
        let reader = Reader::new(sheet, self, State::Plain, skipped.place);
        let found = reader.scan();
        let used = pieces.len();
        reader.fill(found.finished, pieces)?;
        add_note(head.note, notes);
        let inside = is_blank_inside(sheet, pieces, used, found.blank);
        Ok(Some(told_cell(seen.place.token, head, found, inside)))
    }
}
