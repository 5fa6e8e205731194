// Cutting one field, in CSV and DSV alike.
ghost use Rattle.std.specs.Prelude.{◌≡◌, ◌≤◌, not, ◌&&◌, map, length};
ghost use Rattle.std.specs.Option.{option_to_list};
ghost use Rattle.sheet.specs.Left.{left_at};
ghost use Rattle.sheet.specs.Limits.{max_tokens};
ghost use Rattle.sheet.specs.View.{view};
ghost use Rattle.cut.specs.Blanks.{none};
ghost use Rattle.cut.specs.Cuts.{fields_fit, first_is};
ghost use Rattle.cut.specs.Fields.{fields, first_note, notes_of, open_note, ToldField};
ghost use Rattle.cut.specs.Fitting.{AddedAsFit};
ghost use Rattle.cut.specs.Readers.{reading};
ghost use Rattle.cut.specs.Scanned.{Scanned, note_at};

use crate::blanks::{is_end, newline_next, skip_blanks};
use crate::cutter::Cutter;
use crate::machine::{Close, Format, Opens};
use crate::notes::NoteKind;
use crate::reader::Reader;
use crate::scan::Found;
use crate::types::{Cut, CutRefusal, Note};
use sheet::{Piece, Place, Position, Sheet};
use starts::Specifier;
use store::Store;

/// Whether no field follows.
fn no_field(sheet: &Sheet<'_>, place: Place, separated: bool) -> bool
    ensures { result ≡ (none (left_at (view sheet.now) place) && not separated) }
{
    is_end(sheet, place) && !separated
}

/// The note of a field that is open at the end.
fn open_note(quote: Option<u32>, unclosed: bool) -> Option<Note>
    ensures { result ≡ open_note quote unclosed }
{
    match quote {
        Some(token) if unclosed => Some(NoteKind::OpenQuote.at(token)),
        _ => None,
    }
}

/// The first note of a field: that of the first quote dropped outside, else another.
fn first_note(noted: Option<u32>, other: Option<Note>) -> Option<Note>
    ensures { result ≡ first_note noted other }
{
    noted.map(|token| NoteKind::StrayQuote.at(token)).or(other)
}

/// Writes a note, if there is one and it fits.
pub fn add_note(note: Option<Note>, notes: &mut Store<'_, Note>)
    ensures { AddedAsFit notes.old notes.new (option_to_list note) }
{
    if let Some(note) = note {
        notes.push(note).ok();
    }
}

/// Writes the notes of the quotes that are dropped outside quotes, as many as fit.
fn write_strays<F: Format>(reader: Reader<'_, '_, F>, found: Found, notes: &mut Store<'_, Note>)
    requires { found.notes ≡ length (reading F.Format.role reader).notes }
    ensures { AddedAsFit notes.old notes.new (map (note_at 3) (reading F.Format.role reader.entry).notes) }
{
    if found.notes > 0 {
        reader.fill_notes(NoteKind::StrayQuote, notes);
    }
}

/// Writes the notes of a field, as many as fit.
fn write_notes<F: Format>(
    reader: Reader<'_, '_, F>,
    quote: Option<u32>,
    found: Found,
    notes: &mut Store<'_, Note>,
)
    requires { Scanned (view reader.sheet.now) found (reading F.Format.role reader) }
    ensures { AddedAsFit notes.old notes.new (notes_of quote (reading F.Format.role reader.entry)) }
{
    write_strays(reader, found, notes);
    add_note(open_note(quote, found.unclosed), notes);
}

/// What is told of a field.
fn told_field(
    sheet: &Sheet<'_>,
    first: usize,
    skipped: bool,
    quote: Option<u32>,
    found: Found,
) -> Cut
    requires { found.notes ≤ max_tokens }
    ensures { ToldField (view sheet.now) first skipped quote found result }
{
    let line = found.close == Close::Line;
    let other = open_note(quote, found.unclosed);
    Cut {
        first,
        specifier: Specifier::NOTHING,
        line_end: skipped || found.line || line,
        blank_after: line && newline_next(sheet, found.rest),
        blank_inside: false,
        notes: found.notes + usize::from(other.is_some()),
        first_note: first_note(found.noted, other),
        rest: found.rest.position(found.close == Close::Mark),
    }
}

/// Each format of fields is a cutter.
impl<F: Opens> Cutter for F {
    ghost cells = { λ k. fields (F.Format.role k) (F.Opens.begin k) };

    ghost fits = { λ k v p. fields_fit (F.Format.role k) (F.Opens.moves k) (F.Opens.begin k) (F.Opens.less k) v (F.Opens.inside k v) p };

    ghost first = { λ k v p. first_is (F.Format.role k) (F.Opens.moves k) (F.Opens.begin k) (F.Opens.less k) v p };

    fn cut(
        &self,
        sheet: &Sheet<'_>,
        at: Position,
        pieces: &mut Store<'_, Piece>,
        notes: &mut Store<'_, Note>,
    ) -> Result<Option<Cut>, CutRefusal> {
        let start = sheet.place_of(at);
        let skipped = skip_blanks(sheet, start, at.separated);
        if no_field(sheet, skipped.place, at.separated) {
            return Ok(None);
        }
        let opening = self.open_field(sheet, skipped.place);
        let reader = Reader::new(sheet, self, opening.state, opening.place);
        let found = reader.scan();
        reader.fill(found.finished, pieces)?;
        write_notes(reader, opening.quote, found, notes);
        Ok(Some(told_field(sheet, start.token, skipped.line, opening.quote, found)))
    }
}
