// The cells of a case, cut one after another.
use crate::answer;
use crate::answer::{Refusal, Written};
use crate::case::{Case, Format};
use cut::csv::Csv;
use cut::dsv::Dsv;
use cut::prefix::Prefix;
use cut::{CutRefusal, Cutter, CutterRefusal, Note};
use sheet::{Piece, Position, Sheet, SheetRefusal};
use std::alloc::AllocError;
use std::io;
use store::Store;

/// Why no more of a case is cut.
#[derive(Drop)]
enum Stopped {
    Refused(Refusal),
    Output(io::Error),
}

// One `From` for each refusal: one for all of them would overlap with that for `io::Error`.
impl From<SheetRefusal> for Stopped {
    fn from(refusal: SheetRefusal) -> Stopped {
        Stopped::Refused(Refusal::Sheet(refusal))
    }
}

impl From<CutterRefusal> for Stopped {
    fn from(refusal: CutterRefusal) -> Stopped {
        Stopped::Refused(Refusal::Cutter(refusal))
    }
}

impl From<CutRefusal> for Stopped {
    fn from(refusal: CutRefusal) -> Stopped {
        Stopped::Refused(Refusal::Cut(refusal))
    }
}

impl From<io::Error> for Stopped {
    fn from(error: io::Error) -> Stopped {
        Stopped::Output(error)
    }
}

impl From<AllocError> for Stopped {
    fn from(error: AllocError) -> Stopped {
        Stopped::Output(io::Error::from(error))
    }
}

/// Prints what the page of a case is cut into, and what is refused or where the position stands behind the last cell.
pub fn replay<R: Print + AllocGlobal>(rt: &R, case: &Case) -> io::Result<()> {
    match replay_page(rt, case) {
        Ok(end) => println!(rt; "end {}", Written(end)),
        Err(Stopped::Refused(refusal)) => println!(rt; "{refusal}"),
        Err(Stopped::Output(error)) => Err(error),
    }
}

/// Cuts the page of a case as the case says.
// An arm for each format: each has a cutter of a type of its own. A `&dyn Cutter` to one of three that are made ahead of
// the `match` would be longer.
fn replay_page<R: Print + AllocGlobal>(rt: &R, case: &Case) -> Result<Position, Stopped> {
    let sheet = Sheet::new(
        case.page.as_slice(),
        case.replacement.as_slice(),
        case.tokens.as_slice(),
    )?;
    match case.format {
        Format::Prefix => replay_cells(rt, case, &sheet, &Prefix::new(case.separator)?),
        Format::Csv => replay_cells(rt, case, &sheet, &Csv::new(case.separator)?),
        Format::Dsv => replay_cells(rt, case, &sheet, &Dsv::new(case.separator)?),
    }
}

/// Cuts a sheet into lists as long as a case says, and prints the cells until there is none, or one is refused.
// A loop and no iterator: a cell lies in lists that the next cut writes.
fn replay_cells<R: Print + AllocGlobal, K: Cutter>(
    rt: &R,
    case: &Case,
    sheet: &Sheet<'_>,
    cutter: &K,
) -> Result<Position, Stopped> {
    let mut pieces = vec![in rt.alloc(); Piece::default(); case.pieces]?;
    let mut notes = vec![in rt.alloc(); Note::default(); case.notes]?;
    let mut pieces = Store::new(pieces.as_mut_slice());
    let mut notes = Store::new(notes.as_mut_slice());
    let mut pieces_before = 0;
    let mut notes_before = 0;
    let mut at = Position::START;
    'cells: while let Some(cut) = cutter.cut(sheet, at, &mut pieces, &mut notes)? {
        answer::print_cell(
            rt,
            cut,
            behind(pieces.entries(), pieces_before),
            behind(notes.entries(), notes_before),
        )?;
        pieces_before = pieces.len();
        notes_before = notes.len();
        at = cut.rest;
    }
    Ok(at)
}

/// The entries behind the first `count`.
fn behind<T>(entries: &[T], count: usize) -> &[T] {
    entries.get(count..).unwrap_or(&[])
}
