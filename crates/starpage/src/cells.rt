// The cells of a table, in page order.
use crate::refusal::{Refusal, Unfinished};
use crate::words::{Counted, Said};
use cut::csv::Csv;
use cut::dsv::Dsv;
use cut::prefix::Prefix;
use cut::{Cut, Cutter, Note};
use document::{Format, Place, Table};
use sheet::{Piece, Position, Sheet, SheetRefusal, Token};
use std::{fmt, io};
use store::Store;

/// Where cells are printed from: the document, and the table in it.
#[derive(Clone, Copy)]
pub struct Page<'a> {
    pub text: &'a [u8],
    pub table: &'a Table,
}

impl<'a> Page<'a> {
    /// The content of the table, where it is a part of the document.
    pub fn content(self) -> Option<&'a [u8]> {
        self.text.get(self.table.start..self.table.end)
    }

    /// The place in the document of a byte of the content.
    fn place_of(self, offset: usize) -> Place {
        document::place_of(self.text, self.table.start.saturating_add(offset))
    }

    /// A refusal of the sheet, where the content, or the token that was refused, begins.
    pub fn refused(self, refusal: SheetRefusal, tokens: &[Token]) -> Unfinished {
        let offset = match refusal {
            SheetRefusal::UnsoundToken { token } => start_of(tokens, token).unwrap_or(0),
            _ => 0,
        };
        Unfinished::Refused(Refusal::Sheet(refusal, self.place_of(offset)))
    }
}

/// Where a token of a content begins in it, if there is such a token.
fn start_of(tokens: &[Token], number: usize) -> Option<usize> {
    tokens.get(number).map(|token| token.start as usize)
}

/// The cells of a table: the sheet of its content, and where that content stands.
#[derive(Clone, Copy)]
pub struct Cells<'a> {
    pub page: Page<'a>,
    pub sheet: &'a Sheet<'a>,
}

impl Cells<'_> {
    /// Prints the cells.
    // An arm for each format: each has a cutter of a type of its own. A `&dyn Cutter` to one of three that are made
    // ahead of the `match` would be longer.
    pub fn print<R: Print + AllocGlobal>(self, rt: &R) -> Result<(), Unfinished> {
        let separator = self.page.table.separator;
        match self.page.table.format {
            Format::Prefix => self.print_cut(rt, &Prefix::new(separator)?)?,
            Format::Csv => self.print_cut(rt, &Csv::new(separator)?)?,
            Format::Dsv => self.print_cut(rt, &Dsv::new(separator)?)?,
        }
        Ok(())
    }

    /// Cuts and prints one cell after another, and counts them.
    // Counted by hand and not by `enumerate`: a cell lies in lists that the next cut writes, so cells are no iterator.
    fn print_cut<R: Print + AllocGlobal, K: Cutter>(self, rt: &R, cutter: &K) -> io::Result<()> {
        let Cells { page: _, sheet } = self;
        let room = sheet.tokens().len().saturating_add(1);
        let mut piece_memory = vec![in rt.alloc(); Piece::default(); room]?;
        let mut note_memory = vec![in rt.alloc(); Note::default(); room]?;
        let mut pieces = Store::new(piece_memory.as_mut_slice());
        let mut list = Store::new(note_memory.as_mut_slice());
        let mut at = Position::START;
        let mut cells: usize = 0;
        let mut notes: usize = 0;
        'cells: while let Ok(Some(cell)) = cutter.cut(sheet, at, &mut pieces, &mut list) {
            cells = cells.saturating_add(1);
            notes = notes.saturating_add(cell.notes);
            self.print_cell(rt, cells, cell, pieces.entries())?;
            self.print_notes(rt, list.entries())?;
            pieces.truncate(0);
            list.truncate(0);
            at = cell.rest;
        }
        println!(rt; "  cells      {cells}, with {}", Counted(notes, "note"))
    }

    /// Prints a cell: its number, its specifier where one is written, its text and its marks.
    fn print_cell(
        self,
        rt: &impl Print,
        number: usize,
        cell: Cut,
        pieces: &[Piece],
    ) -> io::Result<()> {
        println!(rt;
            "    {number:>4} {}\"{}\"{}{}{}",
            Said(cell.specifier),
            Text(self.sheet, pieces),
            cell.line_end.then_some(" line end").unwrap_or(""),
            cell.blank_after.then_some(", blank after").unwrap_or(""),
            cell.blank_inside.then_some(", blank inside").unwrap_or("")
        )
    }

    /// Prints the notes of a cell, each with the place of its token or of the content's end.
    // Whole lines, one for each note.
    fn print_notes(self, rt: &impl Print, notes: &[Note]) -> io::Result<()> {
        let Cells { page, sheet } = self;
        for note in notes {
            let offset = start_of(sheet.tokens(), note.token as usize);
            println!(rt;
                "         note {} at {}: {}",
                note.number,
                Said(page.place_of(offset.unwrap_or(sheet.page().len()))),
                Said(*note)
            )?;
        }
        Ok(())
    }
}

/// The text of a cell: the bytes of its pieces.
#[derive(Clone, Copy)]
struct Text<'a>(&'a Sheet<'a>, &'a [Piece]);

impl fmt::Display for Text<'_> {
    fn fmt<W: fmt::Write>(&self, f: &mut fmt::Formatter<W>) -> fmt::Result {
        let Text(sheet, pieces) = *self;
        for bytes in pieces.iter().filter_map(|piece| sheet.bytes(*piece)) {
            Said(bytes).fmt(f)?;
        }
        Ok(())
    }
}
